//! The mask of a key: the cipher texts of the counter blocks 0, 1, 2 and so on, one after the other.
ghost use Rattle.std.specs.Prelude.{◌≡◌, ℕ, ◌+◌, ◌*◌, ◌/◌, ◌%◌, ◌<◌, ◌≤◌, ◌^◌, List, length, slice_index, bit_xor};
ghost use Rattle.aes256.specs.Cipher.{added, cipher_with};
ghost use Rattle.aes256.specs.Mask.{counter_block, mask};
ghost use Rattle.aes256.specs.Planes.{AreRoundKeyPlanes, lanes_at};

use crate::cipher::encrypt;
use crate::planes::Planes;
use crate::schedule::round_keys;
use crate::transposition::{to_blocks, to_planes};
use std::simd::prelude::*;

/// The number i as a block of 16 bytes, high byte first.
#[tactic(auto, unfolding(crate::specs::Mask::counter_block))]
#[inline(always)]
fn counter(i: u64) -> u8x16
    ensures { result ≡ counter_block i }
{
    let [a, b, c, d, e, f, g, h] = i.to_be_bytes();
    u8x16::from_array([0, 0, 0, 0, 0, 0, 0, 0, a, b, c, d, e, f, g, h])
}

/// Eight blocks of a mask, from block i on.
#[inline(always)]
fn masks(rounds: &[Planes; 15], i: u64) -> Planes
    requires { i + 8 < 2 ^ 64 }
    ensures { (k p : ℕ) (words : List ℕ) → k < 8 → p < 16 → AreRoundKeyPlanes rounds.now words
        → slice_index (lanes_at result p) k ≡ slice_index (cipher_with words (counter_block (i + k))) p }
{
    let c0 = counter(i);
    let c1 = counter(i + 1);
    let c2 = counter(i + 2);
    let c3 = counter(i + 3);
    let c4 = counter(i + 4);
    let c5 = counter(i + 5);
    let c6 = counter(i + 6);
    let c7 = counter(i + 7);
    let counters = Planes {
        p0: c0,
        p1: c1,
        p2: c2,
        p3: c3,
        p4: c4,
        p5: c5,
        p6: c6,
        p7: c7,
    };
    let planes = to_planes(counters);
    let ciphers = encrypt(rounds, planes);
    to_blocks(ciphers)
}

/// The bytes of eight blocks, one block after the other.
#[inline(always)]
fn bytes_of(blocks: Planes) -> [u8; 128]
    ensures { (q : ℕ) → q < 128 → slice_index result q ≡ slice_index (lanes_at blocks (q % 16)) (q / 16) }
{
    let rows = [
        blocks.p0.to_array(),
        blocks.p1.to_array(),
        blocks.p2.to_array(),
        blocks.p3.to_array(),
        blocks.p4.to_array(),
        blocks.p5.to_array(),
        blocks.p6.to_array(),
        blocks.p7.to_array(),
    ];
    let mut bytes = [0u8; 128];
    'rows: for k in 0..8 {
        bytes[16 * k..16 * k + 16].copy_from_slice(&rows[k]);
    }
    bytes
}

/// Adds the first bytes of a mask to the bytes of a part of a text.
#[inline(always)]
fn add_mask(part: &mut [u8], mask: &[u8; 128])
    requires { length part.old ≤ 128 }
    ensures { (q : ℕ) → q < length part.old
        → slice_index part.new q ≡ bit_xor (slice_index part.old q) (slice_index mask.now q) }
{
    'bytes: for q in 0..part.len() {
        part[q] ^= mask[q];
    }
}

/// Adds the mask of the key `h` to a text: each byte of the text becomes its sum with the byte of the mask at its place.
///
/// The mask is as long as the text. Adding it twice gives the text back. The key is expanded once, and eight blocks are
/// made at a time.
pub fn xor_mask(h: &[u8; 32], text: &mut [u8])
    ensures { text.new ≡ added text.old (mask h.now (length text.old)) }
{
    let rounds = round_keys(h);
    let count = text.len() / 128;
    'parts: for i in 0..count {
        let blocks = masks(&rounds, 8 * i as u64);
        let mask = bytes_of(blocks);
        add_mask(&mut text[128 * i..128 * i + 128], &mask);
    }
    let done = 128 * count;
    if done < text.len() {
        let blocks = masks(&rounds, 8 * count as u64);
        let mask = bytes_of(blocks);
        add_mask(&mut text[done..], &mask);
    }
}
