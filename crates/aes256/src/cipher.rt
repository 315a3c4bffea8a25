//! The cipher (FIPS 197, 5.1) with a key of 8 words.
ghost use Rattle.std.specs.Prelude.{◌≡◌, ℕ, ◌<◌, List};
ghost use Rattle.aes256.specs.Cipher.{cipher, cipher_with, key_words};
ghost use Rattle.aes256.specs.Planes.{IsBlock, AreRoundKeyPlanes};

use crate::planes::{Planes, add, spread};
use crate::rounds::{last_round, round};
use crate::schedule::round_keys;
use crate::transposition::to_blocks;
use std::marker::Model;
use std::simd::prelude::*;

/// A key of 32 bytes, expanded. A contract sees it as its 32 bytes.
#[derive(Drop)]
pub struct Key {
    bytes: [u8; 32],
    rounds: [Planes; 15],
}

impl Model for Key {
    ghost Value = { List ℕ };

    ghost view = { λ k. k.bytes };

    ghost invariant = { λ k. AreRoundKeyPlanes k.rounds (key_words k.bytes 52) };
}

impl Key {
    /// The key of 32 bytes, with its key schedule (FIPS 197, 5.2).
    pub fn of(key: &[u8; 32]) -> Key
        ensures { result ≡ key.now }
    {
        let rounds = round_keys(key);
        Key {
            bytes: *key,
            rounds,
        }
    }
}

/// The cipher text of eight blocks at once.
#[inline(always)]
pub(crate) fn encrypt(rounds: &[Planes; 15], s: Planes) -> Planes
    ensures { (k : ℕ) (text words : List ℕ) → k < 8 → IsBlock s k text → AreRoundKeyPlanes rounds.now words
        → IsBlock result k (cipher_with words text) }
{
    let first = rounds[0];
    let mut state = add(s, first);
    'rounds: for r in 0..13 {
        let next = rounds[r + 1];
        state = round(state, next);
    }
    let last = rounds[14];
    last_round(state, last)
}

/// The cipher text of one block under a key: AES-256 (FIPS 197, 5.1).
pub fn block(key: &Key, text: [u8; 16]) -> [u8; 16]
    ensures { result ≡ cipher key.now text }
{
    let lanes = u8x16::from_array(text);
    let planes = spread(lanes);
    let ciphers = encrypt(&key.rounds, planes);
    let blocks = to_blocks(ciphers);
    blocks.p0.to_array()
}
