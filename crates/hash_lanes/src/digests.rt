//! The digests of four messages.
ghost use Rattle.std.specs.Prelude.{◌≡◌, ℕ, ◌+◌, ◌<◌, [], ◌≢◌, slice_index, slice_index_or};
ghost use Rattle.sha2.specs.Sha256.{digest_bytes, initial_hash_256, sha256};
ghost use Rattle.hash_lanes.specs.Lanes.{lane};

use crate::compression::compress;
use crate::message::{block_at, tail_of};
use std::simd::u32x4;

// The initial hash value (FIPS 180-4, 5.3.3), in each lane.
fn initial_states() -> [u32x4; 8]
    ensures { (j : ℕ) → j < 4 → lane j result ≡ initial_hash_256 }
{
    [
        u32x4::splat(0x6A09E667),
        u32x4::splat(0xBB67AE85),
        u32x4::splat(0x3C6EF372),
        u32x4::splat(0xA54FF53A),
        u32x4::splat(0x510E527F),
        u32x4::splat(0x9B05688C),
        u32x4::splat(0x1F83D9AB),
        u32x4::splat(0x5BE0CD19),
    ]
}

// A word of a lane.
fn word_of(state: &[u32x4; 8], i: usize, j: usize) -> u32
    requires word { i < 8 }
    requires lane { j < 4 }
    ensures { result ≡ slice_index (lane j state.now) i }
{
    let word = state[i].to_array();
    word[j]
}

// The words of a lane, high byte first.
fn digest_of(state: &[u32x4; 8], j: usize) -> [u8; 32]
    requires { j < 4 }
    ensures { result ≡ digest_bytes (lane j state.now) 8 }
{
    let mut out = [0u8; 32];
    'words: for i in 0..8 {
        let word = word_of(state, i, j);
        out[4 * i..4 * i + 4].copy_from_slice(&word.to_be_bytes());
    }
    out
}

// The digest of a lane whose message ends with the block that was just taken, or what was there before.
fn digest_at(kept: [u8; 32], done: usize, blocks: usize, state: &[u32x4; 8], j: usize) -> [u8; 32]
    requires { j < 4 }
    ensures ended { done ≡ blocks → result ≡ digest_bytes (lane j state.now) 8 }
    ensures kept { done ≢ blocks → result ≡ kept }
{
    if done == blocks {
        digest_of(state, j)
    } else {
        kept
    }
}

/// The SHA-256 of four messages (FIPS 180-4). It takes the time of the longest of them in each lane, so that they should be of
/// about one length.
pub fn sha256_of_four(first: &[u8], second: &[u8], third: &[u8], fourth: &[u8]) -> [[u8; 32]; 4]
    ensures first { slice_index_or result 0 [] ≡ sha256 first.now }
    ensures second { slice_index_or result 1 [] ≡ sha256 second.now }
    ensures third { slice_index_or result 2 [] ≡ sha256 third.now }
    ensures fourth { slice_index_or result 3 [] ≡ sha256 fourth.now }
{
    let tail0 = tail_of(first);
    let tail1 = tail_of(second);
    let tail2 = tail_of(third);
    let tail3 = tail_of(fourth);
    let left = tail0.blocks.max(tail1.blocks);
    let right = tail2.blocks.max(tail3.blocks);
    let most = left.max(right);
    let mut state = initial_states();
    let mut digest0 = [0u8; 32];
    let mut digest1 = [0u8; 32];
    let mut digest2 = [0u8; 32];
    let mut digest3 = [0u8; 32];
    'blocks: for t in 0..most {
        let block0 = block_at(first, &tail0, t);
        let block1 = block_at(second, &tail1, t);
        let block2 = block_at(third, &tail2, t);
        let block3 = block_at(fourth, &tail3, t);
        let next = compress(state, block0, block1, block2, block3);
        let next0 = digest_at(digest0, t + 1, tail0.blocks, &next, 0);
        let next1 = digest_at(digest1, t + 1, tail1.blocks, &next, 1);
        let next2 = digest_at(digest2, t + 1, tail2.blocks, &next, 2);
        let next3 = digest_at(digest3, t + 1, tail3.blocks, &next, 3);
        state = next;
        digest0 = next0;
        digest1 = next1;
        digest2 = next2;
        digest3 = next3;
    }
    [digest0, digest1, digest2, digest3]
}
