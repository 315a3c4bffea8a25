//! The words of the schedule (FIPS 180-4, 6.2.2) of four messages at once.
ghost use Rattle.std.specs.Prelude.{◌≡◌, ℕ, ◌+◌, ◌<◌, ◌≤◌, length, slice_index, slice_set};
ghost use Rattle.sha2.specs.Sha256.{window_word, word_at};
ghost use Rattle.hash_lanes.specs.Lanes.{lane, of_four};

use crate::words::{add, lower_sigma0, lower_sigma1};
use std::simd::u32x4;

// The word at byte i of a block.
#[inline(always)]
fn load_be(block: &[u8], i: usize) -> u32
    requires { i + 4 ≤ length block.now }
    ensures { result ≡ word_at block.now i }
{
    u32::from_be_bytes([block[i], block[i + 1], block[i + 2], block[i + 3]])
}

/// The words at byte i of four blocks.
#[inline(always)]
pub(crate) fn load(first: &[u8], second: &[u8], third: &[u8], fourth: &[u8], i: usize) -> u32x4
    requires first { i + 4 ≤ length first.now }
    requires second { i + 4 ≤ length second.now }
    requires third { i + 4 ≤ length third.now }
    requires fourth { i + 4 ≤ length fourth.now }
    ensures { (j : ℕ) → j < 4
        → slice_index result j ≡ word_at (of_four first.now second.now third.now fourth.now j) i }
{
    u32x4::from_array([
        load_be(first, i),
        load_be(second, i),
        load_be(third, i),
        load_be(fourth, i),
    ])
}

/// The next word of each schedule, of a ring of the last 16 words: it goes at `place`, over the word 16 before it.
#[inline(always)]
pub(crate) fn next_word(w: &mut [u32x4; 16], place: usize) -> u32x4
    requires { place < 16 }
    ensures value { (j : ℕ) → j < 4 → slice_index result j ≡ window_word (lane j w.old) place }
    ensures window { (j : ℕ) → j < 4 → lane j w.new ≡ slice_set (lane j w.old) place (slice_index result j) }
{
    let far = lower_sigma1(w[(place + 14) % 16]);
    let near = add(far, w[(place + 9) % 16]);
    let old = lower_sigma0(w[(place + 1) % 16]);
    let sum = add(near, old);
    let word = add(sum, w[place]);
    w[place] = word;
    word
}
