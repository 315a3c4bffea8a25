//! A block of each of four messages.
ghost use Rattle.std.specs.Prelude.{◌≡◌, ℕ, ◌<◌, length};
ghost use Rattle.sha2.specs.Sha256.{add_state, compress};
ghost use Rattle.hash_lanes.specs.Lanes.{lane, of_four};

use crate::rounds::{first_sixteen_steps, sixteen_steps};
use crate::schedule::load;
use crate::words::add;
use std::simd::u32x4;

// The sums of two states, word by word.
#[inline(always)]
fn add_states(h: [u32x4; 8], v: [u32x4; 8]) -> [u32x4; 8]
    ensures { (j : ℕ) → j < 4 → lane j result ≡ add_state (lane j h) (lane j v) }
{
    let [h0, h1, h2, h3, h4, h5, h6, h7] = h;
    let [v0, v1, v2, v3, v4, v5, v6, v7] = v;
    let s0 = add(h0, v0);
    let s1 = add(h1, v1);
    let s2 = add(h2, v2);
    let s3 = add(h3, v3);
    let s4 = add(h4, v4);
    let s5 = add(h5, v5);
    let s6 = add(h6, v6);
    let s7 = add(h7, v7);
    [s0, s1, s2, s3, s4, s5, s6, s7]
}

/// The states after a block more of each message.
pub(crate) fn compress(
    state: [u32x4; 8],
    first: &[u8],
    second: &[u8],
    third: &[u8],
    fourth: &[u8],
) -> [u32x4; 8]
    requires first { length first.now ≡ 64 }
    requires second { length second.now ≡ 64 }
    requires third { length third.now ≡ 64 }
    requires fourth { length fourth.now ≡ 64 }
    ensures { (j : ℕ) → j < 4 → lane j result
        ≡ compress (lane j state) (of_four first.now second.now third.now fourth.now j) }
{
    let mut w = [u32x4::splat(0); 16];
    'load: for i in 0..16 {
        let word = load(first, second, third, fourth, 4 * i);
        w[i] = word;
    }
    let first_rounds = first_sixteen_steps(&w, state);
    let mut v = first_rounds;
    // Sixteen rounds a turn, so that each word's place in the ring is a constant.
    'schedule: for turn in 1..4 {
        let next = sixteen_steps(&mut w, v, turn);
        v = next;
    }
    add_states(state, v)
}
