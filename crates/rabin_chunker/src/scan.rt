//! The search for the next end in the middle of a secret.
ghost use Rattle.std.specs.Prelude.{◌≡◌, ℕ, ◌+◌, ◌-◌, ◌%◌, ◌^◌, ◌<◌, ◌≤◌, ◌==◌, false, length, slice_range, IfSome};
ghost use Rattle.rabin_chunker.specs.Cuts.{fingerprint_of};
ghost use Rattle.rabin_chunker.specs.Lanes.{AreLanesAt, AreUnmarked, IsUnmarked};

use crate::tables::{roll, roll_two};

/// A place of a piece, and the fingerprint of the 48 bytes before it.
#[derive(Clone, Copy)]
pub(crate) struct Stop {
    pub(crate) at: usize,
    pub(crate) fingerprint: u64,
}

/// Whether the 13 low bits are all one.
#[inline(always)]
pub(crate) fn is_marked(fingerprint: u64) -> bool
    ensures { result ≡ (fingerprint % 2 ^ 13 == 8191) }
{
    fingerprint % 8192 == 8191
}

/// The same as `scan`, two bytes a step.
#[inline(always)]
fn scan_pairs(piece: &[u8], from: usize, to: usize, fingerprint: u64) -> Stop
    requires room { 48 ≤ from }
    requires some { from < to }
    requires within { to ≤ length piece.now }
    requires kept { fingerprint ≡ fingerprint_of (slice_range piece.now (from - 48) from) }
    ensures past { from < result.at }
    ensures within { result.at ≤ to }
    ensures kept { result.fingerprint ≡ fingerprint_of (slice_range piece.now (result.at - 48) result.at) }
    ensures unmarked { (q : ℕ) → from < q → q < result.at
        → (fingerprint_of (slice_range piece.now (q - 48) q) % 2 ^ 13 == 8191) ≡ false }
{
    let mut at = from;
    let mut sum = fingerprint;
    while at + 1 < to {
        let oldest = [piece[at - 48], piece[at - 47]];
        let newest = [piece[at], piece[at + 1]];
        let one = roll(sum, oldest[0], newest[0]);
        if is_marked(one) {
            return Stop {
                at: at + 1,
                fingerprint: one,
            };
        }
        sum = roll_two(sum, oldest, newest);
        at += 2;
        if is_marked(sum) {
            return Stop {
                at,
                fingerprint: sum,
            };
        }
    }
    if at < to {
        let last = roll(sum, piece[at - 48], piece[at]);
        return Stop {
            at: at + 1,
            fingerprint: last,
        };
    }
    Stop {
        at,
        fingerprint: sum,
    }
}

/// The fingerprints of the 48 bytes before four places of a piece, each 256 bytes behind the one before.
#[derive(Clone, Copy)]
struct Lanes {
    first: u64,
    second: u64,
    third: u64,
    fourth: u64,
}

/// The lanes of the block of 1,024 bytes from `at` on, of which the first has the fingerprint that is known there.
#[inline(always)]
fn lanes_at(piece: &[u8], at: usize, fingerprint: u64) -> Lanes
    requires room { 48 ≤ at }
    requires within { at + 1024 ≤ length piece.now }
    requires kept { fingerprint ≡ fingerprint_of (slice_range piece.now (at - 48) at) }
    ensures { AreLanesAt piece.now at result }
{
    let mut second = 0;
    let mut third = 0;
    let mut fourth = 0;
    let mut count = 0;
    while count < 48 {
        second = roll(second, 0, piece[at + 208 + count]);
        third = roll(third, 0, piece[at + 464 + count]);
        fourth = roll(fourth, 0, piece[at + 720 + count]);
        count += 1;
    }
    Lanes {
        first: fingerprint,
        second,
        third,
        fourth,
    }
}

/// The lanes a byte further on.
#[inline(always)]
fn moved(piece: &[u8], at: usize, lanes: Lanes) -> Lanes
    requires room { 48 ≤ at }
    requires within { at + 768 < length piece.now }
    requires lanes { AreLanesAt piece.now at lanes }
    ensures { AreLanesAt piece.now (at + 1) result }
{
    let first = roll(lanes.first, piece[at - 48], piece[at]);
    let second = roll(lanes.second, piece[at + 208], piece[at + 256]);
    let third = roll(lanes.third, piece[at + 464], piece[at + 512]);
    let fourth = roll(lanes.fourth, piece[at + 720], piece[at + 768]);
    Lanes {
        first,
        second,
        third,
        fourth,
    }
}

/// Whether a lane is at a marked place.
#[inline(always)]
fn any_is_marked(lanes: Lanes) -> bool
    ensures { result ≡ false → AreUnmarked lanes }
{
    if is_marked(lanes.first) {
        return true;
    }
    if is_marked(lanes.second) {
        return true;
    }
    if is_marked(lanes.third) {
        return true;
    }
    is_marked(lanes.fourth)
}

/// The fingerprint before the end of the block of 1,024 bytes from `at` on, where no place in it is marked, nor its end; or
/// None where one is. Four places are looked at in a step, 256 bytes apart, since none of their look-ups waits for another.
#[inline(always)]
fn pass(piece: &[u8], at: usize, fingerprint: u64) -> Option<u64>
    requires room { 48 ≤ at }
    requires within { at + 1024 ≤ length piece.now }
    requires kept { fingerprint ≡ fingerprint_of (slice_range piece.now (at - 48) at) }
    ensures kept { IfSome result (λ f. f ≡ fingerprint_of (slice_range piece.now (at + 1024 - 48) (at + 1024))) }
    ensures unmarked { IfSome result (λ _. IsUnmarked piece.now at (at + 1024 + 1)) }
{
    let mut lanes = lanes_at(piece, at, fingerprint);
    let mut count = 0;
    while count < 256 {
        lanes = moved(piece, at + count, lanes);
        count += 1;
        if any_is_marked(lanes) {
            return None;
        }
    }
    Some(lanes.fourth)
}

/// The first place after `from`, up to `to`, before which the 48 bytes of the piece have a fingerprint with its 13 low bits
/// all one, or `to`. Blocks with no such place are passed in four lanes, and the rest is read two bytes a step.
#[inline(always)]
pub(crate) fn scan(piece: &[u8], from: usize, to: usize, fingerprint: u64) -> Stop
    requires room { 48 ≤ from }
    requires some { from < to }
    requires within { to ≤ length piece.now }
    requires kept { fingerprint ≡ fingerprint_of (slice_range piece.now (from - 48) from) }
    ensures past { from < result.at }
    ensures within { result.at ≤ to }
    ensures kept { result.fingerprint ≡ fingerprint_of (slice_range piece.now (result.at - 48) result.at) }
    ensures unmarked { (q : ℕ) → from < q → q < result.at
        → (fingerprint_of (slice_range piece.now (q - 48) q) % 2 ^ 13 == 8191) ≡ false }
{
    let mut at = from;
    let mut sum = fingerprint;
    while to - at > 1024 {
        match pass(piece, at, sum) {
            Some(passed) => {
                at += 1024;
                sum = passed;
            }
            None => return scan_pairs(piece, at, to, sum),
        }
    }
    scan_pairs(piece, at, to, sum)
}
