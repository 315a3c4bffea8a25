//! The chunker.
ghost use Rattle.std.specs.Prelude.{◌≡◌, ℕ, ◌+◌, ◌^◌, ◌<◌, ◌≤◌, ◌++◌, [], ◌==◌, if◌then◌else◌, List, length};
ghost use Rattle.std.specs.Prelude.{slice_index, OnOk, OnErr, IsOk};
ghost use Rattle.cd_base.specs.Limits.{secret_limit};
ghost use Rattle.rabin_chunker.specs.Cuts.{fingerprint_of, is_cut, ends_after, last_end};
ghost use Rattle.rabin_chunker.specs.Window.{IsNear, oldest_first};
ghost use Rattle.rabin_chunker.specs.Walk.{Arrives, Walked};

use crate::scan::{is_marked, scan};
use crate::tables::roll;
use cd_base::{Ends, NoMemory, SECRET_LIMIT};

/// Cuts a file into secrets as its bytes come in. It keeps the newest 48 bytes, and no more of the input.
///
/// A contract says what a chunker has read since it was made or last finished: `HasRead chunker fed`.
#[derive(Drop)]
pub struct Chunker {
    place: u64,
    inside: usize,
    window: [u8; 48],
    next: usize,
    fingerprint: u64,
    ghost unended: { inside < secret_limit },
    ghost within: { next < 48 },
    ghost long: { length window ≡ 48 },
    ghost bytes: { (i : ℕ) → slice_index window i < 256 },
    ghost kept: { fingerprint ≡ fingerprint_of (oldest_first next window) },
}

/// Whether a secret of `inside` bytes ends, by the fingerprint of its last 48.
#[inline(always)]
fn ends_here(inside: usize, fingerprint: u64) -> bool
    ensures { result ≡ is_cut inside fingerprint }
{
    inside >= 2048 && is_marked(fingerprint) || inside == SECRET_LIMIT as usize
}

/// The place after `next` on a ring of 48.
#[inline(always)]
fn following(next: usize) -> usize
    requires { next < 48 }
    ensures within { result < 48 }
    ensures is { result ≡ (if next == 47 then 0 else next + 1) }
{
    if next == 47 { 0 } else { next + 1 }
}

/// What a step has read, and the window after it.
#[derive(Clone, Copy)]
struct Step {
    read: usize,
    next: usize,
    fingerprint: u64,
}

/// Reads on, up to the next place where the secret may end, or less: byte by byte where the window has bytes from before
/// the piece or the secret is still short, and from there in one go.
#[inline(always)]
fn advance(
    window: &mut [u8; 48],
    next: usize,
    fingerprint: u64,
    inside: usize,
    piece: &[u8],
    at: usize,
) -> Step
    requires place { next < 48 }
    requires bytes { (i : ℕ) → slice_index window.old i < 256 }
    requires kept { fingerprint ≡ fingerprint_of (oldest_first next window.old) }
    requires near { IsNear piece.now at inside (oldest_first next window.old) }
    requires more { at < length piece.now }
    requires begun { 2000 ≤ inside }
    requires unended { inside < secret_limit }
    ensures arrives { (fed before now : List ℕ)
        → Walked (fed ++ piece.now) (length fed) at inside next window.old before now
        → Arrives (fed ++ piece.now)
        (length fed) at inside result.read result.next result.fingerprint window.new before now }
    ensures some { 0 < result.read }
    ensures in_piece { at + result.read ≤ length piece.now }
    ensures longest { inside + result.read ≤ secret_limit }
    ensures near { IsNear piece.now (at + result.read) (inside + result.read) (oldest_first result.next window.new) }
    ensures place { result.next < 48 }
    ensures long { length window.new ≡ 48 }
    ensures bytes { (i : ℕ) → slice_index window.new i < 256 }
    ensures kept { result.fingerprint ≡ fingerprint_of (oldest_first result.next window.new) }
{
    if inside >= 2048 && at >= 48 {
        let most = (SECRET_LIMIT as usize - inside).min(piece.len() - at);
        let stop = scan(piece, at, at + most, fingerprint);
        window.copy_from_slice(&piece[stop.at - 48..stop.at]);
        return Step {
            read: stop.at - at,
            next: 0,
            fingerprint: stop.fingerprint,
        };
    }
    let newest = piece[at];
    let rolled = roll(fingerprint, window[next], newest);
    window[next] = newest;
    let moved = following(next);
    Step {
        read: 1,
        next: moved,
        fingerprint: rolled,
    }
}

impl Chunker {
    ghost use Rattle.rabin_chunker.specs.Reading.{HasRead, bytes_fed};

    /// A chunker that has read nothing. It takes no memory.
    pub fn new() -> Chunker
        ensures { HasRead result [] }
    {
        Chunker {
            place: 0,
            inside: 0,
            window: [0; 48],
            next: 0,
            fingerprint: 0,
        }
    }

    /// How many bytes were read since `new` or the last `finish`.
    pub fn bytes_fed(&self) -> u64
        ensures { result ≡ bytes_fed self.now }
    {
        self.place
    }

    /// Reads a piece, and appends the ends, as places in the whole input, that come within the bytes read so far,
    /// wherever the file ends. With this piece fewer than 2^64 bytes are read since `new` or the last `finish`.
    ///
    /// For want of memory (`NoMemory`) nothing changes: the piece is not read, and no end is appended. Where no end comes
    /// within the piece, no memory is asked for.
    pub fn feed(&mut self, piece: &[u8], cuts: &mut Ends) -> Result<(), NoMemory>
        requires { bytes_fed self.old + length piece.now < 2 ^ 64 }
        ensures read { OnOk result ((fed : List ℕ) → HasRead self.old fed → HasRead self.new (fed ++ piece.now)) }
        ensures appended { OnOk result ((fed : List ℕ) → HasRead self.old fed
            → cuts.new ≡ cuts.old ++ ends_after (fed ++ piece.now) (length fed) (length piece.now)) }
        ensures unread { OnErr result (self.new ≡ self.old) }
        ensures unappended { OnErr result (cuts.new ≡ cuts.old) }
        ensures quiet { (fed : List ℕ) → HasRead self.old fed
            → ends_after (fed ++ piece.now) (length fed) (length piece.now) ≡ [] → IsOk result }
    {
        let had = cuts.len();
        let mut window = self.window;
        let mut next = self.next;
        let mut fingerprint = self.fingerprint;
        let mut inside = self.inside;
        let mut at = 0;
        while at < piece.len() {
            if inside < 2000 {
                let skipped = (2000 - inside).min(piece.len() - at);
                inside += skipped;
                at += skipped;
            } else {
                let moved = advance(&mut window, next, fingerprint, inside, piece, at);
                next = moved.next;
                fingerprint = moved.fingerprint;
                at += moved.read;
                inside += moved.read;
                if ends_here(inside, fingerprint) {
                    inside = 0;
                    if cuts.push(self.place + at as u64).is_err() {
                        cuts.truncate(had);
                        return Err(NoMemory);
                    }
                }
            }
        }
        *self = Chunker {
            place: self.place + at as u64,
            inside,
            window,
            next,
            fingerprint,
        };
        Ok(())
    }

    /// Appends the end of the last secret, if that is not empty, and begins anew: the next byte is at place 0 of another
    /// input.
    ///
    /// For want of memory (`NoMemory`) nothing changes.
    pub fn finish(&mut self, cuts: &mut Ends) -> Result<(), NoMemory>
        ensures read { OnOk result (HasRead self.new []) }
        ensures appended { OnOk result ((fed : List ℕ) → HasRead self.old fed → cuts.new ≡ cuts.old ++ last_end fed) }
        ensures unread { OnErr result (self.new ≡ self.old) }
        ensures unappended { OnErr result (cuts.new ≡ cuts.old) }
        ensures quiet { (fed : List ℕ) → HasRead self.old fed → last_end fed ≡ [] → IsOk result }
    {
        if self.inside > 0 && cuts.push(self.place).is_err() {
            return Err(NoMemory);
        }
        self.place = 0;
        self.inside = 0;
        Ok(())
    }
}
