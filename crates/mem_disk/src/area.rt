//! One area in memory: two ranges of bytes, and a log of what was written into them.

ghost use Rattle.std.specs.Prelude.{◌≡◌, ◌↔◌, ◌⊎◌, ℕ, ◌+◌, ◌-◌, ◌^◌, ◌≤◌, ◌<◌, List, [], ◌∷◌, ◌++◌, IsTrue, IfOk, false, vec_len, vec_capacity, length, take, cond, nat_le, slice_index};
ghost use Rattle.cd_edges.specs.Disk.{overwritten};
ghost use Rattle.cd_edges.specs.Shelf.{ReadsFrom};
ghost use Rattle.mem_disk.specs.Crashed.{is_in, filled_from, same_area};

use crate::Note;
use cd_edges::{Area, NoMemory};
use std::alloc::Global;

/// The bytes of an area, and a log of all bytes that were put into it. All have their memory from the start. There are
/// two ranges, so that a place far behind the first bytes can be written to without memory for what lies between: that
/// reads as zeros.
#[derive(Drop)]
pub struct MemArea {
    /// How many bytes each range takes, and the log too.
    pub room: u64,
    /// The place of the second range.
    pub second: u64,
    /// What the first range has.
    pub bytes: Vec<u8>,
    /// What the second range has.
    pub high: Vec<u8>,
    /// What was put, one write behind another. It only grows.
    pub log: Vec<u8>,
    pub ghost placed: { second < 2 ^ 62 },
    pub ghost apart: { vec_len bytes ≤ second },
    pub ghost bytes_fit: { vec_len bytes ≤ room },
    pub ghost high_fits: { vec_len high ≤ room },
    pub ghost log_fits: { vec_len log ≤ room },
    pub ghost bytes_held: { room ≤ vec_capacity bytes },
    pub ghost high_held: { room ≤ vec_capacity high },
    pub ghost log_held: { room ≤ vec_capacity log },
}

// Puts what there is from a place in front of a buffer.
fn copy_from(held: &[u8], at: u64, out: &mut [u8]) -> usize
    ensures bytes { ReadsFrom held.now at result out.new }
    ensures bound { result ≤ length out.new }
    ensures len { length out.new ≡ length out.old }
{
    if at >= held.len() as u64 {
        return 0;
    }
    let rest = &held[at as usize..];
    let count = out.len().min(rest.len());
    out[..count].copy_from_slice(&rest[..count]);
    count
}

// Puts the bytes over what is there and past the end, with zeros in a gap.
fn put_over(held: &mut Vec<u8>, at: usize, bytes: &[u8])
    requires { at + length bytes.now ≤ vec_capacity held.old }
    ensures items { held.new.items ≡ overwritten held.old.items at bytes.now }
    ensures memory { vec_capacity held.old ≤ vec_capacity held.new }
{
    if held.len() < at {
        let _ = held.resize(at, 0);
    }
    let over = bytes.len().min(held.len() - at);
    held[at..at + over].copy_from_slice(&bytes[..over]);
    let _ = held.extend_from_slice(&bytes[over..]);
}

// Fills so many bytes from a place, as far as they are there.
fn fill_from(held: &mut [u8], at: u64, len: u64, fill: u8)
    ensures { held.new ≡ filled_from 0 fill ((at, at + len) ∷ []) held.old }
{
    let from = at.min(held.len() as u64) as usize;
    let count = len.min((held.len() - from) as u64) as usize;
    held[from..from + count].fill(fill);
}

// Fills so many bytes from a place, as far as they are in bytes that begin at `second`.
fn fill_behind(held: &mut [u8], second: u64, at: u64, len: u64, fill: u8)
    ensures { held.new ≡ filled_from second fill ((at, at + len) ∷ []) held.old }
{
    let before = second.saturating_sub(at);
    fill_from(
        held,
        at.saturating_sub(second),
        len.saturating_sub(before),
        fill,
    );
}

// Whether two areas are one.
fn is_same(one: Area, other: Area) -> bool
    ensures { result ≡ same_area one other }
{
    match one {
        Area::Journal => matches!(other, Area::Journal),
        Area::Shares => matches!(other, Area::Shares),
        Area::Recipes => matches!(other, Area::Recipes),
    }
}

impl MemArea {
    ghost use Rattle.mem_disk.specs.Areas.{FitsArea, EndsIn, LiesInRanges, held};
    ghost use Rattle.mem_disk.specs.Crashed.{with_note, ranges_in, left_by};

    /// An empty area whose ranges and log have this room each.
    pub fn of(alloc: Global, room: u64, second: u64) -> Result<MemArea, NoMemory>
        requires { second < 2 ^ 62 }
        ensures room { IfOk result (λ area. area.room ≡ room) }
        ensures second { IfOk result (λ area. area.second ≡ second) }
        ensures held { IfOk result (λ area. held area ≡ []) }
        ensures log { IfOk result (λ area. area.log.items ≡ []) }
    {
        Ok(MemArea {
            room,
            second,
            bytes: Vec::with_capacity(alloc, room as usize)?,
            high: Vec::with_capacity(alloc, room as usize)?,
            log: Vec::with_capacity(alloc, room as usize)?,
        })
    }

    /// How many bytes the area has, with what lies between its ranges.
    pub fn len(&self) -> u64
        ensures { result ≡ length (held self.now) }
    {
        if self.high.is_empty() {
            self.bytes.len() as u64
        } else {
            self.second + self.high.len() as u64
        }
    }

    // The byte at a place; 0 where there is none.
    fn byte(&self, at: u64) -> u8
        ensures { result ≡ slice_index (held self.now) at }
    {
        let found = if at < self.second {
            self.bytes.get(at as usize)
        } else {
            self.high.get((at - self.second) as usize)
        };
        found.copied().unwrap_or(0)
    }

    // Puts what there is from a place in front of a buffer, byte by byte.
    fn read_across(&self, at: u64, out: &mut [u8]) -> usize
        ensures bytes { ReadsFrom (held self.now) at result out.new }
        ensures bound { result ≤ length out.new }
    {
        let count = self.len().saturating_sub(at).min(out.len() as u64) as usize;
        for place in 0..count {
            out[place] = self.byte(at + place as u64);
        }
        count
    }

    // Whether so many bytes from the place are read from the first range alone.
    fn reads_first(&self, at: u64, len: usize) -> bool
        ensures on { IsTrue result → (vec_len self.now.high ≡ 0) ⊎ (at + len ≤ vec_len self.now.bytes) }
        ensures off { result ≡ false → 0 < vec_len self.now.high }
    {
        let first = self.bytes.len() as u64;
        self.high.is_empty() || at <= first && len as u64 <= first - at
    }

    /// Puts what there is from a place in front of a buffer.
    pub fn read(&self, at: u64, out: &mut [u8]) -> usize
        ensures bytes { ReadsFrom (held self.now) at result out.new }
        ensures bound { result ≤ length out.new }
    {
        if self.reads_first(at, out.len()) {
            copy_from(&self.bytes, at, out)
        } else if self.second <= at {
            copy_from(&self.high, at - self.second, out)
        } else {
            self.read_across(at, out)
        }
    }

    // Whether so many bytes at the place end in the first range.
    fn is_first(&self, at: u64, len: u64) -> bool
        ensures { result ≡ nat_le (at + len) self.now.second }
    {
        at <= self.second && len <= self.second - at
    }

    /// Whether so many bytes fit at the place, in one of the ranges, and into the log.
    pub fn fits(&self, at: u64, len: usize) -> bool
        ensures { IsTrue result ↔ FitsArea self.now at len }
    {
        let len = len as u64;
        let in_range = if self.is_first(at, len) {
            at + len <= self.room
        } else {
            self.second <= at
                && at - self.second <= self.room
                && len <= self.room - (at - self.second)
        };
        in_range && len <= self.room - self.log.len() as u64
    }

    /// Puts the bytes at the place, with zeros in a gap before it.
    pub fn put(&mut self, at: u64, bytes: &[u8])
        requires { FitsArea self.old at (length bytes.now) }
        ensures room { self.new.room ≡ self.old.room }
        ensures second { self.new.second ≡ self.old.second }
        ensures held { held self.new ≡ overwritten (held self.old) at bytes.now }
        ensures log { self.new.log.items ≡ self.old.log.items ++ bytes.now }
        ensures grows { vec_len self.old.bytes ≤ vec_len self.new.bytes }
        ensures covers { (at + length bytes.now ≤ vec_len self.new.bytes) ⊎ (self.old.second ≤ at) }
    {
        let _ = self.log.extend_from_slice(bytes);
        if self.is_first(at, bytes.len() as u64) {
            put_over(&mut self.bytes, at as usize, bytes);
        } else {
            put_over(&mut self.high, (at - self.second) as usize, bytes);
        }
    }

    /// Makes the area empty. The log stays.
    pub fn empty(&mut self)
        ensures room { self.new.room ≡ self.old.room }
        ensures second { self.new.second ≡ self.old.second }
        ensures held { held self.new ≡ [] }
        ensures log { self.new.log.items ≡ self.old.log.items }
    {
        self.bytes.clear();
        self.high.clear();
    }

    // Fills so many bytes from a place, as far as they are in the ranges.
    fn fill(&mut self, at: u64, len: u64, fill: u8)
        ensures first { self.new.bytes.items ≡ filled_from 0 fill ((at, at + len) ∷ []) self.old.bytes.items }
        ensures high { self.new.high.items
            ≡ filled_from self.old.second fill ((at, at + len) ∷ []) self.old.high.items }
        ensures room { self.new.room ≡ self.old.room }
        ensures second { self.new.second ≡ self.old.second }
        ensures log { self.new.log.items ≡ self.old.log.items }
    {
        fill_from(&mut self.bytes, at, len, fill);
        fill_behind(&mut self.high, self.second, at, len, fill);
    }

    // Goes back by one note, and fills what it wrote into the area. Whether the notes before it count too.
    fn go_back(&mut self, area: Area, note: Note, fill: u8) -> bool
        ensures first { (ranges : List (ℕ × ℕ)) → filled_from 0 fill (with_note area ranges note) self.old.bytes.items
            ≡ cond result (filled_from 0 fill ranges self.new.bytes.items) self.new.bytes.items }
        ensures high { (ranges : List (ℕ × ℕ)) →
            filled_from self.old.second fill (with_note area ranges note) self.old.high.items
            ≡ cond result (filled_from self.old.second fill ranges self.new.high.items) self.new.high.items }
        ensures room { self.new.room ≡ self.old.room }
        ensures second { self.new.second ≡ self.old.second }
        ensures log { self.new.log.items ≡ self.old.log.items }
    {
        match note {
            Note::Wrote {
                area: other,
                at,
                len,
                ..
            } => {
                if is_same(other, area) {
                    self.fill(at, len as u64, fill);
                }
                true
            }
            Note::Synced { area: other } => !is_same(other, area),
            Note::Emptied => false,
            Note::Crashed { .. } => false,
        }
    }

    // Fills what was written since the last sync.
    fn fill_since(&mut self, area: Area, notes: &[Note], fill: u8)
        ensures first { self.new.bytes.items ≡ filled_from 0 fill (ranges_in area [] notes.now) self.old.bytes.items }
        ensures high { self.new.high.items
            ≡ filled_from self.old.second fill (ranges_in area [] notes.now) self.old.high.items }
        ensures room { self.new.room ≡ self.old.room }
        ensures second { self.new.second ≡ self.old.second }
        ensures log { self.new.log.items ≡ self.old.log.items }
    {
        for gone in 0..notes.len() {
            let note = notes[notes.len() - 1 - gone];
            if !self.go_back(area, note, fill) {
                return;
            }
        }
    }

    // Takes away what lies from this place on.
    fn cut(&mut self, len: u64)
        requires { EndsIn self.old len }
        ensures held { held self.new ≡ take len (held self.old) }
        ensures room { self.new.room ≡ self.old.room }
        ensures second { self.new.second ≡ self.old.second }
        ensures log { self.new.log.items ≡ self.old.log.items }
    {
        if self.second < len {
            self.high.truncate((len - self.second) as usize);
        } else {
            self.high.clear();
            self.bytes.truncate(len as usize);
        }
    }

    /// Fills what the notes say was written since the last sync, and takes away what lies past the synced length, but
    /// for `whole`.
    pub fn crash(&mut self, area: Area, notes: &[Note], synced: u64, fill: u8, whole: bool)
        requires cut { EndsIn self.old synced }
        requires covered { (k : ℕ) → IsTrue (is_in (ranges_in area [] notes.now) k) → LiesInRanges self.old k }
        ensures held { held self.new ≡ left_by fill whole (ranges_in area [] notes.now) synced (held self.old) }
        ensures room { self.new.room ≡ self.old.room }
        ensures second { self.new.second ≡ self.old.second }
        ensures log { self.new.log.items ≡ self.old.log.items }
    {
        self.fill_since(area, notes, fill);
        if !whole {
            self.cut(synced);
        }
    }
}
