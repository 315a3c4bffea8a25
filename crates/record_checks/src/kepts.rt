//! The record of a Kept.

ghost use Rattle.std.specs.Prelude.{◌≡◌, ◌↔◌, ◌+◌, ◌*◌, ◌<◌, ◌≤◌, ◌^◌, ℕ, Bool, List, length, take, max, IsTrue};
ghost use Rattle.std.specs.Prelude.{IsSome, IfNone, IfErr, OnOk, MatchOption, MatchResult};
ghost use Rattle.std.specs.FinMap.{get};
ghost use Rattle.cloud_memory.specs.CloudAreas.Placing.{end_of};
ghost use Rattle.cloud_memory.specs.RecordBody.Spelling.{Kept};
ghost use Rattle.cloud_memory.specs.Memory.{Memory};
ghost use Rattle.cloud_memory.specs.Rooms.{memory_of, HasRooms};
ghost use Rattle.cloud_memory.specs.Steps.{with_kepts};
ghost use Rattle.record_checks.specs.Checks.{IsRightKept, KeptFault, AreRightKepts, KeptsFault};
ghost use Rattle.record_checks.specs.Noting.{EndsGrow, kept_field};
ghost use Rattle.record_checks.specs.Steps.{JudgedAs, KeptFacts, keeps_fp, HasKeptRoom};

use crate::limits::places_limit;
use crate::noting::note;
use crate::places::{first_of, lies};
use crate::{Damage, Ground};
use cloud_memory::{CloudMemory, FoundKept, Fp, KeptItems, Place};

// Where the number of items stands in the body.
const COUNT: usize = 1;

/// The place in the body of the first field of a Kept's share at which a check fails, or None where none does, by what
/// is known of its fingerprint: whether it has a place. The shares so far end at `end`.
pub fn kept_fault(
    ground: &Ground,
    inside: bool,
    placed: bool,
    end: u64,
    found: &FoundKept,
) -> Option<usize>
    requires { found.now.place_at ≡ found.now.fp_at + 32 }
    ensures small { IfNone result (end_of found.now.item.place < 2 ^ 64) }
    ensures fault { (m : Memory) → KeptFacts m found.now.item.fp placed end
        → MatchOption result (IsRightKept ground.now inside m found.now.item)
        (λ place. KeptFault ground.now inside m found.now.item found.now.fp_at place) }
{
    let Ground {
        region,
        shares_len,
        ..
    } = *ground;
    if placed {
        Some(found.fp_at)
    } else if !lies(inside, first_of(region), end, shares_len, &found.item.place) {
        Some(found.place_at)
    } else {
        None
    }
}

// Takes the shares, up to the first at which a check fails; that gives the place of its field in the body.
fn take_items(
    memory: &mut CloudMemory,
    field: &mut Option<Damage>,
    ground: &Ground,
    inside: bool,
    body: &[u8],
    at: u64,
    items: KeptItems<'_>,
) -> Result<(), usize>
    requires room { HasKeptRoom ground.now.rooms memory.old items.items }
    requires body { items.body ≡ body.now }
    requires end { at + length body.now < 2 ^ 64 }
    ensures right { MatchResult result (λ _. AreRightKepts ground.now inside (memory_of memory.old) items.entry.items)
        (λ place. KeptsFault ground.now inside (memory_of memory.old) items.entry.at items.entry.items place) }
    ensures taken { OnOk result (memory_of memory.new ≡ with_kepts (memory_of memory.old) items.entry.items) }
    ensures field { OnOk result (field.new
        ≡ kept_field at body.now (memory_of memory.old).shares_end items.entry.at field.old items.entry.items) }
    ensures within { IfErr result (λ place. place < length body.now) }
    ensures ends { EndsGrow ground.now (memory_of memory.old) (memory_of memory.new) }
    ensures rooms { HasRooms ground.now.rooms memory.new }
{
    let mut items = items;
    while let Some(found) = items.next() {
        let placed = memory.place_of(&found.item.fp).is_some();
        let end = memory.shares_end();
        match kept_fault(ground, inside, placed, end, &found) {
            Some(place) => return Err(place),
            None => {
                let place = Some(found.item.place);
                note(field, end, place, body, at, found.place_at);
                memory.take_kept(&found.item);
            }
        }
    }
    Ok(())
}

// Whether one of the first items has the fingerprint.
fn is_kept(items: &KeptItems<'_>, count: usize, fp: &Fp) -> bool
    ensures { result ≡ keeps_fp items.now.items count fp.now }
{
    let mut walk = items.copied();
    for _i in 0..count {
        match walk.next() {
            Some(found) => {
                if found.item.fp == *fp {
                    return true;
                }
            }
            None => return false,
        }
    }
    false
}

// Whether the fingerprint has a place once the first items are taken.
fn is_placed(memory: &CloudMemory, items: &KeptItems<'_>, count: usize, fp: &Fp) -> bool
    ensures { IsTrue result
        ↔ IsSome (get (with_kepts (memory_of memory.now) (take count items.now.items)).places fp.now.0) }
{
    if memory.place_of(fp).is_some() {
        return true;
    }
    is_kept(items, count, fp)
}

// The end, which is behind the place too.
fn end_behind(end: u64, place: &Place) -> u64
    requires { end_of place.now < 2 ^ 64 }
    ensures { result ≡ max end (end_of place.now) }
{
    let other = place.at + u64::from(place.len);
    if end < other { other } else { end }
}

// Looks over shares for which there is no room, up to the first at which a check fails; that gives the place of its
// field in the body. Each is compared with those before it in the record.
fn look_over(
    memory: &CloudMemory,
    ground: &Ground,
    inside: bool,
    items: &KeptItems<'_>,
) -> Result<(), usize>
    requires few { length items.now.items ≤ 256 }
    ensures right { MatchResult result (λ _. AreRightKepts ground.now inside (memory_of memory.now) items.now.items)
        (λ place. KeptsFault ground.now inside (memory_of memory.now) items.now.at items.now.items place) }
    ensures within { IfErr result (λ place. place < length items.now.body) }
{
    let mut walk = items.copied();
    let mut seen: usize = 0;
    let mut end = memory.shares_end();
    while let Some(found) = walk.next() {
        let fp = &found.item.fp;
        let placed = is_placed(memory, items, seen, fp);
        match kept_fault(ground, inside, placed, end, &found) {
            Some(place) => return Err(place),
            None => {
                end = end_behind(end, &found.item.place);
                seen += 1;
            }
        }
    }
    Ok(())
}

// Whether there is room for all these shares.
fn has_room(memory: &CloudMemory, ground: &Ground, items: &KeptItems<'_>) -> bool
    requires rooms { HasRooms ground.now.rooms memory.now }
    requires few { length items.now.items ≤ 256 }
    ensures { IsTrue result ↔ HasKeptRoom ground.now.rooms memory.now items.now.items }
{
    let placed = u64::from(memory.placed()) + items.len() as u64;
    placed <= places_limit(&ground.rooms)
}

/// Takes the record of a Kept, or gives the place in its body of the field that is damaged.
pub(crate) fn take_kept(
    memory: &mut CloudMemory,
    field: &mut Option<Damage>,
    ground: &Ground,
    inside: bool,
    body: &[u8],
    at: u64,
    items: KeptItems<'_>,
) -> Result<(), usize>
    requires rooms { HasRooms ground.now.rooms memory.old }
    requires few { length items.items ≤ 256 }
    requires from { items.at ≡ 3 }
    requires body { items.body ≡ body.now }
    requires long { 2 ≤ length body.now }
    requires end { at + length body.now < 2 ^ 64 }
    ensures judged { (read : List ℕ) (marks : List Bool)
        → JudgedAs ground.now inside read marks (memory_of memory.old) (Kept items.entry.items) result
        (memory_of memory.new) }
    ensures field { OnOk result (field.new
        ≡ kept_field at body.now (memory_of memory.old).shares_end 3 field.old items.entry.items) }
    ensures within { IfErr result (λ place. place < length body.now) }
    ensures rooms { HasRooms ground.now.rooms memory.new }
    ensures ends { EndsGrow ground.now (memory_of memory.old) (memory_of memory.new) }
{
    if has_room(memory, ground, &items) {
        return take_items(memory, field, ground, inside, body, at, items);
    }
    match look_over(memory, ground, inside, &items) {
        Ok(()) => Err(COUNT),
        Err(place) => Err(place),
    }
}
