//! The shares of a Put, one after another.

ghost use Rattle.std.specs.Prelude.{◌≡◌, ◌↔◌, ◌+◌, ◌<◌, ◌≤◌, ◌^◌, ℕ, length, take, IsTrue, IsFalse, IfSome, IfNone};
ghost use Rattle.std.specs.Prelude.{IfErr, OnOk, MatchOption, MatchResult};
ghost use Rattle.std.specs.FinMap.{get};
ghost use Rattle.cloud_memory.specs.CdBase.ids.UserId.{UserId as Number};
ghost use Rattle.cloud_memory.specs.CloudAreas.Placing.{end_of};
ghost use Rattle.cloud_memory.specs.Memory.{Memory};
ghost use Rattle.cloud_memory.specs.Rooms.{memory_of, HasRooms};
ghost use Rattle.cloud_memory.specs.Steps.{with_items, end_with};
ghost use Rattle.record_checks.specs.Checks.{IsOwn, Lies, IsRightItem, ItemFault, AreRight, ItemsFault, ShareLies};
ghost use Rattle.record_checks.specs.Noting.{EndsGrow, put_field};
ghost use Rattle.record_checks.specs.Steps.{Facts, names_fp, HasRoomForItems};
ghost use Rattle.cloud_memory.specs.CloudAreas.Placing.{region_start};

use crate::noting::note;
use crate::places::{first_of, lies};
use crate::{Damage, Ground};
use cloud_memory::{CloudMemory, FoundItem, Fp, Place, PutItem, PutItems, UserId};

// Whether the share's place, if the record gives it one, is one where it may lie.
fn is_laid(ground: &Ground, inside: bool, end: u64, place: Option<Place>) -> bool
    ensures lies { IsTrue result
        ↔ IfSome place (Lies inside (region_start ground.now.region) end ground.now.shares_len) }
    ensures small { IsTrue result → IfSome place (λ place. end_of place < 2 ^ 64) }
{
    let Ground {
        region,
        shares_len,
        ..
    } = *ground;
    match place {
        Some(place) => lies(inside, first_of(region), end, shares_len, &place),
        None => true,
    }
}

/// The place in the body of the first field of a Put's share at which a check fails, or None where none does, by what is
/// known of its fingerprint: whether the user owns it, and whether it has a place. The shares so far end at `end`.
pub fn item_fault(
    ground: &Ground,
    inside: bool,
    owned: bool,
    placed: bool,
    end: u64,
    found: &FoundItem,
) -> Option<usize>
    requires flag { found.now.flag_at ≡ found.now.fp_at + 32 }
    requires place { found.now.place_at ≡ found.now.fp_at + 33 }
    ensures small { IfNone result (IfSome found.now.item.place (λ place. end_of place < 2 ^ 64)) }
    ensures fault { (m : Memory) (user : Number) → Facts m user found.now.item.fp owned placed end
        → MatchOption result (IsRightItem ground.now inside m user found.now.item)
        (λ place. ItemFault ground.now inside m user found.now.item found.now.fp_at place) }
{
    if owned {
        Some(found.fp_at)
    } else if found.item.place.is_some() == placed {
        Some(found.flag_at)
    } else if !is_laid(ground, inside, end, found.item.place) {
        Some(found.place_at)
    } else {
        None
    }
}

/// Takes the shares, up to the first at which a check fails; that gives the place of its field in the body. Of those
/// that are taken it keeps the place's field of the first that ends farthest.
pub(crate) fn take_items(
    memory: &mut CloudMemory,
    field: &mut Option<Damage>,
    ground: &Ground,
    inside: bool,
    body: &[u8],
    at: u64,
    user: UserId,
    items: PutItems<'_>,
) -> Result<(), usize>
    requires room { HasRoomForItems ground.now.rooms memory.old user items.items }
    requires body { items.body ≡ body.now }
    requires end { at + length body.now < 2 ^ 64 }
    ensures right { MatchResult result (λ _. AreRight ground.now inside user (memory_of memory.old) items.entry.items)
        (λ place. ItemsFault ground.now inside user (memory_of memory.old) items.entry.at items.entry.items place) }
    ensures taken { OnOk result (memory_of memory.new ≡ with_items user (memory_of memory.old) items.entry.items) }
    ensures field { OnOk result (field.new
        ≡ put_field at body.now (memory_of memory.old).shares_end items.entry.at field.old items.entry.items) }
    ensures within { IfErr result (λ place. place < length body.now) }
    ensures ends { EndsGrow ground.now (memory_of memory.old) (memory_of memory.new) }
    ensures rooms { HasRooms ground.now.rooms memory.new }
{
    let mut items = items;
    while let Some(found) = items.next() {
        let owned = memory.owns(user, &found.item.fp);
        let placed = memory.place_of(&found.item.fp).is_some();
        let end = memory.shares_end();
        match item_fault(ground, inside, owned, placed, end, &found) {
            Some(place) => return Err(place),
            None => {
                note(field, end, found.item.place, body, at, found.place_at);
                memory.take_item(user, &found.item);
            }
        }
    }
    Ok(())
}

// Whether one of the first items has the fingerprint.
fn is_named(items: &PutItems<'_>, count: usize, fp: &Fp) -> bool
    ensures { result ≡ names_fp items.now.items count fp.now }
{
    let mut walk = items.copied();
    for _i in 0..count {
        match walk.next() {
            Some(found) => {
                if found.item.fp == *fp {
                    return true;
                }
            }
            None => return false,
        }
    }
    false
}

// Whether the user owns the fingerprint once the first items are taken.
fn is_own(memory: &CloudMemory, user: UserId, items: &PutItems<'_>, count: usize, fp: &Fp) -> bool
    ensures own { IsTrue result
        ↔ IsOwn (with_items user (memory_of memory.now) (take count items.now.items)) user fp.now }
    ensures places { IsFalse result
        → get (with_items user (memory_of memory.now) (take count items.now.items)).places fp.now.0
        ≡ get memory.now.shares.places fp.now.0 }
{
    if memory.owns(user, fp) {
        return true;
    }
    is_named(items, count, fp)
}

// The end, which is behind the item's place too, where there is one.
fn end_behind(end: u64, item: &PutItem) -> u64
    requires { IfSome item.now.place (λ place. end_of place < 2 ^ 64) }
    ensures { result ≡ end_with end item.now.place }
{
    match item.place {
        Some(place) => {
            let other = place.at + u64::from(place.len);
            if end < other { other } else { end }
        }
        None => end,
    }
}

/// Looks over shares for which there is no room, up to the first at which a check fails; that gives the place of its
/// field in the body. Each is compared with those before it in the record.
pub(crate) fn look_over(
    memory: &CloudMemory,
    ground: &Ground,
    inside: bool,
    user: UserId,
    items: &PutItems<'_>,
) -> Result<(), usize>
    requires few { length items.now.items ≤ 256 }
    ensures right { MatchResult result (λ _. AreRight ground.now inside user (memory_of memory.now) items.now.items)
        (λ place. ItemsFault ground.now inside user (memory_of memory.now) items.now.at items.now.items place) }
    ensures within { IfErr result (λ place. place < length items.now.body) }
{
    let mut walk = items.copied();
    let mut seen: usize = 0;
    let mut end = memory.shares_end();
    while let Some(found) = walk.next() {
        let fp = &found.item.fp;
        let owned = is_own(memory, user, items, seen, fp);
        let placed = memory.place_of(fp).is_some();
        match item_fault(ground, inside, owned, placed, end, &found) {
            Some(place) => return Err(place),
            None => {
                end = end_behind(end, &found.item);
                seen += 1;
            }
        }
    }
    Ok(())
}
