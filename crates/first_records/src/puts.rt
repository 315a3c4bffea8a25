//! The record of a Put.

ghost use Rattle.std.specs.Prelude.{◌≡◌, ◌<◌, ◌≤◌, ℕ, List, length, count_by, IfErr, OnOk, MatchResult};
ghost use Rattle.message_fields.specs.CdBase.ids.UserId.{UserId as Number};
ghost use Rattle.record_checks.specs.RecordBody.Spelling.{Put};
ghost use Rattle.record_checks.specs.CloudMemory.Rooms.{memory_of};
ghost use Rattle.record_checks.specs.CloudMemory.Steps.{with_items};
ghost use Rattle.record_checks.specs.Checks.{AreRight, ItemsFault};
ghost use Rattle.record_checks.specs.Steps.{has_place};
ghost use Rattle.first_records.specs.Limits.{HasFirstRooms, crowded};
ghost use Rattle.first_records.specs.Steps.{HasItemsRoom, FirstJudgedAs, IsFaultWithin};

use crate::Ground;
use crate::errors::Fault;
use crate::limits::{if_past, shares_within};
use message_fields::{Room, UserId};
use record_checks::{CloudMemory, PutItems, item_fault};

// How many of the shares have a place in the record.
fn placed_in(items: &PutItems<'_>) -> u64
    requires { length items.now.items ≤ 256 }
    ensures value { result ≡ count_by has_place items.now.items }
    ensures few { result ≤ 256 }
{
    let mut walk = items.copied();
    let mut count = 0;
    while let Some(found) = walk.next() {
        if found.item.place.is_some() {
            count += 1;
        }
    }
    count
}

// The first room that these shares would pass by their number.
fn crowded_by(memory: &CloudMemory, items: &PutItems<'_>) -> Option<Room>
    requires { length items.now.items ≤ 256 }
    ensures { (user : Number) → result ≡ crowded (memory_of memory.now) (Put user items.now.items) }
{
    let placed = u64::from(memory.placed()) + placed_in(items);
    let owned = u64::from(memory.shares().owned()) + items.len() as u64;
    match if_past(Room::Fps, placed) {
        Some(room) => Some(room),
        None => if_past(Room::Owners, owned),
    }
}

// Takes the shares, up to the first at which a check fails; that gives the place of its field in the body.
fn take_items(
    memory: &mut CloudMemory,
    ground: &Ground,
    inside: bool,
    user: UserId,
    items: PutItems<'_>,
) -> Result<(), usize>
    requires { HasItemsRoom memory.old items.items }
    ensures right { MatchResult result (λ _. AreRight ground.now inside user (memory_of memory.old) items.entry.items)
        (λ place. ItemsFault ground.now inside user (memory_of memory.old) items.entry.at items.entry.items place) }
    ensures taken { OnOk result (memory_of memory.new ≡ with_items user (memory_of memory.old) items.entry.items) }
    ensures within { IfErr result (λ place. place < length items.entry.body) }
    ensures rooms { HasFirstRooms memory.new }
{
    let mut items = items;
    while let Some(found) = items.next() {
        let owned = memory.owns(user, &found.item.fp);
        let placed = memory.place_of(&found.item.fp).is_some();
        let end = memory.shares_end();
        match item_fault(ground, inside, owned, placed, end, &found) {
            Some(place) => return Err(place),
            None => memory.take_item(user, &found.item),
        }
    }
    Ok(())
}

/// Takes the record of a Put, or says what of it fails.
pub(crate) fn take_put(
    memory: &mut CloudMemory,
    ground: &Ground,
    inside: bool,
    user: UserId,
    items: PutItems<'_>,
) -> Result<(), Fault>
    requires rooms { HasFirstRooms memory.old }
    requires few { length items.items ≤ 256 }
    requires from { items.at ≡ 7 }
    ensures judged { (read : List ℕ) → FirstJudgedAs ground.now inside read (memory_of memory.old)
        (Put user items.entry.items) result (memory_of memory.new) }
    ensures within { IfErr result (IsFaultWithin (length items.entry.body)) }
    ensures rooms { HasFirstRooms memory.new }
{
    match crowded_by(memory, &items) {
        Some(room) => return Err(Fault::Passes(room)),
        None => {}
    }
    match take_items(memory, ground, inside, user, items) {
        Ok(()) => shares_within(memory),
        Err(place) => Err(Fault::Field(place)),
    }
}
