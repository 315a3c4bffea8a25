//! The greatest rooms that format 1 had, for all users together.

ghost use Rattle.std.specs.Prelude.{◌≡◌, ℕ, IfErr, MatchResult, None, Some};
ghost use Rattle.message_fields.specs.CdBase.rooms.Room.TheVariants as names;
ghost use Rattle.first_records.specs.Limits.{limit_of, if_past};
ghost use Rattle.first_records.specs.Steps.{IsFaultWithin};
ghost use Rattle.first_records.specs.declared.errors.Fault.TheVariants as faults;

use crate::errors::Fault;
use message_fields::{Room, Rooms};
use record_checks::CloudMemory;

/// How much of a room the cloud may hold.
pub(crate) fn limit_of(room: Room) -> u64
    ensures { result ≡ limit_of room }
{
    let rooms = Rooms::greatest();
    match room {
        Room::Shares => rooms.shares,
        Room::Recipes => rooms.recipes,
        Room::Journal => rooms.journal,
        Room::Fps => u64::from(rooms.fps),
        Room::Owners => u64::from(rooms.owners),
        Room::Files => u64::from(rooms.files),
    }
}

/// The room, where so much of it passes its limit.
pub(crate) fn if_past(room: Room, used: u64) -> Option<Room>
    ensures { result ≡ if_past room used }
{
    if used > limit_of(room) {
        Some(room)
    } else {
        None
    }
}

// Ok, unless so much of the room passes its limit.
fn within(room: Room, used: u64) -> Result<(), Fault>
    ensures room { MatchResult result (λ _. if_past room used ≡ None)
        (λ fault. (fault ≡ faults.Passes room) × (if_past room used ≡ Some room)) }
    ensures within { (len : ℕ) → IfErr result (IsFaultWithin len) }
{
    match if_past(room, used) {
        Some(_) => Err(Fault::Passes(room)),
        None => Ok(()),
    }
}

/// Ok, unless the shares end past their room.
pub(crate) fn shares_within(memory: &CloudMemory) -> Result<(), Fault>
    ensures room { MatchResult result (λ _. if_past names.Shares memory.now.shares_end ≡ None)
        (λ fault. (fault ≡ faults.Passes names.Shares)
        × (if_past names.Shares memory.now.shares_end ≡ Some names.Shares)) }
    ensures within { (len : ℕ) → IfErr result (IsFaultWithin len) }
{
    within(Room::Shares, memory.shares_end())
}

/// Ok, unless the recipes end past their room.
pub(crate) fn recipes_within(memory: &CloudMemory) -> Result<(), Fault>
    ensures room { MatchResult result (λ _. if_past names.Recipes memory.now.recipes_end ≡ None)
        (λ fault. (fault ≡ faults.Passes names.Recipes)
        × (if_past names.Recipes memory.now.recipes_end ≡ Some names.Recipes)) }
    ensures within { (len : ℕ) → IfErr result (IsFaultWithin len) }
{
    within(Room::Recipes, memory.recipes_end())
}
