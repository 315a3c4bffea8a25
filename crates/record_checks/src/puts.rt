//! The record of a Put.

ghost use Rattle.std.specs.Prelude.{◌≡◌, ℕ, ◌+◌, ◌*◌, ◌<◌, ◌≤◌, ◌↔◌, ◌^◌, Bool, List, length, count_by, IsTrue, IfErr, OnOk};
ghost use Rattle.std.specs.List.{sum_by};
ghost use Rattle.std.specs.FinMap.{get};
ghost use Rattle.cloud_memory.specs.RecordBody.Spelling.{Put};
ghost use Rattle.cloud_memory.specs.RecordBody.body.PutItem.{PutItem as Item};
ghost use Rattle.cloud_memory.specs.Rooms.{memory_of, HasRooms};
ghost use Rattle.cloud_memory.specs.Steps.{placed_len, spends};
ghost use Rattle.record_checks.specs.Noting.{EndsGrow, put_field};
ghost use Rattle.record_checks.specs.Steps.{JudgedAs, has_place, HasRoomForItems, SpendsShares};

use crate::items::{look_over, take_items};
use crate::limits::{owners_limit, places_limit, shares_limit};
use crate::{Damage, Ground};
use cloud_memory::{CloudMemory, PutItems, Spent, UserId};

// Where the user stands in the body.
const USER: usize = 1;

// How many of the shares have a place in the record.
fn placed_in(items: &PutItems<'_>) -> u64
    requires { length items.now.items ≤ 256 }
    ensures value { result ≡ count_by has_place items.now.items }
    ensures few { result ≤ 256 }
{
    let mut walk = items.copied();
    let mut count = 0;
    while let Some(found) = walk.next() {
        if found.item.place.is_some() {
            count += 1;
        }
    }
    count
}

// How many shares there are.
fn count_of(items: &PutItems<'_>) -> u32
    requires { length items.now.items ≤ 256 }
    ensures { result ≡ length items.now.items }
{
    items.len() as u32
}

// Whether there is room for all these shares of the user's.
fn has_room(memory: &CloudMemory, ground: &Ground, user: UserId, items: &PutItems<'_>) -> bool
    requires rooms { HasRooms ground.now.rooms memory.now }
    requires few { length items.now.items ≤ 256 }
    ensures { IsTrue result ↔ HasRoomForItems ground.now.rooms memory.now user items.now.items }
{
    let own = u64::from(memory.owned_by(user)) + items.len() as u64;
    let placed = u64::from(memory.placed()) + placed_in(items);
    own <= owners_limit(&ground.rooms, user) && placed <= places_limit(&ground.rooms)
}

// The bytes that are held under the fingerprints of these shares.
fn held_in(memory: &CloudMemory, items: PutItems<'_>) -> u64
    requires { length items.items ≤ 256 }
    ensures value { result
        ≡ sum_by (λ (item : Item). placed_len (get memory.now.shares.places item.fp.0)) items.entry.items }
    ensures small { result < 2 ^ 40 + 1 }
{
    let mut items = items;
    let mut sum: u64 = 0;
    while let Some(found) = items.next() {
        sum += match memory.place_of(&found.item.fp) {
            Some(place) => u64::from(place.len),
            None => 0,
        };
    }
    sum
}

// The user spends so many shares with so many bytes, where it may; else the place of the user's field.
fn spend_shares(
    memory: &mut CloudMemory,
    ground: &Ground,
    user: UserId,
    owners: u32,
    shares: u64,
) -> Result<(), usize>
    requires rooms { HasRooms ground.now.rooms memory.old }
    requires some { 1 ≤ owners }
    ensures spent { SpendsShares ground.now.rooms (memory_of memory.old) user owners shares result
        (memory_of memory.new) }
    ensures rooms { HasRooms ground.now.rooms memory.new }
{
    let spent = memory.spent(user);
    let most = owners_limit(&ground.rooms, user);
    let bytes = shares_limit(&ground.rooms, user);
    if u64::from(spent.owners) + u64::from(owners) > most
        || shares > bytes
        || spent.shares > bytes - shares
    {
        return Err(USER);
    }
    memory.spend(
        user,
        Spent {
            owners,
            shares,
            recipes: 0,
        },
    );
    Ok(())
}

/// Takes the record of a Put, or gives the place in its body of the field that is damaged.
pub(crate) fn take_put(
    memory: &mut CloudMemory,
    field: &mut Option<Damage>,
    ground: &Ground,
    inside: bool,
    body: &[u8],
    at: u64,
    user: UserId,
    items: PutItems<'_>,
) -> Result<(), usize>
    requires rooms { HasRooms ground.now.rooms memory.old }
    requires some { 1 ≤ length items.items }
    requires few { length items.items ≤ 256 }
    requires from { items.at ≡ 7 }
    requires body { items.body ≡ body.now }
    requires long { 2 ≤ length body.now }
    requires end { at + length body.now < 2 ^ 64 }
    ensures judged { (read : List ℕ) (marks : List Bool)
        → JudgedAs ground.now inside read marks (memory_of memory.old) (Put user items.entry.items) result
        (memory_of memory.new) }
    ensures field { OnOk result (field.new
        ≡ put_field at body.now (memory_of memory.old).shares_end 7 field.old items.entry.items) }
    ensures within { IfErr result (λ place. place < length body.now) }
    ensures rooms { HasRooms ground.now.rooms memory.new }
    ensures ends { EndsGrow ground.now (memory_of memory.old) (memory_of memory.new) }
{
    if !has_room(memory, ground, user, &items) {
        return match look_over(memory, ground, inside, user, &items) {
            Ok(()) => Err(USER),
            Err(place) => Err(place),
        };
    }
    let count = count_of(&items);
    let walk = items.copied();
    match take_items(memory, field, ground, inside, body, at, user, walk) {
        Err(place) => Err(place),
        Ok(()) => {
            if inside {
                return Ok(());
            }
            let held = held_in(memory, items);
            spend_shares(memory, ground, user, count, held)
        }
    }
}
