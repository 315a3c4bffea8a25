//! A memory whose blobs that are alive lie one behind another, elsewhere.

ghost use Rattle.std.specs.Prelude.{◌≡◌, ◌+◌, ◌<◌, ◌≤◌, ◌^◌, ℕ, length, drop, map};
ghost use Rattle.checkpoints.specs.PoolMap.Slots.{IsListed};
ghost use Rattle.checkpoints.specs.ContainerLog.Places.{container_len, place_of, end_of_laid};
ghost use Rattle.compact_lists.specs.JournalStart.rooms.UserRooms.{UserRooms};
ghost use Rattle.checkpoints.specs.CloudMemory.cloud.CloudMemory.{CloudMemory as Memory};
ghost use Rattle.checkpoints.specs.CloudMemory.Greatest.{KeepsGreatest};
ghost use Rattle.checkpoints.specs.CloudMemory.Rooms.{HasRooms};
ghost use Rattle.compact_memories.specs.Kept.{live_in, live_places, entries_in, live_entries};
ghost use Rattle.compact_memories.specs.Relaid.{share_len, entry_len, PlacesSoFar, ArePlacesMoved};
ghost use Rattle.compact_memories.specs.Relaid.{EntriesSoFar, AreEntriesMoved};

use checkpoints::{CONTAINER, CloudMemory};
use compact_lists::Place;

// How many bytes lie unused between an end and the place of a blob of this length behind it.
fn gap_behind(end: u64, len: u64) -> u64
    ensures place { end + result ≡ place_of end len }
    ensures bound { result ≤ container_len }
{
    let rest = CONTAINER - end % CONTAINER;
    if len <= rest { 0 } else { rest }
}

// The place of a blob of this length behind an end.
fn place_behind(end: u64, len: u32) -> u64
    requires { place_of end len + len < 2 ^ 64 }
    ensures { result ≡ place_of end len }
{
    end + gap_behind(end, u64::from(len))
}

// The end behind a blob of this length.
fn end_behind(at: u64, len: u32) -> u64
    requires { at + len < 2 ^ 64 }
    ensures { result ≡ at + len }
{
    at + u64::from(len)
}

// Moves the share in a slot behind the end, where some user owns it, and answers the end behind it.
fn move_place(memory: &mut CloudMemory, slot: u32, end: u64) -> u64
    requires inside { slot < length memory.old.shares.place_slots }
    requires within { end_of_laid end (map share_len
        (live_in memory.old.shares.owners (drop slot memory.old.shares.place_slots))) < 2 ^ 64 }
    ensures so_far { (start : ℕ) (first : Memory) → PlacesSoFar start first memory.old slot end
        → PlacesSoFar start first memory.new (slot + 1) result }
    ensures rooms { (rooms : UserRooms) → HasRooms rooms memory.old → HasRooms rooms memory.new }
    ensures greatest { KeepsGreatest memory.old memory.new }
{
    match memory.live_share(slot) {
        Some((fp, place)) => {
            let at = place_behind(end, place.len);
            let moved = Place { at, len: place.len };
            memory.move_share(&fp, moved);
            let next = end_behind(at, place.len);
            next
        }
        None => end,
    }
}

// Moves the entry's recipe in a slot behind the end, where there is one, and answers the end behind it.
fn move_entry(memory: &mut CloudMemory, slot: u32, end: u64) -> u64
    requires inside { slot < length memory.old.files.slots }
    requires within { end_of_laid end (map entry_len (entries_in (drop slot memory.old.files.slots))) < 2 ^ 64 }
    ensures so_far { (start : ℕ) (first : Memory) → EntriesSoFar start first memory.old slot end
        → EntriesSoFar start first memory.new (slot + 1) result }
    ensures rooms { (rooms : UserRooms) → HasRooms rooms memory.old → HasRooms rooms memory.new }
    ensures greatest { KeepsGreatest memory.old memory.new }
{
    match memory.live_file(slot) {
        Some((user, tag, version, entry)) => {
            let at = place_behind(end, entry.len);
            memory.move_recipe(user, &tag, version, at);
            let next = end_behind(at, entry.len);
            next
        }
        None => end,
    }
}

// Moves the shares that some user owns, one behind another in the order of slots, and answers the end behind them.
pub(crate) fn move_places(memory: &mut CloudMemory, start: u64) -> u64
    requires within { end_of_laid start (map share_len (live_places memory.old)) < 2 ^ 64 }
    ensures moved { ArePlacesMoved start memory.old memory.new }
    ensures end { result ≡ end_of_laid start (map share_len (live_places memory.old)) }
    ensures rooms { (rooms : UserRooms) → HasRooms rooms memory.old → HasRooms rooms memory.new }
    ensures greatest { KeepsGreatest memory.old memory.new }
{
    let slots = memory.shares().place_slots();
    let mut end = start;
    for slot in 0..slots {
        end = move_place(memory, slot, end);
    }
    end
}

// Moves the entries' recipes, one behind another in the order of slots, and answers the end behind them.
pub(crate) fn move_entries(memory: &mut CloudMemory, start: u64) -> u64
    requires within { end_of_laid start (map entry_len (live_entries memory.old)) < 2 ^ 64 }
    ensures moved { AreEntriesMoved start memory.old memory.new }
    ensures each { IsListed memory.new.files.files memory.new.files.slots }
    ensures end { result ≡ end_of_laid start (map entry_len (live_entries memory.old)) }
    ensures rooms { (rooms : UserRooms) → HasRooms rooms memory.old → HasRooms rooms memory.new }
    ensures greatest { KeepsGreatest memory.old memory.new }
{
    let slots = memory.files().slots();
    let mut end = start;
    for slot in 0..slots {
        end = move_entry(memory, slot, end);
    }
    let _ = memory.files().entry_at(0);
    end
}
