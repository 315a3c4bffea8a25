//! A memory without the places of what no user owns.

ghost use Rattle.std.specs.Prelude.{◌≡◌, ◌+◌, length, option_map};
ghost use Rattle.checkpoints.specs.PoolMap.Slots.{slot_of, IsListed};
ghost use Rattle.compact_lists.specs.JournalStart.rooms.UserRooms.{UserRooms};
ghost use Rattle.compact_lists.specs.CdBase.ids.Fp.{Fp as Name};
ghost use Rattle.checkpoints.specs.CloudMemory.cloud.CloudMemory.{CloudMemory as Memory};
ghost use Rattle.checkpoints.specs.CloudMemory.Greatest.{KeepsGreatest};
ghost use Rattle.checkpoints.specs.CloudMemory.Rooms.{HasRooms};
ghost use Rattle.compact_memories.specs.Passes.{dead_in, DroppedSoFar};

use checkpoints::{CloudMemory, ShareIndex};
use compact_lists::Fp;

// The share in a slot that has a place and no owner, if there is one.
fn dead_share(shares: &ShareIndex, slot: u32) -> Option<Fp>
    ensures dead { option_map (λ (fp : Name). fp.0) result
        ≡ dead_in shares.now.owners (slot_of shares.now.place_slots slot) }
    ensures each { IsListed shares.now.places shares.now.place_slots }
{
    match shares.place_at(slot) {
        Some((fp, _)) => { if shares.is_owned(&fp) { None } else { Some(fp) } }
        None => None,
    }
}

// Empties the slot where no user owns what it has.
fn drop_slot(memory: &mut CloudMemory, slot: u32)
    ensures so_far { (first : Memory) → DroppedSoFar first memory.old slot
        → DroppedSoFar first memory.new (slot + 1) }
    ensures rooms { (rooms : UserRooms) → HasRooms rooms memory.old → HasRooms rooms memory.new }
    ensures greatest { KeepsGreatest memory.old memory.new }
{
    match dead_share(memory.shares(), slot) {
        Some(fp) => memory.drop_share(&fp),
        None => {}
    }
}

// Takes out the places of what no user owns.
pub(crate) fn drop_dead(memory: &mut CloudMemory)
    ensures dropped { DroppedSoFar memory.old memory.new (length memory.old.shares.place_slots) }
    ensures each { IsListed memory.new.shares.places memory.new.shares.place_slots }
    ensures rooms { (rooms : UserRooms) → HasRooms rooms memory.old → HasRooms rooms memory.new }
    ensures greatest { KeepsGreatest memory.old memory.new }
{
    let slots = memory.shares().place_slots();
    for slot in 0..slots {
        drop_slot(memory, slot);
    }
    let _ = memory.shares().place_at(0);
}
