//! What of a memory is alive, in numbers.

ghost use Rattle.std.specs.Prelude.{◌≡◌, ◌<◌, ◌^◌, ℕ, [], List, length};
ghost use Rattle.std.specs.List.{sum_by};
ghost use Rattle.compact_lists.specs.CdBase.ids.Fp.{Fp};
ghost use Rattle.compact_lists.specs.CdBase.place.Place.{Place};
ghost use Rattle.compact_lists.specs.CdBase.shape.Shape.{Shape};
ghost use Rattle.checkpoints.specs.FileIndex.key.Entry.{Entry};
ghost use Rattle.checkpoints.specs.FileIndex.key.FileKey.{FileKey};
ghost use Rattle.checkpoints.specs.PoolMap.Slots.{slot_of};
ghost use Rattle.compact_lists.specs.UserDedup.command.Command.{Command};
ghost use Rattle.compact_lists.specs.UserDedup.Compact.{compact};
ghost use Rattle.compact_lists.specs.UserDedup.Dedup.{IsSound};
ghost use Rattle.checkpoints.specs.CloudMemory.Memory.{Remembers};
ghost use Rattle.checkpoints.specs.CloudMemory.Rooms.{memory_of};
ghost use Rattle.checkpoints.specs.Picking.{onto};
ghost use Rattle.compact_memories.specs.Kept.{live_at, live_places, live_entries, live_sum, commands_in};

use crate::laws::law_of_kept;
use checkpoints::CloudMemory;

/// The bytes that are alive, each blob once, and what isn't.
#[derive(Clone, Copy)]
pub struct Reclaimed {
    /// The bytes of the shares that some user owns.
    pub shares: u64,
    /// The bytes of the entries' recipes.
    pub recipes: u64,
    /// How many shares with a place no user owns.
    pub dropped: u32,
}

// The bytes of the share in a slot that some user owns, if there is one.
fn share_len(memory: &CloudMemory, slot: u32) -> u64
    ensures value { result ≡ sum_by (λ (x : Fp × Place). x.1.len)
        (onto (live_at memory.now.shares.owners (slot_of memory.now.shares.place_slots slot)) []) }
    ensures small { result < 2 ^ 32 }
{
    match memory.live_share(slot) {
        Some((_, place)) => u64::from(place.len),
        None => 0,
    }
}

// The bytes of the recipe of the entry in a slot, if there is one.
fn recipe_len(memory: &CloudMemory, slot: u32) -> u64
    ensures value { result ≡ sum_by (λ (x : FileKey × Entry). x.1.len)
        (onto (slot_of memory.now.files.slots slot) []) }
    ensures small { result < 2 ^ 32 }
{
    match memory.live_file(slot) {
        Some((_, _, _, entry)) => u64::from(entry.len),
        None => 0,
    }
}

// The bytes of the shares that some user owns, each once.
fn live_shares(memory: &CloudMemory) -> u64
    ensures { result ≡ sum_by (λ (x : Fp × Place). x.1.len) (live_places memory.now) }
{
    let mut sum: u64 = 0;
    for slot in 0..memory.shares().place_slots() {
        sum += share_len(memory, slot);
    }
    sum
}

// The bytes of the entries' recipes.
fn live_recipes(memory: &CloudMemory) -> u64
    ensures { result ≡ sum_by (λ (x : FileKey × Entry). x.1.len) (live_entries memory.now) }
{
    let mut sum: u64 = 0;
    for slot in 0..memory.files().slots() {
        sum += recipe_len(memory, slot);
    }
    sum
}

/// What of a memory is alive, and how many shares no user owns. It goes over the slots of places and of entries.
pub fn live_sum(memory: &CloudMemory) -> Reclaimed
    ensures { result ≡ live_sum memory.now }
{
    let shares = live_shares(memory);
    let recipes = live_recipes(memory);
    let dropped = memory.shares().ownerless();
    Reclaimed {
        shares,
        recipes,
        dropped,
    }
}

/// How many commands the compact list has: the begun 256s of what each user owns, and the entries. Both are kept, and
/// not counted anew.
pub fn commands_of_compact(memory: &CloudMemory) -> u64
    ensures number { result ≡ commands_in (memory_of memory.now) }
    ensures meaning { (shape : Shape) (cloud : ℕ) (list : List Command) → IsSound shape cloud list
        → Remembers shape list (memory_of memory.now) → result ≡ length (compact shape list) }
{
    law_of_kept();
    u64::from(memory.shares().batches()) + u64::from(memory.files().len())
}
