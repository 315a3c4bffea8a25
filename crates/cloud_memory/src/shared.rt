//! A memory whose users share one account, for a journal in which no user has rooms of its own.

ghost use Rattle.std.specs.Prelude.{◌≡◌, ◌≤◌, ℕ, IfOk, List, [], length};
ghost use Rattle.spent_table.specs.CdBase.shape.Shape.{Shape};
ghost use Rattle.cloud_areas.specs.JournalStart.rooms.UserRooms.{UserRooms};
ghost use Rattle.cloud_memory.specs.Greatest.{HasGreatest, KeepsGreatest};
ghost use Rattle.cloud_memory.specs.Memory.{Remembers, IsPlacedBy, HasEnds};
ghost use Rattle.cloud_memory.specs.Moving.{with_ends};
ghost use Rattle.cloud_memory.specs.Rooms.{memory_of, HasRooms};
ghost use Rattle.cloud_memory.specs.Steps.{begun};

use crate::CloudMemory;
use file_index::FileIndex;
use share_index::ShareIndex;
use spent_table::{NoMemory, SpentTable};
use std::alloc::Global;

impl CloudMemory {
    /// The memory of no commands, for so many placed shares, owners and entries, whoever has them, with the blobs in the
    /// first region. What is spent is kept for the users below this number. It takes all its memory here.
    pub fn make_shared(
        alloc: Global,
        fps: u32,
        owners: u32,
        files: u32,
        users: u32,
    ) -> Result<CloudMemory, NoMemory>
        requires few { users ≤ 256 }
        ensures value { IfOk result (λ cloud. memory_of cloud ≡ begun users 0) }
        ensures remembers { IfOk result (λ cloud. (shape : Shape) → Remembers shape [] (memory_of cloud)) }
        ensures placed { IfOk result (λ cloud. IsPlacedBy [] (memory_of cloud)) }
        ensures ends { IfOk result (λ cloud. HasEnds 0 [] [] (memory_of cloud)) }
        ensures greatest { IfOk result (HasGreatest fps owners files users) }
    {
        let spent = SpentTable::make(alloc, users)?;
        let files = FileIndex::make(alloc, files)?;
        let shares = ShareIndex::make(alloc, fps, owners)?;
        Ok(CloudMemory {
            shares,
            files,
            spent,
            shares_end: 0,
            recipes_end: 0,
        })
    }

    /// Forgets all commands; the blobs are to lie in the first region, and the recipes behind this end. The room stays.
    pub fn clear_behind(&mut self, recipes_end: u64)
        ensures value { memory_of self.new ≡ with_ends 0 recipes_end (begun (length self.old.spent) 0) }
        ensures remembers { (shape : Shape) → Remembers shape [] (memory_of self.new) }
        ensures placed { IsPlacedBy [] (memory_of self.new) }
        ensures rooms { (rooms : UserRooms) → HasRooms rooms self.old → HasRooms rooms self.new }
        ensures greatest { KeepsGreatest self.old self.new }
    {
        self.clear(0);
        self.recipes_end = recipes_end;
    }
}
