//! The records of a checkpoint, one after another.

ghost use Rattle.std.specs.Prelude.{◌≡◌, ◌<◌, ◌≤◌, length, false, replicate};
ghost use Rattle.cloud_memory.specs.declared.cloud.CloudMemory.{CloudMemory};
ghost use Rattle.checkpoints.specs.Chained.{HasChains};
ghost use Rattle.checkpoints.specs.Laying.{IsNextInBuffer};
ghost use Rattle.checkpoints.specs.Marked.{slots_limit};
ghost use Rattle.checkpoints.specs.Records.{coming, records_of};
ghost use Rattle.cloud_memory.specs.Rooms.{memory_of};
ghost use Rattle.cloud_memory.specs.Fitting.{FitsRecords};
ghost use Rattle.checkpoints.specs.Ready.{IsReadyToWrite};
ghost use Rattle.checkpoints.specs.Steps.{Steps};

use crate::entries::{end_of_commits, write_commit, write_spent};
use crate::kept::{end_of_kept, write_kept};
use crate::puts::write_put;
use crate::{CheckpointRecords, Marks, OwnerChains, Position};
use cloud_memory::{BodyBuf, CloudMemory, FileIndex, ShareIndex, SpentTable};

// Writes the next record from a position on, if there is one. What was gone through to its end isn't gone through again.
fn write_record(
    shares: &ShareIndex,
    files: &FileIndex,
    spent: &SpentTable,
    chains: &OwnerChains,
    marks: &mut Marks,
    at: &mut Position,
    buffer: &mut BodyBuf,
) -> bool
    requires { IsReadyToWrite shares.now files.now spent.now chains.now marks.old at.old }
    ensures ready { IsReadyToWrite shares.now files.now spent.now chains.now marks.new at.new }
    ensures step { Steps (coming shares.now files.now spent.now at.old)
        (coming shares.now files.now spent.now at.new) buffer.new result }
{
    if write_put(shares, chains, marks, at, buffer) {
        return true;
    }
    let _ = shares.owner_at(0);
    match write_kept(shares, marks, at.place, buffer) {
        Some(behind) => {
            at.place = behind;
            return true;
        }
        None => at.place = end_of_kept(shares),
    }
    match write_commit(files, at.file, buffer) {
        Some(behind) => {
            at.file = behind;
            return true;
        }
        None => at.file = end_of_commits(files),
    }
    match write_spent(spent, at.row, buffer) {
        Some(behind) => {
            at.row = behind;
            true
        }
        None => false,
    }
}

/// The records of a checkpoint of a memory, from a position on. It takes no memory, and changes none.
#[derive(Drop)]
pub struct MemoryRecords<'a> {
    pub(crate) shares: &'a ShareIndex,
    pub(crate) files: &'a FileIndex,
    pub(crate) spent: &'a SpentTable,
    pub(crate) chains: &'a OwnerChains,
    pub(crate) marks: &'a mut Marks,
    pub(crate) at: Position,
}

impl<'a> MemoryRecords<'a> {
    ghost use Rattle.std.specs.Prelude.{◌≡◌, ◌<◌, ◌≤◌, length, false, replicate};

    /// All records of a memory, which has at most 256 users and 524,288 slots for places, and whose owners' slots are chained.
    /// The marks are taken away.
    pub fn of(
        memory: &'a CloudMemory,
        chains: &'a OwnerChains,
        marks: &'a mut Marks,
    ) -> MemoryRecords<'a>
        requires chained { HasChains memory.now.shares.owner_slots chains.now }
        requires fit { FitsRecords (memory_of memory.now) }
        requires users { length memory.now.spent ≤ 256 }
        requires slots { length memory.now.shares.place_slots ≤ slots_limit }
        ensures records { coming result.shares.now result.files.now result.spent.now result.at ≡ records_of memory.now }
        ensures ready { IsReadyToWrite result.shares.now result.files.now result.spent.now result.chains.now
            result.marks.now result.at }
    {
        marks.clear();
        let shares = memory.shares();
        let files = memory.files();
        let spent = memory.spent_table();
        let _ = shares.place_at(0);
        let _ = files.entry_at(0);
        MemoryRecords {
            shares,
            files,
            spent,
            chains,
            marks,
            at: Position::first(spent.users() as u32),
        }
    }

    /// Writes the next record's body in place of what the buffer has, if there is one, and says whether there was.
    pub fn write_one(&mut self, buffer: &mut BodyBuf) -> bool
        requires { IsReadyToWrite self.old.shares.now self.old.files.now self.old.spent.now
            self.old.chains.now self.old.marks.now self.old.at }
        ensures ready { IsReadyToWrite self.new.shares.now self.new.files.now self.new.spent.now
            self.new.chains.now self.new.marks.now self.new.at }
        ensures step { Steps (coming self.old.shares.now self.old.files.now self.old.spent.now self.old.at)
            (coming self.new.shares.now self.new.files.now self.new.spent.now self.new.at) buffer.new result }
    {
        write_record(
            self.shares,
            self.files,
            self.spent,
            self.chains,
            self.marks,
            &mut self.at,
            buffer,
        )
    }
}

impl<'a> CheckpointRecords for MemoryRecords<'a> {
    ghost to_come = { λ s. coming s.shares.now s.files.now s.spent.now s.at };

    ghost is_ready = { λ s. IsReadyToWrite s.shares.now s.files.now s.spent.now s.chains.now s.marks.now s.at };

    fn write_next(&mut self, buffer: &mut BodyBuf) {
        self.write_one(buffer);
    }
}
