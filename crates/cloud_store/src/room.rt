//! Room in the journal for one record more.

ghost use Rattle.std.specs.Prelude.{◌≡◌, ◌<◌, ◌≤◌, ◌+◌, List, IsOk, OnOk, OnErr};
ghost use Rattle.checkpoints.specs.CdEdges.Shelf.{IsCall, HasFailed, KeepsCounts};
ghost use Rattle.checkpoints.specs.UserDedup.command.Command.{Command};
ghost use Rattle.checkpoints.specs.CloudAreas.Standing.{Chain};
ghost use Rattle.checkpoints.specs.Laying.{records_len, longest_record};
ghost use Rattle.checkpoints.specs.Settling.{KeepsList, KeepsOthers};
ghost use Rattle.checkpoints.specs.Records.{records_of};
ghost use Rattle.checkpoints.specs.Known.{stage_behind, IfFailed, UnlessFailed, IfLong};
ghost use Rattle.checkpoints.specs.CloudDisk.Disk.{regions_end};
ghost use Rattle.cloud_store.specs.Adding.{NoneStaged, IsTooLong, Unmoved, KeepsOrSums, HasRoomMade};
ghost use Rattle.cloud_store.specs.Store.{IsOpen, IsSettled, Serves, FitsHalf, chain_with_room, KeepsServing};

use crate::CloudStore;
use checkpoints::{CheckpointSpace, Shelf, Unsettled, checkpoint_of_memory};

impl CloudStore {
    /// Makes room for a record whose body has so many bytes: where it doesn't fit the journal's current half, and only
    /// there, a checkpoint of the memory takes the place of the journal's chain. Where it fits nothing changes, and no
    /// device call is made.
    ///
    /// Whenever a crash comes the cloud stands for the list that the store serves; after Ok the store serves it still, by
    /// the chain that has room, and the record fits. Whatever the records say, each image since has the chain that was
    /// read, or the checkpoint's in its place, and after Ok one of the two is there. `Failed` comes only where the cloud's
    /// count of faults rose, and then the journal is shut. `Long` comes only where the record doesn't fit behind a checkpoint
    /// either, and never where it is no longer than the longest. Memory and logs are as they were, and no area but the journal is
    /// written. It takes no memory.
    pub fn make_room<V: Shelf>(&mut self, shelf: &mut V, len: u32) -> Result<(), Unsettled>
        requires settled { IsSettled self.old }
        requires open { IsOpen self.old }

        // by each list that the store serves
        ensures any_moment { (list : List Command) (c : Chain)
            → Serves list c self.old (V.cloud_at shelf.old self.old.header.cloud.0)
            → KeepsList self.old.header list (V.cloud_at shelf.old self.old.header.cloud.0)
            (V.cloud_at shelf.new self.old.header.cloud.0) }
        ensures only_journal { (list : List Command) (c : Chain)
            → Serves list c self.old (V.cloud_at shelf.old self.old.header.cloud.0)
            → KeepsOthers (V.cloud_at shelf.old self.old.header.cloud.0)
            (V.cloud_at shelf.new self.old.header.cloud.0) }
        ensures serves { (list : List Command) (c : Chain)
            → Serves list c self.old (V.cloud_at shelf.old self.old.header.cloud.0)
            → OnOk result (Serves list (chain_with_room self.old list c len) self.new
            (V.cloud_at shelf.new self.old.header.cloud.0)) }

        // whatever is known of the cloud
        ensures never_long { len + 5 ≤ longest_record → IfLong result ⊥ }
        ensures chain { KeepsOrSums self.old (V.cloud_at shelf.old self.old.header.cloud.0)
            (V.cloud_at shelf.new self.old.header.cloud.0) }
        ensures made { HasRoomMade self.old self.new (V.cloud_at shelf.old self.old.header.cloud.0)
            (V.cloud_at shelf.new self.old.header.cloud.0) result }
        ensures fits { OnOk result (FitsHalf self.new len) }
        ensures long { IfLong result (self.old.disk.journal.limit
            < 63 + records_len (records_of self.old.memory) + (len + 5)) }
        ensures untouched { FitsHalf self.old len → (self.new ≡ self.old) × (shelf.new ≡ shelf.old) × IsOk result }
        ensures gate { OnOk result (¬ FitsHalf self.old len
            → self.new.disk.journal.current.gate + 1 ≡ 63 + records_len (records_of self.old.memory)) }
        ensures same { KeepsServing self.old self.new }
        ensures settled { IsSettled self.new }
        ensures stage { self.new.disk.journal.stage ≡ stage_behind result }
        ensures call { IsCall (V.cloud_at shelf.old) (V.cloud_at shelf.new) self.old.header.cloud.0
            (V.faults shelf.old) (V.faults shelf.new) }
        ensures failed { IfFailed result (HasFailed (V.cloud_at shelf.old self.old.header.cloud.0)
            (V.cloud_at shelf.new self.old.header.cloud.0) (V.faults shelf.old) (V.faults shelf.new)) }
        ensures uncounted { UnlessFailed result (KeepsCounts (V.cloud_at shelf.old self.old.header.cloud.0)
            (V.cloud_at shelf.new self.old.header.cloud.0) (V.faults shelf.old) (V.faults shelf.new)) }
    {
        if self.disk.fits(len) {
            return Ok(());
        }
        let cloud = self.header.cloud;
        let space = CheckpointSpace {
            chains: &mut self.chains,
            marks: &mut self.marks,
            buffer: &mut self.body,
        };
        checkpoint_of_memory(
            &self.memory,
            &mut self.disk,
            shelf,
            cloud,
            &self.header,
            self.commands,
            self.region,
            space,
        )?;
        if self.disk.fits(len) {
            Ok(())
        } else {
            Err(Unsettled::Long)
        }
    }
}

/// Makes room for a command's record. After an Err nothing is staged.
pub(crate) fn have_room<V: Shelf>(
    store: &mut CloudStore,
    shelf: &mut V,
    len: u32,
) -> Result<(), Unsettled>
    requires settled { IsSettled store.old }
    requires open { IsOpen store.old }

    ensures any_moment { (list : List Command) (c : Chain)
        → Serves list c store.old (V.cloud_at shelf.old store.old.header.cloud.0)
        → KeepsList store.old.header list (V.cloud_at shelf.old store.old.header.cloud.0)
        (V.cloud_at shelf.new store.old.header.cloud.0) }
    ensures only_journal { (list : List Command) (c : Chain)
        → Serves list c store.old (V.cloud_at shelf.old store.old.header.cloud.0)
        → KeepsOthers (V.cloud_at shelf.old store.old.header.cloud.0) (V.cloud_at shelf.new store.old.header.cloud.0) }
    ensures serves { (list : List Command) (c : Chain)
        → Serves list c store.old (V.cloud_at shelf.old store.old.header.cloud.0)
        → OnOk result (Serves list (chain_with_room store.old list c len) store.new
        (V.cloud_at shelf.new store.old.header.cloud.0)) }
    ensures never_long { len + 5 ≤ longest_record → IfLong result ⊥ }
    ensures chain { KeepsOrSums store.old (V.cloud_at shelf.old store.old.header.cloud.0)
        (V.cloud_at shelf.new store.old.header.cloud.0) }
    ensures made { HasRoomMade store.old store.new (V.cloud_at shelf.old store.old.header.cloud.0)
        (V.cloud_at shelf.new store.old.header.cloud.0) result }
    ensures fits { OnOk result (FitsHalf store.new len) }
    ensures long { IfLong result (IsTooLong store.old len) }
    ensures unmoved { IfLong result (Unmoved store.old store.new) }
    ensures untouched { FitsHalf store.old len → (store.new ≡ store.old) × (shelf.new ≡ shelf.old) × IsOk result }
    ensures ends { OnOk result ((store.new.memory.shares_end ≤ regions_end)
        × (store.new.memory.recipes_end ≤ regions_end)) }
    ensures same { OnOk result (KeepsServing store.old store.new) }
    ensures header { store.new.header ≡ store.old.header }
    ensures none { OnErr result (NoneStaged store.new) }
    ensures settled { IsSettled store.new }
    ensures stage { store.new.disk.journal.stage ≡ stage_behind result }
    ensures call { IsCall (V.cloud_at shelf.old) (V.cloud_at shelf.new) store.old.header.cloud.0
        (V.faults shelf.old) (V.faults shelf.new) }
    ensures failed { IfFailed result (HasFailed (V.cloud_at shelf.old store.old.header.cloud.0)
        (V.cloud_at shelf.new store.old.header.cloud.0) (V.faults shelf.old) (V.faults shelf.new)) }
    ensures uncounted { UnlessFailed result (KeepsCounts (V.cloud_at shelf.old store.old.header.cloud.0)
        (V.cloud_at shelf.new store.old.header.cloud.0) (V.faults shelf.old) (V.faults shelf.new)) }
{
    match store.make_room(shelf, len) {
        Ok(()) => Ok(()),
        Err(Unsettled::Long) => {
            store.disk.unstage();
            Err(Unsettled::Long)
        }
        Err(Unsettled::Failed) => {
            store.disk.unstage();
            Err(Unsettled::Failed)
        }
    }
}
