//! The switch to the copies.

ghost use Rattle.std.specs.Prelude.{◌≡◌, List, length, OnOk, OnErr};
ghost use Rattle.fresh_checkpoints.specs.CdEdges.Disk.{LeavesOnly};
ghost use Rattle.fresh_checkpoints.specs.CdEdges.Shelf.{IsCall, HasFailed, KeepsCounts};
ghost use Rattle.cloud_store.specs.CommitJournal.Leaving.{OtherAreasStay};
ghost use Rattle.cloud_store.specs.CommitJournal.journal.Stage.TheVariants.{Shut};
ghost use Rattle.compact_lists.specs.UserDedup.command.Command.{Command};
ghost use Rattle.compact_lists.specs.UserDedup.Compact.{compact};
ghost use Rattle.fresh_checkpoints.specs.CloudAreas.Standing.{Chain};
ghost use Rattle.fresh_checkpoints.specs.CloudDisk.Disk.{IsRead};
ghost use Rattle.fresh_checkpoints.specs.CloudMemory.Rooms.{memory_of};
ghost use Rattle.fresh_checkpoints.specs.Checkpoints.Known.{AreListed, checkpoint_in};
ghost use Rattle.fresh_checkpoints.specs.Checkpoints.Laying.{KeepsOrSettles, HasSettled};
ghost use Rattle.fresh_checkpoints.specs.Checkpoints.Records.{records_of};
ghost use Rattle.fresh_checkpoints.specs.CompactMemories.Kept.{commands_in};
ghost use Rattle.fresh_checkpoints.specs.CompactMemories.Moved.{IsMoved, other_region};
ghost use Rattle.fresh_checkpoints.specs.Fresh.{IsNextMemory};
ghost use Rattle.fresh_checkpoints.specs.Switching.{StandsForOneOf};
ghost use Rattle.cloud_store.specs.CloudOpening.Roomy.{IsRoomy};
ghost use Rattle.cloud_store.specs.Store.{IsOpen, IsSettled, EndsMeet, ServesSome};
ghost use Rattle.blob_copy.specs.Answers.{IfCopyRotten, MatchFault, NeverWrong};
ghost use Rattle.blob_copy.specs.Copying.{IsCopyLaid, IsCopying, AreAllCopied, StandsForKept};
ghost use Rattle.blob_copy.specs.Switched.{OnLong, IsMovedTo};

use crate::room::is_roomy;
use crate::{CopyErr, Copying};
use cloud_store::CloudStore;
use fresh_checkpoints::{
    CheckpointSpace, CloudMemory, NextList, Shelf, commands_of_compact, law_of_moved_fits,
    lay_fresh, make_moved,
};

// The slots of a memory's tables list what they have.
fn slots_list(memory: &CloudMemory)
    ensures { AreListed memory.now }
{
    let _ = memory.shares().place_at(0);
    let _ = memory.shares().owner_at(0);
    let _ = memory.files().entry_at(0);
}

// Puts a checkpoint of a memory that was moved in the place of the journal's chain. After an error the journal is shut.
fn settle<V: Shelf>(store: &mut CloudStore, shelf: &mut V, next: NextList) -> Result<(), CopyErr>
    requires { IsMovedTo next.region store.old }

    ensures any_moment { (list other : List Command) (c : Chain)
        → IsRead store.old.header list c store.old.disk.journal (V.cloud_at shelf.old store.old.header.cloud.0)
        → IsNextMemory store.old.header other next.commands next.region store.old.memory
        (V.cloud_at shelf.old store.old.header.cloud.0)
        → LeavesOnly (V.cloud_at shelf.old store.old.header.cloud.0) (V.cloud_at shelf.new store.old.header.cloud.0)
        (StandsForOneOf store.old.header list store.old.header other) }
    ensures read { (list other : List Command) (c : Chain)
        → IsRead store.old.header list c store.old.disk.journal (V.cloud_at shelf.old store.old.header.cloud.0)
        → IsNextMemory store.old.header other next.commands next.region store.old.memory
        (V.cloud_at shelf.old store.old.header.cloud.0)
        → OnOk result (IsRead store.old.header other
        (checkpoint_in store.old.header other c next.commands next.region store.old.memory)
        store.new.disk.journal (V.cloud_at shelf.new store.old.header.cloud.0)) }
    ensures long { OnLong result (¬ IsRoomy store.old.header.rooms next.region (memory_of store.old.memory)) }
    ensures still { OnLong result (shelf.new ≡ shelf.old) }
    ensures never_rotten { IfCopyRotten result (λ named found. ⊥) }
    ensures next { OnOk result ((store.new.commands ≡ next.commands) × (store.new.region ≡ next.region)) }
    ensures memory { store.new.memory ≡ store.old.memory }
    ensures logs { (store.new.disk.shares ≡ store.old.disk.shares)
        × (store.new.disk.recipes ≡ store.old.disk.recipes) }
    ensures chain { KeepsOrSettles store.old.disk.journal store.old.header next.commands
        (length (records_of store.old.memory)) next.region (records_of store.old.memory)
        (V.cloud_at shelf.old store.old.header.cloud.0) (V.cloud_at shelf.new store.old.header.cloud.0) }
    ensures taken { HasSettled store.old.disk.journal store.new.disk.journal store.old.header next.commands
        (length (records_of store.old.memory)) next.region (records_of store.old.memory)
        (V.cloud_at shelf.old store.old.header.cloud.0) (V.cloud_at shelf.new store.old.header.cloud.0) result }
    ensures others { OtherAreasStay (V.cloud_at shelf.old store.old.header.cloud.0)
        (V.cloud_at shelf.new store.old.header.cloud.0) result }
    ensures header { store.new.header ≡ store.old.header }
    ensures settled { IsSettled store.new }
    ensures stage { OnOk result (IsOpen store.new) }
    ensures shut { OnErr result (store.new.disk.journal.stage ≡ Shut) }
    ensures call { IsCall (V.cloud_at shelf.old) (V.cloud_at shelf.new) store.old.header.cloud.0
        (V.faults shelf.old) (V.faults shelf.new) }
    ensures counts { MatchFault result
        (HasFailed (V.cloud_at shelf.old store.old.header.cloud.0) (V.cloud_at shelf.new store.old.header.cloud.0)
        (V.faults shelf.old) (V.faults shelf.new))
        (KeepsCounts (V.cloud_at shelf.old store.old.header.cloud.0) (V.cloud_at shelf.new store.old.header.cloud.0)
        (V.faults shelf.old) (V.faults shelf.new)) }
{
    if !is_roomy(&store.memory, &store.header.rooms, next.region) {
        store.disk.shut();
        return Err(CopyErr::Long);
    }
    let cloud = store.header.cloud;
    let space = CheckpointSpace {
        chains: &mut store.chains,
        marks: &mut store.marks,
        buffer: &mut store.body,
    };
    let laid = lay_fresh(
        &store.memory,
        next,
        store.disk.journal_mut(),
        shelf,
        cloud,
        &store.header,
        space,
    );
    match laid {
        Ok(()) => {
            store.commands = next.commands;
            store.region = next.region;
            Ok(())
        }
        // what has the rooms is never too long
        Err(_) => Err(CopyErr::Fault),
    }
}

/// Makes the copies the store's blobs and forgets the rest: a checkpoint of what is kept, in the other region, takes the
/// chain's place. For each list that the store knows, the cloud stands for the list or for its compact list whenever a
/// crash comes, and after Ok the store serves the compact list. `Rotten` never comes, and `Long` exactly where what is kept
/// passes the rooms, which it never does where the store knows a list; no device is called then. After an error the
/// journal is shut, since the memory is moved already: an opening reads it anew. No area but the journal is written. It
/// takes no memory.
pub fn switch<V: Shelf>(
    store: &mut CloudStore,
    shelf: &mut V,
    copying: &Copying,
) -> Result<(), CopyErr>
    requires settled { IsSettled store.old }
    requires open { IsOpen store.old }
    requires laid { IsCopyLaid store.old copying.now }
    requires all { AreAllCopied store.old copying.now }

    // for each list that the store knows
    ensures any_moment { (list : List Command) (c : Chain)
        → IsCopying list c store.old copying.now (V.cloud_at shelf.old store.old.header.cloud.0)
        → LeavesOnly (V.cloud_at shelf.old store.old.header.cloud.0) (V.cloud_at shelf.new store.old.header.cloud.0)
        (StandsForKept store.old.header list) }
    ensures switched { (list : List Command) (c : Chain)
        → IsCopying list c store.old copying.now (V.cloud_at shelf.old store.old.header.cloud.0)
        → OnOk result (ServesSome (compact store.old.header.shape list) store.new
        (V.cloud_at shelf.new store.old.header.cloud.0)) }
    ensures never_wrong { (list : List Command) (c : Chain)
        → IsCopying list c store.old copying.now (V.cloud_at shelf.old store.old.header.cloud.0)
        → NeverWrong result }

    // whatever is known of the cloud
    ensures moved { IsMoved (other_region store.old.region) store.old.memory (memory_of store.new.memory) }
    ensures meet { OnOk result (EndsMeet store.new) }
    ensures region { OnOk result (store.new.region ≡ other_region store.old.region) }
    ensures number { OnOk result (store.new.commands ≡ commands_in (memory_of store.old.memory)) }
    ensures never_rotten { IfCopyRotten result (λ named found. ⊥) }
    ensures long { OnLong result (¬ IsRoomy store.old.header.rooms (other_region store.old.region)
        (memory_of store.new.memory)) }
    ensures still { OnLong result (shelf.new ≡ shelf.old) }
    // each image since has the chain that was read, or the checkpoint's
    ensures chain { KeepsOrSettles store.old.disk.journal store.old.header (commands_in (memory_of store.old.memory))
        (length (records_of store.new.memory)) (other_region store.old.region) (records_of store.new.memory)
        (V.cloud_at shelf.old store.old.header.cloud.0) (V.cloud_at shelf.new store.old.header.cloud.0) }
    ensures taken { HasSettled store.old.disk.journal store.new.disk.journal store.old.header
        (commands_in (memory_of store.old.memory)) (length (records_of store.new.memory))
        (other_region store.old.region) (records_of store.new.memory)
        (V.cloud_at shelf.old store.old.header.cloud.0) (V.cloud_at shelf.new store.old.header.cloud.0) result }
    ensures logs { (store.new.disk.shares ≡ store.old.disk.shares)
        × (store.new.disk.recipes ≡ store.old.disk.recipes) }
    ensures others { OtherAreasStay (V.cloud_at shelf.old store.old.header.cloud.0)
        (V.cloud_at shelf.new store.old.header.cloud.0) result }
    ensures header { store.new.header ≡ store.old.header }
    ensures settled { IsSettled store.new }
    ensures stage { OnOk result (IsOpen store.new) }
    ensures shut { OnErr result (store.new.disk.journal.stage ≡ Shut) }
    ensures call { IsCall (V.cloud_at shelf.old) (V.cloud_at shelf.new) store.old.header.cloud.0
        (V.faults shelf.old) (V.faults shelf.new) }
    ensures counts { MatchFault result
        (HasFailed (V.cloud_at shelf.old store.old.header.cloud.0) (V.cloud_at shelf.new store.old.header.cloud.0)
        (V.faults shelf.old) (V.faults shelf.new))
        (KeepsCounts (V.cloud_at shelf.old store.old.header.cloud.0) (V.cloud_at shelf.new store.old.header.cloud.0)
        (V.faults shelf.old) (V.faults shelf.new)) }
{
    let other = 1 - store.region;
    slots_list(&store.memory);
    law_of_moved_fits();
    let commands = commands_of_compact(&store.memory);
    make_moved(&mut store.memory, other);
    slots_list(&store.memory);
    let next = NextList {
        commands,
        region: other,
    };
    settle(store, shelf, next)
}
