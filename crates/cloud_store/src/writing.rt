//! A command's record, written.

ghost use Rattle.std.specs.Prelude.{◌≡◌, ◌+◌, ◌-◌, ◌≤◌, ◌++◌, ◌^◌, ◌∷◌, [], ℕ, List, min, length, IsTrue, OnOk, OnErr};
ghost use Rattle.checkpoints.specs.CdEdges.Disk.{moment};
ghost use Rattle.checkpoints.specs.CloudDisk.Held.{flush_moments};
ghost use Rattle.checkpoints.specs.CdEdges.Shelf.{IsCall, HasFailed, KeepsCounts};
ghost use Rattle.checkpoints.specs.ContainerLog.Laying.{Placed};
ghost use Rattle.checkpoints.specs.RecordBody.FirstSpelling.{item_bytes};
ghost use Rattle.checkpoints.specs.RecordBody.Spelling.{Body, Put, body_bytes};
ghost use Rattle.checkpoints.specs.UserDedup.command.Command.{Command};
ghost use Rattle.checkpoints.specs.CloudAreas.Adding.{with_record};
ghost use Rattle.checkpoints.specs.CloudAreas.Standing.{Chain};
ghost use Rattle.checkpoints.specs.CloudDisk.Disk.{IsOn, IsPrepared, KeepsOrAdds, KeepsDiskOrGrows, HasDiskGrown};
ghost use Rattle.checkpoints.specs.CloudDisk.Disk.{KeepsFronts};
ghost use Rattle.checkpoints.specs.CloudDisk.Disk.{EndsBehind, SameRooms};
ghost use Rattle.cloud_store.specs.Store.{IsOpen, IsSettled, FitsHalf};
ghost use Rattle.checkpoints.specs.CommitJournal.journal.Stage.TheVariants.{AtEnd};
ghost use Rattle.checkpoints.specs.CommitJournal.Outcomes.{stage_after};
ghost use Rattle.cloud_store.specs.Adding.{NoneStaged};

use crate::CloudStore;
use checkpoints::{BodyBuf, Failed, PutItem, Shelf};
use recipe::UserId;

// Appends a share.
fn put_one(buffer: &mut BodyBuf, item: PutItem)
    requires { length buffer.old + 45 ≤ 65535 }
    ensures value { buffer.new ≡ buffer.old ++ item_bytes item }
    ensures len { length buffer.new ≤ length buffer.old + 45 }
{
    buffer.put_item(&item);
}

/// Writes the body of the record of a Put of these shares.
pub(crate) fn write_put(buffer: &mut BodyBuf, user: UserId, items: &[PutItem])
    requires { length items.now ≤ 256 }
    ensures { buffer.new ≡ body_bytes (Put user items.now) }
{
    buffer.start_put(user, items.len() as u16);
    for item in items {
        put_one(buffer, *item);
    }
}

/// Adds the command whose record's body is in `record` to the disk, with what is staged; the memory has it already.
pub(crate) fn add_record<V: Shelf>(store: &mut CloudStore, shelf: &mut V) -> Result<(), Failed>
    requires settled { IsSettled store.old }
    requires open { IsOpen store.old }
    requires some { 1 ≤ length store.old.body }
    requires fits { FitsHalf store.old (length store.old.body) }

    ensures any_moment { (list : List Command) (c : Chain) (command : Command) (b : Body) (laid : List Placed)
        → IsPrepared store.old.header list c command b laid store.old.disk store.old.body
        (V.cloud_at shelf.old store.old.header.cloud.0)
        → KeepsOrAdds store.old.header list command (V.cloud_at shelf.old store.old.header.cloud.0)
        (V.cloud_at shelf.new store.old.header.cloud.0) }
    ensures added { (list : List Command) (c : Chain) (command : Command) (b : Body) (laid : List Placed)
        → IsPrepared store.old.header list c command b laid store.old.disk store.old.body
        (V.cloud_at shelf.old store.old.header.cloud.0)
        → OnOk result (IsOn store.old.header (list ++ command ∷ []) (with_record c b laid) store.new.disk
        (V.cloud_at shelf.new store.old.header.cloud.0)
        × KeepsFronts store.old.disk (V.cloud_at shelf.old store.old.header.cloud.0)
        (V.cloud_at shelf.new store.old.header.cloud.0)) }
    ensures chain { KeepsDiskOrGrows store.old.disk store.old.body (V.cloud_at shelf.old store.old.header.cloud.0)
        (V.cloud_at shelf.new store.old.header.cloud.0) }
    ensures grown { HasDiskGrown store.old.disk store.new.disk store.old.body
        (V.cloud_at shelf.old store.old.header.cloud.0) (V.cloud_at shelf.new store.old.header.cloud.0) result }
    ensures moments { IsTrue (V.cloud_at shelf.old store.old.header.cloud.0).told
        → OnOk result (moment (V.cloud_at shelf.new store.old.header.cloud.0)
        ≡ moment (V.cloud_at shelf.old store.old.header.cloud.0) + flush_moments store.old.disk.shares
        + flush_moments store.old.disk.recipes + 4) }
    ensures ends { OnOk result (EndsBehind store.old.disk store.new.disk store.old.body) }
    ensures commands { OnOk result (store.new.commands ≡ min (store.old.commands + 1) (2 ^ 64 - 1)) }
    ensures same { store.new ≡ record store.old { disk = store.new.disk; commands = store.new.commands } }
    ensures settled { IsSettled store.new }
    ensures rooms { SameRooms store.old.disk store.new.disk }
    ensures none { NoneStaged store.new }
    ensures stage { store.new.disk.journal.stage ≡ stage_after AtEnd result }
    ensures call { IsCall (V.cloud_at shelf.old) (V.cloud_at shelf.new) store.old.header.cloud.0
        (V.faults shelf.old) (V.faults shelf.new) }
    ensures failed { OnErr result (HasFailed (V.cloud_at shelf.old store.old.header.cloud.0)
        (V.cloud_at shelf.new store.old.header.cloud.0) (V.faults shelf.old) (V.faults shelf.new)) }
    ensures uncounted { OnOk result (KeepsCounts (V.cloud_at shelf.old store.old.header.cloud.0)
        (V.cloud_at shelf.new store.old.header.cloud.0) (V.faults shelf.old) (V.faults shelf.new)) }
{
    let cloud = store.header.cloud;
    match store.disk.add(shelf, cloud, store.body.as_slice()) {
        Ok(()) => {
            store.commands = store.commands.saturating_add(1);
            Ok(())
        }
        Err(Failed) => Err(Failed),
    }
}
