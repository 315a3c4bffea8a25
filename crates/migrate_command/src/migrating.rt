//! The migration of a cloud in a place.

ghost use Rattle.std.specs.Prelude.{◌≡◌, ◌⊎◌, ◌<◌, List};
ghost use Rattle.store_migration.specs.CdEdges.Shelf.{IsCall};
ghost use Rattle.store_migration.specs.JournalStart.Ranges.{AreRooms};
ghost use Rattle.store_migration.specs.UserDedup.command.Command.{Command};
ghost use Rattle.command_cloud.specs.BackupCommand.Writing.{output_of};
ghost use Rattle.command_cloud.specs.Opened.{cloud_call};
ghost use Rattle.store_migration.specs.MigrationModel.Migrating.{AreSmallEnough};
ghost use Rattle.migrate_command.specs.TakenOver.{IsTakenOver, IsMigrationUnhindered};

use crate::lines::write_migrated;
use std::alloc::Global;
use store_migration::{CloudNo, Shape, Shelf, Sink, UserRooms, migrate};

/// Takes a cloud of a store of this shape, which was written in format 1, over into format 2, with these rooms from then on: its
/// areas are synced, its journal is read, and a checkpoint of what is kept takes the place of the journal's chain. Shares and
/// Recipes aren't written. It answers the status. `cloud` is below the shape's n.
///
/// | Status | Comes | Written |
/// |---|---|---|
/// | 0 | the checkpoint has taken the chain's place | `migrated CLOUD COMMANDS` |
/// | 4 | only where the sink's count of faults rose | a front of what was due |
/// | 5 | only where the cloud's count of faults rose: it is as it was, or migrated | `shelf CLOUD` |
/// | 6 | memory ran out: nothing was done; or it ran out for the line alone | nothing |
/// | 7 | no store is begun | `notbegun CLOUD LEN` |
/// | 7 | the journal is damaged | `damaged CLOUD AT BYTE` |
/// | 7 | the journal has neither format 1 nor 2, or it is another store's or cloud's | `other CLOUD FORMAT N K OWN`, as found |
/// | 7 | the journal holds more than format 1 allowed | `rooms CLOUD ROOM LIMIT` |
/// | 8 | the cloud is in format 2, whatever its rooms are | `refused already CLOUD` |
/// | 8 | a user keeps more than it may: the least such user, and its first room | `refused toolarge USER ROOM USED LIMIT` |
///
/// COMMANDS is how many commands what is kept has. With 7 and 8 the three syncs were made and nothing else. For each list that a
/// told cloud stands for in format 1: whenever a crash comes, the areas stand for the list, or in format 2 for its compact list,
/// and with 0 for the compact list alone; and where no count rises, it is 0, 6, or 8 where a user keeps too much. Whatever the
/// bytes of a told cloud are, they give the answer. The shelf's other clouds are as they were.
pub fn migrate_cloud<K: Sink, V: Shelf>(
    alloc: Global,
    shape: Shape,
    cloud: CloudNo,
    rooms: UserRooms,
    sink: &mut K,
    shelf: &mut V,
) -> u8
    requires cloud { cloud.0 < shape.n }
    requires rooms { AreRooms rooms }
    ensures migrated { IsTakenOver rooms result (cloud_call shape cloud (V.cloud_at shelf.old cloud.0)
        (V.cloud_at shelf.new cloud.0) (V.faults shelf.old) (V.faults shelf.new))
        (output_of (K.written sink.old) (K.written sink.new) (K.faults sink.old) (K.faults sink.new)) }
    ensures call { IsCall (V.cloud_at shelf.old) (V.cloud_at shelf.new) cloud.0
        (V.faults shelf.old) (V.faults shelf.new) }
    ensures complete { (list : List Command)
        → IsMigrationUnhindered list (cloud_call shape cloud (V.cloud_at shelf.old cloud.0)
        (V.cloud_at shelf.new cloud.0) (V.faults shelf.old) (V.faults shelf.new))
        (output_of (K.written sink.old) (K.written sink.new) (K.faults sink.old) (K.faults sink.new))
        → AreSmallEnough shape rooms list → (result ≡ 0) ⊎ (result ≡ 6) }
{
    let came = migrate(alloc, shelf, cloud, shape, rooms);
    write_migrated(alloc, sink, cloud, came)
}
