//! The reclaim of a cloud.

ghost use Rattle.std.specs.Prelude.{◌≡◌, ◌⊎◌, ◌<◌};
ghost use Rattle.reclaim.specs.CdEdges.Shelf.{IsCall};
ghost use Rattle.command_cloud.specs.BackupCommand.Writing.{output_of};
ghost use Rattle.command_cloud.specs.ShareServer.Serving.{number_of};
ghost use Rattle.command_cloud.specs.CloudStore.Store.{IsOpen};
ghost use Rattle.command_cloud.specs.Opened.{cloud_call};
ghost use Rattle.command_cloud.specs.Unhindered.{IsOpeningUnhindered};
ghost use Rattle.reclaim_command.specs.GivenBack.{IsReclaimed};
ghost use Rattle.reclaim_command.specs.Steps.{ReclaimedBy};

use crate::lines::write_reclaimed;
use command_cloud::{Server, open_cloud, write_unopened};
use reclaim::{CloudNo, Shape, Shelf, Sink, reclaim};
use std::alloc::Global;

// Gives back the dead space of an open server's cloud.
fn reclaim_opened<K: Sink, V: Shelf>(
    alloc: Global,
    server: &mut Server,
    sink: &mut K,
    shelf: &mut V,
) -> u8
    requires { IsOpen server.old.store }
    ensures reclaimed { ReclaimedBy server.old (cloud_call server.old.store.header.shape server.old.store.header.cloud
        (V.cloud_at shelf.old (number_of server.old)) (V.cloud_at shelf.new (number_of server.old))
        (V.faults shelf.old) (V.faults shelf.new))
        (output_of (K.written sink.old) (K.written sink.new) (K.faults sink.old) (K.faults sink.new)) result }
    ensures call { IsCall (V.cloud_at shelf.old) (V.cloud_at shelf.new) (number_of server.old)
        (V.faults shelf.old) (V.faults shelf.new) }
{
    let cloud = server.header().cloud;
    let came = reclaim(server, shelf);
    write_reclaimed(alloc, sink, cloud, came)
}

/// Opens a cloud of a store of this shape in the rooms that its journal has, and begins nothing; copies what is alive, the
/// shares that some user owns and the recipes of entries, to the other region of both areas, each byte hashed on its way; and
/// switches to the copies by a checkpoint of the compact list. It answers the status. `cloud` is below the shape's n.
///
/// | Status | Comes | Written |
/// |---|---|---|
/// | 0 | the switch is made | `reclaimed CLOUD SHARES RECIPES DROPPED` |
/// | 4 | only where the sink's count of faults rose | a front of what was due |
/// | 5 | only where the cloud's count of faults rose | `shelf CLOUD` |
/// | 6 | memory ran out; or what is alive has no room, which never comes of a list | nothing |
/// | 7 | no store is begun | `notbegun CLOUD LEN` |
/// | 7 | the journal is damaged | `damaged CLOUD AT BYTE` |
/// | 7 | the journal is another store's or cloud's | `other CLOUD FORMAT N K OWN`, as found |
/// | 8 | a blob that is alive is short, or hashes to another value | `refused rotten CLOUD NAMED FOUND` |
///
/// SHARES and RECIPES are the bytes of shares and of recipes that are alive, each blob once, and DROPPED is how many shares no
/// user owned. For each list that a told cloud stands for within its rooms: whenever a crash comes, the areas are as a crash
/// might have left them at the start, or stand for the list or for its compact list; with 0 they stand for the compact list, in
/// the same rooms; and where no count rises, it is 0 or 6. The shelf's other clouds are as they were.
pub fn reclaim_cloud<K: Sink, V: Shelf>(
    alloc: Global,
    shape: Shape,
    cloud: CloudNo,
    sink: &mut K,
    shelf: &mut V,
) -> u8
    requires cloud { cloud.0 < shape.n }
    ensures reclaimed { IsReclaimed result (cloud_call shape cloud (V.cloud_at shelf.old cloud.0)
        (V.cloud_at shelf.new cloud.0) (V.faults shelf.old) (V.faults shelf.new))
        (output_of (K.written sink.old) (K.written sink.new) (K.faults sink.old) (K.faults sink.new)) }
    ensures call { IsCall (V.cloud_at shelf.old) (V.cloud_at shelf.new) cloud.0
        (V.faults shelf.old) (V.faults shelf.new) }
    ensures complete { IsOpeningUnhindered (cloud_call shape cloud (V.cloud_at shelf.old cloud.0)
        (V.cloud_at shelf.new cloud.0) (V.faults shelf.old) (V.faults shelf.new))
        (output_of (K.written sink.old) (K.written sink.new) (K.faults sink.old) (K.faults sink.new))
        → (result ≡ 0) ⊎ (result ≡ 6) }
{
    match open_cloud(alloc, shape, cloud, shelf) {
        Ok(server) => {
            let mut opened = server;
            reclaim_opened(alloc, &mut opened, sink, shelf)
        }
        Err(why) => write_unopened(alloc, sink, cloud, why),
    }
}
