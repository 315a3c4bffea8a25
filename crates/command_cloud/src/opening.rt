//! Opening a cloud in the rooms that its journal has.

ghost use Rattle.std.specs.Prelude.{◌≡◌, ◌<◌, IsTrue, IfOk, vec_len};
ghost use Rattle.backup_command.specs.CdEdges.area.Area.TheVariants.{Journal};
ghost use Rattle.backup_command.specs.CdEdges.Shelf.{IsCall};
ghost use Rattle.cloud_opening.specs.JournalHalves.Records.{window_len};
ghost use Rattle.cloud_opening.specs.JournalStart.Ranges.{AreRooms};
ghost use Rattle.serve_command.specs.Served.{HasJournalRooms};
ghost use Rattle.command_cloud.specs.Opened.{cloud_call};
ghost use Rattle.command_cloud.specs.Opens.{OpensCloud, OpensIn};

use backup_command::{CloudNo, NoMemory, Shape, Shelf};
use cloud_opening::{UserRooms, WINDOW, law_of_headers};
use serve_command::{OpenErr, Server, rooms_of};
use std::alloc::Global;

/// Why a cloud isn't opened.
#[derive(Clone, Copy)]
pub enum Unopened {
    /// Its rooms weren't found, or the opening in them ended, with this error.
    Refused(OpenErr),
    /// Memory ran out before the opening.
    NoMemory,
}

// Opens the cloud in these rooms, which are those that its journal has, and begins nothing.
fn open_in<V: Shelf>(
    alloc: Global,
    shape: Shape,
    cloud: CloudNo,
    rooms: UserRooms,
    shelf: &mut V,
) -> Result<Server, Unopened>
    requires cloud { cloud.0 < shape.n }
    requires allowed { AreRooms rooms }
    requires found { IsTrue (V.cloud_at shelf.old cloud.0).told
        → HasJournalRooms ((V.cloud_at shelf.old cloud.0).now Journal).read rooms }
    ensures opens { OpensIn rooms (cloud_call shape cloud (V.cloud_at shelf.old cloud.0) (V.cloud_at shelf.new cloud.0)
        (V.faults shelf.old) (V.faults shelf.new)) result }
    ensures call { IsCall (V.cloud_at shelf.old) (V.cloud_at shelf.new) cloud.0
        (V.faults shelf.old) (V.faults shelf.new) }
{
    law_of_headers();
    let mut server = match Server::make(alloc, cloud, shape, rooms) {
        Ok(server) => server,
        Err(NoMemory) => return Err(Unopened::NoMemory),
    };
    match server.reopen(shelf, false) {
        Ok(_) => Ok(server),
        Err(error) => Err(Unopened::Refused(error)),
    }
}

// A window for what a journal's halves begin with.
fn taken(alloc: Global) -> Result<Vec<u8>, NoMemory>
    ensures { IfOk result (λ window. vec_len window ≡ window_len) }
{
    Ok(vec![in alloc; 0u8; WINDOW]?)
}

/// Opens a cloud of a store of this shape in the rooms that its journal has, and begins nothing. Its server is open then, and
/// nothing was written to the cloud.
pub fn open_cloud<V: Shelf>(
    alloc: Global,
    shape: Shape,
    cloud: CloudNo,
    shelf: &mut V,
) -> Result<Server, Unopened>
    requires cloud { cloud.0 < shape.n }
    ensures opens { OpensCloud (cloud_call shape cloud (V.cloud_at shelf.old cloud.0) (V.cloud_at shelf.new cloud.0)
        (V.faults shelf.old) (V.faults shelf.new)) result }
    ensures call { IsCall (V.cloud_at shelf.old) (V.cloud_at shelf.new) cloud.0
        (V.faults shelf.old) (V.faults shelf.new) }
{
    let Ok(mut window) = taken(alloc) else {
        return Err(Unopened::NoMemory);
    };
    match rooms_of(shelf, cloud, window.as_mut_slice()) {
        Ok(rooms) => open_in(alloc, shape, cloud, rooms, shelf),
        Err(error) => Err(Unopened::Refused(error)),
    }
}
