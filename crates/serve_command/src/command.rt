//! Serving a cloud.

ghost use Rattle.std.specs.Prelude.{◌≡◌, ◌⊎◌, ◌<◌};
ghost use Rattle.share_server.specs.CdEdges.Shelf.{IsCall};
ghost use Rattle.share_server.specs.Names.{header_of};
ghost use Rattle.serve_command.specs.Complete.{IsServeUnhindered};
ghost use Rattle.serve_command.specs.Served.{IsServed, IsUnmade, IsUnopenedOrServed, output_of};
ghost use Rattle.serve_command.specs.Steps.{IsUnmadeOrServed};
ghost use Rattle.share_server.specs.JournalStart.Ranges.{AreRooms};

use crate::connections::serve_all;
use crate::desk::Desk;
use crate::finding::rooms_of;
use crate::refusal::refuse;
use crate::stop::status_of;
use ports_link::{CloudNo, NoMemory, Shape};
use share_server::laws::law_of_no_commands;
use share_server::{Ports, Shelf, Sink, UserRooms, WINDOW, law_of_headers};
use std::alloc::{AllocError, Global};

// Which cloud of a store is served, and in which rooms.
#[derive(Clone, Copy)]
struct ServedCloud {
    shape: Shape,
    cloud: CloudNo,
    rooms: UserRooms,
}

// Opens the cloud of a desk, and serves it. It answers the status.
fn serve_at<K: Sink, V: Shelf, P: Ports>(
    alloc: Global,
    desk: &mut Desk,
    cloud: CloudNo,
    address: &str,
    count: u32,
    sink: &mut K,
    shelf: &mut V,
    ports: &mut P,
) -> u8
    requires of { desk.old.server.store.header
        ≡ header_of desk.old.server.store.header.shape desk.old.server.store.header.rooms cloud.0 }
    requires count { 0 < count }
    ensures served { IsUnopenedOrServed desk.old.server.store.header.rooms result (record {
      shape = desk.old.server.store.header.shape;
      cloud = cloud;
      address = address.now;
      count = count;
      out = output_of (K.written sink.old) (K.written sink.new) (K.faults sink.old) (K.faults sink.new);
      old = V.cloud_at shelf.old;
      new = V.cloud_at shelf.new;
      total_before = V.faults shelf.old;
      total_after = V.faults shelf.new;
      tells_before = P.tells ports.old;
      tells_after = P.tells ports.new;
      ports_before = P.faults ports.old;
      ports_after = P.faults ports.new;
    }) }
    ensures call { IsCall (V.cloud_at shelf.old) (V.cloud_at shelf.new) cloud.0
        (V.faults shelf.old) (V.faults shelf.new) }
{
    match desk.server.reopen(shelf, true) {
        Ok(_) => {
            let served = serve_all(alloc, desk, address, count, sink, shelf, ports);
            status_of(served)
        }
        Err(error) => refuse(alloc, cloud, error, sink),
    }
}

// Makes a desk for the cloud in these rooms, and serves the cloud. It answers the status.
fn serve_in<K: Sink, V: Shelf, P: Ports>(
    alloc: Global,
    served: ServedCloud,
    address: &str,
    count: u32,
    sink: &mut K,
    shelf: &mut V,
    ports: &mut P,
) -> u8
    requires cloud { served.cloud.0 < served.shape.n }
    requires rooms { AreRooms served.rooms }
    requires count { 0 < count }
    ensures served { IsUnmadeOrServed served.rooms result (record {
      shape = served.shape;
      cloud = served.cloud;
      address = address.now;
      count = count;
      out = output_of (K.written sink.old) (K.written sink.new) (K.faults sink.old) (K.faults sink.new);
      old = V.cloud_at shelf.old;
      new = V.cloud_at shelf.new;
      total_before = V.faults shelf.old;
      total_after = V.faults shelf.new;
      tells_before = P.tells ports.old;
      tells_after = P.tells ports.new;
      ports_before = P.faults ports.old;
      ports_after = P.faults ports.new;
    }) }
    ensures call { IsCall (V.cloud_at shelf.old) (V.cloud_at shelf.new) served.cloud.0
        (V.faults shelf.old) (V.faults shelf.new) }
{
    let mut desk = match Desk::make(alloc, served.shape, served.cloud, served.rooms) {
        Ok(desk) => desk,
        Err(NoMemory) => return 6,
    };
    serve_at(
        alloc,
        &mut desk,
        served.cloud,
        address,
        count,
        sink,
        shelf,
        ports,
    )
}

/// Serves a cloud of a store of this shape to so many connections, one after another, and answers the status. `cloud`
/// is below the shape's n, and `count` is at least 1.
///
/// The rooms are found first: those of the journal's current half, and the usual ones where none is begun. Then the server,
/// in these rooms, and its buffers are made. The cloud is opened, and begun where it isn't begun. Then connections to the address are listened for, the line `ready ADDRESS` is written, and each connection
/// that is accepted is served to its end and closed; behind it stands the line `connection I WORD`, where I counts from
/// 1 and WORD is `end`, `cut`, `length`, `spent` or `failed`. A connection that failed is followed by the next one.
///
/// | Status | Comes | Written |
/// |---|---|---|
/// | 0 | `count` connections were served | all lines |
/// | 4 | the sink's count of faults rose | a front of the lines, or of the last line of 5 and 7 |
/// | 5 | a device call of the opening failed, and the cloud's count rose | `shelf CLOUD` |
/// | 6 | memory ran out: before the cloud was opened, and it was only read; or for a line | the lines before that one |
/// | 7 | the journal is damaged | `damaged CLOUD AT BYTE` |
/// | 7 | the journal is another store's or cloud's, or has other rooms | `other CLOUD FORMAT N K OWN`, as found |
/// | 9 | the ports' count rose: nothing could be listened for | nothing |
/// | 9 | the ports' count rose: no further connection was accepted | all lines of the connections before |
///
/// AT is in bytes, BYTE in two hexadecimal digits. With 5 and 7 no port was touched, and the areas are spared. Nothing
/// is done behind a line that isn't written whole.
///
/// On a told cloud whose areas stand for a list within the rooms the first connection begins with that list, and each
/// later one with the list and the pending command that the one before left; each image now stands for what the last
/// one left, and each image between two requests for what the cloud has there, or for that with the command of the
/// request that is answered next. Each reply is the one that the list gives, however the bytes came in pieces. The shelf's
/// other clouds are as they were.
///
/// Whatever the cloud holds, each request is replied to as by `Server::execute`. So Fault comes only where the cloud's
/// count rose, and Damaged only behind a Fault.
pub fn serve<K: Sink, V: Shelf, P: Ports>(
    alloc: Global,
    shape: Shape,
    cloud: CloudNo,
    address: &str,
    count: u32,
    sink: &mut K,
    shelf: &mut V,
    ports: &mut P,
) -> u8
    requires cloud { cloud.0 < shape.n }
    requires count { 0 < count }
    ensures served { IsServed result (record {
      shape = shape;
      cloud = cloud;
      address = address.now;
      count = count;
      out = output_of (K.written sink.old) (K.written sink.new) (K.faults sink.old) (K.faults sink.new);
      old = V.cloud_at shelf.old;
      new = V.cloud_at shelf.new;
      total_before = V.faults shelf.old;
      total_after = V.faults shelf.new;
      tells_before = P.tells ports.old;
      tells_after = P.tells ports.new;
      ports_before = P.faults ports.old;
      ports_after = P.faults ports.new;
    }) }
    ensures call { IsCall (V.cloud_at shelf.old) (V.cloud_at shelf.new) cloud.0
        (V.faults shelf.old) (V.faults shelf.new) }
    ensures complete { IsServeUnhindered (record {
      shape = shape;
      cloud = cloud;
      address = address.now;
      count = count;
      out = output_of (K.written sink.old) (K.written sink.new) (K.faults sink.old) (K.faults sink.new);
      old = V.cloud_at shelf.old;
      new = V.cloud_at shelf.new;
      total_before = V.faults shelf.old;
      total_after = V.faults shelf.new;
      tells_before = P.tells ports.old;
      tells_after = P.tells ports.new;
      ports_before = P.faults ports.old;
      ports_after = P.faults ports.new;
    }) → (result ≡ 0) ⊎ (result ≡ 6) }
{
    law_of_no_commands();
    law_of_headers();
    let mut window = match vec![in alloc; 0u8; WINDOW] {
        Ok(window) => window,
        Err(AllocError) => return 6,
    };
    match rooms_of(shelf, cloud, &mut window) {
        Ok(rooms) => {
            let served = ServedCloud {
                shape,
                cloud,
                rooms,
            };
            serve_in(alloc, served, address, count, sink, shelf, ports)
        }
        Err(error) => refuse(alloc, cloud, error, sink),
    }
}
