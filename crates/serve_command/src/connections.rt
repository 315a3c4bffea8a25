//! Connections, one after another.

ghost use Rattle.std.specs.Prelude.{◌≡◌, ◌<◌, IfOk, OnErr};
ghost use Rattle.share_server.specs.CdEdges.Causes.{Rose};
ghost use Rattle.serve_command.specs.Connection.{EndsWithCause};
ghost use Rattle.serve_command.specs.Served.{output_of};
ghost use Rattle.serve_command.specs.Steps.{HasServedConnection, ServesAll, moment_of, status_by};

use crate::desk::Desk;
use crate::lines::{write_connection, write_ready};
use crate::stop::ServingStop;
use crate::{Served, serve_connection};
use share_server::{Failed, Ports, Shelf, Sink};
use std::alloc::Global;

// Waits for the next connection, serves it, and ends it. It says how the connection ended.
fn serve_next<V: Shelf, P: Ports>(
    desk: &mut Desk,
    shelf: &mut V,
    ports: &mut P,
) -> Result<Served, Failed>
    ensures goes { IfOk result (HasServedConnection desk.old.server.store.header
        (moment_of desk.old.server (V.cloud_at shelf.old) (V.faults shelf.old) (P.tells ports.old))
        (moment_of desk.new.server (V.cloud_at shelf.new) (V.faults shelf.new) (P.tells ports.new))) }
    ensures cause { IfOk result (λ ended. EndsWithCause ended (P.faults ports.old) (P.faults ports.new)) }
    ensures failed { OnErr result (Rose (P.faults ports.old) (P.faults ports.new)) }
    ensures stays { OnErr result
        ((desk.new.server ≡ desk.old.server) × (shelf.new ≡ shelf.old) × (P.tells ports.new ≡ P.tells ports.old)) }
{
    let port = match ports.accept() {
        Ok(port) => port,
        Err(Failed) => return Err(Failed),
    };
    let served = serve_connection(
        &mut desk.server,
        shelf,
        ports,
        port,
        &mut desk.framer,
        &mut desk.reply,
    );
    ports.close(port);
    Ok(served)
}

/// Listens at the address, says so, and serves so many connections, one after another. A line tells how each ended.
///
/// It stops where no connection can be listened for or accepted, where the sink fails in a line, and where memory runs
/// out for one.
pub fn serve_all<K: Sink, V: Shelf, P: Ports>(
    alloc: Global,
    desk: &mut Desk,
    address: &str,
    count: u32,
    sink: &mut K,
    shelf: &mut V,
    ports: &mut P,
) -> Result<(), ServingStop>
    requires { 0 < count }
    ensures { ServesAll (status_by result) desk.old.server.store.header
        (moment_of desk.old.server (V.cloud_at shelf.old) (V.faults shelf.old) (P.tells ports.old))
        (moment_of desk.new.server (V.cloud_at shelf.new) (V.faults shelf.new) (P.tells ports.new))
        address.now count
        (output_of (K.written sink.old) (K.written sink.new) (K.faults sink.old) (K.faults sink.new))
        (P.faults ports.old) (P.faults ports.new) }
{
    match ports.listen(address) {
        Ok(()) => {}
        Err(Failed) => return Err(ServingStop::PortsFault),
    }
    match write_ready(alloc, address, sink) {
        Ok(()) => {}
        Err(stop) => return Err(stop),
    }
    for number in 0..count {
        let served = match serve_next(desk, shelf, ports) {
            Ok(served) => served,
            Err(Failed) => return Err(ServingStop::PortsFault),
        };
        match write_connection(alloc, number + 1, served, sink) {
            Ok(()) => {}
            Err(stop) => return Err(stop),
        }
    }
    Ok(())
}
