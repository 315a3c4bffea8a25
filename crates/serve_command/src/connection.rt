//! One connection to a cloud's server.

ghost use Rattle.std.specs.Prelude.{◌≡◌, IsTrue};
ghost use Rattle.share_server.specs.CdEdges.Shelf.{IsCall};
ghost use Rattle.share_server.specs.UserDedup.Exec.{Peer};
ghost use Rattle.share_server.specs.Serving.{IsServing, number_of};
ghost use Rattle.serve_command.specs.Connection.{EndsWithCause, ServesConnection};
ghost use Rattle.serve_command.specs.Serving.{RepliesOne, ServesOne, held_of, place_of, standing};

use crate::responder::CloudResponder;
use crate::{Served, serve_frames};
use ports_link::{Framer, ReplyBuf};
use share_server::{Ports, Server, Shelf};

// Serves the connection, and says what the server and its shelf did as the responder that they are.
fn serve_responder<V: Shelf, P: Ports>(
    responder: &mut CloudResponder<'_, V>,
    ports: &mut P,
    port: u32,
    framer: &mut Framer,
    reply: &mut ReplyBuf,
) -> Served
    ensures server { responder.new.server.ghost_name ≡ responder.old.server.ghost_name }
    ensures shelf { responder.new.shelf.ghost_name ≡ responder.old.shelf.ghost_name }
    ensures served { IsTrue (V.cloud_at responder.old.shelf.now (number_of responder.old.server.now)).told → (p : Peer)
        → IsServing responder.old.server.now (V.cloud_at responder.old.shelf.now (number_of responder.old.server.now)) p
        → (q : Peer)
        × IsServing responder.new.server.now (V.cloud_at responder.new.shelf.now (number_of responder.old.server.now)) q
        × ServesConnection (ServesOne responder.old.server.now.store.header) (P.tells ports.old)
        (P.tells ports.new) port
        (standing p (V.cloud_at responder.old.shelf.now (number_of responder.old.server.now)))
        (standing q (V.cloud_at responder.new.shelf.now (number_of responder.old.server.now))) result }
    ensures replied { ServesConnection RepliesOne (P.tells ports.old) (P.tells ports.new) port
        (held_of responder.old.server.now.store
        (V.cloud_at responder.old.shelf.now (number_of responder.old.server.now)) (V.faults responder.old.shelf.now))
        (held_of responder.new.server.now.store
        (V.cloud_at responder.new.shelf.now (number_of responder.old.server.now)) (V.faults responder.new.shelf.now))
        result }
    ensures same { responder.new.server.now.store.header ≡ responder.old.server.now.store.header }
    ensures call { IsCall (V.cloud_at responder.old.shelf.now) (V.cloud_at responder.new.shelf.now)
        (number_of responder.old.server.now) (V.faults responder.old.shelf.now) (V.faults responder.new.shelf.now) }
    ensures told { (P.tells ports.new).told ≡ (P.tells ports.old).told }
    ensures cause { EndsWithCause result (P.faults ports.old) (P.faults ports.new) }
{
    serve_frames(responder, ports, port, framer, reply)
}

/// Serves the connection on a port by a cloud's server, until its stream ends, a length comes that no frame has, the
/// ports fail, or 1,099,511,627,776 bytes came. The framer's bytes are forgotten first.
///
/// Each frame that comes is a request's content, and is answered by one frame, in order, however the bytes come in
/// pieces. On a cloud that stands as a peer each reply is the one that the peer's list gives, and the peer goes on by
/// the requests: whenever a crash comes between two of them, it leaves a list that the peer has there, or that list
/// with the command of the request that is answered next. `Malformed` is the reply to content that asks nothing.
///
/// Whatever the cloud holds, each request is replied to as by `Server::execute`. Fault comes only where the cloud's
/// count of faults rose, and any other reply leaves it; Damaged only from a closed server, that is behind a Fault or
/// where the server was closed at first.
///
/// Where the ports tell their bytes: for `End` the stream ended between frames, and for `Cut` inside one, of which
/// `got` bytes came; for
/// `BadLength` in a frame's place stood the length that was found; for `Spent` so many bytes came. In these four all
/// whole frames that came were answered, and the bytes sent are the frames of the replies. `Failed` comes only where
/// the ports' count of faults rose; then the frames that were answered are the first of those that came, and the last
/// reply's frame may be cut short.
pub fn serve_connection<V: Shelf, P: Ports>(
    server: &mut Server,
    shelf: &mut V,
    ports: &mut P,
    port: u32,
    framer: &mut Framer,
    reply: &mut ReplyBuf,
) -> Served
    ensures served { IsTrue (V.cloud_at shelf.old (number_of server.old)).told → (p : Peer)
        → IsServing server.old (V.cloud_at shelf.old (number_of server.old)) p
        → (q : Peer) × IsServing server.new (V.cloud_at shelf.new (number_of server.old)) q
        × ServesConnection (ServesOne server.old.store.header) (P.tells ports.old) (P.tells ports.new) port
        (standing p (V.cloud_at shelf.old (number_of server.old)))
        (standing q (V.cloud_at shelf.new (number_of server.old))) result }
    ensures replied { ServesConnection RepliesOne (P.tells ports.old) (P.tells ports.new) port
        (held_of server.old.store (V.cloud_at shelf.old (number_of server.old)) (V.faults shelf.old))
        (held_of server.new.store (V.cloud_at shelf.new (number_of server.old)) (V.faults shelf.new)) result }
    ensures same { server.new.store.header ≡ server.old.store.header }
    ensures call { IsCall (V.cloud_at shelf.old) (V.cloud_at shelf.new) (number_of server.old) (V.faults shelf.old)
        (V.faults shelf.new) }
    ensures told { (P.tells ports.new).told ≡ (P.tells ports.old).told }
    ensures cause { EndsWithCause result (P.faults ports.old) (P.faults ports.new) }
{
    let mut responder = CloudResponder { server, shelf };
    serve_responder(&mut responder, ports, port, framer, reply)
}
