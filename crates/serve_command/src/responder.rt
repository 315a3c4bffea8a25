//! A server as what answers requests.

ghost use Rattle.std.specs.Prelude.{[], ◌∷◌};
ghost use Rattle.ports_link.specs.Frames.Frames.{IsContent};
ghost use Rattle.serve_command.specs.Serving.{HasAnsweredContent, place_of};

use crate::Responder;
use ports_link::ReplyBuf;
use share_server::{Server, Shelf};

/// A server over its shelf.
#[derive(Drop)]
pub struct CloudResponder<'a, V: Shelf> {
    pub server: &'a mut Server,
    pub shelf: &'a mut V,
}

// Executes a request.
fn execute<V: Shelf>(server: &mut Server, shelf: &mut V, request: &[u8], reply: &mut ReplyBuf)
    requires { IsContent request.now }
    ensures answers { HasAnsweredContent (place_of server.old (V.cloud_at shelf.old) (V.faults shelf.old))
        (place_of server.new (V.cloud_at shelf.new) (V.faults shelf.new)) request.now reply.new }
    ensures content { IsContent reply.new }
{
    server.execute(shelf, request, reply);
    let _content = reply.content();
}

impl<'a, V: Shelf> Responder for CloudResponder<'a, V> {
    ghost step = { λ before request reply after.
        HasAnsweredContent (place_of before.server.now (V.cloud_at before.shelf.now) (V.faults before.shelf.now))
        (place_of after.server.now (V.cloud_at after.shelf.now) (V.faults after.shelf.now)) request reply };

    ghost loans = { λ responder. responder.server.ghost_name ∷ responder.shelf.ghost_name ∷ [] };

    fn respond(&mut self, request: &[u8], reply: &mut ReplyBuf) {
        execute(self.server, self.shelf, request, reply);
    }
}
