//! What serves connections.

ghost use Rattle.std.specs.Prelude.{◌≡◌, ◌<◌, IfOk};
ghost use Rattle.share_server.specs.Names.{header_of};
ghost use Rattle.share_server.specs.JournalStart.Ranges.{AreRooms};
ghost use Rattle.share_server.specs.CloudStore.Store.{IsOpen};

use ports_link::{CloudNo, Framer, NoMemory, ReplyBuf, Shape};
use share_server::{Server, UserRooms};
use std::alloc::Global;

/// A server and its buffers. They are made before the cloud is opened, so that no connection waits for memory.
#[derive(Drop)]
pub struct Desk {
    /// The server of the cloud.
    pub server: Server,
    /// The bytes of the frame that comes.
    pub framer: Framer,
    /// The content that goes.
    pub reply: ReplyBuf,
}

impl Desk {
    /// A closed server of the cloud of a store of this shape, in these rooms. The only error is want of memory.
    pub fn make(
        alloc: Global,
        shape: Shape,
        cloud: CloudNo,
        rooms: UserRooms,
    ) -> Result<Desk, NoMemory>
        requires cloud { cloud.0 < shape.n }
        requires rooms { AreRooms rooms }
        ensures of { IfOk result (λ desk. desk.server.store.header ≡ header_of shape rooms cloud.0) }
        ensures shut { IfOk result (λ desk. ¬ (IsOpen desk.server.store)) }
    {
        let framer = Framer::make(alloc)?;
        let reply = ReplyBuf::make(alloc)?;
        let server = Server::make(alloc, cloud, shape, rooms)?;
        Ok(Desk {
            server,
            framer,
            reply,
        })
    }
}
