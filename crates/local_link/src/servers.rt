//! The servers of all clouds.

ghost use Rattle.local_link.specs.Members.{AreServers};

use share_server::{CloudNo, NoMemory, OpenErr, ReplyBuf, Server, Shape, Shelf, UserRooms};
use std::alloc::Global;

/// The servers of all clouds of a store, each at the place of its cloud's number and all of one shape.
#[derive(Drop)]
pub struct Servers {
    pub(crate) shape: Shape,
    pub(crate) list: Vec<Server>,
    ghost are_servers: { AreServers shape list.items },
}

impl Servers {
    ghost use Rattle.std.specs.Prelude.{◌≡◌, ◌<◌, ◌≤◌, ℕ, length, IfOk, OnOk, OnErr, Some};
    ghost use Rattle.share_server.specs.Frames.Frames.{frame_limit};
    ghost use Rattle.share_server.specs.JournalStart.Ranges.{AreRooms};
    ghost use Rattle.share_server.specs.declared.server.Server.{Server};
    ghost use Rattle.local_link.specs.Tells.{server_at};
    ghost use Rattle.local_link.specs.Steps.{HasPutServer, IsClosedIn, IsServerClosed, HasServerExecuted, Reopens};

    /// A closed server for each cloud, all in these rooms. The only error is want of memory.
    pub fn make(alloc: Global, shape: Shape, rooms: UserRooms) -> Result<Servers, NoMemory>
        requires { AreRooms rooms }
        ensures shape { IfOk result (λ servers. servers.shape ≡ shape) }
        ensures closed { IfOk result (λ servers. (cloud : ℕ) (server : Server) → server_at servers cloud ≡ Some server
            → IsClosedIn rooms server) }
    {
        let mut list = Vec::new(alloc);
        for number in 0..shape.n {
            list.push(Server::make(alloc, CloudNo(number), shape, rooms)?)?;
        }
        Ok(Servers { shape, list })
    }

    /// Puts a closed server in these rooms in the cloud's place. For want of memory nothing changes.
    pub fn renew(&mut self, alloc: Global, cloud: CloudNo, rooms: UserRooms) -> Result<(), NoMemory>
        requires reached { cloud.0 < self.old.shape.n }
        requires rooms { AreRooms rooms }
        ensures put { OnOk result ((before : Server) × (after : Server)
            × HasPutServer self.old self.new cloud.0 before after
            × IsClosedIn rooms after) }
        ensures err { OnErr result (self.new ≡ self.old) }
    {
        let server = Server::make(alloc, cloud, self.shape, rooms)?;
        self.list[cloud.0 as usize] = server;
        Ok(())
    }

    /// Closes the cloud's server.
    pub fn close(&mut self, cloud: CloudNo)
        requires { cloud.0 < self.old.shape.n }
        ensures { (before : Server) × (after : Server) × HasPutServer self.old self.new cloud.0 before after
            × IsServerClosed before after }
    {
        self.list[cloud.0 as usize].close();
    }

    /// Opens the cloud's server.
    pub fn reopen<V: Shelf>(
        &mut self,
        cloud: CloudNo,
        shelf: &mut V,
        begin: bool,
    ) -> Result<u64, OpenErr>
        requires { cloud.0 < self.old.shape.n }
        ensures { (before : Server) × (after : Server) × HasPutServer self.old self.new cloud.0 before after
            × Reopens before after (V.cloud_at shelf.old) (V.cloud_at shelf.new) (V.faults shelf.old)
            (V.faults shelf.new) begin result }
    {
        self.list[cloud.0 as usize].reopen(shelf, begin)
    }

    /// Has the cloud's server execute the content of a frame.
    pub fn execute<V: Shelf>(
        &mut self,
        cloud: CloudNo,
        shelf: &mut V,
        request: &[u8],
        reply: &mut ReplyBuf,
    )
        requires reached { cloud.0 < self.old.shape.n }
        requires framed { length request.now ≤ frame_limit }
        ensures { (before : Server) × (after : Server) × HasPutServer self.old self.new cloud.0 before after
            × HasServerExecuted before after (V.cloud_at shelf.old) (V.cloud_at shelf.new) (V.faults shelf.old)
            (V.faults shelf.new) request.now reply.new }
    {
        self.list[cloud.0 as usize].execute(shelf, request, reply);
    }
}
