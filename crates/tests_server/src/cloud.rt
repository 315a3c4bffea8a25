//! A server of cloud 2 of a store of four clouds, of which three give a file back, beside the cloud in memory that it serves.

ghost use Rattle.std.specs.Prelude.{◌≡◌};

use cd_base::{CloudNo, NoMemory, Shape};
use cd_edges::{Area, Shelf};
use cd_fakes::MemShelf;
use frames::ReplyBuf;
use journal_start::UserRooms;
use share_server::{OpenErr, Server};
use std::alloc::Global;

/// The number of the cloud.
pub(crate) const TWO: CloudNo = CloudNo(2);

/// Rooms that these tests don't fill.
pub(crate) const WIDE: UserRooms = UserRooms {
    users: 10,
    shares: 10_000_000,
    recipes: 10_000_000,
    owners: 2_000,
    files: 1_000,
};

/// Room for a few bytes in each area of a cloud.
pub(crate) const SMALL: u64 = 1_000;

// The shape of the store.
fn shape() -> Shape
    ensures { result.n ≡ 4 }
{
    Shape { n: 4, k: 3 }
}

// A closed server with these rooms, or with the usual ones where they aren't allowed. The only error is want of memory.
fn server_of(alloc: Global, rooms: UserRooms) -> Result<Server, NoMemory> {
    if rooms.are_allowed() {
        Server::make(alloc, TWO, shape(), rooms)
    } else {
        Server::make(alloc, TWO, shape(), UserRooms::usual())
    }
}

/// A cloud, its server and that server's last reply.
#[derive(Drop)]
pub(crate) struct Cloud {
    /// The clouds in memory, of which it is the third.
    pub shelf: MemShelf,
    /// The server of it.
    server: Server,
    reply: ReplyBuf,
}

impl Cloud {
    /// An empty cloud with so much room in each area, and a closed server with these rooms. The only error is want of
    /// memory.
    pub(crate) fn make(alloc: Global, room: u64, rooms: UserRooms) -> Result<Cloud, NoMemory> {
        let shelf = MemShelf::of(alloc, 3, room, 5_000, &[])?;
        let reply = ReplyBuf::make(alloc)?;
        let server = server_of(alloc, rooms)?;
        Ok(Cloud {
            shelf,
            reply,
            server,
        })
    }

    /// The reply to a content: of 5,000,000 bytes or more the last one, since nothing is asked then.
    pub(crate) fn ask(&mut self, content: &[u8]) -> &[u8] {
        if content.len() < 5_000_000 {
            self.server
                .execute(&mut self.shelf, content, &mut self.reply);
        }
        self.reply.content()
    }

    /// Opens the cloud, as `Server::reopen`.
    pub(crate) fn reopen(&mut self, begin: bool) -> Result<u64, OpenErr> {
        self.server.reopen(&mut self.shelf, begin)
    }

    // The length of an area, or the greatest number where the device fails.
    fn len(&mut self, area: Area) -> u64 {
        match self.shelf.len(TWO, area) {
            Ok(len) => len,
            Err(_) => u64::MAX,
        }
    }

    /// The lengths of Journal, Shares and Recipes: of each the greatest number where the device fails.
    pub(crate) fn lengths(&mut self) -> (u64, u64, u64) {
        (
            self.len(Area::Journal),
            self.len(Area::Shares),
            self.len(Area::Recipes),
        )
    }
}
