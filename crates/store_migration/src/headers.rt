//! The headers of a cloud before and after.

ghost use Rattle.std.specs.Prelude.{◌≡◌, ◌↔◌, ◌<◌, IsTrue};
ghost use Rattle.cloud_opening.specs.JournalStart.Ranges.{AreRooms, IsHeader};
ghost use Rattle.large_users.specs.MigrationModel.Migrating as model;
ghost use Rattle.store_migration.specs.Exact.{IsNewHeader};

use cloud_opening::{Header, UserRooms};
use fresh_checkpoints::{CloudNo, Shape};

/// The header that format 1 has of the cloud.
pub(crate) fn header_one(shape: Shape, cloud: CloudNo) -> Header
    requires { cloud.0 < shape.n }
    ensures value { result ≡ model.header_one shape cloud }
    ensures header { IsHeader result }
{
    Header {
        format: 1,
        shape,
        cloud,
        rooms: UserRooms::usual(),
    }
}

/// The header that format 2 has of it, with these rooms.
pub(crate) fn header_two(shape: Shape, cloud: CloudNo, rooms: &UserRooms) -> Header
    requires cloud { cloud.0 < shape.n }
    requires rooms { AreRooms rooms.now }
    ensures value { result ≡ model.header_two shape cloud rooms.now }
    ensures header { IsHeader result }
{
    Header {
        format: 2,
        shape,
        cloud,
        rooms: *rooms,
    }
}

/// Whether it is a header of format 2, of this cloud.
pub(crate) fn is_new(header: &Header, shape: Shape, cloud: CloudNo) -> bool
    ensures { IsTrue result ↔ IsNewHeader shape cloud header.now }
{
    header.format == 2 && header.shape == shape && header.cloud == cloud
}
