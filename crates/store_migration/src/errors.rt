//! Why a cloud isn't migrated.

ghost use Rattle.std.specs.Prelude.{◌≡◌};
ghost use Rattle.store_migration.specs.Finding.{err_of_find, err_of_open};

use cloud_opening::{Header, OpenErr};
use fresh_checkpoints::{FindErr, Room, UserId};

/// Why a store of format 1 isn't opened. Places are those of the area Journal, from 0.
#[derive(Clone, Copy)]
pub enum OldErr {
    /// No half is begun; the journal has so many bytes.
    NotBegun {
        len: u64,
    },
    /// The journal is damaged at this place, where this byte stands.
    Damaged {
        at: u64,
        byte: u8,
    },
    /// It is another store, or another cloud's; `at` is the place of the header.
    OtherStore {
        found: Header,
        asked: Header,
        at: u64,
    },
    /// The records hold more than this room of format 1 has; `at` is the place of the gate of the first that passes it.
    RoomsTooSmall {
        room: Room,
        limit: u64,
        at: u64,
    },
}

/// Why a cloud isn't migrated.
#[derive(Clone, Copy)]
pub enum MigrateErr {
    /// It can't be opened as a store of format 1.
    Open(OldErr),
    /// It is in format 2.
    Already,
    /// The least user that keeps more than it may, and its first room, of which it uses so much.
    TooLarge {
        user: UserId,
        room: Room,
        used: u64,
        limit: u64,
    },
    /// A device failed.
    Fault,
    /// Memory ran out. Nothing was done.
    NoMemory,
}

/// Why no half is the current one.
pub(crate) fn unfound(error: FindErr) -> MigrateErr
    ensures { result ≡ err_of_find error }
{
    match error {
        FindErr::Fault => MigrateErr::Fault,
        FindErr::NotBegun { len } => MigrateErr::Open(OldErr::NotBegun { len }),
        FindErr::Damaged { at, byte } => MigrateErr::Open(OldErr::Damaged { at, byte }),
    }
}

/// Why the journal isn't opened.
pub(crate) fn unopened(error: OpenErr) -> MigrateErr
    ensures { result ≡ err_of_open error }
{
    match error {
        OpenErr::Fault => MigrateErr::Fault,
        OpenErr::NotBegun { len } => MigrateErr::Open(OldErr::NotBegun { len }),
        OpenErr::Damaged { at, byte } => MigrateErr::Open(OldErr::Damaged { at, byte }),
        OpenErr::OtherStore { found, asked, at } => {
            MigrateErr::Open(OldErr::OtherStore { found, asked, at })
        }
    }
}
