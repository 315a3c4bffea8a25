//! Why a record isn't taken.

use message_fields::Room;
use record_checks::Damage;

/// Why a record isn't taken.
#[derive(Clone, Copy)]
pub enum FirstErr {
    /// The journal is damaged.
    Damaged(Damage),
    /// By the record the cloud would hold more of this room than its limit. The record's gate has the place `at`.
    RoomsTooSmall { room: Room, limit: u64, at: u64 },
}

/// What of a record fails: the field at a place of its body, or a room that it would pass.
#[derive(Clone, Copy)]
pub(crate) enum Fault {
    Field(usize),
    Passes(Room),
}
