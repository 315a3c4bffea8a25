//! What a command needs of the user's rooms.

ghost use Rattle.std.specs.Prelude.{◌≡◌, option_map};
ghost use Rattle.std.specs.Option.{option_or};
ghost use Rattle.cloud_areas.specs.UserDedup.Spending.{refusal, limits_of, files_limit};
ghost use Rattle.cloud_memory.specs.News.{seen};

use cloud_areas::UserRooms;
use spent_table::{Fp, Room, UserId};

/// A share that is new to its user: its fingerprint, and its length in bytes.
#[derive(Clone, Copy)]
pub struct New {
    pub fp: Fp,
    pub len: u32,
}

/// A room of the user's that a command would pass: how much of it is used, how much more the command needs, and its
/// limit.
#[derive(Clone, Copy, Debug, PartialEq, Eq)]
pub struct Full {
    pub room: Room,
    pub used: u64,
    pub need: u64,
    pub limit: u64,
}

// The room, where so much more would pass its limit.
pub(crate) fn full_room(room: Room, used: u64, need: u64, limit: u64) -> Option<Full>
    ensures { option_map seen result ≡ refusal room used need limit }
{
    if used > limit || need > limit - used {
        Some(Full {
            room,
            used,
            need,
            limit,
        })
    } else {
        None
    }
}

// The first of two full rooms.
pub(crate) fn either(first: Option<Full>, second: Option<Full>) -> Option<Full>
    ensures { option_map seen result ≡ option_or (option_map seen first) (option_map seen second) }
{
    match first {
        Some(full) => Some(full),
        None => second,
    }
}

// How many shares the user may put.
pub(crate) fn owners_limit(rooms: &UserRooms, user: UserId) -> u64
    ensures { result ≡ (limits_of rooms.now user).owners }
{
    if user.0 < rooms.users {
        u64::from(rooms.owners)
    } else {
        0
    }
}

// How many bytes of shares the user may put.
pub(crate) fn shares_limit(rooms: &UserRooms, user: UserId) -> u64
    ensures { result ≡ (limits_of rooms.now user).shares }
{
    if user.0 < rooms.users {
        rooms.shares
    } else {
        0
    }
}

// How many bytes of recipes the user may commit.
pub(crate) fn recipes_limit(rooms: &UserRooms, user: UserId) -> u64
    ensures { result ≡ (limits_of rooms.now user).recipes }
{
    if user.0 < rooms.users {
        rooms.recipes
    } else {
        0
    }
}

// How many entries the user may have.
pub(crate) fn entries_limit(rooms: &UserRooms, user: UserId) -> u64
    ensures { result ≡ files_limit rooms.now user }
{
    if user.0 < rooms.users {
        u64::from(rooms.files)
    } else {
        0
    }
}
