//! What a user may have.

ghost use Rattle.std.specs.Prelude.{◌≡◌, ◌*◌, ◌<◌, ◌^◌};
ghost use Rattle.cloud_memory.specs.UserDedup.Spending.{limits_of};

use cloud_memory::{UserId, UserRooms};

/// How many shares the user may put.
pub(crate) fn owners_limit(rooms: &UserRooms, user: UserId) -> u64
    ensures value { result ≡ (limits_of rooms.now user).owners }
    ensures few { result < 2 ^ 32 }
{
    if user.0 < rooms.users {
        u64::from(rooms.owners)
    } else {
        0
    }
}

/// How many bytes of shares the user may put.
pub(crate) fn shares_limit(rooms: &UserRooms, user: UserId) -> u64
    ensures { result ≡ (limits_of rooms.now user).shares }
{
    if user.0 < rooms.users {
        rooms.shares
    } else {
        0
    }
}

/// How many bytes of recipes the user may commit.
pub(crate) fn recipes_limit(rooms: &UserRooms, user: UserId) -> u64
    ensures { result ≡ (limits_of rooms.now user).recipes }
{
    if user.0 < rooms.users {
        rooms.recipes
    } else {
        0
    }
}

/// How many fingerprints may have a place.
pub(crate) fn places_limit(rooms: &UserRooms) -> u64
    ensures { result ≡ rooms.now.users * rooms.now.owners }
{
    u64::from(rooms.users) * u64::from(rooms.owners)
}
