//! How long a half is, and how much of it a chain takes.

ghost use Rattle.std.specs.Prelude.{◌≡◌, ◌≤◌};
ghost use Rattle.journal_start.specs.Ranges.{AreRooms};
ghost use Rattle.journal_halves.specs.Halves as halves;

use journal_start::UserRooms;

/// The places of a half: half 0 begins at place 0 of the area, and half 1 behind it.
pub const HALF_LEN: u64 = 134_217_728;

/// The most bytes of a half that a chain takes in these rooms, with its closed gate: the longest checkpoint, and one longest
/// record more. It is at most 52,415,307.
pub fn half_limit(rooms: &UserRooms) -> u64
    requires { AreRooms rooms.now }
    ensures limit { result ≡ halves.half_limit rooms.now }
    ensures within { result ≤ 52415307 }
{
    let each = 97 * rooms.owners as u64 + 94 * rooms.files as u64 + 30;
    11_595 + rooms.users as u64 * each
}
