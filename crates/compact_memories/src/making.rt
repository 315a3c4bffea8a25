//! The memory of a compact list, made of the memory of the list.

ghost use Rattle.std.specs.Prelude.{◌≡◌, ◌<◌, ◌≤◌, ◌^◌, length};
ghost use Rattle.checkpoints.specs.ContainerLog.Places.{end_of_laid};
ghost use Rattle.compact_lists.specs.JournalStart.rooms.UserRooms.{UserRooms};
ghost use Rattle.checkpoints.specs.CloudAreas.Placing.{region_start};
ghost use Rattle.checkpoints.specs.CloudMemory.Greatest.{KeepsGreatest};
ghost use Rattle.checkpoints.specs.CloudMemory.Rooms.{memory_of, HasRooms};
ghost use Rattle.compact_memories.specs.Kept.{IsCompacted, live_places, live_entries};
ghost use Rattle.compact_memories.specs.Moved.{IsMoved, lens_of, entry_lens};
ghost use Rattle.compact_memories.specs.Passes.{SetSoFar, row_of};

use crate::copied::{move_entries, move_places};
use crate::dropping::drop_dead;
use crate::rows::fill_rows;
use checkpoints::{CloudMemory, REGION_LEN, Spent};
use compact_lists::UserId;

// As many users as a cloud may have.
const USERS: u32 = 256;

// The row of a user.
fn row_at(rows: &[Spent], user: u32) -> Spent
    requires { user < length rows.now }
    ensures { result ≡ row_of rows.now user }
{
    rows[user as usize]
}

// Each user has spent what its row says.
fn set_rows(memory: &mut CloudMemory, rows: &[Spent])
    requires { length rows.now ≡ 256 }
    ensures set { SetSoFar rows.now (memory_of memory.old) (memory_of memory.new) 256 }
    ensures rooms { (rooms : UserRooms) → HasRooms rooms memory.old → HasRooms rooms memory.new }
    ensures greatest { KeepsGreatest memory.old memory.new }
{
    for user in 0..USERS {
        let row = row_at(rows, user);
        memory.take_spent(UserId(user), row);
    }
}

/// Takes out the places of what no user owns, and makes what each user has spent what it keeps. Owners, uses, entries and
/// ends stay. So the memory of a list becomes that of its compact list (`law_of_kept`). It goes over the slots of owners,
/// entries and places, and takes no memory.
pub fn make_compact(memory: &mut CloudMemory)
    requires users { length memory.old.spent ≤ 256 }
    ensures compacted { IsCompacted memory.old (memory_of memory.new) }
    ensures rooms { (rooms : UserRooms) → HasRooms rooms memory.old → HasRooms rooms memory.new }
    ensures greatest { KeepsGreatest memory.old memory.new }
{
    let mut rows = [Spent::none(); 256];
    fill_rows(memory, &mut rows);
    drop_dead(memory);
    set_rows(memory, &rows);
}

// Where a region of an area of blobs begins.
fn first_place(region: u8) -> u64
    requires { region ≤ 1 }
    ensures { result ≡ region_start region }
{
    u64::from(region) * REGION_LEN
}

/// Takes out the places of what no user owns, gives what is alive its places one behind another from the region's first
/// place on, in the order of slots, and makes what each user has spent what it keeps. Owners and uses stay, and the ends
/// are those of what is moved. So the memory of a list becomes that of its compact list (`law_of_kept`). It goes over the
/// slots of owners, entries and places, and takes no memory.
pub fn make_moved(memory: &mut CloudMemory, region: u8)
    requires users { length memory.old.spent ≤ 256 }
    requires region { region ≤ 1 }
    requires shares { end_of_laid (region_start region) (lens_of (live_places memory.old)) < 2 ^ 64 }
    requires recipes { end_of_laid (region_start region) (entry_lens (live_entries memory.old)) < 2 ^ 64 }
    ensures moved { IsMoved region memory.old (memory_of memory.new) }
    ensures rooms { (rooms : UserRooms) → HasRooms rooms memory.old → HasRooms rooms memory.new }
    ensures greatest { KeepsGreatest memory.old memory.new }
{
    let start = first_place(region);
    let mut rows = [Spent::none(); 256];
    fill_rows(memory, &mut rows);
    let shares = move_places(memory, start);
    let recipes = move_entries(memory, start);
    drop_dead(memory);
    set_rows(memory, &rows);
    memory.set_ends(shares, recipes);
}
