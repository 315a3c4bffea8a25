//! Where a blob may lie.

ghost use Rattle.std.specs.Prelude.{◌≡◌, ◌↔◌, ◌≤◌, ◌+◌, ◌^◌, ◌<◌, max, IsTrue, IfSome};
ghost use Rattle.cloud_memory.specs.ContainerLog.Places.{LiesInOne};
ghost use Rattle.cloud_memory.specs.CloudAreas.Placing.{region_start, end_of};
ghost use Rattle.record_checks.specs.Checks.{Lies, RecipeLies};
ghost use Rattle.cloud_memory.specs.Rooms.{memory_of};

use crate::Ground;
use cloud_memory::{CONTAINER, CloudMemory, CommitBody, Place, RECIPE_LIMIT, REGION_LEN};

// Whether so many bytes from the place on lie in one container.
fn is_in_one(at: u64, len: u32) -> bool
    ensures { IsTrue result ↔ LiesInOne at len }
{
    at % CONTAINER + u64::from(len) <= CONTAINER
}

// Whether so many bytes from the place on lie in an area.
fn is_within(area: u64, at: u64, len: u32) -> bool
    ensures { IsTrue result ↔ (at + len ≤ area) }
{
    u64::from(len) <= area && at <= area - u64::from(len)
}

/// Where a region of an area of blobs begins.
pub fn first_of(region: u8) -> u64
    ensures { result ≡ region_start region }
{
    u64::from(region) * REGION_LEN
}

/// Whether a blob lies in the region that begins at `first`, in one container, in the area, and behind the checkpoint
/// behind the end.
pub fn lies(inside: bool, first: u64, end: u64, area: u64, place: &Place) -> bool
    ensures { IsTrue result ↔ Lies inside first end area place.now }
{
    let Place { at, len } = *place;
    (inside || end <= at) && first <= at && is_in_one(at, len) && is_within(area, at, len)
}

/// Whether a Commit's recipe is no longer than one may be, and lies where it may.
pub(crate) fn recipe_lies(
    memory: &CloudMemory,
    ground: &Ground,
    inside: bool,
    commit: &CommitBody,
) -> bool
    ensures lies { IsTrue result ↔ RecipeLies ground.now inside (memory_of memory.now) commit.now }
    ensures small { IsTrue result → commit.now.at + commit.now.len < 2 ^ 64 }
{
    let Ground {
        region,
        recipes_len,
        ..
    } = *ground;
    let place = Place {
        at: commit.at,
        len: commit.len,
    };
    let first = first_of(region);
    commit.len <= RECIPE_LIMIT && lies(inside, first, memory.recipes_end(), recipes_len, &place)
}
