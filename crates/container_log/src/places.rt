//! The places of blobs.

ghost use Rattle.std.specs.Prelude.{◌≡◌, ◌+◌, ◌≤◌};
ghost use Rattle.container_log.specs.Places.{container_len, place_of};

/// The bytes of a container. Container i takes the places from i times as many on.
pub const CONTAINER: u64 = 4_194_304;

// How many bytes lie unused between an end and the place of a blob of this length behind it.
pub(crate) fn gap_behind(end: u64, len: u64) -> u64
    ensures place { end + result ≡ place_of end len }
    ensures bound { result ≤ container_len }
{
    let rest = CONTAINER - end % CONTAINER;
    if len <= rest { 0 } else { rest }
}
