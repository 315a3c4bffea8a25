//! The places of blobs behind an end.

ghost use Rattle.std.specs.Prelude.{◌≡◌, ◌+◌, ◌<◌, ◌≤◌, ◌^◌, max};
ghost use Rattle.cloud_areas.specs.ContainerLog.Places.{container_len, place_of};

use cloud_areas::CONTAINER;

// The place of a blob of this length behind an end.
pub(crate) fn place_behind(end: u64, len: u32) -> u64
    requires { end < 2 ^ 63 }
    ensures place { result ≡ place_of end len }
    ensures behind { end ≤ result }
    ensures near { result ≤ end + container_len }
{
    let rest = CONTAINER - end % CONTAINER;
    if u64::from(len) <= rest {
        end
    } else {
        end + rest
    }
}

// The greater end.
pub(crate) fn farther(end: u64, other: u64) -> u64
    ensures { result ≡ max end other }
{
    if end < other { other } else { end }
}
