//! A read by way of the containers that are kept.

ghost use Rattle.std.specs.Prelude.{◌≡◌, ℕ, ◌+◌, ◌*◌, ◌/◌, ◌%◌, ◌^◌, ◌<◌, ◌≤◌, List, length, None, Some, IsTrue};
ghost use Rattle.std.specs.Prelude.{IsOk, IfOk, OnOk, OnErr};
ghost use Rattle.cd_edges.specs.Shelf.{IsCall, HasFailed, KeepsCounts, Stays, ReadsFrom};
ghost use Rattle.container_log.specs.Caches.{AreContainersOf, OnKept, kept_of, IsReadOf};
ghost use Rattle.container_log.specs.Places.{container_len};

use crate::cache::Cache;
use crate::log::STAGING;
use crate::places::CONTAINER;
use cd_edges::{Area, CloudNo, Failed, Shelf};

// The same of a container that isn't kept: it is read whole and kept where that can be, and else these bytes are read alone.
fn read_new<V: Shelf>(
    cache: &mut Cache,
    shelf: &mut V,
    cloud: CloudNo,
    area: Area,
    place: u64,
    out: &mut [u8],
) -> Result<usize, Failed>
    requires within { place % container_len + length out.old ≤ container_len }
    requires none { kept_of cache.old.kept (place / container_len) ≡ None }
    ensures bytes { IsTrue (V.cloud_at shelf.old cloud.0).told
        → IfOk result (λ count. ReadsFrom ((V.cloud_at shelf.old cloud.0).now area).read place count out.new) }
    ensures bound { IfOk result (λ count. count ≤ length out.new) }
    ensures agrees { OnKept (V.cloud_at shelf.old cloud.0) area cache.old.kept
        (AreContainersOf ((V.cloud_at shelf.old cloud.0).now area).read cache.new.kept) }
    ensures kept { IsReadOf cache.old (place / container_len) cache.new }
    ensures stays { Stays (V.cloud_at shelf.old cloud.0) (V.cloud_at shelf.new cloud.0) }
    ensures call { IsCall (V.cloud_at shelf.old) (V.cloud_at shelf.new) cloud.0
        (V.faults shelf.old) (V.faults shelf.new) }
    ensures failed { OnErr result (HasFailed (V.cloud_at shelf.old cloud.0) (V.cloud_at shelf.new cloud.0)
        (V.faults shelf.old) (V.faults shelf.new)) }
    ensures uncounted { OnOk result (KeepsCounts (V.cloud_at shelf.old cloud.0) (V.cloud_at shelf.new cloud.0)
        (V.faults shelf.old) (V.faults shelf.new)) }
{
    let number = place / CONTAINER;
    match cache.room(STAGING) {
        Some(mut container) => match container.fill(shelf, cloud, area, number) {
            Ok(()) => {
                let count = container.copy_from((place % CONTAINER) as usize, out);
                cache.put(number, container);
                Ok(count)
            }
            Err(Failed) => Err(Failed),
        },
        None => shelf.read(cloud, area, place, out),
    }
}

/// Puts what the area has from a place on in front of `out`, and answers how many bytes that are. No device is called where
/// they lie in a container that is kept. Else it makes one device call, and may keep the container.
pub(crate) fn read_kept<V: Shelf>(
    cache: &mut Cache,
    shelf: &mut V,
    cloud: CloudNo,
    area: Area,
    place: u64,
    out: &mut [u8],
) -> Result<usize, Failed>
    ensures bytes { OnKept (V.cloud_at shelf.old cloud.0) area cache.old.kept
        (IfOk result (λ count. ReadsFrom ((V.cloud_at shelf.old cloud.0).now area).read place count out.new)) }
    ensures bound { IfOk result (λ count. count ≤ length out.new) }
    ensures agrees { OnKept (V.cloud_at shelf.old cloud.0) area cache.old.kept
        (AreContainersOf ((V.cloud_at shelf.old cloud.0).now area).read cache.new.kept) }
    ensures no_call { (bytes : List ℕ) → place % container_len + length out.old ≤ container_len
        → kept_of cache.old.kept (place / container_len) ≡ Some bytes → (shelf.new ≡ shelf.old) × IsOk result }
    ensures kept { IsReadOf cache.old (place / container_len) cache.new }
    ensures stays { Stays (V.cloud_at shelf.old cloud.0) (V.cloud_at shelf.new cloud.0) }
    ensures call { IsCall (V.cloud_at shelf.old) (V.cloud_at shelf.new) cloud.0
        (V.faults shelf.old) (V.faults shelf.new) }
    ensures failed { OnErr result (HasFailed (V.cloud_at shelf.old cloud.0) (V.cloud_at shelf.new cloud.0)
        (V.faults shelf.old) (V.faults shelf.new)) }
    ensures uncounted { OnOk result (KeepsCounts (V.cloud_at shelf.old cloud.0) (V.cloud_at shelf.new cloud.0)
        (V.faults shelf.old) (V.faults shelf.new)) }
{
    let from = (place % CONTAINER) as usize;
    if STAGING - from < out.len() {
        return shelf.read(cloud, area, place, out);
    }
    match cache.find(place / CONTAINER, from, out) {
        Some(count) => Ok(count),
        None => read_new(cache, shelf, cloud, area, place, out),
    }
}
