//! What lies where a record's recipe is to lie.

ghost use Rattle.std.specs.Prelude.{◌≡◌, ◌≤◌, length, take, drop, IsTrue, IfOk, OnOk, OnErr};
ghost use Rattle.fresh_checkpoints.specs.CdEdges.area.Area.{Area};
ghost use Rattle.fresh_checkpoints.specs.CdEdges.Shelf.{IsCall, HasFailed, KeepsCounts, Stays};
ghost use Rattle.cloud_opening.specs.Windows.{IsFrontOfWindow};

use fresh_checkpoints::{Area, CloudNo, Failed, Place, Shelf};

/// The front of a buffer.
pub(crate) fn front(buffer: &[u8], count: usize) -> &[u8]
    requires { count ≤ length buffer.now }
    ensures { result.now ≡ take count buffer.now }
{
    &buffer[..count]
}

// Reads so many bytes of the area of recipes into the front of a buffer, and answers how many there are.
fn fetch<V: Shelf>(
    shelf: &mut V,
    cloud: CloudNo,
    at: u64,
    len: usize,
    buffer: &mut [u8],
) -> Result<usize, Failed>
    requires { len ≤ length buffer.old }
    ensures bytes { IsTrue (V.cloud_at shelf.old cloud.0).told → IfOk result (λ count.
        IsFrontOfWindow ((V.cloud_at shelf.old cloud.0).now Area.Recipes).read at len count buffer.new) }
    ensures few { IfOk result (λ count. count ≤ len) }
    ensures inside { IfOk result (λ count. count ≤ length buffer.new) }
    ensures stays { Stays (V.cloud_at shelf.old cloud.0) (V.cloud_at shelf.new cloud.0) }
    ensures call { IsCall (V.cloud_at shelf.old) (V.cloud_at shelf.new) cloud.0 (V.faults shelf.old)
        (V.faults shelf.new) }
    ensures failed { OnErr result
        (HasFailed (V.cloud_at shelf.old cloud.0) (V.cloud_at shelf.new cloud.0) (V.faults shelf.old)
        (V.faults shelf.new)) }
    ensures uncounted { OnOk result
        (KeepsCounts (V.cloud_at shelf.old cloud.0) (V.cloud_at shelf.new cloud.0) (V.faults shelf.old)
        (V.faults shelf.new)) }
{
    let (front, _) = buffer.split_at_mut(len);
    match shelf.read(cloud, Area::Recipes, at, front) {
        Ok(count) => Ok(count),
        Err(Failed) => Err(Failed),
    }
}

/// Reads what lies at a place of the area of recipes into the front of a buffer, and answers how many bytes it is: fewer where
/// the area ends there.
pub(crate) fn read_at<V: Shelf>(
    shelf: &mut V,
    cloud: CloudNo,
    place: &Place,
    buffer: &mut [u8],
) -> Result<usize, Failed>
    requires { place.now.len ≤ length buffer.old }
    ensures bytes { IsTrue (V.cloud_at shelf.old cloud.0).told → IfOk result (λ count. take count buffer.new
        ≡ take place.now.len (drop place.now.at ((V.cloud_at shelf.old cloud.0).now Area.Recipes).read)) }
    ensures few { IfOk result (λ count. count ≤ place.now.len) }
    ensures inside { IfOk result (λ count. count ≤ length buffer.new) }
    ensures stays { Stays (V.cloud_at shelf.old cloud.0) (V.cloud_at shelf.new cloud.0) }
    ensures call { IsCall (V.cloud_at shelf.old) (V.cloud_at shelf.new) cloud.0 (V.faults shelf.old)
        (V.faults shelf.new) }
    ensures failed { OnErr result
        (HasFailed (V.cloud_at shelf.old cloud.0) (V.cloud_at shelf.new cloud.0) (V.faults shelf.old)
        (V.faults shelf.new)) }
    ensures uncounted { OnOk result
        (KeepsCounts (V.cloud_at shelf.old cloud.0) (V.cloud_at shelf.new cloud.0) (V.faults shelf.old)
        (V.faults shelf.new)) }
{
    match fetch(shelf, cloud, place.at, place.len as usize, buffer) {
        Ok(count) => Ok(count),
        Err(Failed) => Err(Failed),
    }
}
