//! Reading all blobs.

ghost use Rattle.std.specs.Prelude.{◌≡◌, false, length, Err, IsTrue, IfOk};
ghost use Rattle.audit_base.specs.CdEdges.Disk.{reads};
ghost use Rattle.audit_base.specs.CdEdges.Shelf.{IsCall, HasFailed, KeepsCounts, Stays};
ghost use Rattle.audit_base.specs.Whole.{tables_of};
ghost use Rattle.blob_audit.specs.declared.errors.ReadErr.TheVariants as answers;
ghost use Rattle.blob_audit.specs.Holding.{window_len, HasAll};
ghost use Rattle.blob_audit.specs.Reading.{StoredIs, GoodIs, OnReadFault};
ghost use Rattle.blob_audit.specs.Steps.{lacks_memory, IsOnlyRead, BothRead};

use crate::ReadErr;
use crate::order::both_in_order;
use crate::pieces::WINDOW;
use crate::slots::{read_files, read_shares};
use audit_base::{CloudMemory, CloudNo, NoMemory, Shape, Shelf};
use std::alloc::Global;

// Reads all shares, and then all recipes.
fn read_both<V: Shelf>(
    shelf: &mut V,
    cloud: CloudNo,
    shape: Option<Shape>,
    memory: &CloudMemory,
    shares: &[(u64, u32)],
    files: &[(u64, u32)],
    window: &mut [u8],
) -> Result<(), ReadErr>
    requires shares { HasAll (length memory.now.shares.place_slots) shares.now }
    requires files { HasAll (length memory.now.files.slots) files.now }
    requires window { length window.old ≡ window_len }
    ensures read { IsOnlyRead (BothRead shape memory.now)
        (V.cloud_at shelf.old) (V.cloud_at shelf.new) cloud.0 (V.faults shelf.old) (V.faults shelf.new) result }
    ensures memory { lacks_memory result ≡ false }
{
    match read_shares(shelf, cloud, memory, shares, window) {
        Ok(()) => read_files(shelf, cloud, memory, shape, files, window),
        Err(error) => Err(error),
    }
}

// The memory of a window.
fn window(alloc: Global) -> Result<Vec<u8>, NoMemory>
    ensures { IfOk result (λ window. length window.items ≡ window_len) }
{
    Ok(vec![in alloc; 0u8; WINDOW]?)
}

/// Reads each share that some user owns and each entry's recipe from the device, and hashes it.
pub fn read_stored<V: Shelf>(
    alloc: Global,
    shelf: &mut V,
    cloud: CloudNo,
    memory: &CloudMemory,
) -> Result<(), ReadErr>
    ensures judged { IsTrue (V.cloud_at shelf.old cloud.0).told
        → StoredIs (reads (V.cloud_at shelf.new cloud.0).now) (tables_of memory.now) result }
    ensures stays { Stays (V.cloud_at shelf.old cloud.0) (V.cloud_at shelf.new cloud.0) }
    ensures call { IsCall (V.cloud_at shelf.old) (V.cloud_at shelf.new) cloud.0 (V.faults shelf.old)
        (V.faults shelf.new) }
    ensures counts { OnReadFault result
        (HasFailed (V.cloud_at shelf.old cloud.0) (V.cloud_at shelf.new cloud.0)
        (V.faults shelf.old) (V.faults shelf.new))
        (KeepsCounts (V.cloud_at shelf.old cloud.0) (V.cloud_at shelf.new cloud.0)
        (V.faults shelf.old) (V.faults shelf.new)) }
    ensures unread { result ≡ Err answers.NoMemory → shelf.new ≡ shelf.old }
{
    match window(alloc) {
        Ok(mut window) => match both_in_order(alloc, memory) {
            Ok(orders) => {
                read_both(
                    shelf,
                    cloud,
                    None,
                    memory,
                    &orders.shares,
                    &orders.files,
                    window.as_mut_slice(),
                )
            }
            Err(NoMemory) => Err(ReadErr::NoMemory),
        },
        Err(NoMemory) => Err(ReadErr::NoMemory),
    }
}

/// Reads each share that some user owns and each entry's recipe from the device, hashes it, and looks at the recipe:
/// whether it is one of this shape, and names only what its user owns.
pub fn read_good<V: Shelf>(
    alloc: Global,
    shelf: &mut V,
    cloud: CloudNo,
    shape: Shape,
    memory: &CloudMemory,
) -> Result<(), ReadErr>
    ensures judged { IsTrue (V.cloud_at shelf.old cloud.0).told
        → GoodIs shape (reads (V.cloud_at shelf.new cloud.0).now) (tables_of memory.now) result }
    ensures stays { Stays (V.cloud_at shelf.old cloud.0) (V.cloud_at shelf.new cloud.0) }
    ensures call { IsCall (V.cloud_at shelf.old) (V.cloud_at shelf.new) cloud.0 (V.faults shelf.old)
        (V.faults shelf.new) }
    ensures counts { OnReadFault result
        (HasFailed (V.cloud_at shelf.old cloud.0) (V.cloud_at shelf.new cloud.0)
        (V.faults shelf.old) (V.faults shelf.new))
        (KeepsCounts (V.cloud_at shelf.old cloud.0) (V.cloud_at shelf.new cloud.0)
        (V.faults shelf.old) (V.faults shelf.new)) }
    ensures unread { result ≡ Err answers.NoMemory → shelf.new ≡ shelf.old }
{
    match window(alloc) {
        Ok(mut window) => match both_in_order(alloc, memory) {
            Ok(orders) => {
                read_both(
                    shelf,
                    cloud,
                    Some(shape),
                    memory,
                    &orders.shares,
                    &orders.files,
                    window.as_mut_slice(),
                )
            }
            Err(NoMemory) => Err(ReadErr::NoMemory),
        },
        Err(NoMemory) => Err(ReadErr::NoMemory),
    }
}
