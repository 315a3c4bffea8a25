//! The blobs in the slots of a memory's tables, one after another.

ghost use Rattle.std.specs.Prelude.{◌≡◌, ◌≤◌, false, length};
ghost use Rattle.audit_base.specs.CdEdges.area.Area.TheVariants.{Shares, Recipes};
ghost use Rattle.pool_map.specs.Slots.{slot_of};
ghost use Rattle.audit_base.specs.CloudMemory.Live.{live_at};
ghost use Rattle.audit_base.specs.Whole.{tables_of};
ghost use Rattle.blob_audit.specs.Holding.{window_len, Along, HasAll};
ghost use Rattle.blob_audit.specs.Steps.{lacks_memory, IsOnlyRead, ShareRead, FileRead, SharesRead, FilesRead};

use crate::ReadErr;
use crate::comparing::{compare_entry, compare_share};
use crate::held::Held;
use audit_base::{CloudMemory, CloudNo, Shape, Shelf};

// Compares the share that may stand in a slot.
fn read_share<V: Shelf>(
    shelf: &mut V,
    cloud: CloudNo,
    memory: &CloudMemory,
    slot: u32,
    held: &mut Held,
    window: &mut [u8],
) -> Result<(), ReadErr>
    requires window { length window.old ≡ window_len }
    requires count { held.old.count ≤ window_len }
    ensures read { IsOnlyRead (Along Shares (ShareRead (live_at memory.now.shares slot))
        held.old window.old held.new window.new)
        (V.cloud_at shelf.old) (V.cloud_at shelf.new) cloud.0 (V.faults shelf.old) (V.faults shelf.new) result }
    ensures memory { lacks_memory result ≡ false }
    ensures count { held.new.count ≤ window_len }
{
    match memory.live_share(slot) {
        Some((fp, place)) => compare_share(shelf, cloud, fp, place, held, window),
        None => Ok(()),
    }
}

// Compares the entry's recipe that may stand in a slot.
fn read_file<V: Shelf>(
    shelf: &mut V,
    cloud: CloudNo,
    memory: &CloudMemory,
    shape: Option<Shape>,
    slot: u32,
    held: &mut Held,
    window: &mut [u8],
) -> Result<(), ReadErr>
    requires window { length window.old ≡ window_len }
    requires count { held.old.count ≤ window_len }
    ensures read { IsOnlyRead (Along Recipes
        (FileRead shape (tables_of memory.now) (slot_of memory.now.files.slots slot))
        held.old window.old held.new window.new)
        (V.cloud_at shelf.old) (V.cloud_at shelf.new) cloud.0 (V.faults shelf.old) (V.faults shelf.new) result }
    ensures memory { lacks_memory result ≡ false }
    ensures count { held.new.count ≤ window_len }
{
    match memory.live_file(slot) {
        Some((user, _, _, entry)) => {
            compare_entry(shelf, cloud, memory, shape, user, entry, held, window)
        }
        None => Ok(()),
    }
}

/// Reads each share that some user owns, and compares it. The first that isn't as it was stored ends it.
pub(crate) fn read_shares<V: Shelf>(
    shelf: &mut V,
    cloud: CloudNo,
    memory: &CloudMemory,
    order: &[(u64, u32)],
    window: &mut [u8],
) -> Result<(), ReadErr>
    requires all { HasAll (length memory.now.shares.place_slots) order.now }
    requires window { length window.old ≡ window_len }
    ensures read { IsOnlyRead (SharesRead memory.now)
        (V.cloud_at shelf.old) (V.cloud_at shelf.new) cloud.0 (V.faults shelf.old) (V.faults shelf.new) result }
    ensures memory { lacks_memory result ≡ false }
{
    let mut held = Held {
        at: 0,
        asked: 0,
        count: 0,
    };
    for index in 0..order.len() {
        let (_, slot) = order[index];
        match read_share(shelf, cloud, memory, slot, &mut held, window) {
            Ok(()) => {}
            Err(error) => return Err(error),
        }
    }
    Ok(())
}

/// Reads each entry's recipe, and compares it. The first that isn't as it was stored, or isn't good where a shape is
/// given, ends it.
pub(crate) fn read_files<V: Shelf>(
    shelf: &mut V,
    cloud: CloudNo,
    memory: &CloudMemory,
    shape: Option<Shape>,
    order: &[(u64, u32)],
    window: &mut [u8],
) -> Result<(), ReadErr>
    requires all { HasAll (length memory.now.files.slots) order.now }
    requires window { length window.old ≡ window_len }
    ensures read { IsOnlyRead (FilesRead shape memory.now)
        (V.cloud_at shelf.old) (V.cloud_at shelf.new) cloud.0 (V.faults shelf.old) (V.faults shelf.new) result }
    ensures memory { lacks_memory result ≡ false }
{
    let mut held = Held {
        at: 0,
        asked: 0,
        count: 0,
    };
    for index in 0..order.len() {
        let (_, slot) = order[index];
        match read_file(shelf, cloud, memory, shape, slot, &mut held, window) {
            Ok(()) => {}
            Err(error) => return Err(error),
        }
    }
    Ok(())
}
