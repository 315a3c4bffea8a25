//! Blobs that are looked up in a window of their area, and compared.

ghost use Rattle.std.specs.Prelude.{◌≡◌, ◌≤◌, false, length};
ghost use Rattle.audit_base.specs.Whole.{tables_of};
ghost use Rattle.blob_audit.specs.Holding.{window_len, ShareAlong, EntryAlong};
ghost use Rattle.blob_audit.specs.Steps.{lacks_memory, IsOnlyRead};

use crate::ReadErr;
use crate::held::{Held, bytes_in, hold};
use crate::judging::{judge, judge_bytes, judge_entry, judge_long};
use crate::pieces::{WINDOW, hash_long};
use audit_base::{Area, CloudMemory, CloudNo, Entry, Fp, Place, Shape, Shelf, UserId};

/// Compares the share at a place, which is read where the window hasn't got it.
pub(crate) fn compare_share<V: Shelf>(
    shelf: &mut V,
    cloud: CloudNo,
    fp: Fp,
    place: Place,
    held: &mut Held,
    window: &mut [u8],
) -> Result<(), ReadErr>
    requires window { length window.old ≡ window_len }
    requires count { held.old.count ≤ window_len }
    ensures read { IsOnlyRead (ShareAlong fp.0 place held.old window.old held.new window.new)
        (V.cloud_at shelf.old) (V.cloud_at shelf.new) cloud.0 (V.faults shelf.old) (V.faults shelf.new) result }
    ensures memory { lacks_memory result ≡ false }
    ensures count { held.new.count ≤ window_len }
{
    if place.len as usize <= WINDOW {
        match hold(shelf, cloud, Area::Shares, place, held, window) {
            Ok(()) => judge_bytes(fp, place.len, bytes_in(held, &place, window)),
            Err(error) => Err(error),
        }
    } else {
        *held = Held {
            at: 0,
            asked: 0,
            count: 0,
        };
        match hash_long(shelf, cloud, Area::Shares, place, window) {
            Ok(found) => judge(fp, place.len, &found),
            Err(error) => Err(error),
        }
    }
}

/// Compares the recipe at an entry's place, which is read where the window hasn't got it.
pub(crate) fn compare_entry<V: Shelf>(
    shelf: &mut V,
    cloud: CloudNo,
    memory: &CloudMemory,
    shape: Option<Shape>,
    user: UserId,
    entry: Entry,
    held: &mut Held,
    window: &mut [u8],
) -> Result<(), ReadErr>
    requires window { length window.old ≡ window_len }
    requires count { held.old.count ≤ window_len }
    ensures read { IsOnlyRead (EntryAlong shape
        (tables_of memory.now) user entry held.old window.old held.new window.new)
        (V.cloud_at shelf.old) (V.cloud_at shelf.new) cloud.0 (V.faults shelf.old) (V.faults shelf.new) result }
    ensures memory { lacks_memory result ≡ false }
    ensures count { held.new.count ≤ window_len }
{
    let place = Place {
        at: entry.at,
        len: entry.len,
    };
    if entry.len as usize <= WINDOW {
        match hold(shelf, cloud, Area::Recipes, place, held, window) {
            Ok(()) => judge_entry(memory, shape, user, entry, bytes_in(held, &place, window)),
            Err(error) => Err(error),
        }
    } else {
        *held = Held {
            at: 0,
            asked: 0,
            count: 0,
        };
        match hash_long(shelf, cloud, Area::Recipes, place, window) {
            Ok(found) => judge_long(shape, entry, &found),
            Err(error) => Err(error),
        }
    }
}
