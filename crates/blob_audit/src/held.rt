//! A window of an area's bytes, in which blobs are looked up.

ghost use Rattle.std.specs.Prelude.{◌≡◌, ◌↔◌, ◌+◌, ◌≤◌, List, ℕ, length, IfOk, IfErr, IsTrue};
ghost use Rattle.audit_base.specs.Whole.{stored_at};
ghost use Rattle.blob_audit.specs.Holding.{window_len, IsHeldInWindow, Covers};
ghost use Rattle.blob_audit.specs.Steps.{IsFault, IsOnlyRead};

use crate::ReadErr;
use crate::pieces::{WINDOW, read_piece};
use audit_base::{Area, CloudNo, Place, Shelf};

/// What a window has in front: what was asked for, and how many bytes of it are there.
#[derive(Clone, Copy)]
pub(crate) struct Held {
    pub(crate) at: u64,
    pub(crate) asked: u32,
    pub(crate) count: usize,
}

// Whether a place lies in what was asked for.
fn lies_in(held: &Held, place: &Place) -> bool
    ensures { IsTrue result ↔ Covers held.now place.now }
{
    if place.at < held.at {
        return false;
    }
    let from = place.at - held.at;
    let asked = u64::from(held.asked);
    from <= asked && u64::from(place.len) <= asked - from
}

// How many bytes a new window has: those to the end of the container, or as many as the blob has.
fn asked_at(place: &Place) -> u32
    requires { place.now.len ≤ window_len }
    ensures least { place.now.len ≤ result }
    ensures most { result ≤ window_len }
{
    let room = WINDOW as u64 - place.at % WINDOW as u64;
    (room as u32).max(place.len)
}

/// Sees that a window has the blob at a place, or as much of it as there is: it is read to the end of its container where it
/// doesn't lie in the window whole.
pub(crate) fn hold<V: Shelf>(
    shelf: &mut V,
    cloud: CloudNo,
    area: Area,
    place: Place,
    held: &mut Held,
    window: &mut [u8],
) -> Result<(), ReadErr>
    requires window { length window.old ≡ window_len }
    requires small { place.len ≤ window_len }
    requires count { held.old.count ≤ window_len }
    ensures read { IsOnlyRead (λ image r. IsHeldInWindow (image area) held.old window.old
        → IfOk r (λ u. IsHeldInWindow (image area) held.new window.new))
        (V.cloud_at shelf.old) (V.cloud_at shelf.new) cloud.0 (V.faults shelf.old) (V.faults shelf.new) result }
    ensures fault { IfErr result IsFault }
    ensures covers { IfOk result (λ u. Covers held.new place) }
    ensures count { held.new.count ≤ window_len }
{
    if lies_in(held, &place) {
        return Ok(());
    }
    let asked = asked_at(&place);
    let (piece, _) = window.split_at_mut(asked as usize);
    match read_piece(shelf, cloud, area, place.at, piece) {
        Ok(count) => {
            *held = Held {
                at: place.at,
                asked,
                count,
            };
            Ok(())
        }
        Err(error) => Err(error),
    }
}

/// The blob at a place, or as much of it as there is, in a window that has it.
pub(crate) fn bytes_in<'a>(held: &Held, place: &Place, window: &'a [u8]) -> &'a [u8]
    requires window { held.now.count ≤ length window.now }
    requires covers { Covers held.now place.now }
    ensures bytes { (area : List ℕ) → IsHeldInWindow area held.now window.now
        → result.now ≡ stored_at area place.now.at place.now.len }
    ensures len { length result.now ≤ place.now.len }
{
    let (front, _) = window.split_at(held.count);
    let from = (place.at - held.at) as usize;
    let (_, rest) = front.split_at(from.min(front.len()));
    let (bytes, _) = rest.split_at((place.len as usize).min(rest.len()));
    bytes
}
