//! Bytes of an area, read from the device and hashed a window at a time.

ghost use Rattle.std.specs.Prelude.{◌≡◌, ◌+◌, ◌≤◌, ◌<◌, ◌^◌, length, IfOk, IfErr};
ghost use Rattle.audit_base.specs.Whole.{stored_at};
ghost use Rattle.blob_audit.specs.Holding.{window_len};
ghost use Rattle.blob_audit.specs.Steps.{IsFault, IsOnlyRead, IsFrontOfBuffer, IsTaken, AreFoundBytes, IsWholeLength};
ghost use Rattle.blob_audit.specs.Steps.{FoundRead};

use crate::ReadErr;
use audit_base::{Area, CloudNo, Failed, Fp, Place, Shelf};
use container_log::CONTAINER;
use sha2::{Digest, Sha256};

/// The bytes of a window: those of a container.
pub(crate) const WINDOW: usize = CONTAINER as usize;

/// What lies at a place: how many bytes, and their SHA-256.
#[derive(Clone, Copy)]
pub(crate) struct Found {
    pub(crate) len: usize,
    pub(crate) fp: Fp,
}

/// Puts what the area has from a place on in front of a piece, as much as fits.
pub(crate) fn read_piece<V: Shelf>(
    shelf: &mut V,
    cloud: CloudNo,
    area: Area,
    at: u64,
    piece: &mut [u8],
) -> Result<usize, ReadErr>
    ensures read { IsOnlyRead (λ image r. IfOk r (λ count.
        IsFrontOfBuffer (stored_at (image area) at (length piece.old)) count piece.new))
        (V.cloud_at shelf.old) (V.cloud_at shelf.new) cloud.0 (V.faults shelf.old) (V.faults shelf.new) result }
    ensures fault { IfErr result IsFault }
    ensures bound { IfOk result (λ count. count ≤ length piece.new) }
{
    match shelf.read(cloud, area, at, piece) {
        Ok(count) => Ok(count),
        Err(Failed) => Err(ReadErr::Fault),
    }
}

// Hashes what the area has from a place on, as much as fits a piece, and answers how many bytes that is.
fn hash_piece<V: Shelf>(
    shelf: &mut V,
    cloud: CloudNo,
    area: Area,
    at: u64,
    piece: &mut [u8],
    hasher: &mut Sha256,
) -> Result<usize, ReadErr>
    ensures read { IsOnlyRead (λ image r. IfOk r (λ count.
        IsTaken (stored_at (image area) at (length piece.old)) count hasher.old hasher.new))
        (V.cloud_at shelf.old) (V.cloud_at shelf.new) cloud.0 (V.faults shelf.old) (V.faults shelf.new) result }
    ensures fault { IfErr result IsFault }
    ensures bound { IfOk result (λ count. count ≤ length piece.old) }
{
    match read_piece(shelf, cloud, area, at, piece) {
        Ok(count) => {
            let (read, _) = piece.split_at(count);
            hasher.update(read);
            Ok(count)
        }
        Err(error) => Err(error),
    }
}

// How many bytes are to be read at a place so that their places are numbers: as many as it says, or as many as there
// are.
fn len_at<V: Shelf>(shelf: &mut V, cloud: CloudNo, area: Area, place: Place) -> Result<u32, ReadErr>
    ensures read { IsOnlyRead (λ image r. IfOk r (λ len. IsWholeLength (image area) place len))
        (V.cloud_at shelf.old) (V.cloud_at shelf.new) cloud.0 (V.faults shelf.old) (V.faults shelf.new) result }
    ensures fault { IfErr result IsFault }
    ensures within { IfOk result (λ len. place.at + len < 2 ^ 64) }
{
    let most = u64::MAX - place.at;
    if u64::from(place.len) <= most {
        return Ok(place.len);
    }
    match shelf.len(cloud, area) {
        Ok(end) => Ok(end.saturating_sub(place.at).min(u64::from(place.len)) as u32),
        Err(Failed) => Err(ReadErr::Fault),
    }
}

// Hashes so many bytes from a place on, or as many of them as there are.
fn hash_pieces<V: Shelf>(
    shelf: &mut V,
    cloud: CloudNo,
    area: Area,
    at: u64,
    len: usize,
    window: &mut [u8],
) -> Result<Found, ReadErr>
    requires window { length window.old ≡ window_len }
    requires small { len < 2 ^ 32 }
    requires within { at + len < 2 ^ 64 }
    ensures read { IsOnlyRead (FoundRead area (record { at = at; len = len }))
        (V.cloud_at shelf.old) (V.cloud_at shelf.new) cloud.0 (V.faults shelf.old) (V.faults shelf.new) result }
    ensures fault { IfErr result IsFault }
{
    let mut hasher = Sha256::new();
    let mut count: usize = 0;
    for number in 0..len.div_ceil(WINDOW) {
        let done = number * WINDOW;
        let (piece, _) = window.split_at_mut(WINDOW.min(len - done));
        match hash_piece(shelf, cloud, area, at + done as u64, piece, &mut hasher) {
            Ok(more) => count += more,
            Err(error) => return Err(error),
        }
    }
    Ok(Found {
        len: count,
        fp: Fp(hasher.finalize()),
    })
}

/// Hashes the blob at a place, or as much of it as there is, whatever its length is.
pub(crate) fn hash_long<V: Shelf>(
    shelf: &mut V,
    cloud: CloudNo,
    area: Area,
    place: Place,
    window: &mut [u8],
) -> Result<Found, ReadErr>
    requires window { length window.old ≡ window_len }
    ensures read { IsOnlyRead (FoundRead area place)
        (V.cloud_at shelf.old) (V.cloud_at shelf.new) cloud.0 (V.faults shelf.old) (V.faults shelf.new) result }
    ensures fault { IfErr result IsFault }
{
    match len_at(shelf, cloud, area, place) {
        Ok(len) => hash_pieces(shelf, cloud, area, place.at, len as usize, window),
        Err(error) => Err(error),
    }
}
