//! Batches of fingerprints in the bytes that they came in.

ghost use Rattle.std.specs.Prelude.{◌≡◌, IsTrue, ◌↔◌, length, slice_get};
ghost use Rattle.std.specs.Int.{w16};
ghost use Rattle.message_fields.specs.Readings.{IsReadingSeenBy};
ghost use Rattle.grammar.specs.Fields.{number_at, checked};
ghost use Rattle.message_fields.specs.Fingerprints.{is_batch, fps_in, fps_at};

use crate::fields::{bytes_of, fp_of, u16_of};
use crate::{BATCH_LIMIT, Left};
use grammar::Fp;
use std::marker::Model;

/// Fingerprints, in the bytes that they came in: 32 bytes each. Contracts see the list.
#[derive(Drop)]
pub struct FpsView<'a> {
    count: usize,
    bytes: &'a [u8],
}

impl<'a> Model for FpsView<'a> {
    ghost use Rattle.std.specs.Prelude.{◌≡◌, ◌*◌, List, length};
    ghost use Rattle.grammar.specs.CdBase.ids.Fp.{Fp};
    ghost use Rattle.message_fields.specs.Fingerprints.{fps_in};

    ghost Value = { List Fp };

    ghost view = { λ v. fps_in v.count v.bytes.now };

    ghost invariant = { λ v. length v.bytes.now ≡ v.count * 32 };
}

impl<'a> FpsView<'a> {
    /// How many fingerprints there are.
    pub fn len(&self) -> usize
        ensures { result ≡ length self.now }
    {
        self.count
    }

    /// The fingerprint at a place, counted from 0, or None past the end.
    pub fn get(&self, place: usize) -> Option<Fp>
        ensures { result ≡ slice_get self.now place }
    {
        if place < self.count {
            let (_, rest) = self.bytes.split_at(place * 32);
            match fp_of(rest) {
                Ok((fp, _)) => Some(fp),
                Err(_) => None,
            }
        } else {
            None
        }
    }
}

/// The number of a batch's items, in 2 bytes, and what follows. One that is no number from 1 to 256 is wrong at its first
/// place.
pub fn batch_of(bytes: &[u8]) -> Result<(u16, &[u8]), Left>
    ensures { IsReadingSeenBy (λ x. (x.0, x.1.now)) result (checked is_batch (number_at w16) bytes.now) }
{
    let (count, rest) = u16_of(bytes)?;
    if 1 <= count && count as usize <= BATCH_LIMIT {
        Ok((count, rest))
    } else {
        Err(Left(bytes.len()))
    }
}

/// A batch of fingerprints: their number and so many of 32 bytes, and what follows. Where bytes are lacking the end is wrong.
#[tactic(auto, unfolding(crate::specs::Fingerprints::fps_at))]
pub fn fps_of(bytes: &[u8]) -> Result<(FpsView<'_>, &[u8]), Left>
    ensures { IsReadingSeenBy (λ x. (x.0, x.1.now)) result (fps_at bytes.now) }
{
    let (count, rest) = batch_of(bytes)?;
    let count = count as usize;
    let (bytes, rest) = bytes_of(rest, count * 32)?;
    Ok((FpsView { count, bytes }, rest))
}
