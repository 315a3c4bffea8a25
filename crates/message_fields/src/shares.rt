//! Batches of shares in the bytes that they came in.

ghost use Rattle.std.specs.Prelude.{◌≡◌, ◌∷◌, [], length, slice_get, MatchOption, IfSome, option_map};
ghost use Rattle.std.specs.Int.{w32};
ghost use Rattle.message_fields.specs.Readings.{IsReadingSeenBy};
ghost use Rattle.grammar.specs.Fields.{number_at, checked};
ghost use Rattle.message_fields.specs.Parts.{times, behind};
ghost use Rattle.message_fields.specs.Shares.{is_share_len, IsShare, share_at, shares_at};

use crate::fields::{bytes_of, u32_of};
use crate::fps::batch_of;
use crate::{Left, SHARE_LIMIT};
use std::marker::Model;

/// Shares, in the bytes that they came in: each is its length in 4 bytes and so many bytes. Contracts see the list.
#[derive(Drop)]
pub struct SharesView<'a> {
    count: usize,
    bytes: &'a [u8],
}

impl<'a> Model for SharesView<'a> {
    ghost use Rattle.std.specs.Prelude.{ℕ, List, IsTrue};
    ghost use Rattle.message_fields.specs.Parts.{times};
    ghost use Rattle.message_fields.specs.Shares.{share_at, shares_in, is_whole};

    ghost Value = { List (List ℕ) };

    ghost view = { λ v. shares_in (times share_at v.count v.bytes.now) };

    ghost invariant = { λ v. IsTrue (is_whole (times share_at v.count v.bytes.now)) };
}

impl<'a> SharesView<'a> {
    /// How many shares there are.
    pub fn len(&self) -> usize
        ensures { result ≡ length self.now }
    {
        self.count
    }

    /// The same shares, from the first one on. It copies no bytes.
    pub fn copied(&self) -> SharesView<'a>
        ensures { result ≡ self.now }
    {
        SharesView {
            count: self.count,
            bytes: self.bytes,
        }
    }

    /// The first share and those behind it, or None where there is none. A share has 1 to 8,208 bytes.
    pub fn split_first(&self) -> Option<(&'a [u8], SharesView<'a>)>
        ensures value { MatchOption result (self.now ≡ []) (λ x. self.now ≡ x.0.now ∷ x.1) }
        ensures range { IfSome result (λ x. IsShare x.0.now) }
    {
        if self.count == 0 {
            return None;
        }
        match share_of(self.bytes) {
            Ok((share, bytes)) => Some((
                share,
                SharesView {
                    count: self.count - 1,
                    bytes,
                },
            )),
            Err(_) => None,
        }
    }

    /// The share at a place, counted from 0, or None past the end. It goes over the lengths of those before it.
    pub fn get(&self, place: usize) -> Option<&'a [u8]>
        ensures { option_map (λ share. share.now) result ≡ slice_get self.now place }
    {
        let mut rest = self.copied();
        for _ in 0..place {
            let (_, others) = rest.split_first()?;
            rest = others;
        }
        let (share, _) = rest.split_first()?;
        Some(share)
    }
}

/// The length of a share, in 4 bytes, and what follows. One that is no number from 1 to 8,208 is wrong at its first place.
pub fn share_len_of(bytes: &[u8]) -> Result<(u32, &[u8]), Left>
    ensures { IsReadingSeenBy (λ x. (x.0, x.1.now)) result (checked is_share_len (number_at w32) bytes.now) }
{
    let (len, rest) = u32_of(bytes)?;
    if 1 <= len && len as usize <= SHARE_LIMIT {
        Ok((len, rest))
    } else {
        Err(Left(bytes.len()))
    }
}

/// A share: its length in 4 bytes and so many bytes, and what follows. A length that is no number from 1 to 8,208 is wrong at its
/// first place; where bytes are lacking the end is wrong.
#[tactic(auto, unfolding(crate::specs::Shares::share_at))]
pub fn share_of(bytes: &[u8]) -> Result<(&[u8], &[u8]), Left>
    ensures { IsReadingSeenBy (λ x. (x.0.now, x.1.now)) result (share_at bytes.now) }
{
    let (len, rest) = share_len_of(bytes)?;
    bytes_of(rest, len as usize)
}

// What follows so many shares.
fn behind_shares(bytes: &[u8], count: usize) -> Result<&[u8], Left>
    ensures { IsReadingSeenBy (λ rest. rest.now) result (behind (times share_at count bytes.now)) }
{
    let mut rest = bytes;
    for _i in 0..count {
        let (_, after) = share_of(rest)?;
        rest = after;
    }
    Ok(rest)
}

/// A batch of shares: their number and so many shares, and what follows.
#[tactic(auto, unfolding(crate::specs::Shares::shares_at))]
pub fn shares_of(bytes: &[u8]) -> Result<(SharesView<'_>, &[u8]), Left>
    ensures { IsReadingSeenBy (λ x. (x.0, x.1.now)) result (shares_at bytes.now) }
{
    let (count, items) = batch_of(bytes)?;
    let count = count as usize;
    let rest = behind_shares(items, count)?;
    let (front, _) = items.split_at(items.len().saturating_sub(rest.len()));
    Ok((
        SharesView {
            count,
            bytes: front,
        },
        rest,
    ))
}
