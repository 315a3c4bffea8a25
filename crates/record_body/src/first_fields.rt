//! Reading the fields of a Put and a Commit, from left to right.

ghost use Rattle.std.specs.Int.{w32};
ghost use Rattle.message_fields.specs.Grammar.Fields.{number_at, checked};
ghost use Rattle.message_fields.specs.Parts.{times, behind};
ghost use Rattle.message_fields.specs.Readings.{IsReadingSeenBy};
ghost use Rattle.record_body.specs.FirstReading.{place_at, placed_at, item_at, commit_at, is_recipe_len};
ghost use Rattle.record_body.specs.FirstSpelling.{Commit};

use crate::{CommitBody, PutItem};
use message_fields::{
    Left, Place, Tag, Version, array_of, fp_of, share_len_of, u32_of, u64_of, user_of,
};

// The length of a recipe, at least 1.
fn recipe_len_of(bytes: &[u8]) -> Result<(u32, &[u8]), Left>
    ensures { IsReadingSeenBy (λ x. (x.0, x.1.now)) result (checked is_recipe_len (number_at w32) bytes.now) }
{
    let (len, rest) = u32_of(bytes)?;
    if 1 <= len {
        Ok((len, rest))
    } else {
        Err(Left(bytes.len()))
    }
}

/// A place, and what follows it.
#[tactic(auto, unfolding(crate::specs::FirstReading::place_at))]
pub fn place_of(bytes: &[u8]) -> Result<(Place, &[u8]), Left>
    ensures { IsReadingSeenBy (λ x. (x.0, x.1.now)) result (place_at bytes.now) }
{
    let (at, rest) = u64_of(bytes)?;
    let (len, rest) = share_len_of(rest)?;
    Ok((Place { at, len }, rest))
}

// A flag, and the place behind flag 1.
#[tactic(auto, unfolding(crate::specs::FirstReading::placed_at))]
fn placed_of(bytes: &[u8]) -> Result<(Option<Place>, &[u8]), Left>
    ensures { IsReadingSeenBy (λ x. (x.0, x.1.now)) result (placed_at bytes.now) }
{
    match bytes {
        [] => Err(Left(0)),
        [0, rest @ ..] => Ok((None, rest)),
        [1, rest @ ..] => {
            let (place, rest) = place_of(rest)?;
            Ok((Some(place), rest))
        }
        _ => Err(Left(bytes.len())),
    }
}

/// An item of a Put, and what follows it.
#[tactic(auto, unfolding(crate::specs::FirstReading::item_at))]
pub fn item_of(bytes: &[u8]) -> Result<(PutItem, &[u8]), Left>
    ensures { IsReadingSeenBy (λ x. (x.0, x.1.now)) result (item_at bytes.now) }
{
    let (fp, rest) = fp_of(bytes)?;
    let (place, rest) = placed_of(rest)?;
    Ok((PutItem { fp, place }, rest))
}

/// What follows so many items.
pub fn behind_items(bytes: &[u8], count: usize) -> Result<&[u8], Left>
    ensures { IsReadingSeenBy (λ rest. rest.now) result (behind (times item_at count bytes.now)) }
{
    let mut rest = bytes;
    for _i in 0..count {
        let (_, after) = item_of(rest)?;
        rest = after;
    }
    Ok(rest)
}

/// The fields of a Commit, and what follows them.
#[tactic(auto, unfolding(crate::specs::FirstReading::commit_at))]
pub fn commit_of(bytes: &[u8]) -> Result<(CommitBody, &[u8]), Left>
    ensures { IsReadingSeenBy (λ x. (Commit x.0, x.1.now)) result (commit_at bytes.now) }
{
    let (user, rest) = user_of(bytes)?;
    let (tag, rest) = array_of(rest)?;
    let (version, rest) = u64_of(rest)?;
    let (at, rest) = u64_of(rest)?;
    let (len, rest) = recipe_len_of(rest)?;
    let (fp, rest) = fp_of(rest)?;
    let commit = CommitBody {
        user,
        tag: Tag(tag),
        version: Version(version),
        at,
        len,
        fp,
    };
    Ok((commit, rest))
}
