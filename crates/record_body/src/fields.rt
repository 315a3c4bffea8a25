//! Reading the fields of a Delete, a Kept and a Spent, from left to right.

ghost use Rattle.message_fields.specs.Parts.{times, behind};
ghost use Rattle.message_fields.specs.Readings.{IsReadingSeenBy};
ghost use Rattle.record_body.specs.Reading.{item_at, delete_at, spent_at};
ghost use Rattle.record_body.specs.Spelling.{Delete, Spent};

use crate::first_fields::place_of;
use crate::{DeleteBody, KeptItem, SpentBody};
use message_fields::{Left, Tag, Version, array_of, fp_of, u32_of, u64_of, user_of};

/// An item of a Kept, and what follows it.
#[tactic(auto, unfolding(crate::specs::Reading::item_at))]
pub fn item_of(bytes: &[u8]) -> Result<(KeptItem, &[u8]), Left>
    ensures { IsReadingSeenBy (λ x. (x.0, x.1.now)) result (item_at bytes.now) }
{
    let (fp, rest) = fp_of(bytes)?;
    let (place, rest) = place_of(rest)?;
    Ok((KeptItem { fp, place }, rest))
}

/// What follows so many items.
pub fn behind_items(bytes: &[u8], count: usize) -> Result<&[u8], Left>
    ensures { IsReadingSeenBy (λ rest. rest.now) result (behind (times item_at count bytes.now)) }
{
    let mut rest = bytes;
    for _i in 0..count {
        let (_, after) = item_of(rest)?;
        rest = after;
    }
    Ok(rest)
}

/// The fields of a Delete, and what follows them.
#[tactic(auto, unfolding(crate::specs::Reading::delete_at))]
pub fn delete_of(bytes: &[u8]) -> Result<(DeleteBody, &[u8]), Left>
    ensures { IsReadingSeenBy (λ x. (Delete x.0, x.1.now)) result (delete_at bytes.now) }
{
    let (user, rest) = user_of(bytes)?;
    let (tag, rest) = array_of(rest)?;
    let (version, rest) = u64_of(rest)?;
    let delete = DeleteBody {
        user,
        tag: Tag(tag),
        version: Version(version),
    };
    Ok((delete, rest))
}

/// The fields of a Spent, and what follows them.
#[tactic(auto, unfolding(crate::specs::Reading::spent_at))]
pub fn spent_of(bytes: &[u8]) -> Result<(SpentBody, &[u8]), Left>
    ensures { IsReadingSeenBy (λ x. (Spent x.0, x.1.now)) result (spent_at bytes.now) }
{
    let (user, rest) = user_of(bytes)?;
    let (owners, rest) = u32_of(rest)?;
    let (shares, rest) = u64_of(rest)?;
    let (recipes, rest) = u64_of(rest)?;
    let spent = SpentBody {
        user,
        owners,
        shares,
        recipes,
    };
    Ok((spent, rest))
}
