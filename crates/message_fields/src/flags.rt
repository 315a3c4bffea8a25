//! Batches of flags.

ghost use Rattle.std.specs.Prelude.{◌≡◌};
ghost use Rattle.message_fields.specs.Readings.{IsReadingSeenBy};
ghost use Rattle.message_fields.specs.Parts.{byte_as, times, behind};
ghost use Rattle.message_fields.specs.Flags.{flag_of, flags_at};

use crate::Left;
use crate::fps::batch_of;

// A byte that is 0 or 1.
fn one_flag_of(bytes: &[u8]) -> Result<(u8, &[u8]), Left>
    ensures { IsReadingSeenBy (λ x. (x.0, x.1.now)) result (byte_as flag_of bytes.now) }
{
    match bytes {
        [] => Err(Left(0)),
        [flag, rest @ ..] => {
            if *flag <= 1 {
                Ok((*flag, rest))
            } else {
                Err(Left(bytes.len()))
            }
        }
    }
}

// What follows so many flags.
fn behind_flags(bytes: &[u8], count: usize) -> Result<&[u8], Left>
    ensures { IsReadingSeenBy (λ rest. rest.now) result (behind (times (byte_as flag_of) count bytes.now)) }
{
    let mut rest = bytes;
    for _i in 0..count {
        let (_, after) = one_flag_of(rest)?;
        rest = after;
    }
    Ok(rest)
}

/// A batch of flags: their number and so many bytes, each 0 or 1, and what follows. Another byte is wrong.
#[tactic(auto, unfolding(crate::specs::Flags::flags_at))]
pub fn flags_of(bytes: &[u8]) -> Result<(&[u8], &[u8]), Left>
    ensures { IsReadingSeenBy (λ x. (x.0.now, x.1.now)) result (flags_at bytes.now) }
{
    let (count, items) = batch_of(bytes)?;
    let rest = behind_flags(items, count as usize)?;
    let (front, _) = items.split_at(items.len().saturating_sub(rest.len()));
    Ok((front, rest))
}
