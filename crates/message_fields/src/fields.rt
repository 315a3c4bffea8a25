//! Fields of messages: numbers, bytes, and the end.

ghost use Rattle.std.specs.Prelude.{◌≡◌, Some};
ghost use Rattle.std.specs.Int.{w16, w32, w64};
ghost use Rattle.grammar.specs.Readers.{done_at};
ghost use Rattle.grammar.specs.Fields.{number_at, bytes_at};
ghost use Rattle.message_fields.specs.Parts.{byte_as};
ghost use Rattle.message_fields.specs.Readings.{IsReadingSeenBy};

use crate::Left;
use grammar::{Fp, UserId};

/// The next n bytes, and what follows. Where fewer are left the end is wrong.
pub fn bytes_of(bytes: &[u8], n: usize) -> Result<(&[u8], &[u8]), Left>
    ensures { IsReadingSeenBy (λ x. (x.0.now, x.1.now)) result (bytes_at n bytes.now) }
{
    if bytes.len() < n {
        return Err(Left(0));
    }
    Ok(bytes.split_at(n))
}

/// A byte, and what follows. Where none is left the end is wrong.
pub fn byte_of(bytes: &[u8]) -> Result<(u8, &[u8]), Left>
    ensures { IsReadingSeenBy (λ x. (x.0, x.1.now)) result (byte_as Some bytes.now) }
{
    match bytes {
        [] => Err(Left(0)),
        [byte, rest @ ..] => Ok((*byte, rest)),
    }
}

/// A big-endian number of 2 bytes, and what follows. Where fewer are left the end is wrong.
pub fn u16_of(bytes: &[u8]) -> Result<(u16, &[u8]), Left>
    ensures { IsReadingSeenBy (λ x. (x.0, x.1.now)) result (number_at w16 bytes.now) }
{
    if bytes.len() < 2 {
        return Err(Left(0));
    }
    let (front, rest) = bytes.split_at(2);
    let number = u16::from_be_bytes([front[0], front[1]]);
    Ok((number, rest))
}

/// A big-endian number of 4 bytes, and what follows. Where fewer are left the end is wrong.
pub fn u32_of(bytes: &[u8]) -> Result<(u32, &[u8]), Left>
    ensures { IsReadingSeenBy (λ x. (x.0, x.1.now)) result (number_at w32 bytes.now) }
{
    if bytes.len() < 4 {
        return Err(Left(0));
    }
    let (front, rest) = bytes.split_at(4);
    let number = u32::from_be_bytes([front[0], front[1], front[2], front[3]]);
    Ok((number, rest))
}

/// A big-endian number of 8 bytes, and what follows. Where fewer are left the end is wrong.
pub fn u64_of(bytes: &[u8]) -> Result<(u64, &[u8]), Left>
    ensures { IsReadingSeenBy (λ x. (x.0, x.1.now)) result (number_at w64 bytes.now) }
{
    if bytes.len() < 8 {
        return Err(Left(0));
    }
    let (front, rest) = bytes.split_at(8);
    let number = u64::from_be_bytes([
        front[0], front[1], front[2], front[3], front[4], front[5], front[6], front[7],
    ]);
    Ok((number, rest))
}

/// A user, in 4 bytes, and what follows. Where fewer are left the end is wrong.
pub fn user_of(bytes: &[u8]) -> Result<(UserId, &[u8]), Left>
    ensures { IsReadingSeenBy (λ x. (x.0.0, x.1.now)) result (number_at w32 bytes.now) }
{
    let (user, rest) = u32_of(bytes)?;
    Ok((UserId(user), rest))
}

/// The next 32 bytes, and what follows. Where fewer are left the end is wrong.
pub fn array_of(bytes: &[u8]) -> Result<([u8; 32], &[u8]), Left>
    ensures { IsReadingSeenBy (λ x. (x.0, x.1.now)) result (bytes_at 32 bytes.now) }
{
    if bytes.len() < 32 {
        return Err(Left(0));
    }
    let (front, rest) = bytes.split_at(32);
    let mut array = [0; 32];
    array.copy_from_slice(front);
    Ok((array, rest))
}

/// A fingerprint of 32 bytes, and what follows. Where fewer are left the end is wrong.
pub fn fp_of(bytes: &[u8]) -> Result<(Fp, &[u8]), Left>
    ensures { IsReadingSeenBy (λ x. (x.0.0, x.1.now)) result (bytes_at 32 bytes.now) }
{
    let (fp, rest) = array_of(bytes)?;
    Ok((Fp(fp), rest))
}

/// Nothing is left. Else the first byte that is left is wrong.
pub fn ended(bytes: &[u8]) -> Result<(), Left>
    ensures { IsReadingSeenBy (λ x. x) result (done_at tt bytes.now) }
{
    match bytes {
        [] => Ok(()),
        _ => Err(Left(bytes.len())),
    }
}
