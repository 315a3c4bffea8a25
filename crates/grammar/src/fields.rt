//! Fields of bytes.

ghost use Rattle.std.specs.Prelude.{◌≢◌, IfErr};
ghost use Rattle.std.specs.Int.{w16, w32, w64};
ghost use Rattle.grammar.specs.Readers.{Gives};
ghost use Rattle.grammar.specs.Fields.{number_at, bytes_at};

use crate::Stop;

/// The next n bytes, and what follows them. Where fewer are left the end is wrong.
/// It takes no memory, and want of it is no answer.
pub fn bytes_of(bytes: &[u8], n: usize) -> Result<(&[u8], &[u8]), Stop>
    ensures value { Gives (λ x. (x.0.now, x.1.now)) result (bytes_at n bytes.now) }
    ensures memory { IfErr result (λ e. e ≢ Stop.Memory) }
{
    if bytes.len() < n {
        return Err(Stop::Left(0));
    }
    Ok(bytes.split_at(n))
}

/// A big-endian number of 2 bytes, and what follows it. Where fewer are left the end is wrong.
/// It takes no memory, and want of it is no answer.
pub fn u16_of(bytes: &[u8]) -> Result<(u16, &[u8]), Stop>
    ensures value { Gives (λ x. (x.0, x.1.now)) result (number_at w16 bytes.now) }
    ensures memory { IfErr result (λ e. e ≢ Stop.Memory) }
{
    if bytes.len() < 2 {
        return Err(Stop::Left(0));
    }
    let (front, rest) = bytes.split_at(2);
    let number = u16::from_be_bytes([front[0], front[1]]);
    Ok((number, rest))
}

/// A big-endian number of 4 bytes, and what follows it. Where fewer are left the end is wrong.
/// It takes no memory, and want of it is no answer.
pub fn u32_of(bytes: &[u8]) -> Result<(u32, &[u8]), Stop>
    ensures value { Gives (λ x. (x.0, x.1.now)) result (number_at w32 bytes.now) }
    ensures memory { IfErr result (λ e. e ≢ Stop.Memory) }
{
    if bytes.len() < 4 {
        return Err(Stop::Left(0));
    }
    let (front, rest) = bytes.split_at(4);
    let number = u32::from_be_bytes([front[0], front[1], front[2], front[3]]);
    Ok((number, rest))
}

/// A big-endian number of 8 bytes, and what follows it. Where fewer are left the end is wrong.
/// It takes no memory, and want of it is no answer.
pub fn u64_of(bytes: &[u8]) -> Result<(u64, &[u8]), Stop>
    ensures value { Gives (λ x. (x.0, x.1.now)) result (number_at w64 bytes.now) }
    ensures memory { IfErr result (λ e. e ≢ Stop.Memory) }
{
    if bytes.len() < 8 {
        return Err(Stop::Left(0));
    }
    let (front, rest) = bytes.split_at(8);
    let number = u64::from_be_bytes([
        front[0], front[1], front[2], front[3], front[4], front[5], front[6], front[7],
    ]);
    Ok((number, rest))
}
