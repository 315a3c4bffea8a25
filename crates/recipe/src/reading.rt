//! Reading the fields of a recipe, from left to right.

ghost use Rattle.std.specs.Prelude.{◌≡◌, ◌==◌, ◌*◌, ◌≤◌, ◌↔◌, length, Ok, IfOk};
ghost use Rattle.std.specs.Int.{w16, w32, w64};
ghost use Rattle.grammar.specs.CdBase.Lengths.{share_len_of};
ghost use Rattle.grammar.specs.CdBase.Limits.{secret_limit};
ghost use Rattle.grammar.specs.Fields.{number_at, bytes_at, checked};
ghost use Rattle.recipe.specs.Spelling.{is_name_len, is_file_len, is_count, is_len, item_limit};
ghost use Rattle.recipe.specs.Reading.{tail_at};
ghost use Rattle.recipe.specs.InPlace.{Finds, items_in};
ghost use Rattle.recipe.specs.Totals.{len_at, total_at};

use crate::rules::{is_count_of, is_file_len_of, is_len_of, is_name_len_of};
use grammar::Shape;

/// Where reading stopped: how many bytes are left from the first wrong place on.
#[derive(Clone, Copy)]
pub struct BytesLeft(pub usize);

fn bytes_of(bytes: &[u8], n: usize) -> Result<(&[u8], &[u8]), BytesLeft>
    ensures { Finds (λ x. (x.0.now, x.1.now)) result (bytes_at n bytes.now) }
{
    if bytes.len() < n {
        return Err(BytesLeft(0));
    }
    Ok(bytes.split_at(n))
}

fn u16_of(bytes: &[u8]) -> Result<(u16, &[u8]), BytesLeft>
    ensures { Finds (λ x. (x.0, x.1.now)) result (number_at w16 bytes.now) }
{
    let (front, rest) = bytes_of(bytes, 2)?;
    Ok((u16::from_be_bytes([front[0], front[1]]), rest))
}

fn u32_of(bytes: &[u8]) -> Result<(u32, &[u8]), BytesLeft>
    ensures { Finds (λ x. (x.0, x.1.now)) result (number_at w32 bytes.now) }
{
    let (front, rest) = bytes_of(bytes, 4)?;
    let number = u32::from_be_bytes([front[0], front[1], front[2], front[3]]);
    Ok((number, rest))
}

fn u64_of(bytes: &[u8]) -> Result<(u64, &[u8]), BytesLeft>
    ensures { Finds (λ x. (x.0, x.1.now)) result (number_at w64 bytes.now) }
{
    let (front, rest) = bytes_of(bytes, 8)?;
    let number = u64::from_be_bytes([
        front[0], front[1], front[2], front[3], front[4], front[5], front[6], front[7],
    ]);
    Ok((number, rest))
}

/// The length of a path.
pub fn name_len_of(bytes: &[u8]) -> Result<(u16, &[u8]), BytesLeft>
    ensures { Finds (λ x. (x.0, x.1.now)) result (checked is_name_len (number_at w16) bytes.now) }
{
    let (n, rest) = u16_of(bytes)?;
    if is_name_len_of(n) {
        Ok((n, rest))
    } else {
        Err(BytesLeft(bytes.len()))
    }
}

/// A share of so many bytes.
pub fn share_of(bytes: &[u8], shape: Shape, len: u16) -> Result<(&[u8], &[u8]), BytesLeft>
    ensures { Finds (λ x. (x.0.now, x.1.now)) result (bytes_at (share_len_of shape.k len) bytes.now) }
{
    let k = shape.k as usize;
    bytes_of(bytes, (len as usize + 31 + k) / k)
}

/// The length of a file.
pub fn file_len_of(bytes: &[u8]) -> Result<(u64, &[u8]), BytesLeft>
    ensures { Finds (λ x. (x.0, x.1.now)) result (checked is_file_len (number_at w64) bytes.now) }
{
    let (n, rest) = u64_of(bytes)?;
    if is_file_len_of(n) {
        Ok((n, rest))
    } else {
        Err(BytesLeft(bytes.len()))
    }
}

/// The number of secrets of a file of this length.
pub fn count_of(bytes: &[u8], file: u64) -> Result<(u32, &[u8]), BytesLeft>
    ensures { Finds (λ x. (x.0, x.1.now)) result (checked (is_count file) (number_at w32) bytes.now) }
{
    let (n, rest) = u32_of(bytes)?;
    if is_count_of(file, n) {
        Ok((n, rest))
    } else {
        Err(BytesLeft(bytes.len()))
    }
}

fn len_of(bytes: &[u8], last: bool) -> Result<(u32, &[u8]), BytesLeft>
    ensures { Finds (λ x. (x.0, x.1.now)) result (checked (is_len last) (number_at w32) bytes.now) }
{
    let (n, rest) = u32_of(bytes)?;
    if is_len_of(last, n) {
        Ok((n, rest))
    } else {
        Err(BytesLeft(bytes.len()))
    }
}

// The length of the next item's secret, and whether it is the last one.
#[tactic(auto, unfolding(crate::specs::Reading::item_at))]
fn item_len_of(bytes: &[u8], last: bool) -> Result<(u32, &[u8]), BytesLeft>
    ensures gives { Finds (λ x. (x.0, x.1.now)) result (len_at last bytes.now) }
    ensures few { IfOk result (λ x. x.0 ≤ secret_limit) }
{
    let (_, rest) = bytes_of(bytes, 32)?;
    len_of(rest, last)
}

// The sum of the lengths of so many secrets, and what follows their items.
fn total_of(count: u32, bytes: &[u8]) -> Result<(u64, &[u8]), BytesLeft>
    ensures { Finds (λ x. (x.0, x.1.now)) result (total_at count bytes.now) }
{
    let mut sum = 0;
    let mut rest = bytes;
    for i in 0..count {
        let (len, after) = item_len_of(rest, count - i == 1)?;
        sum += len as u64;
        rest = after;
    }
    Ok((sum, rest))
}

/// What follows the name's share.
#[derive(Drop)]
pub struct Tail<'a> {
    pub file_len: u64,
    pub count: u32,
    pub items: &'a [u8],
}

/// The tail of a recipe, from the length of the file on, to the end of the bytes.
#[tactic(auto, unfolding(crate::specs::Reading::tail_at, crate::specs::Reading::file_at))]
pub fn tail_of(bytes: &[u8]) -> Result<Tail<'_>, BytesLeft>
    ensures gives { Finds (λ t. (t.file_len, items_in t.count t.items.now)) result (tail_at bytes.now) }
    ensures room { IfOk result (λ t. length t.items.now ≡ 36 * t.count) }
    ensures few { IfOk result (λ t. t.count ≤ item_limit) }
{
    let (file_len, rest) = file_len_of(bytes)?;
    let (count, items) = count_of(rest, file_len)?;
    let (total, rest) = total_of(count, items)?;
    if !rest.is_empty() {
        return Err(BytesLeft(rest.len()));
    }
    if total == file_len {
        Ok(Tail {
            file_len,
            count,
            items,
        })
    } else {
        Err(BytesLeft(bytes.len()))
    }
}
