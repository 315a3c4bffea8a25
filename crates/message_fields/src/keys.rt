//! The keys of files.

ghost use Rattle.std.specs.Prelude.{◌≡◌, None};
ghost use Rattle.grammar.specs.Readers.{Gives};
ghost use Rattle.message_fields.specs.Readings.{IsReadingSeenBy};
ghost use Rattle.message_fields.specs.Keys.{key_at, key_above_at, keys_above_at, entries_at, is_from, is_above, is_key_count};
ghost use Rattle.std.specs.Int.{w16};
ghost use Rattle.grammar.specs.Fields.{number_at, checked};

use crate::fields::{array_of, u16_of, u64_of};
use crate::{Entries, KEY_LIMIT, Left};
use grammar::{Stop, Tag, Version};
use std::alloc::Global;
use std::cmp::Ordering;

// Whether a tag is not below the last one.
fn is_tag_from(last: &Option<(Tag, Version)>, tag: &[u8; 32]) -> bool
    ensures { result ≡ is_from last.now tag.now }
{
    match last {
        None => true,
        Some((least, _)) => least.0.cmp(tag) != Ordering::Greater,
    }
}

/// Whether a key is above the last one, if there is one: by tag, byte for byte, and then by version.
pub fn is_key_above(last: &Option<(Tag, Version)>, key: &(Tag, Version)) -> bool
    ensures { result ≡ is_above last.now key.now }
{
    match last {
        None => true,
        Some(least) => least.0.0.cmp(&key.0.0).then(least.1.0.cmp(&key.1.0)) == Ordering::Less,
    }
}

/// The next key, and what follows. It is above the last one: else its tag is wrong where it is less than the last one's, and
/// its version where it is not. Where bytes are lacking the end is wrong.
#[tactic(auto, unfolding(crate::specs::Keys::key_above_at))]
pub fn key_above_of<'a>(
    bytes: &'a [u8],
    last: &Option<(Tag, Version)>,
) -> Result<((Tag, Version), &'a [u8]), Left>
    ensures { IsReadingSeenBy (λ x. (x.0, x.1.now)) result (key_above_at last.now bytes.now) }
{
    let (tag, rest) = array_of(bytes)?;
    if !is_tag_from(last, &tag) {
        return Err(Left(bytes.len()));
    }
    let (version, after) = u64_of(rest)?;
    let key = (Tag(tag), Version(version));
    if is_key_above(last, &key) {
        Ok((key, after))
    } else {
        Err(Left(rest.len()))
    }
}

/// The next key, and what follows. Where bytes are lacking the end is wrong.
pub fn key_of(bytes: &[u8]) -> Result<((Tag, Version), &[u8]), Left>
    ensures { IsReadingSeenBy (λ x. (x.0, x.1.now)) result (key_at bytes.now) }
{
    key_above_of(bytes, &None)
}

// The number of keys, in 2 bytes, and what follows. One above 256 is wrong at its first place.
fn key_count_of(bytes: &[u8]) -> Result<(u16, &[u8]), Left>
    ensures { IsReadingSeenBy (λ x. (x.0, x.1.now)) result (checked is_key_count (number_at w16) bytes.now) }
{
    let (count, rest) = u16_of(bytes)?;
    if count as usize <= KEY_LIMIT {
        Ok((count, rest))
    } else {
        Err(Left(bytes.len()))
    }
}

// So many keys, rising, and what follows.
fn keys_of(alloc: Global, count: u16, bytes: &[u8]) -> Result<(Entries, &[u8]), Stop>
    ensures { Gives (λ x. (x.0, x.1.now)) result (keys_above_at None count bytes.now) }
{
    let mut entries = Entries::new(alloc);
    let mut last = None;
    let mut rest = bytes;
    for i in 0..count {
        let (key, after) = key_above_of(rest, &last)?;
        entries.push(key)?;
        last = Some(key);
        rest = after;
    }
    Ok((entries, rest))
}

/// Entries: their number and so many keys, each above the one before, and what follows.
#[tactic(auto, unfolding(crate::specs::Keys::entries_at))]
pub fn entries_of(alloc: Global, bytes: &[u8]) -> Result<(Entries, &[u8]), Stop>
    ensures { Gives (λ x. (x.0, x.1.now)) result (entries_at bytes.now) }
{
    let (count, rest) = key_count_of(bytes)?;
    keys_of(alloc, count, rest)
}
