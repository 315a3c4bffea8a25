//! Reading a reply.

ghost use Rattle.std.specs.Prelude.{◌≡◌, ◌≢◌, ◌<◌, ◌^◌, ℕ, false, length, IsErr, IfErr, IfOk, Ok, Err, ◌↔◌};
ghost use Rattle.std.specs.Int.{w16};
ghost use Rattle.message_fields.specs.Grammar.Readers.{Gives, done_at};
ghost use Rattle.message_fields.specs.Grammar.Fields.{number_at, checked};
ghost use Rattle.message_fields.specs.Parts.{byte_as};
ghost use Rattle.message_fields.specs.Readings.{IsReadingSeenBy};
ghost use Rattle.messages.specs.declared.reply.Reply.{Reply};
ghost use Rattle.messages.specs.Replies.{IsReply};
ghost use Rattle.messages.specs.ReplyReading.{format_of, room_of, is_new_count, hello_left, known_left, stored_left, lacking_left, recipe_left, shares_left, not_yours_left, entries_left, full_left, damaged_left, rotten_left, malformed_left, plain_left, reply_left, reply_at, is_of_entries};
ghost use Rattle.messages.specs.Outcome.{IsMessageRead};
ghost use Rattle.messages.specs.ReplyViews.{IsInPlace, IsSmall, IsViewed, seen_reply};

use crate::copies::{bytes_copy, shares_copy};
use crate::{MsgErr, Reply, ReplyView};
use message_fields::{
    BATCH_LIMIT, Left, NoMemory, Room, Stop, byte_of, ended, entries_of, flags_of, fp_of,
    shares_of, u16_of, u32_of, u64_of,
};
use std::alloc::Global;

// The format, which is 1.
fn format_byte_of(bytes: &[u8]) -> Result<(u8, &[u8]), Left>
    ensures { IsReadingSeenBy (λ x. (x.0, x.1.now)) result (byte_as format_of bytes.now) }
{
    match bytes {
        [] => Err(Left(0)),
        [1, rest @ ..] => Ok((1, rest)),
        _ => Err(Left(bytes.len())),
    }
}

// A room's number, from 1 to 6.
fn room_byte_of(bytes: &[u8]) -> Result<(Room, &[u8]), Left>
    ensures { IsReadingSeenBy (λ x. (x.0, x.1.now)) result (byte_as room_of bytes.now) }
{
    match bytes {
        [] => Err(Left(0)),
        [1, rest @ ..] => Ok((Room::Shares, rest)),
        [2, rest @ ..] => Ok((Room::Recipes, rest)),
        [3, rest @ ..] => Ok((Room::Journal, rest)),
        [4, rest @ ..] => Ok((Room::Fps, rest)),
        [5, rest @ ..] => Ok((Room::Owners, rest)),
        [6, rest @ ..] => Ok((Room::Files, rest)),
        _ => Err(Left(bytes.len())),
    }
}

// A number from 0 to 256.
fn new_count_of(bytes: &[u8]) -> Result<(u16, &[u8]), Left>
    ensures { IsReadingSeenBy (λ x. (x.0, x.1.now)) result (checked is_new_count (number_at w16) bytes.now) }
{
    let (new, rest) = u16_of(bytes)?;
    if new as usize <= BATCH_LIMIT {
        Ok((new, rest))
    } else {
        Err(Left(bytes.len()))
    }
}

#[tactic(auto, unfolding(crate::specs::ReplyReading::hello_left))]
fn hello_of(fields: &[u8]) -> Result<Reply, Left>
    ensures value { IsReadingSeenBy (λ r. r) result (hello_left fields.now) }
    ensures small { IfOk result IsSmall }
{
    let (n, rest) = byte_of(fields)?;
    let (k, rest) = byte_of(rest)?;
    let (cloud, rest) = byte_of(rest)?;
    let (format, rest) = format_byte_of(rest)?;
    ended(rest)?;
    Ok(Reply::Hello {
        n,
        k,
        cloud,
        format,
    })
}

#[tactic(auto, unfolding(crate::specs::ReplyReading::known_left))]
fn known_of(alloc: Global, fields: &[u8]) -> Result<Reply, Stop>
    ensures value { Gives (λ r. r) result (known_left fields.now) }
    ensures memory { IsErr (known_left fields.now) → IfErr result (λ e. e ≢ Stop.Memory) }
    ensures small { IfOk result IsSmall }
{
    let (flags, rest) = flags_of(fields)?;
    ended(rest)?;
    let flags = bytes_copy(alloc, flags)?;
    Ok(Reply::Known { flags })
}

#[tactic(auto, unfolding(crate::specs::ReplyReading::stored_left))]
fn stored_of(fields: &[u8]) -> Result<Reply, Left>
    ensures value { IsReadingSeenBy (λ r. r) result (stored_left fields.now) }
    ensures small { IfOk result IsSmall }
{
    let (new, rest) = new_count_of(fields)?;
    ended(rest)?;
    Ok(Reply::Stored { new })
}

#[tactic(auto, unfolding(crate::specs::ReplyReading::lacking_left))]
fn lacking_of(fields: &[u8]) -> Result<Reply, Left>
    ensures value { IsReadingSeenBy (λ r. r) result (lacking_left fields.now) }
    ensures small { IfOk result IsSmall }
{
    let (place, rest) = u32_of(fields)?;
    ended(rest)?;
    Ok(Reply::Lacking { place })
}

#[tactic(auto, unfolding(crate::specs::ReplyReading::recipe_left))]
fn recipe_of(fields: &[u8]) -> Result<ReplyView<'_>, Left>
    ensures value { IsReadingSeenBy seen_reply result (recipe_left fields.now) }
    ensures in_place { IfOk result IsInPlace }
{
    match fields {
        [] => Err(Left(0)),
        _ => Ok(ReplyView::Recipe(fields)),
    }
}

#[tactic(auto, unfolding(crate::specs::ReplyReading::shares_left))]
fn shares_in(fields: &[u8]) -> Result<ReplyView<'_>, Left>
    ensures value { IsReadingSeenBy seen_reply result (shares_left fields.now) }
    ensures in_place { IfOk result IsInPlace }
{
    let (shares, rest) = shares_of(fields)?;
    ended(rest)?;
    Ok(ReplyView::Shares(shares))
}

#[tactic(auto, unfolding(crate::specs::ReplyReading::not_yours_left))]
fn not_yours_of(fields: &[u8]) -> Result<Reply, Left>
    ensures value { IsReadingSeenBy (λ r. r) result (not_yours_left fields.now) }
    ensures small { IfOk result IsSmall }
{
    let (place, rest) = u16_of(fields)?;
    ended(rest)?;
    Ok(Reply::NotYours { place })
}

#[tactic(auto, unfolding(crate::specs::ReplyReading::entries_left))]
fn reply_entries_of(alloc: Global, fields: &[u8]) -> Result<Reply, Stop>
    ensures value { Gives (λ r. r) result (entries_left fields.now) }
    ensures small { IfOk result IsSmall }
{
    let (entries, rest) = entries_of(alloc, fields)?;
    ended(rest)?;
    Ok(Reply::Entries { entries })
}

#[tactic(auto, unfolding(crate::specs::ReplyReading::full_left))]
fn full_of(fields: &[u8]) -> Result<Reply, Left>
    ensures value { IsReadingSeenBy (λ r. r) result (full_left fields.now) }
    ensures small { IfOk result IsSmall }
{
    let (room, rest) = room_byte_of(fields)?;
    let (used, rest) = u64_of(rest)?;
    let (need, rest) = u64_of(rest)?;
    let (limit, rest) = u64_of(rest)?;
    ended(rest)?;
    Ok(Reply::Full {
        room,
        used,
        need,
        limit,
    })
}

#[tactic(auto, unfolding(crate::specs::ReplyReading::damaged_left))]
fn damaged_of(fields: &[u8]) -> Result<Reply, Left>
    ensures value { IsReadingSeenBy (λ r. r) result (damaged_left fields.now) }
    ensures small { IfOk result IsSmall }
{
    let (at, rest) = u64_of(fields)?;
    let (byte, rest) = byte_of(rest)?;
    ended(rest)?;
    Ok(Reply::Damaged { at, byte })
}

#[tactic(auto, unfolding(crate::specs::ReplyReading::rotten_left))]
fn rotten_of(fields: &[u8]) -> Result<Reply, Left>
    ensures value { IsReadingSeenBy (λ r. r) result (rotten_left fields.now) }
    ensures small { IfOk result IsSmall }
{
    let (named, rest) = fp_of(fields)?;
    let (found, rest) = fp_of(rest)?;
    ended(rest)?;
    Ok(Reply::Rotten { named, found })
}

#[tactic(auto, unfolding(crate::specs::ReplyReading::malformed_left))]
fn malformed_of(fields: &[u8]) -> Result<Reply, Left>
    ensures value { IsReadingSeenBy (λ r. r) result (malformed_left fields.now) }
    ensures small { IfOk result IsSmall }
{
    let (at, rest) = u32_of(fields)?;
    ended(rest)?;
    Ok(Reply::Malformed { at })
}

// A reply without fields.
fn bare_of(fields: &[u8], reply: Reply) -> Result<Reply, Left>
    requires { IsSmall reply }
    ensures value { IsReadingSeenBy (λ r. r) result (done_at reply fields.now) }
    ensures small { IfOk result IsSmall }
{
    ended(fields)?;
    Ok(reply)
}

// A reply of a kind that takes no memory, or that is unknown; the content is the kind and the fields.
#[tactic(auto, unfolding(crate::specs::ReplyReading::plain_left))]
fn plain_of(kind: u8, fields: &[u8]) -> Result<Reply, Left>
    requires { length fields.now < 2 ^ 32 }
    ensures value { IsReadingSeenBy (λ r. r) result (plain_left kind fields.now) }
    ensures small { IfOk result IsSmall }
{
    match kind {
        0x81 => hello_of(fields),
        0x83 => stored_of(fields),
        0x84 => bare_of(fields, Reply::Committed),
        0x85 => bare_of(fields, Reply::Exists),
        0x86 => lacking_of(fields),
        0x88 => bare_of(fields, Reply::Missing),
        0x8A => not_yours_of(fields),
        0x8C => full_of(fields),
        0x8D => bare_of(fields, Reply::Fault),
        0x8E => damaged_of(fields),
        0x8F => rotten_of(fields),
        0x90 => malformed_of(fields),
        0x91 => bare_of(fields, Reply::NoMemory),
        0x92 => bare_of(fields, Reply::Deleted),
        _ => Err(Left(fields.len() + 1)),
    }
}

#[tactic(auto, unfolding(crate::specs::ReplyReading::reply_fields_left, crate::specs::ReplyReading::reply_left))]
fn view_of(alloc: Global, content: &[u8]) -> Result<ReplyView<'_>, Stop>
    requires { length content.now < 2 ^ 32 }
    ensures value { Gives seen_reply result (reply_left content.now) }
    ensures memory { is_of_entries content.now ≡ false → IsErr (reply_left content.now)
        → IfErr result (λ e. e ≢ Stop.Memory) }
    ensures in_place { IfOk result IsInPlace }
{
    match content {
        [] => Err(Stop::Left(0)),
        [0x82, fields @ ..] => Ok(ReplyView::Other(known_of(alloc, fields)?)),
        [0x87, fields @ ..] => Ok(recipe_of(fields)?),
        [0x89, fields @ ..] => Ok(shares_in(fields)?),
        [0x8B, fields @ ..] => Ok(ReplyView::Other(reply_entries_of(alloc, fields)?)),
        [kind, fields @ ..] => Ok(ReplyView::Other(plain_of(*kind, fields)?)),
    }
}

impl<'a> ReplyView<'a> {
    /// The reply that the content is, all of it, as `Reply::read` says it; memory is taken for flags and entries alone.
    #[tactic(auto, unfolding(crate::specs::ReplyReading::reply_at))]
    pub fn read(alloc: Global, content: &'a [u8]) -> Result<ReplyView<'a>, MsgErr>
        requires { length content.now < 2 ^ 32 }
        ensures reads { IsViewed result (reply_at content.now) }
        ensures in_place { IfOk result IsInPlace }
        // Want of memory is no answer to content that is none, but to entries, which are read one by one.
        ensures malformed { (at : ℕ) → reply_at content.now ≡ Err at → is_of_entries content.now ≡ false
            → result ≢ Err MsgErr.NoMemory }
        // Content is read as the reply that it is the spelling of, and no other content is read.
        ensures grammar { (r : Reply) → (reply_at content.now ≡ Ok r) ↔ IsReply content.now r }
    {
        match view_of(alloc, content) {
            Ok(view) => Ok(view),
            Err(Stop::Memory) => Err(MsgErr::NoMemory),
            Err(Stop::Left(left)) => Err(MsgErr::Malformed {
                at: content.len().saturating_sub(left) as u32,
            }),
        }
    }

    /// The reply with memory of its own.
    pub fn into_reply(self, alloc: Global) -> Result<Reply, NoMemory>
        ensures { IfOk result (λ r. r ≡ seen_reply self.entry) }
    {
        match self {
            ReplyView::Recipe(bytes) => {
                let bytes = bytes_copy(alloc, bytes)?;
                Ok(Reply::Recipe { bytes })
            }
            ReplyView::Shares(shares) => {
                let shares = shares_copy(alloc, &shares)?;
                Ok(Reply::Shares { shares })
            }
            ReplyView::Other(reply) => Ok(reply),
        }
    }
}

impl Reply {
    /// The reply that the content is, all of it. Malformed comes exactly where it is none: fields are read in order; an unknown
    /// kind gives 0; a field that lacks bytes gives the length of the content, one out of its range its first place; bytes behind
    /// the last field give the place of the first of them. Of entries that do not rise, the tag is wrong where it is less than
    /// the one before, and else the version.
    pub fn read(alloc: Global, content: &[u8]) -> Result<Reply, MsgErr>
        requires { length content.now < 2 ^ 32 }
        ensures reads { IsMessageRead result (reply_at content.now) }
        // Want of memory is no answer to content that is none, but to entries, which are read one by one.
        ensures malformed { (at : ℕ) → reply_at content.now ≡ Err at → is_of_entries content.now ≡ false
            → result ≢ Err MsgErr.NoMemory }
        // Content is read as the reply that it is the spelling of, and no other content is read.
        ensures grammar { (r : Reply) → (reply_at content.now ≡ Ok r) ↔ IsReply content.now r }
    {
        match ReplyView::read(alloc, content) {
            Ok(view) => match view.into_reply(alloc) {
                Ok(reply) => Ok(reply),
                Err(NoMemory) => Err(MsgErr::NoMemory),
            },
            Err(error) => Err(error),
        }
    }
}
