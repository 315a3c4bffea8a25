//! Writing a reply: each of these calls makes it the content, in place of what stood there, and takes no memory.

ghost use Rattle.std.specs.Prelude.{◌≡◌, ◌∷◌, ◌++◌, ◌+◌, ◌*◌, ◌<◌, ◌≤◌, length, All, IsTrue, ◌↔◌};
ghost use Rattle.std.specs.Int.{w16, to_be_bytes};
ghost use Rattle.std.specs.List.{flat_map};
ghost use Rattle.frames.specs.Frames.{frame_limit};
ghost use Rattle.message_fields.specs.Fingerprints.{batch_limit};
ghost use Rattle.message_fields.specs.Shares.{share_bytes, share_limit};
ghost use Rattle.message_fields.specs.Keys.{key_bytes, key_limit};
ghost use Rattle.messages.specs.declared.reply.Reply.TheVariants as replies;
ghost use Rattle.messages.specs.Replies.{IsReply, IsWritableReply, reply_bytes, room_number};

use frames::ReplyBuf;
use message_fields::{Fp, Room, Tag, Version};

// The kind of a reply that is a list, and the number of its items.
fn write_head(out: &mut ReplyBuf, kind: u8, count: usize)
    requires { count ≤ batch_limit }
    ensures { out.new ≡ kind ∷ to_be_bytes w16 count }
{
    out.clear();
    out.put(&[kind]);
    out.put(&(count as u16).to_be_bytes());
}

/// Begins Known: its kind and how many flags, at most 256, are to follow.
pub fn begin_known(out: &mut ReplyBuf, count: usize)
    requires { count ≤ batch_limit }
    ensures value { out.new ≡ 0x82 ∷ to_be_bytes w16 count }
    ensures len { length out.new ≡ 3 }
{
    write_head(out, 0x82, count);
}

/// Begins Shares: its kind and how many shares, at most 256, are to follow.
pub fn begin_shares(out: &mut ReplyBuf, count: usize)
    requires { count ≤ batch_limit }
    ensures value { out.new ≡ 0x89 ∷ to_be_bytes w16 count }
    ensures len { length out.new ≡ 3 }
{
    write_head(out, 0x89, count);
}

/// Appends a share of at most 8,208 bytes, behind its length.
pub fn append_share(out: &mut ReplyBuf, share: &[u8])
    requires few { length share.now ≤ share_limit }
    requires room { length out.old + 4 + length share.now ≤ frame_limit }
    ensures { out.new ≡ out.old ++ share_bytes share.now }
{
    out.put(&(share.len() as u32).to_be_bytes());
    out.put(share);
}

fn append_key(out: &mut ReplyBuf, key: &(Tag, Version))
    requires { length out.old + 40 ≤ frame_limit }
    ensures value { out.new ≡ out.old ++ key_bytes key.now }
    ensures grows { length out.new ≡ length out.old + 40 }
{
    out.put(&key.0.0);
    out.put(&key.1.0.to_be_bytes());
}

fn append_each_key(out: &mut ReplyBuf, keys: &[(Tag, Version)])
    requires { length out.old + length keys.now * 40 ≤ frame_limit }
    ensures { out.new ≡ out.old ++ flat_map key_bytes keys.now }
{
    for key in keys {
        append_key(out, key);
    }
}

/// Entries, with at most 256 keys.
pub fn write_entries(out: &mut ReplyBuf, keys: &[(Tag, Version)])
    requires { length keys.now ≤ key_limit }
    ensures { out.new ≡ reply_bytes (replies.Entries keys.now) }
{
    write_head(out, 0x8B, keys.len());
    append_each_key(out, keys);
}

/// Hello: the shape of the store, the number of the cloud and the format of its areas.
pub fn write_hello(out: &mut ReplyBuf, n: u8, k: u8, cloud: u8, format: u8)
    ensures { out.new ≡ reply_bytes (replies.Hello n k cloud format) }
{
    out.clear();
    out.put(&[0x81, n, k, cloud, format]);
}

/// Stored: so many shares, at most 256, were new to the user.
pub fn write_stored(out: &mut ReplyBuf, new: u16)
    requires { new ≤ batch_limit }
    ensures { IsReply out.new (replies.Stored new) }
{
    out.clear();
    out.put(&[0x83]);
    out.put(&new.to_be_bytes());
}

/// Committed: the version is entered, or stands with the same recipe already.
pub fn write_committed(out: &mut ReplyBuf)
    ensures { IsReply out.new replies.Committed }
{
    out.clear();
    out.put(&[0x84]);
}

/// Exists: the version stands with another recipe.
pub fn write_exists(out: &mut ReplyBuf)
    ensures { IsReply out.new replies.Exists }
{
    out.clear();
    out.put(&[0x85]);
}

/// Lacking: the user has not stored the share of the item at this place, counted from 0.
pub fn write_lacking(out: &mut ReplyBuf, place: u32)
    ensures { IsReply out.new (replies.Lacking place) }
{
    out.clear();
    out.put(&[0x86]);
    out.put(&place.to_be_bytes());
}

/// Recipe, of less than 4,194,304 bytes. A reply has one at least.
pub fn write_recipe(out: &mut ReplyBuf, recipe: &[u8])
    requires { length recipe.now < frame_limit }
    ensures spelled { out.new ≡ reply_bytes (replies.Recipe recipe.now) }
    ensures is { 1 ≤ length recipe.now → IsReply out.new (replies.Recipe recipe.now) }
{
    out.clear();
    out.put(&[0x87]);
    out.put(recipe);
}

/// Missing: the user has no such version.
pub fn write_missing(out: &mut ReplyBuf)
    ensures { IsReply out.new replies.Missing }
{
    out.clear();
    out.put(&[0x88]);
}

/// NotYours: the user has not stored the share at this place, counted from 0.
pub fn write_not_yours(out: &mut ReplyBuf, place: u16)
    ensures { IsReply out.new (replies.NotYours place) }
{
    out.clear();
    out.put(&[0x8A]);
    out.put(&place.to_be_bytes());
}

// The number of a room in a reply.
fn room_byte(room: Room) -> u8
    ensures { result ≡ room_number room }
{
    match room {
        Room::Shares => 1,
        Room::Recipes => 2,
        Room::Journal => 3,
        Room::Fps => 4,
        Room::Owners => 5,
        Room::Files => 6,
    }
}

/// Full: so much of a room is used, so much more would be needed, and this is its limit.
pub fn write_full(out: &mut ReplyBuf, room: Room, used: u64, need: u64, limit: u64)
    ensures { IsReply out.new (replies.Full room used need limit) }
{
    out.clear();
    out.put(&[0x8C, room_byte(room)]);
    out.put(&used.to_be_bytes());
    out.put(&need.to_be_bytes());
    out.put(&limit.to_be_bytes());
}

/// Fault: a device failed.
pub fn write_fault(out: &mut ReplyBuf)
    ensures spelled { out.new ≡ reply_bytes replies.Fault }
    ensures is { IsReply out.new replies.Fault }
{
    out.clear();
    out.put(&[0x8D]);
}

/// Damaged: the place of the damage in the journal, and the byte there.
pub fn write_damaged(out: &mut ReplyBuf, at: u64, byte: u8)
    ensures { IsReply out.new (replies.Damaged at byte) }
{
    out.clear();
    out.put(&[0x8E]);
    out.put(&at.to_be_bytes());
    out.put(&[byte]);
}

/// Rotten: the fingerprint that was named, and that of what was found.
pub fn write_rotten(out: &mut ReplyBuf, named: Fp, found: Fp)
    ensures { IsReply out.new (replies.Rotten named found) }
{
    out.clear();
    out.put(&[0x8F]);
    out.put(&named.0);
    out.put(&found.0);
}

/// Malformed: the content was no request, and this is the place of its first field that fails, counted from 0.
pub fn write_malformed(out: &mut ReplyBuf, at: u32)
    ensures spelled { out.new ≡ reply_bytes (replies.Malformed at) }
    ensures is { IsReply out.new (replies.Malformed at) }
{
    out.clear();
    out.put(&[0x90]);
    out.put(&at.to_be_bytes());
}

/// NoMemory: the cloud's memory ran out.
pub fn write_no_memory(out: &mut ReplyBuf)
    ensures { IsReply out.new replies.NoMemory }
{
    out.clear();
    out.put(&[0x91]);
}

/// Deleted: the version was taken out.
pub fn write_deleted(out: &mut ReplyBuf)
    ensures { IsReply out.new replies.Deleted }
{
    out.clear();
    out.put(&[0x92]);
}
