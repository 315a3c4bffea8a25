//! Replies.

use message_fields::{Bytes, Entries, Fp, Room, ShareList};

/// What a cloud answers.
#[derive(Drop)]
pub enum Reply {
    /// To Hello: the shape of the store, the number of the cloud and the format of its areas, which is 1.
    Hello {
        n: u8,
        k: u8,
        cloud: u8,
        format: u8,
    },
    /// To Query: for each fingerprint 1 where the user has stored it there, and else 0.
    Known {
        flags: Bytes,
    },
    /// To Put: the shares are kept, and so many of them, at most 256, were new to the user.
    Stored {
        new: u16,
    },
    /// To Commit: the version is entered, or stands with the same recipe already.
    Committed,
    /// To Commit: the version stands with another recipe.
    Exists,
    /// To Commit: the user has not stored the share of the item at this place, counted from 0, which is the first such.
    Lacking {
        place: u32,
    },
    /// To GetRecipe: the recipe, of one byte at least.
    Recipe {
        bytes: Bytes,
    },
    /// To GetRecipe and Delete: the user has no such version.
    Missing,
    /// To GetShares: the shares, 1 to 256 of them, each of 1 to 8,208 bytes.
    Shares {
        shares: ShareList,
    },
    /// To GetShares: the user has not stored the share at this place, counted from 0, which is the first such.
    NotYours {
        place: u16,
    },
    /// To List: the next of the user's files, at most 256, rising.
    Entries {
        entries: Entries,
    },
    /// To Put and Commit: so much of a room is used, so much more would be needed, and this is its limit.
    Full {
        room: Room,
        used: u64,
        need: u64,
        limit: u64,
    },
    /// A device of the cloud failed.
    Fault,
    /// The cloud's journal is damaged: the place of the damage and the byte there.
    Damaged {
        at: u64,
        byte: u8,
    },
    /// What the cloud kept is another: the fingerprint that its record names, and that of what was found.
    Rotten {
        named: Fp,
        found: Fp,
    },
    /// The content was no request: the place of the first field that fails, counted from 0.
    Malformed {
        at: u32,
    },
    /// The cloud's memory ran out.
    NoMemory,
    /// To Delete: the version was taken out.
    Deleted,
}
