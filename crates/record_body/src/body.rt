//! The values of bodies, and why bytes are no body.

use message_fields::{Fp, Place, Tag, UserId, Version};

/// A share of a Put: its fingerprint, and where the share now lies if it was placed nowhere before. A place names 1 to 8,208
/// bytes.
#[derive(Clone, Copy, Debug, PartialEq, Eq)]
pub struct PutItem {
    /// The share's fingerprint.
    pub fp: Fp,
    /// Where it now lies. None where it was placed before.
    pub place: Option<Place>,
}

/// A share of a Put, with the places of its fields in the body, counted from 0.
#[derive(Clone, Copy, Debug, PartialEq, Eq)]
pub struct FoundItem {
    /// The share.
    pub item: PutItem,
    /// The first byte of its fingerprint.
    pub fp_at: usize,
    /// Its flag.
    pub flag_at: usize,
    /// The byte behind its flag: the first one of its place, if it has one.
    pub place_at: usize,
}

/// A Commit: a version of a user's file, and where its recipe lies. The recipe has at least 1 byte.
#[derive(Clone, Copy, Debug, PartialEq, Eq)]
pub struct CommitBody {
    /// The user.
    pub user: UserId,
    /// The tag of the file's name.
    pub tag: Tag,
    /// The file's version.
    pub version: Version,
    /// The place of the recipe's first byte.
    pub at: u64,
    /// The recipe's length in bytes.
    pub len: u32,
    /// The recipe's SHA-256.
    pub fp: Fp,
}

/// A Delete: the version of a user's file that is taken out.
#[derive(Clone, Copy, Debug, PartialEq, Eq)]
pub struct DeleteBody {
    /// The user.
    pub user: UserId,
    /// The tag of the file's name.
    pub tag: Tag,
    /// The file's version.
    pub version: Version,
}

/// A share of a Kept, which no user owns: its fingerprint, and where the share lies. A place names 1 to 8,208 bytes.
#[derive(Clone, Copy, Debug, PartialEq, Eq)]
pub struct KeptItem {
    /// The share's fingerprint.
    pub fp: Fp,
    /// Where it lies.
    pub place: Place,
}

/// A share of a Kept, with the places of its fields in the body, counted from 0.
#[derive(Clone, Copy, Debug, PartialEq, Eq)]
pub struct FoundKept {
    /// The share.
    pub item: KeptItem,
    /// The first byte of its fingerprint.
    pub fp_at: usize,
    /// The first byte of its place.
    pub place_at: usize,
}

/// A Spent: what a user has spent.
#[derive(Clone, Copy, Debug, PartialEq, Eq)]
pub struct SpentBody {
    /// The user.
    pub user: UserId,
    /// How many shares the user put.
    pub owners: u32,
    /// How many bytes these have.
    pub shares: u64,
    /// How many bytes the user's recipes have.
    pub recipes: u64,
}

/// Why bytes are no body. Fields are read in order, and the first that fails counts.
#[derive(Clone, Copy, Debug, PartialEq, Eq)]
pub enum BodyErr {
    /// A field is none of its kind or out of its range: the place of its first byte, counted from 0.
    Field { at: usize },
    /// A field lacks bytes.
    Short,
    /// All fields are read, and bytes are left: the place of the first of them.
    Extra { at: usize },
}
