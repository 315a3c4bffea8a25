//! What an index is asked by, and what it answers.

use cd_base::{Fp, Tag, UserId, Version};
use pool_map::Key;

/// A version of a user's file, in the order of users, tags and versions.
#[derive(Clone, Copy, PartialEq, Eq, PartialOrd, Ord)]
pub struct FileKey {
    pub user: u32,
    pub tag: [u8; 32],
    pub version: u64,
}

/// Where the recipe of a version lies among a cloud's recipes: its first byte's place and its length in bytes, and its SHA-256.
#[derive(Clone, Copy, PartialEq, Eq)]
pub struct Entry {
    pub at: u64,
    pub len: u32,
    pub fp: Fp,
}

impl FileKey {
    ghost use Rattle.std.specs.Prelude.{◌≡◌, length, replicate};
    ghost use Rattle.file_index.specs.Files.{key_of};

    /// The key of a version of a user's file.
    pub fn of(user: UserId, tag: &Tag, version: Version) -> FileKey
        ensures key { result ≡ key_of user.0 tag.now.0 version.0 }
        ensures tag { length result.tag ≡ 32 }
    {
        FileKey {
            user: user.0,
            tag: tag.0,
            version: version.0,
        }
    }

    // A key that no key of the user's is below.
    pub(crate) fn least_of(user: UserId) -> FileKey
        ensures { result ≡ key_of user.0 (replicate 32 0) 0 }
    {
        FileKey {
            user: user.0,
            tag: [0; 32],
            version: 0,
        }
    }
}

/// The word is the tag's first 8 bytes, turned by the user's number and by the version: the versions of one path, of all
/// users, are spread.
impl Key for FileKey {
    ghost use Rattle.file_index.specs.Order.{key_word, key_exact};

    ghost word_of = { key_word };

    ghost exact = { key_exact };

    fn word(&self) -> u64 {
        self.tag
            .word()
            .wrapping_add((self.user as u64).wrapping_mul(14029467366897019727))
            .wrapping_add(self.version.wrapping_mul(11400714819323198485))
    }
}
