//! What a read is asked for.

use commit_journal::{Clouds, Shape, UserId, Version};

/// A version of a user's file, and the clouds that are to give it.
#[derive(Clone, Copy)]
pub struct Wanted<'a> {
    /// The shape of the store.
    pub shape: Shape,
    /// Whose file it is.
    pub user: UserId,
    /// The file's path.
    pub path: &'a [u8],
    /// The version.
    pub version: Version,
    /// The clouds that are read, as many as give a file back or more.
    pub clouds: &'a Clouds,
}
