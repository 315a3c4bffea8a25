//! Commands.

use journal_start::{Bytes, ShareList, Tag, UserId, Version};

/// What changed a cloud. A cloud is the list of its commands since its store was begun, in order; a migration or a reclaim puts
/// a shorter list in its place, of which the users see the same.
#[derive(Drop)]
pub enum Command {
    /// The user sent these shares, each of them new to the user.
    Put {
        user: UserId,
        shares: ShareList,
    },
    /// The user entered this recipe as a version of a file.
    Commit {
        user: UserId,
        tag: Tag,
        version: Version,
        recipe: Bytes,
    },
    /// The user took a version of a file out.
    Delete {
        user: UserId,
        tag: Tag,
        version: Version,
    },
}
