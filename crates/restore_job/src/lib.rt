//! Bringing a version of a file back from k clouds. Replies are checked before they are believed: their kinds, the lengths and
//! hashes of shares, and at last each secret by itself.
#![tactic(auto)]

mod batch;
mod comparing;
mod error;
mod fetching;
mod opening;
mod recipes;
mod reply;
mod restoring;
mod rooms;
mod shares;
mod sources;
mod versions;

pub use caont_rs::tag_of;
pub use comparing::compare;
pub use error::RestoreErr;
pub use recipes::Recipes;
pub use restoring::{restore, restore_agreed};
pub use user_dedup::{Link, Lost};
pub use versions::fetch_version;
