//! Bringing a user's versions back to a cloud that lost them: what k others have of them, entry by entry, and one version
//! to that cloud.
#![tactic(auto)]

mod entries;
mod error;
mod keys;
mod laws;
mod listing;
mod naming;
mod rebuilding;
mod skips;
mod target;
mod versions;

pub use entries::rebuild_entry;
pub use error::{RebuildErr, SkipWhy};
pub use kept_files::{RestoreErr, restore};
pub use keys::rebuild_keys;
pub use lane_steps::{Entries, Job, KEY_LIMIT, LaneNews, Link, ReplyBuf};
pub use laws::{law_of_found_versions, law_of_own_lanes, law_of_pages, law_of_refills};
pub use listing::fetch_page;
pub use rebuilding::rebuild;
pub use skips::{Rebuilt, Skip, Skips};
pub use target::{LaneBuffers, Refill, bring};
pub use versions::{FoundVersion, find_version};
