//! Which lists of commands the areas of a cloud stand for, in the store's format with checkpoints: the records of the
//! current half's chain say a list, and what they place lies in the areas. Nothing of it runs.
#![tactic(auto)]

pub mod laws;
pub mod peers;
mod regions;

pub use container_log::{CONTAINER, Log, LogFull};
pub use journal_halves::UserRooms;
pub use record_body::{
    BodyBuf, BodyErr, BodyView, CommitBody, DeleteBody, FoundItem, FoundKept, KeptItem, KeptItems,
    PutItem, PutItems, SpentBody,
};
pub use regions::{LEAST_RECIPES, LEAST_SHARES, REGION_LEN};
pub use user_dedup::{Link, Lost};
