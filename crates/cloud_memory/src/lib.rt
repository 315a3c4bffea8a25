//! What a server keeps in memory of its cloud, where each user has rooms of its own and versions can be deleted: where
//! each share lies, who owns it and how often the user's entries name it, the entries, and what each user has spent.
//!
//! A memory takes all it needs when it is made, and calls no device.
#![tactic(auto)]

mod asking;
mod cloud;
pub mod laws;
mod live;
mod moving;
mod owning;
mod places;
mod records;
mod rooms;
mod shared;
mod tables;
mod uses;

pub use cloud::CloudMemory;
pub use cloud_areas::{
    BodyBuf, BodyErr, BodyView, CONTAINER, CommitBody, DeleteBody, FoundItem, FoundKept, KeptItem,
    KeptItems, Link, Log, LogFull, Lost, PutItem, PutItems, REGION_LEN, SpentBody, UserRooms,
};
pub use file_index::{Entry, FileIndex, FileKey};
pub use recipe::RecipeView;
pub use rooms::{Full, New};
pub use share_index::ShareIndex;
pub use spent_table::{
    Bytes, CloudNo, Fp, NoMemory, Place, RECIPE_LIMIT, Room, Shape, Spent, SpentTable, Tag, UserId,
    Version, sha256,
};
