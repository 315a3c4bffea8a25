//! One record of a journal with checkpoints, checked and taken into a server's memory.
//!
//! No call takes memory. A record comes from a disk: whatever its bytes are, the answer is exact.
#![tactic(auto)]

mod commits;
mod damage;
mod ground;
mod items;
mod kepts;
pub mod laws;
mod limits;
mod noting;
mod places;
mod puts;
mod record;
mod taking;

pub use cloud_memory::{
    BodyBuf, BodyErr, BodyView, Bytes, CloudMemory, CommitBody, DeleteBody, Fp, KeptItem,
    KeptItems, Log, NoMemory, Place, PutItem, PutItems, RecipeView, Shape, Spent, Tag, UserId,
    UserRooms, Version, sha256,
};
pub use commits::{commit_fault, named, whole};
pub use damage::Damage;
pub use ground::Ground;
pub use items::item_fault;
pub use kepts::kept_fault;
pub use places::{first_of, lies};
pub use record::{recipe_of, take};
pub use taking::Taking;
