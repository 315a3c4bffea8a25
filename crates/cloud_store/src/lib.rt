//! One cloud's open store in the format with checkpoints: its memory and its disk, which serve one list of commands, and one
//! command more added to both. A checkpoint is made before a command exactly where its record doesn't fit the journal.
#![tactic(auto)]

mod commits;
mod deletes;
pub mod laws;
mod opening;
mod puts;
mod room;
mod store;
mod writing;

pub use checkpoints::{
    BodyBuf, CloudDisk, CloudMemory, CommitBody, DeleteBody, Header, New, OpenErr, PutItem, Start,
    UserRooms,
};
pub use cloud_opening::reopen;
pub use recipe::RecipeView;
pub use store::{CloudStore, Unadded};
