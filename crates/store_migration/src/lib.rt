//! A cloud that was written in format 1, taken over into format 2 in place: its journal is read, and a checkpoint of what its
//! list has come to takes the chain's place. Shares and Recipes aren't written.
#![tactic(auto)]

mod errors;
mod finding;
mod headers;
mod kit;
pub mod laws;
mod migrating;
mod reading;
mod recipes;
mod records;

pub use cloud_opening::UserRooms;
pub use errors::{MigrateErr, OldErr};
pub use fresh_checkpoints::{Bytes, CloudNo, NoMemory, Room, Shape, Shelf, Sink, UserId};
pub use migrating::migrate;
