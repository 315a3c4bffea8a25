//! The journal of a cloud in two halves: a chain of records in the current half, and a checkpoint that is laid in the other
//! and takes its place.
//!
//! Only `Journal::make` takes memory.
#![tactic(auto)]

mod area;
mod errors;
mod journal;
mod open;
mod piece;
mod starts;
mod writer;
mod writing;

pub use errors::OpenErr;
pub use journal::{Journal, Stage};
pub use journal_halves::{
    Area, Bytes, Checkpoint, CloudNo, Clouds, Failed, FindErr, Found, HALF_LEN, Header,
    MOST_OWNERS, NoMemory, Place, Ports, RECIPE_LIMIT, RecordErr, Room, Shape, Shelf, Sink, Source,
    Start, UserId, UserRooms, Version, WINDOW, find, half_limit, write_all, write_synced,
};
pub use piece::PIECE;
pub use writer::CheckpointWriter;
