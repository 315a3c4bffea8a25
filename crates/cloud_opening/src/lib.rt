//! The opening of a cloud in the store's format with checkpoints: its areas are made sure of, its journal is read or begun, and
//! each record is checked and taken into a server's memory.
//!
//! No call takes memory.
#![tactic(auto)]

mod ends;
mod journal;
pub mod laws;
mod loading;
mod opening;
mod records;
mod syncs;
mod window;

pub use cloud_disk::{
    BodyBuf, Header, Journal, OpenErr, RecordErr, UserRooms, WINDOW, law_of_headers,
};
pub use opening::reopen;
pub use syncs::sync_all;
