//! Deleting a version of a file from clouds that are reached over ports.
#![tactic(auto)]

mod asking;
mod carrying;
mod deleting;
mod lines;
mod writing;

pub use deleting::delete;
pub use ports_link::{Area, Failed, Ports, Shelf, Sink, Source, write_all};
