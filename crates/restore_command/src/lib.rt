//! Restoring a version of a file from clouds that are reached over ports.
#![tactic(auto)]

mod fetching;
mod following;
mod greeted;
mod recalling;
mod restoring;
mod writing;

pub use following::law_of_fetched_files;
pub use restoring::restore;
