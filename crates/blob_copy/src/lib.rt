//! What is alive of an open store is copied to the other region, and a checkpoint switches to the copies.
#![tactic(auto)]

mod copying;
pub mod laws;
mod room;
mod staging;
mod steps;
mod switching;

pub use copying::{CopyErr, Copying};
pub use fresh_checkpoints::{
    FindErr, Found, Reclaimed, WINDOW, find, law_of_headers, law_of_peers,
};
pub use steps::{forget, start, step, sum};
pub use switching::switch;
