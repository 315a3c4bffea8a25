//! A session over clouds, run from its script.
#![tactic(auto)]

mod first;
mod lines;
mod script;
mod writing;

pub use replay_core::{Buffers, Jobs, LocalLink, ReplayEnd, UserRooms, carry_out, read_line};
pub use script::replay;
