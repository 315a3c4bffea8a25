//! A session of many backups, made from a seed, and its summary.
#![tactic(auto)]

mod carrying;
mod counting;
mod drawing;
mod generating;
mod numbers;
mod summary;

pub use generating::generate;
pub use numbers::Numbers;
pub use replay_core::{Buffers, Jobs, LocalLink, ReplayEnd, UserRooms, carry_out, read_line};
pub use subset_restore::Answer;
