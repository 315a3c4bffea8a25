//! Compact lists: how many commands they have, what their users own, have and spend.
#![tactic(auto)]

pub mod laws;

pub use user_dedup::{CloudNo, Fp, Place, UserId, UserRooms, sha256};
