//! One record of a journal of format 1, checked and taken into a server's memory whose users share one account.
//!
//! No call takes memory. A record comes from a disk: whatever its bytes are, the answer is exact.
#![tactic(auto)]

mod commits;
mod damage;
mod errors;
mod kepts;
pub mod laws;
mod limits;
mod puts;
mod record;

pub use errors::FirstErr;
pub use record::take;
pub use record_checks::{CloudMemory, Damage, Ground, recipe_of};
