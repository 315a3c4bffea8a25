//! Which user is the first that keeps more than some rooms allow, by what a server remembers of its cloud.
#![tactic(auto)]

mod large;
pub mod laws;

pub use large::{TooLarge, first_too_large};
