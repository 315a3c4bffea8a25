//! What the records of a chain of format 1 leave in a server's memory, and that each lawful record is taken. Nothing of it
//! runs.
#![tactic(auto)]

pub mod laws;
pub mod standing;
pub mod taking;

pub use first_records::{CloudMemory, Damage, FirstErr, Ground, recipe_of, take};
