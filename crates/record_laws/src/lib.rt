//! What the records of a chain leave in a server's memory, and that each lawful record is taken. Nothing of it runs.
#![tactic(auto)]

pub mod laws;
pub mod taking;

pub use record_checks::{CloudMemory, Damage, Ground, Log, Spent, Taking, recipe_of, take};
