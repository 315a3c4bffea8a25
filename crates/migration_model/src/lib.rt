//! What a migration of format 1 makes of a cloud, and which user keeps too much for it.
#![tactic(auto)]

pub mod laws;
