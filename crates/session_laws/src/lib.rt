//! What follows of a session that was carried out: which of its finishes store, and what its disks give later. It is definitions and laws:
//! there is nothing to run.
#![tactic(auto)]

mod laws;

pub use laws::{law_of_finishes, law_of_left_disks};
