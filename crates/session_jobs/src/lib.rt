//! The jobs of a session, by their numbers.
#![tactic(auto)]

mod jobs;

pub use jobs::Jobs;
pub use lane_steps::{StepErr, law_of_lane_requests};
