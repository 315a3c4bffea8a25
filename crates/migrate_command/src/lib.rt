//! A cloud in a place that was written in format 1, taken over into format 2: what came of it as a line, and the status.
#![tactic(auto)]

mod lines;
mod migrating;

pub use command_cloud::{OpenErr, Server, serve};
pub use migrating::migrate_cloud;
