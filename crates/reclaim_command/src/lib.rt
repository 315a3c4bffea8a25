//! The dead space of a cloud in a place given back: the cloud is opened in its own rooms, nothing is begun, and what is alive
//! is copied and switched to.
#![tactic(auto)]

mod lines;
mod reclaiming;

pub use reclaiming::reclaim_cloud;
