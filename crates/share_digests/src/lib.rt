//! The digests of a batch of shares, four at a time.
#![tactic(auto)]

mod batch;
mod order;
mod parts;

pub use batch::digests_of;
