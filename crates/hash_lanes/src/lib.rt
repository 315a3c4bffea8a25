//! SHA-256 (FIPS 180-4) of four messages at once, each in a lane of its own.
//!
//! The rounds of one message wait for one another, and those of four don't: four words in a vector take a round in about
//! the time that two words take alone.
#![tactic(auto)]

mod compression;
mod digests;
mod message;
mod rounds;
mod schedule;
mod words;

pub use digests::sha256_of_four;
