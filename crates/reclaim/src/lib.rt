//! The space of what is dead is given back: what is alive of an open server's cloud is copied, and a checkpoint switches to
//! the copies.
#![tactic(auto)]

mod copying;

pub use copying::reclaim;
pub use share_server::{Bytes, CloudNo, Fp, NoMemory, ReclaimErr, Reclaimed, Shape, Shelf, Sink};
