//! Each blob that a cloud's memory names, read from the device and hashed.
#![tactic(auto)]

mod comparing;
mod errors;
mod held;
mod judging;
mod order;
mod pieces;
mod reading;
mod slots;

pub use audit_base::CheckErr;
pub use errors::ReadErr;
pub use reading::{read_good, read_stored};
