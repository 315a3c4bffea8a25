//! The certificate that a cloud would write now, of its memory alone: its text, and how it differs from another text.
#![tactic(auto)]

mod judging;
mod lines;
mod slots;
mod writing;

pub use judging::judge;
pub use writing::write_own;
