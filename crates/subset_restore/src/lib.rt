//! Bringing a version of a file back from any k of some clouds: one choice of k after another, so that clouds which lack
//! it, are damaged or don't answer are passed over.
#![tactic(auto)]

mod chosen;
mod laws;
mod refusal;
mod refusals;
mod restoring;
mod trying;

pub use laws::law_of_subsets;
pub use refusal::as_refusal;
pub use restore_job::{Link, Lost, RestoreErr, restore, tag_of};
pub use restoring::restore_any;
pub use transcript::{Answer, Line, Refusal, write_line};
