//! The lines of a session's script, each carried out over the servers of this process and the jobs so far, with what a
//! transcript says of it.
#![tactic(auto)]

mod carry;
mod delete;
mod error;
mod finish;
mod get;
mod lanes;
mod listing;
mod news;
mod one;
mod rebuilding;
mod upload;

pub use carry::{Buffers, carry_out};
pub use error::CarryErr;
pub use session_jobs::Jobs;
pub use session_model::{
    LocalLink, Servers, law_of_acknowledged, law_of_moments, law_of_own_replies, law_of_parts,
};
