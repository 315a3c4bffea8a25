//! An upload that outlives its client: a job and which of its lanes were committed, kept in a folder of the client's own.
#![tactic(auto)]

mod beginning;
mod error;
pub mod laws;
mod opening;
mod records;
mod spool;

pub use commit_journal::{Area, Failed, Ports, Shelf, Sink, Source};
pub use error::SpoolErr;
pub use grammar::{Bytes, CloudNo, NoMemory, Shape, UserId, Version};
pub use records::{JobRecord, RecordFault, read_job, read_lane};
pub use spool::Spool;
pub use upload_job::{Job, LaneNews};
