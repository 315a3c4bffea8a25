//! Backing a file up to clouds that are reached over ports, with the file and what was done kept at the client, and going
//! on from there.
#![tactic(auto)]

mod bringing;
mod going;
mod interruption;
mod noting;
mod resuming;
mod spooling;
mod writing;

pub use backup_command::backup;
pub use resuming::resume;
pub use spooling::{SpooledFile, spool};
pub use upload_spool::{Job, Spool, SpoolErr};
