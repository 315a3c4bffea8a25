//! Reading a version of a file from the disks of k clouds or more, alone.
#![tactic(auto)]

mod end;
mod opening;
mod reading;
mod wanted;
mod writing;

pub use end::ReadEnd;
pub use reading::read_file;
pub use wanted::Wanted;
