//! Backing a file up to clouds that are reached over ports.
#![tactic(auto)]

mod backing;
mod carrying;
mod halt;
mod lanes;
mod news;
mod reading;
mod writing;

pub use backing::backup;
pub use halt::Halt;
pub use lane_steps::{FileBytes, law_of_resumed_lanes};
pub use lanes::{bring_one, next_line};
pub use news::{put_lane, put_line};
pub use ports_link::{
    AskedClouds, Greeted, MeetErr, PortsLink, Refused, ReplyBuf, lines_of, meet_all,
};
pub use reading::{FileReadErr, read_file};
pub use transcript::{
    Area, Bytes, CloudNo, Ending, Failed, Line, NoMemory, Ports, Refusal, Shape, Shelf, Sink,
    Source, Word, put_first, write_ending, write_line,
};
pub use writing::{write_hello, write_text, write_too_long};
