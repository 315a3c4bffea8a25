//! The lines of a session's transcript, and the lines with which a command ends.
#![tactic(auto)]

mod answer;
mod ending;
mod gathering;
mod laws;
mod line;
mod news;
mod phrase;
mod refusal;
mod spelling;
mod words;
mod writing;

pub use answer::Answer;
pub use cd_edges::{
    Area, Failed, Ports, Shelf, Sink, Source, Window, receive, send_all, write_all,
};
pub use ending::{Ending, write_ending};
pub use grammar::{Bytes, CloudNo, Clouds, FILE_LIMIT, NoMemory, Shape, UserId, Version};
pub use laws::law_of_lines;
pub use line::{Line, SkipWord};
pub use news::News;
pub use refusal::{Refusal, TargetWhy};
pub use words::{Word, put_first};
pub use writing::write_line;
