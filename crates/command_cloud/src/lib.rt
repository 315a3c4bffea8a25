//! One cloud in a place, opened in the rooms that its journal has, with nothing begun; or why it isn't opened.
#![tactic(auto)]

mod lines;
mod opening;

pub use backup_command::{
    Ending, Failed, Line, Refusal, Shelf, Sink, Source, Word, put_first, write_ending, write_line,
    write_text,
};
pub use lines::{write_last, write_unopened};
pub use opening::{Unopened, open_cloud};
pub use serve_command::{OpenErr, Server, serve};
