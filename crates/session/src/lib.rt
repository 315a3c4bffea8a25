//! A session's script and its transcript: the lines of a script, what each of them says, and the lines that answer it.
#![tactic(auto)]

mod event;
mod front;
mod header;
mod kinds;
mod laws;
mod limits;
mod lines;
mod long;
mod reading;

pub use event::Event;
pub use header::shape_field;
pub use journal_start::{
    Bytes, CloudNo, Clouds, Fp, MOST_FILES, MOST_OWNERS, MOST_RECIPES, MOST_SHARES, NoMemory,
    Shape, Stop, Tag, UserId, UserRooms, Version, after, before, cut_word, encode, is_path, len_to,
    number_of, u32_field, u64_field,
};
pub use kinds::{cloud_field, literal_field};
pub use laws::law_of_scripts;
pub use lines::{LineErr, LineReader};
pub use reading::{ScriptErr, read_header, read_line};
pub use transcript::{
    Answer, Ending, Failed, Line, News, Refusal, Shelf, SkipWord, TargetWhy, Word, put_first,
    write_ending, write_line,
};
