//! The words of the program's commands.
#![tactic(auto)]

mod command;
mod fields;
mod laws;
mod rows;

pub use command::{
    AskedCommand, BackupWords, CloudWords, DeleteWords, GenerateWords, MigrateWords, ReadWords,
    RestoreWords, ResumeWords, ServeWords, SpoolWords,
};
pub use laws::law_of_words;
pub use rows::read_words;
pub use session::{
    Answer, Bytes, CloudNo, Ending, Line, News, NoMemory, Refusal, SkipWord, TargetWhy, UserId,
    UserRooms, write_ending, write_line,
};
