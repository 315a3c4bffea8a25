//! The program's call: it runs the words that are given to cdstore.
#![tactic(auto)]

mod audits;
mod clients;
mod ending;
mod generate;
mod migrates;
mod read;
mod reclaims;
mod serve;
mod spool;
mod top;

pub use command_words::UserRooms;
pub use migrate_command::{OpenErr, Server};
pub use top::run;
