//! The disk's half of a server in the store's format with checkpoints: a cloud's three areas as the list of commands that
//! they stand for, and one command more added to them. Whenever a crash comes it leaves the list, or the list with that
//! command.
#![tactic(auto)]

mod disk;
mod flush;
pub mod laws;

pub use cloud_areas::laws::{
    law_of_checkpoints, law_of_headers, law_of_laying, law_of_numbers, law_of_places,
    law_of_standing,
};
pub use cloud_areas::peers::law_of_peers;
pub use cloud_areas::{
    BodyBuf, CommitBody, DeleteBody, LEAST_RECIPES, LEAST_SHARES, Log, LogFull, PutItem, REGION_LEN,
};
pub use commit_journal::{
    Area, Bytes, CloudNo, Failed, FindErr, Found, HALF_LEN, Header, Journal, MOST_OWNERS, NoMemory,
    OpenErr, Place, RECIPE_LIMIT, RecordErr, Room, Shape, Shelf, Sink, Stage, Start, UserId,
    UserRooms, WINDOW, find, half_limit,
};
pub use disk::CloudDisk;
