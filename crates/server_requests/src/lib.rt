//! Each request of a server: read where its bytes lie, and executed by an open store.
//!
//! No call takes memory. What an executed request leaves is said by `Executes` of `server_commands`.
#![tactic(auto)]

mod asked;
mod fetching;
mod sending;
mod serving;

pub use asked::StoreRequest;
pub use server_commands::{
    Area, Bytes, CloudNo, CloudStore, Entry, Failed, Fp, Header, Link, Log, Lost, NoMemory,
    OpenErr, Place, Ports, RECIPE_LIMIT, ReplyBuf, Shape, Shelf, Sink, Source, Start, Tag, UserId,
    UserRooms, Version, sha256, write_all, write_damaged, write_fault, write_malformed,
};
pub use serving::dispatch;
