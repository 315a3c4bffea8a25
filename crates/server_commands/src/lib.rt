//! The requests of a server that add a command, over one cloud's open store: Put, Commit and Delete.
//!
//! No call takes memory. Over a cloud of which the store serves a list, the reply, the list after it and what a crash leaves
//! follow from that list. Over any other cloud the store stays settled, and the reply is one that the request may have.
#![tactic(auto)]

mod committing;
mod deleting;
mod news;
mod putting;
mod reading;
mod refusing;

pub use cloud_store::{CloudDisk, CloudStore, Header, OpenErr, Start, UserRooms};
pub use committing::commit;
pub use deleting::delete;
pub use putting::put;
pub use server_reads::{
    Area, Bytes, CloudMemory, CloudNo, Entry, Failed, Fp, FpsView, Link, Log, Lost, NoMemory,
    Place, Ports, RECIPE_LIMIT, RecipeView, ReplyBuf, RequestView, Shape, SharesView, Shelf, Sink,
    Source, Tag, UserId, Version, VersionKey, entries, hello, known, recipe, sha256, shares,
    write_all, write_damaged, write_fault, write_malformed,
};
