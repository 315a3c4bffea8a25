//! The server of one cloud: one request in, one reply out. What changed the cloud is a list of commands that lies on
//! its disk, and after each crash a prefix of it that has every acknowledged command.
#![tactic(auto)]

mod blobs;
mod copies;
mod damage;
pub mod laws;
mod server;
mod serving;

pub use blob_copy::{FindErr, Found, Reclaimed, WINDOW, find, law_of_headers};
pub use blobs::BlobErr;
pub use copies::ReclaimErr;
pub use damage::damage_of;
pub use server::Server;
pub use server_requests::{
    Area, Bytes, CloudNo, Failed, Fp, Link, Lost, NoMemory, OpenErr, Ports, ReplyBuf, Shape, Shelf,
    Sink, Source, UserRooms, sha256, write_all,
};
