//! The outside as the system has it: the standard streams, clouds that lie in a folder, and sockets. Each counts its failures and tells
//! nothing of what it holds or passes on.
#![tactic(auto)]

mod cloud_files;
mod folder;
mod sockets;
mod streams;
mod tally;

pub use cd_edges::{Area, Bytes, CloudNo, Failed, Ports, Shape, Shelf, receive, send_all};
pub use folder::DirShelf;
pub use sockets::TcpPorts;
pub use streams::{StdSink, StdSource};
pub use tally::Tally;
