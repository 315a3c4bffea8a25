//! The outside in memory: a source, a sink and a shelf that tell everything and fail exactly where they were told to.
#![tactic(auto)]

mod cloud;
mod count;
mod ports;
mod shelf;
mod sink;
mod source;
mod stream;

pub use cloud::MemCloud;
pub use count::CallCount;
pub use mem_disk::{
    Area, Bytes, CloudNo, Clouds, Failed, Fp, NoMemory, Note, Place, Ports, Room, Shape, Shelf,
    Source, Tag, UserId, Version, is_path, sha256, share_len,
};
pub use ports::MemPorts;
pub use shelf::MemShelf;
pub use sink::MemSink;
pub use source::MemSource;
pub use stream::MemStream;
