//! A disk in memory: three areas of two ranges each, with a note of each write, sync, fresh and crash.
#![tactic(auto)]

mod area;
mod areas;
mod disk;
mod note;
mod numbers;

pub use area::MemArea;
pub use areas::MemAreas;
pub use cd_edges::{
    Area, Bytes, CloudNo, Clouds, Failed, Fp, NoMemory, Place, Ports, Room, Shape, Shelf, Sink,
    Source, Tag, UserId, Version, is_path, sha256, share_len,
};
pub use disk::MemDisk;
pub use note::Note;
pub use numbers::PerArea;
