//! The outside as cdstore sees it: what it reads, what it writes, the areas in which the clouds keep their bytes, and connections.
#![tactic(auto)]

mod area;
mod laws;
mod ports;
mod shelf;
mod stream;
mod synced;
mod whole;
mod window;

pub use area::Area;
pub use cd_base::{
    Bytes, CloudNo, Clouds, Fp, NoMemory, Place, RECIPE_LIMIT, Room, Rooms, Shape, Tag, UserId,
    Version, is_path, sha256, share_len,
};
pub use laws::{law_of_images, law_of_overwriting, law_of_stable};
pub use ports::Ports;
pub use shelf::Shelf;
pub use stream::{Failed, Sink, SinkFault, Source, write_all};
pub use synced::write_synced;
pub use whole::{receive, send_all};
pub use window::Window;
