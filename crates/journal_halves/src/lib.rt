//! A journal in two halves, as definitions and laws: the frame of a record, the chain of the current half, and a checkpoint
//! that is laid in the other. Whatever a crash leaves meanwhile, the journal has the one chain or the other.
#![tactic(auto)]

mod choice;
mod errors;
mod finding;
mod found;
mod frame;
pub mod laws;
mod limit;
mod record;
mod records;

pub use cd_edges::{
    Area, Bytes, CloudNo, Clouds, Failed, NoMemory, Place, Ports, RECIPE_LIMIT, Room, Shape, Shelf,
    Sink, Source, UserId, Version, write_all, write_synced,
};
pub use errors::RecordErr;
pub use finding::find;
pub use found::{FindErr, Found};
pub use frame::{Frame, GREATEST, WINDOW, frame_of};
pub use journal_start::{Checkpoint, Header, MOST_OWNERS, Start, UserRooms};
pub use limit::{HALF_LEN, half_limit};
pub use records::HalfRecords;
