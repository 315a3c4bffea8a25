//! A server's memory as the records of a checkpoint: what its tables have, in the order of their slots, one record after
//! another, and a checkpoint of them in the place of the journal's chain.
#![tactic(auto)]

mod chains;
mod entire;
mod entries;
mod kept;
pub mod laws;
mod laying;
mod marks;
mod position;
mod puts;
mod record_list;
mod records;
mod tally;
mod whole;

pub use chains::OwnerChains;
pub use cloud_disk::{
    Area, CloudDisk, Failed, Header, OpenErr, REGION_LEN, Shelf, Start, UserRooms, half_limit,
    law_of_laying,
};
pub use cloud_memory::laws::law_of_fitting;
pub use cloud_memory::{
    BodyBuf, CONTAINER, CloudMemory, CommitBody, DeleteBody, FileIndex, Full, LogFull, New,
    PutItem, ShareIndex, Spent,
};
pub use entire::checkpoint;
pub use laying::{CheckpointHead, lay_checkpoint};
pub use marks::Marks;
pub use position::Position;
pub use record_list::CheckpointRecords;
pub use records::MemoryRecords;
pub use whole::{CheckpointSpace, Unsettled, checkpoint_of_memory};
