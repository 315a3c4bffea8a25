//! The memory of a compact list, by the memory of the list: without what is dead, where it is and in another region.
#![tactic(auto)]

mod alive;
mod copied;
mod dropping;
pub mod laws;
mod making;
mod rows;

pub use alive::{Reclaimed, commands_of_compact, live_sum};
pub use checkpoints::{
    CheckpointHead, CheckpointSpace, CloudMemory, FileIndex, Marks, MemoryRecords, OwnerChains,
    ShareIndex, Spent, Unsettled, lay_checkpoint,
};
pub use compact_lists::UserRooms;
pub use making::{make_compact, make_moved};
