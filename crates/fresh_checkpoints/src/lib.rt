//! A checkpoint of a memory that stands by itself, in the place of a chain of another list.
#![tactic(auto)]

pub mod laws;
mod laying;

pub use cloud_disk::{
    Area, Bytes, CloudDisk, CloudNo, Failed, FindErr, Found, HALF_LEN, LEAST_RECIPES, LEAST_SHARES,
    NoMemory, Place, RECIPE_LIMIT, REGION_LEN, Room, Shape, Shelf, Sink, UserId, UserRooms, WINDOW,
    find, half_limit, law_of_headers, law_of_peers,
};
pub use compact_memories::laws::law_of_moved_fits;
pub use compact_memories::{
    CheckpointSpace, CloudMemory, Marks, OwnerChains, Reclaimed, commands_of_compact, live_sum,
    make_compact, make_moved,
};
pub use laying::{NextList, lay_fresh};
