//! What the chain of a journal's half begins with: which store this is, which of its clouds, how much each user may hold,
//! and what a checkpoint says besides.
//!
//! No call takes memory.
#![tactic(auto)]

mod fault;
mod fields;
pub mod laws;
mod reading;
mod rooms;
mod start;
mod writing;

pub use fault::StartFault;
pub use message_fields::{
    BATCH_LIMIT, Bytes, CloudNo, Clouds, Entries, FILE_LIMIT, Fp, Fps, KEY_LIMIT, Left, NoMemory,
    Place, RECIPE_LIMIT, Room, Shape, ShareList, SharesView, Stop, Tag, UserId, Version, after,
    before, byte_of, bytes_of, capped_field, cut_word, decode, encode, fp_of, is_key_above,
    is_path, len_to, number_of, sha256, share_len, u16_of, u32_field, u64_field, u64_of, user_of,
};
pub use rooms::{MOST_FILES, MOST_OWNERS, MOST_RECIPES, MOST_SHARES, RoomsField, UserRooms};
pub use start::{Checkpoint, Header, Start};
pub use writing::StartBytes;
