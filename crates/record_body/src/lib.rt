//! The bodies of records: how a command, and what a checkpoint says besides, is written in a journal, and how it is read again.
//! Today's format has five kinds; of the two that format 1 has, the modules begin with `first_`, and today's stands on them.
//!
//! Only `BodyBuf::make` and `RecordBuf::make` take memory.
#![tactic(auto)]

mod body;
mod fields;
mod first_fields;
mod first_items;
pub mod first_laws;
mod first_view;
mod first_writing;
mod items;
pub mod laws;
mod view;
mod writing;

pub use body::{
    BodyErr, CommitBody, DeleteBody, FoundItem, FoundKept, KeptItem, PutItem, SpentBody,
};
pub use first_items::PutItems;
pub use first_view::FirstBodyView;
pub use first_writing::RecordBuf;
pub use items::KeptItems;
pub use message_fields::{
    Fp, Left, NoMemory, Place, Room, Tag, UserId, Version, array_of, batch_of, fp_of, share_len_of,
    u16_of, u32_of, u64_of, user_of,
};
pub use view::BodyView;
pub use writing::BodyBuf;
