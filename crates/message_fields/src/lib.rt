//! The fields of messages: shares, fingerprints, flags and the keys of files, with their lists and readers.
#![tactic(auto)]

mod entries;
mod fields;
mod flags;
mod fps;
mod keys;
mod left;
mod limits;
mod share_list;
mod shares;

pub use entries::Entries;
pub use fields::{array_of, byte_of, bytes_of, ended, fp_of, u16_of, u32_of, u64_of, user_of};
pub use flags::flags_of;
pub use fps::{FpsView, batch_of, fps_of};
pub use grammar::{
    Bytes, CloudNo, Clouds, FILE_LIMIT, Fp, Fps, NoMemory, Place, RECIPE_LIMIT, Room, Rooms, Shape,
    Stop, Tag, UserId, Version, after, before, capped_field, cut_word, decode, encode, is_path,
    len_to, number_of, sha256, share_len, u32_field, u64_field,
};
pub use keys::{entries_of, is_key_above, key_above_of, key_of};
pub use left::Left;
pub use limits::{BATCH_LIMIT, KEY_LIMIT, SHARE_LIMIT};
pub use share_list::ShareList;
pub use shares::{SharesView, share_len_of, share_of, shares_of};
