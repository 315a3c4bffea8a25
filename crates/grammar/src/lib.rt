//! Readers that give the exact first failing place, for lines of text and for bytes.
#![tactic(auto)]

mod fields;
mod hexadecimal;
mod numerals;
mod stop;
mod words;

pub use cd_base::{
    Bytes, CloudNo, Clouds, FILE_LIMIT, Fp, Fps, NoMemory, PATH_LIMIT, Place, RECIPE_LIMIT, Room,
    Rooms, SECRET_LIMIT, Shape, Tag, UserId, Version, is_path, sha256, share_len,
};
pub use fields::{bytes_of, u16_of, u32_of, u64_of};
pub use hexadecimal::{decode, encode};
pub use numerals::{capped_field, number_of, u32_field, u64_field};
pub use stop::Stop;
pub use words::{after, before, cut_word, len_to};
