//! What a cloud is to each user. A cloud is the list of the commands that changed it; a user sees a view, which is made of the
//! user's own commands alone, and the reply to a request follows from that view.
#![tactic(auto)]

mod command;
mod file_list;
pub mod laws;
mod link;
pub mod spent;
mod view;

pub use command::Command;
pub use file_list::{FileEntry, FileList};
pub use journal_start::{
    BATCH_LIMIT, Bytes, Checkpoint, CloudNo, Clouds, Entries, Fp, Fps, Header, KEY_LIMIT, Left,
    NoMemory, Place, RECIPE_LIMIT, Room, RoomsField, Shape, Start, StartFault, Tag, UserId,
    UserRooms, Version, byte_of, bytes_of, fp_of, is_key_above, sha256, share_len, u16_of, u64_of,
    user_of,
};
pub use link::{Link, Lost};
pub use messages::{
    FRAME_LIMIT, FrameErr, Framer, MsgErr, Reply, ReplyBuf, ReplyView, Request, RequestView,
    ShareList, SharesView, header, is_length, kind_of,
};
pub use recipe::{Item, Items, Recipe, RecipeErr};
pub use view::View;
