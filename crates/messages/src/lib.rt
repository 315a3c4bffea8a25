//! What passes between a client and a cloud: requests and replies.
#![tactic(auto)]

mod copies;
mod fault;
mod reply;
mod reply_reading;
mod reply_view;
mod reply_writing;
mod request;
mod request_writing;
mod view;

pub use fault::MsgErr;
pub use frames::{FRAME_LIMIT, FrameErr, Framer, ReplyBuf, header, is_length};
pub use message_fields::{
    Entries, FpsView, KEY_LIMIT, SHARE_LIMIT, ShareList, SharesView, is_key_above,
};
pub use reply::Reply;
pub use reply_view::{ReplyView, kind_of};
pub use reply_writing::{
    append_share, begin_known, begin_shares, write_committed, write_damaged, write_deleted,
    write_entries, write_exists, write_fault, write_full, write_hello, write_lacking,
    write_malformed, write_missing, write_no_memory, write_not_yours, write_recipe, write_rotten,
    write_stored,
};
pub use request::Request;
pub use view::RequestView;
