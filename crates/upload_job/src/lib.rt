//! How a client brings a version of a file to all clouds: a job with a lane for each cloud, which makes the requests and takes the
//! replies. Nothing here sends anything.
#![tactic(auto)]

mod beginning;
mod job;
mod lane;
pub mod laws;
mod news;
mod recalled;
mod requests;
mod turn;
mod wanted;

pub use file_recipe::{
    CloudFile, CloudFiles, FileBytes, RecoverErr, disperse_file, recover, tag_of,
};
pub use job::Job;
pub use news::{LaneErr, LaneNews};
pub use user_dedup::{
    Entries, Framer, Item, Items, KEY_LIMIT, Left, Link, Lost, MsgErr, Recipe, Reply, ReplyBuf,
    Request, RequestView, byte_of, bytes_of, fp_of, u16_of, u64_of, user_of,
};
