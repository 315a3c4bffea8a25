//! A lane of a job, step by step over any link to the clouds, and a lane to its end.
#![tactic(auto)]

mod error;
mod finish;
pub mod laws;
mod news;
mod reading;
mod step;

pub use cd_edges::{Shelf, Sink, write_all};
pub use error::StepErr;
pub use finish::{finish_any, finish_lane};
pub use grammar::{
    Bytes, CloudNo, Clouds, Fp, Fps, NoMemory, Room, Shape, Tag, UserId, Version, is_path, sha256,
    share_len,
};
pub use reading::{law_of_any_requests, law_of_ends, law_of_lane_requests, law_of_resumed_lanes};
pub use step::step_lane;
pub use upload_job::{
    CloudFile, CloudFiles, Entries, FileBytes, Item, Items, Job, KEY_LIMIT, LaneNews, Link, Lost,
    MsgErr, Recipe, RecoverErr, Reply, ReplyBuf, Request, RequestView, disperse_file, recover,
    tag_of,
};
