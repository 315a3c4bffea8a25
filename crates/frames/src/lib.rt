//! Frames of a byte stream: the length of a content in four bytes, then the content.
#![tactic(auto)]

mod framer;
mod laws;
mod lengths;
mod reply_buf;

pub use framer::{FrameErr, Framer};
pub use laws::{law_of_frames, law_of_runs, law_of_streams};
pub use lengths::{FRAME_LIMIT, header, is_length};
pub use reply_buf::ReplyBuf;
