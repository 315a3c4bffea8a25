//! What a deletion asks of a cloud, and the line that a transcript has of the reply.
#![tactic(auto)]

mod asking;
mod replies;

pub use asking::delete_request;
pub use messages::{MsgErr, Reply, ReplyBuf, Request};
pub use replies::line_of;
pub use transcript::{Bytes, CloudNo, Line, NoMemory, UserId, Version, write_line};
