//! The line of a reply.

ghost use Rattle.std.specs.Prelude.{◌≡◌, ◌<◌, ◌^◌, length, IfOk, Some};
ghost use Rattle.messages.specs.declared.reply.Reply.{Reply};
ghost use Rattle.messages.specs.Replies.{IsReply};
ghost use Rattle.transcript.specs.declared.line.Line.{Line};
ghost use Rattle.deletions.specs.Replies.{HasLine, ReadsDeleteReply, line_of as line_by};

use messages::{MsgErr, Reply, ReplyView, kind_of};
use std::alloc::Global;
use transcript::{CloudNo, Line, NoMemory};

// What a reply to a Delete says; None where it is none to a Delete.
fn told_by(cloud: CloudNo, reply: &Reply) -> Option<Line>
    ensures { result ≡ line_by cloud reply.now }
{
    match reply {
        Reply::Deleted => Some(Line::Deleted { cloud }),
        Reply::Missing => Some(Line::Missing { cloud }),
        Reply::Full {
            room,
            used,
            need,
            limit,
        } => Some(Line::Full {
            cloud,
            room: *room,
            used: *used,
            need: *need,
            limit: *limit,
        }),
        Reply::Fault => Some(Line::Fault { cloud }),
        Reply::Damaged { at, byte } => Some(Line::Damaged {
            cloud,
            at: *at,
            byte: *byte,
        }),
        Reply::Rotten { named, found } => Some(Line::Rotten {
            cloud,
            named: *named,
            found: *found,
        }),
        Reply::NoMemory => Some(Line::NoMemory { cloud }),
        _ => None,
    }
}

// The line of the reply that a content is, where it is one to a Delete.
#[tactic(auto, using(crate::proofs::Reading::one_reply))]
fn read_line(alloc: Global, cloud: CloudNo, content: &[u8]) -> Result<Option<Line>, NoMemory>
    requires { length content.now < 2 ^ 32 }
    ensures reads { IfOk result (ReadsDeleteReply cloud content.now) }
    ensures one { (reply other : Reply) → IsReply content.now reply → IsReply content.now other → reply ≡ other }
{
    match ReplyView::read(alloc, content) {
        Ok(ReplyView::Other(reply)) => Ok(told_by(cloud, &reply)),
        Ok(ReplyView::Recipe(_)) => Ok(None),
        Ok(ReplyView::Shares(_)) => Ok(None),
        Err(MsgErr::Malformed { .. }) => Ok(None),
        Err(MsgErr::NoMemory) => Err(NoMemory),
    }
}

/// The line that says what a cloud replied to a Delete: `deleted C`, `missing C`, `full C ..`, `fault C`, `damaged C ..`,
/// `rotten C ..` or `nomemory C`; and `strange C KIND` where no server that keeps to the rules replies this to a Delete,
/// with the first byte of what came, 0 where it is empty. Memory is taken for flags and entries alone, which are strange.
pub fn line_of(alloc: Global, cloud: CloudNo, content: &[u8]) -> Result<Line, NoMemory>
    requires { length content.now < 2 ^ 32 }
    ensures line { IfOk result (HasLine cloud content.now) }
    // A content is one reply at most, whose line comes.
    ensures told { IfOk result (λ line. (reply : Reply) (told : Line) → IsReply content.now reply
        → line_by cloud reply ≡ Some told → line ≡ told) }
{
    match read_line(alloc, cloud, content) {
        Ok(Some(line)) => Ok(line),
        Ok(None) => Ok(Line::Strange {
            cloud,
            kind: kind_of(content),
        }),
        Err(NoMemory) => Err(NoMemory),
    }
}
