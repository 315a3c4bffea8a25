//! One step of a lane.

ghost use Rattle.std.specs.Prelude.{◌≡◌, ◌<◌, ◌≤◌, ℕ, List, length, IsTrue, IsSome, Some, Ok, Err};
ghost use Rattle.grammar.specs.CdBase.Reading.{AreBytes};
ghost use Rattle.upload_job.specs.Messages.request.Request.{Request};
ghost use Rattle.upload_job.specs.Messages.Requests.{request_bytes};
ghost use Rattle.upload_job.specs.UserDedup.Link.{LeavesOthers};
ghost use Rattle.upload_job.specs.Lanes.{request_at};
ghost use Rattle.lane_steps.specs.Reached.{IsReached, IsOnItsWay};
ghost use Rattle.lane_steps.specs.Steps.{AsksInStep, LaneSteps, IsNothingLost, TakesLaneReply, TakesReply};

use crate::StepErr;
use grammar::{Bytes, CloudNo, NoMemory};
use upload_job::{Job, LaneErr, LaneNews, Link, Lost, ReplyBuf};

// The lane takes the reply to its request.
fn take_reply(job: &mut Job, lane: CloudNo, content: &[u8]) -> Result<LaneNews, StepErr>
    requires { IsSome (request_at job.old lane.0) }
    ensures takes { TakesReply job.old lane.0 content.now result job.new }
    ensures bytes { AreBytes content.now }
{
    match job.answer(lane, content) {
        Ok(news) => Ok(news),
        Err(LaneErr::Strange { kind }) => Err(StepErr::Strange { kind }),
        Err(LaneErr::NoMemory) => Err(StepErr::NoMemory),
    }
}

// Asks the lane's cloud for this request of the lane, and the lane takes the reply.
fn ask_lane<L: Link>(
    link: &mut L,
    job: &mut Job,
    lane: CloudNo,
    request: &[u8],
    reply: &mut ReplyBuf,
) -> Result<LaneNews, StepErr>
    requires reaches { IsTrue (L.tells.reaches link.old lane.0) }
    requires way { IsOnItsWay (L.tells.shape link.old) job.old }
    requires asks { (r : Request) × (request_at job.old lane.0 ≡ Some r) × (request.now ≡ request_bytes r) }
    ensures steps { (r : Request) → request_at job.old lane.0 ≡ Some r
        → AsksInStep L.tells L.talk lane.0 link.old job.old r result link.new job.new }
    ensures way { IsOnItsWay (L.tells.shape link.old) job.new }
    ensures reached { IsReached (L.tells.shape link.old) job.old → IsReached (L.tells.shape link.old) job.new }
    ensures others { LeavesOthers L.tells lane.0 link.old link.new }
    ensures later { L.tells.losses link.old ≤ L.tells.losses link.new }
    ensures lossless { IsTrue (L.tells.lossless link.old) → IsNothingLost result × IsTrue (L.tells.lossless link.new) }
{
    match link.ask(lane, request, reply) {
        Ok(()) => take_reply(job, lane, reply.content()),
        Err(Lost) => Err(StepErr::Lost),
    }
}

// The same as `step_lane`, of a job for all clouds or for one alone.
pub(crate) fn step_any<L: Link>(
    link: &mut L,
    job: &mut Job,
    lane: CloudNo,
    content: &mut Bytes,
    reply: &mut ReplyBuf,
) -> Result<Option<LaneNews>, StepErr>
    requires below { lane.0 < length job.old }
    requires reaches { IsTrue (L.tells.reaches link.old lane.0) }
    requires way { IsOnItsWay (L.tells.shape link.old) job.old }
    ensures steps { LaneSteps L.tells L.talk lane.0 link.old job.old (request_at job.old lane.0) result
        link.new job.new }
    ensures way { IsOnItsWay (L.tells.shape link.old) job.new }
    ensures reached { IsReached (L.tells.shape link.old) job.old → IsReached (L.tells.shape link.old) job.new }
    ensures others { LeavesOthers L.tells lane.0 link.old link.new }
    ensures later { L.tells.losses link.old ≤ L.tells.losses link.new }
    ensures lossless { IsTrue (L.tells.lossless link.old) → IsNothingLost result × IsTrue (L.tells.lossless link.new) }
{
    let more = match job.next(lane, content) {
        Ok(more) => more,
        Err(NoMemory) => return Err(StepErr::NoMemory),
    };
    if !more {
        return Ok(None);
    }
    match ask_lane(link, job, lane, content.as_slice(), reply) {
        Ok(news) => Ok(Some(news)),
        Err(e) => Err(e),
    }
}

/// One step of a lane of the job: its request is asked of its cloud, which the link reaches, and the lane
/// takes the reply. Ok with what the reply tells, by which the lane moved; other lanes stay, and so do the
/// other clouds. None where the lane has no request; link and job are as before then.
///
/// `Lost` comes only where the link's count of losses rose: the cloud may have taken the request, and the
/// lane keeps it. `Strange` comes exactly where what came is no reply that a server which keeps to the rules
/// gives to that request, with its first byte; the lane is refused then. A cloud that stands for something
/// never gives such a reply. After want of memory here the job is as before; the link is as before too, or
/// passed on the request and took a reply, which the lane didn't take.
///
/// The request is made in `content`, and the reply comes into `reply`; nothing is said of what is left there.
pub fn step_lane<L: Link>(
    link: &mut L,
    job: &mut Job,
    lane: CloudNo,
    content: &mut Bytes,
    reply: &mut ReplyBuf,
) -> Result<Option<LaneNews>, StepErr>
    requires below { lane.0 < length job.old }
    requires reaches { IsTrue (L.tells.reaches link.old lane.0) }
    requires reached { IsReached (L.tells.shape link.old) job.old }
    ensures steps { LaneSteps L.tells L.talk lane.0 link.old job.old (request_at job.old lane.0) result
        link.new job.new }
    ensures reached { IsReached (L.tells.shape link.old) job.new }
    ensures others { LeavesOthers L.tells lane.0 link.old link.new }
    ensures later { L.tells.losses link.old ≤ L.tells.losses link.new }
    ensures lossless { IsTrue (L.tells.lossless link.old) → IsNothingLost result × IsTrue (L.tells.lossless link.new) }
{
    step_any(link, job, lane, content, reply)
}
