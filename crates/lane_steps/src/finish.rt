//! A lane to its end.

ghost use Rattle.std.specs.Prelude.{◌≡◌, ◌<◌, ◌≤◌, length, IsTrue};
ghost use Rattle.upload_job.specs.UserDedup.Link.{LeavesOthers};
ghost use Rattle.lane_steps.specs.Reached.{IsReached, IsOnItsWay};
ghost use Rattle.lane_steps.specs.Steps.{Finishes, IsNothingLost, LosesBy};

use crate::StepErr;
use crate::news::{has_lacked, make_room, stops, tell};
use crate::step::step_any;
use grammar::{Bytes, CloudNo, NoMemory};
use upload_job::{Job, LaneNews, Link, ReplyBuf};

/// The same as `finish_lane`, of a job for all clouds or for one alone, as `Job::for_lane` makes it.
pub fn finish_any<L: Link>(
    link: &mut L,
    job: &mut Job,
    lane: CloudNo,
    content: &mut Bytes,
    reply: &mut ReplyBuf,
    told: &mut Vec<LaneNews>,
) -> Result<(), StepErr>
    requires below { lane.0 < length job.old }
    requires reaches { IsTrue (L.tells.reaches link.old lane.0) }
    requires way { IsOnItsWay (L.tells.shape link.old) job.old }
    ensures finishes { Finishes L.tells L.talk lane.0 link.old job.old told.old.items result
        link.new job.new told.new.items }
    ensures way { IsOnItsWay (L.tells.shape link.old) job.new }
    ensures reached { IsReached (L.tells.shape link.old) job.old → IsReached (L.tells.shape link.old) job.new }
    ensures others { LeavesOthers L.tells lane.0 link.old link.new }
    ensures later { L.tells.losses link.old ≤ L.tells.losses link.new }
    ensures lost { LosesBy result (L.tells.losses link.old) (L.tells.losses link.new) }
    ensures lossless { IsTrue (L.tells.lossless link.old) → IsNothingLost result × IsTrue (L.tells.lossless link.new) }
{
    let mut lacked = false;
    'requests: loop {
        match make_room(told) {
            Ok(()) => {}
            Err(NoMemory) => return Err(StepErr::NoMemory),
        }
        match step_any(link, job, lane, content, reply) {
            Ok(None) => return Ok(()),
            Ok(Some(news)) => {
                tell(told, news);
                if stops(lacked, &news) {
                    return Ok(());
                }
                lacked = has_lacked(lacked, &news);
            }
            Err(e) => return Err(e),
        }
    }
}

/// Brings a lane of the job on, step by step, and appends what each reply tells to `told`. Ok where the lane
/// has no request any more, or where a reply stopped it: that a device failed, that the cloud's memory ran
/// out, or the second time that the cloud lacks a share. Behind a failed device the lane keeps its request,
/// and may be brought on again.
///
/// An error is that of the step that made it, as `step_lane` says: `Lost` comes only where the link's count of
/// losses rose. `told` has then the news of each step before it, by which the lane moved.
pub fn finish_lane<L: Link>(
    link: &mut L,
    job: &mut Job,
    lane: CloudNo,
    content: &mut Bytes,
    reply: &mut ReplyBuf,
    told: &mut Vec<LaneNews>,
) -> Result<(), StepErr>
    requires below { lane.0 < length job.old }
    requires reaches { IsTrue (L.tells.reaches link.old lane.0) }
    requires reached { IsReached (L.tells.shape link.old) job.old }
    ensures finishes { Finishes L.tells L.talk lane.0 link.old job.old told.old.items result
        link.new job.new told.new.items }
    ensures reached { IsReached (L.tells.shape link.old) job.new }
    ensures others { LeavesOthers L.tells lane.0 link.old link.new }
    ensures later { L.tells.losses link.old ≤ L.tells.losses link.new }
    ensures lost { LosesBy result (L.tells.losses link.old) (L.tells.losses link.new) }
    ensures lossless { IsTrue (L.tells.lossless link.old) → IsNothingLost result × IsTrue (L.tells.lossless link.new) }
{
    finish_any(link, job, lane, content, reply, told)
}
