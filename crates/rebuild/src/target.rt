//! The target's lane for one version.

ghost use Rattle.std.specs.Prelude.{◌≡◌, ◌≤◌, ◌<◌, ◌^◌, [], ℕ, List, length, IsTrue};
ghost use Rattle.std.specs.List.{Contains};
ghost use Rattle.lane_steps.specs.CdBase.Limits.{IsPath};
ghost use Rattle.lane_steps.specs.Recipe.Spelling.{file_limit};
ghost use Rattle.lane_steps.specs.UserDedup.Link.{serves};
ghost use Rattle.rebuild.specs.Filling.{BringHolds, BringsTold, EndsBy, OfTarget, failed_as, last_of};
ghost use Rattle.rebuild.specs.Over.{HasAskedToRebuild, BringsOwn, LeadsWithTarget, is_lost};
ghost use Rattle.rebuild.specs.Rebuilding.{lane_of};
ghost use Rattle.rebuild.specs.Turns.{LaneEnded, LaneGoes};

use crate::RebuildErr;
use lane_steps::{
    Bytes, CloudNo, Job, LaneNews, Link, NoMemory, ReplyBuf, Shape, StepErr, UserId, Version,
    finish_any,
};
use std::alloc::Global;

/// Whose versions are brought to which cloud.
#[derive(Clone, Copy)]
pub struct Refill {
    /// The shape of the store.
    pub shape: Shape,
    /// The user whose versions they are.
    pub user: UserId,
    /// The cloud that they are brought to.
    pub target: CloudNo,
}

/// Room for what the target's lanes send and are told. One lane after another uses it.
#[derive(Drop)]
pub struct LaneBuffers {
    /// A request.
    pub content: Bytes,
    /// The reply to it, and those of the clouds that are read.
    pub reply: ReplyBuf,
    /// The news of a lane.
    pub told: Vec<LaneNews>,
}

// The last of some news.
fn last_news(told: &[LaneNews]) -> Option<LaneNews>
    ensures { result ≡ last_of told.now }
{
    match told {
        [] => None,
        [last] => Some(*last),
        [_, more @ ..] => last_news(more),
    }
}

// What the last news of a lane that ended say: whether the version is entered there, or stands with another recipe.
fn ended(news: Option<LaneNews>) -> Result<bool, RebuildErr>
    ensures { EndsBy news result }
{
    match news {
        Some(LaneNews::Committed) => Ok(true),
        Some(LaneNews::Exists) => Ok(false),
        Some(
            LaneNews::Full {
                room,
                used,
                need,
                limit,
            },
        ) => Err(RebuildErr::TargetFull {
            room,
            used,
            need,
            limit,
        }),
        Some(LaneNews::Lacking { place }) => Err(RebuildErr::TargetLacking { place }),
        Some(LaneNews::Fault) => Err(RebuildErr::TargetFault),
        Some(LaneNews::Damaged { at, byte }) => Err(RebuildErr::TargetDamaged { at, byte }),
        Some(LaneNews::Rotten { named, found }) => Err(RebuildErr::TargetRotten { named, found }),
        Some(LaneNews::NoMemory) => Err(RebuildErr::TargetNoMemory),
        Some(LaneNews::Known { .. }) => Err(RebuildErr::NoMemory),
        Some(LaneNews::Stored { .. }) => Err(RebuildErr::NoMemory),
        None => Err(RebuildErr::NoMemory),
    }
}

// Why the lane made no step, as an error of the rebuild.
fn failed(e: StepErr) -> RebuildErr
    ensures { result ≡ failed_as e }
{
    match e {
        StepErr::Lost => RebuildErr::TargetLost,
        StepErr::Strange { kind } => RebuildErr::TargetStrange { kind },
        StepErr::NoMemory => RebuildErr::NoMemory,
    }
}

/// Brings a version of a file of at most 67,108,864 bytes to the target: a job of it is made for the target alone, whose lane
/// goes on to its end. True where the version is entered there, false where it stands with another recipe.
///
/// TargetLost comes only where the link's count of losses rose, and TargetStrange where what came is no reply that a
/// server which keeps to the rules gives; the other errors but want of memory are the reply that stopped the lane:
/// TargetFull, TargetFault, TargetDamaged, TargetRotten, TargetNoMemory, and TargetLacking the second time that the
/// target lacks a share. Nothing is said of what is left in `buffers`.
pub fn bring<L: Link>(
    alloc: Global,
    link: &mut L,
    refill: Refill,
    version: Version,
    path: &[u8],
    file: &[u8],
    buffers: &mut LaneBuffers,
) -> Result<bool, RebuildErr>
    requires shape { L.tells.shape link.old ≡ refill.shape }
    requires reached { IsTrue (L.tells.reaches link.old refill.target.0) }
    requires within { refill.target.0 < refill.shape.n }
    requires path { IsPath path.now }
    requires few { length file.now ≤ file_limit }
    ensures brings { (from : List ℕ) → ¬ Contains from refill.target.0
        → LeadsWithTarget L.tells L.talk refill.target.0 from link.old link.new result
        (λ turns before after. BringHolds (L.tells.told link.old refill.target.0)
        (LaneGoes (lane_of refill.shape refill.target.0
        (record { user = refill.user; path = path.now; number = version; file = file.now })))
        (LaneEnded (lane_of refill.shape refill.target.0
        (record { user = refill.user; path = path.now; number = version; file = file.now }))) result turns
        (before refill.target.0) (after refill.target.0))
        (λ turns before at after. BringsTold refill.shape refill.target.0 (serves L.tells link.old refill.target.0)
        (record { user = refill.user; path = path.now; number = version; file = file.now }) result turns
        (before refill.target.0) at (after refill.target.0)) }
    ensures own { OfTarget result }
    ensures asked { HasAskedToRebuild L.tells refill.target.0 [] link.old link.new (is_lost result) }
    ensures lanes { BringsOwn L.tells refill.shape refill.user refill.target.0 [] link.old link.new }
{
    let Refill {
        shape,
        user,
        target,
    } = refill;
    let mut job = match Job::for_lane(alloc, shape, user, path, version, file, target) {
        Ok(job) => job,
        Err(NoMemory) => return Err(RebuildErr::NoMemory),
    };
    buffers.told.clear();
    match finish_any(
        link,
        &mut job,
        target,
        &mut buffers.content,
        &mut buffers.reply,
        &mut buffers.told,
    ) {
        Ok(()) => ended(last_news(&buffers.told)),
        Err(e) => Err(failed(e)),
    }
}
