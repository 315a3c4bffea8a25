//! The jobs of a session.

use lane_steps::{
    Bytes, CloudNo, Job, LaneNews, Link, NoMemory, ReplyBuf, StepErr, finish_lane, step_lane,
};
use std::alloc::Global;
use std::marker::Model;

/// The jobs of a session, which are counted from 1 in the order of their uploads. Contracts see the list of their lanes.
#[derive(Drop)]
pub struct Jobs {
    items: Vec<Job>,
}

impl Model for Jobs {
    ghost use Rattle.std.specs.Prelude.{List};
    ghost use Rattle.lane_steps.specs.UploadJob.Lanes.{LaneView};

    ghost Value = { List (List LaneView) };

    ghost view = { λ j. j.items.items };
}

impl Jobs {
    ghost use Rattle.std.specs.Prelude.{◌≡◌, ◌<◌, ◌≤◌, List, [], ◌∷◌, ◌++◌, length, OnOk, OnErr, IfOk, IsTrue, ◌↔◌, All};
    ghost use Rattle.lane_steps.specs.UserDedup.Link.{LeavesOthers};
    ghost use Rattle.session.specs.Spelling.{IsJob};
    ghost use Rattle.lane_steps.specs.UploadJob.Lanes.{LaneView, request_at, IsAsked};
    ghost use Rattle.lane_steps.specs.Reached.{IsReached};
    ghost use Rattle.lane_steps.specs.Steps.{LaneSteps, Finishes, IsNothingLost};
    ghost use Rattle.lane_steps.specs.UploadJob.Lane.{Done};
    ghost use Rattle.session_jobs.specs.Jobs.{job_lanes, with_job};

    /// No jobs. It takes no memory.
    pub fn new(alloc: Global) -> Jobs
        ensures { result ≡ [] }
    {
        Jobs {
            items: Vec::new(alloc),
        }
    }

    /// Appends a job. For want of memory nothing changes.
    pub fn push(&mut self, job: Job) -> Result<(), NoMemory>
        ensures ok { OnOk result (self.new ≡ self.old ++ job ∷ []) }
        ensures err { OnErr result (self.new ≡ self.old) }
    {
        self.items.push(job)?;
        Ok(())
    }

    /// How many jobs there are.
    pub fn len(&self) -> usize
        ensures { result ≡ length self.now }
    {
        self.items.len()
    }

    /// Whether the version of this job is entered at all clouds.
    pub fn is_stored(&self, job: u32) -> bool
        requires { IsJob (length self.now) job }
        ensures { IsTrue result ↔ All (λ (lane : LaneView). lane.state ≡ Done) (job_lanes self.now job) }
    {
        let place = job as usize - 1;
        self.items[place].stored()
    }

    /// The request of a lane of this job, as `Job::next` gives it.
    pub fn next(&mut self, job: u32, lane: CloudNo, out: &mut Bytes) -> Result<bool, NoMemory>
        requires job { IsJob (length self.old) job }
        requires below { lane.0 < length (job_lanes self.old job) }
        ensures request { IfOk result (λ more.
            IsAsked (request_at (job_lanes self.old job) lane.0) more out.old out.new) }
        ensures same { self.new ≡ self.old }
    {
        let place = job as usize - 1;
        self.items[place].next(lane, out)
    }

    /// One step of a lane of this job over the link, as `lane_steps::step_lane` makes it. The other jobs stay.
    pub fn step<L: Link>(
        &mut self,
        link: &mut L,
        job: u32,
        lane: CloudNo,
        content: &mut Bytes,
        reply: &mut ReplyBuf,
    ) -> Result<Option<LaneNews>, StepErr>
        requires job { IsJob (length self.old) job }
        requires below { lane.0 < length (job_lanes self.old job) }
        requires reaches { IsTrue (L.tells.reaches link.old lane.0) }
        requires reached { IsReached (L.tells.shape link.old) (job_lanes self.old job) }
        ensures steps { (after : List LaneView) × (self.new ≡ with_job self.old job after)
            × IsReached (L.tells.shape link.old) after
            × LaneSteps L.tells L.talk lane.0 link.old (job_lanes self.old job)
            (request_at (job_lanes self.old job) lane.0) result link.new after }
        ensures others { LeavesOthers L.tells lane.0 link.old link.new }
        ensures lossless { IsTrue (L.tells.lossless link.old) → IsNothingLost result
            × IsTrue (L.tells.lossless link.new) }
    {
        let place = job as usize - 1;
        let lanes = &mut self.items[place];
        step_lane(link, lanes, lane, content, reply)
    }

    /// Brings a lane of this job to its end over the link, as `lane_steps::finish_lane` does. The other jobs stay.
    pub fn finish<L: Link>(
        &mut self,
        link: &mut L,
        job: u32,
        lane: CloudNo,
        content: &mut Bytes,
        reply: &mut ReplyBuf,
        told: &mut Vec<LaneNews>,
    ) -> Result<(), StepErr>
        requires job { IsJob (length self.old) job }
        requires below { lane.0 < length (job_lanes self.old job) }
        requires reaches { IsTrue (L.tells.reaches link.old lane.0) }
        requires reached { IsReached (L.tells.shape link.old) (job_lanes self.old job) }
        ensures finishes { (after : List LaneView) × (self.new ≡ with_job self.old job after)
            × IsReached (L.tells.shape link.old) after
            × Finishes L.tells L.talk lane.0 link.old (job_lanes self.old job) told.old.items result
            link.new after told.new.items }
        ensures others { LeavesOthers L.tells lane.0 link.old link.new }
        ensures lossless { IsTrue (L.tells.lossless link.old) → IsNothingLost result
            × IsTrue (L.tells.lossless link.new) }
    {
        let place = job as usize - 1;
        let lanes = &mut self.items[place];
        finish_lane(link, lanes, lane, content, reply, told)
    }
}
