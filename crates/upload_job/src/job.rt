//! A job: a version of a file on its way to all clouds, or to one alone.

use crate::beginning::{lane_alone, lanes_of};
use crate::lane::{Lane, VersionKey, are_done, end_lanes, is_done, move_lane};
use crate::requests::put_request;
use crate::turn::{Turn, turn_of};
use crate::{LaneErr, LaneNews};
use file_recipe::{FileBytes, disperse_bytes, disperse_file, disperse_for, tag_of};
use std::alloc::Global;
use std::marker::Model;
use std::mem;
use user_dedup::{Bytes, CloudNo, Clouds, NoMemory, Shape, UserId, Version};

/// A version of a file on its way to all clouds, or to one alone. It keeps the recipe of each cloud that it goes to, and the shares
/// until that cloud's lane is at its end.
/// Contracts see a list of lanes, one for each cloud in the order of their numbers: what each has to bring, and where it stands.
#[derive(Drop)]
pub struct Job {
    alloc: Global,
    key: VersionKey,
    lanes: Vec<Lane>,
    // a request is written here, and then takes the place of what the caller has
    spare: Bytes,
}

impl Model for Job {
    ghost use Rattle.std.specs.Prelude.{List};
    ghost use Rattle.upload_job.specs.Lanes.{LaneView};
    ghost use Rattle.upload_job.specs.Index.{lanes_in, AreLanes};

    ghost Value = { List LaneView };

    ghost view = { λ j. lanes_in j.key j.lanes.items };

    ghost invariant = { λ j. AreLanes j.lanes.items };
}

impl Job {
    ghost use Rattle.std.specs.Prelude.{◌≡◌, ◌<◌, ◌≤◌, ◌≢◌, ◌↔◌, ℕ, List, false, length, All, Err, IfOk, OnErr, IsTrue, IsSome, slice_get};
    ghost use Rattle.user_dedup.specs.Messages.ReplyReading.{reply_at, is_of_entries};
    ghost use Rattle.user_dedup.specs.CdBase.Limits.{IsPath};
    ghost use Rattle.user_dedup.specs.Recipe.Spelling.{file_limit};
    ghost use Rattle.upload_job.specs.Lane.{Done};
    ghost use Rattle.upload_job.specs.Lanes.{lanes_begun, lanes_resumed, lane_begun, request_at, IsAsked, IsDoneAt, AnswersAt};

    /// A new job of a version of a file of at most 67,108,864 bytes, each lane at its beginning. The file is cut and dispersed
    /// once, here.
    pub fn new(
        alloc: Global,
        shape: Shape,
        user: UserId,
        path: &[u8],
        version: Version,
        bytes: &[u8],
    ) -> Result<Job, NoMemory>
        requires path { IsPath path.now }
        requires few { length bytes.now ≤ file_limit }
        ensures { IfOk result (λ job. job ≡ lanes_begun shape
            (record { user = user; path = path.now; number = version; file = bytes.now })) }
    {
        let tag = tag_of(alloc, shape, path)?;
        let files = disperse_file(alloc, shape, path, bytes)?;
        let lanes = lanes_of(alloc, shape, files.into_vec())?;
        Ok(Job {
            alloc,
            key: VersionKey { user, tag, version },
            lanes,
            spare: Bytes::new(alloc),
        })
    }

    /// The same as `new` makes it, of a file whose bytes are let go while they are dispersed: file and shares together take some half of
    /// the file less.
    pub fn of_bytes(
        alloc: Global,
        shape: Shape,
        user: UserId,
        path: &[u8],
        version: Version,
        bytes: FileBytes,
    ) -> Result<Job, NoMemory>
        requires path { IsPath path.now }
        requires few { length bytes ≤ file_limit }
        ensures { IfOk result (λ job. job ≡ lanes_begun shape
            (record { user = user; path = path.now; number = version; file = bytes })) }
    {
        let tag = tag_of(alloc, shape, path)?;
        let files = disperse_bytes(alloc, shape, path, bytes)?;
        let lanes = lanes_of(alloc, shape, files.into_vec())?;
        Ok(Job {
            alloc,
            key: VersionKey { user, tag, version },
            lanes,
            spare: Bytes::new(alloc),
        })
    }

    /// A new job that brings a version of a file of at most 67,108,864 bytes to one cloud alone, whose lane is at its beginning: the
    /// file is cut and dispersed once, here, and of the shares only those of that cloud are kept and hashed. There are as many lanes
    /// as clouds; the others have nothing to bring, and no request.
    pub fn for_lane(
        alloc: Global,
        shape: Shape,
        user: UserId,
        path: &[u8],
        version: Version,
        bytes: &[u8],
        lane: CloudNo,
    ) -> Result<Job, NoMemory>
        requires path { IsPath path.now }
        requires few { length bytes.now ≤ file_limit }
        requires lane { lane.0 < shape.n }
        ensures { IfOk result (λ job. job
            ≡ lane_begun shape (record { user = user; path = path.now; number = version; file = bytes.now }) lane.0) }
    {
        let tag = tag_of(alloc, shape, path)?;
        let file = disperse_for(alloc, shape, lane, path, bytes)?;
        let lanes = lane_alone(alloc, shape, lane, file)?;
        Ok(Job {
            alloc,
            key: VersionKey { user, tag, version },
            lanes,
            spare: Bytes::new(alloc),
        })
    }

    /// A job that goes on with a version of a file of at most 67,108,864 bytes: the lanes of these clouds have entered it and ask for
    /// nothing, and the others are at their beginning. The file is cut and dispersed once, here.
    pub fn resume(
        alloc: Global,
        shape: Shape,
        user: UserId,
        path: &[u8],
        version: Version,
        bytes: &[u8],
        committed: &Clouds,
    ) -> Result<Job, NoMemory>
        requires path { IsPath path.now }
        requires few { length bytes.now ≤ file_limit }
        requires below { All (λ cloud. cloud < shape.n) committed.now }
        ensures { IfOk result (λ job. job ≡ lanes_resumed shape
            (record { user = user; path = path.now; number = version; file = bytes.now }) committed.now) }
    {
        let tag = tag_of(alloc, shape, path)?;
        let files = disperse_file(alloc, shape, path, bytes)?;
        let mut lanes = lanes_of(alloc, shape, files.into_vec())?;
        end_lanes(alloc, &mut lanes, committed.as_slice());
        Ok(Job {
            alloc,
            key: VersionKey { user, tag, version },
            lanes,
            spare: Bytes::new(alloc),
        })
    }

    /// How many lanes there are: as many as clouds.
    pub fn lanes(&self) -> usize
        ensures { result ≡ length self.now }
    {
        self.lanes.len()
    }

    /// Puts the lane's request in the place of what stands in `out`, and is true. False, with `out` as before, exactly where the
    /// lane is at its end: its version is entered, or it was refused. Asked again without an answer it gives the same request. After
    /// want of memory `out` is as before; the job is so always.
    pub fn next(&mut self, lane: CloudNo, out: &mut Bytes) -> Result<bool, NoMemory>
        requires { lane.0 < length self.old }
        ensures request { IfOk result (λ more. IsAsked (request_at self.old lane.0) more out.old out.new) }
        ensures same { self.new ≡ self.old }
        ensures err { OnErr result (out.new ≡ out.old) }
    {
        let place = lane.0 as usize;
        self.spare.clear();
        let more = put_request(&mut self.spare, &self.key, &self.lanes[place])?;
        if more {
            mem::swap(&mut self.spare, out);
        }
        Ok(more)
    }

    /// Takes the reply to the lane's request, which the lane has, as `next` says. Ok exactly where a server that keeps to the
    /// rules may give this reply to that request: what it tells, and the lane moves by it. `LaneErr::Strange` exactly where not,
    /// with the first byte of the content, or 0 of an empty one; the lane is refused then. After want of memory here the job is as
    /// before. Other lanes stay.
    pub fn answer(&mut self, lane: CloudNo, reply: &[u8]) -> Result<LaneNews, LaneErr>
        requires { IsSome (request_at self.old lane.0) }
        ensures answers { AnswersAt self.old lane.0 reply.now result self.new }
        // Want of memory is no answer to content that is no reply, but to entries, which are read one by one.
        ensures malformed { (at : ℕ) → reply_at reply.now ≡ Err at → is_of_entries reply.now ≡ false
            → result ≢ Err LaneErr.NoMemory }
        ensures others { (i : ℕ) → i ≢ lane.0 → slice_get self.new i ≡ slice_get self.old i }
    {
        let place = lane.0 as usize;
        let Turn { result, next } = turn_of(self.alloc, &self.lanes[place], reply);
        move_lane(self.alloc, &mut self.lanes[place], next);
        result
    }

    /// Whether the version is entered at this cloud.
    pub fn is_entered(&self, lane: CloudNo) -> bool
        requires { lane.0 < length self.now }
        ensures { IsTrue result ↔ IsDoneAt self.now lane.0 }
    {
        is_done(&self.lanes[lane.0 as usize])
    }

    /// Whether the version is entered at all clouds.
    pub fn stored(&self) -> bool
        ensures { IsTrue result ↔ All (λ lane. lane.state ≡ Done) self.now }
    {
        are_done(self.lanes.as_slice())
    }
}
