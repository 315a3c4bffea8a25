//! What the content of a reply does to a lane.

ghost use Rattle.std.specs.Prelude.{◌≡◌, ◌≢◌, ℕ, List, false, length, vec_len, IfOk, IsOk, Err};
ghost use Rattle.user_dedup.specs.Messages.ReplyReading.{reply_at, is_of_entries};
ghost use Rattle.upload_job.specs.Upload.{Work, in_batches};
ghost use Rattle.upload_job.specs.Lanes.{AnswersLane, first_byte};
ghost use Rattle.upload_job.specs.Index.{state_in, next_in, IsReplyRead, TurnsBy};

use crate::lane::{Lane, LaneStage, Step, step_of};
use crate::{LaneErr, LaneNews};
use std::alloc::Global;
use user_dedup::{FRAME_LIMIT, MsgErr, NoMemory, Reply};

/// What an answer returns, and where the lane stands next, if it moves.
#[derive(Drop)]
pub struct Turn {
    pub result: Result<LaneNews, LaneErr>,
    pub next: Option<LaneStage>,
}

// The reply that the content is, or None where it is none that answers a lane: those have at most 65 bytes but for flags.
fn read_reply(alloc: Global, content: &[u8]) -> Result<Option<Reply>, NoMemory>
    ensures read { IfOk result (IsReplyRead content.now) }
    ensures malformed { (at : ℕ) → reply_at content.now ≡ Err at → is_of_entries content.now ≡ false → IsOk result }
{
    if content.len() > FRAME_LIMIT {
        return Ok(None);
    }
    match Reply::read(alloc, content) {
        Ok(reply) => Ok(Some(reply)),
        Err(MsgErr::Malformed { .. }) => Ok(None),
        Err(MsgErr::NoMemory) => Err(NoMemory),
    }
}

// The first byte, or 0 where there is none.
fn kind_of(content: &[u8]) -> u8
    ensures { result ≡ first_byte content.now }
{
    match content {
        [] => 0,
        [kind, ..] => *kind,
    }
}

// What a step does, or the lack of one.
fn turn_by(content: &[u8], step: Option<Step>) -> Turn
    ensures turns { TurnsBy content.now step result }
    ensures memory { result.result ≢ Err LaneErr.NoMemory }
{
    match step {
        Some(step) => Turn {
            result: Ok(step.news),
            next: step.next,
        },
        None => Turn {
            result: Err(LaneErr::Strange {
                kind: kind_of(content),
            }),
            next: Some(LaneStage::Refused),
        },
    }
}

/// What content does to a lane.
pub fn turn_of(alloc: Global, lane: &Lane, content: &[u8]) -> Turn
    ensures turns { (w : Work) (all : List (List ℕ)) → length all ≡ vec_len lane.now.wanted → w.items ≡ lane.now.items
        → w.batches ≡ in_batches all
        → AnswersLane (record { work = w; state = state_in all lane.now.stage }) content.now result.result
        (next_in all (state_in all lane.now.stage) result.next) }
    ensures malformed { (at : ℕ) → reply_at content.now ≡ Err at → is_of_entries content.now ≡ false
        → result.result ≢ Err LaneErr.NoMemory }
{
    match read_reply(alloc, content) {
        Ok(Some(reply)) => turn_by(content, step_of(lane, reply)),
        Ok(None) => turn_by(content, None),
        Err(NoMemory) => Turn {
            result: Err(LaneErr::NoMemory),
            next: None,
        },
    }
}
