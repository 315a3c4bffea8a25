//! One lane: where it stands, and what a reply does to it.

ghost use Rattle.std.specs.Prelude.{◌≡◌, ◌==◌, ◌↔◌, ◌≤◌, ◌<◌, ℕ, List, length, take, drop, vec_len, IsTrue, All, Some, None};
ghost use Rattle.std.specs.List.{list_all, count_by};
ghost use Rattle.user_dedup.specs.MessageFields.Fingerprints.{batch_limit};
ghost use Rattle.upload_job.specs.Upload.{Work, in_batches};
ghost use Rattle.upload_job.specs.Lane.{Asking, Sending, Committing, past_known, unflagged};
ghost use Rattle.user_dedup.specs.Messages.reply.Reply.TheVariants.{Known, Stored, Lacking};
ghost use Rattle.upload_job.specs.declared.lane.LaneStage.TheVariants as stages;
ghost use Rattle.user_dedup.specs.CdBase.Numbers.{numbers_of};
ghost use Rattle.upload_job.specs.Index.{ends_at, state_in, moved_to, staged_at, done_at, StepIsByReply};

use crate::LaneNews;
use crate::recalled::Recalled;
use crate::wanted::{WantedShare, batch_at};
use std::alloc::Global;
use user_dedup::{Bytes, CloudNo, Reply, Tag, UserId, Version};

/// The user, and the tag and version of the file.
#[derive(Clone, Copy)]
pub struct VersionKey {
    pub user: UserId,
    pub tag: Tag,
    pub version: Version,
}

/// Where a lane stands.
#[derive(Drop)]
pub enum LaneStage {
    /// It asks for the batch of the wanted shares from this place on. Where none is left it enters the recipe.
    Bringing { from: usize },
    /// It sends those shares of the batch from this place on whose flag is 0.
    Sending { from: usize, flags: Bytes },
    /// The version is entered.
    Done,
    /// The lane asks for nothing any more.
    Refused,
}

/// What one cloud is to get, and how far the lane has come.
#[derive(Drop)]
pub struct Lane {
    pub recipe: Bytes,
    pub items: u32,
    /// The cloud's shares, one after another, which the lane lets go when it comes to its end.
    pub shares: Bytes,
    /// Which of them it is to have.
    pub wanted: Vec<WantedShare>,
    pub stage: LaneStage,
    /// The shares that it had at its beginning.
    pub recalled: Recalled,
}

/// What a reply tells, and where the lane stands next, if it moves.
#[derive(Drop)]
pub struct Step {
    pub news: LaneNews,
    pub next: Option<LaneStage>,
}

// How many of the flags are 1.
fn ones(flags: &[u8]) -> usize
    ensures { result ≡ count_by (λ flag. flag == 1) flags.now }
{
    flags.iter().filter(|flag| **flag == 1).count()
}

// How many of the flags are 0.
fn zeros_in(flags: &[u8]) -> usize
    ensures { result ≡ count_by (λ flag. flag == 0) flags.now }
{
    flags.iter().filter(|flag| **flag == 0).count()
}

// Whether all of the flags are 1.
fn are_ones(flags: &[u8]) -> bool
    ensures { result ≡ list_all (λ flag. flag == 1) flags.now }
{
    flags.iter().all(|flag| *flag == 1)
}

/// How many shares of a batch of so many have the flag 0.
pub fn zeros(count: usize, flags: &[u8]) -> usize
    ensures few { result ≤ count }
    ensures value { (batch : List (List ℕ)) → length batch ≡ count → result ≡ length (unflagged batch flags.now) }
{
    let (front, _) = flags.split_at(count.min(flags.len()));
    zeros_in(front)
}

// The lane stays where it is.
fn stays(news: LaneNews) -> Option<Step>
    ensures { result ≡ Some (record { news = news; next = None }) }
{
    Some(Step { news, next: None })
}

// The lane moves.
fn moves(news: LaneNews, stage: LaneStage) -> Option<Step>
    ensures { result ≡ Some (record { news = news; next = Some stage }) }
{
    Some(Step {
        news,
        next: Some(stage),
    })
}

// Past a batch of which all is known, or to sending what isn't.
fn past(from: usize, next: usize, flags: Bytes) -> LaneStage
    ensures { (all : List (List ℕ)) → drop next all ≡ drop batch_limit (drop from all)
        → state_in all result
        ≡ past_known (take batch_limit (drop from all)) flags (in_batches (drop batch_limit (drop from all))) }
{
    if are_ones(flags.as_slice()) {
        LaneStage::Bringing { from: next }
    } else {
        LaneStage::Sending { from, flags }
    }
}

// After flags for a batch of so many.
fn after_known(from: usize, next: usize, asked: u16, flags: Bytes) -> Option<Step>
    ensures { (w : Work) (all : List (List ℕ)) → length (take batch_limit (drop from all)) ≡ asked
        → drop next all ≡ drop batch_limit (drop from all)
        → StepIsByReply w all (Asking (take batch_limit (drop from all))
        (in_batches (drop batch_limit (drop from all))))
        (Known flags) result }
{
    if flags.len() != asked as usize {
        return None;
    }
    let known = ones(flags.as_slice()) as u16;
    moves(LaneNews::Known { known, asked }, past(from, next, flags))
}

// What a reply does to the lane that asks for a batch of so many, behind which the next one begins.
fn after_query(from: usize, next: usize, asked: u16, reply: Reply) -> Option<Step>
    ensures { (w : Work) (all : List (List ℕ)) → length (take batch_limit (drop from all)) ≡ asked
        → drop next all ≡ drop batch_limit (drop from all)
        → StepIsByReply w all (Asking (take batch_limit (drop from all))
        (in_batches (drop batch_limit (drop from all)))) reply result }
{
    match reply {
        Reply::Known { flags } => after_known(from, next, asked, flags),
        Reply::Fault => stays(LaneNews::Fault),
        Reply::NoMemory => stays(LaneNews::NoMemory),
        Reply::Damaged { at, byte } => moves(LaneNews::Damaged { at, byte }, LaneStage::Refused),
        Reply::Hello { .. } => None,
        Reply::Stored { .. } => None,
        Reply::Committed => None,
        Reply::Exists => None,
        Reply::Lacking { .. } => None,
        Reply::Recipe { .. } => None,
        Reply::Missing => None,
        Reply::Shares { .. } => None,
        Reply::NotYours { .. } => None,
        Reply::Entries { .. } => None,
        Reply::Deleted => None,
        Reply::Full { .. } => None,
        Reply::Rotten { .. } => None,
        Reply::Malformed { .. } => None,
    }
}

// After so many shares that were new, of those that were sent.
fn after_stored(next: usize, sent: u16, new: u16) -> Option<Step>
    ensures { (w : Work) (all batch : List (List ℕ)) (flags : List ℕ) (rest : List (List (List ℕ)))
        → length (unflagged batch flags) ≡ sent → in_batches (drop next all) ≡ rest
        → StepIsByReply w all (Sending batch flags rest) (Stored new) result }
{
    if new <= sent {
        moves(
            LaneNews::Stored { new, sent },
            LaneStage::Bringing { from: next },
        )
    } else {
        None
    }
}

// What a reply does to the lane that sends so many shares, behind whose batch the next one begins.
fn after_put(next: usize, sent: u16, reply: Reply) -> Option<Step>
    ensures { (w : Work) (all batch : List (List ℕ)) (flags : List ℕ) (rest : List (List (List ℕ)))
        → length (unflagged batch flags) ≡ sent → in_batches (drop next all) ≡ rest
        → StepIsByReply w all (Sending batch flags rest) reply result }
{
    match reply {
        Reply::Stored { new } => after_stored(next, sent, new),
        Reply::Fault => stays(LaneNews::Fault),
        Reply::NoMemory => stays(LaneNews::NoMemory),
        Reply::Damaged { at, byte } => moves(LaneNews::Damaged { at, byte }, LaneStage::Refused),
        Reply::Full {
            room,
            used,
            need,
            limit,
        } => moves(
            LaneNews::Full {
                room,
                used,
                need,
                limit,
            },
            LaneStage::Refused,
        ),
        Reply::Hello { .. } => None,
        Reply::Known { .. } => None,
        Reply::Committed => None,
        Reply::Exists => None,
        Reply::Lacking { .. } => None,
        Reply::Recipe { .. } => None,
        Reply::Missing => None,
        Reply::Shares { .. } => None,
        Reply::NotYours { .. } => None,
        Reply::Entries { .. } => None,
        Reply::Deleted => None,
        Reply::Rotten { .. } => None,
        Reply::Malformed { .. } => None,
    }
}

// After the place of an item that the cloud lacks: back to the first batch.
fn after_lacking(items: u32, place: u32) -> Option<Step>
    ensures { (w : Work) (all : List (List ℕ)) → w.items ≡ items → w.batches ≡ in_batches all
        → StepIsByReply w all Committing (Lacking place) result }
{
    if place < items {
        moves(LaneNews::Lacking { place }, LaneStage::Bringing { from: 0 })
    } else {
        None
    }
}

// What a reply does to the lane that enters a recipe of so many items.
fn after_commit(items: u32, reply: Reply) -> Option<Step>
    ensures { (w : Work) (all : List (List ℕ)) → w.items ≡ items → w.batches ≡ in_batches all
        → StepIsByReply w all Committing reply result }
{
    match reply {
        Reply::Committed => moves(LaneNews::Committed, LaneStage::Done),
        Reply::Exists => moves(LaneNews::Exists, LaneStage::Refused),
        Reply::Lacking { place } => after_lacking(items, place),
        Reply::Fault => stays(LaneNews::Fault),
        Reply::NoMemory => stays(LaneNews::NoMemory),
        Reply::Damaged { at, byte } => moves(LaneNews::Damaged { at, byte }, LaneStage::Refused),
        Reply::Rotten { named, found } => {
            moves(LaneNews::Rotten { named, found }, LaneStage::Refused)
        }
        Reply::Full {
            room,
            used,
            need,
            limit,
        } => moves(
            LaneNews::Full {
                room,
                used,
                need,
                limit,
            },
            LaneStage::Refused,
        ),
        Reply::Hello { .. } => None,
        Reply::Known { .. } => None,
        Reply::Stored { .. } => None,
        Reply::Recipe { .. } => None,
        Reply::Missing => None,
        Reply::Shares { .. } => None,
        Reply::NotYours { .. } => None,
        Reply::Entries { .. } => None,
        Reply::Deleted => None,
        Reply::Malformed { .. } => None,
    }
}

// The step of a lane that asks, or enters the recipe.
fn after_bringing(wanted: &[WantedShare], items: u32, from: usize, reply: Reply) -> Option<Step>
    ensures { (w : Work) (all : List (List ℕ)) → length all ≡ length wanted.now → w.items ≡ items
        → w.batches ≡ in_batches all
        → StepIsByReply w all (state_in all (stages.Bringing from)) reply result }
{
    if from < wanted.len() {
        let batch = batch_at(wanted, from);
        after_query(from, from + batch.len(), batch.len() as u16, reply)
    } else {
        after_commit(items, reply)
    }
}

// The step of a lane that sends.
fn after_sending(wanted: &[WantedShare], from: usize, flags: &[u8], reply: Reply) -> Option<Step>
    ensures { (w : Work) (all : List (List ℕ)) → length all ≡ length wanted.now
        → StepIsByReply w all (state_in all (stages.Sending from flags.now)) reply result }
{
    let batch = batch_at(wanted, from);
    let sent = zeros(batch.len(), flags) as u16;
    after_put(from + batch.len(), sent, reply)
}

/// What a reply does to the lane, or None where no server that keeps to the rules gives it to the lane's request.
pub fn step_of(lane: &Lane, reply: Reply) -> Option<Step>
    ensures { (w : Work) (all : List (List ℕ)) → length all ≡ vec_len lane.now.wanted → w.items ≡ lane.now.items
        → w.batches ≡ in_batches all
        → StepIsByReply w all (state_in all lane.now.stage) reply result }
{
    match &lane.stage {
        LaneStage::Bringing { from } => {
            after_bringing(lane.wanted.as_slice(), lane.items, *from, reply)
        }
        LaneStage::Sending { from, flags } => {
            after_sending(lane.wanted.as_slice(), *from, flags.as_slice(), reply)
        }
        LaneStage::Done => None,
        LaneStage::Refused => None,
    }
}

// Whether a lane that stands there is at its end.
fn is_end(stage: &LaneStage) -> bool
    ensures { result ≡ ends_at stage.now }
{
    match stage {
        LaneStage::Done => true,
        LaneStage::Refused => true,
        LaneStage::Bringing { .. } => false,
        LaneStage::Sending { .. } => false,
    }
}

// Makes the lane stand there. At its end its shares are let go.
fn stand(alloc: Global, lane: &mut Lane, stage: LaneStage)
    ensures { lane.new ≡ moved_to lane.old (Some stage) }
{
    if is_end(&stage) {
        lane.shares = Bytes::new(alloc);
    }
    lane.stage = stage;
}

/// Moves the lane, where it is to move. At its end its shares are let go.
pub fn move_lane(alloc: Global, lane: &mut Lane, next: Option<LaneStage>)
    ensures { lane.new ≡ moved_to lane.old next }
{
    match next {
        Some(stage) => stand(alloc, lane, stage),
        None => {}
    }
}

/// Whether the lane has entered its version.
pub fn is_done(lane: &Lane) -> bool
    ensures { IsTrue result ↔ (lane.now.stage ≡ stages.Done) }
{
    match &lane.stage {
        LaneStage::Done => true,
        LaneStage::Bringing { .. } => false,
        LaneStage::Sending { .. } => false,
        LaneStage::Refused => false,
    }
}

/// Whether each lane has entered its version.
pub fn are_done(lanes: &[Lane]) -> bool
    ensures { IsTrue result ↔ All (λ lane. lane.stage ≡ stages.Done) lanes.now }
{
    lanes.iter().all(|lane| is_done(lane))
}

// Ends the lane of this cloud: its version is entered.
fn end_lane(alloc: Global, lanes: &mut Vec<Lane>, cloud: CloudNo)
    requires { cloud.0 < length lanes.old.items }
    ensures { lanes.new.items ≡ staged_at lanes.old.items cloud.0 stages.Done }
{
    stand(alloc, &mut lanes[cloud.0 as usize], LaneStage::Done);
}

/// Ends the lanes of these clouds: their version is entered.
pub fn end_lanes(alloc: Global, lanes: &mut Vec<Lane>, clouds: &[CloudNo])
    requires { All (λ cloud. cloud < length lanes.old.items) (numbers_of clouds.now) }
    ensures { lanes.new.items ≡ done_at lanes.old.items (numbers_of clouds.now) }
{
    for cloud in clouds {
        end_lane(alloc, lanes, *cloud);
    }
}
