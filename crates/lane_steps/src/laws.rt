//! Laws of a lane that went on over a link, for the proofs of callers. The calls do nothing: their clauses
//! are theorems.

ghost use Rattle.std.specs.Prelude.{ℕ, List};
ghost use Rattle.upload_job.specs.UserDedup.Exec.{Peer};
ghost use Rattle.upload_job.specs.UserDedup.Link.{Does, Talk};
ghost use Rattle.lane_steps.specs.Runs.{LaneTurn, Progress, LaneRun, LaneAlong};
ghost use Rattle.lane_steps.specs.Steps.{Heard, SayTheSame, TalksBy};

use upload_job::Link;

/// From each state that its cloud stood for, the cloud went on by the requests and replies of the lane.
pub fn law_of_peers<L: Link>()
    // to the lane's end
    ensures run { (cloud : ℕ) (lane last : Progress) (old new : L) (turns : List (LaneTurn L)) (p : Peer)
        → LaneRun (Heard L.tells L.talk cloud) lane old turns last new → L.tells.stands old cloud p
        → (q : Peer) × L.tells.stands new cloud q × (others : List (LaneTurn Peer))
        × SayTheSame turns others × LaneRun (Does L.tells cloud old) lane p others last q }
    // and up to any of its steps
    ensures along { (cloud : ℕ) (lane last : Progress) (old new : L) (turns : List (LaneTurn L)) (p : Peer)
        → LaneAlong (Heard L.tells L.talk cloud) lane old turns last new → L.tells.stands old cloud p
        → (q : Peer) × L.tells.stands new cloud q × (others : List (LaneTurn Peer))
        × SayTheSame turns others × LaneAlong (Does L.tells cloud old) lane p others last q }
{}

/// Where a link tells what is said with the cloud, just the lane's requests were sent, in order, and each
/// reply was the next to come.
pub fn law_of_talks<L: Link>()
    ensures run { (cloud : ℕ) (lane last : Progress) (old new : L) (turns : List (LaneTurn L)) (before : Talk)
        → LaneRun (Heard L.tells L.talk cloud) lane old turns last new → L.talk old cloud before
        → (after : Talk) × L.talk new cloud after × TalksBy turns before after }
    ensures along { (cloud : ℕ) (lane last : Progress) (old new : L) (turns : List (LaneTurn L)) (before : Talk)
        → LaneAlong (Heard L.tells L.talk cloud) lane old turns last new → L.talk old cloud before
        → (after : Talk) × L.talk new cloud after × TalksBy turns before after }
{}
