//! The lanes of a job, over ports.

ghost use Rattle.std.specs.Prelude.{◌≡◌, ◌<◌, ◌≤◌, ◌∷◌, [], ℕ, All, map, IsTrue, OnOk, MatchOption};
ghost use Rattle.std.specs.List.{Contains};
ghost use Rattle.transcript.specs.CdEdges.Causes.{Rose};
ghost use Rattle.transcript.specs.CdEdges.Ports.{Telling};
ghost use Rattle.ports_link.specs.Tells.{telling};
ghost use Rattle.ports_link.specs.UserDedup.Link.{SaysNothingElse};
ghost use Rattle.lane_steps.specs.Reached.{IsReached};
ghost use Rattle.lane_steps.specs.Runs.{lane_at};
ghost use Rattle.backup_command.specs.Steps.{AreReady, IfLost, IsCloudReady, LaneGoesOnPort, LanesWent};
ghost use Rattle.backup_command.specs.Steps.{KeepsOtherPorts};
ghost use Rattle.backup_command.specs.Steps.{Talked, ports_of};
ghost use Rattle.backup_command.specs.Sends.{IsAskOf, IsAskOn, SendsFor, SendsOn};

use crate::halt::Halt;
use crate::news::put_lane;
use lane_steps::{Job, LaneNews, finish_lane};
use ports_link::{PortsLink, ReplyBuf};
use transcript::{Bytes, CloudNo, Ports};

/// The first cloud with its port, and the others, or None where there is none.
pub fn next_line(lines: &[(CloudNo, u32)]) -> Option<((CloudNo, u32), &[(CloudNo, u32)])>
    ensures { MatchOption result (lines.now ≡ []) (λ x. lines.now ≡ x.0 ∷ x.1.now) }
{
    match lines {
        [] => None,
        [line, more @ ..] => Some((*line, more)),
    }
}

/// Brings the lane of one cloud to its end, with its lines behind the text. It stops where the ports fail, and where memory
/// runs out. `told` has the news of its replies then, and of no other lane. Whatever becomes of it, nothing was sent but pieces
/// of the lane's own requests, on its cloud's port.
pub fn bring_one<P: Ports>(
    link: &mut PortsLink<'_, P>,
    job: &mut Job,
    lane: CloudNo,
    content: &mut Bytes,
    reply: &mut ReplyBuf,
    told: &mut Vec<LaneNews>,
    text: &mut Bytes,
) -> Result<(), Halt>
    requires below { lane.0 < link.old.shape.n }
    requires reaches { IsTrue ((telling P.tells P.faults).reaches link.old lane.0) }
    requires reached { IsReached link.old.shape job.old }
    ensures goes { (behind : Telling) (port : ℕ) → (P.tells link.old.ports.now).told ≡ behind.told
        → IsCloudReady behind P.tells link.old (lane, port)
        → LaneGoesOnPort behind (P.tells link.new.ports.now) (lane, port) job.old result job.new text.old text.new }
    ensures leaves { KeepsOtherPorts P.tells lane.0 link.old link.new }
    ensures talks { OnOk result (SaysNothingElse (Talked P.tells) lane.0 link.old link.new) }
    ensures sends { SendsFor P.tells lane.0 (IsAskOf (lane_at job.old lane.0).work) link.old link.new }
    ensures reaches { (telling P.tells P.faults).reaches link.new ≡ (telling P.tells P.faults).reaches link.old }
    ensures reached { IsReached link.old.shape job.new }
    ensures works { map (λ lane. lane.work) job.new ≡ map (λ lane. lane.work) job.old }
    ensures shape { link.new.shape ≡ link.old.shape }
    ensures later { P.faults link.old.ports.now ≤ P.faults link.new.ports.now }
    ensures lost { IfLost result (Rose (P.faults link.old.ports.now) (P.faults link.new.ports.now)) }
{
    told.clear();
    let came = finish_lane(link, job, lane, content, reply, told);
    put_lane(lane, came, told.as_slice(), text)
}

/// Brings the lanes of these clouds to their ends, one after another, with their lines. It stops where the ports
/// fail, and where memory runs out.
pub fn bring_lanes<P: Ports>(
    link: &mut PortsLink<'_, P>,
    lines: &[(CloudNo, u32)],
    job: &mut Job,
    content: &mut Bytes,
    reply: &mut ReplyBuf,
    told: &mut Vec<LaneNews>,
    text: &mut Bytes,
) -> Result<(), Halt>
    requires below { All (λ line. line.0.0 < link.old.shape.n) lines.now }
    requires reaches { All (λ line. IsTrue ((telling P.tells P.faults).reaches link.old line.0.0))
        lines.now }
    requires reached { IsReached link.old.shape job.old }
    ensures went { (behind : Telling) → AreReady behind P.tells link.old lines.now
        → LanesWent behind (P.tells link.new.ports.now) lines.now job.old result job.new text.old text.new }
    ensures others { (behind : Telling) → AreReady behind P.tells link.old lines.now
        → IsTrue behind.told → (port : ℕ) → ¬ Contains (ports_of lines.now) port
        → (P.tells link.new.ports.now).port port ≡ (P.tells link.old.ports.now).port port }
    ensures sends { (behind : Telling) → AreReady behind P.tells link.old lines.now → IsTrue behind.told
        → SendsOn (IsAskOn lines.now job.old) (P.tells link.old.ports.now) (P.tells link.new.ports.now) }
    ensures told { (P.tells link.new.ports.now).told ≡ (P.tells link.old.ports.now).told }
    ensures same_reference { link.new.ports.ghost_name ≡ link.old.ports.ghost_name }
    ensures later { P.faults link.old.ports.now ≤ P.faults link.new.ports.now }
    ensures lost { IfLost result (Rose (P.faults link.old.ports.now) (P.faults link.new.ports.now)) }
{
    let Some((line, more)) = next_line(lines) else {
        return Ok(());
    };
    match bring_one(link, job, line.0, content, reply, told, text) {
        Ok(()) => {}
        Err(halt) => return Err(halt),
    }
    bring_lanes(link, more, job, content, reply, told, text)
}
