//! The lanes of a kept job, over ports.

ghost use Rattle.std.specs.Prelude.{◌≡◌, ◌<◌, ◌≤◌, ℕ, List, All, IsTrue};
ghost use Rattle.std.specs.List.{Contains};
ghost use Rattle.upload_spool.specs.CdEdges.Causes.{Rose};
ghost use Rattle.upload_spool.specs.CdEdges.Ports.{Telling};
ghost use Rattle.upload_spool.specs.CdEdges.Shelf.{IsCall, HasFailed};
ghost use Rattle.upload_spool.specs.CommitJournal.journal.Stage.{Stage};
ghost use Rattle.backup_command.specs.PortsLink.Tells.{telling};
ghost use Rattle.backup_command.specs.LaneSteps.Reached.{IsReached};
ghost use Rattle.upload_spool.specs.UploadJob.Upload.{FileVersion};
ghost use Rattle.upload_spool.specs.States.{state_of, IsOf, IsJobOf};
ghost use Rattle.backup_command.specs.Lanes.{numbered};
ghost use Rattle.backup_command.specs.Sends.{IsAskOn, SendsOn};
ghost use Rattle.backup_command.specs.Steps.{AreGreetedOn, AreReady, IsNumbered, ports_of};
ghost use Rattle.spool_command.specs.Noted.{IfPorts, IfShelf, NotedWent, halted_as};

use crate::interruption::Interruption;
use crate::noting::note_lane;
use backup_command::{Greeted, Halt, PortsLink, ReplyBuf, bring_one, lines_of, next_line};
use std::alloc::Global;
use upload_spool::{Bytes, CloudNo, Job, LaneNews, NoMemory, Ports, Shelf, Spool};

/// What a lane needs room for: its request, a reply, and its news.
#[derive(Drop)]
pub struct LaneBuffers {
    pub content: Bytes,
    pub reply: ReplyBuf,
    pub told: Vec<LaneNews>,
}

// The same cause.
fn interruption(halt: Halt) -> Interruption
    ensures { result ≡ halted_as halt }
{
    match halt {
        Halt::Lost => Interruption::Ports,
        Halt::NoMemory => Interruption::Memory,
    }
}

/// Brings the lanes of these clouds to their ends, one after another, with their lines, and notes each whose cloud has
/// committed, before the next is asked. It stops where the ports or the shelf fail, and where memory runs out.
pub fn bring_noted<P: Ports, V: Shelf>(
    link: &mut PortsLink<'_, P>,
    lines: &[(CloudNo, u32)],
    spool: &mut Spool,
    job: &mut Job,
    shelf: &mut V,
    buffers: &mut LaneBuffers,
    text: &mut Bytes,
) -> Result<(), Interruption>
    requires below { All (λ line. line.0.0 < link.old.shape.n) lines.now }
    requires reaches { All (λ line. IsTrue ((telling P.tells P.faults).reaches link.old line.0.0))
        lines.now }
    requires reached { IsReached link.old.shape job.old }
    requires open { (state_of spool.old).journal.stage ≡ Stage.AtEnd }
    requires own { (v : FileVersion) × IsOf (state_of spool.old) v
        × IsJobOf (state_of spool.old).shape v job.old }
    requires same { (state_of spool.old).shape ≡ link.old.shape }
    ensures went { (behind : Telling) → AreReady behind P.tells link.old lines.now
        → NotedWent behind (P.tells link.new.ports.now) lines.now job.old result job.new text.old text.new
        (state_of spool.old) (state_of spool.new) (V.cloud_at shelf.old 0) (V.cloud_at shelf.new 0) }
    ensures others { (behind : Telling) → AreReady behind P.tells link.old lines.now
        → IsTrue behind.told → (port : ℕ) → ¬ Contains (ports_of lines.now) port
        → (P.tells link.new.ports.now).port port ≡ (P.tells link.old.ports.now).port port }
    ensures sends { (behind : Telling) → AreReady behind P.tells link.old lines.now → IsTrue behind.told
        → SendsOn (IsAskOn lines.now job.old) (P.tells link.old.ports.now) (P.tells link.new.ports.now) }
    ensures told { (P.tells link.new.ports.now).told ≡ (P.tells link.old.ports.now).told }
    ensures same_reference { link.new.ports.ghost_name ≡ link.old.ports.ghost_name }
    ensures later { P.faults link.old.ports.now ≤ P.faults link.new.ports.now }
    ensures lost { IfPorts result (Rose (P.faults link.old.ports.now) (P.faults link.new.ports.now)) }
    ensures call { IsCall (V.cloud_at shelf.old) (V.cloud_at shelf.new) 0 (V.faults shelf.old) (V.faults shelf.new) }
    ensures failed { IfShelf result
        (HasFailed (V.cloud_at shelf.old 0) (V.cloud_at shelf.new 0) (V.faults shelf.old) (V.faults shelf.new)) }
{
    let Some((line, more)) = next_line(lines) else {
        return Ok(());
    };
    match bring_one(
        link,
        job,
        line.0,
        &mut buffers.content,
        &mut buffers.reply,
        &mut buffers.told,
        text,
    ) {
        Ok(()) => {}
        Err(halt) => return Err(interruption(halt)),
    }
    match note_lane(spool, shelf, job, line.0) {
        Ok(()) => {}
        Err(why) => return Err(why),
    }
    bring_noted(link, more, spool, job, shelf, buffers, text)
}

/// Brings the lanes of a kept job to the clouds that were greeted, with their lines and notes.
pub fn bring_greeted<P: Ports, V: Shelf>(
    alloc: Global,
    greeted: &Greeted,
    spool: &mut Spool,
    job: &mut Job,
    shelf: &mut V,
    ports: &mut P,
    buffers: &mut LaneBuffers,
    text: &mut Bytes,
) -> Result<(), Interruption>
    requires numbered { IsNumbered greeted.now }
    requires reached { IsReached greeted.now.shape job.old }
    requires open { (state_of spool.old).journal.stage ≡ Stage.AtEnd }
    requires own { (v : FileVersion) × IsOf (state_of spool.old) v
        × IsJobOf (state_of spool.old).shape v job.old }
    requires same { (state_of spool.old).shape ≡ greeted.now.shape }
    ensures went { (dialled : List ℕ) → AreGreetedOn (P.tells ports.old) dialled greeted.now.lines.items
        → NotedWent (P.tells ports.old) (P.tells ports.new) greeted.now.lines.items job.old result job.new
        text.old text.new (state_of spool.old) (state_of spool.new) (V.cloud_at shelf.old 0) (V.cloud_at shelf.new 0) }
    ensures others { (dialled : List ℕ) → AreGreetedOn (P.tells ports.old) dialled greeted.now.lines.items
        → IsTrue (P.tells ports.old).told → (port : ℕ) → ¬ Contains dialled port
        → (P.tells ports.new).port port ≡ (P.tells ports.old).port port }
    ensures sends { (dialled : List ℕ) → AreGreetedOn (P.tells ports.old) dialled greeted.now.lines.items
        → IsTrue (P.tells ports.old).told
        → SendsOn (IsAskOn (numbered 0 dialled) job.old) (P.tells ports.old) (P.tells ports.new) }
    ensures told { (P.tells ports.new).told ≡ (P.tells ports.old).told }
    ensures later { P.faults ports.old ≤ P.faults ports.new }
    ensures lost { IfPorts result (Rose (P.faults ports.old) (P.faults ports.new)) }
    ensures call { IsCall (V.cloud_at shelf.old) (V.cloud_at shelf.new) 0 (V.faults shelf.old) (V.faults shelf.new) }
    ensures failed { IfShelf result
        (HasFailed (V.cloud_at shelf.old 0) (V.cloud_at shelf.new 0) (V.faults shelf.old) (V.faults shelf.new)) }
{
    let lines = match lines_of(alloc, greeted.lines.as_slice()) {
        Ok(lines) => lines,
        Err(NoMemory) => return Err(Interruption::Memory),
    };
    let mut link = PortsLink::of(ports, greeted.shape, lines);
    let came = bring_noted(
        &mut link,
        greeted.lines.as_slice(),
        spool,
        job,
        shelf,
        buffers,
        text,
    );
    let _ports = link.release();
    came
}
