//! A kept job that goes on, at clouds that were greeted.

ghost use Rattle.std.specs.Prelude.{◌≡◌, ◌≤◌, ◌++◌, [], ℕ, List, IsTrue, OnOk};
ghost use Rattle.std.specs.List.{Contains};
ghost use Rattle.upload_spool.specs.CdEdges.Causes.{Rose};
ghost use Rattle.upload_spool.specs.CdEdges.Shelf.{IsCall, HasFailed};
ghost use Rattle.upload_spool.specs.CommitJournal.journal.Stage.{Stage};
ghost use Rattle.backup_command.specs.LaneSteps.Reached.{IsReached};
ghost use Rattle.upload_spool.specs.UploadJob.Upload.{FileVersion};
ghost use Rattle.upload_spool.specs.States.{state_of, IsOf, IsJobOf};
ghost use Rattle.backup_command.specs.Lanes.{numbered};
ghost use Rattle.backup_command.specs.Sends.{IsAskOn, SendsOn};
ghost use Rattle.backup_command.specs.Steps.{AreGreetedOn, IsNumbered};
ghost use Rattle.backup_command.specs.Texts.{text_of};
ghost use Rattle.spool_command.specs.Noted.{IfPorts, IfShelf};
ghost use Rattle.spool_command.specs.Going.{EndsJob, EndsStored, WentOn, stored_lines};

use crate::bringing::{LaneBuffers, bring_greeted};
use crate::interruption::Interruption;
use backup_command::{Greeted, Line, put_line};
use std::alloc::Global;
use upload_spool::{Bytes, Job, NoMemory, Ports, Shelf, Spool};

// Appends that the version is entered at all clouds, unless it was so before.
fn put_stored(had: bool, text: &mut Bytes) -> Result<(), NoMemory>
    ensures { OnOk result (text.new ≡ text.old ++ text_of (stored_lines had)) }
{
    if had {
        return Ok(());
    }
    put_line(Line::JobStored { job: 1 }, text)
}

// Gives the spool up, with the last lines before and behind that.
fn end_stored<V: Shelf>(
    spool: Spool,
    shelf: &mut V,
    had: bool,
    text: &mut Bytes,
) -> Result<(), Interruption>
    ensures ends { EndsStored had text.old text.new (V.cloud_at shelf.old 0) (V.cloud_at shelf.new 0) result }
    ensures call { IsCall (V.cloud_at shelf.old) (V.cloud_at shelf.new) 0 (V.faults shelf.old) (V.faults shelf.new) }
    ensures failed { IfShelf result
        (HasFailed (V.cloud_at shelf.old 0) (V.cloud_at shelf.new 0) (V.faults shelf.old) (V.faults shelf.new)) }
{
    match put_stored(had, text) {
        Ok(()) => {}
        Err(NoMemory) => return Err(Interruption::Memory),
    }
    match spool.finish(shelf) {
        Ok(()) => {}
        Err(_) => return Err(Interruption::Shelf),
    }
    match put_line(
        Line::End {
            job: 1,
            stored: true,
        },
        text,
    ) {
        Ok(()) => Ok(()),
        Err(NoMemory) => Err(Interruption::Memory),
    }
}

// Gives the spool up, where the version is entered at all clouds, with the last lines. It answers whether that is so.
fn end_job<V: Shelf>(
    spool: Spool,
    shelf: &mut V,
    had: bool,
    stored: bool,
    text: &mut Bytes,
) -> Result<bool, Interruption>
    ensures ends { EndsJob had stored text.old text.new (V.cloud_at shelf.old 0) (V.cloud_at shelf.new 0) result }
    ensures call { IsCall (V.cloud_at shelf.old) (V.cloud_at shelf.new) 0 (V.faults shelf.old) (V.faults shelf.new) }
    ensures failed { IfShelf result
        (HasFailed (V.cloud_at shelf.old 0) (V.cloud_at shelf.new 0) (V.faults shelf.old) (V.faults shelf.new)) }
{
    if stored {
        match end_stored(spool, shelf, had, text) {
            Ok(()) => Ok(true),
            Err(why) => Err(why),
        }
    } else {
        match put_line(
            Line::End {
                job: 1,
                stored: false,
            },
            text,
        ) {
            Ok(()) => Ok(false),
            Err(NoMemory) => Err(Interruption::Memory),
        }
    }
}

/// Brings a kept job on at the clouds that were greeted, with its lines and notes, and gives its spool up where the version is
/// entered at all clouds. It answers whether that is so; the text has the lines then, and where the ports or the shelf failed
/// those so far.
pub fn go_on<P: Ports, V: Shelf>(
    alloc: Global,
    greeted: &Greeted,
    spool: Spool,
    job: &mut Job,
    shelf: &mut V,
    ports: &mut P,
    buffers: &mut LaneBuffers,
    text: &mut Bytes,
) -> Result<bool, Interruption>
    requires empty { text.old ≡ [] }
    requires numbered { IsNumbered greeted.now }
    requires reached { IsReached greeted.now.shape job.old }
    requires open { (state_of spool).journal.stage ≡ Stage.AtEnd }
    requires own { (v : FileVersion) × IsOf (state_of spool) v × IsJobOf (state_of spool).shape v job.old }
    requires same { (state_of spool).shape ≡ greeted.now.shape }
    ensures went { (dialled : List ℕ) → AreGreetedOn (P.tells ports.old) dialled greeted.now.lines.items
        → WentOn (P.tells ports.old) (P.tells ports.new) greeted.now.lines.items job.old (state_of spool) result
        text.new (V.cloud_at shelf.old 0) (V.cloud_at shelf.new 0) }
    ensures others { (dialled : List ℕ) → AreGreetedOn (P.tells ports.old) dialled greeted.now.lines.items
        → IsTrue (P.tells ports.old).told → (port : ℕ) → ¬ Contains dialled port
        → (P.tells ports.new).port port ≡ (P.tells ports.old).port port }
    ensures sends { (dialled : List ℕ) → AreGreetedOn (P.tells ports.old) dialled greeted.now.lines.items
        → IsTrue (P.tells ports.old).told
        → SendsOn (IsAskOn (numbered 0 dialled) job.old) (P.tells ports.old) (P.tells ports.new) }
    ensures told { (P.tells ports.new).told ≡ (P.tells ports.old).told }
    ensures later { P.faults ports.old ≤ P.faults ports.new }
    ensures lost { IfPorts result (Rose (P.faults ports.old) (P.faults ports.new)) }
    ensures call { IsCall (V.cloud_at shelf.old) (V.cloud_at shelf.new) 0 (V.faults shelf.old) (V.faults shelf.new) }
    ensures failed { IfShelf result
        (HasFailed (V.cloud_at shelf.old 0) (V.cloud_at shelf.new 0) (V.faults shelf.old) (V.faults shelf.new)) }
{
    let had = job.stored();
    match put_line(Line::Job { job: 1 }, text) {
        Ok(()) => {}
        Err(NoMemory) => return Err(Interruption::Memory),
    }
    let mut spool = spool;
    match bring_greeted(alloc, greeted, &mut spool, job, shelf, ports, buffers, text) {
        Ok(()) => {}
        Err(why) => return Err(why),
    }
    let stored = job.stored();
    end_job(spool, shelf, had, stored, text)
}
