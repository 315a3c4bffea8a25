//! Noting a lane whose cloud has committed.

ghost use Rattle.std.specs.Prelude.{◌≡◌, ◌≢◌, ◌<◌, ◌↔◌, length, All, IsTrue, OnOk};
ghost use Rattle.upload_spool.specs.CdEdges.Shelf.{IsCall, HasFailed};
ghost use Rattle.upload_spool.specs.CommitJournal.journal.Stage.{Stage};
ghost use Rattle.upload_spool.specs.UploadJob.Lanes.{IsDoneAt};
ghost use Rattle.upload_spool.specs.UploadJob.Upload.{FileVersion};
ghost use Rattle.upload_spool.specs.States.{state_of, IsOf, IsJobOf};
ghost use Rattle.backup_command.specs.LaneSteps.Runs.{lane_at};
ghost use Rattle.spool_command.specs.Noted.{NoteIs, KeepsNote, IfShelf, interruption_of};

use crate::interruption::Interruption;
use upload_spool::{CloudNo, Job, Shelf, Spool, SpoolErr};

// Whether a lane is none of those that were noted.
fn is_new(noted: &[CloudNo], lane: CloudNo) -> bool
    ensures { IsTrue result ↔ All (λ other. other.0 ≢ lane.0) noted.now }
{
    noted.iter().all(|other| other.0 != lane.0)
}

// Whether a lane has entered its version and wasn't noted.
fn is_due(spool: &Spool, job: &Job, lane: CloudNo) -> bool
    requires { lane.0 < length job.now }
    ensures { IsTrue result
        ↔ (IsDoneAt job.now lane.0 × All (λ other. other.0 ≢ lane.0) (state_of spool.now).noted) }
{
    job.is_entered(lane) && is_new(spool.noted(), lane)
}

// Why a note failed.
fn interruption(error: SpoolErr) -> Interruption
    ensures { result ≡ interruption_of error }
{
    match error {
        SpoolErr::NoMemory => Interruption::Memory,
        SpoolErr::Fault => Interruption::Shelf,
        SpoolErr::NotEmpty { .. } => Interruption::Shelf,
        SpoolErr::Damaged { .. } => Interruption::Shelf,
        SpoolErr::OtherStore { .. } => Interruption::Shelf,
        SpoolErr::Rotten { .. } => Interruption::Shelf,
    }
}

/// Notes a lane, exactly where its version is entered and it wasn't noted before.
pub fn note_lane<V: Shelf>(
    spool: &mut Spool,
    shelf: &mut V,
    job: &Job,
    lane: CloudNo,
) -> Result<(), Interruption>
    requires open { (state_of spool.old).journal.stage ≡ Stage.AtEnd }
    requires own { (v : FileVersion) × IsOf (state_of spool.old) v
        × IsJobOf (state_of spool.old).shape v job.now }
    requires below { lane.0 < (state_of spool.old).shape.n }
    requires long { lane.0 < length job.now }
    ensures notes { NoteIs (state_of spool.old) (state_of spool.new) lane (lane_at job.now lane.0).state result }
    ensures kept { KeepsNote (state_of spool.old) (state_of spool.new) lane
        (V.cloud_at shelf.old 0) (V.cloud_at shelf.new 0) result }
    ensures of { (v : FileVersion) → IsOf (state_of spool.old) v → IsOf (state_of spool.new) v }
    ensures shape { (state_of spool.new).shape ≡ (state_of spool.old).shape }
    ensures stage { OnOk result ((state_of spool.new).journal.stage ≡ Stage.AtEnd) }
    ensures call { IsCall (V.cloud_at shelf.old) (V.cloud_at shelf.new) 0 (V.faults shelf.old) (V.faults shelf.new) }
    ensures failed { IfShelf result
        (HasFailed (V.cloud_at shelf.old 0) (V.cloud_at shelf.new 0) (V.faults shelf.old) (V.faults shelf.new)) }
{
    if !is_due(spool, job, lane) {
        return Ok(());
    }
    match spool.note(shelf, job, lane) {
        Ok(()) => Ok(()),
        Err(error) => Err(interruption(error)),
    }
}
