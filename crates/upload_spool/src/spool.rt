//! A job that is kept at its client.

ghost use Rattle.std.specs.Prelude.{◌≡◌, ◌≢◌, ◌⊎◌, ℕ, ◌+◌, ◌*◌, ◌<◌, ◌≤◌, List, [], ◌∷◌, ◌++◌, length, All, ◌↔◌, nat_eq, IsTrue, IfOk, OnOk, OnErr, Err};
ghost use Rattle.std.specs.List.{IsDistinct};
ghost use Rattle.std.proofs.Props.{props};
ghost use Rattle.grammar.specs.CdBase.Numbers.{numbers_of};
ghost use Rattle.commit_journal.specs.CdEdges.Shelf.{IsCall, HasFailed, KeepsCounts, Refreshes};
ghost use Rattle.commit_journal.specs.declared.journal.Stage.{Stage};
ghost use Rattle.commit_journal.specs.States as half;
ghost use Rattle.commit_journal.specs.Leaving.{IsLater};
ghost use Rattle.upload_job.specs.Upload.{FileVersion};

use crate::SpoolErr;
use commit_journal::{Failed, Journal, Shelf, Stage};
use grammar::{Bytes, CloudNo, Fp, Shape, UserId, Version};
use upload_job::Job;

/// The cloud of a shelf in which a spool is kept.
pub(crate) const SPOOL_CLOUD: CloudNo = CloudNo(0);

/// The most bytes of its half that a spool's journal takes.
pub(crate) const SPOOL_LIMIT: u64 = 65_536;

/// A job that is kept in a shelf's cloud 0: which version of a file it brings, and which of its lanes were noted as committed.
#[derive(Drop)]
pub struct Spool {
    pub(crate) shape: Shape,
    pub(crate) user: UserId,
    pub(crate) version: Version,
    pub(crate) path: Bytes,
    // The file's length and SHA-256.
    pub(crate) len: u64,
    pub(crate) digest: Fp,
    // The lanes that were noted, in the order of their records.
    pub(crate) noted: Vec<CloudNo>,
    pub(crate) journal: Journal,
    ghost limited: { (half.state_of journal).limit ≡ 65536 },
    ghost room: { (half.state_of journal).stage ≡ Stage.AtEnd
        → (half.state_of journal).current.gate ≤ 1146 + 7 * length noted.items },
    ghost distinct: { IsDistinct nat_eq (numbers_of noted.items) } by { Prim.hlevel props },
    ghost below: { All (λ cloud. cloud < shape.n) (numbers_of noted.items) },
}

impl Spool {
    ghost use Rattle.upload_job.specs.Lanes.{IsDoneAt};
    ghost use Rattle.upload_spool.specs.States.{state_of, IsOf, IsJobOf, KeepsOrNotes, HasNoted, IsNoteAnswer, IsSpoolOkOrFault, AllButAreaStay, OnSpoolFault};
    ghost use Rattle.commit_journal.specs.CdEdges.area.Area.{Area};

    /// The lanes that were noted, in the order in which they were.
    pub fn noted(&self) -> &[CloudNo]
        ensures { result.now ≡ (state_of self.now).noted }
    {
        self.noted.as_slice()
    }

    /// Whose file it is.
    pub fn user(&self) -> UserId
        ensures { result ≡ (state_of self.now).user }
    {
        self.user
    }

    /// The number of the file's version.
    pub fn version(&self) -> Version
        ensures { result ≡ (state_of self.now).version }
    {
        self.version
    }

    /// Whether lanes may be noted: until a `note` answers Fault.
    pub fn is_open(&self) -> bool
        ensures { IsTrue result ↔ ((state_of self.now).journal.stage ≡ Stage.AtEnd) }
    {
        match self.journal.stage() {
            Stage::AtEnd => true,
            Stage::Shut => false,
            Stage::Reading => false,
            Stage::Laying => false,
        }
    }

    /// Notes that a lane of the job has committed, which `job` says. After Ok a crash leaves the note; whenever a crash comes,
    /// it leaves the lanes that were noted before, or those and this one. After `SpoolErr::NoMemory`, which comes before the
    /// first device call, all is as before. `SpoolErr::Fault` comes only where the cloud's count of faults rose; the spool is to
    /// be opened again then.
    pub fn note<V: Shelf>(
        &mut self,
        shelf: &mut V,
        job: &Job,
        lane: CloudNo,
    ) -> Result<(), SpoolErr>
        requires open { (state_of self.old).journal.stage ≡ Stage.AtEnd }
        requires own { (v : FileVersion) × IsOf (state_of self.old) v × IsJobOf (state_of self.old).shape v job.now }
        requires committed { IsDoneAt job.now lane.0 }
        requires below { lane.0 < (state_of self.old).shape.n }
        requires new { All (λ noted. noted.0 ≢ lane.0) (state_of self.old).noted }

        ensures any_moment { KeepsOrNotes (state_of self.old) lane (V.cloud_at shelf.old 0) (V.cloud_at shelf.new 0) }
        ensures noted { HasNoted (state_of self.old) (state_of self.new) lane
            (V.cloud_at shelf.old 0) (V.cloud_at shelf.new 0) result }
        ensures added { OnOk result ((state_of self.new).noted ≡ (state_of self.old).noted ++ lane ∷ []) }
        ensures of { (v : FileVersion) → IsOf (state_of self.old) v → IsOf (state_of self.new) v }
        ensures shape { (state_of self.new).shape ≡ (state_of self.old).shape }
        ensures stage { OnSpoolFault result ((state_of self.new).journal.stage ≡ Stage.Shut)
            ((state_of self.new).journal.stage ≡ Stage.AtEnd) }
        ensures memory { result ≡ Err SpoolErr.NoMemory → (state_of self.new ≡ state_of self.old)
            × (V.cloud_at shelf.new 0 ≡ V.cloud_at shelf.old 0) }
        ensures answers { IsNoteAnswer result }
        ensures others { AllButAreaStay Area.Journal (V.cloud_at shelf.old 0) (V.cloud_at shelf.new 0) result }
        ensures moments { IsLater 4 (V.cloud_at shelf.old 0) (V.cloud_at shelf.new 0) result }
        ensures call { IsCall (V.cloud_at shelf.old) (V.cloud_at shelf.new) 0
            (V.faults shelf.old) (V.faults shelf.new) }
        ensures counts { OnSpoolFault result
            (HasFailed (V.cloud_at shelf.old 0) (V.cloud_at shelf.new 0) (V.faults shelf.old) (V.faults shelf.new))
            (KeepsCounts (V.cloud_at shelf.old 0) (V.cloud_at shelf.new 0) (V.faults shelf.old) (V.faults shelf.new)) }
    {
        let _lanes = job.lanes();
        if self.noted.push(lane).is_err() {
            return Err(SpoolErr::NoMemory);
        }
        match self.journal.append(shelf, SPOOL_CLOUD, &[2, lane.0]) {
            Ok(()) => Ok(()),
            Err(Failed) => Err(SpoolErr::Fault),
        }
    }

    /// Gives the spool up: makes the cloud's three areas empty, which a crash leaves so. After `SpoolErr::Fault`, which comes
    /// only where the cloud's count of faults rose, the cloud is as before, and the spool is to be opened again.
    pub fn finish<V: Shelf>(self, shelf: &mut V) -> Result<(), SpoolErr>
        ensures emptied { IsTrue (V.cloud_at shelf.old 0).told
            → Refreshes (V.cloud_at shelf.old 0) (V.cloud_at shelf.new 0) result }
        ensures answers { IsSpoolOkOrFault result }
        ensures call { IsCall (V.cloud_at shelf.old) (V.cloud_at shelf.new) 0
            (V.faults shelf.old) (V.faults shelf.new) }
        ensures counts { OnSpoolFault result
            (HasFailed (V.cloud_at shelf.old 0) (V.cloud_at shelf.new 0) (V.faults shelf.old) (V.faults shelf.new))
            (KeepsCounts (V.cloud_at shelf.old 0) (V.cloud_at shelf.new 0) (V.faults shelf.old) (V.faults shelf.new)) }
    {
        match shelf.fresh(SPOOL_CLOUD) {
            Ok(()) => Ok(()),
            Err(Failed) => Err(SpoolErr::Fault),
        }
    }
}
