//! The journal: its current half, read one record after another and added to.

ghost use Rattle.std.specs.Prelude.{◌≡◌, ◌≢◌, ◌⊎◌, ◌↔◌, ℕ, ◌+◌, ◌-◌, ◌*◌, ◌<◌, ◌≤◌, List, [], ◌∷◌, ◌++◌, length, true, false, IsTrue, IfOk, OnOk, OnErr};
ghost use Rattle.journal_halves.specs.CdEdges.Shelf.{IsCall, HasFailed, KeepsCounts, Stays};
ghost use Rattle.journal_halves.specs.Halves.{half_len};
ghost use Rattle.journal_halves.specs.JournalStart.Spelling.{commands_of, records_of, region_of};
ghost use Rattle.commit_journal.specs.Leaving.{OtherAreasStay, IsLater};
ghost use Rattle.journal_halves.specs.Outcomes.{StepIs, OnFailed, IsHandled};

use crate::CheckpointWriter;
use crate::starts::{no_start, records_place};
use journal_halves::{CloudNo, Failed, HALF_LEN, HalfRecords, NoMemory, RecordErr, Shelf, Start};
use std::alloc::Global;

/// How far a journal is read, or what is done with it.
#[derive(Clone, Copy)]
pub enum Stage {
    /// It isn't open: only `reopen`, `open` and `find` may be called.
    Shut,
    /// Records may be to come.
    Reading,
    /// The closed gate was reached: records may be added, and a checkpoint begun.
    AtEnd,
    /// A checkpoint is being laid.
    Laying,
}

/// The journal of a cloud, in two halves.
#[derive(Drop)]
pub struct Journal {
    pub(crate) limit: u64,
    pub(crate) stage: Stage,
    // What the current half's chain begins with, and how many records of its checkpoint weren't read yet.
    pub(crate) start: Start,
    pub(crate) left: u32,
    pub(crate) records: HalfRecords,
    // What the checkpoint that is laid begins with.
    pub(crate) next: Start,
    pub(crate) writer: CheckpointWriter,
    ghost limited: { limit ≤ half_len },
}

impl Journal {
    ghost use Rattle.commit_journal.specs.States.{state_of};
    ghost use Rattle.commit_journal.specs.Outcomes.{stage_of, stage_after, TookIs, ReadsNextOfChain, KeepsChainOrAdds, KeepsOtherHalf, HasAddedToChain};

    /// A journal that isn't open, of whose halves each takes so many bytes at most. It takes all its memory here: a window of
    /// 65,541 bytes and a piece of 4 MiB. The only error is want of memory.
    pub fn make(alloc: Global, limit: u64) -> Result<Journal, NoMemory>
        requires { limit ≤ half_len }
        ensures { IfOk result (λ journal. ((state_of journal).limit ≡ limit)
            × ((state_of journal).stage ≡ Stage.Shut)) }
    {
        Ok(Journal {
            limit,
            stage: Stage::Shut,
            start: no_start(),
            left: 0,
            records: HalfRecords::make(alloc)?,
            next: no_start(),
            writer: CheckpointWriter::make(alloc)?,
        })
    }

    /// How far the journal is read, or what is done with it.
    pub fn stage(&self) -> Stage
        ensures { result ≡ (state_of self.now).stage }
    {
        self.stage
    }

    /// The most bytes of a half that a chain takes.
    pub fn limit(&self) -> u64
        ensures { result ≡ (state_of self.now).limit }
    {
        self.limit
    }

    /// The bytes of the current half that are used, up to and with the gate.
    pub fn used(&self) -> u64
        ensures { result ≡ (state_of self.now).current.gate + 1 }
    {
        self.records.used()
    }

    /// What the current half's chain begins with, once it is open.
    pub fn start(&self) -> &Start
        ensures { result.now ≡ (state_of self.now).start }
    {
        &self.start
    }

    /// How many commands came before the current start's checkpoint, or 0.
    pub fn commands(&self) -> u64
        ensures { result ≡ commands_of (state_of self.now).start.checkpoint }
    {
        self.start.commands()
    }

    /// How many records behind the current start are its checkpoint's, or 0.
    pub fn records(&self) -> u32
        ensures { result ≡ records_of (state_of self.now).start.checkpoint }
    {
        self.start.records()
    }

    /// The region of the current start's blobs, or 0.
    pub fn region(&self) -> u8
        ensures { result ≡ region_of (state_of self.now).start.checkpoint }
    {
        self.start.region()
    }

    /// The body of the record that was read last.
    pub fn body(&self) -> &[u8]
        ensures { result.now ≡ (state_of self.now).current.body }
    {
        self.records.body()
    }

    /// The place of that body in the area.
    pub fn body_at(&self) -> u64
        ensures { result ≡ (state_of self.now).current.body_at }
    {
        self.records.body_at()
    }

    /// Shuts the journal: only `reopen`, `open` and `find` may be called from then on.
    pub fn shut(&mut self)
        ensures { state_of self.new ≡ record (state_of self.old) { stage = Stage.Shut } }
    {
        self.stage = Stage::Shut;
    }

    /// Reads the next record of the current half, which `body` then gives: true. False comes exactly at the first gate that is
    /// closed, where all records of the start's checkpoint were read; records may be added then. Damaged comes exactly where
    /// an open gate is the last place of the half or of the area (its place and 1), where what follows it is no length from 1
    /// to 65,535 with so many bytes and a next gate before that end (the first place of the length and its byte), or where the
    /// gate is closed before the checkpoint's records are all there (the first place of their number in the start, and its
    /// byte). Failed comes only where the cloud's count of faults rose. After an Err only `reopen`, `open` and `find` may be
    /// called.
    ///
    /// It makes one device call at most, and none where the record was read ahead: by its body, no clause counts reads.
    pub fn next<V: Shelf>(&mut self, shelf: &mut V, cloud: CloudNo) -> Result<bool, RecordErr>
        requires { (state_of self.old).stage ≡ Stage.Reading }

        ensures reads { ReadsNextOfChain (state_of self.old) (state_of self.new) (V.cloud_at shelf.old cloud.0) result }
        ensures step { StepIs (state_of self.old).current (state_of self.new).current result }
        ensures stage { (state_of self.new).stage ≡ stage_of result }
        ensures start { (state_of self.new).start ≡ (state_of self.old).start }
        ensures limit { (state_of self.new).limit ≡ (state_of self.old).limit }
        ensures stays { Stays (V.cloud_at shelf.old cloud.0) (V.cloud_at shelf.new cloud.0) }
        ensures call { IsCall (V.cloud_at shelf.old) (V.cloud_at shelf.new) cloud.0
            (V.faults shelf.old) (V.faults shelf.new) }
        ensures counts { OnFailed result
            (HasFailed (V.cloud_at shelf.old cloud.0) (V.cloud_at shelf.new cloud.0)
            (V.faults shelf.old) (V.faults shelf.new))
            (KeepsCounts (V.cloud_at shelf.old cloud.0) (V.cloud_at shelf.new cloud.0)
            (V.faults shelf.old) (V.faults shelf.new)) }
    {
        match self.records.next(shelf, cloud) {
            Ok(more) => self.took(more),
            Err(error) => {
                self.stage = Stage::Shut;
                Err(error)
            }
        }
    }

    // One record was read, or the gate is closed.
    fn took(&mut self, more: bool) -> Result<bool, RecordErr>
        requires { (state_of self.old).stage ≡ Stage.Reading }
        ensures took { TookIs (state_of self.old) (state_of self.new) more result }
        ensures stage { (state_of self.new).stage ≡ stage_of result }
        ensures start { (state_of self.new).start ≡ (state_of self.old).start }
        ensures limit { (state_of self.new).limit ≡ (state_of self.old).limit }
        ensures handled { IsHandled result }
    {
        if more {
            self.left = self.left.saturating_sub(1);
            return Ok(true);
        }
        self.end()
    }

    // At the closed gate: all records of the checkpoint were read, or the start is damaged.
    fn end(&mut self) -> Result<bool, RecordErr>
        ensures took { TookIs (state_of self.old) (state_of self.new) false result }
        ensures stage { (state_of self.new).stage ≡ stage_of result }
        ensures start { (state_of self.new).start ≡ (state_of self.old).start }
        ensures limit { (state_of self.new).limit ≡ (state_of self.old).limit }
        ensures handled { IsHandled result }
    {
        if self.left > 0 {
            self.stage = Stage::Shut;
            let [byte, ..] = self.start.records().to_be_bytes();
            return Err(RecordErr::Damaged {
                at: self.records.half() as u64 * HALF_LEN + records_place(&self.start),
                byte,
            });
        }
        self.stage = Stage::AtEnd;
        Ok(false)
    }

    /// Whether a record with a body of so many bytes has room in the current half: whether the bytes used, up to and with the
    /// gate, and the body's length and 5 are within the limit together.
    pub fn fits(&self, len: u32) -> bool
        ensures { IsTrue result ↔ ((state_of self.now).current.gate + 1 + (len + 5) ≤ (state_of self.now).limit) }
    {
        self.records.used() + (len as u64 + 5) <= self.limit
    }

    /// Adds a record behind the closed gate. After Ok a crash leaves it; whenever a crash comes, it leaves the old chain or
    /// that with this record, and the other half as it was. Failed comes only where the cloud's count of faults rose, and then only `reopen`, `open` and
    /// `find` may be called. It makes two writes, each with a sync: the record with the next gate, closed, and then its own
    /// gate. So after Ok the cloud's moment is higher by four.
    pub fn append<V: Shelf>(
        &mut self,
        shelf: &mut V,
        cloud: CloudNo,
        body: &[u8],
    ) -> Result<(), Failed>
        requires at_end { (state_of self.old).stage ≡ Stage.AtEnd }
        requires some { 1 ≤ length body.now }
        requires few { length body.now ≤ 65535 }
        requires fits { (state_of self.old).current.gate + 1 + (length body.now + 5) ≤ (state_of self.old).limit }

        ensures any_moment { KeepsChainOrAdds (state_of self.old) body.now
            (V.cloud_at shelf.old cloud.0) (V.cloud_at shelf.new cloud.0) }
        ensures other { KeepsOtherHalf (state_of self.old) (V.cloud_at shelf.old cloud.0)
            (V.cloud_at shelf.new cloud.0) }
        ensures added { HasAddedToChain (state_of self.old) (state_of self.new) body.now
            (V.cloud_at shelf.old cloud.0) (V.cloud_at shelf.new cloud.0) result }
        ensures others { OtherAreasStay (V.cloud_at shelf.old cloud.0) (V.cloud_at shelf.new cloud.0) result }
        ensures moments { IsLater 4 (V.cloud_at shelf.old cloud.0) (V.cloud_at shelf.new cloud.0) result }
        ensures gate { OnOk result ((state_of self.new).current.gate
            ≡ (state_of self.old).current.gate + 5 + length body.now) }
        ensures stage { (state_of self.new).stage ≡ stage_after Stage.AtEnd result }
        ensures start { (state_of self.new).start ≡ (state_of self.old).start }
        ensures limit { (state_of self.new).limit ≡ (state_of self.old).limit }
        ensures call { IsCall (V.cloud_at shelf.old) (V.cloud_at shelf.new) cloud.0
            (V.faults shelf.old) (V.faults shelf.new) }
        ensures failed { OnErr result (HasFailed (V.cloud_at shelf.old cloud.0) (V.cloud_at shelf.new cloud.0)
            (V.faults shelf.old) (V.faults shelf.new)) }
        ensures uncounted { OnOk result (KeepsCounts (V.cloud_at shelf.old cloud.0) (V.cloud_at shelf.new cloud.0)
            (V.faults shelf.old) (V.faults shelf.new)) }
    {
        self.stage = Stage::Shut;
        self.records.append(shelf, cloud, body)?;
        self.stage = Stage::AtEnd;
        Ok(())
    }
}
