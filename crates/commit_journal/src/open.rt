//! The opening of a journal.

ghost use Rattle.std.specs.Prelude.{◌≡◌, ◌≢◌, ◌⊎◌, ℕ, ◌+◌, ◌-◌, ◌*◌, ◌<◌, ◌≤◌, List, [], ◌∷◌, ◌++◌, length, true, false, IsTrue, IfOk, OnOk, OnErr};
ghost use Rattle.journal_halves.specs.CdEdges.area.Area.{Area};
ghost use Rattle.journal_halves.specs.CdEdges.Disk.{Store};
ghost use Rattle.journal_halves.specs.CdEdges.Shelf.{IsCall, HasFailed, KeepsCounts, Stays, stable};
ghost use Rattle.journal_halves.specs.Halves.{IsCurrent};
ghost use Rattle.journal_halves.specs.Journals.{HasChain};
ghost use Rattle.journal_halves.specs.JournalStart.Ranges.{IsHeader, IsStart};
ghost use Rattle.journal_halves.specs.Findings.{FindIs};
ghost use Rattle.journal_halves.specs.Findings as findings;
ghost use Rattle.commit_journal.specs.Leaving.{OtherAreasStay};
ghost use Rattle.commit_journal.specs.Openings.{LeavesFree, HasReady};

use crate::starts::is_same;
use crate::{Journal, OpenErr, Stage};
use journal_halves::{
    Area, CloudNo, Failed, FindErr, Found, HALF_LEN, Header, Shelf, Start, write_synced,
};

// Makes sure that the area has a first place, which is closed where no half is begun.
fn close<V: Shelf>(shelf: &mut V, cloud: CloudNo, len: u64) -> Result<(), Failed>
    ensures any_moment { LeavesFree len (V.cloud_at shelf.old cloud.0) (V.cloud_at shelf.new cloud.0) }
    ensures ready { HasReady len (V.cloud_at shelf.old cloud.0) (V.cloud_at shelf.new cloud.0) result }
    ensures others { OtherAreasStay (V.cloud_at shelf.old cloud.0) (V.cloud_at shelf.new cloud.0) result }
    ensures call { IsCall (V.cloud_at shelf.old) (V.cloud_at shelf.new) cloud.0
        (V.faults shelf.old) (V.faults shelf.new) }
    ensures failed { OnErr result (HasFailed (V.cloud_at shelf.old cloud.0) (V.cloud_at shelf.new cloud.0)
        (V.faults shelf.old) (V.faults shelf.new)) }
    ensures uncounted { OnOk result (KeepsCounts (V.cloud_at shelf.old cloud.0) (V.cloud_at shelf.new cloud.0)
        (V.faults shelf.old) (V.faults shelf.new)) }
{
    if len >= 2 {
        return Ok(());
    }
    write_synced(shelf, cloud, Area::Journal, 0, &[0])
}

impl Journal {
    ghost use Rattle.commit_journal.specs.States.{state_of};
    ghost use Rattle.journal_halves.specs.Beginnings.{new_of};
    ghost use Rattle.commit_journal.specs.Outcomes.{stage_after};
    ghost use Rattle.commit_journal.specs.Openings.{IsOpening, IsSynced, FoundHalfIs, IsAnswered, LeavesBegun, HasNew, OnFault, HasBegun};
    ghost use Rattle.journal_halves.specs.Beginnings.{IsUnbegun};

    /// Finds the current half of the journal and its start, whatever its header: as `journal_halves`' `find`. The journal is
    /// shut then.
    pub fn find<V: Shelf>(&mut self, shelf: &mut V, cloud: CloudNo) -> Result<Found, FindErr>
        ensures found { IsTrue (V.cloud_at shelf.old cloud.0).told
            → FindIs ((V.cloud_at shelf.old cloud.0).now Area.Journal).read result }
        ensures start { IfOk result (λ found. IsStart found.half found.start) }
        ensures stage { (state_of self.new).stage ≡ Stage.Shut }
        ensures limit { (state_of self.new).limit ≡ (state_of self.old).limit }
        ensures stays { Stays (V.cloud_at shelf.old cloud.0) (V.cloud_at shelf.new cloud.0) }
        ensures call { IsCall (V.cloud_at shelf.old) (V.cloud_at shelf.new) cloud.0
            (V.faults shelf.old) (V.faults shelf.new) }
        ensures counts { findings.OnFindFault result
            (HasFailed (V.cloud_at shelf.old cloud.0) (V.cloud_at shelf.new cloud.0)
            (V.faults shelf.old) (V.faults shelf.new))
            (KeepsCounts (V.cloud_at shelf.old cloud.0) (V.cloud_at shelf.new cloud.0)
            (V.faults shelf.old) (V.faults shelf.new)) }
    {
        self.stage = Stage::Shut;
        self.records.find(shelf, cloud)
    }

    /// Opens the journal: syncs the area, and takes up the current half, if it begins with the header `asked`; or, where no
    /// half is begun and `begin` is true, begins half 0 with it. `next` then reads the records behind the start.
    ///
    /// Each image since the start is one that a crash at the start might have left, or, where a journal is begun, one in
    /// which no half is begun yet or half 0 has this header and no more. NotBegun comes exactly where no half is begun and
    /// `begin` is false. OtherStore comes exactly where the current half begins with another header. Damaged comes exactly as
    /// for `find`. Fault comes only where the cloud's count of faults rose. After an Err only `reopen`, `open` and `find` may
    /// be called. After Ok the journal reads as before where some half was begun, and the gate stands behind the start, at
    /// place 62 of its half at most. Where `begin` is true, NotBegun never comes, whatever the cloud tells, and after Ok what
    /// the journal has is a start of its half.
    pub fn reopen<V: Shelf>(
        &mut self,
        shelf: &mut V,
        cloud: CloudNo,
        asked: &Header,
        begin: bool,
    ) -> Result<(), OpenErr>
        requires { IsHeader asked.now }

        ensures opens { IsTrue (V.cloud_at shelf.old cloud.0).told
            → IsOpening asked.now begin (V.cloud_at shelf.old cloud.0) (V.cloud_at shelf.new cloud.0)
            (state_of self.new) result }
        ensures begun { IsTrue (V.cloud_at shelf.old cloud.0).told
            → ¬ IsUnbegun ((V.cloud_at shelf.old cloud.0).now Area.Journal).read
            → OnOk result (((V.cloud_at shelf.new cloud.0).now Area.Journal).read
            ≡ ((V.cloud_at shelf.old cloud.0).now Area.Journal).read) }
        ensures gate { OnOk result ((state_of self.new).current.gate ≤ 62) }
        ensures begins { IsTrue begin → HasBegun result }
        ensures start { OnOk result (IsStart (state_of self.new).current.half (state_of self.new).start) }
        ensures stage { (state_of self.new).stage ≡ stage_after Stage.Reading result }
        ensures limit { (state_of self.new).limit ≡ (state_of self.old).limit }
        ensures call { IsCall (V.cloud_at shelf.old) (V.cloud_at shelf.new) cloud.0
            (V.faults shelf.old) (V.faults shelf.new) }
        ensures counts { OnFault result
            (HasFailed (V.cloud_at shelf.old cloud.0) (V.cloud_at shelf.new cloud.0)
            (V.faults shelf.old) (V.faults shelf.new))
            (KeepsCounts (V.cloud_at shelf.old cloud.0) (V.cloud_at shelf.new cloud.0)
            (V.faults shelf.old) (V.faults shelf.new)) }
    {
        match shelf.sync(cloud, Area::Journal) {
            Ok(()) => self.open(shelf, cloud, asked, begin),
            Err(Failed) => {
                self.stage = Stage::Shut;
                Err(OpenErr::Fault)
            }
        }
    }

    /// Opens the journal of an area that a crash leaves as it reads, since it was synced: it is `reopen` without the sync, and
    /// answers the same. Where some half is begun, and where `begin` is false, nothing that is told of the cloud changes.
    pub fn open<V: Shelf>(
        &mut self,
        shelf: &mut V,
        cloud: CloudNo,
        asked: &Header,
        begin: bool,
    ) -> Result<(), OpenErr>
        requires { IsHeader asked.now }

        ensures opens { IsTrue (V.cloud_at shelf.old cloud.0).told
            → IsSynced ((V.cloud_at shelf.old cloud.0).now Area.Journal)
            → IsOpening asked.now begin (V.cloud_at shelf.old cloud.0) (V.cloud_at shelf.new cloud.0)
            (state_of self.new) result }
        ensures begun { IsTrue (V.cloud_at shelf.old cloud.0).told
            → ¬ IsUnbegun ((V.cloud_at shelf.old cloud.0).now Area.Journal).read
            → Stays (V.cloud_at shelf.old cloud.0) (V.cloud_at shelf.new cloud.0) }
        ensures unasked { begin ≡ false → Stays (V.cloud_at shelf.old cloud.0) (V.cloud_at shelf.new cloud.0) }
        ensures gate { OnOk result ((state_of self.new).current.gate ≤ 62) }
        ensures begins { IsTrue begin → HasBegun result }
        ensures start { OnOk result (IsStart (state_of self.new).current.half (state_of self.new).start) }
        ensures stage { (state_of self.new).stage ≡ stage_after Stage.Reading result }
        ensures limit { (state_of self.new).limit ≡ (state_of self.old).limit }
        ensures call { IsCall (V.cloud_at shelf.old) (V.cloud_at shelf.new) cloud.0
            (V.faults shelf.old) (V.faults shelf.new) }
        ensures counts { OnFault result
            (HasFailed (V.cloud_at shelf.old cloud.0) (V.cloud_at shelf.new cloud.0)
            (V.faults shelf.old) (V.faults shelf.new))
            (KeepsCounts (V.cloud_at shelf.old cloud.0) (V.cloud_at shelf.new cloud.0)
            (V.faults shelf.old) (V.faults shelf.new)) }
    {
        match self.find(shelf, cloud) {
            Ok(found) => self.take(found, asked),
            Err(FindErr::NotBegun { len }) => {
                if !begin {
                    return Err(OpenErr::NotBegun { len });
                }
                match self.begin(shelf, cloud, asked, len) {
                    Ok(()) => Ok(()),
                    Err(Failed) => Err(OpenErr::Fault),
                }
            }
            Err(FindErr::Damaged { at, byte }) => Err(OpenErr::Damaged { at, byte }),
            Err(FindErr::Fault) => Err(OpenErr::Fault),
        }
    }

    // Takes up the current half that was found, if it begins with this header.
    fn take(&mut self, found: Found, asked: &Header) -> Result<(), OpenErr>
        requires shut { (state_of self.old).stage ≡ Stage.Shut }
        requires start { IsStart found.half found.start }
        ensures taken { (store : Store) → store ≡ stable store.read → IsCurrent store.read found.half found.start
            → FoundHalfIs (state_of self.new) store found asked.now result }
        ensures gate { OnOk result ((state_of self.new).current.gate ≤ 62) }
        ensures stage { (state_of self.new).stage ≡ stage_after Stage.Reading result }
        ensures limit { (state_of self.new).limit ≡ (state_of self.old).limit }
        ensures answered { IsAnswered result }
        ensures begins { HasBegun result }
        ensures start { OnOk result (IsStart (state_of self.new).current.half (state_of self.new).start) }
    {
        if is_same(&found.start.header, asked) {
            let len = found.start.bytes().len() as u64;
            self.records.begin(found.half, len + 5);
            self.left = found.start.records();
            self.start = found.start;
            self.stage = Stage::Reading;
            return Ok(());
        }
        Err(OpenErr::OtherStore {
            found: found.start.header,
            asked: *asked,
            at: found.half as u64 * HALF_LEN + 5,
        })
    }

    // Begins half 0 with this header, where no half is begun.
    fn begin<V: Shelf>(
        &mut self,
        shelf: &mut V,
        cloud: CloudNo,
        asked: &Header,
        len: u64,
    ) -> Result<(), Failed>
        requires header { IsHeader asked.now }
        requires shut { (state_of self.old).stage ≡ Stage.Shut }
        ensures any_moment { LeavesBegun len asked.now (V.cloud_at shelf.old cloud.0) (V.cloud_at shelf.new cloud.0) }
        ensures begun { HasNew len (state_of self.new) asked.now
            (V.cloud_at shelf.old cloud.0) (V.cloud_at shelf.new cloud.0) result }
        ensures gate { OnOk result ((state_of self.new).current.gate ≤ 62) }
        ensures others { OtherAreasStay (V.cloud_at shelf.old cloud.0) (V.cloud_at shelf.new cloud.0) result }
        ensures start { OnOk result (IsStart (state_of self.new).current.half (state_of self.new).start) }
        ensures stage { (state_of self.new).stage ≡ stage_after Stage.Reading result }
        ensures limit { (state_of self.new).limit ≡ (state_of self.old).limit }
        ensures call { IsCall (V.cloud_at shelf.old) (V.cloud_at shelf.new) cloud.0
            (V.faults shelf.old) (V.faults shelf.new) }
        ensures failed { OnErr result (HasFailed (V.cloud_at shelf.old cloud.0) (V.cloud_at shelf.new cloud.0)
            (V.faults shelf.old) (V.faults shelf.new)) }
        ensures uncounted { OnOk result (KeepsCounts (V.cloud_at shelf.old cloud.0) (V.cloud_at shelf.new cloud.0)
            (V.faults shelf.old) (V.faults shelf.new)) }
    {
        close(shelf, cloud, len)?;
        let start = Start {
            header: *asked,
            checkpoint: None,
        };
        let bytes = start.bytes();
        self.records.begin(0, 0);
        self.records.append(shelf, cloud, bytes.as_slice())?;
        self.records.begin(0, bytes.len() as u64 + 5);
        self.left = 0;
        self.start = start;
        self.stage = Stage::Reading;
        Ok(())
    }
}
