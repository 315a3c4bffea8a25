//! A checkpoint in the half that isn't current, which then takes the other chain's place.

ghost use Rattle.std.specs.Prelude.{◌≡◌, ◌≢◌, ◌⊎◌, ℕ, ◌+◌, ◌-◌, ◌*◌, ◌%◌, ◌<◌, ◌≤◌, List, [], ◌∷◌, ◌++◌, length, true, false, IsTrue, IfOk, OnOk, OnErr};
ghost use Rattle.journal_halves.specs.CdEdges.Shelf.{IsCall, HasFailed, KeepsCounts, Stays};
ghost use Rattle.journal_halves.specs.JournalStart.Ranges.{IsHeader, IsStart};
ghost use Rattle.journal_halves.specs.Halves.{half_len};
ghost use Rattle.commit_journal.specs.Turning.{used_of};
ghost use Rattle.commit_journal.specs.Leaving.{OtherAreasStay, IsLater, IsSparedIfClosed, IsLaterOpen};

use crate::starts::next_start;
use crate::{Journal, Stage};
use journal_halves::{CloudNo, Failed, Header, Shelf};

impl Journal {
    ghost use Rattle.commit_journal.specs.States.{state_of};
    ghost use Rattle.commit_journal.specs.Outcomes.{stage_after, KeepsChain, HasTurned, KeepsLaid, HasLaid, KeepsChainOrSettles, HasJournalSettled};

    /// How many bytes of its half the checkpoint takes so far, with its closed gate.
    pub fn laid(&self) -> u64
        ensures { result ≡ used_of (state_of self.now).laid }
    {
        self.writer.used()
    }

    /// How many records of the checkpoint are to be laid yet.
    pub fn to_lay(&self) -> u32
        ensures { result ≡ (state_of self.now).laid.left }
    {
        self.writer.left()
    }

    /// Begins a checkpoint in the half that isn't current, in place of any that was begun before: it stands for so many
    /// commands, has so many records, and its blobs lie in this region. Where the half's first place isn't there or holds 1, a
    /// 0 is written there and synced; else it is closed already, perhaps with a torn checkpoint behind it, and nothing is
    /// written.
    ///
    /// Whenever a crash comes, the journal has its chain. Failed comes only where the cloud's count of faults rose, and then
    /// only `reopen`, `open` and `find` may be called.
    pub fn turn<V: Shelf>(
        &mut self,
        shelf: &mut V,
        cloud: CloudNo,
        header: &Header,
        commands: u64,
        records: u32,
        region: u8,
    ) -> Result<(), Failed>
        requires at_end { (state_of self.old).stage ≡ Stage.AtEnd }
        requires header { IsHeader header.now }
        requires format { header.now.format ≡ 2 }
        requires region { region ≤ 1 }

        ensures any_moment { KeepsChain (state_of self.old)
            (V.cloud_at shelf.old cloud.0) (V.cloud_at shelf.new cloud.0) }
        ensures turned { HasTurned (state_of self.old) (state_of self.new) header.now commands records region
            (V.cloud_at shelf.old cloud.0) (V.cloud_at shelf.new cloud.0) result }
        ensures state { OnOk result (((state_of self.new).laid.left ≡ records)
            × (used_of (state_of self.new).laid ≡ 63)) }
        ensures spared { IsSparedIfClosed (1 - (state_of self.old).current.half)
            (V.cloud_at shelf.old cloud.0) (V.cloud_at shelf.new cloud.0) }
        ensures moments { IsLaterOpen 2 (1 - (state_of self.old).current.half)
            (V.cloud_at shelf.old cloud.0) (V.cloud_at shelf.new cloud.0) result }
        ensures others { OtherAreasStay (V.cloud_at shelf.old cloud.0) (V.cloud_at shelf.new cloud.0) result }
        ensures stage { (state_of self.new).stage ≡ stage_after Stage.Laying result }
        ensures limit { (state_of self.new).limit ≡ (state_of self.old).limit }
        ensures call { IsCall (V.cloud_at shelf.old) (V.cloud_at shelf.new) cloud.0
            (V.faults shelf.old) (V.faults shelf.new) }
        ensures failed { OnErr result (HasFailed (V.cloud_at shelf.old cloud.0) (V.cloud_at shelf.new cloud.0)
            (V.faults shelf.old) (V.faults shelf.new)) }
        ensures uncounted { OnOk result (KeepsCounts (V.cloud_at shelf.old cloud.0) (V.cloud_at shelf.new cloud.0)
            (V.faults shelf.old) (V.faults shelf.new)) }
    {
        self.stage = Stage::Shut;
        let next = next_start(&self.start, header, commands, records, region);
        let half = 1 - self.records.half();
        self.writer.turn(shelf, cloud, half, &next)?;
        self.next = next;
        self.stage = Stage::Laying;
        Ok(())
    }

    /// Lays one more record of the checkpoint. It waits in memory until a piece of 4 MiB is full.
    ///
    /// Whenever a crash comes, the journal has its chain, and nothing of the checkpoint. Failed comes only where the cloud's
    /// count of faults rose, and then only `reopen`, `open` and `find` may be called.
    pub fn lay<V: Shelf>(
        &mut self,
        shelf: &mut V,
        cloud: CloudNo,
        body: &[u8],
    ) -> Result<(), Failed>
        requires laying { (state_of self.old).stage ≡ Stage.Laying }
        requires to_come { 1 ≤ (state_of self.old).laid.left }
        requires some { 1 ≤ length body.now }
        requires few { length body.now ≤ 65535 }
        requires fits { used_of (state_of self.old).laid + length body.now + 5 ≤ (state_of self.old).limit }

        ensures any_moment { KeepsLaid (state_of self.old)
            (V.cloud_at shelf.old cloud.0) (V.cloud_at shelf.new cloud.0) }
        ensures laid { HasLaid (state_of self.old) (state_of self.new) body.now
            (V.cloud_at shelf.old cloud.0) (V.cloud_at shelf.new cloud.0) result }
        ensures state { OnOk result (((state_of self.new).laid.left + 1 ≡ (state_of self.old).laid.left)
            × (used_of (state_of self.new).laid ≡ used_of (state_of self.old).laid + length body.now + 5)) }
        ensures others { OtherAreasStay (V.cloud_at shelf.old cloud.0) (V.cloud_at shelf.new cloud.0) result }
        ensures stage { (state_of self.new).stage ≡ stage_after Stage.Laying result }
        ensures limit { (state_of self.new).limit ≡ (state_of self.old).limit }
        ensures call { IsCall (V.cloud_at shelf.old) (V.cloud_at shelf.new) cloud.0
            (V.faults shelf.old) (V.faults shelf.new) }
        ensures failed { OnErr result (HasFailed (V.cloud_at shelf.old cloud.0) (V.cloud_at shelf.new cloud.0)
            (V.faults shelf.old) (V.faults shelf.new)) }
        ensures uncounted { OnOk result (KeepsCounts (V.cloud_at shelf.old cloud.0) (V.cloud_at shelf.new cloud.0)
            (V.faults shelf.old) (V.faults shelf.new)) }
    {
        self.stage = Stage::Shut;
        self.writer.lay(shelf, cloud, body)?;
        self.stage = Stage::Laying;
        Ok(())
    }

    /// Puts the checkpoint, all of whose records are laid, in the other chain's place, and its half is the current one: writes
    /// what waits and a closed gate, syncs, opens the half's first gate, and syncs. So after Ok the cloud's moment is higher
    /// by four.
    ///
    /// Whenever a crash comes, the journal has the chain that it had, or the checkpoint's; after Ok it has the checkpoint's.
    /// Failed comes only where the cloud's count of faults rose, and then only `reopen`, `open` and `find` may be called.
    pub fn settle<V: Shelf>(&mut self, shelf: &mut V, cloud: CloudNo) -> Result<(), Failed>
        requires laying { (state_of self.old).stage ≡ Stage.Laying }
        requires full { (state_of self.old).laid.left ≡ 0 }

        ensures any_moment { KeepsChainOrSettles (state_of self.old)
            (V.cloud_at shelf.old cloud.0) (V.cloud_at shelf.new cloud.0) }
        ensures settled { HasJournalSettled (state_of self.old) (state_of self.new)
            (V.cloud_at shelf.old cloud.0) (V.cloud_at shelf.new cloud.0) result }
        ensures gate { OnOk result ((state_of self.new).current.gate + 1 ≡ used_of (state_of self.old).laid) }
        ensures others { OtherAreasStay (V.cloud_at shelf.old cloud.0) (V.cloud_at shelf.new cloud.0) result }
        ensures moments { IsLater 4 (V.cloud_at shelf.old cloud.0) (V.cloud_at shelf.new cloud.0) result }
        ensures stage { (state_of self.new).stage ≡ stage_after Stage.AtEnd result }
        ensures start { OnOk result ((state_of self.new).start ≡ (state_of self.old).next) }
        ensures limit { (state_of self.new).limit ≡ (state_of self.old).limit }
        ensures call { IsCall (V.cloud_at shelf.old) (V.cloud_at shelf.new) cloud.0
            (V.faults shelf.old) (V.faults shelf.new) }
        ensures failed { OnErr result (HasFailed (V.cloud_at shelf.old cloud.0) (V.cloud_at shelf.new cloud.0)
            (V.faults shelf.old) (V.faults shelf.new)) }
        ensures uncounted { OnOk result (KeepsCounts (V.cloud_at shelf.old cloud.0) (V.cloud_at shelf.new cloud.0)
            (V.faults shelf.old) (V.faults shelf.new)) }
    {
        self.stage = Stage::Shut;
        let half = 1 - self.records.half();
        let used = self.writer.used();
        self.writer.settle(shelf, cloud)?;
        self.records.begin(half, used - 1);
        self.start = self.next;
        self.left = 0;
        self.stage = Stage::AtEnd;
        Ok(())
    }
}
