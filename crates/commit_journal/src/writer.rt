//! The writer of a checkpoint.

ghost use Rattle.std.specs.Prelude.{◌≡◌, ◌≢◌, ◌⊎◌, ℕ, ◌+◌, ◌-◌, ◌*◌, ◌<◌, ◌≤◌, List, [], ◌∷◌, ◌++◌, length, true, false, IsTrue, IfOk, OnOk, OnErr};
ghost use Rattle.journal_halves.specs.CdEdges.area.Area.{Area};
ghost use Rattle.journal_halves.specs.CdEdges.Shelf.{IsCall, HasFailed, KeepsCounts};
ghost use Rattle.journal_halves.specs.Records.{sized};
ghost use Rattle.journal_halves.specs.JournalStart.Ranges.{IsStart};
ghost use Rattle.journal_halves.specs.JournalStart.Spelling.{start_bytes, records_of};
ghost use Rattle.journal_halves.specs.Halves.{half_len};
ghost use Rattle.commit_journal.specs.Pieces.{piece_len};

use crate::PIECE;
use crate::area::{close, first_place, write_last, write_piece};
use crate::piece::Piece;
use journal_halves::{Area, CloudNo, Failed, NoMemory, Shelf, Start, write_synced};
use std::alloc::Global;

/// Writes a checkpoint into a half of a cloud's journal, in pieces of up to 4 MiB.
#[derive(Drop)]
pub struct CheckpointWriter {
    // The half, and how many bytes are written behind its first gate.
    pub(crate) half: u8,
    pub(crate) written: u64,
    // How many records are to come.
    pub(crate) left: u32,
    // The bytes that come next. One place is left for the closed gate.
    pub(crate) waiting: Piece,
    ghost is_half: { half ≤ 1 },
    ghost few: { length waiting < piece_len },
    ghost within: { written + length waiting + 2 ≤ half_len },
}

impl CheckpointWriter {
    ghost use Rattle.commit_journal.specs.Turning.{state_of, used_of};
    ghost use Rattle.commit_journal.specs.Leaving.{KeepsStanding, KeepsWriterLaid, KeepsWriterOrSettles, HasWriterTurned, IsLaidStill, HasWriterLaid, HasWriterSettled, IsFull, OtherAreasStay, IsLater, IsSparedIfClosed, IsLaterOpen};

    /// A writer with memory for a piece of 4 MiB, which is all that it ever takes. The only error is want of memory.
    pub fn make(alloc: Global) -> Result<CheckpointWriter, NoMemory>
        ensures { IfOk result (λ writer. (state_of writer).waiting ≡ []) }
    {
        Ok(CheckpointWriter {
            half: 0,
            written: 0,
            left: 0,
            waiting: Piece::make(alloc)?,
        })
    }

    /// How many bytes of its half the checkpoint takes so far, with its closed gate.
    pub fn used(&self) -> u64
        ensures value { result ≡ used_of (state_of self.now) }
        ensures within { result ≤ half_len }
    {
        self.written + self.waiting.len() as u64 + 2
    }

    /// How many of its records are to come.
    pub fn left(&self) -> u32
        ensures { result ≡ (state_of self.now).left }
    {
        self.left
    }

    /// Begins a checkpoint with this start in a half, which is to be the one that isn't current, in place of any that was
    /// begun before. Where the half's first place isn't there or holds 1, a 0 is written there and synced; else it is closed
    /// already, perhaps with a torn checkpoint behind it, and nothing is written.
    ///
    /// Whenever a crash comes, the journal has its chain. Failed comes only where the cloud's count of faults rose, and then
    /// the writer lays nothing before another `turn`.
    pub fn turn<V: Shelf>(
        &mut self,
        shelf: &mut V,
        cloud: CloudNo,
        half: u8,
        start: &Start,
    ) -> Result<(), Failed>
        requires { half ≤ 1 }

        ensures any_moment { KeepsStanding half (V.cloud_at shelf.old cloud.0) (V.cloud_at shelf.new cloud.0) }
        ensures turned { HasWriterTurned (state_of self.new) half start.now
            (V.cloud_at shelf.old cloud.0) (V.cloud_at shelf.new cloud.0) result }
        ensures state { OnOk result (((state_of self.new).left ≡ records_of start.now.checkpoint)
            × (used_of (state_of self.new) ≡ length (start_bytes start.now) + 6)) }
        ensures spared { IsSparedIfClosed half (V.cloud_at shelf.old cloud.0) (V.cloud_at shelf.new cloud.0) }
        ensures moments { IsLaterOpen 2 half (V.cloud_at shelf.old cloud.0) (V.cloud_at shelf.new cloud.0) result }
        ensures others { OtherAreasStay (V.cloud_at shelf.old cloud.0) (V.cloud_at shelf.new cloud.0) result }
        ensures call { IsCall (V.cloud_at shelf.old) (V.cloud_at shelf.new) cloud.0
            (V.faults shelf.old) (V.faults shelf.new) }
        ensures failed { OnErr result (HasFailed (V.cloud_at shelf.old cloud.0) (V.cloud_at shelf.new cloud.0)
            (V.faults shelf.old) (V.faults shelf.new)) }
        ensures uncounted { OnOk result (KeepsCounts (V.cloud_at shelf.old cloud.0) (V.cloud_at shelf.new cloud.0)
            (V.faults shelf.old) (V.faults shelf.new)) }
    {
        close(shelf, cloud, half)?;
        self.begin(half, start);
        Ok(())
    }

    // Begins anew with this start.
    fn begin(&mut self, half: u8, start: &Start)
        requires { half ≤ 1 }
        ensures { state_of self.new ≡ record {
          half = half;
          written = 0;
          waiting = sized (start_bytes start.now);
          left = records_of start.now.checkpoint;
        } }
    {
        let bytes = start.bytes();
        let _len = bytes.len();
        self.half = half;
        self.written = 0;
        self.left = start.records();
        self.waiting.clear();
        self.waiting.put_sized(bytes.as_slice());
    }

    /// Lays one more record of the checkpoint. It waits in memory until a piece is full, which goes out by one write behind
    /// what was written before.
    ///
    /// Whenever a crash comes, the journal has its chain, and nothing of the checkpoint. Failed comes only where the cloud's
    /// count of faults rose, and then the writer lays nothing before another `turn`.
    pub fn lay<V: Shelf>(
        &mut self,
        shelf: &mut V,
        cloud: CloudNo,
        body: &[u8],
    ) -> Result<(), Failed>
        requires to_come { 1 ≤ (state_of self.old).left }
        requires some { 1 ≤ length body.now }
        requires few { length body.now ≤ 65535 }
        requires room { used_of (state_of self.old) + length body.now + 5 ≤ half_len }

        ensures any_moment { KeepsWriterLaid (state_of self.old)
            (V.cloud_at shelf.old cloud.0) (V.cloud_at shelf.new cloud.0) }
        ensures laid { HasWriterLaid (state_of self.old) (state_of self.new) body.now
            (V.cloud_at shelf.old cloud.0) (V.cloud_at shelf.new cloud.0) result }
        ensures state { OnOk result (((state_of self.new).left + 1 ≡ (state_of self.old).left)
            × (used_of (state_of self.new) ≡ used_of (state_of self.old) + length body.now + 5)) }
        ensures others { OtherAreasStay (V.cloud_at shelf.old cloud.0) (V.cloud_at shelf.new cloud.0) result }
        ensures call { IsCall (V.cloud_at shelf.old) (V.cloud_at shelf.new) cloud.0
            (V.faults shelf.old) (V.faults shelf.new) }
        ensures failed { OnErr result (HasFailed (V.cloud_at shelf.old cloud.0) (V.cloud_at shelf.new cloud.0)
            (V.faults shelf.old) (V.faults shelf.new)) }
        ensures uncounted { OnOk result (KeepsCounts (V.cloud_at shelf.old cloud.0) (V.cloud_at shelf.new cloud.0)
            (V.faults shelf.old) (V.faults shelf.new)) }
    {
        self.make_room(shelf, cloud, body.len())?;
        self.add(body);
        Ok(())
    }

    // Writes what waits where a body of so many bytes has no room behind it.
    fn make_room<V: Shelf>(
        &mut self,
        shelf: &mut V,
        cloud: CloudNo,
        len: usize,
    ) -> Result<(), Failed>
        requires { len ≤ 65535 }
        ensures any_moment { KeepsWriterLaid (state_of self.old)
            (V.cloud_at shelf.old cloud.0) (V.cloud_at shelf.new cloud.0) }
        ensures still { IsLaidStill (state_of self.old) (state_of self.new)
            (V.cloud_at shelf.old cloud.0) (V.cloud_at shelf.new cloud.0) result }
        ensures others { OtherAreasStay (V.cloud_at shelf.old cloud.0) (V.cloud_at shelf.new cloud.0) result }
        ensures room { OnOk result (length (state_of self.new).waiting + len + 5 < piece_len) }
        ensures used { used_of (state_of self.new) ≡ used_of (state_of self.old) }
        ensures left { (state_of self.new).left ≡ (state_of self.old).left }
        ensures call { IsCall (V.cloud_at shelf.old) (V.cloud_at shelf.new) cloud.0
            (V.faults shelf.old) (V.faults shelf.new) }
        ensures failed { OnErr result (HasFailed (V.cloud_at shelf.old cloud.0) (V.cloud_at shelf.new cloud.0)
            (V.faults shelf.old) (V.faults shelf.new)) }
        ensures uncounted { OnOk result (KeepsCounts (V.cloud_at shelf.old cloud.0) (V.cloud_at shelf.new cloud.0)
            (V.faults shelf.old) (V.faults shelf.new)) }
    {
        let waits = self.waiting.len();
        if waits + len + 5 < PIECE {
            return Ok(());
        }
        let at = first_place(self.half) + 1 + self.written;
        write_piece(shelf, cloud, at, &mut self.waiting)?;
        self.written += waits as u64;
        Ok(())
    }

    // Adds a record to what waits.
    fn add(&mut self, body: &[u8])
        requires to_come { 1 ≤ (state_of self.old).left }
        requires few { length body.now ≤ 65535 }
        requires room { length (state_of self.old).waiting + length body.now + 5 < piece_len }
        requires within { used_of (state_of self.old) + length body.now + 5 ≤ half_len }
        ensures { state_of self.new ≡ record (state_of self.old) {
          waiting = (state_of self.old).waiting ++ 1 ∷ sized body.now;
          left = (state_of self.old).left - 1;
        } }
    {
        self.waiting.put(&[1]);
        self.waiting.put_sized(body);
        self.left -= 1;
    }

    /// Puts the checkpoint, all of whose records are laid, in the other chain's place: writes what waits and a closed gate,
    /// syncs, opens the half's first gate, and syncs. So after Ok the cloud's moment is higher by four.
    ///
    /// Whenever a crash comes, the journal has the chain that it had, or the checkpoint's; after Ok it has the checkpoint's.
    /// Failed comes only where the cloud's count of faults rose. After either the writer lays nothing before another `turn`.
    pub fn settle<V: Shelf>(&mut self, shelf: &mut V, cloud: CloudNo) -> Result<(), Failed>
        requires { (state_of self.old).left ≡ 0 }

        ensures any_moment { KeepsWriterOrSettles (state_of self.old)
            (V.cloud_at shelf.old cloud.0) (V.cloud_at shelf.new cloud.0) }
        ensures settled { HasWriterSettled (state_of self.old)
            (V.cloud_at shelf.old cloud.0) (V.cloud_at shelf.new cloud.0) result }
        ensures full { IsFull (state_of self.old) (V.cloud_at shelf.old cloud.0) }
        ensures moments { IsLater 4 (V.cloud_at shelf.old cloud.0) (V.cloud_at shelf.new cloud.0) result }
        ensures others { OtherAreasStay (V.cloud_at shelf.old cloud.0) (V.cloud_at shelf.new cloud.0) result }
        ensures call { IsCall (V.cloud_at shelf.old) (V.cloud_at shelf.new) cloud.0
            (V.faults shelf.old) (V.faults shelf.new) }
        ensures failed { OnErr result (HasFailed (V.cloud_at shelf.old cloud.0) (V.cloud_at shelf.new cloud.0)
            (V.faults shelf.old) (V.faults shelf.new)) }
        ensures uncounted { OnOk result (KeepsCounts (V.cloud_at shelf.old cloud.0) (V.cloud_at shelf.new cloud.0)
            (V.faults shelf.old) (V.faults shelf.new)) }
    {
        let place = first_place(self.half);
        let at = place + 1 + self.written;
        write_last(shelf, cloud, at, &mut self.waiting)?;
        write_synced(shelf, cloud, Area::Journal, place, &[1])
    }
}
