//! Records of one half, read one after another and added at the end.

ghost use Rattle.std.specs.Prelude.{◌≡◌, ◌≢◌, ◌⊎◌, ℕ, ◌+◌, ◌-◌, ◌*◌, ◌<◌, ◌≤◌, List, [], ◌∷◌, ◌++◌, length, take, drop, vec_len, true, IsTrue, Ok, IfOk, OnOk, OnErr};
ghost use Rattle.cd_edges.specs.declared.area.Area.{Area};
ghost use Rattle.cd_edges.specs.Disk.{moment};
ghost use Rattle.cd_edges.specs.Shelf.{IsCall, HasFailed, KeepsCounts, Stays};
ghost use Rattle.journal_halves.specs.Records.{window_len, framed};
ghost use Rattle.journal_start.specs.Ranges.{IsStart};
ghost use Rattle.journal_halves.specs.Halves.{half_len};
ghost use Rattle.journal_halves.specs.Findings.{FindIs, OnFindFault};

use crate::{FindErr, Found, Frame, HALF_LEN, RecordErr, WINDOW, find, frame_of};
use cd_edges::{Area, CloudNo, Failed, NoMemory, Shelf, write_synced};
use std::alloc::Global;

/// The records of one half of a cloud's journal, read up to a gate.
#[derive(Drop)]
pub struct HalfRecords {
    pub(crate) half: u8,
    // The place of the next gate, counted from the half's first place.
    pub(crate) gate: u64,
    // Bytes that were read, and which of them are the half's from the gate on.
    pub(crate) buffer: Vec<u8>,
    pub(crate) from: usize,
    pub(crate) filled: usize,
    // Where the last record's body lies in the buffer and in the area.
    pub(crate) body_from: usize,
    pub(crate) body_len: usize,
    pub(crate) body_at: u64,
    ghost is_half: { half ≤ 1 },
    ghost window: { vec_len buffer ≡ window_len },
    ghost filled_in: { filled ≤ window_len },
    ghost from_in: { from ≤ filled },
    ghost body_in: { body_from + body_len ≤ window_len },
    ghost gate_in: { gate + 1 ≤ half_len },
    ghost ahead_in: { gate + filled ≤ half_len + from },
}

// Puts the length, the body and a closed gate in front of a buffer.
fn put_framed(buffer: &mut [u8], body: &[u8])
    requires few { length body.now ≤ 65535 }
    requires room { length body.now + 5 ≤ length buffer.old }
    ensures { take (length body.now + 5) buffer.new ≡ framed body.now }
{
    let len = body.len();
    buffer[..4].copy_from_slice(&(len as u32).to_be_bytes());
    buffer[4..4 + len].copy_from_slice(body);
    buffer[4 + len] = 0;
}

impl HalfRecords {
    ghost use Rattle.journal_halves.specs.Frames.{IsFrameAhead, IsRecordAhead};
    ghost use Rattle.journal_halves.specs.States.{state_of, begun_at};
    ghost use Rattle.journal_halves.specs.Outcomes.{IsWindow, IsRecordFurther, gate_at, rest_of, TakenIs, DamageIs, StepIs, IsHandled, OnFailed, AllButJournalStay, KeepsHalfOrAdds, HasAdded, ReadsNext};

    /// No records of half 0. It takes all its memory here, a window of 65,541 bytes, and the only error is want of memory.
    pub fn make(alloc: Global) -> Result<HalfRecords, NoMemory>
        ensures { IfOk result (λ records. state_of records ≡ begun_at 0 0) }
    {
        Ok(HalfRecords {
            half: 0,
            gate: 0,
            buffer: vec![in alloc; 0u8; WINDOW]?,
            from: 0,
            filled: 0,
            body_from: 0,
            body_len: 0,
            body_at: 0,
        })
    }

    /// Which half it is.
    pub fn half(&self) -> u8
        ensures { result ≡ (state_of self.now).half }
    {
        self.half
    }

    /// How many places of the half are used, up to and with the gate.
    pub fn used(&self) -> u64
        ensures { result ≡ (state_of self.now).gate + 1 }
    {
        self.gate + 1
    }

    /// The body of the record that was read last.
    pub fn body(&self) -> &[u8]
        ensures { result.now ≡ (state_of self.now).body }
    {
        &self.buffer[self.body_from..self.body_from + self.body_len]
    }

    /// The place of that body in the area.
    pub fn body_at(&self) -> u64
        ensures { result ≡ (state_of self.now).body_at }
    {
        self.body_at
    }

    /// The place of the gate in the area.
    pub fn gate_at(&self) -> u64
        ensures value { result ≡ gate_at (state_of self.now) }
        ensures small { result < 268435456 }
    {
        self.half as u64 * HALF_LEN + self.gate
    }

    /// Begins at a gate of a half, with nothing read.
    pub fn begin(&mut self, half: u8, gate: u64)
        requires half { half ≤ 1 }
        requires gate { gate + 1 ≤ half_len }
        ensures { state_of self.new ≡ begun_at half gate }
    {
        self.half = half;
        self.gate = gate;
        self.from = 0;
        self.filled = 0;
        self.body_from = 0;
        self.body_len = 0;
        self.body_at = 0;
    }

    /// Finds the current half of the journal through this window, as `finding`'s `find`. Only `begin` may be called then.
    pub fn find<V: Shelf>(&mut self, shelf: &mut V, cloud: CloudNo) -> Result<Found, FindErr>
        ensures found { IsTrue (V.cloud_at shelf.old cloud.0).told
            → FindIs ((V.cloud_at shelf.old cloud.0).now Area.Journal).read result }
        ensures start { IfOk result (λ found. IsStart found.half found.start) }
        ensures stays { Stays (V.cloud_at shelf.old cloud.0) (V.cloud_at shelf.new cloud.0) }
        ensures call { IsCall (V.cloud_at shelf.old) (V.cloud_at shelf.new) cloud.0
            (V.faults shelf.old) (V.faults shelf.new) }
        ensures counts { OnFindFault result
            (HasFailed (V.cloud_at shelf.old cloud.0) (V.cloud_at shelf.new cloud.0)
            (V.faults shelf.old) (V.faults shelf.new))
            (KeepsCounts (V.cloud_at shelf.old cloud.0) (V.cloud_at shelf.new cloud.0)
            (V.faults shelf.old) (V.faults shelf.new)) }
    {
        self.from = 0;
        self.filled = 0;
        self.body_from = 0;
        self.body_len = 0;
        find(shelf, cloud, &mut self.buffer)
    }

    /// Reads the next record, which `body` then gives: true. False comes exactly at the first gate that is closed. Damaged
    /// comes exactly where an open gate is the last place of the half or of the area (its place and 1), or where what follows
    /// it is no length from 1 to 65,535 with so many bytes and a next gate before that end (the first place of the length and
    /// its byte). Failed comes only where the cloud's count of faults rose. After an Err only `begin` may be called.
    ///
    /// It makes one device call at most, and none where the record was read ahead: by its body, no clause counts reads. A call
    /// reads from the record's gate on as much as the window takes, which is 64 KiB and a record's frame.
    pub fn next<V: Shelf>(&mut self, shelf: &mut V, cloud: CloudNo) -> Result<bool, RecordErr>
        ensures reads { ReadsNext (state_of self.old) (state_of self.new) (V.cloud_at shelf.old cloud.0) result }
        ensures step { StepIs (state_of self.old) (state_of self.new) result }
        ensures stays { Stays (V.cloud_at shelf.old cloud.0) (V.cloud_at shelf.new cloud.0) }
        ensures call { IsCall (V.cloud_at shelf.old) (V.cloud_at shelf.new) cloud.0
            (V.faults shelf.old) (V.faults shelf.new) }
        ensures counts { OnFailed result
            (HasFailed (V.cloud_at shelf.old cloud.0) (V.cloud_at shelf.new cloud.0)
            (V.faults shelf.old) (V.faults shelf.new))
            (KeepsCounts (V.cloud_at shelf.old cloud.0) (V.cloud_at shelf.new cloud.0)
            (V.faults shelf.old) (V.faults shelf.new)) }
    {
        match self.look(shelf, cloud) {
            Ok(frame) => self.take(frame),
            Err(Failed) => Err(RecordErr::Failed),
        }
    }

    /// Adds a record behind the closed gate. After Ok a crash leaves it; whenever a crash comes, it leaves the old records or
    /// those and this one, and the other half as it was. Failed comes only where the cloud's count of faults rose, and then
    /// only `begin` may be called. It makes two writes, each with a sync: the record with the next gate, closed, and then its
    /// own gate. So after Ok the cloud's moment is higher by four. It takes no memory.
    pub fn append<V: Shelf>(
        &mut self,
        shelf: &mut V,
        cloud: CloudNo,
        body: &[u8],
    ) -> Result<(), Failed>
        requires some { 1 ≤ length body.now }
        requires few { length body.now ≤ 65535 }
        requires room { (state_of self.old).gate + length body.now + 6 ≤ half_len }

        ensures any_moment { KeepsHalfOrAdds (state_of self.old) body.now
            (V.cloud_at shelf.old cloud.0) (V.cloud_at shelf.new cloud.0) }
        ensures added { OnOk result (HasAdded (state_of self.old) (state_of self.new) body.now
            (V.cloud_at shelf.old cloud.0) (V.cloud_at shelf.new cloud.0)) }
        ensures others { IsTrue (V.cloud_at shelf.old cloud.0).told
            → OnOk result (AllButJournalStay (V.cloud_at shelf.old cloud.0) (V.cloud_at shelf.new cloud.0)) }
        ensures moments { IsTrue (V.cloud_at shelf.old cloud.0).told
            → OnOk result (moment (V.cloud_at shelf.new cloud.0) ≡ moment (V.cloud_at shelf.old cloud.0) + 4) }
        ensures gate { OnOk result ((state_of self.new).gate ≡ (state_of self.old).gate + 5 + length body.now) }
        ensures half { (state_of self.new).half ≡ (state_of self.old).half }
        ensures call { IsCall (V.cloud_at shelf.old) (V.cloud_at shelf.new) cloud.0
            (V.faults shelf.old) (V.faults shelf.new) }
        ensures failed { OnErr result
            (HasFailed (V.cloud_at shelf.old cloud.0) (V.cloud_at shelf.new cloud.0)
            (V.faults shelf.old) (V.faults shelf.new)) }
        ensures uncounted { OnOk result
            (KeepsCounts (V.cloud_at shelf.old cloud.0) (V.cloud_at shelf.new cloud.0)
            (V.faults shelf.old) (V.faults shelf.new)) }
    {
        self.fill(body);
        let end = body.len() + 5;
        let place = self.gate_at();
        let record = &self.buffer[..end];
        write_synced(shelf, cloud, Area::Journal, place + 1, record)?;
        write_synced(shelf, cloud, Area::Journal, place, &[1])?;
        self.gate += end as u64;
        Ok(())
    }

    // Puts a record without its gate, but with the next gate, closed, into the window.
    fn fill(&mut self, body: &[u8])
        requires few { length body.now ≤ 65535 }
        ensures framed { take (length body.now + 5) self.new.buffer.items ≡ framed body.now }
        ensures rest { (self.new.half ≡ self.old.half) × (self.new.gate ≡ self.old.gate) }
        ensures none { (self.new.from ≡ 0) × (self.new.filled ≡ 0) }
    {
        self.from = 0;
        self.filled = 0;
        self.body_from = 0;
        self.body_len = 0;
        put_framed(&mut self.buffer, body);
    }

    // What was read ahead.
    fn ahead(&self) -> &[u8]
        ensures { result.now ≡ (state_of self.now).ahead }
    {
        &self.buffer[self.from..self.filled]
    }

    // Reads from the gate on as much as the window takes, up to the half's end.
    fn load<V: Shelf>(&mut self, shelf: &mut V, cloud: CloudNo) -> Result<(), Failed>
        ensures ahead { IsTrue (V.cloud_at shelf.old cloud.0).told → OnOk result
            ((state_of self.new).ahead
            ≡ take window_len (rest_of (state_of self.old) ((V.cloud_at shelf.old cloud.0).now Area.Journal))) }
        ensures rest { (self.new.half ≡ self.old.half) × (self.new.gate ≡ self.old.gate) }
        ensures stays { Stays (V.cloud_at shelf.old cloud.0) (V.cloud_at shelf.new cloud.0) }
        ensures call { IsCall (V.cloud_at shelf.old) (V.cloud_at shelf.new) cloud.0
            (V.faults shelf.old) (V.faults shelf.new) }
        ensures failed { OnErr result
            (HasFailed (V.cloud_at shelf.old cloud.0) (V.cloud_at shelf.new cloud.0)
            (V.faults shelf.old) (V.faults shelf.new)) }
        ensures uncounted { OnOk result
            (KeepsCounts (V.cloud_at shelf.old cloud.0) (V.cloud_at shelf.new cloud.0)
            (V.faults shelf.old) (V.faults shelf.new)) }
    {
        self.from = 0;
        self.filled = 0;
        self.body_from = 0;
        self.body_len = 0;
        let place = self.gate_at();
        let count = shelf.read(cloud, Area::Journal, place, &mut self.buffer)?;
        let left = (HALF_LEN - self.gate) as usize;
        self.filled = count.min(left);
        Ok(())
    }

    // Tells what stands at the gate, and reads it where too little was read ahead.
    fn look<V: Shelf>(&mut self, shelf: &mut V, cloud: CloudNo) -> Result<Frame, Failed>
        ensures frame { IfOk result (IsFrameAhead (state_of self.new).ahead) }
        ensures ahead { IsTrue (V.cloud_at shelf.old cloud.0).told → (rest : List ℕ)
            → rest ≡ rest_of (state_of self.old) ((V.cloud_at shelf.old cloud.0).now Area.Journal)
            → IsWindow (state_of self.old) rest
            → IfOk result (λ frame. IsWindow (state_of self.new) rest
            × (frame ≡ Frame.Short → (state_of self.new).ahead ≡ rest)) }
        ensures rest { (self.new.half ≡ self.old.half) × (self.new.gate ≡ self.old.gate) }
        ensures stays { Stays (V.cloud_at shelf.old cloud.0) (V.cloud_at shelf.new cloud.0) }
        ensures call { IsCall (V.cloud_at shelf.old) (V.cloud_at shelf.new) cloud.0
            (V.faults shelf.old) (V.faults shelf.new) }
        ensures failed { OnErr result
            (HasFailed (V.cloud_at shelf.old cloud.0) (V.cloud_at shelf.new cloud.0)
            (V.faults shelf.old) (V.faults shelf.new)) }
        ensures uncounted { OnOk result
            (KeepsCounts (V.cloud_at shelf.old cloud.0) (V.cloud_at shelf.new cloud.0)
            (V.faults shelf.old) (V.faults shelf.new)) }
    {
        let frame = frame_of(self.ahead());
        if frame != Frame::Short {
            return Ok(frame);
        }
        self.load(shelf, cloud)?;
        Ok(frame_of(self.ahead()))
    }

    // Goes over what stands at the gate.
    fn take(&mut self, frame: Frame) -> Result<bool, RecordErr>
        requires frame { IsFrameAhead (state_of self.old).ahead frame }
        ensures taken { (rest : List ℕ) → IsWindow (state_of self.old) rest
            → (frame ≡ Frame.Short → (state_of self.old).ahead ≡ rest) → 0 < length rest → length rest ≤ half_len
            → TakenIs (state_of self.old) (state_of self.new) rest result }
        ensures step { StepIs (state_of self.old) (state_of self.new) result }
        ensures handled { IsHandled result }
    {
        match frame {
            Frame::Closed => Ok(false),
            Frame::Record { len } => {
                self.step(len);
                Ok(true)
            }
            Frame::BadLength => Err(self.damage()),
            Frame::Short => Err(self.damage()),
        }
    }

    // Goes over an open record whose body has so many bytes.
    fn step(&mut self, len: usize)
        requires { IsFrameAhead (state_of self.old).ahead (Frame.Record len) }
        ensures found { (rest : List ℕ) → IsWindow (state_of self.old) rest
            → IsRecordAhead rest (state_of self.new).body
            × IsWindow (state_of self.new) (drop (5 + length (state_of self.new).body) rest) }
        ensures over { IsRecordFurther (state_of self.old) (state_of self.new) }
    {
        let place = self.gate_at();
        self.body_from = self.from + 5;
        self.body_len = len;
        self.body_at = place + 5;
        self.from += len + 5;
        self.gate += len as u64 + 5;
    }

    // The damage of the open record at the gate.
    fn damage(&self) -> RecordErr
        ensures { DamageIs (state_of self.now).ahead (gate_at (state_of self.now)) result }
    {
        let place = self.gate_at();
        match self.ahead() {
            [_, byte, ..] => RecordErr::Damaged {
                at: place + 1,
                byte: *byte,
            },
            _ => RecordErr::Damaged { at: place, byte: 1 },
        }
    }
}
