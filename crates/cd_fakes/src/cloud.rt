//! One cloud in memory.

ghost use Rattle.std.specs.Prelude.{◌≡◌, ◌≢◌, ◌↔◌, ℕ, ◌+◌, ◌-◌, ◌^◌, ◌≤◌, ◌<◌, List, [], ◌∷◌, ◌++◌, length, min, take, IsTrue, IsOk, IsErr, IfOk, OnOk, OnErr, is_ok, if◌then◌else◌, vec_len, vec_capacity, cond, slice_set, false};
ghost use Rattle.mem_disk.specs.CdEdges.area.Area.{Area};
ghost use Rattle.mem_disk.specs.CdEdges.Causes.{HasCause};
ghost use Rattle.mem_disk.specs.CdEdges.Shelf.{Writes, Syncs, Refreshes, Arms, ReadsFrom};
ghost use Rattle.cd_fakes.specs.Counts.{counted_up, is_named};
ghost use Rattle.mem_disk.specs.Areas.{FitsArea, area_of, held_of, log_of};
ghost use Rattle.mem_disk.specs.History.{Write, Sync, Empty, Crash};
ghost use Rattle.mem_disk.specs.Disks.{history_of};
ghost use Rattle.mem_disk.specs.Numbers.{number_of};

use mem_disk::{Area, CloudNo, Failed, MemDisk, NoMemory, PerArea};
use std::alloc::Global;

/// A cloud in memory: what it holds, and what was said of its calls.
#[derive(Drop)]
pub struct MemCloud {
    /// What it holds.
    pub disk: MemDisk,
    /// Whether it is there. Each call on a cloud that isn't there fails.
    pub is_there: bool,
    /// How many calls came that may fail: all but those of `arm`.
    pub calls: u64,
    /// How many calls failed.
    pub faults: u64,
    /// How often it was armed or disarmed.
    pub armings: u64,
    /// Which write or sync is cut, counted from 1. 0: none is.
    pub cut: u32,
    /// How many bytes a cut write keeps.
    pub keep: u32,
    /// How many reads came of each area.
    pub reads: PerArea,
}

// Whether the call of this number on the cloud is one that fails.
fn names(fails: &[(CloudNo, u64)], number: CloudNo, call: u64) -> bool
    ensures { result ≡ is_named fails.now number.0 call }
{
    fails
        .iter()
        .any(|entry| entry.0.0 == number.0 && entry.1 == call)
}

impl MemCloud {
    ghost use Rattle.cd_fakes.specs.Clouds.{cloud_of, IsCallRefused, PutFails, WriteFails, SyncFails, FreshFails, HasSpare, Puts, KeepsPart, CanCrash, Crashes};

    /// An empty cloud of this room in each area, with memory for so many notes.
    pub fn of(alloc: Global, is_there: bool, room: u64, notes: u32) -> Result<MemCloud, NoMemory>
        ensures is_there { IfOk result (λ m. m.is_there ≡ is_there) }
        ensures told { IfOk result (λ m. m.disk.told ≡ is_there) }
        ensures room { IfOk result (λ m. (area : Area) → (area_of m.disk.areas area).room ≡ room) }
        ensures held { IfOk result (λ m. (area : Area) → held_of m.disk.areas area ≡ []) }
        ensures log { IfOk result (λ m. (area : Area) → log_of m.disk.areas area ≡ []) }
        ensures history { IfOk result (λ m. history_of m.disk ≡ []) }
        ensures counts { IfOk result (λ m. (m.calls ≡ 0) × (m.faults ≡ 0) × (m.armings ≡ 0) × (m.cut ≡ 0)) }
        ensures reads { IfOk result (λ m. (area : Area) → number_of m.reads area ≡ 0) }
        ensures spare { IfOk result (HasSpare notes) }
    {
        Ok(MemCloud {
            disk: MemDisk::of(alloc, is_there, room, notes)?,
            is_there,
            calls: 0,
            faults: 0,
            armings: 0,
            cut: 0,
            keep: 0,
            reads: PerArea::ZEROS,
        })
    }

    /// Begins a call on the cloud, which has this number, and says whether it fails before it does anything.
    pub fn begin(&mut self, fails: &[(CloudNo, u64)], number: CloudNo) -> bool
        ensures calls { self.new ≡ record self.old { calls = counted_up self.old.calls } }
        ensures refused { IsTrue result ↔ IsCallRefused fails.now number.0 self.old }
    {
        self.calls = self.calls.saturating_add(1);
        !self.is_there || names(fails, number, self.calls)
    }

    /// Counts a failure, which is the answer.
    pub fn refuse<T>(&mut self) -> Result<T, Failed>
        ensures faults { self.new ≡ record self.old { faults = counted_up self.old.faults } }
        ensures cause { HasCause self.old.faults self.new.faults result }
        ensures failed { IsErr result }
    {
        self.faults = self.faults.saturating_add(1);
        Err(Failed)
    }

    // Counts a write or a sync, and says whether it is cut.
    fn count_down(&mut self) -> bool
        ensures counted { self.new ≡ record self.old { cut = self.old.cut - 1 } }
        ensures cut { IsTrue result ↔ (self.old.cut ≡ 1) }
    {
        let cut = self.cut;
        self.cut = cut.saturating_sub(1);
        cut == 1
    }

    // Puts the bytes where there is room for them and for a note.
    fn put(&mut self, left: &mut u32, area: Area, at: u64, bytes: &[u8]) -> Result<(), Failed>
        requires there { IsTrue self.old.is_there }
        requires spare { HasSpare left.old self.old }
        ensures rest { self.new ≡ record self.old { disk = self.new.disk } }
        ensures ok { OnOk result (Puts self.old.disk self.new.disk area at bytes.now × (left.new + 1 ≡ left.old)) }
        ensures err { OnErr result ((self.new ≡ self.old) × (left.new ≡ left.old)) }
        ensures fails { IsErr result ↔ PutFails left.old self.old area at (length bytes.now) }
        ensures spare { HasSpare left.new self.new }
        ensures later { left.new ≤ left.old }
    {
        if *left == 0 || !self.disk.areas.get(area).fits(at, bytes.len()) {
            return Err(Failed);
        }
        self.disk.write(area, at, bytes);
        *left -= 1;
        Ok(())
    }

    /// How many bytes the area has.
    pub fn len(
        &mut self,
        fails: &[(CloudNo, u64)],
        number: CloudNo,
        area: Area,
    ) -> Result<u64, Failed>
        ensures len { IfOk result (λ len. len ≡ length (held_of self.old.disk.areas area)) }
        ensures rest { self.new ≡ record self.old { calls = counted_up self.old.calls; faults = self.new.faults } }
        ensures cause { HasCause self.old.faults self.new.faults result }
        ensures faults { self.new.faults ≡ (if is_ok result then self.old.faults else counted_up self.old.faults) }
        ensures fails { IsErr result ↔ IsCallRefused fails.now number.0 self.old }
    {
        if self.begin(fails, number) {
            return self.refuse();
        }
        Ok(self.disk.areas.get(area).len())
    }

    /// Puts what the area has from a place in front of a buffer. Each such call is counted for its area.
    pub fn read(
        &mut self,
        fails: &[(CloudNo, u64)],
        number: CloudNo,
        area: Area,
        at: u64,
        out: &mut [u8],
    ) -> Result<usize, Failed>
        ensures bytes { IfOk result (λ count. ReadsFrom (held_of self.old.disk.areas area) at count out.new) }
        ensures bound { IfOk result (λ count. count ≤ length out.new) }
        ensures rest { self.new ≡ record self.old {
          calls = counted_up self.old.calls;
          faults = self.new.faults;
          reads = self.new.reads;
        } }
        ensures reads { number_of self.new.reads area ≡ counted_up (number_of self.old.reads area) }
        ensures other_reads { (other : Area) → other ≢ area →
            number_of self.new.reads other ≡ number_of self.old.reads other }
        ensures cause { HasCause self.old.faults self.new.faults result }
        ensures faults { self.new.faults ≡ (if is_ok result then self.old.faults else counted_up self.old.faults) }
        ensures fails { IsErr result ↔ IsCallRefused fails.now number.0 self.old }
    {
        self.reads.set(area, self.reads.get(area).saturating_add(1));
        if self.begin(fails, number) {
            return self.refuse();
        }
        let count = self.disk.areas.get(area).read(at, out);
        Ok(count)
    }

    /// Writes, or fails exactly as `WriteFails` says. A cut write keeps its first bytes where there is room for them.
    pub fn write(
        &mut self,
        fails: &[(CloudNo, u64)],
        number: CloudNo,
        left: &mut u32,
        area: Area,
        at: u64,
        bytes: &[u8],
    ) -> Result<(), Failed>
        requires { HasSpare left.old self.old }
        ensures write { IsTrue self.old.disk.told
            → Writes (cloud_of self.old) (cloud_of self.new) area at bytes.now result }
        ensures told { self.new.disk.told ≡ self.old.disk.told }
        ensures is_there { self.new.is_there ≡ self.old.is_there }
        ensures reads { self.new.reads ≡ self.old.reads }
        ensures armings { self.new.armings ≡ self.old.armings }
        ensures cause { HasCause self.old.faults self.new.faults result }
        ensures faults { self.new.faults ≡ (if is_ok result then self.old.faults else counted_up self.old.faults) }
        ensures calls { self.new.calls ≡ counted_up self.old.calls }
        ensures spare { HasSpare left.new self.new }
        ensures later { left.new ≤ left.old }

        ensures fails { IsErr result ↔ WriteFails fails.now left.old number.0 self.old area at (length bytes.now) }
        ensures ok { OnOk result (Puts self.old.disk self.new.disk area at bytes.now × (left.new + 1 ≡ left.old)) }
        ensures err { OnErr result
            (KeepsPart fails.now left.old left.new number.0 self.old self.new area at bytes.now) }
    {
        let refused = self.begin(fails, number);
        if self.count_down() {
            if !refused {
                let kept = bytes.len().min(self.keep as usize);
                let _ = self.put(left, area, at, &bytes[..kept]);
            }
            return self.refuse();
        }
        if refused {
            return self.refuse();
        }
        match self.put(left, area, at, bytes) {
            Ok(()) => Ok(()),
            Err(Failed) => self.refuse(),
        }
    }

    /// Syncs, or fails exactly as `SyncFails` says, and then nothing was done.
    pub fn sync(
        &mut self,
        fails: &[(CloudNo, u64)],
        number: CloudNo,
        left: &mut u32,
        area: Area,
    ) -> Result<(), Failed>
        requires { HasSpare left.old self.old }
        ensures sync { IsTrue self.old.disk.told → Syncs (cloud_of self.old) (cloud_of self.new) area result }
        ensures told { self.new.disk.told ≡ self.old.disk.told }
        ensures is_there { self.new.is_there ≡ self.old.is_there }
        ensures reads { self.new.reads ≡ self.old.reads }
        ensures armings { self.new.armings ≡ self.old.armings }
        ensures cause { HasCause self.old.faults self.new.faults result }
        ensures faults { self.new.faults ≡ (if is_ok result then self.old.faults else counted_up self.old.faults) }
        ensures calls { self.new.calls ≡ counted_up self.old.calls }
        ensures spare { HasSpare left.new self.new }
        ensures later { left.new ≤ left.old }

        ensures fails { IsErr result ↔ SyncFails fails.now left.old number.0 self.old }
        ensures areas { self.new.disk.areas ≡ self.old.disk.areas }
        ensures ok { OnOk result (left.new + 1 ≡ left.old) }
        ensures err { OnErr result ((self.new.disk ≡ self.old.disk) × (left.new ≡ left.old)) }
    {
        let refused = self.begin(fails, number);
        let cut = self.count_down();
        if refused || cut || *left == 0 {
            return self.refuse();
        }
        self.disk.sync(area);
        *left -= 1;
        Ok(())
    }

    /// Makes the areas empty, or fails exactly as `FreshFails` says, and then nothing was done.
    pub fn fresh(
        &mut self,
        fails: &[(CloudNo, u64)],
        number: CloudNo,
        left: &mut u32,
    ) -> Result<(), Failed>
        requires { HasSpare left.old self.old }
        ensures fresh { IsTrue self.old.disk.told → Refreshes (cloud_of self.old) (cloud_of self.new) result }
        ensures told { self.new.disk.told ≡ self.old.disk.told }
        ensures is_there { self.new.is_there ≡ self.old.is_there }
        ensures reads { self.new.reads ≡ self.old.reads }
        ensures armings { self.new.armings ≡ self.old.armings }
        ensures cause { HasCause self.old.faults self.new.faults result }
        ensures faults { self.new.faults ≡ (if is_ok result then self.old.faults else counted_up self.old.faults) }
        ensures calls { self.new.calls ≡ counted_up self.old.calls }
        ensures spare { HasSpare left.new self.new }
        ensures later { left.new ≤ left.old }

        ensures fails { IsErr result ↔ FreshFails fails.now left.old number.0 self.old }
        ensures room { (area : Area) → (area_of self.new.disk.areas area).room
            ≡ (area_of self.old.disk.areas area).room }
        ensures log { (area : Area) → log_of self.new.disk.areas area ≡ log_of self.old.disk.areas area }
        ensures ok { OnOk result (((area : Area) → held_of self.new.disk.areas area ≡ []) × (left.new + 1 ≡ left.old)) }
        ensures err { OnErr result ((self.new.disk ≡ self.old.disk) × (left.new ≡ left.old)) }
    {
        if self.begin(fails, number) {
            return self.refuse();
        }
        if *left == 0 {
            return self.refuse();
        }
        self.disk.empty();
        *left -= 1;
        self.cut = 0;
        Ok(())
    }

    /// Arms, or disarms for 0 calls. At the last value of the count of armings this does nothing.
    pub fn arm(&mut self, calls: u32, keep: u32)
        ensures arms { Arms (cloud_of self.old) (cloud_of self.new) calls keep }
        ensures rest { self.new
            ≡ record self.old { armings = self.new.armings; cut = self.new.cut; keep = self.new.keep } }
    {
        if self.armings < u64::MAX {
            self.armings += 1;
            self.cut = calls;
            self.keep = keep;
        }
    }

    /// Leaves the areas as a crash leaves them, and says whether it did: not where the cloud isn't there, is told no
    /// more, or where no note is left.
    pub fn crash(&mut self, left: &mut u32, fill: u8, whole: bool) -> bool
        requires { HasSpare left.old self.old }
        ensures crashes { IsTrue result → Crashes (cloud_of self.old) (cloud_of self.new) fill whole }
        ensures did { IsTrue result ↔ CanCrash left.old self.old }
        ensures rest { self.new ≡ record self.old { disk = self.new.disk } }
        ensures left { left.new + (if result then 1 else 0) ≡ left.old }
        ensures stays { result ≡ false → self.new ≡ self.old }
        ensures spare { HasSpare left.new self.new }
        ensures later { left.new ≤ left.old }
    {
        if !self.is_there || !self.disk.told || *left == 0 {
            return false;
        }
        self.disk.crash(fill, whole);
        *left -= 1;
        true
    }
}
