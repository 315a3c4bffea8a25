//! Clouds in memory, one for each number.

ghost use Rattle.std.specs.Prelude.{◌≡◌, ◌≢◌, ◌↔◌, ℕ, ◌+◌, ◌-◌, ◌^◌, ◌≤◌, ◌<◌, List, [], ◌∷◌, ◌++◌, length, min, slice_get, slice_set, Some, IfOk, OnOk, OnErr, IsOk, IsErr, IsTrue, is_ok, if◌then◌else◌, cond, false};
ghost use Rattle.mem_disk.specs.CdEdges.area.Area.{Area};
ghost use Rattle.mem_disk.specs.CdEdges.Causes.{HasCause};
ghost use Rattle.mem_disk.specs.CdEdges.Shelf.{IsCall, HasFailed, KeepsCounts, Stays, Writes, Syncs, Refreshes, Arms, ReadsFrom};
ghost use Rattle.cd_fakes.specs.declared.cloud.MemCloud.{MemCloud};
ghost use Rattle.cd_fakes.specs.Counts.{counted_up};
ghost use Rattle.mem_disk.specs.Areas.{area_of, held_of, log_of};
ghost use Rattle.mem_disk.specs.Disks.{history_of};
ghost use Rattle.mem_disk.specs.Numbers.{number_of};
ghost use Rattle.cd_fakes.specs.Clouds.{HasSpare, IsCallRefused, WriteFails, SyncFails, FreshFails, Puts, KeepsPart, CanCrash, Crashes};
ghost use Rattle.cd_fakes.specs.Shelves.{clouds_of, AllSpare, At, AtBoth, IsNew};
ghost use Rattle.cd_fakes.specs.CloudsRead.{clouds_read};

use crate::MemCloud;
use mem_disk::{Area, CloudNo, Failed, NoMemory, Shelf};
use std::alloc::Global;

/// Clouds in memory, which tell everything, until a byte is damaged. They have all their memory from the start.
#[derive(Drop)]
pub struct MemShelf {
    /// A cloud for each number.
    pub clouds: Vec<MemCloud>,
    /// The calls that fail, each by its cloud and its number among that cloud's calls, from 1.
    pub fails: Vec<(CloudNo, u64)>,
    /// How many writes, syncs, fresh calls and crashes can still be noted.
    pub left: u32,
    /// How many calls failed in all.
    pub total: u64,
    ghost all: { length clouds.items ≡ 256 },
    ghost spare: { AllSpare left clouds.items },
}

// The cloud of a number, as a shelf with so many clouds has it.
fn new_cloud(
    alloc: Global,
    number: u16,
    clouds: u8,
    room: u64,
    calls: u32,
) -> Result<MemCloud, NoMemory>
    ensures new { IfOk result (IsNew clouds room number) }
    ensures spare { IfOk result (HasSpare calls) }
{
    if number < clouds as u16 {
        MemCloud::of(alloc, true, room, calls)
    } else {
        MemCloud::of(alloc, false, 0, 0)
    }
}

impl MemShelf {
    /// The clouds below `clouds` are there, with `room` bytes in each of an area's two ranges and as many for the notes
    /// of what was written into it; `calls` writes, syncs, fresh calls and crashes can be noted in all. `fails` names
    /// calls of any kind but `arm`, by their cloud and by their number among its calls, from 1. A call fails exactly
    /// where it is named, where its cloud isn't there, where one of these rooms is used up, or where it is cut.
    pub fn of(
        alloc: Global,
        clouds: u8,
        room: u64,
        calls: u32,
        fails: &[(CloudNo, u64)],
    ) -> Result<MemShelf, NoMemory>
        ensures clouds { IfOk result (λ shelf. (number : ℕ) → At shelf.clouds.items number (IsNew clouds room number)) }
        ensures fails { IfOk result (λ shelf. shelf.fails.items ≡ fails.now) }
        ensures left { IfOk result (λ shelf. shelf.left ≡ calls) }
        ensures total { IfOk result (λ shelf. shelf.total ≡ 0) }
    {
        let mut list = Vec::with_capacity(alloc, 256)?;
        for number in 0..256u16 {
            let cloud = new_cloud(alloc, number, clouds, room, calls)?;
            list.push(cloud)?;
        }
        Ok(MemShelf {
            clouds: list,
            fails: fails.to_vec(alloc)?,
            left: calls,
            total: 0,
        })
    }

    /// How many reads came of a cloud's area, also of those that failed.
    pub fn reads(&self, cloud: CloudNo, area: Area) -> u64
        ensures { At self.now.clouds.items cloud.0 (λ m. result ≡ number_of m.reads area) }
    {
        self.clouds[cloud.0 as usize].reads.get(area)
    }

    /// Leaves a cloud as a crash leaves it: each byte written since the last Ok sync of its area holds `fill`, and what
    /// lies past the synced length stays (`whole`) or goes. A call that was cut is no Ok sync. All of it is synced
    /// then; counts and arming stay. Says whether it did: nothing changes on a cloud that isn't there or is told no more, or
    /// where no note is left.
    pub fn crash(&mut self, cloud: CloudNo, fill: u8, whole: bool) -> bool
        ensures crashes { IsTrue result →
            Crashes (clouds_of self.old.clouds.items cloud.0) (clouds_of self.new.clouds.items cloud.0) fill whole }
        ensures did { At self.old.clouds.items cloud.0 (λ m. IsTrue result ↔ CanCrash self.old.left m) }
        ensures stays { result ≡ false → AtBoth self.old.clouds.items self.new.clouds.items cloud.0 (λ m m'. m' ≡ m) }
        ensures counts { AtBoth self.old.clouds.items self.new.clouds.items cloud.0 (λ m m'. m'
            ≡ record m { disk = m'.disk }) }
        ensures others_stay { (other : ℕ) → other ≢ cloud.0
            → slice_get self.new.clouds.items other ≡ slice_get self.old.clouds.items other }
        ensures left { self.new.left + (if result then 1 else 0) ≡ self.old.left }
        ensures rest { (self.new.fails ≡ self.old.fails) × (self.new.total ≡ self.old.total) }
    {
        self.clouds[cloud.0 as usize].crash(&mut self.left, fill, whole)
    }

    // Counts a failure in all.
    fn count<T>(&mut self, outcome: Result<T, Failed>) -> Result<T, Failed>
        ensures same { result ≡ outcome }
        ensures clouds { self.new.clouds ≡ self.old.clouds }
        ensures fails { self.new.fails ≡ self.old.fails }
        ensures left { self.new.left ≡ self.old.left }
        ensures total { self.new.total ≡ (if is_ok result then self.old.total else counted_up self.old.total) }
        ensures cause { HasCause self.old.total self.new.total result }
    {
        if outcome.is_err() {
            self.total = self.total.saturating_add(1);
        }
        outcome
    }
}

impl Shelf for MemShelf {
    ghost cloud_at = { λ s number. clouds_of s.clouds.items number };

    ghost faults = { λ s. s.total };

    ghost reads_image = { λ s number told. clouds_read s.clouds.items number };

    fn root(&mut self, _name: &str) -> Result<(), Failed>
        ensures stays { (number : ℕ) → clouds_of self.new.clouds.items number ≡ clouds_of self.old.clouds.items number }
        ensures cause { HasCause self.old.total self.new.total result }
        ensures succeeds { IsOk result }
        ensures same { self.new ≡ self.old }
    {
        Ok(())
    }

    fn len(&mut self, cloud: CloudNo, area: Area) -> Result<u64, Failed>
        ensures len { IsTrue (clouds_of self.old.clouds.items cloud.0).told
            → IfOk result (λ len. len ≡ length ((clouds_of self.old.clouds.items cloud.0).now area).read) }
        ensures stays { Stays (clouds_of self.old.clouds.items cloud.0) (clouds_of self.new.clouds.items cloud.0) }
        ensures call { IsCall (clouds_of self.old.clouds.items)
            (clouds_of self.new.clouds.items) cloud.0 self.old.total self.new.total }
        ensures failed { OnErr result (HasFailed (clouds_of self.old.clouds.items cloud.0)
            (clouds_of self.new.clouds.items cloud.0) self.old.total self.new.total) }
        ensures uncounted { OnOk result (KeepsCounts (clouds_of self.old.clouds.items cloud.0)
            (clouds_of self.new.clouds.items cloud.0) self.old.total self.new.total) }

        ensures fails { At self.old.clouds.items cloud.0
            (λ m. IsErr result ↔ IsCallRefused self.old.fails.items cloud.0 m) }
        ensures counts { AtBoth self.old.clouds.items self.new.clouds.items cloud.0 (λ m m'. (m'.calls
            ≡ counted_up m.calls) × (m'.faults ≡ (if is_ok result then m.faults else counted_up m.faults))) }
        ensures reads { AtBoth self.old.clouds.items self.new.clouds.items cloud.0 (λ m m'. m'.reads ≡ m.reads) }
        ensures total { self.new.total ≡ (if is_ok result then self.old.total else counted_up self.old.total) }
        ensures fails_stay { self.new.fails ≡ self.old.fails }
        ensures others_stay { (other : ℕ) → other ≢ cloud.0
            → slice_get self.new.clouds.items other ≡ slice_get self.old.clouds.items other }
        ensures held { At self.old.clouds.items cloud.0 (λ m. IfOk result (λ len. len
            ≡ length (held_of m.disk.areas area))) }
    {
        let outcome = self.clouds[cloud.0 as usize].len(&self.fails, cloud, area);
        self.count(outcome)
    }

    fn read(&mut self, cloud: CloudNo, area: Area, at: u64, out: &mut [u8]) -> Result<usize, Failed>
        ensures bound { IfOk result (λ count. count ≤ length out.new) }
        ensures bytes { IsTrue (clouds_of self.old.clouds.items cloud.0).told
            → IfOk result
            (λ count. ReadsFrom ((clouds_of self.old.clouds.items cloud.0).now area).read at count out.new) }
        ensures stays { Stays (clouds_of self.old.clouds.items cloud.0) (clouds_of self.new.clouds.items cloud.0) }
        ensures call { IsCall (clouds_of self.old.clouds.items)
            (clouds_of self.new.clouds.items) cloud.0 self.old.total self.new.total }
        ensures failed { OnErr result (HasFailed (clouds_of self.old.clouds.items cloud.0)
            (clouds_of self.new.clouds.items cloud.0) self.old.total self.new.total) }
        ensures uncounted { OnOk result (KeepsCounts (clouds_of self.old.clouds.items cloud.0)
            (clouds_of self.new.clouds.items cloud.0) self.old.total self.new.total) }

        ensures fails { At self.old.clouds.items cloud.0
            (λ m. IsErr result ↔ IsCallRefused self.old.fails.items cloud.0 m) }
        ensures counts { AtBoth self.old.clouds.items self.new.clouds.items cloud.0 (λ m m'. (m'.calls
            ≡ counted_up m.calls) × (m'.faults ≡ (if is_ok result then m.faults else counted_up m.faults))) }
        ensures reads { AtBoth self.old.clouds.items self.new.clouds.items cloud.0 (λ m m'.
            number_of m'.reads area ≡ counted_up (number_of m.reads area)) }
        ensures other_reads { AtBoth self.old.clouds.items self.new.clouds.items cloud.0 (λ m m'.
            (other : Area) → other ≢ area → number_of m'.reads other ≡ number_of m.reads other) }
        ensures total { self.new.total ≡ (if is_ok result then self.old.total else counted_up self.old.total) }
        ensures fails_stay { self.new.fails ≡ self.old.fails }
        ensures others_stay { (other : ℕ) → other ≢ cloud.0
            → slice_get self.new.clouds.items other ≡ slice_get self.old.clouds.items other }
        ensures held { At self.old.clouds.items cloud.0
            (λ m. IfOk result (λ count. ReadsFrom (held_of m.disk.areas area) at count out.new)) }
    {
        let outcome = self.clouds[cloud.0 as usize].read(&self.fails, cloud, area, at, out);
        self.count(outcome)
    }

    fn write(&mut self, cloud: CloudNo, area: Area, at: u64, bytes: &[u8]) -> Result<(), Failed>
        ensures write { IsTrue (clouds_of self.old.clouds.items cloud.0).told
            → Writes (clouds_of self.old.clouds.items cloud.0)
            (clouds_of self.new.clouds.items cloud.0) area at bytes.now result }
        ensures call { IsCall (clouds_of self.old.clouds.items)
            (clouds_of self.new.clouds.items) cloud.0 self.old.total self.new.total }
        ensures failed { OnErr result (HasFailed (clouds_of self.old.clouds.items cloud.0)
            (clouds_of self.new.clouds.items cloud.0) self.old.total self.new.total) }
        ensures uncounted { OnOk result (KeepsCounts (clouds_of self.old.clouds.items cloud.0)
            (clouds_of self.new.clouds.items cloud.0) self.old.total self.new.total) }

        ensures fails { At self.old.clouds.items cloud.0
            (λ m. IsErr result ↔ WriteFails self.old.fails.items self.old.left cloud.0 m area at (length bytes.now)) }
        ensures counts { AtBoth self.old.clouds.items self.new.clouds.items cloud.0 (λ m m'. (m'.calls
            ≡ counted_up m.calls) × (m'.faults ≡ (if is_ok result then m.faults else counted_up m.faults))) }
        ensures reads { AtBoth self.old.clouds.items self.new.clouds.items cloud.0 (λ m m'. m'.reads ≡ m.reads) }
        ensures total { self.new.total ≡ (if is_ok result then self.old.total else counted_up self.old.total) }
        ensures fails_stay { self.new.fails ≡ self.old.fails }
        ensures others_stay { (other : ℕ) → other ≢ cloud.0
            → slice_get self.new.clouds.items other ≡ slice_get self.old.clouds.items other }
        ensures ok { OnOk result (AtBoth self.old.clouds.items self.new.clouds.items cloud.0
            (λ m m'. Puts m.disk m'.disk area at bytes.now × (self.new.left + 1 ≡ self.old.left))) }
        ensures err { OnErr result (AtBoth self.old.clouds.items self.new.clouds.items cloud.0
            (λ m m'. KeepsPart self.old.fails.items self.old.left self.new.left cloud.0 m m' area at bytes.now)) }
    {
        let outcome = self.clouds[cloud.0 as usize].write(
            &self.fails,
            cloud,
            &mut self.left,
            area,
            at,
            bytes,
        );
        self.count(outcome)
    }

    fn sync(&mut self, cloud: CloudNo, area: Area) -> Result<(), Failed>
        ensures sync { IsTrue (clouds_of self.old.clouds.items cloud.0).told
            → Syncs (clouds_of self.old.clouds.items cloud.0) (clouds_of self.new.clouds.items cloud.0) area result }
        ensures call { IsCall (clouds_of self.old.clouds.items)
            (clouds_of self.new.clouds.items) cloud.0 self.old.total self.new.total }
        ensures failed { OnErr result (HasFailed (clouds_of self.old.clouds.items cloud.0)
            (clouds_of self.new.clouds.items cloud.0) self.old.total self.new.total) }
        ensures uncounted { OnOk result (KeepsCounts (clouds_of self.old.clouds.items cloud.0)
            (clouds_of self.new.clouds.items cloud.0) self.old.total self.new.total) }

        ensures fails { At self.old.clouds.items cloud.0
            (λ m. IsErr result ↔ SyncFails self.old.fails.items self.old.left cloud.0 m) }
        ensures counts { AtBoth self.old.clouds.items self.new.clouds.items cloud.0 (λ m m'. (m'.calls
            ≡ counted_up m.calls) × (m'.faults ≡ (if is_ok result then m.faults else counted_up m.faults))) }
        ensures reads { AtBoth self.old.clouds.items self.new.clouds.items cloud.0 (λ m m'. m'.reads ≡ m.reads) }
        ensures total { self.new.total ≡ (if is_ok result then self.old.total else counted_up self.old.total) }
        ensures fails_stay { self.new.fails ≡ self.old.fails }
        ensures others_stay { (other : ℕ) → other ≢ cloud.0
            → slice_get self.new.clouds.items other ≡ slice_get self.old.clouds.items other }
        ensures areas { AtBoth self.old.clouds.items self.new.clouds.items cloud.0 (λ m m'. m'.disk.areas
            ≡ m.disk.areas) }
        ensures left { (if is_ok result then self.new.left + 1 else self.new.left) ≡ self.old.left }
    {
        let outcome = self.clouds[cloud.0 as usize].sync(&self.fails, cloud, &mut self.left, area);
        self.count(outcome)
    }

    fn fresh(&mut self, cloud: CloudNo) -> Result<(), Failed>
        ensures fresh { IsTrue (clouds_of self.old.clouds.items cloud.0).told
            → Refreshes (clouds_of self.old.clouds.items cloud.0) (clouds_of self.new.clouds.items cloud.0) result }
        ensures call { IsCall (clouds_of self.old.clouds.items)
            (clouds_of self.new.clouds.items) cloud.0 self.old.total self.new.total }
        ensures failed { OnErr result (HasFailed (clouds_of self.old.clouds.items cloud.0)
            (clouds_of self.new.clouds.items cloud.0) self.old.total self.new.total) }
        ensures uncounted { OnOk result (KeepsCounts (clouds_of self.old.clouds.items cloud.0)
            (clouds_of self.new.clouds.items cloud.0) self.old.total self.new.total) }

        ensures fails { At self.old.clouds.items cloud.0
            (λ m. IsErr result ↔ FreshFails self.old.fails.items self.old.left cloud.0 m) }
        ensures counts { AtBoth self.old.clouds.items self.new.clouds.items cloud.0 (λ m m'. (m'.calls
            ≡ counted_up m.calls) × (m'.faults ≡ (if is_ok result then m.faults else counted_up m.faults))) }
        ensures reads { AtBoth self.old.clouds.items self.new.clouds.items cloud.0 (λ m m'. m'.reads ≡ m.reads) }
        ensures total { self.new.total ≡ (if is_ok result then self.old.total else counted_up self.old.total) }
        ensures fails_stay { self.new.fails ≡ self.old.fails }
        ensures others_stay { (other : ℕ) → other ≢ cloud.0
            → slice_get self.new.clouds.items other ≡ slice_get self.old.clouds.items other }
        ensures held { OnOk result (AtBoth self.old.clouds.items self.new.clouds.items cloud.0 (λ m m'. (area : Area)
            → held_of m'.disk.areas area ≡ [])) }
        ensures left { (if is_ok result then self.new.left + 1 else self.new.left) ≡ self.old.left }
    {
        let outcome = self.clouds[cloud.0 as usize].fresh(&self.fails, cloud, &mut self.left);
        self.count(outcome)
    }

    fn arm(&mut self, cloud: CloudNo, calls: u32, keep: u32)
        ensures arms { Arms (clouds_of self.old.clouds.items cloud.0)
            (clouds_of self.new.clouds.items cloud.0) calls keep }
        ensures others { (other : ℕ) → other ≢ cloud.0 →
            clouds_of self.new.clouds.items other ≡ clouds_of self.old.clouds.items other }
        ensures total { self.new.total ≡ self.old.total }

        ensures reads { AtBoth self.old.clouds.items self.new.clouds.items cloud.0 (λ m m'. m'.reads ≡ m.reads) }
        ensures others_stay { (other : ℕ) → other ≢ cloud.0
            → slice_get self.new.clouds.items other ≡ slice_get self.old.clouds.items other }
    {
        self.clouds[cloud.0 as usize].arm(calls, keep);
    }
}
