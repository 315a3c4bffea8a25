//! The three areas of a cloud in memory.

ghost use Rattle.std.specs.Prelude.{◌≡◌, ◌≢◌, ◌⊎◌, ℕ, ◌+◌, ◌≤◌, ◌<◌, [], ◌++◌, IsTrue, IfOk, vec_len, length, take, cond, slice_set};
ghost use Rattle.cd_edges.specs.declared.area.Area.{Area};
ghost use Rattle.cd_edges.specs.Disk.{overwritten};
ghost use Rattle.mem_disk.specs.Crashed.{is_in};
ghost use Rattle.mem_disk.specs.Places.{second_of};
ghost use Rattle.cd_edges.specs.declared.area.Area.TheVariants.{Journal, Shares, Recipes};

use crate::{MemArea, Note, PerArea};
use cd_edges::{Area, NoMemory};
use std::alloc::Global;

// Where the journal's second half begins, and the second region of an area of blobs.
const SECOND_HALF: u64 = 134_217_728;

const SECOND_REGION: u64 = 34_359_738_368;

/// The three areas.
#[derive(Drop)]
pub struct MemAreas {
    pub journal: MemArea,
    pub shares: MemArea,
    pub recipes: MemArea,
    pub ghost journal_second: { journal.second ≡ second_of Journal },
    pub ghost shares_second: { shares.second ≡ second_of Shares },
    pub ghost recipes_second: { recipes.second ≡ second_of Recipes },
}

impl MemAreas {
    ghost use Rattle.mem_disk.specs.Areas.{FitsArea, EndsIn, LiesInRanges, area_of, held_of, log_of};
    ghost use Rattle.mem_disk.specs.Numbers.{number_of};
    ghost use Rattle.mem_disk.specs.Crashed.{ranges_in, left_by};

    /// Three empty areas whose ranges have this room each.
    pub fn of(alloc: Global, room: u64) -> Result<MemAreas, NoMemory>
        ensures room { IfOk result (λ areas. (area : Area) → (area_of areas area).room ≡ room) }
        ensures held { IfOk result (λ areas. (area : Area) → held_of areas area ≡ []) }
        ensures log { IfOk result (λ areas. (area : Area) → log_of areas area ≡ []) }
    {
        Ok(MemAreas {
            journal: MemArea::of(alloc, room, SECOND_HALF)?,
            shares: MemArea::of(alloc, room, SECOND_REGION)?,
            recipes: MemArea::of(alloc, room, SECOND_REGION)?,
        })
    }

    /// One of them.
    pub fn get(&self, area: Area) -> &MemArea
        ensures { result.now ≡ area_of self.now area }
    {
        match area {
            Area::Journal => &self.journal,
            Area::Shares => &self.shares,
            Area::Recipes => &self.recipes,
        }
    }

    /// How many bytes each has.
    pub fn lens(&self) -> PerArea
        ensures { (area : Area) → number_of result area ≡ length (held_of self.now area) }
    {
        PerArea {
            journal: self.journal.len(),
            shares: self.shares.len(),
            recipes: self.recipes.len(),
        }
    }

    /// Puts the bytes at the place of one area, with zeros in a gap before it. The others stay.
    pub fn put(&mut self, area: Area, at: u64, bytes: &[u8])
        requires { FitsArea (area_of self.old area) at (length bytes.now) }
        ensures room { (area_of self.new area).room ≡ (area_of self.old area).room }
        ensures held { held_of self.new area ≡ overwritten (held_of self.old area) at bytes.now }
        ensures log { log_of self.new area ≡ log_of self.old area ++ bytes.now }
        ensures second { (area_of self.new area).second ≡ (area_of self.old area).second }
        ensures grows { vec_len (area_of self.old area).bytes ≤ vec_len (area_of self.new area).bytes }
        ensures covers { (at + length bytes.now ≤ vec_len (area_of self.new area).bytes)
            ⊎ ((area_of self.old area).second ≤ at) }
        ensures others { (other : Area) → other ≢ area → area_of self.new other ≡ area_of self.old other }
    {
        match area {
            Area::Journal => self.journal.put(at, bytes),
            Area::Shares => self.shares.put(at, bytes),
            Area::Recipes => self.recipes.put(at, bytes),
        }
    }

    /// Makes all three empty. The logs stay.
    pub fn empty(&mut self)
        ensures room { (area : Area) → (area_of self.new area).room ≡ (area_of self.old area).room }
        ensures held { (area : Area) → held_of self.new area ≡ [] }
        ensures log { (area : Area) → log_of self.new area ≡ log_of self.old area }
    {
        self.journal.empty();
        self.shares.empty();
        self.recipes.empty();
    }

    /// Leaves each as a crash leaves it, by the notes and the synced lengths. The logs stay.
    pub fn crash(&mut self, notes: &[Note], synced: PerArea, fill: u8, whole: bool)
        requires cut { (area : Area) → EndsIn (area_of self.old area) (number_of synced area) }
        requires covered { (area : Area) (k : ℕ) → IsTrue (is_in (ranges_in area [] notes.now) k)
            → LiesInRanges (area_of self.old area) k }
        ensures room { (area : Area) → (area_of self.new area).room ≡ (area_of self.old area).room }
        ensures log { (area : Area) → log_of self.new area ≡ log_of self.old area }
        ensures held { (area : Area) → held_of self.new area
            ≡ left_by fill whole (ranges_in area [] notes.now) (number_of synced area) (held_of self.old area) }
    {
        self.journal
            .crash(Area::Journal, notes, synced.journal, fill, whole);
        self.shares
            .crash(Area::Shares, notes, synced.shares, fill, whole);
        self.recipes
            .crash(Area::Recipes, notes, synced.recipes, fill, whole);
    }
}
