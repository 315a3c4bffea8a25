//! The areas of a cloud, and the notes that lead to them.

ghost use Rattle.std.specs.Prelude.{◌≡◌, ◌≢◌, ℕ, ◌+◌, ◌≤◌, ◌<◌, List, [], ◌∷◌, ◌++◌, length, IfOk, IsTrue, vec_len, vec_capacity};
ghost use Rattle.cd_edges.specs.declared.area.Area.{Area};
ghost use Rattle.cd_edges.specs.Disk.{overwritten};
ghost use Rattle.mem_disk.specs.Areas.{FitsArea, area_of, held_of, log_of};
ghost use Rattle.mem_disk.specs.History.{history, all_lie, now_of, nothing, Write, Sync, Empty, Crash};
ghost use Rattle.mem_disk.specs.Numbers.{number_of};
ghost use Rattle.mem_disk.specs.Tracks.{IsTracked};

use crate::{MemAreas, Note, PerArea};
use cd_edges::{Area, NoMemory};
use std::alloc::Global;

/// A cloud's areas, with a note of each write, sync, fresh and crash. The areas at earlier moments are found from the
/// notes.
#[derive(Drop)]
pub struct MemDisk {
    /// Whether the disk is one that is there, and tells what it holds.
    pub told: bool,
    pub areas: MemAreas,
    pub notes: Vec<Note>,
    /// How long each area was at its last sync.
    pub synced: PerArea,
    pub ghost lie: { IsTrue (all_lie (log_of areas) notes.items) },
    pub ghost tracks: { IsTrue told → (area : Area) →
        IsTracked (area_of areas area) (number_of synced area)
        (now_of nothing (history (log_of areas) notes.items) area) },
}

// Adds a note where there is memory for it.
fn add_note(notes: &mut Vec<Note>, note: Note)
    requires { vec_len notes.old < vec_capacity notes.old }
    ensures items { notes.new.items ≡ notes.old.items ++ note ∷ [] }
    ensures len { vec_len notes.new ≡ vec_len notes.old + 1 }
    ensures memory { vec_capacity notes.old ≤ vec_capacity notes.new }
{
    let _ = notes.push(note);
}

impl MemDisk {
    ghost use Rattle.mem_disk.specs.Disks.{history_of};

    /// Empty areas of this room each, and memory for so many notes.
    pub fn of(alloc: Global, told: bool, room: u64, notes: u32) -> Result<MemDisk, NoMemory>
        ensures told { IfOk result (λ disk. disk.told ≡ told) }
        ensures room { IfOk result (λ disk. (area : Area) → (area_of disk.areas area).room ≡ room) }
        ensures held { IfOk result (λ disk. (area : Area) → held_of disk.areas area ≡ []) }
        ensures log { IfOk result (λ disk. (area : Area) → log_of disk.areas area ≡ []) }
        ensures notes { IfOk result (λ disk. disk.notes.items ≡ []) }
        ensures memory { IfOk result (λ disk. notes ≤ vec_capacity disk.notes) }
    {
        Ok(MemDisk {
            told,
            areas: MemAreas::of(alloc, room)?,
            notes: Vec::with_capacity(alloc, notes as usize)?,
            synced: PerArea::ZEROS,
        })
    }

    /// Writes, and notes it.
    pub fn write(&mut self, area: Area, at: u64, bytes: &[u8])
        requires fits { FitsArea (area_of self.old.areas area) at (length bytes.now) }
        requires note { vec_len self.old.notes < vec_capacity self.old.notes }
        ensures history { history_of self.new ≡ history_of self.old ++ Write area at bytes.now ∷ [] }
        ensures told { self.new.told ≡ self.old.told }
        ensures room { (area_of self.new.areas area).room ≡ (area_of self.old.areas area).room }
        ensures held { held_of self.new.areas area ≡ overwritten (held_of self.old.areas area) at bytes.now }
        ensures log { log_of self.new.areas area ≡ log_of self.old.areas area ++ bytes.now }
        ensures others { (other : Area) → other ≢ area → area_of self.new.areas other ≡ area_of self.old.areas other }
        ensures notes { vec_len self.new.notes ≡ vec_len self.old.notes + 1 }
        ensures memory { vec_capacity self.old.notes ≤ vec_capacity self.new.notes }
    {
        let start = self.areas.get(area).log.len();
        let len = bytes.len();
        self.areas.put(area, at, bytes);
        add_note(
            &mut self.notes,
            Note::Wrote {
                area,
                at,
                start,
                len,
            },
        );
    }

    /// Notes that the area was synced.
    pub fn sync(&mut self, area: Area)
        requires { vec_len self.old.notes < vec_capacity self.old.notes }
        ensures history { history_of self.new ≡ history_of self.old ++ Sync area ∷ [] }
        ensures told { self.new.told ≡ self.old.told }
        ensures areas { self.new.areas ≡ self.old.areas }
        ensures notes { vec_len self.new.notes ≡ vec_len self.old.notes + 1 }
        ensures memory { vec_capacity self.old.notes ≤ vec_capacity self.new.notes }
    {
        self.synced.set(area, self.areas.get(area).len());
        add_note(&mut self.notes, Note::Synced { area });
    }

    /// Makes the areas empty, and notes it.
    pub fn empty(&mut self)
        requires { vec_len self.old.notes < vec_capacity self.old.notes }
        ensures history { history_of self.new ≡ history_of self.old ++ Empty ∷ [] }
        ensures told { self.new.told ≡ self.old.told }
        ensures room { (area : Area) → (area_of self.new.areas area).room ≡ (area_of self.old.areas area).room }
        ensures held { (area : Area) → held_of self.new.areas area ≡ [] }
        ensures log { (area : Area) → log_of self.new.areas area ≡ log_of self.old.areas area }
        ensures notes { vec_len self.new.notes ≡ vec_len self.old.notes + 1 }
        ensures memory { vec_capacity self.old.notes ≤ vec_capacity self.new.notes }
    {
        self.areas.empty();
        self.synced = PerArea::ZEROS;
        add_note(&mut self.notes, Note::Emptied);
    }

    /// Leaves the areas as a crash leaves them, and notes it.
    pub fn crash(&mut self, fill: u8, whole: bool)
        requires told { IsTrue self.old.told }
        requires note { vec_len self.old.notes < vec_capacity self.old.notes }
        ensures history { history_of self.new ≡ history_of self.old ++ Crash fill whole ∷ [] }
        ensures told { self.new.told ≡ self.old.told }
        ensures room { (area : Area) → (area_of self.new.areas area).room ≡ (area_of self.old.areas area).room }
        ensures log { (area : Area) → log_of self.new.areas area ≡ log_of self.old.areas area }
        ensures notes { vec_len self.new.notes ≡ vec_len self.old.notes + 1 }
        ensures memory { vec_capacity self.old.notes ≤ vec_capacity self.new.notes }
    {
        self.areas.crash(&self.notes, self.synced, fill, whole);
        self.synced = self.areas.lens();
        add_note(&mut self.notes, Note::Crashed { fill, whole });
    }
}
