//! Which shares a checkpoint has listed.

ghost use Rattle.std.specs.Prelude.{◌≡◌, IfOk, false, true, length, replicate, slice_set, slice_index_or};
ghost use Rattle.checkpoints.specs.Marked.{slots_limit, AreAllUnmarked};

use cloud_disk::MOST_OWNERS;
use cloud_memory::NoMemory;
use std::alloc::Global;
use std::marker::Model;

/// As many slots as a memory may have for places.
pub(crate) const SLOTS: usize = MOST_OWNERS as usize;

/// A mark for each slot that a memory may have for places. Contracts see a list of `bool`s.
#[derive(Drop)]
pub struct Marks {
    marks: Vec<bool>,
}

impl Model for Marks {
    ghost use Rattle.std.specs.Prelude.{Bool, List};

    ghost Value = { List Bool };

    ghost use Rattle.std.specs.Prelude.{◌≡◌, length};
    ghost use Rattle.checkpoints.specs.Marked.{slots_limit};

    ghost view = { λ m. m.marks.items };

    ghost invariant = { λ m. length m.marks.items ≡ slots_limit };
}

// No slot is marked.
fn wipe(marks: &mut [bool])
    ensures { marks.new ≡ replicate (length marks.old) false }
{
    marks.fill(false);
}

// So many slots, of which none is marked.
fn unmarked(alloc: Global, slots: usize) -> Result<Vec<bool>, NoMemory>
    ensures { IfOk result (λ marks. marks.items ≡ replicate slots false) }
{
    let marks = vec![in alloc; false; slots]?;
    Ok(marks)
}

impl Marks {
    /// No slot is marked. It takes all its memory here: a byte for each slot.
    pub fn make(alloc: Global) -> Result<Marks, NoMemory>
        ensures { IfOk result AreAllUnmarked }
    {
        let marks = unmarked(alloc, SLOTS)?;
        Ok(Marks { marks })
    }

    // Takes all marks away.
    fn wipe_all(&mut self)
        ensures wiped { self.new ≡ replicate (length self.old) false }
        ensures long { length self.old ≡ slots_limit }
    {
        wipe(&mut self.marks);
    }

    /// Takes all marks away.
    pub fn clear(&mut self)
        ensures { AreAllUnmarked self.new }
    {
        self.wipe_all();
    }

    // Whether a slot is marked. One past the last isn't.
    pub(crate) fn has(&self, slot: u32) -> bool
        ensures { result ≡ slice_index_or self.now slot false }
    {
        let place = slot as usize;
        if place < self.marks.len() {
            self.marks[place]
        } else {
            false
        }
    }

    /// Marks a slot, and answers whether it was marked. A slot past the last isn't, and stays so.
    pub fn mark(&mut self, slot: u32) -> bool
        ensures was { result ≡ slice_index_or self.old slot false }
        ensures marked { self.new ≡ slice_set self.old slot true }
    {
        let place = slot as usize;
        if place < self.marks.len() {
            let was = self.marks[place];
            self.marks[place] = true;
            was
        } else {
            false
        }
    }
}
