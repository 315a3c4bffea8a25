//! A list of places.

ghost use Rattle.std.specs.Prelude.{◌≡◌, ℕ, List, [], ◌∷◌, ◌++◌, length, slice_get, take, OnOk, OnErr, IsTrue, ◌↔◌};
ghost use Rattle.std.specs.Option.{option_copied};

use crate::NoMemory;
use std::alloc::Global;
use std::marker::Model;

/// Places in a file, counted from 0: the ends of its secrets. The list keeps its allocator.
#[derive(Drop)]
pub struct Ends {
    items: Vec<u64>,
}

impl Model for Ends {
    ghost Value = { List ℕ };

    ghost view = { λ e. e.items.items };
}

impl Ends {
    /// No places. It takes no memory.
    pub fn new(alloc: Global) -> Ends
        ensures { result ≡ [] }
    {
        Ends {
            items: Vec::new(alloc),
        }
    }

    /// Appends a place. For want of memory nothing changes.
    pub fn push(&mut self, value: u64) -> Result<(), NoMemory>
        ensures ok { OnOk result (self.new ≡ self.old ++ value ∷ []) }
        ensures err { OnErr result (self.new ≡ self.old) }
    {
        self.items.push(value)?;
        Ok(())
    }

    /// Appends places. For want of memory nothing changes.
    pub fn extend(&mut self, values: &[u64]) -> Result<(), NoMemory>
        ensures ok { OnOk result (self.new ≡ self.old ++ values.now) }
        ensures err { OnErr result (self.new ≡ self.old) }
    {
        self.items.extend_from_slice(values)?;
        Ok(())
    }

    /// How many places there are.
    pub fn len(&self) -> usize
        ensures { result ≡ length self.now }
    {
        self.items.len()
    }

    /// Whether there is no place.
    pub fn is_empty(&self) -> bool
        ensures { IsTrue result ↔ (self.now ≡ []) }
    {
        self.items.is_empty()
    }

    /// The end at an index, counted from 0, or None past the end.
    pub fn get(&self, place: usize) -> Option<&u64>
        ensures { option_copied result ≡ slice_get self.now place }
    {
        self.items.get(place)
    }

    /// The places.
    pub fn as_slice(&self) -> &[u64]
        ensures { result.now ≡ self.now }
    {
        self.items.as_slice()
    }

    /// Drops all places from an index on, and keeps the memory. Where there are no more places than that, nothing changes.
    pub fn truncate(&mut self, len: usize)
        ensures { self.new ≡ take len self.old }
    {
        self.items.truncate(len);
    }

    /// Drops all places, and keeps the memory.
    pub fn clear(&mut self)
        ensures { self.new ≡ [] }
    {
        self.items.clear();
    }
}
