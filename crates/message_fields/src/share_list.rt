//! A list of shares.

ghost use Rattle.std.specs.Prelude.{◌≡◌, List, [], ◌∷◌, ◌++◌, length, slice_get, OnOk, OnErr, IsTrue, ◌↔◌};
ghost use Rattle.std.specs.Option.{option_copied};

use grammar::{Bytes, NoMemory};
use std::alloc::Global;
use std::marker::Model;

/// Shares, in order. The list keeps its allocator.
#[derive(Drop)]
pub struct ShareList {
    items: Vec<Bytes>,
}

impl Model for ShareList {
    ghost use Rattle.std.specs.Prelude.{ℕ, List};

    ghost Value = { List (List ℕ) };

    ghost view = { λ e. e.items.items };
}

impl ShareList {
    /// No shares. It takes no memory.
    pub fn new(alloc: Global) -> ShareList
        ensures { result ≡ [] }
    {
        ShareList {
            items: Vec::new(alloc),
        }
    }

    /// Appends a share. For want of memory nothing changes, and the share is dropped.
    pub fn push(&mut self, value: Bytes) -> Result<(), NoMemory>
        ensures ok { OnOk result (self.new ≡ self.old ++ value ∷ []) }
        ensures err { OnErr result (self.new ≡ self.old) }
    {
        self.items.push(value)?;
        Ok(())
    }

    /// How many shares there are.
    pub fn len(&self) -> usize
        ensures { result ≡ length self.now }
    {
        self.items.len()
    }

    /// Whether there is no share.
    pub fn is_empty(&self) -> bool
        ensures { IsTrue result ↔ (self.now ≡ []) }
    {
        self.items.is_empty()
    }

    /// The share at a place, counted from 0, or None past the end.
    pub fn get(&self, place: usize) -> Option<&Bytes>
        ensures { option_copied result ≡ slice_get self.now place }
    {
        self.items.get(place)
    }

    /// The shares.
    pub fn as_slice(&self) -> &[Bytes]
        ensures { result.now ≡ self.now }
    {
        self.items.as_slice()
    }

    /// Drops all shares, and keeps the memory.
    pub fn clear(&mut self)
        ensures { self.new ≡ [] }
    {
        self.items.clear();
    }
}
