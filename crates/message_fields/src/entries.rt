//! A list of the keys of files.

ghost use Rattle.std.specs.Prelude.{◌≡◌, List, [], ◌∷◌, ◌++◌, length, slice_get, OnOk, OnErr, IsTrue, ◌↔◌};
ghost use Rattle.std.specs.Option.{option_copied};

use grammar::{NoMemory, Tag, Version};
use std::alloc::Global;
use std::marker::Model;

/// Tags and versions of files, in order. The list keeps its allocator.
#[derive(Drop)]
pub struct Entries {
    items: Vec<(Tag, Version)>,
}

impl Model for Entries {
    ghost use Rattle.std.specs.Prelude.{List};
    ghost use Rattle.grammar.specs.CdBase.ids.Tag.{Tag};
    ghost use Rattle.grammar.specs.CdBase.ids.Version.{Version};

    ghost Value = { List (Tag × Version) };

    ghost view = { λ e. e.items.items };
}

impl Entries {
    /// No entries. It takes no memory.
    pub fn new(alloc: Global) -> Entries
        ensures { result ≡ [] }
    {
        Entries {
            items: Vec::new(alloc),
        }
    }

    /// Appends an entry. For want of memory nothing changes.
    pub fn push(&mut self, value: (Tag, Version)) -> Result<(), NoMemory>
        ensures ok { OnOk result (self.new ≡ self.old ++ value ∷ []) }
        ensures err { OnErr result (self.new ≡ self.old) }
    {
        self.items.push(value)?;
        Ok(())
    }

    /// How many entries there are.
    pub fn len(&self) -> usize
        ensures { result ≡ length self.now }
    {
        self.items.len()
    }

    /// Whether there is no entry.
    pub fn is_empty(&self) -> bool
        ensures { IsTrue result ↔ (self.now ≡ []) }
    {
        self.items.is_empty()
    }

    /// The entry at a place, counted from 0, or None past the end.
    pub fn get(&self, place: usize) -> Option<&(Tag, Version)>
        ensures { option_copied result ≡ slice_get self.now place }
    {
        self.items.get(place)
    }

    /// The entries.
    pub fn as_slice(&self) -> &[(Tag, Version)]
        ensures { result.now ≡ self.now }
    {
        self.items.as_slice()
    }

    /// Drops all entries, and keeps the memory.
    pub fn clear(&mut self)
        ensures { self.new ≡ [] }
    {
        self.items.clear();
    }
}
