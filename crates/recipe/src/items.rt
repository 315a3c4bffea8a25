//! The items of a recipe.

ghost use Rattle.std.specs.Prelude.{◌≡◌, List, [], ◌∷◌, ◌++◌, length, slice_get, OnOk, OnErr, IfOk, IsTrue, ◌↔◌};
ghost use Rattle.std.specs.Option.{option_copied};

use grammar::{Fp, NoMemory};
use std::alloc::Global;
use std::marker::Model;

/// One secret of a file.
#[derive(Clone, Copy)]
pub struct Item {
    /// The fingerprint of its share at the recipe's cloud.
    pub fp: Fp,
    /// Its length in bytes.
    pub secret_len: u32,
}

/// The secrets of a file, in order. The list keeps its allocator.
#[derive(Drop)]
pub struct Items {
    items: Vec<Item>,
}

impl Model for Items {
    ghost use Rattle.std.specs.Prelude.{List};
    ghost use Rattle.recipe.specs.declared.items.Item.{Item};

    ghost Value = { List Item };

    ghost view = { λ e. e.items.items };
}

impl Items {
    /// No items. It takes no memory.
    pub fn new(alloc: Global) -> Items
        ensures { result ≡ [] }
    {
        Items {
            items: Vec::new(alloc),
        }
    }

    /// No items, and memory for so many of them, so that as many are appended with no growth.
    pub fn with_capacity(alloc: Global, capacity: usize) -> Result<Items, NoMemory>
        ensures { IfOk result (λ items. items ≡ []) }
    {
        Ok(Items {
            items: Vec::with_capacity(alloc, capacity)?,
        })
    }

    /// Appends an item. For want of memory nothing changes.
    pub fn push(&mut self, value: Item) -> Result<(), NoMemory>
        ensures ok { OnOk result (self.new ≡ self.old ++ value ∷ []) }
        ensures err { OnErr result (self.new ≡ self.old) }
    {
        self.items.push(value)?;
        Ok(())
    }

    /// Appends items. For want of memory nothing changes.
    pub fn extend(&mut self, values: &[Item]) -> Result<(), NoMemory>
        ensures ok { OnOk result (self.new ≡ self.old ++ values.now) }
        ensures err { OnErr result (self.new ≡ self.old) }
    {
        self.items.extend_from_slice(values)?;
        Ok(())
    }

    /// How many items there are.
    pub fn len(&self) -> usize
        ensures { result ≡ length self.now }
    {
        self.items.len()
    }

    /// Whether there is no item.
    pub fn is_empty(&self) -> bool
        ensures { IsTrue result ↔ (self.now ≡ []) }
    {
        self.items.is_empty()
    }

    /// The item at a place, counted from 0, or None past the end.
    pub fn get(&self, place: usize) -> Option<&Item>
        ensures { option_copied result ≡ slice_get self.now place }
    {
        self.items.get(place)
    }

    /// The items.
    pub fn as_slice(&self) -> &[Item]
        ensures { result.now ≡ self.now }
    {
        self.items.as_slice()
    }

    /// Drops all items, and keeps the memory.
    pub fn clear(&mut self)
        ensures { self.new ≡ [] }
    {
        self.items.clear();
    }
}
