//! A rising list of clouds.

use crate::{CloudNo, NoMemory};
use std::alloc::Global;
use std::marker::Model;

/// Clouds, strictly rising. Contracts see the list of their numbers.
#[derive(Drop)]
pub struct Clouds {
    items: Vec<CloudNo>,
}

impl Model for Clouds {
    ghost use Rattle.std.specs.Prelude.{ℕ, List};
    ghost use Rattle.std.specs.List.Sorted.{IsStrictlyIncreasing};
    ghost use Rattle.cd_base.specs.Numbers.{numbers_of};

    ghost Value = { List ℕ };

    ghost view = { λ c. numbers_of c.items.items };

    ghost invariant = { λ c. IsStrictlyIncreasing (numbers_of c.items.items) };
}

impl Clouds {
    ghost use Rattle.std.specs.Prelude.{◌≡◌, ℕ, List, [], ◌∷◌, ◌++◌, length, slice_get, option_map, OnOk, OnErr, IsTrue, ◌↔◌};
    ghost use Rattle.std.specs.Option.{option_copied};
    ghost use Rattle.std.specs.List.Sorted.{IsStrictlyIncreasing};
    ghost use Rattle.cd_base.specs.Numbers.{numbers_of};

    /// No clouds. It takes no memory.
    pub fn new(alloc: Global) -> Clouds
        ensures { result ≡ [] }
    {
        Clouds {
            items: Vec::new(alloc),
        }
    }

    /// Whether the list still rises with this cloud behind it: it is empty, or its last cloud is less.
    pub fn can_push(&self, value: CloudNo) -> bool
        ensures { IsTrue result ↔ IsStrictlyIncreasing (self.now ++ value.0 ∷ []) }
    {
        match self.items.last() {
            None => true,
            Some(last) => last.0 < value.0,
        }
    }

    /// Appends a cloud above the last one; an empty list takes any. For want of memory nothing changes.
    pub fn push(&mut self, value: CloudNo) -> Result<(), NoMemory>
        requires { IsStrictlyIncreasing (self.old ++ value.0 ∷ []) }
        ensures ok { OnOk result (self.new ≡ self.old ++ value.0 ∷ []) }
        ensures err { OnErr result (self.new ≡ self.old) }
    {
        self.items.push(value)?;
        Ok(())
    }

    /// How many clouds there are.
    pub fn len(&self) -> usize
        ensures { result ≡ length self.now }
    {
        self.items.len()
    }

    /// The cloud at a place, counted from 0, or None past the end.
    pub fn get(&self, place: usize) -> Option<&CloudNo>
        ensures { option_map (λ cloud. cloud.0) (option_copied result) ≡ slice_get self.now place }
    {
        self.items.get(place)
    }

    /// The clouds.
    pub fn as_slice(&self) -> &[CloudNo]
        ensures { numbers_of result.now ≡ self.now }
    {
        self.items.as_slice()
    }

    /// Whether the clouds rise, as they always do. It is here for its contract.
    pub fn rises(&self)
        ensures { IsStrictlyIncreasing self.now }
    {
        let _items = &self.items;
    }

    /// Drops all clouds, and keeps the memory.
    pub fn clear(&mut self)
        ensures { self.new ≡ [] }
    {
        self.items.clear();
    }
}
