//! A list of fingerprints.

ghost use Rattle.std.specs.Prelude.{◌≡◌, List, [], ◌∷◌, ◌++◌, length, slice_get, take, OnOk, OnErr, IsTrue, ◌↔◌};
ghost use Rattle.std.specs.Option.{option_copied};

use crate::{Fp, NoMemory};
use std::alloc::Global;
use std::marker::Model;

/// Fingerprints, in order. The list keeps its allocator.
#[derive(Drop)]
pub struct Fps {
    items: Vec<Fp>,
}

impl Model for Fps {
    ghost use Rattle.std.specs.Prelude.{List};
    ghost use Rattle.cd_base.specs.declared.ids.Fp.{Fp};

    ghost Value = { List Fp };

    ghost view = { λ e. e.items.items };
}

impl Fps {
    /// No fingerprints. It takes no memory.
    pub fn new(alloc: Global) -> Fps
        ensures { result ≡ [] }
    {
        Fps {
            items: Vec::new(alloc),
        }
    }

    /// Appends a fingerprint. For want of memory nothing changes.
    pub fn push(&mut self, value: Fp) -> Result<(), NoMemory>
        ensures ok { OnOk result (self.new ≡ self.old ++ value ∷ []) }
        ensures err { OnErr result (self.new ≡ self.old) }
    {
        self.items.push(value)?;
        Ok(())
    }

    /// Appends fingerprints. For want of memory nothing changes.
    pub fn extend(&mut self, values: &[Fp]) -> Result<(), NoMemory>
        ensures ok { OnOk result (self.new ≡ self.old ++ values.now) }
        ensures err { OnErr result (self.new ≡ self.old) }
    {
        self.items.extend_from_slice(values)?;
        Ok(())
    }

    /// How many fingerprints there are.
    pub fn len(&self) -> usize
        ensures { result ≡ length self.now }
    {
        self.items.len()
    }

    /// Whether there is no fingerprint.
    pub fn is_empty(&self) -> bool
        ensures { IsTrue result ↔ (self.now ≡ []) }
    {
        self.items.is_empty()
    }

    /// The fingerprint at a place, counted from 0, or None past the end.
    pub fn get(&self, place: usize) -> Option<&Fp>
        ensures { option_copied result ≡ slice_get self.now place }
    {
        self.items.get(place)
    }

    /// The fingerprints.
    pub fn as_slice(&self) -> &[Fp]
        ensures { result.now ≡ self.now }
    {
        self.items.as_slice()
    }

    /// Drops the fingerprints from place `len` on, if there are any, and keeps the memory.
    pub fn truncate(&mut self, len: usize)
        ensures { self.new ≡ take len self.old }
    {
        self.items.truncate(len);
    }

    /// Drops all fingerprints, and keeps the memory.
    pub fn clear(&mut self)
        ensures { self.new ≡ [] }
    {
        self.items.clear();
    }
}
