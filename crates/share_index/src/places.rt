//! The placed shares.

ghost use Rattle.std.specs.Prelude.{◌≡◌, ◌<◌, ◌==◌, ◌↔◌, false, if◌then◌else◌, is_some, IfOk, IfSome, IsSome, IsTrue, None, length, option_map};
ghost use Rattle.std.specs.FinMap as map;
ghost use Rattle.pool_map.specs.Slots.{slot_of, IsListed, IsRewritten};
ghost use Rattle.share_index.specs.Emptied.{IsEmptied};
ghost use Rattle.share_index.specs.Placing.{zeros, with_fewer_owners};

use crate::key::Kept;
use cd_base::Fp;
use pool_map::{HashTable, Table};
use std::alloc::{AllocError, Global};
use std::marker::Model;

/// Each placed fingerprint, with its place and the number of its owners.
#[derive(Drop)]
pub(crate) struct PlaceTable {
    table: HashTable<[u8; 32], Kept>,
    ownerless: u32,
}

impl Model for PlaceTable {
    ghost use Rattle.share_index.specs.Placing.{Places};
    ghost use Rattle.share_index.specs.Coded.{places_code};

    ghost Value = { Places };

    ghost coded = { places_code };

    ghost use Rattle.share_index.specs.Placing.{places_in, IsPlacing};

    ghost view = { λ p. places_in p.table };

    ghost invariant = { λ p. IsPlacing p.table p.ownerless };
}

// 1 where nobody owns it.
fn unowned(kept: &Kept) -> u32
    ensures { result ≡ if kept.now.owners == 0 then 1 else 0 }
{
    if kept.owners == 0 { 1 } else { 0 }
}

impl PlaceTable {
    /// Nothing is placed, and at most so many fingerprints will be.
    pub(crate) fn make(alloc: Global, room: u32) -> Result<PlaceTable, AllocError>
        ensures kept { IfOk result (λ made. made.kept ≡ map.empty) }
        ensures room { IfOk result (λ made. made.room ≡ room) }
        ensures slots { IfOk result (λ made. length made.slots ≡ room) }
    {
        let table = HashTable::make(alloc, room, [room].as_slice())?;
        Ok(PlaceTable {
            table,
            ownerless: 0,
        })
    }

    /// What is kept of a fingerprint.
    pub(crate) fn get(&self, fp: &[u8; 32]) -> Option<Kept>
        ensures { result ≡ map.get self.now.kept fp.now }
    {
        self.table.get(fp).copied()
    }

    /// The slot of a fingerprint, if anything is kept of it.
    pub(crate) fn find(&self, fp: &[u8; 32]) -> Option<u32>
        ensures slot { IfSome result (λ slot. slot_of self.now.slots slot
            ≡ option_map (λ kept. (fp.now, kept)) (map.get self.now.kept fp.now)) }
        ensures present { is_some result ≡ is_some (map.get self.now.kept fp.now) }
    {
        self.table.slot_of(fp)
    }

    /// Whether no further fingerprint may be placed.
    pub(crate) fn is_full(&self) -> bool
        ensures full { IsTrue result ↔ (map.len self.now.kept ≡ self.now.room) }
        ensures open { result ≡ false → map.len self.now.kept < self.now.room }
    {
        self.table.spare(0) == 0
    }

    /// Adds a fingerprint.
    pub(crate) fn add(&mut self, fp: [u8; 32], kept: Kept)
        requires absent { map.get self.old.kept fp ≡ None }
        requires room { map.len self.old.kept < self.old.room }
        ensures kept { self.new.kept ≡ map.insert self.old.kept fp kept }
        ensures room { self.new.room ≡ self.old.room }
        ensures slots { length self.new.slots ≡ length self.old.slots }
    {
        match self.table.insert(0, fp, kept) {
            Ok(()) => self.ownerless += unowned(&kept),
            Err(_) => unreachable!(),
        }
    }

    /// Writes over what is kept of a fingerprint, which stays in its slot.
    pub(crate) fn set(&mut self, fp: &[u8; 32], kept: Kept)
        requires { IsSome (map.get self.old.kept fp.now) }
        ensures kept { self.new.kept ≡ map.insert self.old.kept fp.now kept }
        ensures rewritten { IsRewritten self.old.slots self.new.slots fp.now kept }
        ensures room { self.new.room ≡ self.old.room }
        ensures slots { length self.new.slots ≡ length self.old.slots }
    {
        let old = self.table.replace(fp, kept);
        self.ownerless = self.ownerless - unowned(&old) + unowned(&kept);
    }

    /// Counts an owner fewer of a fingerprint, which has some if it is placed. Answers whether it is placed.
    pub(crate) fn lower_owners(&mut self, fp: &[u8; 32]) -> bool
        requires { IfSome (map.get self.old.kept fp.now) (λ kept. 0 < kept.owners) }
        ensures placed { result ≡ is_some (map.get self.old.kept fp.now) }
        ensures kept { self.new.kept ≡ with_fewer_owners self.old.kept fp.now }
        ensures room { self.new.room ≡ self.old.room }
        ensures slots { length self.new.slots ≡ length self.old.slots }
    {
        match self.table.find(fp) {
            Some((slot, kept)) => {
                let fewer = Kept {
                    place: kept.place,
                    owners: kept.owners - 1,
                };
                let old = self.table.set_at(slot, fewer);
                self.ownerless = self.ownerless - unowned(&old) + unowned(&fewer);
                true
            }
            None => false,
        }
    }

    /// Takes a fingerprint out.
    pub(crate) fn remove(&mut self, fp: &[u8; 32])
        requires { IsSome (map.get self.old.kept fp.now) }
        ensures kept { self.new.kept ≡ map.remove self.old.kept fp.now }
        ensures emptied { IsEmptied self.old.slots self.new.slots fp.now }
        ensures room { self.new.room ≡ self.old.room }
        ensures slots { length self.new.slots ≡ length self.old.slots }
    {
        match self.table.remove(fp) {
            Some(old) => self.ownerless -= unowned(&old),
            None => unreachable!(),
        }
    }

    /// The number of placed fingerprints.
    pub(crate) fn len(&self) -> u32
        ensures { result ≡ map.len self.now.kept }
    {
        self.table.len()
    }

    /// The number of placed fingerprints that nobody owns.
    pub(crate) fn ownerless(&self) -> u32
        ensures { result ≡ zeros self.now.kept }
    {
        self.ownerless
    }

    /// The number of slots.
    pub(crate) fn slots(&self) -> u32
        ensures { result ≡ length self.now.slots }
    {
        self.table.slots()
    }

    /// What stands in a slot: nothing in one past the last.
    pub(crate) fn at(&self, slot: u32) -> Option<(Fp, Kept)>
        ensures kept { option_map (λ found. (found.0.0, found.1)) result ≡ slot_of self.now.slots slot }
        ensures each { IsListed self.now.kept self.now.slots }
    {
        match self.table.at(slot) {
            Some((fp, kept)) => Some((Fp(*fp), *kept)),
            None => None,
        }
    }

    /// Nothing is placed.
    pub(crate) fn clear(&mut self)
        ensures kept { self.new.kept ≡ map.empty }
        ensures room { self.new.room ≡ self.old.room }
        ensures slots { length self.new.slots ≡ length self.old.slots }
    {
        self.table.clear();
        self.ownerless = 0;
    }
}
