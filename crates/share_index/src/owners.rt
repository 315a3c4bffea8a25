//! The owners of fingerprints.

ghost use Rattle.std.specs.Prelude.{◌≡◌, ◌==◌, ◌<◌, ◌^◌, ◌↔◌, IfOk, IfErr, OnOk, OnErr, IsErr, IsSome, None, length, option_map};
ghost use Rattle.std.specs.FinMap as map;
ghost use Rattle.pool_map.specs.declared.accounts.IndexErr.TheVariants.{Full};
ghost use Rattle.pool_map.specs.Accounts.{limit_for, slots_of, use_for, keys_of};
ghost use Rattle.pool_map.specs.Slots.{slot_of, IsListed};
ghost use Rattle.share_index.specs.Shares.{batches_of, owners_of, uses_at, released};
ghost use Rattle.share_index.specs.Owning.{used_of, shows_fp};

use crate::counts::UserCounts;
use crate::key::Owner;
use pool_map::{Accounts, HashTable, IndexErr, Table, TableFull};
use std::alloc::{AllocError, Global};
use std::marker::Model;

/// Each fingerprint that a user owns, with its uses.
#[derive(Drop)]
pub(crate) struct OwnerTable {
    table: HashTable<Owner, u32>,
    counts: UserCounts,
    accounts: Accounts,
}

impl Model for OwnerTable {
    ghost use Rattle.share_index.specs.Owning.{Owners};
    ghost use Rattle.share_index.specs.Coded.{owners_code};

    ghost Value = { Owners };

    ghost coded = { owners_code };

    ghost use Rattle.share_index.specs.Owning.{owners_in, IsOwning};

    ghost view = { λ o. owners_in o.table o.accounts };

    ghost invariant = { λ o. IsOwning o.table o.counts o.accounts };
}

impl OwnerTable {
    /// Nobody owns anything.
    pub(crate) fn make(alloc: Global, accounts: Accounts) -> Result<OwnerTable, AllocError>
        requires { slots_of accounts < 2 ^ 32 }
        ensures owners { IfOk result (λ made. made.owners ≡ map.empty) }
        ensures accounts { IfOk result (λ made. made.accounts ≡ accounts) }
        ensures slots { IfOk result (λ made. length made.slots ≡ slots_of accounts) }
    {
        let limits = accounts.limits(alloc)?;
        let table = HashTable::make(alloc, accounts.slots(), &limits)?;
        let counts = UserCounts::make(alloc, accounts.slots())?;
        Ok(OwnerTable {
            table,
            counts,
            accounts,
        })
    }

    /// The uses of what an owner has.
    pub(crate) fn uses(&self, owner: &Owner) -> Option<u32>
        ensures { result ≡ map.get self.now.owners owner.now }
    {
        self.table.get(owner).copied()
    }

    /// Adds an owner, with no uses.
    pub(crate) fn add(&mut self, owner: Owner) -> Result<(), IndexErr>
        requires { map.get self.old.owners owner ≡ None }
        ensures ok { OnOk result (self.new.owners ≡ map.insert self.old.owners owner 0) }
        ensures accounts { self.new.accounts ≡ self.old.accounts }
        ensures slots { length self.new.slots ≡ length self.old.slots }
        ensures refuses { IsErr result ↔ used_of self.old owner.user ≡ limit_for self.old.accounts owner.user }
        ensures err { OnErr result (self.new ≡ self.old) }
        ensures full { IfErr result (λ error. error
            ≡ Full (used_of self.old owner.user) (limit_for self.old.accounts owner.user)) }
    {
        let account = match self.accounts.account_of(owner.user) {
            Some(account) => account,
            None => return Err(IndexErr::Full { used: 0, limit: 0 }),
        };
        match self.table.insert(account, owner, 0) {
            Ok(()) => {
                // Each owner has a slot of its own, so their users have room among the counts.
                let _owned = self.table.len();
                self.counts.raise(owner.user);
                Ok(())
            }
            Err(TableFull { used, limit }) => Err(IndexErr::Full { used, limit }),
        }
    }

    /// Takes an owner out.
    pub(crate) fn remove(&mut self, owner: &Owner)
        requires { IsSome (map.get self.old.owners owner.now) }
        ensures owners { self.new.owners ≡ map.remove self.old.owners owner.now }
        ensures accounts { self.new.accounts ≡ self.old.accounts }
        ensures slots { length self.new.slots ≡ length self.old.slots }
    {
        self.table.remove(owner);
        self.counts.lower(owner.user);
    }

    /// Gives what an owner has another number of uses.
    pub(crate) fn set_uses(&mut self, owner: &Owner, uses: u32)
        requires { IsSome (map.get self.old.owners owner.now) }
        ensures owners { self.new.owners ≡ map.insert self.old.owners owner.now uses }
        ensures accounts { self.new.accounts ≡ self.old.accounts }
        ensures slots { length self.new.slots ≡ length self.old.slots }
    {
        self.table.replace(owner, uses);
    }

    /// Lowers the uses of what an owner has by one, if it has a use, and takes the owner out with its last. Answers whether
    /// the owner is gone by this.
    pub(crate) fn release(&mut self, owner: &Owner) -> bool
        ensures gone { result ≡ (uses_at self.old.owners owner.now == 1) }
        ensures owners { self.new.owners ≡ released self.old.owners owner.now }
        ensures accounts { self.new.accounts ≡ self.old.accounts }
        ensures slots { length self.new.slots ≡ length self.old.slots }
    {
        match self.table.find(owner) {
            Some((slot, held)) => {
                let uses = *held;
                if uses == 1 {
                    self.table.remove_at(slot);
                    self.counts.lower(owner.user);
                    true
                } else if uses > 1 {
                    self.table.set_at(slot, uses - 1);
                    false
                } else {
                    false
                }
            }
            None => false,
        }
    }

    /// The number of owners.
    pub(crate) fn len(&self) -> u32
        ensures { result ≡ map.len self.now.owners }
    {
        self.table.len()
    }

    /// The begun 256s of each user's fingerprints, over all users.
    pub(crate) fn batches(&self) -> u32
        ensures { result ≡ batches_of self.now.owners }
    {
        self.counts.batches()
    }

    /// How many fingerprints a user owns.
    pub(crate) fn owned_by(&self, user: u32) -> u32
        ensures { result ≡ keys_of (λ k. k.user) self.now.owners user }
    {
        self.counts.count(user)
    }

    /// How many users own a fingerprint. It looks through all owners.
    pub(crate) fn count_of(&self, fp: &[u8; 32]) -> u32
        ensures { result ≡ owners_of self.now.owners fp.now }
    {
        let mut count = 0;
        for slot in 0..self.table.slots() {
            if self.is_of(slot, fp) {
                count += 1;
            }
        }
        count
    }

    // Whether the slot has an owner of the fingerprint.
    fn is_of(&self, slot: u32, fp: &[u8; 32]) -> bool
        ensures shows { result ≡ shows_fp fp.now (slot_of self.now.slots slot) }
        ensures each { IsListed self.now.owners self.now.slots }
    {
        match self.table.at(slot) {
            Some((owner, _)) => owner.fp == *fp,
            None => false,
        }
    }

    /// The number of slots.
    pub(crate) fn slots(&self) -> u32
        ensures { result ≡ length self.now.slots }
    {
        self.table.slots()
    }

    /// The owner in a slot: none in one past the last.
    pub(crate) fn at(&self, slot: u32) -> Option<Owner>
        ensures owner { result ≡ option_map (λ pair. pair.0) (slot_of self.now.slots slot) }
        ensures each { IsListed self.now.owners self.now.slots }
    {
        match self.table.at(slot) {
            Some((owner, _)) => Some(*owner),
            None => None,
        }
    }

    /// Nobody owns anything.
    pub(crate) fn clear(&mut self)
        ensures owners { self.new.owners ≡ map.empty }
        ensures accounts { self.new.accounts ≡ self.old.accounts }
        ensures slots { length self.new.slots ≡ length self.old.slots }
    {
        self.table.clear();
        self.counts.clear();
    }
}
