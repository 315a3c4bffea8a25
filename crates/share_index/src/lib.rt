//! Which shares a cloud has, and who owns them.
//!
//! An index takes all its memory when it is made. From then on `set_place` and `add_owner` answer by the room alone.
#![tactic(auto)]

ghost use Rattle.std.specs.Prelude.{◌≡◌, ◌≤◌, ◌<◌, ◌+◌, ◌-◌, ◌*◌, ◌^◌, ◌↔◌, IfOk, IfErr, OnOk, OnErr, IsErr, IfSome, IsSome, IsTrue, None, is_some, option_map, length};
ghost use Rattle.std.specs.FinMap as map;
ghost use Rattle.cd_base.specs.Limits.{greatest_rooms};
ghost use Rattle.pool_map.specs.declared.accounts.Accounts.TheVariants.{Shared, PerUser};
ghost use Rattle.pool_map.specs.declared.accounts.IndexErr.TheVariants.{Full};
ghost use Rattle.pool_map.specs.Accounts.{limit_for, slots_of, keys_of};
ghost use Rattle.pool_map.specs.Slots.{slot_of, IsListed, IsRewritten};
ghost use Rattle.share_index.specs.Emptied.{IsEmptied};
ghost use Rattle.share_index.specs.Order.{owner_of};
ghost use Rattle.share_index.specs.Placed.{AreAllPlaced};
ghost use Rattle.share_index.specs.Shares.{used_by, uses_at, released, owners_of, ownerless_in, batches_of, place_with, owner_with};

mod counts;
mod key;
pub mod laws;
mod owners;
mod places;

pub use cd_base::Place;
use cd_base::{Fp, NoMemory, UserId};
pub use key::{Kept, Owner};
use owners::OwnerTable;
use places::PlaceTable;
pub use pool_map::{Accounts, IndexErr};
use std::alloc::Global;
use std::marker::Model;

/// The shares of a cloud. Contracts see two finite maps: from a fingerprint to its place, and from a user and a fingerprint to
/// its uses. They also see what stands in each slot, how many fingerprints may have a place, and the accounts that limit the
/// owners.
#[derive(Drop)]
pub struct ShareIndex {
    places: PlaceTable,
    owners: OwnerTable,
    // how many owners have a fingerprint without a place
    unplaced: u32,
}

impl Model for ShareIndex {
    ghost use Rattle.share_index.specs.Shares.{Shares};
    ghost use Rattle.share_index.specs.Coded.{shares_code};

    ghost Value = { Shares };

    ghost coded = { shares_code };

    ghost use Rattle.share_index.specs.Indexed.{shares_in, IsIndexed};

    ghost view = { λ s. shares_in s.places s.owners };

    ghost invariant = { λ s. IsIndexed s.places s.owners s.unplaced };
}

impl ShareIndex {
    /// An index without shares, for so many placed fingerprints and so many owners, whoever they are. It takes all its memory
    /// here.
    pub fn make(alloc: Global, fps: u32, owners: u32) -> Result<ShareIndex, NoMemory>
        ensures places { IfOk result (λ index. index.places ≡ map.empty) }
        ensures owners { IfOk result (λ index. index.owners ≡ map.empty) }
        ensures fps { IfOk result (λ index. index.fps ≡ fps) }
        ensures accounts { IfOk result (λ index. index.accounts ≡ Shared owners) }
        ensures place_slots { IfOk result (λ index. length index.place_slots ≡ fps) }
        ensures owner_slots { IfOk result (λ index. length index.owner_slots ≡ owners) }
    {
        ShareIndex::with(alloc, fps, Accounts::Shared(owners))
    }

    /// An index without shares, for so many owners of each user below the number of users, and as many placed fingerprints as
    /// these are together. It takes all its memory here.
    pub fn for_users(alloc: Global, users: u32, owners: u32) -> Result<ShareIndex, NoMemory>
        requires { users * owners ≤ greatest_rooms.owners }
        ensures places { IfOk result (λ index. index.places ≡ map.empty) }
        ensures owners { IfOk result (λ index. index.owners ≡ map.empty) }
        ensures fps { IfOk result (λ index. index.fps ≡ users * owners) }
        ensures accounts { IfOk result (λ index. index.accounts ≡ PerUser users owners) }
        ensures place_slots { IfOk result (λ index. length index.place_slots ≡ users * owners) }
        ensures owner_slots { IfOk result (λ index. length index.owner_slots ≡ users * owners) }
    {
        ShareIndex::with(alloc, users * owners, Accounts::PerUser(users, owners))
    }

    // An index without shares, for so many placed fingerprints and under these accounts.
    fn with(alloc: Global, fps: u32, accounts: Accounts) -> Result<ShareIndex, NoMemory>
        requires { slots_of accounts < 2 ^ 32 }
        ensures places { IfOk result (λ index. index.places ≡ map.empty) }
        ensures owners { IfOk result (λ index. index.owners ≡ map.empty) }
        ensures fps { IfOk result (λ index. index.fps ≡ fps) }
        ensures accounts { IfOk result (λ index. index.accounts ≡ accounts) }
        ensures place_slots { IfOk result (λ index. length index.place_slots ≡ fps) }
        ensures owner_slots { IfOk result (λ index. length index.owner_slots ≡ slots_of accounts) }
    {
        let places = PlaceTable::make(alloc, fps)?;
        let owners = OwnerTable::make(alloc, accounts)?;
        Ok(ShareIndex {
            places,
            owners,
            unplaced: 0,
        })
    }

    /// The place of a fingerprint, if it has one.
    pub fn place_of(&self, fp: &Fp) -> Option<Place>
        ensures { result ≡ map.get self.now.places fp.now.0 }
    {
        match self.places.get(&fp.0) {
            Some(kept) => Some(kept.place),
            None => None,
        }
    }

    /// The slot of a fingerprint's place, at which `place_at` answers both. None comes exactly where the fingerprint has no
    /// place.
    pub fn place_slot(&self, fp: &Fp) -> Option<u32>
        ensures slot { IfSome result (λ slot. slot_of self.now.place_slots slot
            ≡ option_map (λ place. (fp.now.0, place)) (map.get self.now.places fp.now.0)) }
        ensures placed { is_some result ≡ is_some (map.get self.now.places fp.now.0) }
    {
        self.places.find(&fp.0)
    }

    /// Whether the user owns the fingerprint.
    pub fn owns(&self, user: UserId, fp: &Fp) -> bool
        ensures { IsTrue result ↔ IsSome (map.get self.now.owners (owner_of user.0 fp.now.0)) }
    {
        self.owners.uses(&Owner::of(user, fp)).is_some()
    }

    /// The uses of a fingerprint of the user's. None comes exactly where the user doesn't own it.
    pub fn uses(&self, user: UserId, fp: &Fp) -> Option<u32>
        ensures { result ≡ map.get self.now.owners (owner_of user.0 fp.now.0) }
    {
        self.owners.uses(&Owner::of(user, fp))
    }

    // How many users own a fingerprint without a place. It is one step, unless an owner has a fingerprint without a place: then
    // it looks through the owners.
    fn unplaced_owners(&self, fp: &Fp) -> u32
        requires { map.get self.now.places fp.now.0 ≡ None }
        ensures { result ≡ owners_of self.now.owners fp.now.0 }
    {
        if self.unplaced == 0 {
            0
        } else {
            self.owners.count_of(&fp.0)
        }
    }

    /// Whether any user owns the fingerprint. It is one step for a fingerprint with a place. For another it looks through the
    /// owners, unless each of them has a fingerprint with a place.
    pub fn is_owned(&self, fp: &Fp) -> bool
        ensures { IsTrue result ↔ 0 < owners_of self.now.owners fp.now.0 }
    {
        match self.places.get(&fp.0) {
            Some(kept) => kept.owners > 0,
            None => self.unplaced_owners(fp) > 0,
        }
    }

    /// Whether each fingerprint that some user owns has a place. It is kept, and not counted anew.
    pub fn are_placed(&self) -> bool
        ensures { IsTrue result ↔ AreAllPlaced self.now.places self.now.owners }
    {
        self.unplaced == 0
    }

    /// Gives a fingerprint without a place one. `Full` comes exactly where as many have a place as may, and the index is then
    /// as before. It is one step, unless an owner has a fingerprint without a place: then it looks through the owners.
    pub fn set_place(&mut self, fp: Fp, place: Place) -> Result<(), IndexErr>
        requires { map.get self.old.places fp.0 ≡ None }
        ensures ok { OnOk result (self.new.places ≡ map.insert self.old.places fp.0 place) }
        ensures owners { self.new.owners ≡ self.old.owners }
        ensures owner_slots { self.new.owner_slots ≡ self.old.owner_slots }
        ensures place_slots { length self.new.place_slots ≡ length self.old.place_slots }
        ensures fps { self.new.fps ≡ self.old.fps }
        ensures accounts { self.new.accounts ≡ self.old.accounts }
        ensures refuses { IsErr result ↔ map.len self.old.places ≡ self.old.fps }
        ensures err { OnErr result (self.new ≡ self.old) }
        ensures full { IfErr result (λ error. error ≡ Full (map.len self.old.places) self.old.fps) }
    {
        if self.places.is_full() {
            let used = self.places.len();
            return Err(IndexErr::Full { used, limit: used });
        }
        let owners = self.unplaced_owners(&fp);
        self.places.add(fp.0, Kept { place, owners });
        self.unplaced -= owners;
        Ok(())
    }

    /// Gives a fingerprint that has a place another one. It stays in its slot, and its owners stay.
    pub fn move_place(&mut self, fp: &Fp, place: Place)
        requires { IsSome (map.get self.old.places fp.now.0) }
        ensures places { self.new.places ≡ map.insert self.old.places fp.now.0 place }
        ensures moved { IsRewritten self.old.place_slots self.new.place_slots fp.now.0 place }
        ensures place_slots { length self.new.place_slots ≡ length self.old.place_slots }
        ensures owners { self.new.owners ≡ self.old.owners }
        ensures owner_slots { self.new.owner_slots ≡ self.old.owner_slots }
        ensures fps { self.new.fps ≡ self.old.fps }
        ensures accounts { self.new.accounts ≡ self.old.accounts }
    {
        match self.places.get(&fp.0) {
            Some(kept) => self.places.set(
                &fp.0,
                Kept {
                    place,
                    owners: kept.owners,
                },
            ),
            None => unreachable!(),
        }
    }

    /// Makes a user that doesn't own a fingerprint its owner, with no uses. `Full` comes exactly where the account that the
    /// user's owners are charged to is used up to its limit, and the index is then as before.
    pub fn add_owner(&mut self, user: UserId, fp: Fp) -> Result<(), IndexErr>
        requires { map.get self.old.owners (owner_of user.0 fp.0) ≡ None }
        ensures ok { OnOk result (self.new.owners ≡ map.insert self.old.owners (owner_of user.0 fp.0) 0) }
        ensures places { self.new.places ≡ self.old.places }
        ensures place_slots { length self.new.place_slots ≡ length self.old.place_slots }
        ensures owner_slots { length self.new.owner_slots ≡ length self.old.owner_slots }
        ensures fps { self.new.fps ≡ self.old.fps }
        ensures accounts { self.new.accounts ≡ self.old.accounts }
        ensures refuses { IsErr result ↔ used_by self.old user.0 ≡ limit_for self.old.accounts user.0 }
        ensures err { OnErr result (self.new ≡ self.old) }
        ensures full { IfErr result (λ error. error
            ≡ Full (used_by self.old user.0) (limit_for self.old.accounts user.0)) }
    {
        match self.owners.add(Owner::of(user, &fp)) {
            Ok(()) => {
                // As many as the owners of a fingerprint are at most all owners, which are counted in 32 bits.
                let _owned = self.owners.len();
                match self.places.get(&fp.0) {
                    Some(kept) => self.places.set(
                        &fp.0,
                        Kept {
                            place: kept.place,
                            owners: kept.owners + 1,
                        },
                    ),
                    None => self.unplaced += 1,
                }
                Ok(())
            }
            Err(full) => Err(full),
        }
    }

    /// Raises the uses of a fingerprint that the user owns by one. Its uses are below the greatest number of 32 bits.
    pub fn add_use(&mut self, user: UserId, fp: &Fp)
        requires owned { IsSome (map.get self.old.owners (owner_of user.0 fp.now.0)) }
        requires below { uses_at self.old.owners (owner_of user.0 fp.now.0) < 4294967295 }
        ensures owners { self.new.owners ≡ map.insert self.old.owners (owner_of user.0 fp.now.0)
            (uses_at self.old.owners (owner_of user.0 fp.now.0) + 1) }
        ensures places { self.new.places ≡ self.old.places }
        ensures place_slots { self.new.place_slots ≡ self.old.place_slots }
        ensures owner_slots { length self.new.owner_slots ≡ length self.old.owner_slots }
        ensures fps { self.new.fps ≡ self.old.fps }
        ensures accounts { self.new.accounts ≡ self.old.accounts }
    {
        let owner = Owner::of(user, fp);
        match self.owners.uses(&owner) {
            Some(uses) => self.owners.set_uses(&owner, uses + 1),
            None => unreachable!(),
        }
    }

    /// Takes the place of a fingerprint that has one. Its slot is emptied, each other slot and its owners stay.
    pub fn drop_place(&mut self, fp: &Fp)
        requires { IsSome (map.get self.old.places fp.now.0) }
        ensures places { self.new.places ≡ map.remove self.old.places fp.now.0 }
        ensures emptied { IsEmptied self.old.place_slots self.new.place_slots fp.now.0 }
        ensures owners { self.new.owners ≡ self.old.owners }
        ensures owner_slots { self.new.owner_slots ≡ self.old.owner_slots }
        ensures place_slots { length self.new.place_slots ≡ length self.old.place_slots }
        ensures fps { self.new.fps ≡ self.old.fps }
        ensures accounts { self.new.accounts ≡ self.old.accounts }
    {
        // The owners of a fingerprint and those without a place are at most all owners, which are counted in 32 bits.
        let _owned = self.owners.len();
        match self.places.get(&fp.0) {
            Some(kept) => {
                self.places.remove(&fp.0);
                self.unplaced += kept.owners;
            }
            None => unreachable!(),
        }
    }

    /// Lowers the uses of a fingerprint by one, if the user owns it with a use, and takes it from the user with the last use.
    /// Its place stays. The owner and the place are looked up once each.
    pub fn release(&mut self, user: UserId, fp: &Fp)
        ensures owners { self.new.owners ≡ released self.old.owners (owner_of user.0 fp.now.0) }
        ensures places { self.new.places ≡ self.old.places }
        ensures place_slots { length self.new.place_slots ≡ length self.old.place_slots }
        ensures owner_slots { length self.new.owner_slots ≡ length self.old.owner_slots }
        ensures fps { self.new.fps ≡ self.old.fps }
        ensures accounts { self.new.accounts ≡ self.old.accounts }
    {
        if self.owners.release(&Owner::of(user, fp)) {
            let placed = self.places.lower_owners(&fp.0);
            if !placed {
                self.unplaced -= 1;
            }
        }
    }

    /// The number of fingerprints with a place.
    pub fn placed(&self) -> u32
        ensures { result ≡ map.len self.now.places }
    {
        self.places.len()
    }

    /// The number of owners, over all users.
    pub fn owned(&self) -> u32
        ensures { result ≡ map.len self.now.owners }
    {
        self.owners.len()
    }

    /// The number of fingerprints that a user owns. It is kept, and not counted anew.
    pub fn owned_by(&self, user: UserId) -> u32
        ensures { result ≡ keys_of (λ k. k.user) self.now.owners user.0 }
    {
        self.owners.owned_by(user.0)
    }

    /// The number of fingerprints with a place that no user owns. It is kept, and not counted anew.
    pub fn ownerless(&self) -> u32
        ensures { result ≡ ownerless_in self.now.places self.now.owners }
    {
        self.places.ownerless()
    }

    /// The begun 256s of each user's fingerprints, over all users. It is kept, and not counted anew.
    pub fn batches(&self) -> u32
        ensures { result ≡ batches_of self.now.owners }
    {
        self.owners.batches()
    }

    /// The number of slots for places, which are numbered from 0.
    pub fn place_slots(&self) -> u32
        ensures { result ≡ length self.now.place_slots }
    {
        self.places.slots()
    }

    /// The number of slots for owners, which are numbered from 0.
    pub fn owner_slots(&self) -> u32
        ensures { result ≡ length self.now.owner_slots }
    {
        self.owners.slots()
    }

    /// The fingerprint and its place in a slot, if there is one: a slot past the last has none. Each stands in just one slot.
    pub fn place_at(&self, slot: u32) -> Option<(Fp, Place)>
        ensures place { option_map place_with result ≡ slot_of self.now.place_slots slot }
        ensures each { IsListed self.now.places self.now.place_slots }
    {
        match self.places.at(slot) {
            Some((fp, kept)) => Some((fp, kept.place)),
            None => None,
        }
    }

    /// The user and the fingerprint in a slot, if there is one: a slot past the last has none. Each stands in just one slot.
    pub fn owner_at(&self, slot: u32) -> Option<(UserId, Fp)>
        ensures owner { option_map owner_with result ≡ option_map (λ pair. pair.0) (slot_of self.now.owner_slots slot) }
        ensures each { IsListed self.now.owners self.now.owner_slots }
    {
        match self.owners.at(slot) {
            Some(owner) => Some((UserId(owner.user), Fp(owner.fp))),
            None => None,
        }
    }

    /// Takes each place and each owner out. The rooms stay.
    pub fn clear(&mut self)
        ensures places { self.new.places ≡ map.empty }
        ensures owners { self.new.owners ≡ map.empty }
        ensures place_slots { length self.new.place_slots ≡ length self.old.place_slots }
        ensures owner_slots { length self.new.owner_slots ≡ length self.old.owner_slots }
        ensures fps { self.new.fps ≡ self.old.fps }
        ensures accounts { self.new.accounts ≡ self.old.accounts }
    {
        self.places.clear();
        self.owners.clear();
        self.unplaced = 0;
    }
}
