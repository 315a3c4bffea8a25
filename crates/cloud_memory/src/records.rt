//! A journal's records in the memory, each by its own places.

ghost use Rattle.std.specs.Prelude.{◌≡◌, ◌↔◌, ◌<◌, ◌+◌, ◌^◌, length, None, IsErr, IfErr, OnOk, OnErr};
ghost use Rattle.std.specs.FinMap as maps;
ghost use Rattle.file_index.specs.PoolMap.Accounts.{keys_of, limit_for};
ghost use Rattle.cloud_areas.specs.JournalStart.rooms.UserRooms.{UserRooms};
ghost use Rattle.share_index.specs.Order.{owner_of};
ghost use Rattle.share_index.specs.Shares.{used_by as owners_used};
ghost use Rattle.file_index.specs.Files.{key_of};
ghost use Rattle.file_index.specs.Files.{used_by as files_used};
ghost use Rattle.spent_table.specs.Spending.{spent_by};
ghost use Rattle.cloud_areas.specs.UserDedup.Owning.{fps_in};
ghost use Rattle.cloud_memory.specs.Greatest.{KeepsGreatest};
ghost use Rattle.cloud_memory.specs.Inner.{Owned};
ghost use Rattle.cloud_memory.specs.Records.{HasPlaceRoom, HasItemRoom, full_entries};
ghost use Rattle.cloud_memory.specs.Rooms.{memory_of, HasRooms};
ghost use Rattle.cloud_memory.specs.Sharing.{AreOwned};
ghost use Rattle.cloud_memory.specs.Steps.{with_item, with_kept, with_entry, with_spent, spends};

use crate::places::farther;
use crate::uses::raise_all;
use crate::{CloudMemory, Full};
use cloud_areas::{CommitBody, KeptItem, PutItem};
use recipe::RecipeView;
use spent_table::{Fp, Spent, UserId};

impl CloudMemory {
    /// How many fingerprints the user owns.
    pub fn owned_by(&self, user: UserId) -> u32
        ensures { result ≡ keys_of (λ k. k.user) self.now.shares.owners user.0 }
    {
        self.shares.owned_by(user)
    }

    /// How many fingerprints have a place, whoever owns them.
    pub fn placed(&self) -> u32
        ensures { result ≡ maps.len self.now.shares.places }
    {
        self.shares.placed()
    }

    // Makes the user an owner of the fingerprint, which has a place or gets one in this record.
    fn enroll(&mut self, user: UserId, fp: Fp)
        requires new { maps.get self.old.shares.owners (owner_of user.0 fp.0) ≡ None }
        requires owners { owners_used self.old.shares user.0 < limit_for self.old.shares.accounts user.0 }
        ensures { Owned self.old self.new user fp }
    {
        match self.shares.add_owner(user, fp) {
            Ok(()) => {}
            Err(_) => unreachable!(),
        }
    }

    /// Takes a share of a Put's record: the user owns it too, and it lies where the record says, if the record gives
    /// it a place. Nothing is spent.
    pub fn take_item(&mut self, user: UserId, item: &PutItem)
        requires { HasItemRoom self.old user item.now }
        ensures taken { memory_of self.new ≡ with_item user (memory_of self.old) item.now }
        ensures rooms { (rooms : UserRooms) → HasRooms rooms self.old → HasRooms rooms self.new }
        ensures greatest { KeepsGreatest self.old self.new }
    {
        match item.place {
            Some(place) => {
                // the place first: for an owner without one the index would look through all owners
                self.lay(item.fp, place);
                self.enroll(user, item.fp);
            }
            None => self.enroll(user, item.fp),
        }
    }

    /// Takes a share of a Kept's record: it lies where the record says, and nobody owns it more than before.
    pub fn take_kept(&mut self, item: &KeptItem)
        requires { HasPlaceRoom self.old item.now.fp item.now.place }
        ensures taken { memory_of self.new ≡ with_kept (memory_of self.old) item.now }
        ensures rooms { (rooms : UserRooms) → HasRooms rooms self.old → HasRooms rooms self.new }
        ensures greatest { KeepsGreatest self.old self.new }
    {
        self.lay(item.fp, item.place);
    }

    /// Takes a Commit's record with its recipe, of which the user owns each fingerprint: the version, which the user
    /// doesn't have, gets the entry, and each of them a use more for each item that names it. Nothing is spent.
    /// `Full` comes exactly where the user has as many entries as it may, and says how many; nothing changes then.
    pub fn take_entry(&mut self, commit: &CommitBody, recipe: &RecipeView<'_>) -> Result<(), Full>
        requires new { maps.get self.old.files.files
            (key_of commit.now.user.0 commit.now.tag.0 commit.now.version.0) ≡ None }
        requires end { commit.now.at + commit.now.len < 2 ^ 64 }
        requires owned { AreOwned self.old.shares.owners commit.now.user (fps_in recipe.now.items) }
        ensures full { IsErr result
            ↔ files_used self.old.files commit.now.user.0 ≡ limit_for self.old.files.accounts commit.now.user.0 }
        ensures numbers { IfErr result (λ full. full ≡ full_entries self.old commit.now.user) }
        ensures taken { OnOk result (memory_of self.new
            ≡ with_entry (fps_in recipe.now.items) commit.now (memory_of self.old)) }
        ensures rooms { (rooms : UserRooms) → HasRooms rooms self.old → HasRooms rooms self.new }
        ensures greatest { KeepsGreatest self.old self.new }
        ensures err { OnErr result (self.new ≡ self.old) }
    {
        match self.enter(commit) {
            Ok(()) => {}
            Err(full) => return Err(full),
        }
        raise_all(&mut self.shares, commit.user, recipe);
        let end = commit.at + u64::from(commit.len);
        self.recipes_end = farther(self.recipes_end, end);
        Ok(())
    }

    /// The user, who has a place, has spent so much more.
    pub fn spend(&mut self, user: UserId, more: Spent)
        requires place { user.0 < length self.old.spent }
        requires owners { (spent_by self.old.spent user).owners + more.owners < 2 ^ 32 }
        requires shares { (spent_by self.old.spent user).shares + more.shares < 2 ^ 64 }
        requires recipes { (spent_by self.old.spent user).recipes + more.recipes < 2 ^ 64 }
        ensures taken { memory_of self.new ≡ spends user more (memory_of self.old) }
        ensures shares { self.new.shares ≡ self.old.shares }
        ensures files { self.new.files ≡ self.old.files }
        ensures rooms { (rooms : UserRooms) → HasRooms rooms self.old → HasRooms rooms self.new }
        ensures greatest { KeepsGreatest self.old self.new }
    {
        let spent = self.spent.of(user);
        let sum = Spent {
            owners: spent.owners + more.owners,
            shares: spent.shares + more.shares,
            recipes: spent.recipes + more.recipes,
        };
        self.spent.set(user, sum);
    }

    /// Takes a Spent's record: the user has spent so much. Of a user without a place nothing is kept.
    pub fn take_spent(&mut self, user: UserId, spent: Spent)
        ensures taken { memory_of self.new ≡ with_spent user spent (memory_of self.old) }
        ensures shares { self.new.shares ≡ self.old.shares }
        ensures files { self.new.files ≡ self.old.files }
        ensures rooms { (rooms : UserRooms) → HasRooms rooms self.old → HasRooms rooms self.new }
        ensures greatest { KeepsGreatest self.old self.new }
    {
        if (user.0 as usize) < self.spent.users() {
            self.spent.set(user, spent);
        }
    }
}
