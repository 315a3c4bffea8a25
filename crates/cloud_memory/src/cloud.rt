//! The memory of a cloud's list.

ghost use Rattle.std.specs.Prelude.{◌≡◌, ◌≢◌, ◌↔◌, ◌<◌, ◌≤◌, ◌+◌, ◌*◌, ◌^◌, ℕ, List, [], ◌∷◌, ◌++◌, length, map, sum_by};
ghost use Rattle.std.specs.Prelude.{option_map, IfOk, OnOk, OnErr, MatchResult, Some, None, IfSome, IsSome, IsTrue};
ghost use Rattle.std.specs.Prelude.{slice_get, if◌then◌else◌};
ghost use Rattle.std.specs.FinMap as maps;
ghost use Rattle.std.specs.List.{Contains};
ghost use Rattle.spent_table.specs.CdBase.shape.Shape.{Shape};
ghost use Rattle.cloud_areas.specs.ContainerLog.Places.{place_of};
ghost use Rattle.cloud_areas.specs.JournalStart.Ranges.{AreRooms};
ghost use Rattle.file_index.specs.Files.{key_of};
ghost use Rattle.file_index.specs.Files.{used_by as files_used};
ghost use Rattle.file_index.specs.PoolMap.Accounts.{limit_for};
ghost use Rattle.cloud_areas.specs.RecordBody.Spelling as bodies;
ghost use Rattle.cloud_areas.specs.RecordBody.Spelling.{Body};
ghost use Rattle.share_index.specs.Order.{owner_of};
ghost use Rattle.spent_table.specs.Spending.{spent_by};
ghost use Rattle.cloud_areas.specs.UserDedup.file_list.FileEntry.{FileEntry};
ghost use Rattle.cloud_areas.specs.UserDedup.Cloud.{fingerprint};
ghost use Rattle.cloud_areas.specs.UserDedup.Owning.{is_among, fps_in};
ghost use Rattle.cloud_areas.specs.UserDedup.Pages.{entry_at};
ghost use Rattle.cloud_areas.specs.UserDedup.Requests.{fps_of};
ghost use Rattle.cloud_areas.specs.UserDedup.command.Command.{Command};
ghost use Rattle.cloud_areas.specs.UserDedup.command.Command.TheVariants as commands;
ghost use Rattle.cloud_areas.specs.UserDedup.Cloud.{user_view, strings_in, held_bytes};
ghost use Rattle.cloud_areas.specs.UserDedup.Spending.{spent_of, limits_of, full_for, IsWithin};
ghost use Rattle.cloud_areas.specs.UserDedup.Dedup.{IsSound};
ghost use Rattle.cloud_areas.specs.Chains.{IsRecord};
ghost use Rattle.cloud_areas.specs.Laid.{AreLaid};
ghost use Rattle.cloud_areas.specs.Placing.{places_given, places_of};
ghost use Rattle.cloud_memory.specs.Greatest.{KeepsGreatest};
ghost use Rattle.cloud_memory.specs.Memory.{Remembers, IsPlacedBy, HasEnds, as_spent, uses_of, summary, summary_of, keys_above};
ghost use Rattle.cloud_memory.specs.News.{AreOf, AreNewTo, seen};
ghost use Rattle.cloud_memory.specs.Rooms.{memory_of, HasRooms, full_news, full_commit};
ghost use Rattle.cloud_memory.specs.Sharing.{AreOwned};
ghost use Rattle.cloud_memory.specs.Steps.{begun, with_put, parts_of, with_commit, without_entry};
ghost use Rattle.cloud_memory.specs.Inner.{HasPlacedShare, Owned, HasAddedShare, AddsAll, HasShareRoom, MayAdd};
ghost use Rattle.cloud_memory.specs.Inner.{EntersCommit};
ghost use Rattle.cloud_memory.specs.Inner.{Entered};

use crate::places::{farther, place_behind};
use crate::uses::{lower_all, raise_all};
use crate::{Full, New};
use cloud_areas::{CommitBody, PutItem, REGION_LEN, UserRooms};
use file_index::{Entry, FileIndex, IndexErr};
use recipe::RecipeView;
use share_index::ShareIndex;
use spent_table::{Fp, NoMemory, Place, Room, Spent, SpentTable, Tag, UserId, Version};
use std::alloc::Global;

/// What a server remembers of its cloud's list of commands: where each share lies, how often each user's entries name
/// what the user owns, the entry of each version, what each user has spent, and where shares and recipes end.
#[derive(Drop)]
pub struct CloudMemory {
    pub(crate) shares: ShareIndex,
    pub(crate) files: FileIndex,
    pub(crate) spent: SpentTable,
    pub(crate) shares_end: u64,
    pub(crate) recipes_end: u64,
}

impl CloudMemory {
    /// The memory of no commands, for the users of these rooms, with the blobs in the first region. It takes all its
    /// memory here.
    pub fn make(alloc: Global, rooms: &UserRooms) -> Result<CloudMemory, NoMemory>
        requires { AreRooms rooms.now }
        ensures value { IfOk result (λ cloud. memory_of cloud ≡ begun rooms.now.users 0) }
        ensures remembers { IfOk result (λ cloud. (shape : Shape) → Remembers shape [] (memory_of cloud)) }
        ensures placed { IfOk result (λ cloud. IsPlacedBy [] (memory_of cloud)) }
        ensures ends { IfOk result (λ cloud. HasEnds 0 [] [] (memory_of cloud)) }
        ensures rooms { IfOk result (λ cloud. HasRooms rooms.now cloud) }
    {
        // the largest is made last: what fails behind it would drop it
        let spent = SpentTable::make(alloc, rooms.users)?;
        let files = FileIndex::for_users(alloc, rooms.users, rooms.files)?;
        let shares = ShareIndex::for_users(alloc, rooms.users, rooms.owners)?;
        Ok(CloudMemory {
            shares,
            files,
            spent,
            shares_end: 0,
            recipes_end: 0,
        })
    }

    /// Forgets all commands; the blobs are to lie in this region, 0 or 1. The room stays.
    pub fn clear(&mut self, region: u8)
        requires { region ≤ 1 }
        ensures value { memory_of self.new ≡ begun (length self.old.spent) region }
        ensures remembers { (shape : Shape) → Remembers shape [] (memory_of self.new) }
        ensures placed { IsPlacedBy [] (memory_of self.new) }
        ensures ends { HasEnds region [] [] (memory_of self.new) }
        ensures rooms { (rooms : UserRooms) → HasRooms rooms self.old → HasRooms rooms self.new }
        ensures greatest { KeepsGreatest self.old self.new }
    {
        self.shares.clear();
        self.files.clear();
        self.spent.clear();
        self.shares_end = u64::from(region) * REGION_LEN;
        self.recipes_end = u64::from(region) * REGION_LEN;
    }

    /// Whether the user owns the fingerprint.
    pub fn owns(&self, user: UserId, fp: &Fp) -> bool
        ensures kept { IsTrue result ↔ IsSome (maps.get self.now.shares.owners (owner_of user.0 fp.now.0)) }
        ensures meaning { (shape : Shape) (list : List Command) → Remembers shape list (memory_of self.now)
            → result ≡ is_among (user_view shape list user).own fp.now }
    {
        self.shares.owns(user, fp)
    }

    /// How often the user's entries name the fingerprint. None comes exactly where the user doesn't own it.
    pub fn uses(&self, user: UserId, fp: &Fp) -> Option<u32>
        ensures kept { result ≡ maps.get self.now.shares.owners (owner_of user.0 fp.now.0) }
        ensures meaning { (shape : Shape) (list : List Command) → Remembers shape list (memory_of self.now)
            → result ≡ (if is_among (user_view shape list user).own fp.now
            then Some (uses_of shape (user_view shape list user).files fp.now) else None) }
    {
        self.shares.uses(user, fp)
    }

    /// Where the share with the fingerprint lies, whoever sent it first. None comes exactly where there is no such
    /// share.
    pub fn place_of(&self, fp: &Fp) -> Option<Place>
        ensures kept { result ≡ maps.get self.now.shares.places fp.now.0 }
        ensures meaning { (shape : Shape) (list : List Command) → Remembers shape list (memory_of self.now)
            → IsSome result ↔ Contains (map fingerprint (strings_in list)) fp.now }
        ensures len { (shape : Shape) (list : List Command) → Remembers shape list (memory_of self.now)
            → IfSome result (λ place. place.len ≡ length (held_bytes list fp.now)) }
    {
        self.shares.place_of(fp)
    }

    /// The entry of a version of the user's file. None comes exactly where the user has no such version.
    pub fn entry(&self, user: UserId, tag: &Tag, version: Version) -> Option<Entry>
        ensures kept { result ≡ maps.get self.now.files.files (key_of user.0 tag.now.0 version.0) }
        ensures meaning { (shape : Shape) (list : List Command) → Remembers shape list (memory_of self.now)
            → option_map summary result
            ≡ option_map summary_of (entry_at (user_view shape list user).files (tag.now, version)) }
    {
        self.files.get(user, tag, version)
    }

    /// The user's least tag and version above the last ones, or the least of all where no last ones are named. None
    /// comes exactly where there is none.
    pub fn after(&self, user: UserId, last: Option<(Tag, Version)>) -> Option<(Tag, Version)>
        ensures { (shape : Shape) (list : List Command) → Remembers shape list (memory_of self.now)
            → result ≡ slice_get (keys_above (user_view shape list user).files last) 0 }
    {
        self.files.after(user, last)
    }

    /// What the user has spent.
    pub fn spent(&self, user: UserId) -> Spent
        ensures kept { result ≡ spent_by self.now.spent user }
        ensures meaning { (shape : Shape) (list : List Command) → Remembers shape list (memory_of self.now)
            → as_spent result ≡ spent_of list user }
    {
        self.spent.of(user)
    }

    /// The end of the shares in their area.
    pub fn shares_end(&self) -> u64
        ensures { result ≡ self.now.shares_end }
    {
        self.shares_end
    }

    /// The end of the recipes in their area.
    pub fn recipes_end(&self) -> u64
        ensures { result ≡ self.now.recipes_end }
    {
        self.recipes_end
    }

    // Gives a fingerprint without a place this one.
    pub(crate) fn lay(&mut self, fp: Fp, place: Place)
        requires new { maps.get self.old.shares.places fp.0 ≡ None }
        requires fps { maps.len self.old.shares.places < self.old.shares.fps }
        requires end { place.at + place.len < 2 ^ 64 }
        ensures { HasPlacedShare self.old self.new fp place }
    {
        match self.shares.set_place(fp, place) {
            Ok(()) => {}
            Err(_) => unreachable!(),
        }
        self.shares_end = farther(self.shares_end, place.at + u64::from(place.len));
    }

    // Makes the user an owner of the fingerprint.
    fn own(&mut self, user: UserId, fp: Fp)
        requires { HasShareRoom self.old user fp }
        ensures { Owned self.old self.new user fp }
    {
        match self.shares.add_owner(user, fp) {
            Ok(()) => {}
            Err(_) => unreachable!(),
        }
    }

    // Adds a share of the user's whose fingerprint has a place.
    fn add_known(&mut self, user: UserId, new: New) -> PutItem
        requires known { IsSome (maps.get self.old.shares.places new.fp.0) }
        requires room { HasShareRoom self.old user new.fp }
        ensures { HasAddedShare self.old self.new user new result }
    {
        self.own(user, new.fp);
        PutItem {
            fp: new.fp,
            place: None,
        }
    }

    // Adds a share of the user's whose fingerprint has no place.
    fn add_fresh(&mut self, user: UserId, new: New) -> PutItem
        requires fresh { maps.get self.old.shares.places new.fp.0 ≡ None }
        requires room { HasShareRoom self.old user new.fp }
        requires end { self.old.shares_end < 2 ^ 63 }
        ensures { HasAddedShare self.old self.new user new result }
    {
        let at = place_behind(self.shares_end, new.len);
        let place = Place { at, len: new.len };
        // the place first: for an owner without one the index would look through all owners
        self.lay(new.fp, place);
        self.own(user, new.fp);
        PutItem {
            fp: new.fp,
            place: Some(place),
        }
    }

    // Adds a share of the user's, and answers its part of the record.
    fn add_share(&mut self, user: UserId, new: New) -> PutItem
        requires room { HasShareRoom self.old user new.fp }
        requires end { self.old.shares_end < 2 ^ 63 }
        ensures { HasAddedShare self.old self.new user new result }
    {
        if self.shares.place_of(&new.fp).is_some() {
            self.add_known(user, new)
        } else {
            self.add_fresh(user, new)
        }
    }

    // Adds these shares, in order.
    fn add_shares(&mut self, user: UserId, news: &[New], items: &mut [PutItem])
        requires room { MayAdd self.old user news.now }
        requires places { length items.old ≡ length news.now }
        ensures { AddsAll self.old self.new user news.now items.new }
    {
        for place in 0..news.len() {
            items[place] = self.add_share(user, news[place]);
        }
    }

    /// Adds a Put of these shares, in order, as the last command, where the user's rooms are wide enough, and gives
    /// for each share its part of the record: where the share lies, if it has no place yet. The shares are new to the
    /// user, no two of them alike. What is spent counts each share with the length that is held under its fingerprint.
    /// `Full` names the first room that the Put would pass, of owners and shares; nothing changes then.
    pub fn add_put(
        &mut self,
        rooms: &UserRooms,
        user: UserId,
        news: &[New],
        items: &mut [PutItem],
    ) -> Result<(), Full>
        requires some { 1 ≤ length news.now }
        requires few { length news.now ≤ 256 }
        requires allowed { AreRooms rooms.now }
        requires rooms { HasRooms rooms.now self.old }
        requires end { self.old.shares_end < 2 ^ 62 }
        requires new { AreNewTo (memory_of self.old) user news.now }
        requires places { length items.old ≡ length news.now }

        // by the list that is remembered
        ensures remembers { (shape : Shape) (cloud : ℕ) (list : List Command) (strings : List (List ℕ))
            → IsSound shape cloud list
            → Remembers shape list (memory_of self.old) → AreOf news.now strings
            → OnOk result (Remembers shape (list ++ commands.Put user strings ∷ []) (memory_of self.new)) }
        ensures is_record { (shape : Shape) (list : List Command) (strings : List (List ℕ)) (region : ℕ)
            (records : List Body)
            → Remembers shape list (memory_of self.old) → AreOf news.now strings
            → HasEnds region list records (memory_of self.old)
            → OnOk result (IsRecord region records list (commands.Put user strings) (bodies.Put user items.new) []) }
        ensures full_list { (shape : Shape) (cloud : ℕ) (list : List Command) (strings : List (List ℕ))
            → IsSound shape cloud list
            → Remembers shape list (memory_of self.old) → AreOf news.now strings → IsWithin shape rooms.now list
            → MatchResult result (λ _. full_for shape rooms.now list (commands.Put user strings) ≡ None)
            (λ full. full_for shape rooms.now list (commands.Put user strings) ≡ Some (seen full)) }

        // by the memory alone
        ensures full { MatchResult result (λ _. full_news rooms.now user (memory_of self.old) news.now ≡ None)
            (λ full. full_news rooms.now user (memory_of self.old) news.now ≡ Some (seen full)) }
        ensures parts { OnOk result (items.new ≡ parts_of user (memory_of self.old) news.now) }
        ensures laid { OnOk result (AreLaid self.old.shares_end (places_of (places_given items.new))) }
        ensures taken { OnOk result (memory_of self.new ≡ with_put user items.new (memory_of self.old)) }
        ensures rooms { HasRooms rooms.now self.new }
        ensures err { OnErr result (self.new ≡ self.old) }
        ensures kept { OnErr result (items.new ≡ items.old) }
    {
        let more = self.held_lens(news);
        let count = news.len() as u32;
        match self.room_for_put(rooms, user, count, more) {
            Some(full) => Err(full),
            None => {
                self.add_shares(user, news, items);
                self.spent.add_shares(user, count, more);
                Ok(())
            }
        }
    }

    // Enters a version that the user doesn't have. `Full` comes exactly where the user has as many entries as it may.
    pub(crate) fn enter(&mut self, body: &CommitBody) -> Result<(), Full>
        requires { maps.get self.old.files.files (key_of body.now.user.0 body.now.tag.0 body.now.version.0) ≡ None }
        ensures { EntersCommit self.old self.new body.now result }
    {
        let entry = Entry {
            at: body.at,
            len: body.len,
            fp: body.fp,
        };
        match self.files.put(body.user, body.tag, body.version, entry) {
            Ok(()) => Ok(()),
            Err(IndexErr::Full { used, limit }) => Err(Full {
                room: Room::Files,
                used: u64::from(used),
                need: 1,
                limit: u64::from(limit),
            }),
        }
    }

    // Enters a version that the user doesn't have, where the user may have one more.
    fn enter_roomy(&mut self, body: &CommitBody)
        requires new { maps.get self.old.files.files (key_of body.now.user.0 body.now.tag.0 body.now.version.0) ≡ None }
        requires room { files_used self.old.files body.now.user.0 ≢ limit_for self.old.files.accounts body.now.user.0 }
        ensures { Entered self.old self.new body.now }
    {
        match self.enter(body) {
            Ok(()) => {}
            Err(_) => unreachable!(),
        }
    }

    /// Adds a Commit of a version that the user doesn't have, as the last command, where the user's rooms are wide
    /// enough, and gives its record. The user owns the fingerprints of the recipe's items; the recipe has this
    /// fingerprint and so many bytes, and lies behind the end of all recipes. `Full` names the first room that the
    /// Commit would pass, of files and recipes; nothing that is remembered changes then.
    pub fn add_commit(
        &mut self,
        rooms: &UserRooms,
        user: UserId,
        tag: Tag,
        version: Version,
        fp: Fp,
        len: u32,
        recipe: &RecipeView<'_>,
    ) -> Result<CommitBody, Full>
        requires allowed { AreRooms rooms.now }
        requires rooms { HasRooms rooms.now self.old }
        requires end { self.old.recipes_end < 2 ^ 62 }
        requires some { 1 ≤ len }
        requires new { maps.get self.old.files.files (key_of user.0 tag.0 version.0) ≡ None }
        requires owned { AreOwned self.old.shares.owners user (fps_in recipe.now.items) }

        // by the list that is remembered
        ensures remembers { (shape : Shape) (list : List Command) (bytes : List ℕ)
            → Remembers shape list (memory_of self.old) → IsWithin shape rooms.now list
            → fingerprint bytes ≡ fp → length bytes ≡ len → fps_of shape bytes ≡ fps_in recipe.now.items
            → OnOk result (Remembers shape (list ++ commands.Commit user tag version bytes ∷ [])
            (memory_of self.new)) }
        ensures is_record { (list : List Command) (bytes : List ℕ) (region : ℕ) (records : List Body)
            → HasEnds region list records (memory_of self.old) → fingerprint bytes ≡ fp → length bytes ≡ len
            → IfOk result (λ body. IsRecord region records list (commands.Commit user tag version bytes)
            (bodies.Commit body) (record { place = body.at; blob = bytes } ∷ [])) }
        ensures full_list { (shape : Shape) (cloud : ℕ) (list : List Command) (bytes : List ℕ)
            → IsSound shape cloud list
            → Remembers shape list (memory_of self.old) → IsWithin shape rooms.now list → length bytes ≡ len
            → MatchResult result (λ _. full_for shape rooms.now list (commands.Commit user tag version bytes) ≡ None)
            (λ full. full_for shape rooms.now list (commands.Commit user tag version bytes) ≡ Some (seen full)) }

        // by the memory alone
        ensures full { MatchResult result (λ _. full_commit rooms.now user (memory_of self.old) len ≡ None)
            (λ full. full_commit rooms.now user (memory_of self.old) len ≡ Some (seen full)) }
        ensures body { IfOk result (λ body. body
            ≡ record {
              user = user;
              tag = tag;
              version = version;
              at = place_of self.old.recipes_end len;
              len = len;
              fp = fp;
            }) }
        ensures taken { IfOk result (λ body. memory_of self.new ≡ with_commit (fps_in recipe.now.items) body
            (memory_of self.old)) }
        ensures rooms { HasRooms rooms.now self.new }
        ensures err { OnErr result (memory_of self.new ≡ memory_of self.old) }
    {
        let at = place_behind(self.recipes_end, len);
        let body = CommitBody {
            user,
            tag,
            version,
            at,
            len,
            fp,
        };
        let more = u64::from(len);
        match self.full_for_commit(rooms, user, len) {
            Some(full) => Err(full),
            None => {
                self.enter_roomy(&body);
                raise_all(&mut self.shares, user, recipe);
                self.spent.add_recipe(user, more);
                self.recipes_end = farther(self.recipes_end, at + more);
                Ok(body)
            }
        }
    }

    /// Adds a Delete of a version that the user has, as the last command: the entry goes, and each fingerprint that
    /// this recipe's items name loses a use for each of them. With its last use the user owns it no more; its place
    /// stays.
    pub fn delete(&mut self, user: UserId, tag: &Tag, version: Version, recipe: &RecipeView<'_>)
        requires there { IsSome (maps.get self.old.files.files (key_of user.0 tag.now.0 version.0)) }
        ensures remembers { (shape : Shape) (cloud : ℕ) (list : List Command) (entry : FileEntry)
            → IsSound shape cloud list
            → Remembers shape list (memory_of self.old)
            → entry_at (user_view shape list user).files (tag.now, version) ≡ Some entry
            → fps_of shape entry.recipe ≡ fps_in recipe.now.items
            → Remembers shape (list ++ commands.Delete user tag.now version ∷ []) (memory_of self.new) }
        ensures taken { memory_of self.new
            ≡ without_entry (fps_in recipe.now.items) user (key_of user.0 tag.now.0 version.0) (memory_of self.old) }
        ensures rooms { (rooms : UserRooms) → HasRooms rooms self.old → HasRooms rooms self.new }
        ensures greatest { KeepsGreatest self.old self.new }
    {
        self.files.remove(user, tag, version);
        lower_all(&mut self.shares, user, recipe);
    }

    /// Adds a Delete of a version that the user has, whose recipe is none of the store's shape: the entry goes, and
    /// nothing else changes.
    pub fn delete_entry(&mut self, user: UserId, tag: &Tag, version: Version)
        requires there { IsSome (maps.get self.old.files.files (key_of user.0 tag.now.0 version.0)) }
        ensures remembers { (shape : Shape) (cloud : ℕ) (list : List Command) (entry : FileEntry)
            → IsSound shape cloud list
            → Remembers shape list (memory_of self.old)
            → entry_at (user_view shape list user).files (tag.now, version) ≡ Some entry
            → fps_of shape entry.recipe ≡ []
            → Remembers shape (list ++ commands.Delete user tag.now version ∷ []) (memory_of self.new) }
        ensures taken { memory_of self.new ≡ without_entry [] user (key_of user.0 tag.now.0 version.0)
            (memory_of self.old) }
        ensures rooms { (rooms : UserRooms) → HasRooms rooms self.old → HasRooms rooms self.new }
        ensures greatest { KeepsGreatest self.old self.new }
    {
        self.files.remove(user, tag, version);
    }
}
