//! What a command would need of the rooms and of the journal, before it is added.

ghost use Rattle.std.specs.Prelude.{◌≡◌, ◌<◌, ◌≤◌, ◌+◌, ◌*◌, ◌^◌, ℕ, List, length, sum_by, option_map};
ghost use Rattle.std.specs.FinMap as maps;
ghost use Rattle.spent_table.specs.CdBase.shape.Shape.{Shape};
ghost use Rattle.file_index.specs.PoolMap.Accounts.{keys_of};
ghost use Rattle.cloud_areas.specs.JournalStart.Ranges.{AreRooms};
ghost use Rattle.cloud_areas.specs.RecordBody.Spelling as bodies;
ghost use Rattle.cloud_areas.specs.RecordBody.Spelling.{body_bytes};
ghost use Rattle.cloud_areas.specs.UserDedup.command.Command.{Command};
ghost use Rattle.cloud_areas.specs.UserDedup.Spending.{files_of};
ghost use Rattle.cloud_areas.specs.UserDedup.Dedup.{IsSound};
ghost use Rattle.cloud_memory.specs.Memory.{Remembers};
ghost use Rattle.cloud_memory.specs.News.{AreNewTo, seen};
ghost use Rattle.cloud_memory.specs.Rooms.{memory_of, HasRooms, full_put, full_news, full_files, full_commit};
ghost use Rattle.cloud_memory.specs.Steps.{parts_of, held_len};
ghost use Rattle.cloud_memory.specs.Inner.{part_len};

use crate::rooms::{either, entries_limit, full_room, owners_limit, recipes_limit, shares_limit};
use crate::{CloudMemory, Full, New};
use cloud_areas::UserRooms;
use spent_table::{Room, UserId};

impl CloudMemory {
    /// How many entries the user has.
    pub fn files_of(&self, user: UserId) -> u32
        ensures kept { (rooms : UserRooms) → HasRooms rooms self.now
            → result ≡ keys_of (λ k. k.user) self.now.files.files user.0 }
        ensures meaning { (shape : Shape) (cloud : ℕ) (rooms : UserRooms) (list : List Command)
            → IsSound shape cloud list → Remembers shape list (memory_of self.now) → HasRooms rooms self.now
            → result ≡ files_of shape list user }
    {
        self.files.used_by(user)
    }

    // The bytes that are held under the share's fingerprint, once it is put.
    fn held_len(&self, new: &New) -> u64
        ensures len { result ≡ held_len self.now.shares.places new.now }
        ensures small { result < 2 ^ 32 }
    {
        match self.shares.place_of(&new.fp) {
            Some(place) => u64::from(place.len),
            None => u64::from(new.len),
        }
    }

    // The bytes that are held under these shares' fingerprints, once they are put.
    pub(crate) fn held_lens(&self, news: &[New]) -> u64
        requires { length news.now ≤ 256 }
        ensures sum { result ≡ sum_by (held_len self.now.shares.places) news.now }
        ensures small { result < 2 ^ 40 + 1 }
    {
        let mut sum: u64 = 0;
        for new in news {
            sum += self.held_len(new);
        }
        sum
    }

    // The first of the user's rooms that a Put of so many shares, with so many bytes, would pass.
    pub(crate) fn room_for_put(
        &self,
        rooms: &UserRooms,
        user: UserId,
        count: u32,
        more: u64,
    ) -> Option<Full>
        requires { AreRooms rooms.now }
        ensures { option_map seen result ≡ full_put rooms.now user (memory_of self.now) count more }
    {
        let spent = self.spent.of(user);
        let put = u64::from(spent.owners);
        let need = u64::from(count);
        let most = owners_limit(rooms, user);
        let bytes = shares_limit(rooms, user);
        let own = self.shares.owned_by(user);
        let mine = u64::from(own);
        let all = self.shares.placed();
        let laid = u64::from(all);
        let slots = u64::from(rooms.users * rooms.owners);
        let owners = full_room(Room::Owners, put, need, most);
        let shares = full_room(Room::Shares, spent.shares, more, bytes);
        let owned = full_room(Room::Owners, mine, need, most);
        let placed = full_room(Room::Owners, laid, need, slots);
        let third = either(owned, placed);
        let second = either(shares, third);
        either(owners, second)
    }

    /// The first of the user's rooms that a Put of these shares would pass, of owners and shares, as `add_put` names it.
    /// None comes exactly where it would pass none.
    pub fn full_for_put(&self, rooms: &UserRooms, user: UserId, news: &[New]) -> Option<Full>
        requires few { length news.now ≤ 256 }
        requires allowed { AreRooms rooms.now }
        ensures { option_map seen result ≡ full_news rooms.now user (memory_of self.now) news.now }
    {
        let more = self.held_lens(news);
        let count = news.len() as u32;
        self.room_for_put(rooms, user, count, more)
    }

    // The room of files, where the user has as many entries as it may.
    fn room_for_entry(&self, rooms: &UserRooms, user: UserId) -> Option<Full>
        requires { HasRooms rooms.now self.now }
        ensures { option_map seen result ≡ full_files rooms.now user (memory_of self.now) }
    {
        let used = u64::from(self.files_of(user));
        let limit = entries_limit(rooms, user);
        if used == limit {
            Some(Full {
                room: Room::Files,
                used,
                need: 1,
                limit,
            })
        } else {
            None
        }
    }

    /// The first of the user's rooms that a Commit with a recipe of so many bytes would pass, of files and recipes, as
    /// `add_commit` names it. None comes exactly where it would pass none.
    pub fn full_for_commit(&self, rooms: &UserRooms, user: UserId, len: u32) -> Option<Full>
        requires allowed { AreRooms rooms.now }
        requires rooms { HasRooms rooms.now self.now }
        ensures { option_map seen result ≡ full_commit rooms.now user (memory_of self.now) len }
    {
        let spent = self.spent.of(user);
        let more = u64::from(len);
        let most = recipes_limit(rooms, user);
        let files = self.room_for_entry(rooms, user);
        let recipes = full_room(Room::Recipes, spent.recipes, more, most);
        either(files, recipes)
    }

    // The bytes of the share's part of a Put's record.
    fn part_len(&self, new: New) -> u32
        ensures len { result ≡ part_len (maps.get self.now.shares.places new.fp.0) new }
        ensures small { result ≤ 45 }
    {
        match self.shares.place_of(&new.fp) {
            Some(_) => 33,
            None => 45,
        }
    }

    /// The bytes of the body of a Put's record of these shares, which are new to the user, no two of them alike: 7, and 33
    /// for each share, and 12 more for each whose fingerprint has no place.
    pub fn put_len(&self, news: &[New]) -> u32
        requires few { length news.now ≤ 256 }
        ensures len { (user : UserId) → AreNewTo (memory_of self.now) user news.now
            → result ≡ length (body_bytes (bodies.Put user (parts_of user (memory_of self.now) news.now))) }
        ensures small { result ≤ 65535 }
    {
        let mut sum: u32 = 0;
        for new in news {
            sum += self.part_len(*new);
        }
        7 + sum
    }
}
