//! A memory whose blobs move: shares and recipes to other places, and what is dead out of it, with both ends and what was
//! spent set anew. Each call is one step, and leaves the slots of all else as they are.

ghost use Rattle.std.specs.Prelude.{◌≡◌, ◌<◌, ◌^◌, IsSome, Some};
ghost use Rattle.std.specs.FinMap as maps;
ghost use Rattle.file_index.specs.declared.key.Entry.{Entry};
ghost use Rattle.file_index.specs.Files.{key_of};
ghost use Rattle.cloud_areas.specs.JournalStart.rooms.UserRooms.{UserRooms};
ghost use Rattle.file_index.specs.PoolMap.Slots.{IsRewritten};
ghost use Rattle.share_index.specs.Emptied.{IsEmptied};
ghost use Rattle.cloud_memory.specs.Greatest.{KeepsGreatest};
ghost use Rattle.cloud_memory.specs.Moving.{with_place, without_place, lying_at, with_recipe_at, with_ends};
ghost use Rattle.cloud_memory.specs.Rooms.{memory_of, HasRooms};

use crate::CloudMemory;
use file_index::Entry;
use spent_table::{Fp, Place, Tag, UserId, Version};

impl CloudMemory {
    /// The share with the fingerprint, which has a place, lies at this one from now on. It stays in its slot, and the
    /// ends stay.
    pub fn move_share(&mut self, fp: &Fp, place: Place)
        requires placed { IsSome (maps.get self.old.shares.places fp.now.0) }
        ensures taken { memory_of self.new ≡ with_place fp.now place (memory_of self.old) }
        ensures moved { IsRewritten self.old.shares.place_slots self.new.shares.place_slots fp.now.0 place }
        ensures owner_slots { self.new.shares.owner_slots ≡ self.old.shares.owner_slots }
        ensures files { self.new.files ≡ self.old.files }
        ensures rooms { (rooms : UserRooms) → HasRooms rooms self.old → HasRooms rooms self.new }
        ensures greatest { KeepsGreatest self.old self.new }
    {
        self.shares.move_place(fp, place);
    }

    /// The share with the fingerprint, which has a place, lies nowhere from now on, whoever owns it. Its slot is
    /// emptied, and the ends stay.
    pub fn drop_share(&mut self, fp: &Fp)
        requires placed { IsSome (maps.get self.old.shares.places fp.now.0) }
        ensures taken { memory_of self.new ≡ without_place fp.now (memory_of self.old) }
        ensures emptied { IsEmptied self.old.shares.place_slots self.new.shares.place_slots fp.now.0 }
        ensures owner_slots { self.new.shares.owner_slots ≡ self.old.shares.owner_slots }
        ensures files { self.new.files ≡ self.old.files }
        ensures rooms { (rooms : UserRooms) → HasRooms rooms self.old → HasRooms rooms self.new }
        ensures greatest { KeepsGreatest self.old self.new }
    {
        self.shares.drop_place(fp);
    }

    /// The recipe of a version that the user has lies at this place from now on. The entry stays in its slot, with its
    /// length and its fingerprint, and the ends stay.
    pub fn move_recipe(&mut self, user: UserId, tag: &Tag, version: Version, at: u64)
        requires there { IsSome (maps.get self.old.files.files (key_of user.0 tag.now.0 version.0)) }
        ensures taken { memory_of self.new
            ≡ with_recipe_at (key_of user.0 tag.now.0 version.0) at (memory_of self.old) }
        ensures moved { (e : Entry) → maps.get self.old.files.files (key_of user.0 tag.now.0 version.0) ≡ Some e
            → IsRewritten self.old.files.slots self.new.files.slots (key_of user.0 tag.now.0 version.0)
            (lying_at at e) }
        ensures shares { self.new.shares ≡ self.old.shares }
        ensures rooms { (rooms : UserRooms) → HasRooms rooms self.old → HasRooms rooms self.new }
        ensures greatest { KeepsGreatest self.old self.new }
    {
        match self.files.get(user, tag, version) {
            Some(entry) => {
                let moved = Entry {
                    at,
                    len: entry.len,
                    fp: entry.fp,
                };
                self.files.move_entry(user, tag, version, moved);
            }
            None => unreachable!(),
        }
    }

    /// Shares and recipes end here from now on.
    pub fn set_ends(&mut self, shares: u64, recipes: u64)
        ensures taken { memory_of self.new ≡ with_ends shares recipes (memory_of self.old) }
        ensures shares { self.new.shares ≡ self.old.shares }
        ensures files { self.new.files ≡ self.old.files }
        ensures rooms { (rooms : UserRooms) → HasRooms rooms self.old → HasRooms rooms self.new }
        ensures greatest { KeepsGreatest self.old self.new }
    {
        self.shares_end = shares;
        self.recipes_end = recipes;
    }
}
