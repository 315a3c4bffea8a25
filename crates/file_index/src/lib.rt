//! Where a cloud keeps the recipe of each version of each user's files.
//!
//! An index takes all its memory when it is made. From then on `put` answers by the room alone.
#![tactic(auto)]

ghost use Rattle.std.specs.Prelude.{ℕ, ◌≡◌, ◌≤◌, ◌<◌, ◌*◌, ◌^◌, ◌↔◌, IfOk, IfErr, OnOk, OnErr, IsErr, IsSome};
ghost use Rattle.std.specs.Prelude.{MatchOption, None, option_map, length};
ghost use Rattle.std.specs.FinMap as map;
ghost use Rattle.cd_base.specs.Limits.{greatest_rooms};
ghost use Rattle.pool_map.specs.declared.accounts.Accounts.TheVariants.{Shared, PerUser};
ghost use Rattle.pool_map.specs.declared.accounts.IndexErr.TheVariants.{Full};
ghost use Rattle.pool_map.specs.Accounts.{IsKnown, limit_for, slots_of};
ghost use Rattle.pool_map.specs.Slots.{slot_of, IsListed, IsRewritten};
ghost use Rattle.file_index.specs.Files.{key_of, used_by, IsNext, HasNoNext, entry_with};
ghost use Rattle.file_index.specs.Kept.{IsLeastFrom, HasNoneFrom, HasTags, IsKeyFound};

mod key;

use cd_base::NoMemory;
pub use cd_base::{Fp, Tag, UserId, Version};
pub use key::{Entry, FileKey};
use pool_map::TableFull;
pub use pool_map::{Accounts, HashTable, IndexErr, Key, Pool, PoolFull, Slot, SortedTable, Table};
use std::alloc::Global;
use std::marker::Model;

// The limit of each account.
fn limit_in(accounts: Accounts) -> u32
    ensures { (user : ℕ) → IsKnown accounts user → result ≡ limit_for accounts user }
{
    match accounts {
        Accounts::Shared(limit) => limit,
        Accounts::PerUser(_, limit) => limit,
    }
}

/// The files of a cloud: from a user, a tag and a version to the place of a recipe. Contracts see the finite map, in the order
/// of users, tags and versions, what stands in each slot, and the accounts that limit it.
#[derive(Drop)]
pub struct FileIndex {
    table: SortedTable<FileKey, Entry>,
    accounts: Accounts,
}

impl Model for FileIndex {
    ghost use Rattle.file_index.specs.Files.{Files};
    ghost use Rattle.file_index.specs.Coded.{files_code};

    ghost Value = { Files };

    ghost coded = { files_code };

    ghost use Rattle.file_index.specs.Kept.{files_of, IsKept};

    ghost view = { λ f. files_of f.table f.accounts };

    ghost invariant = { λ f. IsKept f.table f.accounts };
}

impl FileIndex {
    /// An index without files, for so many, whoever has them. It takes all its memory here.
    pub fn make(alloc: Global, files: u32) -> Result<FileIndex, NoMemory>
        ensures empty { IfOk result (λ index. index.files ≡ map.empty) }
        ensures accounts { IfOk result (λ index. index.accounts ≡ Shared files) }
        ensures slots { IfOk result (λ index. length index.slots ≡ files) }
    {
        FileIndex::with(alloc, Accounts::Shared(files))
    }

    /// An index without files, for so many of each user below the number of users. It takes all its memory here.
    pub fn for_users(alloc: Global, users: u32, files: u32) -> Result<FileIndex, NoMemory>
        requires { users * files ≤ greatest_rooms.files }
        ensures empty { IfOk result (λ index. index.files ≡ map.empty) }
        ensures accounts { IfOk result (λ index. index.accounts ≡ PerUser users files) }
        ensures slots { IfOk result (λ index. length index.slots ≡ users * files) }
    {
        FileIndex::with(alloc, Accounts::PerUser(users, files))
    }

    // An index without files under these accounts.
    fn with(alloc: Global, accounts: Accounts) -> Result<FileIndex, NoMemory>
        requires { slots_of accounts < 2 ^ 32 }
        ensures empty { IfOk result (λ index. index.files ≡ map.empty) }
        ensures accounts { IfOk result (λ index. index.accounts ≡ accounts) }
        ensures slots { IfOk result (λ index. length index.slots ≡ slots_of accounts) }
    {
        let limits = accounts.limits(alloc)?;
        let table = SortedTable::make(alloc, accounts.slots(), &limits)?;
        Ok(FileIndex { table, accounts })
    }

    // The least key from this one on.
    fn first_from(&self, key: FileKey) -> Option<FileKey>
        ensures least { MatchOption result (HasNoneFrom self.now.files key) (IsLeastFrom self.now.files key) }
        ensures tags { HasTags self.now.files }
    {
        if self.table.get(&key).is_some() {
            Some(key)
        } else {
            self.table.above(&key).copied()
        }
    }

    /// The entry of a version of a file, if the user has it.
    pub fn get(&self, user: UserId, tag: &Tag, version: Version) -> Option<Entry>
        ensures { result ≡ map.get self.now.files (key_of user.0 tag.now.0 version.0) }
    {
        self.table.get(&FileKey::of(user, tag, version)).copied()
    }

    /// Adds the entry of a version that the user doesn't have. `Full` comes exactly where the account that the user's files
    /// are charged to is used up to its limit, and the index is then as before.
    pub fn put(
        &mut self,
        user: UserId,
        tag: Tag,
        version: Version,
        entry: Entry,
    ) -> Result<(), IndexErr>
        requires { map.get self.old.files (key_of user.0 tag.0 version.0) ≡ None }
        ensures ok { OnOk result (self.new.files ≡ map.insert self.old.files (key_of user.0 tag.0 version.0) entry) }
        ensures accounts { self.new.accounts ≡ self.old.accounts }
        ensures slots { length self.new.slots ≡ length self.old.slots }
        ensures refuses { IsErr result ↔ used_by self.old user.0 ≡ limit_for self.old.accounts user.0 }
        ensures err { OnErr result (self.new ≡ self.old) }
        ensures full { IfErr result (λ error. error
            ≡ Full (used_by self.old user.0) (limit_for self.old.accounts user.0)) }
    {
        match self.accounts.account_of(user.0) {
            Some(account) => {
                match self
                    .table
                    .insert(account, FileKey::of(user, &tag, version), entry)
                {
                    Ok(()) => Ok(()),
                    Err(TableFull { used, limit }) => Err(IndexErr::Full { used, limit }),
                }
            }
            None => Err(IndexErr::Full { used: 0, limit: 0 }),
        }
    }

    /// Puts another entry at a version that the user has. It stays in its slot.
    pub fn move_entry(&mut self, user: UserId, tag: &Tag, version: Version, entry: Entry)
        requires { IsSome (map.get self.old.files (key_of user.0 tag.now.0 version.0)) }
        ensures files { self.new.files ≡ map.insert self.old.files (key_of user.0 tag.now.0 version.0) entry }
        ensures moved { IsRewritten self.old.slots self.new.slots (key_of user.0 tag.now.0 version.0) entry }
        ensures slots { length self.new.slots ≡ length self.old.slots }
        ensures accounts { self.new.accounts ≡ self.old.accounts }
    {
        self.table.replace(&FileKey::of(user, tag, version), entry);
    }

    // The least key above the last one, or from the user's least one on.
    fn key_after(&self, user: UserId, last: Option<(Tag, Version)>) -> Option<FileKey>
        ensures { MatchOption result (HasNoNext self.now.files user.0 last) (IsKeyFound self.now.files user.0 last) }
    {
        match last {
            Some((tag, version)) => self.table.above(&FileKey::of(user, &tag, version)).copied(),
            None => self.first_from(FileKey::least_of(user)),
        }
    }

    /// The user's least tag and version above the last ones, or the least of all, if there is one.
    pub fn after(&self, user: UserId, last: Option<(Tag, Version)>) -> Option<(Tag, Version)>
        ensures { MatchOption result (HasNoNext self.now.files user.0 last)
            (λ next. IsNext self.now.files user.0 last next) }
    {
        let found = self.key_after(user, last)?;
        if found.user == user.0 {
            Some((Tag(found.tag), Version(found.version)))
        } else {
            None
        }
    }

    /// The number of files.
    pub fn len(&self) -> u32
        ensures { result ≡ map.len self.now.files }
    {
        self.table.len()
    }

    /// How many files count against the user's limit: all of them where all users share one account, and else the user's
    /// own. It is kept, and not counted anew.
    pub fn used_by(&self, user: UserId) -> u32
        ensures { result ≡ used_by self.now user.0 }
    {
        let charged = self.accounts.account_of(user.0);
        match charged {
            Some(account) => limit_in(self.accounts) - self.table.spare(account),
            None => 0,
        }
    }

    /// The number of slots, which are numbered from 0, with an entry or without.
    pub fn slots(&self) -> u32
        ensures { result ≡ length self.now.slots }
    {
        self.table.slots()
    }

    /// The entry in a slot, if there is one: a slot past the last has none. Each entry of the map stands in just one slot.
    pub fn entry_at(&self, slot: u32) -> Option<(UserId, Tag, Version, Entry)>
        ensures entry { option_map entry_with result ≡ slot_of self.now.slots slot }
        ensures each { IsListed self.now.files self.now.slots }
    {
        match self.table.at(slot) {
            Some((key, entry)) => Some((
                UserId(key.user),
                Tag(key.tag),
                Version(key.version),
                *entry,
            )),
            None => None,
        }
    }

    /// Takes a version out, if the user has it, and gives back its entry.
    pub fn remove(&mut self, user: UserId, tag: &Tag, version: Version) -> Option<Entry>
        ensures entry { result ≡ map.get self.old.files (key_of user.0 tag.now.0 version.0) }
        ensures removed { self.new.files ≡ map.remove self.old.files (key_of user.0 tag.now.0 version.0) }
        ensures accounts { self.new.accounts ≡ self.old.accounts }
        ensures slots { length self.new.slots ≡ length self.old.slots }
    {
        self.table.remove(&FileKey::of(user, tag, version))
    }

    /// Takes each file out. The room stays.
    pub fn clear(&mut self)
        ensures empty { self.new.files ≡ map.empty }
        ensures accounts { self.new.accounts ≡ self.old.accounts }
        ensures slots { length self.new.slots ≡ length self.old.slots }
    {
        self.table.clear();
    }
}
