//! Which user keeps too much.

ghost use Rattle.std.specs.Prelude.{◌≡◌, ◌⊎◌, ◌<◌, ◌≤◌, ◌+◌, ℕ, List, length, nat_lt, option_map, None, Some, IfSome, if◌then◌else◌};
ghost use Rattle.std.specs.Option.{option_or};
ghost use Rattle.record_body.specs.CdBase.ids.UserId.{UserId as Number};
ghost use Rattle.record_body.specs.CdBase.shape.Shape.{Shape};
ghost use Rattle.compact_memories.specs.FileIndex.key.FileKey.{FileKey};
ghost use Rattle.compact_memories.specs.PoolMap.Accounts.{keys_of};
ghost use Rattle.compact_memories.specs.PoolMap.Slots.{IsListed};
ghost use Rattle.compact_memories.specs.ShareIndex.key.Owner.{Owner};
ghost use Rattle.compact_memories.specs.SpentTable.Spent.{Spent as Row};
ghost use Rattle.compact_memories.specs.UserDedup.Spending.{refusal};
ghost use Rattle.compact_memories.specs.UserDedup.command.Command.{Command};
ghost use Rattle.compact_memories.specs.UserDedup.Dedup.{IsSound};
ghost use Rattle.compact_memories.specs.CloudAreas.FormatOne.{passed_room};
ghost use Rattle.compact_memories.specs.CloudMemory.Memory.{Memory, Remembers, as_spent};
ghost use Rattle.compact_memories.specs.CloudMemory.Rooms.{memory_of};
ghost use Rattle.compact_memories.specs.Tables.{with_table};
ghost use Rattle.large_users.specs.Counting.{IsCountOf, recipes_in, IsSeen, IsUserFound, AreSeen, IfBelow, IsFirstFrom, AreNoneBelow};
ghost use Rattle.large_users.specs.Large.{full_of, passed_in, IsFirstPassed, IsFirstOf, IsFirstBy, IsCountedBy};
ghost use Rattle.large_users.specs.Large.{IsOwnerSized, IsEntrySized, OfEach, AreSized};

use compact_memories::{CloudMemory, FileIndex, ShareIndex, Spent, UserRooms};
use record_body::{Room, UserId};

/// A user that keeps more than it may, and its first room, of which it uses so much.
#[derive(Clone, Copy)]
pub struct TooLarge {
    pub user: UserId,
    pub room: Room,
    pub used: u64,
    pub limit: u64,
}

// A user's entries: how many there are, and the bytes of their recipes.
#[derive(Clone, Copy)]
struct Entries {
    count: u32,
    bytes: u64,
}

// The entries with that of a slot, if it is the user's.
fn with_slot(files: &FileIndex, user: UserId, so_far: Entries, slot: u32) -> Entries
    requires inside { slot < length files.now.slots }
    requires few { slot < 4294967295 }
    requires so_far { IsCountOf user.0 files.now.slots slot so_far }
    ensures { IsCountOf user.0 files.now.slots (slot + 1) result }
{
    match files.entry_at(slot) {
        Some((owner, _, _, entry)) => {
            if owner.0 == user.0 {
                Entries {
                    count: so_far.count + 1,
                    bytes: so_far.bytes + u64::from(entry.len),
                }
            } else {
                so_far
            }
        }
        None => so_far,
    }
}

// The user's entries.
fn entries_of(files: &FileIndex, user: UserId) -> Entries
    ensures count { result.count ≡ keys_of (λ k. k.user) files.now.files user.0 }
    ensures bytes { result.bytes ≡ recipes_in files.now.files user.0 }
{
    let _ = files.entry_at(0);
    let mut entries = Entries { count: 0, bytes: 0 };
    for slot in 0..files.slots() {
        entries = with_slot(files, user, entries, slot);
    }
    entries
}

// So much where a user's number is below that of the users, and else nothing.
fn limit_for(rooms: &UserRooms, user: UserId, each: u64) -> u64
    ensures { result ≡ (if nat_lt user.0 rooms.now.users then each else 0) }
{
    if user.0 < rooms.users { each } else { 0 }
}

// The room, where so much of it is more than the limit.
fn passed(user: UserId, room: Room, used: u64, limit: u64) -> Option<TooLarge>
    ensures full { option_map full_of result ≡ refusal room used 0 limit }
    ensures user { IfSome result (λ large. large.user ≡ user) }
{
    if limit < used {
        Some(TooLarge {
            user,
            room,
            used,
            limit,
        })
    } else {
        None
    }
}

// The first of two rooms that are passed.
fn first_of(first: Option<TooLarge>, second: Option<TooLarge>) -> Option<TooLarge>
    ensures full { option_map full_of result ≡ option_or (option_map full_of first) (option_map full_of second) }
    ensures user { (user : Number) → IfSome first (λ large. large.user ≡ user)
        → IfSome second (λ large. large.user ≡ user) → IfSome result (λ large. large.user ≡ user) }
{
    match first {
        Some(large) => Some(large),
        None => second,
    }
}

// The first room of a user that is passed by what it has spent, and by this number of files.
fn passed_by(rooms: &UserRooms, user: UserId, used: &Spent, files: u32) -> Option<TooLarge>
    ensures full { option_map full_of result ≡ passed_room rooms.now user (as_spent used.now) files }
    ensures user { IfSome result (λ large. large.user ≡ user) }
{
    let most_owners = limit_for(rooms, user, u64::from(rooms.owners));
    let most_shares = limit_for(rooms, user, rooms.shares);
    let most_recipes = limit_for(rooms, user, rooms.recipes);
    let most_files = limit_for(rooms, user, u64::from(rooms.files));
    let owners = passed(user, Room::Owners, u64::from(used.owners), most_owners);
    let shares = passed(user, Room::Shares, used.shares, most_shares);
    let recipes = passed(user, Room::Recipes, used.recipes, most_recipes);
    let files = passed(user, Room::Files, u64::from(files), most_files);
    let last = first_of(recipes, files);
    let behind = first_of(shares, last);
    first_of(owners, behind)
}

// The first room that a user passes. By the table of the memory it has spent the bytes of shares that it keeps.
fn too_large(memory: &CloudMemory, rooms: &UserRooms, user: UserId) -> Option<TooLarge>
    ensures full { (m : Memory) (users : ℕ) → IsCountedBy users m (memory_of memory.now) → rooms.now.users ≤ users
        → option_map full_of result ≡ passed_in rooms.now m user }
    ensures user { IfSome result (λ large. large.user ≡ user) }
{
    let entries = entries_of(memory.files(), user);
    let used = Spent {
        owners: memory.shares().owned_by(user),
        shares: memory.spent(user).shares,
        recipes: entries.bytes,
    };
    passed_by(rooms, user, &used, entries.count)
}

// The lesser of two users, of which the second is one alone where it isn't below this number.
fn lesser(least: Option<u32>, from: u32, user: u32) -> Option<u32>
    ensures seen { IsSeen from result user }
    ensures still { (other : ℕ) → IsSeen from least other → IsSeen from result other }
    ensures which { (result ≡ least) ⊎ ((result ≡ Some user) × (from ≤ user)) }
{
    if user < from {
        return least;
    }
    match least {
        Some(other) => Some(other.min(user)),
        None => Some(user),
    }
}

// The lesser of a user and of that in a slot of owners.
fn with_owner(shares: &ShareIndex, from: u32, least: Option<u32>, slot: u32) -> Option<u32>
    requires seen { AreSeen (λ (k : Owner). k.user) from shares.now.owner_slots slot least }
    requires found { IsUserFound (λ (k : Owner). k.user) from shares.now.owner_slots least }
    requires sized { OfEach IsOwnerSized shares.now.owner_slots slot }
    requires few { slot < 4294967295 }
    ensures seen { AreSeen (λ (k : Owner). k.user) from shares.now.owner_slots (slot + 1) result }
    ensures found { IsUserFound (λ (k : Owner). k.user) from shares.now.owner_slots result }
    ensures sized { OfEach IsOwnerSized shares.now.owner_slots (slot + 1) }
{
    match shares.owner_at(slot) {
        Some((user, _)) => lesser(least, from, user.0),
        None => least,
    }
}

// The least user from this number on that owns something.
fn least_owner(shares: &ShareIndex, from: u32) -> Option<u32>
    ensures seen { AreSeen (λ (k : Owner). k.user) from shares.now.owner_slots (length shares.now.owner_slots) result }
    ensures found { IsUserFound (λ (k : Owner). k.user) from shares.now.owner_slots result }
    ensures sized { OfEach IsOwnerSized shares.now.owner_slots (length shares.now.owner_slots) }
    ensures each { IsListed shares.now.owners shares.now.owner_slots }
{
    let _ = shares.owner_at(0);
    let mut least = None;
    for slot in 0..shares.owner_slots() {
        least = with_owner(shares, from, least, slot);
    }
    least
}

// The lesser of a user and of that in a slot of entries.
fn with_entry(files: &FileIndex, from: u32, least: Option<u32>, slot: u32) -> Option<u32>
    requires seen { AreSeen (λ (k : FileKey). k.user) from files.now.slots slot least }
    requires found { IsUserFound (λ (k : FileKey). k.user) from files.now.slots least }
    requires sized { OfEach IsEntrySized files.now.slots slot }
    requires few { slot < 4294967295 }
    ensures seen { AreSeen (λ (k : FileKey). k.user) from files.now.slots (slot + 1) result }
    ensures found { IsUserFound (λ (k : FileKey). k.user) from files.now.slots result }
    ensures sized { OfEach IsEntrySized files.now.slots (slot + 1) }
{
    match files.entry_at(slot) {
        Some((user, _, _, _)) => lesser(least, from, user.0),
        None => least,
    }
}

// The least user from this number on that has an entry.
fn least_with(files: &FileIndex, from: u32) -> Option<u32>
    ensures seen { AreSeen (λ (k : FileKey). k.user) from files.now.slots (length files.now.slots) result }
    ensures found { IsUserFound (λ (k : FileKey). k.user) from files.now.slots result }
    ensures sized { OfEach IsEntrySized files.now.slots (length files.now.slots) }
    ensures each { IsListed files.now.files files.now.slots }
{
    let _ = files.entry_at(0);
    let mut least = None;
    for slot in 0..files.slots() {
        least = with_entry(files, from, least, slot);
    }
    least
}

// The lesser of two users, where there are both.
fn least_of(one: Option<u32>, two: Option<u32>) -> Option<u32>
    ensures seen { (from other : ℕ) → (IsSeen from one other → IsSeen from result other)
        × (IsSeen from two other → IsSeen from result other) }
    ensures which { (result ≡ one) ⊎ (result ≡ two) }
{
    match (one, two) {
        (Some(first), Some(second)) => Some(first.min(second)),
        (Some(first), None) => Some(first),
        (None, second) => second,
    }
}

// The least user from this number on that owns or has anything, if it is below it by nothing else.
fn least_other(memory: &CloudMemory, from: u32) -> Option<u32>
    ensures seen { (m : Memory) (users : ℕ) → IsCountedBy users m (memory_of memory.now)
        → (user : ℕ) → from ≤ user → IfBelow result user
        → (keys_of (λ k. k.user) m.owners user ≡ 0) × (keys_of (λ k. k.user) m.files user ≡ 0) }
    ensures found { (m : Memory) (users : ℕ) → IsCountedBy users m (memory_of memory.now)
        → IfSome result (λ user. (from ≤ user) × ((1 ≤ keys_of (λ k. k.user) m.owners user)
        ⊎ (1 ≤ keys_of (λ k. k.user) m.files user))) }
    ensures sized { AreSized memory.now }
{
    let _ = memory.shares().place_at(0);
    let owner = least_owner(memory.shares(), from);
    let other = least_with(memory.files(), from);
    least_of(owner, other)
}

// The least user from the number of users on that keeps anything, and its first room: it may have nothing.
fn first_other(memory: &CloudMemory, rooms: &UserRooms) -> Option<TooLarge>
    ensures first { (m : Memory) (users : ℕ) → IsCountedBy users m (memory_of memory.now) → rooms.now.users ≤ users
        → IsFirstFrom rooms.now.users rooms.now m result }
    ensures sized { AreSized memory.now }
{
    match least_other(memory, rooms.users) {
        Some(user) => too_large(memory, rooms, UserId(user)),
        None => None,
    }
}

// The first of the users that keeps more than it may, and its first room.
fn first_user(memory: &CloudMemory, rooms: &UserRooms) -> Option<TooLarge>
    ensures none { (m : Memory) (users : ℕ) → IsCountedBy users m (memory_of memory.now) → rooms.now.users ≤ users
        → result ≡ None → AreNoneBelow rooms.now.users rooms.now m }
    ensures first { (m : Memory) (users : ℕ) → IsCountedBy users m (memory_of memory.now) → rooms.now.users ≤ users
        → IfSome result (λ large. IsFirstPassed rooms.now m large.user (full_of large)) }
{
    for user in 0..rooms.users {
        match too_large(memory, rooms, UserId(user)) {
            Some(large) => return Some(large),
            None => {}
        }
    }
    None
}

/// The least user that keeps more than it may, and its first room, in the order owners, shares, recipes, files. A user
/// whose number isn't below that of the users may have nothing. The table of the memory says what those users keep that
/// have a row. It goes over the slots of owners once, and over those of entries once for each user; it takes no memory.
pub fn first_too_large(memory: &CloudMemory, rooms: &UserRooms) -> Option<TooLarge>
    // by what any memory keeps that the table counts
    ensures first { (m : Memory) (users : ℕ) → IsCountedBy users m (memory_of memory.now) → rooms.now.users ≤ users
        → IsFirstOf rooms.now m result }
    // by the list of that memory
    ensures by_list { (m : Memory) (users : ℕ) (shape : Shape) (cloud : ℕ) (list : List Command) (table : List Row)
        → IsCountedBy users m (memory_of memory.now) → rooms.now.users ≤ users
        → IsSound shape cloud list → Remembers shape list (with_table table m)
        → IsFirstBy shape rooms.now list result }
    // where none does, all slots were seen
    ensures sized { result ≡ None → AreSized memory.now }
{
    match first_user(memory, rooms) {
        Some(large) => Some(large),
        None => first_other(memory, rooms),
    }
}
