//! A store over a cloud in memory, and commands that are added to it.

ghost use Rattle.std.specs.Prelude.{◌≡◌, ◌≤◌, IfOk, vec_len};
ghost use Rattle.cd_base.specs.Limits.{recipe_limit};
ghost use Rattle.journal_start.specs.Ranges.{IsHeader};
ghost use Rattle.cloud_store.specs.Store.{IsSettled};

use cd_base::{CloudNo, Fp, NoMemory, Shape, Tag, UserId, Version, sha256};
use cd_fakes::MemShelf;
use cloud_store::{CloudStore, New};
use journal_start::{Header, UserRooms};
use recipe::RecipeView;
use std::alloc::Global;

pub(crate) const ZERO: CloudNo = CloudNo(0);

pub(crate) const USER: UserId = UserId(0);

pub(crate) const TAG: Tag = Tag([5; 32]);

/// Cloud 0 of four of which three give a file back, with the room of one user for two shares and two files: a half takes 12,007
/// bytes.
pub(crate) fn header() -> Header
    ensures header { IsHeader result }
    ensures format { result.format ≡ 2 }
{
    Header {
        format: 2,
        shape: Shape { n: 4, k: 3 },
        cloud: ZERO,
        rooms: UserRooms {
            users: 1,
            shares: 1000,
            recipes: 10_000_000,
            owners: 2,
            files: 2,
        },
    }
}

/// A share of 11 bytes.
pub(crate) fn share(byte: u8) -> [u8; 11] {
    [byte; 11]
}

/// The recipe of a file of 2,049 bytes, which names both shares, this one first.
pub(crate) fn recipe(first: u8) -> [u8; 97] {
    let mut bytes = [0; 97];
    bytes[1] = 1;
    bytes[19] = 8;
    bytes[20] = 1;
    bytes[24] = 2;
    let Fp(fp) = sha256(&share(first));
    bytes[25..57].copy_from_slice(&fp);
    bytes[59] = 8;
    let Fp(fp) = sha256(&share(3u8.wrapping_sub(first)));
    bytes[61..93].copy_from_slice(&fp);
    bytes[96] = 1;
    bytes
}

/// A command: a Put of share 1 or 2, a Commit of a version whose recipe names both, this one first, or a Delete of that version.
#[derive(Clone, Copy, Debug, PartialEq, Eq)]
pub(crate) enum Step {
    Put(u8),
    Commit(u64, u8),
    Delete(u64, u8),
}

// Puts a share that the user doesn't own. Says whether it did.
fn put(store: &mut CloudStore, shelf: &mut MemShelf, byte: u8) -> bool
    requires { IsSettled store.old }
    ensures { IsSettled store.new }
{
    let bytes = share(byte);
    let fp = sha256(&bytes);
    if !store.is_open() || store.memory.owns(USER, &fp) {
        return false;
    }
    if store.memory.place_of(&fp).is_none() {
        if !store.disk.has_room_for_share(11) {
            return false;
        }
        if store.stage_share(&bytes).is_err() {
            return false;
        }
    }
    store.add_put(shelf, USER, &[New { fp, len: 11 }]).is_ok()
}

// Commits a version that the user doesn't have. Says whether it did.
fn commit(store: &mut CloudStore, shelf: &mut MemShelf, version: Version, byte: u8) -> bool
    requires { IsSettled store.old }
    ensures { IsSettled store.new }
{
    let bytes = recipe(byte);
    let Ok(view) = RecipeView::check(store.header.shape, &bytes) else {
        return false;
    };
    if !store.is_open() || store.memory.entry(USER, &TAG, version).is_some() {
        return false;
    }
    if !store.memory.owns_all(USER, &view) || !store.disk.has_room_for_recipe(97) {
        return false;
    }
    if store.stage_recipe(&bytes).is_err() {
        return false;
    }
    store
        .add_commit(shelf, USER, TAG, version, sha256(&bytes), 97, &view)
        .is_ok()
}

// Deletes a version that the user has. Says whether it did.
fn delete(store: &mut CloudStore, shelf: &mut MemShelf, version: Version, byte: u8) -> bool
    requires { IsSettled store.old }
    ensures { IsSettled store.new }
{
    if !store.is_open() || store.memory.entry(USER, &TAG, version).is_none() {
        return false;
    }
    store
        .add_delete(shelf, USER, TAG, version, &recipe(byte))
        .is_ok()
}

// Adds a command. Says whether it did.
fn play(store: &mut CloudStore, shelf: &mut MemShelf, step: Step) -> bool
    requires { IsSettled store.old }
    ensures { IsSettled store.new }
{
    match step {
        Step::Put(byte) => put(store, shelf, byte),
        Step::Commit(version, byte) => commit(store, shelf, Version(version), byte),
        Step::Delete(version, byte) => delete(store, shelf, Version(version), byte),
    }
}

/// A store, and the buffer that its openings need.
#[derive(Drop)]
pub(crate) struct Ground {
    pub store: CloudStore,
    pub buffer: Vec<u8>,
    ghost long: { recipe_limit ≤ vec_len buffer },
}

impl Ground {
    /// A store that isn't open.
    pub(crate) fn make(alloc: Global) -> Result<Ground, NoMemory>
        ensures { IfOk result (λ ground. IsSettled ground.store) }
    {
        Ok(Ground {
            buffer: vec![in alloc; 0u8; 1_180_190]?,
            store: CloudStore::make(alloc, header())?,
        })
    }

    /// Opens the cloud, or begins it, and gives its number of commands.
    pub(crate) fn open(&mut self, shelf: &mut MemShelf) -> Option<u64>
        requires { IsSettled self.old.store }
        ensures { IsSettled self.new.store }
    {
        self.store.open(shelf, true, &mut self.buffer).ok()
    }

    /// Adds a command. Says whether it did.
    pub(crate) fn play(&mut self, shelf: &mut MemShelf, step: Step) -> bool
        requires { IsSettled self.old.store }
        ensures { IsSettled self.new.store }
    {
        play(&mut self.store, shelf, step)
    }
}
