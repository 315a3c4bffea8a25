//! What each user keeps, in rows, by the slots of a memory.

ghost use Rattle.std.specs.Prelude.{◌≡◌, ◌<◌, ◌+◌, ◌^◌, length, replicate, slice_set};
ghost use Rattle.std.specs.FinMap as maps;
ghost use Rattle.compact_lists.specs.CdBase.ids.UserId.{UserId};
ghost use Rattle.checkpoints.specs.FileIndex.Files.{Files};
ghost use Rattle.checkpoints.specs.PoolMap.Slots.{IsListed};
ghost use Rattle.checkpoints.specs.ShareIndex.Shares.{Shares};
ghost use Rattle.checkpoints.specs.SpentTable.Spending.{nothing, spent_by, both, of_shares, of_recipe};
ghost use Rattle.checkpoints.specs.CloudMemory.Memory.{as_spent};
ghost use Rattle.checkpoints.specs.CloudMemory.Rooms.{memory_of};
ghost use Rattle.checkpoints.specs.CloudMemory.Steps.{placed_len};
ghost use Rattle.compact_memories.specs.Kept.{kept_in};
ghost use Rattle.compact_memories.specs.Passes.{AreRowsSmall, OwnedSoFar, KeptSoFar, row_of};

use checkpoints::{CloudMemory, FileIndex, ShareIndex, Spent};
use compact_lists::Fp;

// The bytes under a fingerprint, or none where it has no place.
fn placed_len(shares: &ShareIndex, fp: &Fp) -> u32
    ensures len { result ≡ placed_len (maps.get shares.now.places fp.now.0) }
    ensures small { result < 4294967296 }
{
    match shares.place_of(fp) {
        Some(place) => place.len,
        None => 0,
    }
}

// The user owns one more, with so many bytes, where it has a row.
fn add_share(rows: &mut [Spent], user: u32, bytes: u32)
    requires owners { (row_of rows.old user).owners < 4294967295 }
    requires shares { (row_of rows.old user).shares + bytes < 2 ^ 64 }
    ensures { rows.new ≡ slice_set rows.old user (both (row_of rows.old user) (of_shares 1 bytes)) }
{
    let place = user as usize;
    if place < rows.len() {
        let row = rows[place];
        rows[place] = Spent {
            owners: row.owners + 1,
            shares: row.shares + u64::from(bytes),
            recipes: row.recipes,
        };
    }
}

// The user has so many bytes of a recipe more, where it has a row.
fn add_recipe(rows: &mut [Spent], user: u32, bytes: u32)
    requires { (row_of rows.old user).recipes + bytes < 2 ^ 64 }
    ensures { rows.new ≡ slice_set rows.old user (both (row_of rows.old user) (of_recipe bytes)) }
{
    let place = user as usize;
    if place < rows.len() {
        let row = rows[place];
        rows[place] = Spent {
            owners: row.owners,
            shares: row.shares,
            recipes: row.recipes + u64::from(bytes),
        };
    }
}

// Adds what a slot of owners has.
fn add_owned(shares: &ShareIndex, rows: &mut [Spent], slot: u32)
    requires inside { slot < length shares.now.owner_slots }
    requires few { slot < 4294967295 }
    requires so_far { OwnedSoFar shares.now rows.old slot }
    ensures so_far { OwnedSoFar shares.now rows.new (slot + 1) }
    ensures users { length rows.new ≡ length rows.old }
{
    match shares.owner_at(slot) {
        Some((user, fp)) => {
            let bytes = placed_len(shares, &fp);
            add_share(rows, user.0, bytes);
        }
        None => {}
    }
}

// Adds what a slot of entries has.
fn add_entry(files: &FileIndex, rows: &mut [Spent], slot: u32)
    requires inside { slot < length files.now.slots }
    requires small { AreRowsSmall rows.old slot }
    ensures small { AreRowsSmall rows.new (slot + 1) }
    ensures so_far { (shares : Shares) → KeptSoFar shares files.now rows.old slot
        → KeptSoFar shares files.now rows.new (slot + 1) }
    ensures users { length rows.new ≡ length rows.old }
{
    match files.entry_at(slot) {
        Some((user, _, _, entry)) => add_recipe(rows, user.0, entry.len),
        None => {}
    }
}

// Each row says that nothing is kept.
fn wipe(rows: &mut [Spent])
    ensures { rows.new ≡ replicate (length rows.old) nothing }
{
    rows.fill(Spent::none());
}

// What each user owns, in place of what the rows had.
fn add_all_owned(shares: &ShareIndex, rows: &mut [Spent])
    ensures kept { (files : Files) → KeptSoFar shares.now files rows.new 0 }
    ensures small { AreRowsSmall rows.new 0 }
    ensures users { length rows.new ≡ length rows.old }
{
    wipe(rows);
    for slot in 0..shares.owner_slots() {
        add_owned(shares, rows, slot);
    }
}

// And the recipes of its entries.
fn add_all_entries(files: &FileIndex, rows: &mut [Spent])
    requires small { AreRowsSmall rows.old 0 }
    ensures kept { (shares : Shares) → KeptSoFar shares files.now rows.old 0
        → KeptSoFar shares files.now rows.new (length files.now.slots) }
    ensures users { length rows.new ≡ length rows.old }
{
    for slot in 0..files.slots() {
        add_entry(files, rows, slot);
    }
}

// Says in the rows what each user keeps.
fn fill_rows_of(shares: &ShareIndex, files: &FileIndex, rows: &mut [Spent])
    ensures kept { KeptSoFar shares.now files.now rows.new (length files.now.slots) }
    ensures owners { IsListed shares.now.owners shares.now.owner_slots }
    ensures entries { IsListed files.now.files files.now.slots }
    ensures users { length rows.new ≡ length rows.old }
{
    add_all_owned(shares, rows);
    add_all_entries(files, rows);
    let _ = shares.owner_at(0);
    let _ = files.entry_at(0);
}

// Says in the rows what each user keeps.
pub(crate) fn fill_rows(memory: &CloudMemory, rows: &mut [Spent])
    ensures kept { (user : UserId) → user.0 < length rows.new
        → as_spent (spent_by rows.new user) ≡ kept_in (memory_of memory.now) user }
    ensures users { length rows.new ≡ length rows.old }
{
    fill_rows_of(memory.shares(), memory.files(), rows);
}
