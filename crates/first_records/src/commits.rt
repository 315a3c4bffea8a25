//! The records of a Commit and of a Delete.

ghost use Rattle.std.specs.Prelude.{◌≡◌, ◌<◌, ◌+◌, ◌^◌, List, length, None, IfErr, OnOk};
ghost use Rattle.record_checks.specs.RecordBody.Spelling.{Commit, Delete};
ghost use Rattle.record_checks.specs.UserDedup.Owning.{fps_in};
ghost use Rattle.record_checks.specs.CloudMemory.Rooms.{memory_of};
ghost use Rattle.record_checks.specs.CloudMemory.Sharing.{AreOwned};
ghost use Rattle.record_checks.specs.CloudMemory.Steps.{with_entry};
ghost use Rattle.record_checks.specs.Checks.{commit_entry};
ghost use Rattle.first_records.specs.Limits.{HasFirstRooms, crowded};
ghost use Rattle.first_records.specs.Steps.{FirstJudgedAs, IsFaultWithin};

use crate::Ground;
use crate::errors::Fault;
use crate::limits::{if_past, recipes_within};
use message_fields::Room;
use record_checks::{CloudMemory, CommitBody, DeleteBody, RecipeView, commit_fault, named, whole};

// Where fields stand in the body: the tag, and the fingerprint of a Commit's recipe.
const TAG: usize = 5;

const RECIPE: usize = 57;

// The room that one entry more would pass.
fn crowded_by(memory: &CloudMemory, commit: &CommitBody) -> Option<Room>
    ensures { result ≡ crowded (memory_of memory.now) (Commit commit.now) }
{
    let entries = u64::from(memory.files().len()) + 1;
    if_past(Room::Files, entries)
}

// Enters a version for which there is room.
fn enter(memory: &mut CloudMemory, commit: &CommitBody, recipe: &RecipeView<'_>)
    requires rooms { HasFirstRooms memory.old }
    requires room { crowded (memory_of memory.old) (Commit commit.now) ≡ None }
    requires new { commit_entry (memory_of memory.old) commit.now ≡ None }
    requires end { commit.now.at + commit.now.len < 2 ^ 64 }
    requires owned { AreOwned memory.old.shares.owners commit.now.user (fps_in recipe.now.items) }
    ensures taken { memory_of memory.new ≡ with_entry (fps_in recipe.now.items) commit.now (memory_of memory.old) }
    ensures rooms { HasFirstRooms memory.new }
{
    match memory.take_entry(commit, recipe) {
        Ok(()) => {}
        Err(_) => unreachable!(),
    }
}

/// Takes the record of a Commit, or says what of it fails. `read` is what lies where its recipe does.
pub(crate) fn take_commit(
    memory: &mut CloudMemory,
    ground: &Ground,
    inside: bool,
    commit: &CommitBody,
    read: &[u8],
) -> Result<(), Fault>
    requires rooms { HasFirstRooms memory.old }
    requires read { length read.now < 2 ^ 32 }
    ensures judged { FirstJudgedAs ground.now inside read.now (memory_of memory.old) (Commit commit.now) result
        (memory_of memory.new) }
    ensures within { IfErr result (IsFaultWithin 89) }
    ensures rooms { HasFirstRooms memory.new }
{
    match crowded_by(memory, commit) {
        Some(room) => return Err(Fault::Passes(room)),
        None => {}
    }
    match commit_fault(memory, ground, inside, commit) {
        Some(place) => return Err(Fault::Field(place)),
        None => {}
    }
    match whole(memory, ground.shape, commit, read) {
        None => Err(Fault::Field(RECIPE)),
        Some(recipe) => {
            enter(memory, commit, &recipe);
            recipes_within(memory)
        }
    }
}

/// Takes the record of a Delete, or says what of it fails. `read` is what lies where the entry's recipe does.
pub(crate) fn take_delete(
    memory: &mut CloudMemory,
    ground: &Ground,
    inside: bool,
    delete: &DeleteBody,
    read: &[u8],
) -> Result<(), Fault>
    requires rooms { HasFirstRooms memory.old }
    requires read { length read.now < 2 ^ 32 }
    ensures judged { FirstJudgedAs ground.now inside read.now (memory_of memory.old) (Delete delete.now) result
        (memory_of memory.new) }
    ensures within { IfErr result (IsFaultWithin 45) }
    ensures rooms { HasFirstRooms memory.new }
{
    let entry = match memory.entry(delete.user, &delete.tag, delete.version) {
        Some(entry) => entry,
        None => return Err(Fault::Field(TAG)),
    };
    match named(ground.shape, &entry.fp, read) {
        Some(recipe) => {
            memory.delete(delete.user, &delete.tag, delete.version, &recipe);
            Ok(())
        }
        None => Err(Fault::Field(TAG)),
    }
}
