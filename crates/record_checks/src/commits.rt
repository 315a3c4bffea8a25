//! The records of a Commit and of a Delete.

ghost use Rattle.std.specs.Prelude.{◌≡◌, ◌↔◌, ℕ, ◌+◌, ◌<◌, ◌≤◌, ◌^◌, Bool, List, length, slice_get, Some, None};
ghost use Rattle.std.specs.Prelude.{IsTrue, IfNone, IfErr, OnOk, MatchOption};
ghost use Rattle.cloud_memory.specs.CdBase.ids.Fp.{Fp as Digest};
ghost use Rattle.cloud_memory.specs.RecordBody.Spelling.{Commit, Delete};
ghost use Rattle.cloud_memory.specs.SpentTable.Spending.{of_recipe};
ghost use Rattle.cloud_memory.specs.UserDedup.Owning.{fps_in};
ghost use Rattle.cloud_memory.specs.UserDedup.Requests.{fps_of};
ghost use Rattle.cloud_memory.specs.Rooms.{memory_of, HasRooms};
ghost use Rattle.cloud_memory.specs.Sharing.{AreOwned};
ghost use Rattle.record_checks.specs.Checks.{RecipeLies, IsNamed, spends_behind};
ghost use Rattle.record_checks.specs.Noting.{EndsGrow};
ghost use Rattle.record_checks.specs.Steps.{JudgedAs, IsRightCommit, CommitFault, MaySpendRecipe};

use crate::Ground;
use crate::limits::recipes_limit;
use crate::places::recipe_lies;
use cloud_memory::{
    CloudMemory, CommitBody, DeleteBody, Fp, RecipeView, Shape, Spent, UserId, sha256,
};

// Where fields stand in the body: the user, the tag, a Commit's place, and its recipe's fingerprint.
const USER: usize = 1;

const TAG: usize = 5;

const PLACE: usize = 45;

const RECIPE: usize = 57;

/// The place in the body of the first of a Commit's place and tag at which a check fails, or None where none does.
pub fn commit_fault(
    memory: &CloudMemory,
    ground: &Ground,
    inside: bool,
    commit: &CommitBody,
) -> Option<usize>
    ensures small { IfNone result (commit.now.at + commit.now.len < 2 ^ 64) }
    ensures fault { MatchOption result (IsRightCommit ground.now inside (memory_of memory.now) commit.now)
        (CommitFault ground.now inside (memory_of memory.now) commit.now) }
{
    if !recipe_lies(memory, ground, inside, commit) {
        return Some(PLACE);
    }
    match memory.entry(commit.user, &commit.tag, commit.version) {
        Some(_) => Some(TAG),
        None => None,
    }
}

/// What was read, where it is a recipe of the store's shape with this SHA-256. None comes exactly where it isn't.
pub fn named<'a>(shape: Shape, fp: &Fp, read: &'a [u8]) -> Option<RecipeView<'a>>
    requires { length read.now < 2 ^ 32 }
    ensures { MatchOption result (¬ (IsNamed shape fp.now read.now))
        (λ view. IsNamed shape fp.now read.now × (fps_of shape read.now ≡ fps_in view.items)) }
{
    if sha256(read) != *fp {
        return None;
    }
    match RecipeView::check(shape, read) {
        Ok(view) => Some(view),
        Err(_) => None,
    }
}

// The fingerprint of the item at a place that there is.
fn fp_at(recipe: &RecipeView<'_>, place: usize) -> Fp
    requires { place < length recipe.now.items }
    ensures { slice_get (fps_in recipe.now.items) place ≡ Some result }
{
    match recipe.item_at(place) {
        Some(item) => item.fp,
        None => unreachable!(),
    }
}

// Whether the user owns each fingerprint that the recipe names.
fn owns_all(memory: &CloudMemory, user: UserId, recipe: &RecipeView<'_>) -> bool
    ensures { IsTrue result ↔ AreOwned (memory_of memory.now).owners user (fps_in recipe.now.items) }
{
    for place in 0..recipe.count() {
        if !memory.owns(user, &fp_at(recipe, place)) {
            return false;
        }
    }
    true
}

/// What was read, where it is the recipe that a Commit names, of which the user owns each fingerprint. None comes exactly
/// where it isn't.
pub fn whole<'a>(
    memory: &CloudMemory,
    shape: Shape,
    commit: &CommitBody,
    read: &'a [u8],
) -> Option<RecipeView<'a>>
    requires { length read.now < 2 ^ 32 }
    ensures { MatchOption result (¬ (IsNamed shape commit.now.fp read.now
        × AreOwned (memory_of memory.now).owners commit.now.user (fps_of shape read.now)))
        (λ view. IsNamed shape commit.now.fp read.now × (fps_of shape read.now ≡ fps_in view.items)
        × AreOwned (memory_of memory.now).owners commit.now.user (fps_in view.items)) }
{
    let view = named(shape, &commit.fp, read)?;
    if owns_all(memory, commit.user, &view) {
        Some(view)
    } else {
        None
    }
}

// Whether behind the checkpoint the user may spend the recipe's bytes.
fn may_spend(memory: &CloudMemory, ground: &Ground, inside: bool, commit: &CommitBody) -> bool
    ensures { IsTrue result ↔ MaySpendRecipe ground.now.rooms inside (memory_of memory.now) commit.now }
{
    let spent = memory.spent(commit.user);
    let most = recipes_limit(&ground.rooms, commit.user);
    let len = u64::from(commit.len);
    inside || len <= most && spent.recipes <= most - len
}

// Behind the checkpoint the user spends the recipe's bytes.
fn spend_recipe(memory: &mut CloudMemory, ground: &Ground, inside: bool, commit: &CommitBody)
    requires rooms { HasRooms ground.now.rooms memory.old }
    requires some { 1 ≤ commit.now.len }
    requires fits { MaySpendRecipe ground.now.rooms inside (memory_of memory.old) commit.now }
    ensures taken { memory_of memory.new
        ≡ spends_behind inside commit.now.user (of_recipe commit.now.len) (memory_of memory.old) }
    ensures rooms { HasRooms ground.now.rooms memory.new }
{
    let _spent = memory.spent(commit.user);
    let _most = recipes_limit(&ground.rooms, commit.user);
    if inside {
        return;
    }
    let more = Spent {
        owners: 0,
        shares: 0,
        recipes: u64::from(commit.len),
    };
    memory.spend(commit.user, more);
}

/// Takes the record of a Commit, or gives the place in its body of the field that is damaged. `read` is what lies
/// where its recipe does.
pub(crate) fn take_commit(
    memory: &mut CloudMemory,
    ground: &Ground,
    inside: bool,
    commit: &CommitBody,
    read: &[u8],
) -> Result<(), usize>
    requires rooms { HasRooms ground.now.rooms memory.old }
    requires some { 1 ≤ commit.now.len }
    requires read { length read.now < 2 ^ 32 }
    ensures judged { (marks : List Bool) → JudgedAs ground.now inside read.now marks (memory_of memory.old)
        (Commit commit.now) result (memory_of memory.new) }
    ensures lies { OnOk result (RecipeLies ground.now inside (memory_of memory.old) commit.now) }
    ensures within { IfErr result (λ place. place < 89) }
    ensures rooms { HasRooms ground.now.rooms memory.new }
    ensures ends { EndsGrow ground.now (memory_of memory.old) (memory_of memory.new) }
{
    match commit_fault(memory, ground, inside, commit) {
        Some(place) => return Err(place),
        None => {}
    }
    match whole(memory, ground.shape, commit, read) {
        None => Err(RECIPE),
        Some(recipe) => {
            if !may_spend(memory, ground, inside, commit) {
                return Err(USER);
            }
            match memory.take_entry(commit, &recipe) {
                Err(_) => Err(USER),
                Ok(()) => {
                    spend_recipe(memory, ground, inside, commit);
                    Ok(())
                }
            }
        }
    }
}

/// Takes the record of a Delete, or gives the place in its body of the field that is damaged. `read` is what lies
/// where the entry's recipe does.
pub(crate) fn take_delete(
    memory: &mut CloudMemory,
    ground: &Ground,
    inside: bool,
    delete: &DeleteBody,
    read: &[u8],
) -> Result<(), usize>
    requires rooms { HasRooms ground.now.rooms memory.old }
    requires read { length read.now < 2 ^ 32 }
    ensures judged { (marks : List Bool)
        → JudgedAs ground.now inside read.now marks (memory_of memory.old) (Delete delete.now) result
        (memory_of memory.new) }
    ensures within { IfErr result (λ place. place < 45) }
    ensures rooms { HasRooms ground.now.rooms memory.new }
    ensures ends { EndsGrow ground.now (memory_of memory.old) (memory_of memory.new) }
{
    let entry = match memory.entry(delete.user, &delete.tag, delete.version) {
        Some(entry) => entry,
        None => return Err(TAG),
    };
    match named(ground.shape, &entry.fp, read) {
        Some(recipe) => {
            memory.delete(delete.user, &delete.tag, delete.version, &recipe);
            Ok(())
        }
        None => Err(TAG),
    }
}
