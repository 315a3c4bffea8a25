//! One record of a journal, taken into a server's memory.

ghost use Rattle.std.specs.Prelude.{◌≡◌, ◌↔◌, ◌+◌, ◌<◌, ◌≤◌, ◌^◌, Bool, length, Ok, Err, OnOk, IfErr, MatchResult};
ghost use Rattle.std.specs.Prelude.{MatchOption, IfSome, IsTrue, IsFalse};
ghost use Rattle.cloud_memory.specs.CdBase.Limits.{recipe_limit};
ghost use Rattle.cloud_memory.specs.CdBase.place.Place.{Place as Lying};
ghost use Rattle.cloud_memory.specs.Rooms.{memory_of, HasRooms};
ghost use Rattle.record_checks.specs.declared.ground.Ground.{Ground as Known};
ghost use Rattle.record_checks.specs.Checks.{NamesRecipePlace, AsksFor, IsOfCheckpoint};
ghost use Rattle.cloud_memory.specs.RecordBody.Spelling.{Commit, Delete, IsBody};
ghost use Rattle.cloud_memory.specs.RecordBody.Seen.{seen, StartsIn};
ghost use Rattle.record_checks.specs.Steps.{JudgedAs};
ghost use Rattle.record_checks.specs.Judging.{Judges};
ghost use Rattle.record_checks.specs.Noting.{noted, IsNoted, EndsGrow};

use crate::commits::{commit_fault, take_commit, take_delete};
use crate::kepts::take_kept;
use crate::noting::{damaged, damaged_body, note};
use crate::puts::take_put;
use crate::taking::take_spent;
use crate::{Damage, Ground, Taking};
use cloud_memory::{BodyView, CloudMemory, CommitBody, DeleteBody, Place, RECIPE_LIMIT};

// Where the place of a Commit stands in its body.
const PLACE: usize = 45;

// Where a Commit's recipe lies, where neither its place nor its tag fails.
fn commit_place(
    memory: &CloudMemory,
    ground: &Ground,
    inside: bool,
    commit: &CommitBody,
) -> Option<Place>
    ensures { MatchOption result
        ((place : Lying) → ¬ (NamesRecipePlace ground.now inside (memory_of memory.now) (Commit commit.now) place))
        (λ place. NamesRecipePlace ground.now inside (memory_of memory.now) (Commit commit.now) place
        × (place.len ≤ recipe_limit)) }
{
    match commit_fault(memory, ground, inside, commit) {
        Some(_) => None,
        None => Some(Place {
            at: commit.at,
            len: commit.len,
        }),
    }
}

// Where the recipe of a Delete's entry lies.
fn delete_place(memory: &CloudMemory, delete: &DeleteBody) -> Option<Place>
    ensures { (g : Known) (inside : Bool)
        → MatchOption result ((place : Lying)
        → ¬ (NamesRecipePlace g inside (memory_of memory.now) (Delete delete.now) place))
        (λ place. NamesRecipePlace g inside (memory_of memory.now) (Delete delete.now) place
        × (place.len ≤ recipe_limit)) }
{
    match memory.entry(delete.user, &delete.tag, delete.version) {
        Some(entry) => {
            if entry.len <= RECIPE_LIMIT {
                Some(Place {
                    at: entry.at,
                    len: entry.len,
                })
            } else {
                None
            }
        }
        None => None,
    }
}

// Where the recipe lies of which the record's checks want to know.
fn place_of(
    memory: &CloudMemory,
    ground: &Ground,
    inside: bool,
    view: BodyView<'_>,
) -> Option<Place>
    ensures { MatchOption result
        ((place : Lying) → ¬ (NamesRecipePlace ground.now inside (memory_of memory.now) (seen view.entry) place))
        (λ place. NamesRecipePlace ground.now inside (memory_of memory.now) (seen view.entry) place
        × (place.len ≤ recipe_limit)) }
{
    match view {
        BodyView::Put { .. } => None,
        BodyView::Commit(commit) => commit_place(memory, ground, inside, &commit),
        BodyView::Delete(delete) => delete_place(memory, &delete),
        BodyView::Kept(_) => None,
        BodyView::Spent(_) => None,
    }
}

/// Where in the area of recipes that lies which `take` wants to know of a record with this body: for a Commit its
/// recipe, where neither its place nor its tag fails, and for a Delete that of the entry that it takes out. None
/// comes for every other body.
pub fn recipe_of(memory: &CloudMemory, ground: &Ground, inside: bool, body: &[u8]) -> Option<Place>
    ensures asks { MatchOption result
        ((place : Lying) → ¬ (AsksFor ground.now inside (memory_of memory.now) body.now place))
        (λ place. AsksFor ground.now inside (memory_of memory.now) body.now place) }
    ensures few { IfSome result (λ place. place.len ≤ recipe_limit) }
{
    match BodyView::check(body) {
        Ok(view) => place_of(memory, ground, inside, view),
        Err(_) => None,
    }
}

// Whether the record stands in a checkpoint alone, and isn't one of the checkpoint's.
fn is_outside(inside: bool, body: &[u8]) -> bool
    ensures { IsTrue result ↔ (IsFalse inside × IsOfCheckpoint body.now) }
{
    match body {
        [] => false,
        [kind, ..] => !inside && (*kind == 4 || *kind == 5),
    }
}

// Takes a record by what it says, or gives the place in its body of the field that is damaged.
fn take_view(
    memory: &mut CloudMemory,
    taking: &mut Taking,
    ground: &Ground,
    inside: bool,
    body: &[u8],
    at: u64,
    recipe: &[u8],
    view: BodyView<'_>,
) -> Result<(), usize>
    requires rooms { HasRooms ground.now.rooms memory.old }
    requires fits { IsBody body.now (seen view) }
    requires starts { StartsIn body.now view }
    requires end { at + length body.now < 2 ^ 64 }
    requires read { length recipe.now < 2 ^ 32 }
    ensures judged { JudgedAs ground.now inside recipe.now taking.old.spent (memory_of memory.old) (seen view.entry)
        result (memory_of memory.new) }
    ensures noted { OnOk result (taking.new ≡ noted at body.now (memory_of memory.old) taking.old (seen view.entry)) }
    ensures within { IfErr result (λ place. place < length body.now) }
    ensures rooms { HasRooms ground.now.rooms memory.new }
    ensures ends { EndsGrow ground.now (memory_of memory.old) (memory_of memory.new) }
{
    match view {
        BodyView::Put { user, items } => {
            let field = &mut taking.shares_field;
            take_put(memory, field, ground, inside, body, at, user, items)
        }
        BodyView::Commit(commit) => {
            let end = memory.recipes_end();
            take_commit(memory, ground, inside, &commit, recipe)?;
            let place = Some(Place {
                at: commit.at,
                len: commit.len,
            });
            note(&mut taking.recipes_field, end, place, body, at, PLACE);
            Ok(())
        }
        BodyView::Delete(delete) => take_delete(memory, ground, inside, &delete, recipe),
        BodyView::Kept(items) => {
            let field = &mut taking.shares_field;
            take_kept(memory, field, ground, inside, body, at, items)
        }
        BodyView::Spent(spent) => take_spent(memory, taking, ground, inside, &spent),
    }
}

/// Takes a record into the memory. Its body begins at the place `at` of the journal, behind the 4 bytes of its
/// length, and byte i of it has the place `at` + i. `inside` says that it is one of the checkpoint's, and `recipe` is
/// what lies where `recipe_of` says. It takes no memory.
///
/// The checks are tried in this order, and the first that fails gives the damage:
///
/// - Outside of a checkpoint, a Kept or a Spent: at its kind.
/// - The body breaks its grammar: at the first place of the field that does; or, where bytes are lacking, at the
///   first place of the length; or, where bytes are left over, at the first of them.
/// - For each share of a Put, in order, with those before it taken: it is the user's own already (at its
///   fingerprint); the record gives it a place and it has one, or gives it none and it has none (at its flag); or its
///   place lies in front of the region, crosses a container, reaches past the area or, behind the checkpoint, lies
///   below the end of the shares (at its place).
/// - For each share of a Kept likewise: it has a place already (at its fingerprint), or its place is wrong (at its
///   place).
/// - For a Commit: its recipe has more than 1,180,190 bytes or a wrong place (at its place); the user has the version
///   already (at its tag); or what lies there has another SHA-256, is no recipe, or names what the user doesn't own
///   (at the recipe's fingerprint).
/// - For a Delete: the user has no such version, or what lies there isn't the recipe of its entry (at its tag).
/// - By the record the user owns more than it may, or has more entries, or more fingerprints are placed than all
///   users may own; behind the checkpoint, it has spent more than it may; or a Spent says more than the user may
///   spend, or is the user's second (at the user, or at the number of items of a Kept).
///
/// After an Err the memory may hold a part of the record, and isn't of use until it is cleared.
pub fn take(
    memory: &mut CloudMemory,
    taking: &mut Taking,
    ground: &Ground,
    inside: bool,
    body: &[u8],
    at: u64,
    recipe: &[u8],
) -> Result<(), Damage>
    requires rooms { HasRooms ground.now.rooms memory.old }
    requires some { 1 ≤ length body.now }
    requires few { length body.now ≤ 65535 }
    requires place { 5 ≤ at }
    requires end { at + length body.now < 2 ^ 64 }
    requires read { length recipe.now < 2 ^ 32 }
    ensures judged { MatchResult result
        (λ _. Judges ground.now inside recipe.now taking.old.spent (memory_of memory.old) at body.now
        (Ok (memory_of memory.new)))
        (λ damage. Judges ground.now inside recipe.now taking.old.spent (memory_of memory.old) at body.now
        (Err damage)) }
    ensures noted { OnOk result (IsNoted at body.now (memory_of memory.old) taking.old taking.new) }
    ensures rooms { HasRooms ground.now.rooms memory.new }
    ensures ends { EndsGrow ground.now (memory_of memory.old) (memory_of memory.new) }
{
    if is_outside(inside, body) {
        return Err(damaged(body, at, 0));
    }
    let view = match BodyView::check(body) {
        Ok(view) => view,
        Err(err) => return Err(damaged_body(body, at, err)),
    };
    match take_view(memory, taking, ground, inside, body, at, recipe, view) {
        Ok(()) => Ok(()),
        Err(place) => Err(damaged(body, at, place)),
    }
}
