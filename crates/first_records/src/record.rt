//! One record of a journal of format 1, taken into a server's memory.

ghost use Rattle.std.specs.Prelude.{◌≡◌, ◌↔◌, ◌+◌, ◌<◌, ◌≤◌, ◌^◌, length, Ok, Err, OnOk, IfErr, MatchResult, IsTrue};
ghost use Rattle.record_checks.specs.RecordBody.Spelling.{IsBody};
ghost use Rattle.record_checks.specs.RecordBody.Seen.{seen, StartsIn};
ghost use Rattle.record_checks.specs.CloudMemory.Fitting.{FitsRecords};
ghost use Rattle.record_checks.specs.CloudMemory.Rooms.{memory_of};
ghost use Rattle.first_records.specs.Judging.{IsForeign, JudgesFirst};
ghost use Rattle.first_records.specs.Limits.{HasFirstRooms};
ghost use Rattle.first_records.specs.Steps.{FirstJudgedAs, IsFaultWithin};

use crate::commits::{take_commit, take_delete};
use crate::damage::{answer_for, damaged, damaged_body};
use crate::errors::Fault;
use crate::kepts::take_kept;
use crate::puts::take_put;
use crate::{FirstErr, Ground};
use record_checks::{BodyView, CloudMemory};

// Whether the record is of a kind that stands nowhere in format 1, or nowhere outside of a checkpoint, and isn't one of
// the checkpoint's.
fn is_foreign(inside: bool, body: &[u8]) -> bool
    ensures { IsTrue result ↔ IsForeign inside body.now }
{
    match body {
        [] => false,
        [kind, ..] => *kind == 5 || !inside && *kind == 4,
    }
}

// Takes a record by what it says, or says what of it fails.
fn take_view(
    memory: &mut CloudMemory,
    ground: &Ground,
    inside: bool,
    body: &[u8],
    recipe: &[u8],
    view: BodyView<'_>,
) -> Result<(), Fault>
    requires rooms { HasFirstRooms memory.old }
    requires own { ¬ (IsForeign inside body.now) }
    requires fits { IsBody body.now (seen view) }
    requires starts { StartsIn body.now view }
    requires read { length recipe.now < 2 ^ 32 }
    ensures judged { FirstJudgedAs ground.now inside recipe.now (memory_of memory.old) (seen view.entry) result
        (memory_of memory.new) }
    ensures within { IfErr result (IsFaultWithin (length body.now)) }
    ensures rooms { HasFirstRooms memory.new }
{
    match view {
        BodyView::Put { user, items } => take_put(memory, ground, inside, user, items),
        BodyView::Commit(commit) => take_commit(memory, ground, inside, &commit, recipe),
        BodyView::Delete(delete) => take_delete(memory, ground, inside, &delete, recipe),
        BodyView::Kept(items) => take_kept(memory, ground, inside, items),
        BodyView::Spent(_) => unreachable!(),
    }
}

/// Takes a record into the memory. Its body begins at the place `at` of the journal, behind the 4 bytes of its length
/// and its gate, and byte i of it has the place `at` + i. `inside` says that it is one of the checkpoint's, and `read` is
/// what lies where `recipe_of` says. It takes no memory.
///
/// The checks are tried in this order, and the first that fails gives the answer:
///
/// - A Spent, which format 1 doesn't have, or a Kept outside of a checkpoint: damaged at its kind.
/// - The body breaks its grammar: damaged at the first place of the field that does; or, where bytes are lacking, at the
///   first place of the length; or, where bytes are left over, at the first of them.
/// - With all its shares the record would pass a room: of placed fingerprints, or of owners; or with its entry that of
///   files. The room is too small.
/// - For each share of a Put or a Kept, for a Commit and for a Delete: as in a later format, but for what a user may
///   spend.
/// - The shares, or the recipes, end past their room: it is too small.
///
/// After an Err the memory may hold a part of the record, and isn't of use until it is cleared.
pub fn take(
    memory: &mut CloudMemory,
    ground: &Ground,
    inside: bool,
    body: &[u8],
    at: u64,
    read: &[u8],
) -> Result<(), FirstErr>
    requires rooms { HasFirstRooms memory.old }
    requires some { 1 ≤ length body.now }
    requires few { length body.now ≤ 65535 }
    requires place { 5 ≤ at }
    requires end { at + length body.now < 2 ^ 64 }
    requires read { length read.now < 2 ^ 32 }
    ensures judged { MatchResult result
        (λ _. JudgesFirst ground.now inside read.now (memory_of memory.old) at body.now (Ok (memory_of memory.new)))
        (λ err. JudgesFirst ground.now inside read.now (memory_of memory.old) at body.now (Err err)) }
    ensures rooms { HasFirstRooms memory.new }
    ensures unspent { OnOk result (memory.new.spent ≡ memory.old.spent) }
    ensures fit { FitsRecords (memory_of memory.old) → OnOk result (FitsRecords (memory_of memory.new)) }
{
    if is_foreign(inside, body) {
        return Err(FirstErr::Damaged(damaged(body, at, 0)));
    }
    let view = match BodyView::check(body) {
        Ok(view) => view,
        Err(err) => return Err(FirstErr::Damaged(damaged_body(body, at, err))),
    };
    match take_view(memory, ground, inside, body, read, view) {
        Ok(()) => Ok(()),
        Err(fault) => Err(answer_for(body, at, fault)),
    }
}
