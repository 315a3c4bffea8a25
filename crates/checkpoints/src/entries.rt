//! Entries, and what users have spent.

ghost use Rattle.std.specs.Prelude.{◌≡◌, ◌≤◌, [], length, map, MatchOption, IfSome};
ghost use Rattle.cloud_memory.specs.PoolMap.Slots.{slot_of};
ghost use Rattle.cloud_memory.specs.RecordBody.FirstSpelling.{FitsCommit};
ghost use Rattle.cloud_memory.specs.RecordBody.Spelling.{Commit, Spent, FitsSpent};
ghost use Rattle.cloud_memory.specs.SpentTable.Spending.{spent_by};
ghost use Rattle.checkpoints.specs.Laying.{IsNextInBuffer};
ghost use Rattle.checkpoints.specs.Picking.{IsNextPicked};
ghost use Rattle.checkpoints.specs.Records.{commit_at, commits_from, spent_at, spents_from};
ghost use Rattle.cloud_memory.specs.Fitting.{AreRecipes};
ghost use Rattle.checkpoints.specs.Steps.{IsNextSpent};

use cloud_memory::{BodyBuf, CommitBody, FileIndex, SpentBody, SpentTable, UserId};

// The Commit of the entry in a slot, if there is one.
fn commit_at(files: &FileIndex, slot: u32) -> Option<CommitBody>
    requires { AreRecipes files.now.files }
    ensures commit { result ≡ commit_at (slot_of files.now.slots slot) }
    ensures fits { IfSome result FitsCommit }
{
    match files.entry_at(slot) {
        Some((user, tag, version, entry)) => Some(CommitBody {
            user,
            tag,
            version,
            at: entry.at,
            len: entry.len,
            fp: entry.fp,
        }),
        None => None,
    }
}

// The Commit of the next entry from a slot on, and the slot behind it.
pub(crate) fn next_commit(files: &FileIndex, from: u32) -> Option<(CommitBody, u32)>
    requires { AreRecipes files.now.files }
    ensures next { IsNextPicked commit_at files.now.slots from result }
    ensures fits { IfSome result (λ found. FitsCommit found.0) }
{
    for slot in from..files.slots() {
        match commit_at(files, slot) {
            Some(commit) => return Some((commit, slot + 1)),
            None => {}
        }
    }
    None
}

// Writes the Commit of the next entry from a slot on, if there is one, and answers the slot behind it.
pub(crate) fn write_commit(files: &FileIndex, from: u32, buffer: &mut BodyBuf) -> Option<u32>
    requires { AreRecipes files.now.files }
    ensures { MatchOption result (commits_from files.now from ≡ [])
        (λ behind. IsNextInBuffer (map Commit (commits_from files.now from))
        (map Commit (commits_from files.now behind)) buffer.new) }
{
    match next_commit(files, from) {
        Some((commit, behind)) => {
            buffer.write_commit(&commit);
            Some(behind)
        }
        None => None,
    }
}

// The slot behind all entries.
pub(crate) fn end_of_commits(files: &FileIndex) -> u32
    ensures { commits_from files.now result ≡ [] }
{
    files.slots()
}

// What a user has spent, where it has spent anything.
fn spent_at(table: &SpentTable, user: u32) -> Option<SpentBody>
    ensures spent { result ≡ spent_at user (spent_by table.now (record { 0 = user })) }
    ensures fits { IfSome result FitsSpent }
{
    let spent = table.of(UserId(user));
    if spent.owners == 0 && spent.shares == 0 && spent.recipes == 0 {
        None
    } else {
        Some(SpentBody {
            user: UserId(user),
            owners: spent.owners,
            shares: spent.shares,
            recipes: spent.recipes,
        })
    }
}

// What the next user from this one on has spent, of those that have spent anything, and the user behind it.
pub(crate) fn next_spent(table: &SpentTable, from: u32) -> Option<(SpentBody, u32)>
    requires { length table.now ≤ 256 }
    ensures next { IsNextSpent table.now from result }
    ensures fits { IfSome result (λ found. FitsSpent found.0) }
{
    for user in from..table.users() as u32 {
        match spent_at(table, user) {
            Some(spent) => return Some((spent, user + 1)),
            None => {}
        }
    }
    None
}

// Writes what the next user from this one on has spent, of those that have spent anything, and answers the user behind it.
pub(crate) fn write_spent(table: &SpentTable, from: u32, buffer: &mut BodyBuf) -> Option<u32>
    requires { length table.now ≤ 256 }
    ensures { MatchOption result (spents_from table.now from ≡ [])
        (λ behind. IsNextInBuffer (map Spent (spents_from table.now from))
        (map Spent (spents_from table.now behind)) buffer.new) }
{
    match next_spent(table, from) {
        Some((spent, behind)) => {
            buffer.write_spent(&spent);
            Some(behind)
        }
        None => None,
    }
}
