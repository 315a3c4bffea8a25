//! How many records there are, without a look at where each share lies.

ghost use Rattle.std.specs.Prelude.{◌≡◌, ◌+◌, ◌*◌, ◌<◌, ◌≤◌, ℕ, List, [], length, drop, map, All, Some, IfSome};
ghost use Rattle.std.specs.FinMap.{get};
ghost use Rattle.cloud_memory.specs.CdBase.ids.Fp.{Fp};
ghost use Rattle.cloud_memory.specs.CdBase.place.Place.{Place};
ghost use Rattle.cloud_memory.specs.PoolMap.Slots.{slot_of};
ghost use Rattle.cloud_memory.specs.RecordBody.FirstSpelling.{FitsCommit};
ghost use Rattle.cloud_memory.specs.RecordBody.Spelling.{FitsBody, FitsKept, FitsSpent};
ghost use Rattle.cloud_disk.specs.CloudAreas.Checkpoints.{put_body, items_in};
ghost use Rattle.cloud_memory.specs.Fitting.{AreSharePlaces, AreRecipes};
ghost use Rattle.checkpoints.specs.Chained.{HasChains};
ghost use Rattle.checkpoints.specs.Laying.{records_len};
ghost use Rattle.checkpoints.specs.Ready.{AreMarkedOwned, IsReadyToWrite};
ghost use Rattle.checkpoints.specs.Records.{owned_in, puts_from, kept_from, commits_from, spents_from, coming};
ghost use Rattle.checkpoints.specs.Tallies.{ArePlaces, IsTallied};

use crate::entries::{next_commit, next_spent};
use crate::kept::next_kept;
use crate::puts::next_owned;
use crate::{Marks, OwnerChains, Position};
use cloud_memory::{FileIndex, ShareIndex, SpentTable};

// The place in a slot has 64 bits, as it is read.
fn see_place(shares: &ShareIndex, slot: u32)
    ensures { (fp : List ℕ) (place : Place) → slot_of shares.now.place_slots slot ≡ Some (fp, place)
        → place.at < 18446744073709551616 }
{
    match shares.place_at(slot) {
        Some((_fp, place)) => {
            let _at = place.at;
        }
        None => {}
    }
}

// Each place is one that a record can say.
fn see_places(shares: &ShareIndex)
    requires { AreSharePlaces shares.now.places }
    ensures { ArePlaces shares.now.places }
{
    let _ = shares.place_at(0);
    for slot in 0..shares.place_slots() {
        see_place(shares, slot);
    }
}

// How many fingerprints a user has from a slot on.
fn count_owned(shares: &ShareIndex, chains: &OwnerChains, user: u32, from: u32) -> u32
    requires { HasChains shares.now.owner_slots chains.now }
    ensures count { result ≡ length (owned_in user (drop from shares.now.owner_slots)) }
    ensures long { All (λ (fp : Fp). length fp.0 ≡ 32) (owned_in user (drop from shares.now.owner_slots)) }
{
    let mut at = from;
    for count in 0..shares.owner_slots() {
        match next_owned(shares, chains, user, at) {
            Some((_fp, behind)) => at = behind,
            None => return count,
        }
    }
    shares.owner_slots()
}

// How many Puts there are of so many users, of whom one's fingerprints are listed from a slot on, and of how many shares.
fn count_puts(shares: &ShareIndex, chains: &OwnerChains, at: &Position) -> (u64, u64)
    requires chained { HasChains shares.now.owner_slots chains.now }
    requires places { ArePlaces shares.now.places }
    requires few { at.now.user + at.now.left ≤ 256 }
    ensures puts { result.0 ≡ length (puts_from shares.now at.now.left at.now.user at.now.owner) }
    ensures items { result.1 ≡ length (items_in (puts_from shares.now at.now.left at.now.user at.now.owner)) }
    ensures few { result.1 ≤ 1099511627776 }
    ensures full { result.0 ≤ result.1 }
    ensures fit { All FitsBody (map put_body (puts_from shares.now at.now.left at.now.user at.now.owner)) }
{
    let mut puts = 0u64;
    let mut items = 0u64;
    let mut user = at.user;
    let mut from = at.owner;
    let mut left = at.left;
    while left > 0 {
        let count = count_owned(shares, chains, user, from);
        puts += count.div_ceil(256) as u64;
        items += count as u64;
        user += 1;
        from = 0;
        left -= 1;
    }
    (puts, items)
}

// How many shares no user owns, from a slot on.
fn count_kept(shares: &ShareIndex, marks: &Marks, from: u32) -> u32
    requires fit { AreSharePlaces shares.now.places }
    requires owned { AreMarkedOwned shares.now marks.now }
    ensures count { result ≡ length (kept_from shares.now from) }
    ensures fit { All FitsKept (kept_from shares.now from) }
{
    let _ = shares.place_at(0);
    if shares.ownerless() == 0 {
        return 0;
    }
    let mut at = from;
    for count in 0..shares.place_slots() {
        match next_kept(shares, marks, at) {
            Some((_item, behind)) => at = behind,
            None => return count,
        }
    }
    shares.place_slots()
}

// How many entries there are from a slot on.
fn count_commits(files: &FileIndex, from: u32) -> u32
    requires { AreRecipes files.now.files }
    ensures count { result ≡ length (commits_from files.now from) }
    ensures fit { All FitsCommit (commits_from files.now from) }
{
    let mut at = from;
    for count in 0..files.slots() {
        match next_commit(files, at) {
            Some((_commit, behind)) => at = behind,
            None => return count,
        }
    }
    files.slots()
}

// How many users from this one on have spent anything.
fn count_spents(table: &SpentTable, from: u32) -> u32
    requires { length table.now ≤ 256 }
    ensures count { result ≡ length (spents_from table.now from) }
    ensures fit { All FitsSpent (spents_from table.now from) }
{
    let mut at = from;
    for count in 0..table.users() as u32 {
        match next_spent(table, at) {
            Some((_spent, behind)) => at = behind,
            None => return count,
        }
    }
    table.users() as u32
}

// As many records as there are, where so many bytes are enough for them.
fn within(count: u64, bytes: u64, limit: u64) -> Option<u32>
    requires few { limit < 4294967296 }
    requires full { count ≤ bytes }
    ensures { IfSome result (λ n. (n ≡ count) × (bytes ≤ limit)) }
{
    if bytes <= limit {
        Some(count as u32)
    } else {
        None
    }
}

/// How many records are to come, where they are surely within so many bytes behind a start's 63: each share with its place
/// in a Put. None doesn't say that they aren't.
pub(crate) fn count_surely(
    shares: &ShareIndex,
    files: &FileIndex,
    spent: &SpentTable,
    chains: &OwnerChains,
    marks: &Marks,
    at: &Position,
    limit: u64,
) -> Option<u32>
    requires ready { IsReadyToWrite shares.now files.now spent.now chains.now marks.now at.now }
    requires few { limit < 4294967296 }
    ensures count { IsTallied (coming shares.now files.now spent.now at.now) limit result }
    ensures fit { All FitsBody (coming shares.now files.now spent.now at.now) }
{
    let _ = shares.owner_at(0);
    see_places(shares);
    let (puts, items) = count_puts(shares, chains, at);
    let kept = count_kept(shares, marks, at.place);
    let commits = count_commits(files, at.file);
    let spents = count_spents(spent, at.row);
    let count = puts + kept.div_ceil(256) as u64 + commits as u64 + spents as u64;
    let bytes = 63 + 57 * items + 52 * kept as u64 + 94 * commits as u64 + 30 * spents as u64;
    within(count, bytes, limit)
}
