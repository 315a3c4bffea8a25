//! What each user owns, user by user.

ghost use Rattle.std.specs.Prelude.{◌≡◌, ◌+◌, ◌++◌, ◌<◌, ◌≤◌, [], ◌∷◌, List, length, map, take, option_map};
ghost use Rattle.std.specs.FinMap.{get};
ghost use Rattle.cloud_memory.specs.CdBase.ids.Fp.{Fp};
ghost use Rattle.cloud_memory.specs.PoolMap.Slots.{slot_of, IsListed};
ghost use Rattle.cloud_memory.specs.MessageFields.Fingerprints.{IsBatch};
ghost use Rattle.cloud_memory.specs.RecordBody.FirstSpelling.{FitsItem, item_bytes};
ghost use Rattle.cloud_memory.specs.RecordBody.Spelling.{Put, body_bytes};
ghost use Rattle.cloud_disk.specs.CloudAreas.Checkpoints.{put_body};
ghost use Rattle.checkpoints.specs.Chained.{AreOthers, HasChains};
ghost use Rattle.checkpoints.specs.Picking.{IsNextPicked};
ghost use Rattle.checkpoints.specs.Records.{owned_at, listed, item_of, puts_from};
ghost use Rattle.cloud_memory.specs.Fitting.{AreSharePlaces};
ghost use Rattle.checkpoints.specs.Ready.{AreMarked, IsAtPuts};
ghost use Rattle.checkpoints.specs.Steps.{AreListedNext, KeepsAllButPuts, Steps};

use crate::{Marks, OwnerChains, Position};
use cloud_memory::{BodyBuf, Fp, Place, PutItem, ShareIndex, UserId};

// The user's fingerprint in a slot, if it has one there.
fn owned_at(shares: &ShareIndex, user: u32, slot: u32) -> Option<Fp>
    ensures { result ≡ owned_at user (slot_of shares.now.owner_slots slot) }
{
    match shares.owner_at(slot) {
        Some((owner, fp)) => { if owner.0 == user { Some(fp) } else { None } }
        None => None,
    }
}

// Where to look for the user's next slot from a slot on: along the user's chain, where it has one. None between is the user's.
fn start_of(shares: &ShareIndex, chains: &OwnerChains, user: u32, from: u32) -> u32
    requires chained { HasChains shares.now.owner_slots chains.now }
    ensures others { AreOthers shares.now.owner_slots user from result }
    ensures ahead { from ≤ result }
{
    if !chains.has(user) {
        return from;
    }
    if from == 0 {
        return chains.first(user);
    }
    match owned_at(shares, user, from - 1) {
        Some(_) => from.max(chains.next(from - 1)),
        None => from,
    }
}

// The user's next fingerprint from a slot on, and the slot behind it. It is one step along the user's chain.
pub(crate) fn next_owned(
    shares: &ShareIndex,
    chains: &OwnerChains,
    user: u32,
    from: u32,
) -> Option<(Fp, u32)>
    requires chained { HasChains shares.now.owner_slots chains.now }
    ensures { IsNextPicked (owned_at user) shares.now.owner_slots from result }
{
    let start = start_of(shares, chains, user, from);
    for slot in start..shares.owner_slots() {
        match owned_at(shares, user, slot) {
            Some(fp) => return Some((fp, slot + 1)),
            None => {}
        }
    }
    None
}

// The place of a fingerprint that stands in this slot, if it has one. It isn't looked up again.
fn place_in(shares: &ShareIndex, fp: &Fp, slot: u32) -> Option<Place>
    requires { slot_of shares.now.place_slots slot
        ≡ option_map (λ place. (fp.now.0, place)) (get shares.now.places fp.now.0) }
    ensures { result ≡ get shares.now.places fp.now.0 }
{
    match shares.place_at(slot) {
        Some((_, place)) => Some(place),
        None => None,
    }
}

// The share as it is listed next: with its place, where its slot wasn't marked. It is marked then.
fn list_share(shares: &ShareIndex, marks: &mut Marks, fp: Fp) -> PutItem
    requires stand { IsListed shares.now.places shares.now.place_slots }
    requires fit { AreSharePlaces shares.now.places }
    ensures item { (fps : List Fp) → AreMarked shares.now marks.old fps → result ≡ item_of shares.now.places fps fp }
    ensures marks { (fps : List Fp) → AreMarked shares.now marks.old fps
        → AreMarked shares.now marks.new (fps ++ fp ∷ []) }
    ensures fits { FitsItem result }
{
    match shares.place_slot(&fp) {
        Some(slot) => {
            if marks.mark(slot) {
                PutItem { fp, place: None }
            } else {
                PutItem {
                    fp,
                    place: place_in(shares, &fp, slot),
                }
            }
        }
        None => PutItem { fp, place: None },
    }
}

// Lists up to 256 shares of the user's from a slot on: how many they are, and the slot behind them.
fn list_batch(
    shares: &ShareIndex,
    chains: &OwnerChains,
    marks: &mut Marks,
    user: u32,
    from: u32,
    items: &mut [PutItem],
) -> (usize, u32)
    requires stand { IsListed shares.now.places shares.now.place_slots }
    requires fit { AreSharePlaces shares.now.places }
    requires chained { HasChains shares.now.owner_slots chains.now }
    requires marks { AreMarked shares.now marks.old (listed shares.now.owner_slots user from) }
    requires room { length items.old ≡ 256 }
    ensures batch { AreListedNext shares.now user from (take result.0 items.new) result.1 }
    ensures marks { AreMarked shares.now marks.new (listed shares.now.owner_slots user result.1) }
    ensures few { result.0 ≤ 256 }
{
    let mut at = from;
    for count in 0..256usize {
        match next_owned(shares, chains, user, at) {
            Some((fp, behind)) => {
                items[count] = list_share(shares, marks, fp);
                at = behind;
            }
            None => return (count, at),
        }
    }
    (256, at)
}

// Appends a share.
fn put_one(buffer: &mut BodyBuf, item: PutItem)
    requires { length buffer.old + 45 ≤ 65535 }
    ensures value { buffer.new ≡ buffer.old ++ item_bytes item }
    ensures len { length buffer.new ≤ length buffer.old + 45 }
{
    buffer.put_item(&item);
}

// Writes the Put of these shares.
fn write_items(buffer: &mut BodyBuf, user: u32, items: &[PutItem])
    requires { length items.now ≤ 256 }
    ensures { buffer.new ≡ body_bytes (Put (record { 0 = user }) items.now) }
{
    buffer.start_put(UserId(user), items.len() as u16);
    for item in items {
        put_one(buffer, *item);
    }
}

// Writes the next Put, if there is one.
pub(crate) fn write_put(
    shares: &ShareIndex,
    chains: &OwnerChains,
    marks: &mut Marks,
    at: &mut Position,
    buffer: &mut BodyBuf,
) -> bool
    requires chained { HasChains shares.now.owner_slots chains.now }
    requires ready { IsAtPuts shares.now marks.old at.old.left at.old.user at.old.owner }
    ensures ready { IsAtPuts shares.now marks.new at.new.left at.new.user at.new.owner }
    ensures step { Steps (map put_body (puts_from shares.now at.old.left at.old.user at.old.owner))
        (map put_body (puts_from shares.now at.new.left at.new.user at.new.owner)) buffer.new result }
    ensures others { KeepsAllButPuts at.old at.new }
{
    if at.left == 0 {
        return false;
    }
    let mut items = [PutItem {
        fp: Fp([0; 32]),
        place: None,
    }; 256];
    while at.left > 0 {
        let (count, behind) = list_batch(shares, chains, marks, at.user, at.owner, &mut items);
        at.owner = behind;
        if count > 0 {
            let (batch, _) = items.split_at(count);
            write_items(buffer, at.user, batch);
            return true;
        }
        at.left -= 1;
        at.user += 1;
        at.owner = 0;
    }
    false
}
