//! The shares that no user owns.

ghost use Rattle.std.specs.Prelude.{◌≡◌, ◌+◌, ◌++◌, ◌≤◌, [], length, map, take, MatchOption, IfSome};
ghost use Rattle.cloud_memory.specs.PoolMap.Slots.{slot_of};
ghost use Rattle.cloud_memory.specs.RecordBody.Spelling.{Kept, FitsKept, body_bytes, kept_bytes};
ghost use Rattle.checkpoints.specs.Laying.{IsNextInBuffer};
ghost use Rattle.checkpoints.specs.Picking.{IsNextPicked, batches};
ghost use Rattle.checkpoints.specs.Records.{kept_at, kept_from};
ghost use Rattle.cloud_memory.specs.Fitting.{AreSharePlaces};
ghost use Rattle.checkpoints.specs.Ready.{AreMarkedOwned};
ghost use Rattle.checkpoints.specs.Steps.{AreKept};

use crate::Marks;
use cloud_memory::{BodyBuf, Fp, KeptItem, Place, ShareIndex};

// The share in a slot, where there is one that no user owns. What is marked has an owner, and isn't looked up.
fn kept_at(shares: &ShareIndex, marks: &Marks, slot: u32) -> Option<KeptItem>
    requires fit { AreSharePlaces shares.now.places }
    requires owned { AreMarkedOwned shares.now marks.now }
    ensures kept { result ≡ kept_at shares.now.owners (slot_of shares.now.place_slots slot) }
    ensures fits { IfSome result FitsKept }
{
    if marks.has(slot) {
        return None;
    }
    match shares.place_at(slot) {
        Some((fp, place)) => {
            if shares.is_owned(&fp) {
                None
            } else {
                Some(KeptItem { fp, place })
            }
        }
        None => None,
    }
}

// The next share that no user owns from a slot on, and the slot behind it.
pub(crate) fn next_kept(shares: &ShareIndex, marks: &Marks, from: u32) -> Option<(KeptItem, u32)>
    requires fit { AreSharePlaces shares.now.places }
    requires owned { AreMarkedOwned shares.now marks.now }
    ensures next { IsNextPicked (kept_at shares.now.owners) shares.now.place_slots from result }
    ensures fits { IfSome result (λ found. FitsKept found.0) }
{
    for slot in from..shares.place_slots() {
        match kept_at(shares, marks, slot) {
            Some(item) => return Some((item, slot + 1)),
            None => {}
        }
    }
    None
}

// Takes up to 256 shares that no user owns from a slot on: how many they are, and the slot behind them.
fn take_batch(shares: &ShareIndex, marks: &Marks, from: u32, items: &mut [KeptItem]) -> (usize, u32)
    requires fit { AreSharePlaces shares.now.places }
    requires owned { AreMarkedOwned shares.now marks.now }
    requires room { length items.old ≡ 256 }
    ensures batch { AreKept shares.now from (take result.0 items.new) result.1 }
    ensures few { result.0 ≤ 256 }
{
    let mut at = from;
    for count in 0..256usize {
        match next_kept(shares, marks, at) {
            Some((item, behind)) => {
                items[count] = item;
                at = behind;
            }
            None => return (count, at),
        }
    }
    (256, at)
}

// Appends a share.
fn put_one(buffer: &mut BodyBuf, item: KeptItem)
    requires { length buffer.old + 44 ≤ 65535 }
    ensures value { buffer.new ≡ buffer.old ++ kept_bytes item }
    ensures len { length buffer.new ≤ length buffer.old + 44 }
{
    buffer.put_kept(&item);
}

// Writes the Kept of these shares.
fn write_items(buffer: &mut BodyBuf, items: &[KeptItem])
    requires { length items.now ≤ 256 }
    ensures { buffer.new ≡ body_bytes (Kept items.now) }
{
    buffer.start_kept(items.len() as u16);
    for item in items {
        put_one(buffer, *item);
    }
}

// Writes the next Kept from a slot on, if there is one, and answers the slot behind its shares.
pub(crate) fn write_kept(
    shares: &ShareIndex,
    marks: &Marks,
    from: u32,
    buffer: &mut BodyBuf,
) -> Option<u32>
    requires fit { AreSharePlaces shares.now.places }
    requires owned { AreMarkedOwned shares.now marks.now }
    ensures { MatchOption result (kept_from shares.now from ≡ [])
        (λ behind. IsNextInBuffer (map Kept (batches (kept_from shares.now from)))
        (map Kept (batches (kept_from shares.now behind))) buffer.new) }
{
    if from >= shares.place_slots() {
        return None;
    }
    let mut items = [KeptItem {
        fp: Fp([0; 32]),
        place: Place { at: 0, len: 0 },
    }; 256];
    let (count, behind) = take_batch(shares, marks, from, &mut items);
    if count > 0 {
        let (batch, _) = items.split_at(count);
        write_items(buffer, batch);
        Some(behind)
    } else {
        None
    }
}

// The slot behind all shares.
pub(crate) fn end_of_kept(shares: &ShareIndex) -> u32
    ensures { kept_from shares.now result ≡ [] }
{
    shares.place_slots()
}
