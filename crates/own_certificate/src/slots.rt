//! The slots that have something alive, in the order of a certificate's lines.

ghost use Rattle.std.specs.Prelude.{◌≡◌, ◌≤◌, ◌<◌, ◌^◌, IfOk, length, map};
ghost use Rattle.std.specs.FinMap.{entries};
ghost use Rattle.audit_base.specs.FileIndex.Files.{entry_with};
ghost use Rattle.audit_base.specs.ShareIndex.Shares.{place_with};
ghost use Rattle.pool_map.specs.Slots.{slot_of, IsListed};
ghost use Rattle.audit_base.specs.CloudMemory.Live.{live_at, IsEachLive};
ghost use Rattle.audit_base.specs.Own.{live_shares};
ghost use Rattle.audit_base.specs.Whole.{tables_of};
ghost use Rattle.own_certificate.specs.Inner.{some_below, share_at, file_at};

use audit_base::{CloudMemory, Entry, FileKey, Fp, NoMemory, Place};
use std::alloc::Global;

// The share in a slot.
pub(crate) fn share_in(memory: &CloudMemory, slot: u32) -> (Fp, Place)
    ensures value { place_with result ≡ share_at memory.now.shares slot }
    ensures each { IsEachLive memory.now.shares }
{
    match memory.live_share(slot) {
        Some(share) => share,
        None => (Fp([0; 32]), Place { at: 0, len: 0 }),
    }
}

// The entry in a slot, and its key.
pub(crate) fn file_in(memory: &CloudMemory, slot: u32) -> (FileKey, Entry)
    ensures value { result ≡ file_at memory.now.files slot }
    ensures each { IsListed memory.now.files.files memory.now.files.slots }
{
    match memory.live_file(slot) {
        Some((user, tag, version, entry)) => (FileKey::of(user, &tag, version), entry),
        None => {
            let key = FileKey {
                user: 0,
                tag: [0; 32],
                version: 0,
            };
            let entry = Entry {
                at: 0,
                len: 0,
                fp: Fp([0; 32]),
            };
            (key, entry)
        }
    }
}

// The slots with a share that some user owns, by their numbers.
fn share_slots(alloc: Global, memory: &CloudMemory) -> Result<Vec<u32>, NoMemory>
    ensures { IfOk result (λ slots. slots.items
        ≡ some_below (live_at memory.now.shares) (length memory.now.shares.place_slots)) }
{
    let mut slots = Vec::new(alloc);
    for slot in 0..memory.shares().place_slots() {
        if memory.live_share(slot).is_some() {
            slots.push(slot)?;
        }
    }
    Ok(slots)
}

// The slots with an entry, by their numbers.
fn file_slots(alloc: Global, memory: &CloudMemory) -> Result<Vec<u32>, NoMemory>
    ensures { IfOk result (λ slots. slots.items
        ≡ some_below (slot_of memory.now.files.slots) (length memory.now.files.slots)) }
{
    let mut slots = Vec::new(alloc);
    for slot in 0..memory.files().slots() {
        if memory.live_file(slot).is_some() {
            slots.push(slot)?;
        }
    }
    Ok(slots)
}

// What the slots of shares are sorted by.
fn fp_in(memory: &CloudMemory, slot: u32) -> Fp
    ensures { result ≡ record { 0 = (share_at memory.now.shares slot).0 } }
{
    share_in(memory, slot).0
}

// What the slots of entries are sorted by.
fn key_in(memory: &CloudMemory, slot: u32) -> FileKey
    ensures { result ≡ (file_at memory.now.files slot).0 }
{
    file_in(memory, slot).0
}

// Sorts the slots of shares by their fingerprints.
fn sort_shares(memory: &CloudMemory, slots: &mut [u32])
    requires { slots.old ≡ some_below (live_at memory.now.shares) (length memory.now.shares.place_slots) }
    ensures { map (share_at memory.now.shares) slots.new ≡ live_shares (tables_of memory.now) }
{
    let _known = share_in(memory, 0);
    slots.sort_unstable_by_key(|slot| fp_in(memory, *slot));
}

// Sorts the slots of entries by users, tags and versions.
fn sort_files(memory: &CloudMemory, slots: &mut [u32])
    requires { slots.old ≡ some_below (slot_of memory.now.files.slots) (length memory.now.files.slots) }
    ensures { map (file_at memory.now.files) slots.new ≡ entries memory.now.files.files }
{
    let _known = file_in(memory, 0);
    slots.sort_unstable_by_key(|slot| key_in(memory, *slot));
}

// The slots with a share that some user owns, by their fingerprints.
pub(crate) fn shares_in_order(alloc: Global, memory: &CloudMemory) -> Result<Vec<u32>, NoMemory>
    ensures { IfOk result (λ slots. map (share_at memory.now.shares) slots.items
        ≡ live_shares (tables_of memory.now)) }
{
    let mut slots = share_slots(alloc, memory)?;
    sort_shares(memory, &mut slots);
    Ok(slots)
}

// The slots with an entry, by users, tags and versions.
pub(crate) fn files_in_order(alloc: Global, memory: &CloudMemory) -> Result<Vec<u32>, NoMemory>
    ensures { IfOk result (λ slots. map (file_at memory.now.files) slots.items ≡ entries memory.now.files.files) }
{
    let mut slots = file_slots(alloc, memory)?;
    sort_files(memory, &mut slots);
    Ok(slots)
}
