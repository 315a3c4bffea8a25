//! The order in which blobs are read.

ghost use Rattle.std.specs.Prelude.{◌≡◌, ℕ, length, IfOk};
ghost use Rattle.pool_map.specs.Slots.{IsListed};
ghost use Rattle.audit_base.specs.CloudMemory.Live.{IsEachLive};
ghost use Rattle.blob_audit.specs.Holding.{HasAll};

use audit_base::{CloudMemory, NoMemory};
use std::alloc::Global;

// How many slots there are for shares. Nothing lives behind them.
fn share_slots(memory: &CloudMemory) -> u32
    ensures slots { result ≡ length memory.now.shares.place_slots }
    ensures each { IsEachLive memory.now.shares }
{
    let slots = memory.shares().place_slots();
    let _behind = memory.live_share(slots);
    slots
}

// How many slots there are for entries. Nothing stands behind them.
fn file_slots(memory: &CloudMemory) -> u32
    ensures slots { result ≡ length memory.now.files.slots }
    ensures each { IsListed memory.now.files.files memory.now.files.slots }
{
    let slots = memory.files().slots();
    let _behind = memory.live_file(slots);
    slots
}

// Where the share in a slot lies. Slots without one come last.
fn share_place(memory: &CloudMemory, slot: u32) -> u64 {
    match memory.live_share(slot) {
        Some((_, place)) => place.at,
        None => u64::MAX,
    }
}

// Where the recipe of the entry in a slot lies. Slots without one come last.
fn file_place(memory: &CloudMemory, slot: u32) -> u64 {
    match memory.live_file(slot) {
        Some((_, _, _, entry)) => entry.at,
        None => u64::MAX,
    }
}

// The slots of shares, each behind its place.
fn placed_shares(
    alloc: Global,
    memory: &CloudMemory,
    slots: u32,
) -> Result<Vec<(u64, u32)>, NoMemory>
    ensures { IfOk result (λ order. HasAll slots order.items) }
{
    let mut order = Vec::with_capacity(alloc, slots as usize)?;
    for slot in 0..slots {
        order.push((share_place(memory, slot), slot))?;
    }
    Ok(order)
}

// The slots of entries, each behind its recipe's place.
fn placed_files(
    alloc: Global,
    memory: &CloudMemory,
    slots: u32,
) -> Result<Vec<(u64, u32)>, NoMemory>
    ensures { IfOk result (λ order. HasAll slots order.items) }
{
    let mut order = Vec::with_capacity(alloc, slots as usize)?;
    for slot in 0..slots {
        order.push((file_place(memory, slot), slot))?;
    }
    Ok(order)
}

// Sorts slots by their places.
fn sort(order: &mut [(u64, u32)])
    ensures { (slots : ℕ) → HasAll slots order.old → HasAll slots order.new }
{
    order.sort_unstable();
}

// The slots of shares, in the order of their places.
fn shares_in_order(alloc: Global, memory: &CloudMemory) -> Result<Vec<(u64, u32)>, NoMemory>
    ensures all { IfOk result (λ order. HasAll (length memory.now.shares.place_slots) order.items) }
    ensures each { IsEachLive memory.now.shares }
{
    let mut order = placed_shares(alloc, memory, share_slots(memory))?;
    sort(&mut order);
    Ok(order)
}

// The slots of entries, in the order of their recipes' places.
fn files_in_order(alloc: Global, memory: &CloudMemory) -> Result<Vec<(u64, u32)>, NoMemory>
    ensures all { IfOk result (λ order. HasAll (length memory.now.files.slots) order.items) }
    ensures each { IsListed memory.now.files.files memory.now.files.slots }
{
    let mut order = placed_files(alloc, memory, file_slots(memory))?;
    sort(&mut order);
    Ok(order)
}

/// The slots of both tables, each in the order of places.
#[derive(Drop)]
pub(crate) struct Orders {
    pub(crate) shares: Vec<(u64, u32)>,
    pub(crate) files: Vec<(u64, u32)>,
}

/// The slots of shares and those of entries, in the order of their places.
pub(crate) fn both_in_order(alloc: Global, memory: &CloudMemory) -> Result<Orders, NoMemory>
    ensures shares { IfOk result (λ orders. HasAll (length memory.now.shares.place_slots) orders.shares.items) }
    ensures files { IfOk result (λ orders. HasAll (length memory.now.files.slots) orders.files.items) }
    ensures live { IfOk result (λ orders. IsEachLive memory.now.shares) }
    ensures listed { IfOk result (λ orders. IsListed memory.now.files.files memory.now.files.slots) }
{
    let shares = shares_in_order(alloc, memory)?;
    let files = files_in_order(alloc, memory)?;
    Ok(Orders { shares, files })
}
