//! Each user's slots among the owners', in a chain.

ghost use Rattle.std.specs.Prelude.{◌≡◌, ◌↔◌, ℕ, ◌-◌, ◌<◌, ◌≤◌, min, length, option_map, replicate, slice_set, slice_index_or, IfOk, IsTrue};
ghost use Rattle.cloud_memory.specs.PoolMap.Slots.{slot_of};
ghost use Rattle.checkpoints.specs.Chained.{user_in, AreChained, HasChains, HasPlaces};

use crate::marks::SLOTS;
use cloud_memory::{CloudMemory, NoMemory, ShareIndex};
use std::alloc::Global;

// As many users as a cloud may have.
const USERS: usize = 256;

/// For each user of a cloud the first of its slots among the owners', and for each slot the next one of the same user: so a
/// user's slots are gone through without those of others. It takes all its memory when it is made.
#[derive(Drop)]
pub struct OwnerChains {
    pub(crate) firsts: Vec<u32>,
    pub(crate) nexts: Vec<u32>,
}

// The user in a slot, if there is one.
fn user_at(shares: &ShareIndex, slot: u32) -> Option<u32>
    ensures { result ≡ option_map user_in (slot_of shares.now.owner_slots slot) }
{
    match shares.owner_at(slot) {
        Some((owner, _)) => Some(owner.0),
        None => None,
    }
}

// Puts a slot in front of its user's chain, where the user has one.
fn link(firsts: &mut [u32], nexts: &mut [u32], user: u32, slot: u32)
    requires { slot < length nexts.old }
    ensures firsts { firsts.new ≡ slice_set firsts.old user slot }
    ensures nexts { nexts.new ≡ slice_set nexts.old slot (slice_index_or firsts.old user 0) }
{
    let place = user as usize;
    if place < firsts.len() {
        nexts[slot as usize] = firsts[place];
        firsts[place] = slot;
    } else {
        nexts[slot as usize] = 0;
    }
}

// Chains the slot before those that are chained.
fn chain_slot(shares: &ShareIndex, firsts: &mut [u32], nexts: &mut [u32], behind: u32)
    requires some { 0 < behind }
    requires inside { behind ≤ length nexts.old }
    ensures chained { (count : ℕ) → behind ≤ count
        → AreChained shares.now.owner_slots firsts.old nexts.old count behind
        → AreChained shares.now.owner_slots firsts.new nexts.new count (behind - 1) }
    ensures users { length firsts.new ≡ length firsts.old }
    ensures slots { length nexts.new ≡ length nexts.old }
{
    match user_at(shares, behind - 1) {
        Some(user) => link(firsts, nexts, user, behind - 1),
        None => {}
    }
}

// Chains the slots below this one, from the last to the first.
fn chain_below(shares: &ShareIndex, firsts: &mut [u32], nexts: &mut [u32], count: u32)
    requires inside { count ≤ length nexts.old }
    requires none { AreChained shares.now.owner_slots firsts.old nexts.old count count }
    ensures chained { AreChained shares.now.owner_slots firsts.new nexts.new count 0 }
    ensures users { length firsts.new ≡ length firsts.old }
    ensures slots { length nexts.new ≡ length nexts.old }
{
    let mut at = count;
    while at > 0 {
        chain_slot(shares, firsts, nexts, at);
        at -= 1;
    }
}

// How many slots are chained: all, or as many as there are places.
fn chained_slots(slots: u32, places: usize) -> u32
    ensures { result ≡ min slots places }
{
    if (slots as usize) < places {
        slots
    } else {
        places as u32
    }
}

// No slot is chained: each user's first is the number of slots.
fn begin(firsts: &mut [u32], count: u32)
    ensures { firsts.new ≡ replicate (length firsts.old) count }
{
    firsts.fill(count);
}

// Chains all slots that there are places for.
fn chain_all(shares: &ShareIndex, firsts: &mut [u32], nexts: &mut [u32])
    ensures chained { AreChained shares.now.owner_slots firsts.new nexts.new
        (min (length shares.now.owner_slots) (length nexts.new)) 0 }
    ensures users { length firsts.new ≡ length firsts.old }
    ensures slots { length nexts.new ≡ length nexts.old }
{
    let count = chained_slots(shares.owner_slots(), nexts.len());
    begin(firsts, count);
    chain_below(shares, firsts, nexts, count);
}

// The number at a place, or 0 past the last.
fn number_at(numbers: &[u32], place: u32) -> u32
    ensures { result ≡ slice_index_or numbers.now place 0 }
{
    let place = place as usize;
    if place < numbers.len() {
        numbers[place]
    } else {
        0
    }
}

// So many zeros.
fn zeros(alloc: Global, count: usize) -> Result<Vec<u32>, NoMemory>
    ensures { IfOk result (λ numbers. length numbers.items ≡ count) }
{
    let numbers = vec![in alloc; 0u32; count]?;
    Ok(numbers)
}

impl OwnerChains {
    /// Places for the chains of 256 users over 524,288 slots. It takes all its memory here: four bytes for each slot and
    /// each user.
    pub fn make(alloc: Global) -> Result<OwnerChains, NoMemory>
        ensures { IfOk result HasPlaces }
    {
        let firsts = zeros(alloc, USERS)?;
        let nexts = zeros(alloc, SLOTS)?;
        Ok(OwnerChains { firsts, nexts })
    }

    /// Chains the owners' slots of a memory, by one pass over them, in place of what was chained: a user's chain goes from
    /// the first of its slots to the next one of them, and so on, and ends at the number of slots. Slots past the 524,288th
    /// and users past the 256th have no chain.
    pub fn chain(&mut self, memory: &CloudMemory)
        ensures chained { HasChains memory.now.shares.owner_slots self.new }
        ensures places { HasPlaces self.old → HasPlaces self.new }
    {
        chain_all(memory.shares(), &mut self.firsts, &mut self.nexts);
    }

    // Whether there is a place for the user's first slot.
    pub(crate) fn has(&self, user: u32) -> bool
        ensures { IsTrue result ↔ user < length self.now.firsts.items }
    {
        (user as usize) < self.firsts.len()
    }

    // The user's first slot, or 0 where there is no place for it.
    pub(crate) fn first(&self, user: u32) -> u32
        ensures { result ≡ slice_index_or self.now.firsts.items user 0 }
    {
        number_at(&self.firsts, user)
    }

    // The next slot of the user that this one is of, or 0 where there is no place for it.
    pub(crate) fn next(&self, slot: u32) -> u32
        ensures { result ≡ slice_index_or self.now.nexts.items slot 0 }
    {
        number_at(&self.nexts, slot)
    }
}
