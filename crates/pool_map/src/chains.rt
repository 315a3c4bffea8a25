// Chains of the slots of a pool, by their keys' words: how a key's slot is found.
ghost use Rattle.std.specs.Prelude.{◌≡◌, ◌≢◌, ◌<◌, ◌+◌, ◌/◌, ℕ, IfSome, IfNone, IfOk, length, replicate, slice_index, slice_set};
ghost use Rattle.slot_pool.specs.declared.Content.TheVariants.{Empty};
ghost use Rattle.pool_map.specs.Chains.{IsHashed, HasKey, LacksKey, bucket, IsLinked, UnlinksOwn, KeepsOtherChains};

use super::{Key, KeyedValue};
use slot_pool::{Pool, Slot};
use std::alloc::{AllocError, Global};
use std::cmp::Ordering;

/// A chain of slots for each bucket of keys.
#[derive(Drop)]
pub(super) struct Chains {
    // the first slot of each bucket's chain, or a number past the slots
    heads: Vec<u32>,
    // the slot after each slot in its chain, or a number past the slots
    next: Vec<u32>,
}

impl Chains {
    /// Chains of no slot, which so many may come into. There are five buckets for four slots, so that most chains are short.
    pub(super) fn make(alloc: Global, slots: u32) -> Result<Chains, AllocError>
        ensures heads { IfOk result (λ c. c.heads.items ≡ replicate (slots + slots / 4 + 1) u32.MAX) }
        ensures next { IfOk result (λ c. length c.next.items ≡ slots) }
    {
        let next = no_slots(alloc, slots as usize)?;
        let heads = no_slots(alloc, slots as usize + slots as usize / 4 + 1)?;
        Ok(Chains { heads, next })
    }

    /// The bucket of a key.
    pub(super) fn bucket<K: Key>(&self, key: &K) -> usize
        requires { 0 < length self.now.heads.items }
        ensures same { result ≡ bucket K.word_of (length self.now.heads.items) key.now }
        ensures in_range { result < length self.now.heads.items }
    {
        bucket_of(key, self.heads.len())
    }

    /// The slot of a key, if it has one.
    pub(super) fn find<K: Key, W>(&self, pool: &Pool<KeyedValue<K, W>>, key: &K) -> Option<u32>
        requires { IsHashed K.cmp K.word_of pool.now.slots self.now.heads.items self.now.next.items }
        ensures found { IfSome result (HasKey K.cmp pool.now.slots key.now) }
        ensures absent { IfNone result (LacksKey K.cmp pool.now.slots key.now) }
    {
        find(pool, &self.heads, &self.next, key)
    }

    /// Puts a slot at the front of a bucket's chain.
    pub(super) fn link(&mut self, start: usize, slot: u32)
        requires start { start < length self.old.heads.items }
        requires slot { slot < length self.old.next.items }
        ensures heads { self.new.heads.items ≡ slice_set self.old.heads.items start slot }
        ensures next { self.new.next.items ≡ slice_set self.old.next.items slot
            (slice_index self.old.heads.items start) }
    {
        self.next[slot as usize] = self.heads[start];
        self.heads[start] = slot;
    }

    /// Takes the slot of a key out of its chain, before the slot is emptied.
    pub(super) fn unlink<K: Key, W>(&mut self, pool: &Pool<KeyedValue<K, W>>, key: &K, slot: u32)
        requires hashed { IsHashed K.cmp K.word_of pool.now.slots self.old.heads.items self.old.next.items }
        requires here { HasKey K.cmp pool.now.slots key.now slot }
        ensures { IsHashed K.cmp K.word_of (slice_set pool.now.slots slot Empty)
            self.new.heads.items self.new.next.items }
    {
        let start = bucket_of(key, self.heads.len());
        unlink(&mut self.heads, &mut self.next, start, slot);
    }

    /// Takes each slot out.
    pub(super) fn reset(&mut self)
        ensures heads { self.new.heads.items ≡ replicate (length self.old.heads.items) u32.MAX }
        ensures next { self.new.next.items ≡ self.old.next.items }
    {
        reset(&mut self.heads);
    }
}

// The bucket of a key: the words are cut into as many equal ranges as there are buckets.
fn bucket_of<K: Key>(key: &K, buckets: usize) -> usize
    requires { 0 < buckets }
    ensures same { result ≡ bucket K.word_of buckets key.now }
    ensures in_range { result < buckets }
{
    ((key.word() as u128 * buckets as u128) >> 64) as usize
}

// The slot of a key, if it has one.
fn find<K: Key, W>(
    pool: &Pool<KeyedValue<K, W>>,
    heads: &[u32],
    next: &[u32],
    key: &K,
) -> Option<u32>
    requires { IsHashed K.cmp K.word_of pool.now.slots heads.now next.now }
    ensures found { IfSome result (HasKey K.cmp pool.now.slots key.now) }
    ensures absent { IfNone result (LacksKey K.cmp pool.now.slots key.now) }
{
    let start = bucket_of(key, heads.len());
    let mut at = heads[start];
    for _step in 0..next.len() {
        if at as usize >= next.len() {
            return None;
        }
        let entry = pool.get(Slot { number: at });
        match entry.key.cmp(key) {
            Ordering::Equal => return Some(at),
            _ => at = next[at as usize],
        }
    }
    None
}

// Takes a slot out of the chain of a bucket.
fn unlink(heads: &mut [u32], next: &mut [u32], start: usize, slot: u32)
    requires start_in { start < length heads.old }
    requires linked { IsLinked next.old (slice_index heads.old start) slot }
    ensures own { UnlinksOwn next.old next.new (slice_index heads.old start) (slice_index heads.new start) slot }
    ensures others { KeepsOtherChains next.old next.new (slice_index heads.old start) }
    ensures heads { (b : ℕ) → b ≢ start → slice_index heads.new b ≡ slice_index heads.old b }
{
    let after = next[slot as usize];
    let mut at = heads[start];
    if at == slot {
        heads[start] = after;
        return;
    }
    for _step in 0..next.len() {
        let following = next[at as usize];
        if following == slot {
            next[at as usize] = after;
            return;
        }
        at = following;
    }
    unreachable!()
}

// Makes each link one to no slot.
fn reset(links: &mut [u32])
    ensures { links.new ≡ replicate (length links.old) u32.MAX }
{
    for link in links.iter_mut() {
        *link = u32::MAX;
    }
}

// So many links to no slot.
fn no_slots(alloc: Global, count: usize) -> Result<Vec<u32>, AllocError>
    ensures { IfOk result (λ v. v.items ≡ replicate count u32.MAX) }
{
    let mut links = Vec::with_capacity(alloc, count)?;
    for _step in 0..count {
        links.push_reserved(u32::MAX);
    }
    Ok(links)
}
