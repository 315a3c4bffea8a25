// A table whose slots are linked in the order of their keys.
use super::chains::Chains;
use super::hashed::empty;
use super::{Key, KeyedValue, Table, TableFull, guide};
use slot_pool::{Content, Pool, Slot};
use slot_tree::SlotTree;
use std::alloc::{AllocError, Global};
use std::cmp::Ordering;
use std::marker::Model;
use std::mem;

/// A table that goes through its keys in order.
#[derive(Drop)]
pub struct SortedTable<K: Key, W> {
    pool: Pool<KeyedValue<K, W>>,
    // where the slot of a key is
    chains: Chains,
    // a ring of the slots that hold a pair, in the order of their keys: the slot after each, and at the number of slots the
    // first. After the last slot comes the number of slots
    next: Vec<u32>,
    // where in the ring a key would go
    tree: SlotTree,
    // how many slots hold a pair
    len: u32,
}

impl<K: Key, W> Model for SortedTable<K, W> {
    ghost use Rattle.std.specs.Prelude.{◌≡◌, count_by};
    ghost use Rattle.slot_pool.specs.Pool.{PoolContents as Slots};
    ghost use Rattle.pool_map.specs.declared.KeyedValue.{KeyedValue};

    ghost Value = { Slots (KeyedValue K W) };

    ghost use Rattle.pool_map.specs.Table.{is_held};
    ghost use Rattle.pool_map.specs.Chains.{IsHashed};
    ghost use Rattle.pool_map.specs.Index.{IsOrdered};

    ghost view = { λ t. t.pool };

    ghost invariant = { λ t. IsOrdered K.cmp t.pool.slots t.next.items × (t.len ≡ count_by is_held t.pool.slots)
        × IsHashed K.cmp K.word_of t.pool.slots t.chains.heads.items t.chains.next.items };
}

ghost use Rattle.std.specs.Prelude.{◌≡◌, ◌+◌, ◌<◌, IfOk, IfErr, length, replicate, slice_index, slice_set};
ghost use Rattle.pool_map.specs.Index.{IsOrdered, IsStart, IsBeforeKey, IsBeforeGap};

// The slot after which a key stands in the ring, or after which it would go. The search begins at the slot of a smaller key, or
// at the number of slots.
fn place<K: Key, W>(
    pool: &Pool<KeyedValue<K, W>>,
    next: &[u32],
    start: u32,
    key: &K,
) -> Result<u32, u32>
    requires ordered { IsOrdered K.cmp pool.now.slots next.now }
    requires start { IsStart K.cmp pool.now.slots key.now start }
    ensures found { IfOk result (IsBeforeKey K.cmp pool.now.slots next.now key.now) }
    ensures absent { IfErr result (IsBeforeGap K.cmp pool.now.slots next.now key.now) }
{
    let end = pool.slots();
    let mut at = start;
    for _step in 0..end {
        let after = next[at as usize];
        if after == end {
            return Err(at);
        }
        let entry = pool.get(Slot { number: after });
        match entry.key.cmp(key) {
            Ordering::Less => at = after,
            Ordering::Equal => return Ok(at),
            Ordering::Greater => return Err(at),
        }
    }
    Err(at)
}

// Links a slot into the ring, after another. Answers what comes after it.
fn link(next: &mut [u32], before: u32, slot: u32) -> u32
    requires before { before < length next.old }
    requires slot { slot < length next.old }
    ensures after { result ≡ slice_index next.old before }
    ensures linked { next.new ≡ slice_set (slice_set next.old slot (slice_index next.old before)) before slot }
{
    let after = next[before as usize];
    next[slot as usize] = after;
    next[before as usize] = slot;
    after
}

// A slot that was taken out of the ring, and the one that came after it.
#[derive(Clone, Copy)]
struct Unlinked {
    slot: u32,
    after: u32,
}

// Takes the slot after another out of the ring.
fn unlink(next: &mut [u32], before: u32) -> Unlinked
    requires before { before < length next.old }
    requires slot { slice_index next.old before < length next.old }
    ensures slot { result.slot ≡ slice_index next.old before }
    ensures unlinked { next.new ≡ slice_set next.old before (slice_index next.old (slice_index next.old before)) }
{
    let slot = next[before as usize];
    let after = next[slot as usize];
    next[before as usize] = after;
    Unlinked { slot, after }
}

// The ring of no slot.
fn ring(alloc: Global, slots: u32) -> Result<Vec<u32>, AllocError>
    ensures { IfOk result (λ v. v.items ≡ replicate (slots + 1) slots) }
{
    let mut next = Vec::with_capacity(alloc, slots as usize + 1)?;
    for _step in 0..slots as usize + 1 {
        next.push_reserved(slots);
    }
    Ok(next)
}

impl<K: Key, W: Drop> SortedTable<K, W> {
    ghost use Rattle.std.specs.Prelude.{◌≡◌, ◌≤◌, IfOk, sum, replicate};
    ghost use Rattle.slot_pool.specs.declared.Content.TheVariants.{Empty};

    /// A table with no pair, with an account for each limit. The limits together are at most the number of slots. `AllocError`
    /// is want of memory.
    pub fn make(alloc: Global, slots: u32, limits: &[u32]) -> Result<Self, AllocError>
        requires { sum limits.now ≤ slots }
        ensures slots { IfOk result (λ t. t.slots ≡ replicate slots Empty) }
        ensures limits { IfOk result (λ t. t.limits ≡ limits.now) }
    {
        let pool = Pool::with_capacity(alloc, slots, limits)?;
        let chains = Chains::make(alloc, slots)?;
        let next = ring(alloc, slots)?;
        let tree = SlotTree::make(alloc, slots)?;
        Ok(SortedTable {
            pool,
            chains,
            next,
            tree,
            len: 0,
        })
    }
}

impl<K: Key, W: Drop> SortedTable<K, W> {
    ghost use Rattle.std.specs.Prelude.{◌≡◌, Some};
    ghost use Rattle.pool_map.specs.Table.{contents, value_at, IsPresent, with_value_at, Rewrites};

    /// Puts another value at a key that is present, and gives back the value before. The pair stays in its slot and is charged
    /// to the same account.
    pub fn replace(&mut self, key: &K, value: W) -> W
        requires { IsPresent K.cmp self.old key.now }
        ensures value { Some result ≡ value_at K.cmp self.old key.now }
        ensures replaced { contents K.cmp self.new ≡ with_value_at (contents K.cmp self.old) key.now value }
        ensures slots { Rewrites K.cmp self.old self.new key.now value }
    {
        match self.chains.find(&self.pool, key) {
            Some(number) => mem::replace(&mut self.pool.get_mut(Slot { number }).value, value),
            None => unreachable!(),
        }
    }
}

impl<K: Key, W> SortedTable<K, W> {
    ghost use Rattle.std.specs.Prelude.{◌≡◌, MatchOption};
    ghost use Rattle.pool_map.specs.Table.{contents, IsLeastAbove, HasNoneAbove};

    /// The least key that is greater, if there is one. The key itself need not be present.
    pub fn above(&self, key: &K) -> Option<&K>
        ensures { MatchOption result (HasNoneAbove (contents K.cmp self.now) key.now)
            (λ answer. IsLeastAbove (contents K.cmp self.now) key.now answer.now) }
    {
        let start = guide::closest(&self.tree, &self.pool, key);
        let at = match place(&self.pool, &self.next, start, key) {
            Ok(before) => self.next[self.next[before as usize] as usize],
            Err(before) => self.next[before as usize],
        };
        if at < self.pool.slots() {
            let entry = self.pool.get(Slot { number: at });
            Some(&entry.key)
        } else {
            None
        }
    }
}

impl<K: Key, W: Drop> Table<K, W> for SortedTable<K, W> {
    ghost pool = { λ t. t };

    fn get(&self, key: &K) -> Option<&W> {
        match self.chains.find(&self.pool, key) {
            Some(number) => {
                let entry = self.pool.get(Slot { number });
                Some(&entry.value)
            }
            None => None,
        }
    }

    fn insert(&mut self, account: u32, key: K, value: W) -> Result<(), TableFull> {
        let start = self.chains.bucket(&key);
        let closest = guide::closest(&self.tree, &self.pool, &key);
        match place(&self.pool, &self.next, closest, &key) {
            Ok(_) => unreachable!(),
            Err(before) => match self.pool.take(account, KeyedValue { key, value }) {
                Ok(slot) => {
                    self.chains.link(start, slot.number);
                    let after = link(&mut self.next, before, slot.number);
                    self.tree.insert(before, after, slot.number);
                    self.len += 1;
                    Ok(())
                }
                Err(full) => Err(TableFull {
                    used: full.used,
                    limit: full.limit,
                }),
            },
        }
    }

    fn len(&self) -> u32 {
        self.len
    }

    fn spare(&self, account: u32) -> u32 {
        self.pool.spare(account)
    }

    fn accounts(&self) -> usize {
        self.pool.accounts()
    }

    fn slots(&self) -> u32 {
        self.pool.slots()
    }

    fn at(&self, slot: u32) -> Option<(&K, &W)> {
        if slot >= self.pool.slots() {
            return None;
        }
        match self.pool.look(slot) {
            Content::Held(_, entry) => Some((&entry.key, &entry.value)),
            Content::Empty => None,
        }
    }

    fn slot_of(&self, key: &K) -> Option<u32> {
        self.chains.find(&self.pool, key)
    }

    fn remove(&mut self, key: &K) -> Option<W> {
        let slot = self.chains.find(&self.pool, key)?;
        let start = guide::before(&self.tree, &self.pool, key, slot);
        match place(&self.pool, &self.next, start, key) {
            Ok(before) => {
                let gone = unlink(&mut self.next, before);
                self.chains.unlink(&self.pool, key, gone.slot);
                self.tree.remove(before, gone.slot, gone.after);
                self.len -= 1;
                let entry = self.pool.give(Slot { number: gone.slot });
                Some(entry.value)
            }
            Err(_) => None,
        }
    }

    fn clear(&mut self) {
        let end = self.pool.slots();
        empty(&mut self.pool);
        self.chains.reset();
        self.next[end as usize] = end;
        self.tree.clear();
        self.len = 0;
    }
}
