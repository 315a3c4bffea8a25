// A table whose slots are chained by their keys' words.
use super::chains::Chains;
use super::{Key, KeyedValue, Table, TableFull};
use slot_pool::{Content, Pool, Slot};
use std::alloc::{AllocError, Global};
use std::marker::Model;
use std::mem;

/// A table that is found in by the word of a key.
#[derive(Drop)]
pub struct HashTable<K: Key, W> {
    pool: Pool<KeyedValue<K, W>>,
    // where the slot of a key is
    chains: Chains,
    // how many slots hold a pair
    len: u32,
}

impl<K: Key, W> Model for HashTable<K, W> {
    ghost use Rattle.std.specs.Prelude.{◌≡◌, count_by};
    ghost use Rattle.slot_pool.specs.Pool.{PoolContents as Slots};
    ghost use Rattle.pool_map.specs.declared.KeyedValue.{KeyedValue};

    ghost Value = { Slots (KeyedValue K W) };

    ghost use Rattle.pool_map.specs.Table.{is_held};
    ghost use Rattle.pool_map.specs.Chains.{IsHashed};

    ghost view = { λ t. t.pool };

    ghost invariant = { λ t. IsHashed K.cmp K.word_of t.pool.slots t.chains.heads.items t.chains.next.items
        × (t.len ≡ count_by is_held t.pool.slots) };
}

ghost use Rattle.std.specs.Prelude.{◌≡◌, length, replicate};
ghost use Rattle.slot_pool.specs.declared.Content.TheVariants.{Empty};

impl<K: Key, W: Drop> HashTable<K, W> {
    ghost use Rattle.std.specs.Prelude.{◌≡◌, ◌≤◌, IfOk, IfSome, IfNone, sum, replicate, Some, None};
    ghost use Rattle.std.specs.FinMap as map;
    ghost use Rattle.slot_pool.specs.declared.Content.TheVariants.{Empty};
    ghost use Rattle.slot_pool.specs.Pool.{content, IsHeld};
    ghost use Rattle.pool_map.specs.Table.{contents, at_key, value_at, IsPresent, StandsAt, with_value_at, Rewrites, Drops};

    /// A table with no pair, with an account for each limit. The limits together are at most the number of slots. `AllocError`
    /// is want of memory.
    pub fn make(alloc: Global, slots: u32, limits: &[u32]) -> Result<Self, AllocError>
        requires { sum limits.now ≤ slots }
        ensures slots { IfOk result (λ t. t.slots ≡ replicate slots Empty) }
        ensures limits { IfOk result (λ t. t.limits ≡ limits.now) }
    {
        let pool = Pool::with_capacity(alloc, slots, limits)?;
        let chains = Chains::make(alloc, slots)?;
        Ok(HashTable {
            pool,
            chains,
            len: 0,
        })
    }

    /// Puts another value at a key that is present, and gives back the value before. The pair stays in its slot and is charged
    /// to the same account.
    pub fn replace(&mut self, key: &K, value: W) -> W
        requires { IsPresent K.cmp self.old key.now }
        ensures value { Some result ≡ value_at K.cmp self.old key.now }
        ensures replaced { contents K.cmp self.new ≡ with_value_at (contents K.cmp self.old) key.now value }
        ensures slots { Rewrites K.cmp self.old self.new key.now value }
    {
        match self.chains.find(&self.pool, key) {
            Some(number) => mem::replace(&mut self.pool.get_mut(Slot { number }).value, value),
            None => unreachable!(),
        }
    }

    /// The slot of a key, with its value. None comes exactly where the key is absent.
    pub fn find(&self, key: &K) -> Option<(u32, &W)>
        ensures value { IfSome result (λ found. value_at K.cmp self.now key.now ≡ Some found.1.now) }
        ensures absent { IfNone result (at_key K.cmp self.now key.now ≡ None) }
        ensures slot { IfSome result (λ found. StandsAt self.now key.now found.0) }
        ensures held { IfSome result (λ found. IsHeld (content self.now found.0)) }
    {
        match self.chains.find(&self.pool, key) {
            Some(number) => {
                let entry = self.pool.get(Slot { number });
                Some((number, &entry.value))
            }
            None => None,
        }
    }

    /// Puts another value in a slot that holds a pair, and gives back the value before. The pair is charged to the same
    /// account. Nothing is looked up.
    pub fn set_at(&mut self, slot: u32, value: W) -> W
        requires { IsHeld (content self.old slot) }
        ensures value { (key : K) → StandsAt self.old key slot → Some result ≡ value_at K.cmp self.old key }
        ensures replaced { (key : K) → StandsAt self.old key slot → contents K.cmp self.new
            ≡ with_value_at (contents K.cmp self.old) key value }
        ensures slots { (key : K) → StandsAt self.old key slot → Rewrites K.cmp self.old self.new key value }
    {
        mem::replace(&mut self.pool.get_mut(Slot { number: slot }).value, value)
    }

    /// Takes out the pair in a slot that holds one, and gives back its value. Its account may have one pair more. No key is
    /// looked up.
    pub fn remove_at(&mut self, slot: u32) -> W
        requires { IsHeld (content self.old slot) }
        ensures value { (key : K) → StandsAt self.old key slot → Some result ≡ value_at K.cmp self.old key }
        ensures removed { (key : K) → StandsAt self.old key slot → contents K.cmp self.new
            ≡ map.remove (contents K.cmp self.old) key }
        ensures slots { (key : K) → StandsAt self.old key slot → Drops K.cmp self.old self.new key }
    {
        let held = self.pool.get(Slot { number: slot });
        self.chains.unlink(&self.pool, &held.key, slot);
        self.len -= 1;
        let entry = self.pool.give(Slot { number: slot });
        entry.value
    }
}

impl<K: Key, W: Drop> Table<K, W> for HashTable<K, W> {
    ghost pool = { λ t. t };

    fn get(&self, key: &K) -> Option<&W> {
        match self.chains.find(&self.pool, key) {
            Some(number) => {
                let entry = self.pool.get(Slot { number });
                Some(&entry.value)
            }
            None => None,
        }
    }

    fn insert(&mut self, account: u32, key: K, value: W) -> Result<(), TableFull> {
        let start = self.chains.bucket(&key);
        match self.pool.take(account, KeyedValue { key, value }) {
            Ok(slot) => {
                self.chains.link(start, slot.number);
                self.len += 1;
                Ok(())
            }
            Err(full) => Err(TableFull {
                used: full.used,
                limit: full.limit,
            }),
        }
    }

    fn len(&self) -> u32 {
        self.len
    }

    fn spare(&self, account: u32) -> u32 {
        self.pool.spare(account)
    }

    fn accounts(&self) -> usize {
        self.pool.accounts()
    }

    fn slots(&self) -> u32 {
        self.pool.slots()
    }

    fn at(&self, slot: u32) -> Option<(&K, &W)> {
        if slot >= self.pool.slots() {
            return None;
        }
        match self.pool.look(slot) {
            Content::Held(_, entry) => Some((&entry.key, &entry.value)),
            Content::Empty => None,
        }
    }

    fn slot_of(&self, key: &K) -> Option<u32> {
        self.chains.find(&self.pool, key)
    }

    fn remove(&mut self, key: &K) -> Option<W> {
        match self.chains.find(&self.pool, key) {
            Some(number) => {
                self.chains.unlink(&self.pool, key, number);
                self.len -= 1;
                let entry = self.pool.give(Slot { number });
                Some(entry.value)
            }
            None => None,
        }
    }

    fn clear(&mut self) {
        empty(&mut self.pool);
        self.chains.reset();
        self.len = 0;
    }
}

// Empties each slot.
pub(super) fn empty<T: Drop>(pool: &mut Pool<T>)
    ensures slots { pool.new.slots ≡ replicate (length pool.old.slots) Empty }
    ensures limits { pool.new.limits ≡ pool.old.limits }
{
    for number in 0..pool.slots() {
        let held = match pool.look(number) {
            Content::Held(_, _) => true,
            Content::Empty => false,
        };
        if held {
            let _value = pool.give(Slot { number });
        }
    }
}
