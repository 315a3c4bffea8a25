//! Tables of a fixed number of slots, each pair charged to an account that has a limit.
#![tactic(auto)]

/// What a table's key has: an order in which only equal keys tie, and a word to hash by.
pub trait Key: Ord + Drop {
    ghost use Rattle.std.specs.Prelude.{◌≡◌, ℕ};
    ghost use Rattle.std.specs.declared.cmp.Ordering.TheVariants.{Equal};

    ghost word_of: { Self → ℕ };

    fn word(&self) -> u64
        ensures { result ≡ word_of self.now };

    // only equal keys tie
    ghost exact: { (x y : Self) → Self.cmp x y ≡ Equal → x ≡ y };
}

/// A key with its value.
#[derive(Drop)]
pub struct KeyedValue<K, W> {
    pub key: K,
    pub value: W,
}

/// The account has reached its limit.
#[derive(Clone, Copy)]
pub struct TableFull {
    pub used: u32,
    pub limit: u32,
}

/// A finite map from keys to an account and a value, of a fixed number of slots. Each pair stands in a slot of its own and is
/// charged to its account, of those that the table was made with. No call takes memory, and every answer but that of `at`
/// follows from the map and the limits alone, so that two tables with the same map answer alike.
pub trait Table<K: Key, W> {
    ghost use Rattle.std.specs.Prelude.{◌≡◌, ◌+◌, ◌<◌, ◌↔◌, List, ℕ, length, replicate, option_copied, option_map, is_some, IsErr, OnOk, OnErr, IfErr, IfSome, IfNone, Some, None, ◌≤◌};
    ghost use Rattle.std.specs.FinMap as map;
    ghost use Rattle.slot_pool.specs.Pool.{PoolContents as Slots, content, limit_of, IsAccount};
    ghost use Rattle.slot_pool.specs.declared.Content.TheVariants.{Empty, Held};
    ghost use Rattle.pool_map.specs.declared.KeyedValue.{KeyedValue};
    ghost use Rattle.pool_map.specs.Table.{contents, charged, at_key, value_at, pair_of, IsListing, Fills, Drops};

    /// What each slot holds, and the limit of each account.
    ghost pool: { Self → Slots (KeyedValue K W) };

    /// The value of a key, if the key is present.
    fn get(&self, key: &K) -> Option<&W>
        ensures value { option_copied result ≡ value_at K.cmp (pool self.now) key.now }
        ensures absent { IfNone result (at_key K.cmp (pool self.now) key.now ≡ None) };

    /// Adds an absent key with its value, charged to the account. `TableFull` comes exactly where the account has as many
    /// pairs as its limit, and the table is then as before.
    fn insert(&mut self, account: u32, key: K, value: W) -> Result<(), TableFull>
        requires is_account { IsAccount (pool self.old) account }
        requires absent { at_key K.cmp (pool self.old) key ≡ None }
        ensures ok { OnOk result (contents K.cmp (pool self.new)
            ≡ map.insert (contents K.cmp (pool self.old)) key (account, value)) }
        ensures placed { OnOk result (Fills (pool self.old) (pool self.new)
            (Held account (record { key = key; value = value }))) }
        ensures refuses { IsErr result ↔ charged (contents K.cmp (pool self.old)) account
            ≡ limit_of (pool self.old) account }
        ensures err { OnErr result (pool self.new ≡ pool self.old) }
        ensures used { IfErr result (λ full. full.used ≡ charged (contents K.cmp (pool self.old)) account) }
        ensures limit { IfErr result (λ full. full.limit ≡ limit_of (pool self.old) account) };

    /// The number of keys. Each has a slot of its own.
    fn len(&self) -> u32
        ensures keys { result ≡ map.len (contents K.cmp (pool self.now)) }
        ensures fits { result ≤ length (pool self.now).slots };

    /// How many more pairs the account may have: `insert` succeeds exactly where this is above 0.
    fn spare(&self, account: u32) -> u32
        requires { IsAccount (pool self.now) account }
        ensures { result + charged (contents K.cmp (pool self.now)) account ≡ limit_of (pool self.now) account };

    /// The number of accounts, which are numbered from 0.
    fn accounts(&self) -> usize
        ensures { result ≡ length (pool self.now).limits };

    /// The number of slots, which are numbered from 0, with a pair or without.
    fn slots(&self) -> u32
        ensures { result ≡ length (pool self.now).slots };

    /// The pair in a slot, if there is one: a slot past the last has none. Each pair of the map stands in just one slot.
    fn at(&self, slot: u32) -> Option<(&K, &W)>
        ensures pair { option_map (λ pair. (pair.0.now, pair.1.now)) result ≡ pair_of (content (pool self.now) slot) }
        ensures each { IsListing K.cmp (pool self.now) };

    /// The slot of a key, at which `at` answers it with its value. None comes exactly where the key is absent.
    fn slot_of(&self, key: &K) -> Option<u32>
        ensures slot { IfSome result (λ slot. pair_of (content (pool self.now) slot)
            ≡ option_map (λ value. (key.now, value)) (value_at K.cmp (pool self.now) key.now)) }
        ensures present { is_some result ≡ is_some (at_key K.cmp (pool self.now) key.now) };

    /// Takes a key out, with its value, if it is present. Its account may have one pair more.
    fn remove(&mut self, key: &K) -> Option<W>
        ensures value { result ≡ value_at K.cmp (pool self.old) key.now }
        ensures removed { contents K.cmp (pool self.new) ≡ map.remove (contents K.cmp (pool self.old)) key.now }
        ensures slots { Drops K.cmp (pool self.old) (pool self.new) key.now };

    /// Takes each key out. The limits stay.
    fn clear(&mut self)
        ensures emptied { contents K.cmp (pool self.new) ≡ map.empty }
        ensures slots { (pool self.new).slots ≡ replicate (length (pool self.old).slots) Empty }
        ensures limits { (pool self.new).limits ≡ (pool self.old).limits };
}

mod accounts;
mod chains;
mod guide;
mod hashed;
mod number;
mod sorted;

pub use accounts::{Accounts, IndexErr};
pub use hashed::HashTable;
pub use number::Number;
pub use slot_pool::{Pool, PoolFull, Slot};
pub use sorted::SortedTable;
