//! A pool of values in numbered slots, each charged to an account that has a limit.
//!
//! A pool takes all its memory when it is made. From then on a value goes in exactly while its account is below its limit,
//! and no call asks for memory: a refusal names the account's use and its limit, and gives the value back.
#![tactic(auto)]

ghost use Rattle.std.specs.Prelude.{◌≡◌, ◌+◌, ◌^◌, ◌<◌, ◌≤◌, ◌↔◌, length, sum, replicate, IsErr, IsTrue, IfOk, IfErr, OnErr, Some};
ghost use Rattle.std.specs.Borrow.{Lends, sem};

use std::alloc::{AllocError, Global};
use std::marker::Model;
use std::mem;

/// The number of a slot, from 0. A slot is live from the `take` that answered it until the `give` that empties it.
#[derive(Clone, Copy)]
pub struct Slot {
    pub number: u32,
}

/// What a slot holds: nothing, or an account's number and its value.
#[derive(Drop)]
pub enum Content<T> {
    Empty,
    Held(u32, T),
}

/// The account uses as many slots as its limit allows. The value comes back.
#[derive(Drop)]
pub struct PoolFull<T> {
    pub value: T,
    pub used: u32,
    pub limit: u32,
}

/// Values in numbered slots, each charged to an account that has a limit. Contracts see what each slot holds, a finite map
/// from the live slots to an account and a value, and each account's limit. It takes no memory once it is made.
#[derive(Drop)]
pub struct Pool<T> {
    // what the slots hold that have been taken; those behind them are empty, and their memory isn't touched
    cells: Vec<Content<T>>,
    // how many slots there are
    count: u32,
    // the empty slots among the cells
    free: Vec<u32>,
    // how many slots each account uses
    used: Vec<u32>,
    limits: Vec<u32>,
    // what a slot behind the cells holds
    empty: Content<T>,
}

impl<T> Model for Pool<T> {
    ghost use Rattle.std.specs.Prelude.{◌≡◌, vec_capacity};
    ghost use Rattle.slot_pool.specs.Pool.{PoolContents as Slots};
    ghost use Rattle.slot_pool.specs.declared.Content.TheVariants.{Empty};

    ghost Value = { Slots T };

    ghost use Rattle.slot_pool.specs.Sound.{IsLaid, all_slots};

    ghost view = { λ p. record { slots = all_slots p.cells.items p.count; limits = p.limits.items } };

    ghost invariant = { λ p. IsLaid p.cells.items p.count p.free.items p.used.items p.limits.items
        (vec_capacity p.cells) (vec_capacity p.free) × (p.empty ≡ Empty) };
}

impl<T> Content<T> {
    ghost use Rattle.slot_pool.specs.contracts.Content.{the_row};
    ghost use Rattle.slot_pool.specs.Pool.{value_of, IsHeld, with_value};

    fn is_held(&self) -> bool
        ensures { IsTrue result ↔ IsHeld self.now }
    {
        match self {
            Content::Held(_, _) => true,
            Content::Empty => false,
        }
    }

    fn value_mut(&mut self) -> &mut T
        requires { IsHeld self.old }
        ensures* writes_back { sem 𝓛 (Lends (the_row T.row) T.row self.entry result (with_value self.old)) }
        ensures value { value_of self.old ≡ Some result.now }
    {
        match self {
            Content::Held(_, value) => value,
            Content::Empty => unreachable!(),
        }
    }
}

impl<T> Pool<T> {
    ghost use Rattle.slot_pool.specs.declared.Content.TheVariants.{Empty, Held};
    ghost use Rattle.slot_pool.specs.Pool.{content, value_of, IsHeld, uses, IsAccount, limit_of, with_content};
    ghost use Rattle.slot_pool.specs.Lends.{lends_value};

    /// Stores a value in an empty slot and charges it to the account, which is one of those that the pool was made with.
    /// `PoolFull` comes exactly where the account's use is its limit, and the pool is then as before.
    pub fn take(&mut self, account: u32, value: T) -> Result<Slot, PoolFull<T>>
        requires { IsAccount self.old account }
        ensures was_empty { IfOk result (λ slot. content self.old slot.number ≡ Empty) }
        ensures in_range { IfOk result (λ slot. slot.number < length self.old.slots) }
        ensures ok { IfOk result (λ slot. self.new ≡ with_content self.old slot.number (Held account value)) }
        ensures refuses { IsErr result ↔ uses self.old account ≡ limit_of self.old account }
        ensures err { OnErr result (self.new ≡ self.old) }
        ensures value_back { IfErr result (λ full. full.value ≡ value) }
        ensures used { IfErr result (λ full. full.used ≡ uses self.old account) }
        ensures limit { IfErr result (λ full. full.limit ≡ limit_of self.old account) }
    {
        let used = self.used[account as usize];
        let limit = self.limits[account as usize];
        if used == limit {
            return Err(PoolFull { value, used, limit });
        }
        match self.free.pop() {
            Some(number) => {
                self.used[account as usize] = used + 1;
                match mem::replace(
                    &mut self.cells[number as usize],
                    Content::Held(account, value),
                ) {
                    Content::Empty => Ok(Slot { number }),
                    Content::Held(_, _) => unreachable!(),
                }
            }
            None => {
                let number = self.cells.len() as u32;
                self.used[account as usize] = used + 1;
                self.cells.push_reserved(Content::Held(account, value));
                Ok(Slot { number })
            }
        }
    }

    /// Takes the value out of a live slot, which is empty then. Its account may use one slot more.
    pub fn give(&mut self, slot: Slot) -> T
        requires { IsHeld (content self.old slot.number) }
        ensures value { value_of (content self.old slot.number) ≡ Some result }
        ensures emptied { self.new ≡ with_content self.old slot.number Empty }
    {
        match mem::replace(&mut self.cells[slot.number as usize], Content::Empty) {
            Content::Held(account, value) => {
                self.used[account as usize] -= 1;
                self.free.push_reserved(slot.number);
                value
            }
            Content::Empty => unreachable!(),
        }
    }

    /// The value in a live slot.
    pub fn get(&self, slot: Slot) -> &T
        requires { IsHeld (content self.now slot.number) }
        ensures { value_of (content self.now slot.number) ≡ Some result.now }
    {
        match &self.cells[slot.number as usize] {
            Content::Held(_, value) => value,
            Content::Empty => unreachable!(),
        }
    }

    /// The value in a live slot, for writing. The slot keeps its account.
    pub fn get_mut(&mut self, slot: Slot) -> &mut T
        requires { IsHeld (content self.old slot.number) }
        ensures* writes_back { sem 𝓛 (lends_value T.row self.entry slot.number result) }
        ensures value { value_of (content self.old slot.number) ≡ Some result.now }
    {
        self.cells[slot.number as usize].value_mut()
    }

    /// What a slot holds, be it live or not.
    pub fn look(&self, number: u32) -> &Content<T>
        requires { number < length self.now.slots }
        ensures { result.now ≡ content self.now number }
    {
        match self.cells.get(number as usize) {
            Some(content) => content,
            None => &self.empty,
        }
    }

    /// The number of slots, live or not, as given to `with_capacity`.
    pub fn slots(&self) -> u32
        ensures { result ≡ length self.now.slots }
    {
        self.count
    }

    /// Whether the slot is live: whether it holds a value.
    pub fn is_live(&self, slot: Slot) -> bool
        ensures { IsTrue result ↔ IsHeld (content self.now slot.number) }
    {
        slot.number < self.slots() && self.look(slot.number).is_held()
    }

    /// The number of accounts, which are numbered from 0, as given to `with_capacity`.
    pub fn accounts(&self) -> usize
        ensures { result ≡ length self.now.limits }
    {
        self.limits.len()
    }

    /// How many more slots the account may use: `take` succeeds exactly where this is above 0.
    pub fn spare(&self, account: u32) -> u32
        requires { IsAccount self.now account }
        ensures { result + uses self.now account ≡ limit_of self.now account }
    {
        self.limits[account as usize] - self.used[account as usize]
    }
}

impl<T: Drop> Pool<T> {
    ghost use Rattle.slot_pool.specs.declared.Content.TheVariants.{Empty};

    /// A pool of empty slots, with an account for each limit. The limits together are at most the number of slots.
    /// `AllocError` is want of memory. The memory of a slot is written to when it is first taken, and not here.
    pub fn with_capacity(alloc: Global, slots: u32, limits: &[u32]) -> Result<Self, AllocError>
        requires { sum limits.now ≤ slots }
        ensures slots { IfOk result (λ p. p.slots ≡ replicate slots Empty) }
        ensures limits { IfOk result (λ p. p.limits ≡ limits.now) }
    {
        let mut used = Vec::with_capacity(alloc, limits.len())?;
        for _limit in limits {
            used.push_reserved(0);
        }
        Ok(Pool {
            cells: Vec::with_capacity(alloc, slots as usize)?,
            count: slots,
            free: Vec::with_capacity(alloc, slots as usize)?,
            used,
            limits: limits.to_vec(alloc)?,
            empty: Content::Empty,
        })
    }
}
