//! What each user of a cloud has spent: how many shares it has put, their bytes, and the bytes of its recipes.
//!
//! A table takes all its memory when it is made.
#![tactic(auto)]

ghost use Rattle.std.specs.Prelude.{◌≡◌, ◌+◌, ◌<◌, ◌≤◌, ◌^◌, IfOk, length, replicate, slice_set};
ghost use Rattle.spent_table.specs.Spending.{nothing, spent_by, of_shares, of_recipe, both, reached};

pub use cd_base::{
    Bytes, CloudNo, Fp, NoMemory, Place, RECIPE_LIMIT, Room, Shape, Tag, UserId, Version, sha256,
};
use std::alloc::Global;
use std::marker::Model;

/// What a user has spent. Nothing is given back.
#[derive(Clone, Copy)]
pub struct Spent {
    /// How many shares it has put.
    pub owners: u32,
    /// The bytes of these shares.
    pub shares: u64,
    /// The bytes of the recipes that it has committed.
    pub recipes: u64,
}

impl Spent {
    /// No use at all.
    pub fn none() -> Spent
        ensures { result ≡ nothing }
    {
        Spent {
            owners: 0,
            shares: 0,
            recipes: 0,
        }
    }
}

/// What each user below a number of users has spent. Contracts see the list, by the user's number.
#[derive(Drop)]
pub struct SpentTable {
    rows: Vec<Spent>,
}

impl Model for SpentTable {
    ghost use Rattle.std.specs.Prelude.{List};
    ghost use Rattle.spent_table.specs.declared.Spent.{Spent};

    ghost Value = { List Spent };

    ghost view = { λ t. t.rows.items };
}

// The sum of the rows' shares, as far as 64 bits reach.
fn sum_of_shares(rows: &[Spent]) -> u64
    ensures { result ≡ reached (λ spent. spent.shares) rows.now }
{
    let mut sum: u64 = 0;
    for row in rows {
        sum = sum.saturating_add(row.shares);
    }
    sum
}

// The sum of the rows' recipes, as far as 64 bits reach.
fn sum_of_recipes(rows: &[Spent]) -> u64
    ensures { result ≡ reached (λ spent. spent.recipes) rows.now }
{
    let mut sum: u64 = 0;
    for row in rows {
        sum = sum.saturating_add(row.recipes);
    }
    sum
}

// Each row says that nothing is spent.
fn wipe(rows: &mut [Spent])
    ensures { rows.new ≡ replicate (length rows.old) nothing }
{
    rows.fill(Spent::none());
}

impl SpentTable {
    /// The table of users with the numbers below this one, none of whom has spent anything. It takes all its memory
    /// here.
    pub fn make(alloc: Global, users: u32) -> Result<SpentTable, NoMemory>
        requires { users ≤ 256 }
        ensures { IfOk result (λ table. table ≡ replicate users nothing) }
    {
        let rows = vec![in alloc; Spent::none(); users as usize]?;
        Ok(SpentTable { rows })
    }

    /// How many users have a place: those with the numbers below it.
    pub fn users(&self) -> usize
        ensures { result ≡ length self.now }
    {
        self.rows.len()
    }

    /// What a user has spent: nothing where it has no place.
    pub fn of(&self, user: UserId) -> Spent
        ensures { result ≡ spent_by self.now user }
    {
        let place = user.0 as usize;
        if place < self.rows.len() {
            self.rows[place]
        } else {
            Spent::none()
        }
    }

    /// Sets what a user with a place has spent. What the others have spent stays.
    pub fn set(&mut self, user: UserId, spent: Spent)
        requires { user.0 < length self.old }
        ensures { self.new ≡ slice_set self.old user.0 spent }
    {
        self.rows[user.0 as usize] = spent;
    }

    /// A user with a place puts so many shares more, of so many bytes. What the others have spent stays.
    pub fn add_shares(&mut self, user: UserId, owners: u32, bytes: u64)
        requires place { user.0 < length self.old }
        requires owners { (spent_by self.old user).owners + owners < 2 ^ 32 }
        requires bytes { (spent_by self.old user).shares + bytes < 2 ^ 64 }
        ensures { self.new ≡ slice_set self.old user.0 (both (spent_by self.old user) (of_shares owners bytes)) }
    {
        let spent = self.of(user);
        self.set(
            user,
            Spent {
                owners: spent.owners + owners,
                shares: spent.shares + bytes,
                recipes: spent.recipes,
            },
        );
    }

    /// A user with a place commits so many bytes of a recipe more. What the others have spent stays.
    pub fn add_recipe(&mut self, user: UserId, bytes: u64)
        requires place { user.0 < length self.old }
        requires bytes { (spent_by self.old user).recipes + bytes < 2 ^ 64 }
        ensures { self.new ≡ slice_set self.old user.0 (both (spent_by self.old user) (of_recipe bytes)) }
    {
        let spent = self.of(user);
        self.set(
            user,
            Spent {
                owners: spent.owners,
                shares: spent.shares,
                recipes: spent.recipes + bytes,
            },
        );
    }

    /// The bytes of shares that all users together have spent, or the greatest number of 64 bits where they are more.
    pub fn all_shares(&self) -> u64
        ensures { result ≡ reached (λ spent. spent.shares) self.now }
    {
        sum_of_shares(&self.rows)
    }

    /// The bytes of recipes that all users together have spent, or the greatest number of 64 bits where they are more.
    pub fn all_recipes(&self) -> u64
        ensures { result ≡ reached (λ spent. spent.recipes) self.now }
    {
        sum_of_recipes(&self.rows)
    }

    /// Nobody has spent anything any more. The places stay.
    pub fn clear(&mut self)
        ensures { self.new ≡ replicate (length self.old) nothing }
    {
        wipe(&mut self.rows);
    }
}
