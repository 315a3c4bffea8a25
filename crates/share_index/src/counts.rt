//! How many fingerprints each user owns.

ghost use Rattle.std.specs.Prelude.{◌≡◌, ◌+◌, ◌-◌, ◌<◌, ◌^◌, ℕ, IfOk, length};
ghost use Rattle.std.specs.FinMap as map;
ghost use Rattle.share_index.specs.Counts.{UserCounts as Counts, count_at, total, number_of, lowered, begun, sum_below};

use crate::key::UserNumber;
use pool_map::{HashTable, Table};
use std::alloc::{AllocError, Global};
use std::marker::Model;

/// The number of fingerprints of each user that has some, and the number of batches of 256 that they make.
#[derive(Drop)]
pub(crate) struct UserCounts {
    table: HashTable<UserNumber, u32>,
    batches: u32,
}

impl Model for UserCounts {
    ghost use Rattle.share_index.specs.Counts.{UserCounts as Counts};
    ghost use Rattle.share_index.specs.Coded.{counts_code};

    ghost Value = { Counts };

    ghost coded = { counts_code };

    ghost use Rattle.share_index.specs.Counting.{counts_of, IsCounting};

    ghost view = { λ c. counts_of c.table };

    ghost invariant = { λ c. IsCounting c.table c.batches };
}

// The batches of 256 that so many fingerprints begin.
fn begun(count: u32) -> u32
    ensures { result ≡ begun count }
{
    count.div_ceil(256)
}

impl UserCounts {
    /// No user has a fingerprint, and at most so many users will.
    pub(crate) fn make(alloc: Global, room: u32) -> Result<UserCounts, AllocError>
        ensures counts { IfOk result (λ made. made.counts ≡ map.empty) }
        ensures room { IfOk result (λ made. made.room ≡ room) }
    {
        let table = HashTable::make(alloc, room, [room].as_slice())?;
        Ok(UserCounts { table, batches: 0 })
    }

    /// How many fingerprints a user owns.
    pub(crate) fn count(&self, user: u32) -> u32
        ensures { result ≡ count_at self.now.counts user }
    {
        self.table
            .get(&UserNumber { value: user })
            .copied()
            .unwrap_or(0)
    }

    /// A user gets one more.
    pub(crate) fn raise(&mut self, user: u32)
        requires { total self.old.counts < self.old.room }
        ensures counts { self.new.counts ≡ map.insert self.old.counts (number_of user)
            (count_at self.old.counts user + 1) }
        ensures room { self.new.room ≡ self.old.room }
    {
        let key = UserNumber { value: user };
        match self.table.get(&key).copied() {
            Some(count) => {
                self.batches = self.batches - begun(count) + begun(count + 1);
                self.table.replace(&key, count + 1);
            }
            None => {
                self.batches += 1;
                match self.table.insert(0, key, 1) {
                    Ok(()) => {}
                    Err(_) => unreachable!(),
                }
            }
        }
    }

    /// A user that has some loses one.
    pub(crate) fn lower(&mut self, user: u32)
        requires { 0 < count_at self.old.counts user }
        ensures counts { self.new.counts ≡ lowered self.old.counts user }
        ensures room { self.new.room ≡ self.old.room }
    {
        let key = UserNumber { value: user };
        let count = self.count(user);
        self.batches = self.batches - begun(count) + begun(count - 1);
        if count == 1 {
            self.table.remove(&key);
        } else {
            self.table.replace(&key, count - 1);
        }
    }

    /// The batches of 256 that the users' fingerprints begin, each user's apart.
    pub(crate) fn batches(&self) -> u32
        ensures { result ≡ sum_below (2 ^ 32) (λ user. begun (count_at self.now.counts user)) }
    {
        self.batches
    }

    /// No user has a fingerprint.
    pub(crate) fn clear(&mut self)
        ensures counts { self.new.counts ≡ map.empty }
        ensures room { self.new.room ≡ self.old.room }
    {
        self.table.clear();
        self.batches = 0;
    }
}
