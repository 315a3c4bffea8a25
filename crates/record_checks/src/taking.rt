//! What an opening keeps of its records beside the memory.

ghost use Rattle.std.specs.Prelude.{◌≡◌, ℕ, ◌+◌, ◌<◌, ◌^◌, Bool, List, length, slice_set, slice_index_or, true};
ghost use Rattle.std.specs.Prelude.{IsTrue, ◌↔◌, IfErr, OnOk};
ghost use Rattle.cloud_memory.specs.RecordBody.Spelling.{Spent as SpentRecord};
ghost use Rattle.cloud_memory.specs.Rooms.{memory_of, HasRooms};
ghost use Rattle.record_checks.specs.Checks.{MayHaveSpent};
ghost use Rattle.record_checks.specs.Noting.{nothing_noted, EndsGrow};
ghost use Rattle.record_checks.specs.Steps.{JudgedAs};

use crate::limits::{owners_limit, recipes_limit, shares_limit};
use crate::{Damage, Ground};
use cloud_memory::{CloudMemory, Spent, SpentBody, UserId};

// Where the user stands in the body of a Spent.
const USER: usize = 1;

/// What an opening keeps of the records so far beside the memory: which users have a Spent, and where in the journal
/// the place of the first blob stands that ends at the end of the shares, and at that of the recipes. It takes no
/// memory.
#[derive(Clone, Copy)]
pub struct Taking {
    spent: [bool; 256],
    pub(crate) shares_field: Option<Damage>,
    pub(crate) recipes_field: Option<Damage>,
}

impl Taking {
    /// What is kept before the first record.
    pub fn new() -> Taking
        ensures { result ≡ nothing_noted }
    {
        Taking {
            spent: [false; 256],
            shares_field: None,
            recipes_field: None,
        }
    }

    /// The first byte of the place of the first blob that ends at the end of the shares, as a damage would name it,
    /// or None where no record has moved that end.
    pub fn shares_field(&self) -> Option<Damage>
        ensures { result ≡ self.now.shares_field }
    {
        self.shares_field
    }

    /// The same of the recipes.
    pub fn recipes_field(&self) -> Option<Damage>
        ensures { result ≡ self.now.recipes_field }
    {
        self.recipes_field
    }

    // Whether the user has a Spent, or may have none: no rooms are for a number of 256 or more.
    fn has_spent(&self, user: UserId) -> bool
        ensures { result ≡ slice_index_or self.now.spent user.0 true }
    {
        let place = user.0 as usize;
        place >= self.spent.len() || self.spent[place]
    }

    // The user has a Spent.
    fn mark(&mut self, user: UserId)
        ensures spent { self.new.spent ≡ slice_set self.old.spent user.0 true }
        ensures shares { self.new.shares_field ≡ self.old.shares_field }
        ensures recipes { self.new.recipes_field ≡ self.old.recipes_field }
    {
        let place = user.0 as usize;
        if place < self.spent.len() {
            self.spent[place] = true;
        }
    }
}

// Whether the user may have a Spent and has none yet, and may have spent what this one says.
fn is_allowed(taking: &Taking, ground: &Ground, spent: &SpentBody) -> bool
    ensures { IsTrue result ↔ MayHaveSpent ground.now taking.now.spent spent.now }
{
    !taking.has_spent(spent.user)
        && u64::from(spent.owners) <= owners_limit(&ground.rooms, spent.user)
        && spent.shares <= shares_limit(&ground.rooms, spent.user)
        && spent.recipes <= recipes_limit(&ground.rooms, spent.user)
}

/// Takes the record of a Spent, or gives the place in its body of the field that is damaged.
pub(crate) fn take_spent(
    memory: &mut CloudMemory,
    taking: &mut Taking,
    ground: &Ground,
    inside: bool,
    spent: &SpentBody,
) -> Result<(), usize>
    requires rooms { HasRooms ground.now.rooms memory.old }
    ensures judged { (read : List ℕ) → JudgedAs ground.now inside read taking.old.spent (memory_of memory.old)
        (SpentRecord spent.now) result (memory_of memory.new) }
    ensures within { IfErr result (λ place. place < 25) }
    ensures marks { OnOk result (taking.new.spent ≡ slice_set taking.old.spent spent.now.user.0 true) }
    ensures shares { taking.new.shares_field ≡ taking.old.shares_field }
    ensures recipes { taking.new.recipes_field ≡ taking.old.recipes_field }
    ensures rooms { HasRooms ground.now.rooms memory.new }
    ensures ends { EndsGrow ground.now (memory_of memory.old) (memory_of memory.new) }
{
    if !is_allowed(taking, ground, spent) {
        return Err(USER);
    }
    let SpentBody {
        user,
        owners,
        shares,
        recipes,
    } = *spent;
    taking.mark(user);
    let row = Spent {
        owners,
        shares,
        recipes,
    };
    memory.take_spent(user, row);
    Ok(())
}
