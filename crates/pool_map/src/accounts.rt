//! What the indexes of a cloud share: how a table charges what it holds, to one account for all or to one account for each user,
//! and the refusal where there is no room.

ghost use Rattle.std.specs.Prelude.{◌≡◌, ◌≤◌, ◌<◌, ◌*◌, ◌^◌, length, IfSome, IfNone, IfOk, replicate, sum};
ghost use Rattle.pool_map.specs.Accounts.{account_for, IsKnown, limits_of, limit_for, slots_of};

use std::alloc::{AllocError, Global};

/// The accounts of a table.
#[derive(Clone, Copy)]
pub enum Accounts {
    /// One account for all users together, with this limit.
    Shared(u32),
    /// An account for each user below the first number, with the second as its limit. Any other user has the limit 0.
    PerUser(u32, u32),
}

/// There is no room: the account has as much as its limit.
#[derive(Clone, Copy, Debug, PartialEq, Eq)]
pub enum IndexErr {
    Full { used: u32, limit: u32 },
}

impl Accounts {
    /// The number of a user's account. None comes exactly for a user without one, whose limit is 0.
    pub fn account_of(self, user: u32) -> Option<u32>
        ensures account { IfSome result (λ account. account ≡ account_for self user) }
        ensures known { IfSome result (λ _. IsKnown self user) }
        ensures unknown { IfNone result (limit_for self user ≡ 0) }
        ensures apart { IfNone result (IsKnown self user → ⊥) }
    {
        match self {
            Accounts::Shared(_) => Some(0),
            Accounts::PerUser(users, _) => { if user < users { Some(user) } else { None } }
        }
    }

    /// The limit of each account, by its number.
    pub fn limits(self, alloc: Global) -> Result<Vec<u32>, AllocError>
        ensures { IfOk result (λ limits. limits.items ≡ limits_of self) }
    {
        let (accounts, limit) = match self {
            Accounts::Shared(limit) => (1, limit),
            Accounts::PerUser(users, limit) => (users, limit),
        };
        vec![in alloc; limit; accounts as usize]
    }

    /// All limits together, which is the number of slots that a table with these accounts needs.
    pub fn slots(self) -> u32
        requires { slots_of self < 2 ^ 32 }
        ensures slots { result ≡ slots_of self }
        ensures limits { sum (limits_of self) ≤ result }
    {
        match self {
            Accounts::Shared(limit) => limit,
            Accounts::PerUser(users, limit) => users * limit,
        }
    }
}
