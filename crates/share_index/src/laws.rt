//! A law of the owners of fingerprints, for the proofs of callers. The call does nothing.

ghost use Rattle.std.specs.Prelude.{◌<◌, ℕ, List, IsSome};
ghost use Rattle.std.specs.FinMap.{FinMap, get};
ghost use Rattle.share_index.specs.Order.{owner_cmp, owner_of};
ghost use Rattle.share_index.specs.Shares.{owners_of};

/// A fingerprint has an owner exactly where it is some user's.
pub fn law_of_owners()
    ensures counts { (owners : FinMap owner_cmp ℕ) (user : ℕ) (fp : List ℕ) → IsSome (get owners (owner_of user fp))
        → 0 < owners_of owners fp }
    ensures found { (owners : FinMap owner_cmp ℕ) (fp : List ℕ) → 0 < owners_of owners fp
        → (user : ℕ) × IsSome (get owners (owner_of user fp)) }
{}
