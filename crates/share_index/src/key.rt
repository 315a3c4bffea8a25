//! What an index is asked by, and what it answers.

use cd_base::{Fp, Place, UserId};
use pool_map::Key;

/// A user that owns a fingerprint, in the order of users and fingerprints.
#[derive(Clone, Copy, PartialEq, Eq, PartialOrd, Ord)]
pub struct Owner {
    pub user: u32,
    pub fp: [u8; 32],
}

impl Owner {
    ghost use Rattle.std.specs.Prelude.{◌≡◌};
    ghost use Rattle.share_index.specs.Order.{owner_of};

    /// A user with a fingerprint.
    pub fn of(user: UserId, fp: &Fp) -> Owner
        ensures { result ≡ owner_of user.0 fp.now.0 }
    {
        Owner {
            user: user.0,
            fp: fp.0,
        }
    }
}

/// The word is the fingerprint's first 8 bytes, turned by the user's number.
impl Key for Owner {
    ghost use Rattle.share_index.specs.Order.{owner_word, owner_exact};

    ghost word_of = { owner_word };

    ghost exact = { owner_exact };

    fn word(&self) -> u64 {
        self.fp
            .word()
            .wrapping_add((self.user as u64).wrapping_mul(11400714819323198485))
    }
}

/// A placed share, and how many users own it.
#[derive(Clone, Copy)]
pub struct Kept {
    pub place: Place,
    pub owners: u32,
}

/// A user's number as a key. Its word is the number, spread over 64 bits.
#[derive(Clone, Copy, PartialEq, Eq, PartialOrd, Ord)]
pub(crate) struct UserNumber {
    pub value: u32,
}

impl Key for UserNumber {
    ghost use Rattle.std.specs.Prelude.{◌*◌, ◌%◌, ◌^◌};
    ghost use Rattle.std.proofs.Common.{ap};
    ghost use Rattle.std.specs.FinMap.{nat_cmp-IsAntisymmetric};

    ghost word_of = { λ n. (n.value * 11400714819323198485) % 2 ^ 64 };

    ghost exact = { λ x y e. ap (λ n. record { value = n }) (nat_cmp-IsAntisymmetric x.value y.value e) };

    fn word(&self) -> u64 {
        (self.value as u64).wrapping_mul(11400714819323198485)
    }
}
