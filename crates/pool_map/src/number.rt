// Numbers and hashes as keys.
use super::Key;

/// A number as a key. Its word is the number, spread over 64 bits.
#[derive(Clone, Copy, PartialEq, Eq, PartialOrd, Ord)]
pub struct Number {
    pub value: u64,
}

impl Key for Number {
    ghost use Rattle.std.specs.Prelude.{◌*◌, ◌%◌, ◌^◌};
    ghost use Rattle.std.proofs.Common.{ap};
    ghost use Rattle.std.specs.FinMap.{nat_cmp-IsAntisymmetric};

    ghost word_of = { λ n. (n.value * 11400714819323198485) % 2 ^ 64 };

    ghost exact = { λ x y e. ap (λ n. record { value = n }) (nat_cmp-IsAntisymmetric x.value y.value e) };

    fn word(&self) -> u64 {
        self.value.wrapping_mul(11400714819323198485)
    }
}

/// A hash of 32 bytes as a key. Its word is its first 8 bytes, the first of them the highest.
impl Key for [u8; 32] {
    ghost use Rattle.pool_map.specs.Word.{first_word};
    ghost use Rattle.std.specs.FinMap.{slice_cmp-IsAntisymmetric, nat_cmp-IsAntisymmetric};

    ghost word_of = { first_word };

    ghost exact = { slice_cmp-IsAntisymmetric nat_cmp-IsAntisymmetric };

    fn word(&self) -> u64 {
        u64::from_be_bytes([
            self[0], self[1], self[2], self[3], self[4], self[5], self[6], self[7],
        ])
    }
}
