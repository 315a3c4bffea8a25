//! The lengths of shares.

ghost use Rattle.std.specs.Prelude.{◌≡◌, ℕ, ◌+◌, ◌*◌, ◌≤◌};
ghost use Rattle.cd_base.specs.Lengths.{share_len_of};
ghost use Rattle.cd_base.specs.Limits.{secret_limit};

use crate::Shape;

/// The length in bytes of each share of a secret: the least m with `k * m >= secret_len + 32`.
pub fn share_len(shape: Shape, secret_len: u32) -> u32
    requires some { 1 ≤ secret_len }
    requires few { secret_len ≤ secret_limit }
    ensures enough { secret_len + 32 ≤ shape.k * result }
    ensures least { (m : ℕ) → secret_len + 32 ≤ shape.k * m → result ≤ m }
    ensures value { result ≡ share_len_of shape.k secret_len }
{
    let k = shape.k() as u32;
    (secret_len + 31 + k) / k
}
