//! The digest of bytes.

ghost use Rattle.std.specs.Prelude.{◌≡◌};
ghost use Rattle.sha2.specs.Sha256.{sha256 as sha256_of};

use crate::Fp;
use sha2::{Digest, Sha256};

/// The SHA-256 of bytes (FIPS 180-4).
pub fn sha256(bytes: &[u8]) -> Fp
    ensures { result.0 ≡ sha256_of bytes.now }
{
    Fp(Sha256::digest(bytes))
}
