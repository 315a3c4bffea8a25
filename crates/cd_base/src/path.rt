//! The names of files.

ghost use Rattle.std.specs.Prelude.{◌↔◌, ◌≢◌, IsTrue, All};
ghost use Rattle.cd_base.specs.Limits.{IsPath};

use crate::PATH_LIMIT;

/// Whether bytes may name a file: 1 to 1,024 of them, none of them zero.
pub fn is_path(bytes: &[u8]) -> bool
    ensures { IsTrue result ↔ IsPath bytes.now }
{
    !bytes.is_empty() && bytes.len() <= PATH_LIMIT && has_no_zero(bytes)
}

// Whether no byte is zero.
fn has_no_zero(bytes: &[u8]) -> bool
    ensures { IsTrue result ↔ All (λ byte. byte ≢ 0) bytes.now }
{
    bytes.iter().all(|byte| *byte != 0)
}
