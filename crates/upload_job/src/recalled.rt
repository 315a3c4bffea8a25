//! Shares that were let go, as clauses remember them.

ghost use Rattle.std.specs.Prelude.{◌≡◌, ℕ, List};
ghost use Rattle.std.specs.Borrow.{ftrue};

use std::fmt;
use std::marker::Model;

/// The bytes that a list once had. Clauses alone read them: it takes no memory, and does nothing when it runs.
#[derive(Drop)]
pub struct Recalled {
    pub ghost bytes: { List ℕ },
}

impl Model for Recalled {
    ghost also_owns = { λ _. ftrue };
}

impl Recalled {
    /// What these bytes are now.
    pub fn of(_bytes: &[u8]) -> Recalled
        ensures { result.bytes ≡ _bytes.now }
    {
        Recalled {}
    }
}

impl fmt::Debug for Recalled {
    fn fmt<W: fmt::Write>(&self, f: &mut fmt::Formatter<W>) -> fmt::Result {
        f.write_str("Recalled")
    }
}
