//! Numbers with a meaning, and the answer for want of memory.

ghost use Rattle.std.specs.Prelude.{◌≡◌};

use std::alloc::{AllocError, AllocFailed};

/// A user. A store has no login: a user is a number that a message names.
#[derive(Clone, Copy, Debug, PartialEq, Eq)]
pub struct UserId(pub u32);

/// The number of a cloud, from 0. Share i of a file always goes to cloud i.
#[derive(Clone, Copy, Debug, PartialEq, Eq)]
pub struct CloudNo(pub u8);

/// The version of a file, which its user chooses.
#[derive(Clone, Copy, Debug, PartialEq, Eq)]
pub struct Version(pub u64);

/// The fingerprint of a share: its SHA-256 (FIPS 180-4).
#[derive(Clone, Copy, Debug, PartialEq, Eq, PartialOrd, Ord)]
pub struct Fp(pub [u8; 32]);

/// The tag of a file's name: the SHA-256 of its name package, the same at each cloud.
#[derive(Clone, Copy, Debug, PartialEq, Eq)]
pub struct Tag(pub [u8; 32]);

/// Memory ran out. It is an answer of its own, and never stands for another one.
#[derive(Clone, Copy, Debug)]
pub struct NoMemory;

impl From<AllocError> for NoMemory {
    ghost from_gives = { λ _ _. Unit {0} };

    fn from(_error: AllocError) -> NoMemory {
        NoMemory
    }
}

impl<T: Drop> From<AllocFailed<T>> for NoMemory {
    ghost from_gives = { λ _ _. Unit {0} };

    fn from(_error: AllocFailed<T>) -> NoMemory {
        NoMemory
    }
}
