//! What is found.

ghost use Rattle.std.specs.Prelude.{◌≤◌};

use journal_start::Start;

/// The current half of a journal.
#[derive(Clone, Copy, PartialEq, Eq)]
pub struct Found {
    /// The half, 0 or 1.
    pub half: u8,
    /// What its chain begins with.
    pub start: Start,
    pub ghost is_half: { half ≤ 1 },
}

/// Why no current half was found.
#[derive(Clone, Copy, PartialEq, Eq)]
pub enum FindErr {
    /// A device call failed.
    Fault,
    /// No half is begun; the area has so many bytes.
    NotBegun { len: u64 },
    /// The start of a half that is begun is damaged, or both have one epoch: the place that is wrong, and its byte.
    Damaged { at: u64, byte: u8 },
}
