//! Damage in the journal.

/// The journal is damaged at this place, counted from 0, where this byte stands.
#[derive(Clone, Copy)]
pub struct Damage {
    /// The place.
    pub at: u64,
    /// The byte there.
    pub byte: u8,
}
