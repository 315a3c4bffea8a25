//! Contents of replies.

pub(crate) const ONE_NEW: &[u8] = &[0x83, 0, 1];

pub(crate) const THREE_NEW: &[u8] = &[0x83, 0, 3];

pub(crate) const MOST_NEW: &[u8] = &[0x83, 1, 0];

pub(crate) const COMMITTED: &[u8] = &[0x84];

/// For the first fingerprint.
pub(crate) const NOT_YOURS: &[u8] = &[0x8A, 0, 0];
