//! The limits of one message.

/// The most bytes of a share.
pub const SHARE_LIMIT: usize = 8208;

/// The most shares or fingerprints.
pub const BATCH_LIMIT: usize = 256;

/// The most keys.
pub const KEY_LIMIT: usize = 256;
