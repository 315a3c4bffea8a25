//! Why a record wasn't read.

/// Why a record wasn't read.
#[derive(Clone, Copy, PartialEq, Eq)]
pub enum RecordErr {
    /// A device call failed.
    Failed,
    /// An open record is damaged: the place in the area that is wrong, and its byte.
    Damaged { at: u64, byte: u8 },
}
