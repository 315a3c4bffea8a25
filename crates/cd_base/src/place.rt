//! Where a blob lies.

/// Where a blob lies in a cloud's area: its first byte's place and its length in bytes.
#[derive(Clone, Copy, Debug, PartialEq, Eq)]
pub struct Place {
    pub at: u64,
    pub len: u32,
}
