//! What a log refuses.

/// The log's limit is passed. Where the log's end is `used` and the blob would end `need` bytes behind it, the two are more
/// than `limit` together.
#[derive(Clone, Copy, PartialEq, Eq)]
pub struct LogFull {
    /// The log's end.
    pub used: u64,
    /// The bytes from there to the blob's end: those that are staged already, the zeros before the blob, and the blob.
    pub need: u64,
    /// The greatest end that the log may have.
    pub limit: u64,
}
