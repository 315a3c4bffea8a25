//! The numbers of a session.

/// What a session came to. The files' number is the caller's.
///
/// The sums of shares are as wide as the replies of clouds can make them, so that they are exact whatever is replied.
#[derive(Clone, Copy)]
pub struct Numbers {
    /// The lengths of the files in all, in bytes.
    pub bytes: u64,
    /// How many jobs were stored at all clouds.
    pub stored: u64,
    /// How many shares were sent, over all clouds.
    pub sent: u128,
    /// How many shares a cloud had of the user already, over all clouds.
    pub known: u128,
    /// How many gets gave the bytes that were uploaded.
    pub equal: u64,
}
