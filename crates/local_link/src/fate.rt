//! What becomes of an ask.

/// What becomes of the next ask.
#[derive(Clone, Copy, PartialEq, Eq)]
pub enum Fate {
    /// The cloud executes the request, and its reply comes back.
    Deliver,
    /// The request is lost before the cloud takes it.
    LoseRequest,
    /// The cloud executes the request, and its reply is lost.
    LoseReply,
}
