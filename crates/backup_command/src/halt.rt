//! Why lanes are not brought on.

/// Why lanes are not brought on.
#[derive(Clone, Copy)]
pub enum Halt {
    /// The ports failed in an ask.
    Lost,
    /// Memory ran out.
    NoMemory,
}
