//! Why content was not read.

/// Why content was not read.
#[derive(Clone, Copy)]
pub enum MsgErr {
    /// The content is no such message: the place of the first field that fails, counted from 0.
    Malformed { at: u32 },
    /// Memory ran out.
    NoMemory,
}
