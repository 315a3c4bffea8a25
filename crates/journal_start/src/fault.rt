//! Why bytes are no start.

/// Why bytes are no start. Fields are read in order, and the first that fails counts.
#[derive(Clone, Copy, Debug, PartialEq, Eq)]
pub enum StartFault {
    /// A field lacks bytes.
    Short,
    /// A field is none of its kind or out of its range, or a byte is left over: the place of the first such byte, counted
    /// from 0, and the byte.
    Wrong { place: usize, byte: u8 },
}
