//! How a connection ended.

/// How a connection ended.
#[derive(Clone, Copy)]
pub enum Served {
    /// The stream ended between frames.
    End,
    /// The stream ended inside a frame.
    Cut {
        /// How many bytes of the frame came, at least one.
        got: u32,
    },
    /// In a frame's place stood a length of 0 or above 4,194,304.
    BadLength {
        /// The number that stood there.
        found: u32,
    },
    /// 1,099,511,627,776 bytes came.
    Spent,
    /// The ports failed.
    Failed,
}

// Why a connection ends before its stream does.
#[derive(Clone, Copy)]
pub enum ConnectionStop {
    BadLength { found: u32 },
    Failed,
}
