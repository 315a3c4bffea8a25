//! Why a journal wasn't opened.

use journal_halves::Header;

/// Why a journal wasn't opened.
#[derive(Clone, Copy, PartialEq, Eq)]
pub enum OpenErr {
    /// A device call failed.
    Fault,
    /// No half is begun; the area has so many bytes.
    NotBegun {
        len: u64,
    },
    /// The start of a half that is begun is damaged, or both have one epoch: the place that is wrong, and its byte.
    Damaged {
        at: u64,
        byte: u8,
    },
    /// It is the journal of another store or cloud, or of other rooms; `at` is the place of the header in the area.
    OtherStore {
        found: Header,
        asked: Header,
        at: u64,
    },
}
