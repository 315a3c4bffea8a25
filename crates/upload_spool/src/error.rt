//! Why a spool's call failed.

use commit_journal::{Area, Header};
use grammar::Fp;

/// Why a spool's call failed.
#[derive(Clone, Copy)]
pub enum SpoolErr {
    /// The first area, in the order journal, shares, recipes, that isn't empty has so many bytes.
    NotEmpty { area: Area, len: u64 },
    /// A device call failed. The spool is to be opened again.
    Fault,
    /// The journal is damaged: the place that is wrong, and its byte.
    Damaged { at: u64, byte: u8 },
    /// The journal begins with another header: it was kept for clouds of another shape, or it is no spool.
    OtherStore { found: Header, asked: Header },
    /// The kept file is another than the one that was to be kept: the SHA-256 that is named, and the one that was found.
    Rotten { named: Fp, found: Fp },
    /// Memory ran out.
    NoMemory,
}
