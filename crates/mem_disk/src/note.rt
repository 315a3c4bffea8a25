//! What was done to a cloud, in notes of one size.

use cd_edges::Area;

/// One write, sync, fresh or crash. The bytes that a write put lie in the log of its area.
#[derive(Clone, Copy)]
pub enum Note {
    /// `len` bytes were put at place `at` of the area. They lie in its log from `start`.
    Wrote {
        area: Area,
        at: u64,
        start: usize,
        len: usize,
    },
    /// The area was synced.
    Synced {
        area: Area,
    },
    /// All areas were made empty.
    Emptied,
    /// All areas were left as a crash leaves them, with this byte wherever one was written since the last sync, and with
    /// what lies past the synced length where `whole`.
    Crashed {
        fill: u8,
        whole: bool,
    },
}
