//! How far a copy is, and why it doesn't go on.

use compact_lists::Fp;

/// How many slots of the memory's tables were gone over: of places and of entries. The copies lie in the other region, one
/// behind another, in the order of the slots.
#[derive(Clone, Copy)]
pub struct Copying {
    /// The next slot of places.
    pub place_slot: u32,
    /// The next slot of entries.
    pub file_slot: u32,
}

/// Why nothing more was copied, or why the copies weren't switched to.
#[derive(Clone, Copy)]
pub enum CopyErr {
    /// A device failed. The journal is shut.
    Fault,
    /// A blob that is alive is shorter than it was, or its bytes hash to `found` and not to its name.
    Rotten { named: Fp, found: Fp },
    /// What is kept passes the rooms. A switch alone answers it, and never where the store knows a list.
    Long,
}
