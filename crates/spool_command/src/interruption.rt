//! Why a kept job isn't brought on.

/// Why a kept job isn't brought on.
#[derive(Clone, Copy)]
pub enum Interruption {
    /// The ports failed in a lane.
    Ports,
    /// The shelf failed in a note, or when all was done.
    Shelf,
    /// Memory ran out.
    Memory,
}
