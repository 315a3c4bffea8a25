//! Why a line wasn't carried out to its end.

use recipe::CloudNo;

/// Why a line wasn't carried out to its end.
#[derive(Clone, Copy)]
pub enum CarryErr {
    /// The areas of the cloud that was to be replaced couldn't be made empty: its device failed. They are as before.
    ShelfFault { cloud: CloudNo },
    /// Memory ran out.
    NoMemory,
}
