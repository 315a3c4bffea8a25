//! What the answer of a cloud tells.

use user_dedup::{Fp, Room};

/// What a reply to a lane's request tells.
#[derive(Clone, Copy)]
pub enum LaneNews {
    /// So many of the shares that were asked for are the user's there already. The lane sends the others, or goes on where there
    /// are none.
    Known {
        known: u16,
        asked: u16,
    },
    /// The cloud keeps the shares that were sent, so many of which were new to the user. The lane goes on.
    Stored {
        new: u16,
        sent: u16,
    },
    /// The version is entered. The lane has come to its end.
    Committed,
    /// The user has another recipe there under this version. The lane is refused.
    Exists,
    /// The cloud lacks the share of the recipe's item at this place, counted from 0. The lane begins again.
    Lacking {
        place: u32,
    },
    /// A room of the cloud has so much used and would need so much more, above its limit. The lane is refused.
    Full {
        room: Room,
        used: u64,
        need: u64,
        limit: u64,
    },
    /// A device of the cloud failed. The lane keeps its request.
    Fault,
    /// The cloud's journal is damaged: the place and the byte there. The lane is refused.
    Damaged {
        at: u64,
        byte: u8,
    },
    /// What the cloud kept is another: the fingerprint that was named and the one that was found. The lane is refused.
    Rotten {
        named: Fp,
        found: Fp,
    },
    /// The cloud's memory ran out. The lane keeps its request.
    NoMemory,
}

/// Why a reply told nothing.
#[derive(Clone, Copy)]
pub enum LaneErr {
    /// No server that keeps to the rules gives this reply to that request: its first byte, or 0 where it is empty. The lane is
    /// refused.
    Strange { kind: u8 },
    /// Memory ran out here. The lane keeps its request.
    NoMemory,
}
