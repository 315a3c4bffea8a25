//! How a read ends.

ghost use Rattle.std.specs.Prelude.{◌≡◌};
ghost use Rattle.read_command.specs.Opening.{end_by};

use commit_journal::{CloudNo, Header, OpenErr};

/// How a read ends.
#[derive(Clone, Copy)]
pub enum ReadEnd {
    /// The file's bytes were written, and nothing else.
    Done,
    /// The clouds gave no file. The line that says why was written, and nothing else.
    Refused,
    /// At the cloud no store is begun: its journal has so many bytes.
    NotBegun { cloud: CloudNo, len: u64 },
    /// The cloud's journal is damaged: the place that is wrong, and its byte.
    Damaged { cloud: CloudNo, at: u64, byte: u8 },
    /// The cloud's journal is that of another store or cloud, with this header.
    Other { cloud: CloudNo, found: Header },
    /// The cloud's device failed as it was opened.
    ShelfFault { cloud: CloudNo },
    /// The sink failed. A front of what was due was written.
    SinkFault,
    /// Memory ran out. Nothing was written.
    NoMemory,
}

/// The end of a read whose opening of the cloud answered this error.
pub fn end_of(cloud: CloudNo, error: OpenErr) -> ReadEnd
    ensures { result ≡ end_by cloud error }
{
    match error {
        OpenErr::Fault => ReadEnd::ShelfFault { cloud },
        OpenErr::NotBegun { len } => ReadEnd::NotBegun { cloud, len },
        OpenErr::Damaged { at, byte } => ReadEnd::Damaged { cloud, at, byte },
        OpenErr::OtherStore { found, .. } => ReadEnd::Other { cloud, found },
    }
}
