//! What is written of a cloud that isn't opened, with the status.

ghost use Rattle.std.specs.Prelude.{◌≡◌};
ghost use Rattle.backup_command.specs.Transcript.Endings.{ending_text};
ghost use Rattle.backup_command.specs.Writing.{HasWrittenOrCause, output_of};
ghost use Rattle.command_cloud.specs.Said.{SaysUnopened, opening_status, opening_text};

use crate::opening::Unopened;
use backup_command::{Bytes, CloudNo, Ending, NoMemory, Sink, write_ending, write_text};
use serve_command::OpenErr;
use std::alloc::Global;

/// Writes an ending, and answers the status that is due with it.
pub fn write_last<K: Sink>(alloc: Global, sink: &mut K, ending: &Ending, due: u8) -> u8
    ensures { HasWrittenOrCause (ending_text ending.now) due
        (output_of (K.written sink.old) (K.written sink.new) (K.faults sink.old) (K.faults sink.new)) result }
{
    let mut line = Bytes::new(alloc);
    match write_ending(ending, &mut line) {
        Ok(()) => write_text(sink, line.as_slice(), due),
        Err(NoMemory) => 6,
    }
}

// ---- a cloud that isn't opened

// The status for this error, and the last line.
fn ending_of(cloud: CloudNo, error: OpenErr) -> (u8, Ending)
    ensures status { result.0 ≡ opening_status error }
    ensures line { ending_text result.1 ≡ opening_text cloud error }
{
    match error {
        OpenErr::Fault => (5, Ending::Shelf { cloud }),
        OpenErr::NotBegun { len } => (7, Ending::NotBegun { cloud, len }),
        OpenErr::Damaged { at, byte } => (7, Ending::Damaged { cloud, at, byte }),
        OpenErr::OtherStore { found, .. } => {
            let other = Ending::Other {
                cloud,
                format: found.format,
                n: found.shape.n,
                k: found.shape.k,
                own: found.cloud,
            };
            (7, other)
        }
    }
}

// Writes the last line of a cloud that isn't opened for this error, and answers the status.
fn write_shut<K: Sink>(alloc: Global, sink: &mut K, cloud: CloudNo, error: OpenErr) -> u8
    ensures { HasWrittenOrCause (opening_text cloud error) (opening_status error)
        (output_of (K.written sink.old) (K.written sink.new) (K.faults sink.old) (K.faults sink.new)) result }
{
    let (due, last) = ending_of(cloud, error);
    write_last(alloc, sink, &last, due)
}

/// Writes why a cloud isn't opened, and answers the status.
pub fn write_unopened<K: Sink>(alloc: Global, sink: &mut K, cloud: CloudNo, why: Unopened) -> u8
    ensures { SaysUnopened cloud why
        (output_of (K.written sink.old) (K.written sink.new) (K.faults sink.old) (K.faults sink.new)) result }
{
    match why {
        Unopened::Refused(error) => write_shut(alloc, sink, cloud, error),
        Unopened::NoMemory => 6,
    }
}
