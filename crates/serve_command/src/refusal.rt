//! A cloud that isn't opened.

ghost use Rattle.share_server.specs.Refusals.{MayCome};
ghost use Rattle.ports_link.specs.Transcript.Endings.{ending_text};
ghost use Rattle.serve_command.specs.Served.{Reports, output_of};
ghost use Rattle.serve_command.specs.Steps.{IsClosedUnopened};

use crate::lines::write_line;
use crate::stop::ServingStop;
use ports_link::{Bytes, CloudNo, Ending, NoMemory, write_ending};
use share_server::{OpenErr, Sink};
use std::alloc::Global;

// The status of a cloud that isn't opened for this error, and its last line.
fn report_of(cloud: CloudNo, error: OpenErr) -> (u8, Ending)
    requires { MayCome error }
    ensures { Reports cloud error result.0 (ending_text result.1) }
{
    match error {
        OpenErr::Fault => (5, Ending::Shelf { cloud }),
        OpenErr::Damaged { at, byte } => (7, Ending::Damaged { cloud, at, byte }),
        OpenErr::OtherStore { found, .. } => {
            let other = Ending::Other {
                cloud,
                format: found.format,
                n: found.shape.n,
                k: found.shape.k,
                own: found.cloud,
            };
            (7, other)
        }
        OpenErr::NotBegun { .. } => unreachable!(),
    }
}

/// Writes the last line of a cloud that isn't opened for this error, and answers the status: the error's; 4 where the
/// sink failed in the line, and 6 where memory ran out for it.
pub fn refuse<K: Sink>(alloc: Global, cloud: CloudNo, error: OpenErr, sink: &mut K) -> u8
    requires { MayCome error }
    ensures { IsClosedUnopened cloud error
        (output_of (K.written sink.old) (K.written sink.new) (K.faults sink.old) (K.faults sink.new)) result }
{
    let (status, last) = report_of(cloud, error);
    let mut line = Bytes::new(alloc);
    match write_ending(&last, &mut line) {
        Ok(()) => {}
        Err(NoMemory) => return 6,
    }
    match write_line(sink, line.as_slice()) {
        Ok(()) => status,
        Err(ServingStop::SinkFault) => 4,
        Err(ServingStop::NoMemory) => 6,
        Err(ServingStop::PortsFault) => 9,
    }
}
