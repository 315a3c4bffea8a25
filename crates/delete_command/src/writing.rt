//! Writing lines, with the status.

ghost use Rattle.ports_link.specs.Refusals.{refused_text};
ghost use Rattle.delete_command.specs.Writing.{HasWrittenReplies, output_of};

use deletions::{Bytes, NoMemory};
use ports_link::{Refused, Sink, write_all, write_refused};
use std::alloc::Global;

/// Writes this text, and answers the status that is due with it, or 4 where the sink failed.
pub fn write_text<K: Sink>(sink: &mut K, text: &[u8], due: u8) -> u8
    ensures { HasWrittenReplies text.now due
        (output_of (K.written sink.old) (K.written sink.new) (K.faults sink.old) (K.faults sink.new)) result }
{
    match write_all(sink, text) {
        Ok(()) => due,
        Err(_) => 4,
    }
}

/// Writes the line of a reply to Hello that was refused.
pub fn write_hello<K: Sink>(alloc: Global, sink: &mut K, refused: &Refused) -> u8
    ensures { HasWrittenReplies (refused_text refused.now) 8
        (output_of (K.written sink.old) (K.written sink.new) (K.faults sink.old) (K.faults sink.new)) result }
{
    let mut line = Bytes::new(alloc);
    match write_refused(refused, &mut line) {
        Ok(()) => write_text(sink, line.as_slice(), 8),
        Err(NoMemory) => 6,
    }
}
