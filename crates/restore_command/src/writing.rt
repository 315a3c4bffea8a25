//! Writing what came, with its status.

ghost use Rattle.ports_link.specs.Refusals.{refused_text};
ghost use Rattle.subset_restore.specs.Refusals.{refusal_text};
ghost use Rattle.restore_command.specs.Ends.{HasWrittenBytes};

use ports_link::{Bytes, NoMemory, Refused, Sink, write_all, write_refused};
use std::alloc::Global;
use subset_restore::{Line, Refusal, write_line};

/// Writes these bytes, and answers the status that is due with them, or 4 where the sink failed.
pub fn write_text<K: Sink>(sink: &mut K, bytes: &[u8], due: u8) -> u8
    ensures { HasWrittenBytes bytes.now due (K.written sink.old) (K.written sink.new) (K.faults sink.old)
        (K.faults sink.new)
        result }
{
    match write_all(sink, bytes) {
        Ok(()) => due,
        Err(_) => 4,
    }
}

/// Writes the line of a reply to Hello that was refused.
pub fn write_hello<K: Sink>(alloc: Global, sink: &mut K, refused: &Refused) -> u8
    ensures { HasWrittenBytes (refused_text refused.now) 8 (K.written sink.old) (K.written sink.new) (K.faults sink.old)
        (K.faults sink.new) result }
{
    let mut line = Bytes::new(alloc);
    match write_refused(refused, &mut line) {
        Ok(()) => write_text(sink, line.as_slice(), 8),
        Err(NoMemory) => 6,
    }
}

/// Writes the line of a refused restore.
pub fn write_refusal<K: Sink>(alloc: Global, sink: &mut K, why: Refusal) -> u8
    ensures { HasWrittenBytes (refusal_text why) 8 (K.written sink.old) (K.written sink.new) (K.faults sink.old)
        (K.faults sink.new) result }
{
    let mut line = Bytes::new(alloc);
    match write_line(&Line::Refused { why }, &mut line) {
        Ok(()) => write_text(sink, line.as_slice(), 8),
        Err(NoMemory) => 6,
    }
}
