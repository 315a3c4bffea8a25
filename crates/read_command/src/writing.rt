//! Writing what came of a read.

ghost use Rattle.subset_restore.specs.Refusals.{refusal_text};
ghost use Rattle.read_command.specs.Ends.{IsReadWritten, CountsSink, WritesBytes};

use crate::ReadEnd;
use commit_journal::{Bytes, NoMemory, Sink, write_all};
use std::alloc::Global;
use subset_restore::{Line, Refusal, RestoreErr, as_refusal, write_line};

// Writes these bytes, or a front of them where the sink fails.
fn write_text<K: Sink>(sink: &mut K, bytes: &[u8]) -> Result<(), ReadEnd>
    ensures { WritesBytes (K.written sink.old) (K.written sink.new) (K.faults sink.old) (K.faults sink.new)
        bytes.now result }
{
    match write_all(sink, bytes) {
        Ok(()) => Ok(()),
        Err(_) => Err(ReadEnd::SinkFault),
    }
}

// Writes the line of a refusal, or a front of it.
fn write_refusal<K: Sink>(alloc: Global, sink: &mut K, why: Refusal) -> Result<(), ReadEnd>
    ensures { WritesBytes (K.written sink.old) (K.written sink.new) (K.faults sink.old) (K.faults sink.new)
        (refusal_text why) result }
{
    let mut text = Bytes::new(alloc);
    match write_line(&Line::Refused { why }, &mut text) {
        Ok(()) => write_text(sink, text.as_slice()),
        Err(NoMemory) => Err(ReadEnd::NoMemory),
    }
}

/// Writes what came of a restore: the file's bytes, or the line that says why there are none.
pub fn write_came<K: Sink>(
    alloc: Global,
    sink: &mut K,
    came: Result<(), RestoreErr>,
    file: &[u8],
) -> ReadEnd
    ensures written { IsReadWritten came file.now (K.written sink.old) (K.written sink.new) result }
    ensures counts { CountsSink (K.faults sink.old) (K.faults sink.new) result }
{
    match came {
        Ok(()) => match write_text(sink, file) {
            Ok(()) => ReadEnd::Done,
            Err(end) => end,
        },
        Err(error) => match as_refusal(error) {
            Some(why) => match write_refusal(alloc, sink, why) {
                Ok(()) => ReadEnd::Refused,
                Err(end) => end,
            },
            None => ReadEnd::NoMemory,
        },
    }
}
