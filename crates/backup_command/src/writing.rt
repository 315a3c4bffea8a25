//! Writing lines, with the status.

ghost use Rattle.std.specs.Prelude.{Some};
ghost use Rattle.lane_steps.specs.Recipe.Spelling.{file_limit};
ghost use Rattle.transcript.specs.declared.ending.Ending.TheVariants as endings;
ghost use Rattle.transcript.specs.Endings.{ending_text};
ghost use Rattle.ports_link.specs.Refusals.{refused_text};
ghost use Rattle.backup_command.specs.Writing.{HasWrittenOrCause, output_of};

use ports_link::{Refused, write_refused};
use std::alloc::Global;
use transcript::{Bytes, Ending, FILE_LIMIT, NoMemory, Sink, write_all, write_ending};

/// Writes this text, and answers the status that is due with it, or 4 where the sink failed.
pub fn write_text<K: Sink>(sink: &mut K, text: &[u8], due: u8) -> u8
    ensures { HasWrittenOrCause text.now due
        (output_of (K.written sink.old) (K.written sink.new) (K.faults sink.old) (K.faults sink.new)) result }
{
    match write_all(sink, text) {
        Ok(()) => due,
        Err(_) => 4,
    }
}

/// Writes the line of a reply to Hello that was refused.
pub fn write_hello<K: Sink>(alloc: Global, sink: &mut K, refused: &Refused) -> u8
    ensures { HasWrittenOrCause (refused_text refused.now) 8
        (output_of (K.written sink.old) (K.written sink.new) (K.faults sink.old) (K.faults sink.new)) result }
{
    let mut line = Bytes::new(alloc);
    match write_refused(refused, &mut line) {
        Ok(()) => write_text(sink, line.as_slice(), 8),
        Err(NoMemory) => 6,
    }
}

/// Writes the line of a source that has more bytes than a file may have.
pub fn write_too_long<K: Sink>(alloc: Global, sink: &mut K, byte: u8) -> u8
    ensures { HasWrittenOrCause (ending_text (endings.Script 1 file_limit (Some byte))) 2
        (output_of (K.written sink.old) (K.written sink.new) (K.faults sink.old) (K.faults sink.new)) result }
{
    let ending = Ending::Script {
        line: 1,
        at: FILE_LIMIT as u64,
        found: Some(byte),
    };
    let mut line = Bytes::new(alloc);
    match write_ending(&ending, &mut line) {
        Ok(()) => write_text(sink, line.as_slice(), 2),
        Err(NoMemory) => 6,
    }
}
