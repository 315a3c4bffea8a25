//! The status of a session that ended, and its last line.

ghost use Rattle.std.specs.Prelude.{◌≡◌, IfSome, IfNone};
ghost use Rattle.two_worlds.specs.Transcript.Endings.{ending_text as text_of_ending};
ghost use Rattle.generated_session.specs.ReplayCore.Replayed.{status_of as status_due};
ghost use Rattle.script_replay.specs.Endings.{ending_of};
ghost use Rattle.cd_top.specs.Replay.{ending_text, WritesLast};
ghost use Rattle.cd_top.specs.Ends.{HasLastLine, WantsLast, WantsNone};

use command_words::{Bytes, NoMemory};
use delete_command::{Sink, write_all};
use generated_session::ReplayEnd;
use std::alloc::Global;
use two_worlds::{Ending, write_ending};

/// Why a last line isn't written.
#[derive(Clone, Copy)]
pub enum LastErr {
    SinkFault,
    NoMemory,
}

// The status of a session that ended so.
fn status_of(end: &ReplayEnd) -> u8
    ensures { result ≡ status_due end.now }
{
    match end {
        ReplayEnd::Done { .. } => 0,
        ReplayEnd::Script { .. } => 2,
        ReplayEnd::SourceFault => 3,
        ReplayEnd::SinkFault => 4,
        ReplayEnd::ShelfFault { .. } => 5,
        ReplayEnd::NoMemory => 6,
        ReplayEnd::NotEmpty { .. } => 7,
        ReplayEnd::Damaged { .. } => 7,
    }
}

// The last line of a session that ended so, if one is still to be written.
fn last_line(end: &ReplayEnd) -> Option<Ending>
    ensures line { IfSome result (λ last. ending_text (ending_of end.now) ≡ text_of_ending last) }
    ensures some { IfSome result (λ last. WantsLast end.now) }
    ensures none { IfNone result (WantsNone end.now) }
{
    match end {
        ReplayEnd::Script { line, at, found } => Some(Ending::Script {
            line: *line,
            at: *at,
            found: *found,
        }),
        ReplayEnd::ShelfFault { cloud } => Some(Ending::Shelf { cloud: *cloud }),
        ReplayEnd::NotEmpty { cloud, area, len } => Some(Ending::Store {
            cloud: *cloud,
            area: *area,
            len: *len,
        }),
        ReplayEnd::Damaged { cloud, at, byte } => Some(Ending::Damaged {
            cloud: *cloud,
            at: *at,
            byte: *byte,
        }),
        ReplayEnd::Done { .. } => None,
        ReplayEnd::SourceFault => None,
        ReplayEnd::SinkFault => None,
        ReplayEnd::NoMemory => None,
    }
}

/// Writes a last line. SinkFault: the sink's count rose, and a front of the line was written. NoMemory: nothing was.
pub fn write_last<K: Sink>(alloc: Global, last: &Ending, sink: &mut K) -> Result<(), LastErr>
    ensures { WritesLast (text_of_ending last.now) result (K.written sink.old) (K.written sink.new)
        (K.faults sink.old) (K.faults sink.new) }
{
    let mut text = Bytes::new(alloc);
    match write_ending(last, &mut text) {
        Ok(()) => {}
        Err(NoMemory) => return Err(LastErr::NoMemory),
    }
    match write_all(sink, text.as_slice()) {
        Ok(()) => Ok(()),
        Err(_) => Err(LastErr::SinkFault),
    }
}

/// Writes the last line of a session that ended so, if one is still to be written, whatever stands before it, and answers the
/// status: 4 where the sink failed in this line, and 6 where memory ran out before it.
pub fn finish<K: Sink>(alloc: Global, end: &ReplayEnd, sink: &mut K) -> u8
    ensures { HasLastLine end.now result (K.written sink.old) (K.written sink.new) (K.faults sink.old)
        (K.faults sink.new) }
{
    match last_line(end) {
        None => status_of(end),
        Some(last) => match write_last(alloc, &last, sink) {
            Ok(()) => status_of(end),
            Err(LastErr::SinkFault) => 4,
            Err(LastErr::NoMemory) => 6,
        },
    }
}
