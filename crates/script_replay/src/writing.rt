//! Writing what is due.

ghost use Rattle.std.specs.Prelude.{◌≡◌, IfErr, OnOk};
ghost use Rattle.std.specs.Io.KnownBytes.{Appends};
ghost use Rattle.two_worlds.specs.Transcript.Transcript.{line_text};
ghost use Rattle.replay_core.specs.Going.{EndsSink};
ghost use Rattle.script_replay.specs.Answering.{EndsWriting};

use crate::ReplayEnd;
use share_server::{Failed, Sink};
use std::alloc::Global;
use two_worlds::{Answer, Line};

/// Writes this text, and drops it. Where the sink fails a front of it was written.
pub fn write_text<K: Sink>(alloc: Global, sink: &mut K, text: &mut Answer) -> Result<(), ReplayEnd>
    ensures ok { OnOk result (Appends (K.written sink.old) (K.written sink.new) text.old) }
    ensures still { OnOk result (K.faults sink.new ≡ K.faults sink.old) }
    ensures end { IfErr result (EndsSink text.old (K.written sink.old) (K.written sink.new)
        (K.faults sink.old) (K.faults sink.new)) }
{
    let written = text.write(sink);
    text.clear(alloc);
    match written {
        Ok(()) => Ok(()),
        Err(Failed) => Err(ReplayEnd::SinkFault),
    }
}

/// Writes a line of the transcript. `text` is used on the way.
pub fn write_one<K: Sink>(
    alloc: Global,
    sink: &mut K,
    line: &Line,
    text: &mut Answer,
) -> Result<(), ReplayEnd>
    ensures ok { OnOk result (Appends (K.written sink.old) (K.written sink.new) (line_text line.now)) }
    ensures still { OnOk result (K.faults sink.new ≡ K.faults sink.old) }
    ensures end { IfErr result (EndsWriting (line_text line.now) (K.written sink.old) (K.written sink.new)
        (K.faults sink.old) (K.faults sink.new)) }
{
    text.clear(alloc);
    match text.push(line) {
        Ok(()) => write_text(alloc, sink, text),
        Err(_) => Err(ReplayEnd::NoMemory),
    }
}
