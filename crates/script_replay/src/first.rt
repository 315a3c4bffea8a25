//! The first line of a script.

ghost use Rattle.std.specs.Prelude.{◌≡◌, ◌≤◌, Ok, IfOk, IfErr, OnOk};
ghost use Rattle.share_server.specs.JournalStart.Ranges.{AreRooms};
ghost use Rattle.two_worlds.specs.Session.Reading as reading;
ghost use Rattle.two_worlds.specs.Session.Lines.{script_limit};
ghost use Rattle.replay_core.specs.Opening.{before_first, IsHead};
ghost use Rattle.script_replay.specs.First.{EndsFirst, SaysHeader};

use crate::ReplayEnd;
use crate::lines::{end_of_line, end_of_reader};
use share_server::{Shape, Source, UserRooms};
use two_worlds::LineReader;

// What the first line says, or how the replay ends there.
fn header_of_line(reader: &LineReader) -> Result<(Shape, UserRooms), ReplayEnd>
    ensures says { SaysHeader (reading.header_at reader.now.line) result }
    ensures rooms { IfOk result (λ header. AreRooms header.1) }
{
    match reader.read_header() {
        Ok(header) => Ok(header),
        Err(error) => Err(end_of_line(1, error)),
    }
}

/// Reads the first line: the shape and the rooms of the session. The reader is one before its first line.
pub fn first_line<S: Source>(
    reader: &mut LineReader,
    source: &mut S,
) -> Result<(Shape, UserRooms), ReplayEnd>
    requires { reader.old ≡ before_first }
    ensures header { IfOk result (λ header. IsHead (S.left source.old) header.0 header.1
        reader.new (S.left source.new)) }
    ensures rooms { IfOk result (λ header. AreRooms header.1) }
    ensures limited { reader.new.taken ≤ script_limit }
    ensures still { OnOk result (S.faults source.new ≡ S.faults source.old) }
    ensures end { IfErr result (EndsFirst (S.left source.old) (S.faults source.old) (S.faults source.new)) }
{
    match reader.next(source) {
        Ok(true) => header_of_line(reader),
        Ok(false) => Err(ReplayEnd::Script {
            line: 1,
            at: 0,
            found: None,
        }),
        Err(error) => Err(end_of_reader(1, error)),
    }
}
