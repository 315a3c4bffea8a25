//! The lines behind the first one.

ghost use Rattle.std.specs.Prelude.{◌≡◌, ◌<◌, ◌≤◌, ◌+◌, ℕ, length, IfOk, IfErr, OnOk, OnErr, IfSome};
ghost use Rattle.std.specs.Io.KnownBytes.{Appends};
ghost use Rattle.two_worlds.specs.Session.Lines.{script_limit};
ghost use Rattle.two_worlds.specs.Session.Spelling.{FitsEvent};
ghost use Rattle.two_worlds.specs.Session.Reading.{event_at};
ghost use Rattle.two_worlds.specs.Session.Scripts.{jobs_after};
ghost use Rattle.script_lines.specs.At.{KeepsOtherClouds};
ghost use Rattle.script_lines.specs.Jobs.{AreReached};
ghost use Rattle.script_replay.specs.First.{end_of_script, end_without};
ghost use Rattle.replay_core.specs.Going.{CanBe, SaysNext};
ghost use Rattle.script_replay.specs.Answering.{SaysEvent, EndsReading, AnswersLine, EndsAnswering, end_of_carry};

use crate::ReplayEnd;
use crate::writing::write_text;
use script_lines::{Buffers, CarryErr, Jobs, LocalLink, carry_out};
use share_server::{Shape, Shelf, Sink, Source};
use std::alloc::Global;
use two_worlds::{Answer, Event, LineErr, LineReader, ScriptErr};

/// The end of a replay whose line of this number says nothing.
pub fn end_of_line(line: u64, error: ScriptErr) -> ReplayEnd
    ensures { result ≡ end_of_script line error }
{
    match error {
        ScriptErr::At { at, found } => ReplayEnd::Script { line, at, found },
        ScriptErr::NoMemory => ReplayEnd::NoMemory,
    }
}

/// The end of a replay that gets no line of this number.
pub fn end_of_reader(line: u64, error: LineErr) -> ReplayEnd
    ensures { result ≡ end_without line error }
{
    match error {
        LineErr::Fault => ReplayEnd::SourceFault,
        LineErr::At { at, found } => ReplayEnd::Script { line, at, found },
        LineErr::NoMemory => ReplayEnd::NoMemory,
    }
}

// What the reader's line says. The reader goes on behind it.
fn event_of_line(
    alloc: Global,
    shape: Shape,
    jobs: u32,
    reader: &mut LineReader,
) -> Result<Event, ScriptErr>
    ensures says { SaysEvent (event_at shape jobs reader.old.line) result }
    ensures can { IfOk result (CanBe shape jobs) }
    ensures ahead { reader.new.ahead ≡ reader.old.ahead }
    ensures taken { reader.new.taken ≡ reader.old.taken }
{
    reader.read_line(alloc, shape, jobs)
}

/// Reads the next line, behind so many uploads and so many lines after the first; None at the end of the script.
pub fn next_event<S: Source>(
    alloc: Global,
    shape: Shape,
    jobs: u32,
    events: u64,
    reader: &mut LineReader,
    source: &mut S,
) -> Result<Option<Event>, ReplayEnd>
    requires few { events ≤ reader.old.taken }
    requires limited { reader.old.taken ≤ script_limit }
    ensures says { IfOk result (λ event. SaysNext shape jobs reader.old (S.left source.old) event
        reader.new (S.left source.new)) }
    ensures can { IfOk result (λ event. IfSome event (CanBe shape jobs)) }
    ensures counted { IfOk result (λ event. IfSome event (λ one. reader.old.taken < reader.new.taken)) }
    ensures limited { reader.new.taken ≤ script_limit }
    ensures still { OnOk result (S.faults source.new ≡ S.faults source.old) }
    ensures end { IfErr result (EndsReading shape jobs events reader.old (S.left source.old)
        (S.faults source.old) (S.faults source.new)) }
{
    let line = events + 2;
    match reader.next(source) {
        Ok(true) => match event_of_line(alloc, shape, jobs, reader) {
            Ok(event) => Ok(Some(event)),
            Err(error) => Err(end_of_line(line, error)),
        },
        Ok(false) => Ok(None),
        Err(error) => Err(end_of_reader(line, error)),
    }
}

// The end of a replay whose line was cut by this error.
fn end_of_error(error: CarryErr) -> ReplayEnd
    ensures { result ≡ end_of_carry error }
{
    match error {
        CarryErr::ShelfFault { cloud } => ReplayEnd::ShelfFault { cloud },
        CarryErr::NoMemory => ReplayEnd::NoMemory,
    }
}

// Carries a line out, and writes the text of its answers.
fn answer_line<K: Sink, V: Shelf>(
    alloc: Global,
    link: &mut LocalLink<'_, V>,
    jobs: &mut Jobs,
    event: &Event,
    buffers: &mut Buffers,
    text: &mut Answer,
    sink: &mut K,
) -> Result<(), ReplayEnd>
    requires fits { FitsEvent link.old.servers.shape (length jobs.old) event.now }
    requires reached { AreReached link.old.servers.shape jobs.old }
    ensures answers { OnOk result (AnswersLine V.cloud_at event.now link.old jobs.old link.new jobs.new
        (Appends (K.written sink.old) (K.written sink.new))) }
    ensures still { OnOk result (K.faults sink.new ≡ K.faults sink.old) }
    ensures end { IfErr result (EndsAnswering V.cloud_at event.now link.old jobs.old link.new jobs.new
        (K.written sink.old) (K.written sink.new) (K.faults sink.old) (K.faults sink.new)) }
    ensures leaves { KeepsOtherClouds V.cloud_at link.old link.new }
    ensures same_reference { link.new.shelf.ghost_name ≡ link.old.shelf.ghost_name }
    ensures reached { AreReached link.old.servers.shape jobs.new }
    ensures count { OnOk result (length jobs.new ≡ jobs_after (length jobs.old) event.now) }
{
    text.clear(alloc);
    match carry_out(alloc, link, jobs, event, buffers, text) {
        Ok(()) => write_text(alloc, sink, text),
        Err(error) => Err(end_of_error(error)),
    }
}

/// Carries a line out, writes the text of its answers, and lets the line go. What the caller's loop would let go of on its way
/// back is let go of here, once.
pub fn answer_event<K: Sink, V: Shelf>(
    alloc: Global,
    link: &mut LocalLink<'_, V>,
    jobs: &mut Jobs,
    event: Event,
    buffers: &mut Buffers,
    text: &mut Answer,
    sink: &mut K,
) -> Result<(), ReplayEnd>
    requires fits { FitsEvent link.old.servers.shape (length jobs.old) event }
    requires reached { AreReached link.old.servers.shape jobs.old }
    ensures answers { OnOk result (AnswersLine V.cloud_at event link.old jobs.old link.new jobs.new
        (Appends (K.written sink.old) (K.written sink.new))) }
    ensures still { OnOk result (K.faults sink.new ≡ K.faults sink.old) }
    ensures end { IfErr result (EndsAnswering V.cloud_at event link.old jobs.old link.new jobs.new
        (K.written sink.old) (K.written sink.new) (K.faults sink.old) (K.faults sink.new)) }
    ensures leaves { KeepsOtherClouds V.cloud_at link.old link.new }
    ensures same_reference { link.new.shelf.ghost_name ≡ link.old.shelf.ghost_name }
    ensures reached { AreReached link.old.servers.shape jobs.new }
    ensures count { OnOk result (length jobs.new ≡ jobs_after (length jobs.old) event) }
{
    answer_line(alloc, link, jobs, &event, buffers, text, sink)
}
