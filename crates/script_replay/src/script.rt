//! A session from its script's first byte to its end.

ghost use Rattle.std.specs.Prelude.{◌≡◌, ◌<◌, ◌≤◌, ℕ, [], IsTrue, length};
ghost use Rattle.share_server.specs.CdBase.shape.Shape.{Shape};
ghost use Rattle.two_worlds.specs.Session.Lines.{script_limit};
ghost use Rattle.script_lines.specs.SessionModel.Vault.{Setting};
ghost use Rattle.script_lines.specs.Jobs.{AreReached};
ghost use Rattle.script_replay.specs.Endings.{ReplayCall, replay_call, call_of};
ghost use Rattle.script_replay.specs.Written.{HasReplayed};
ghost use Rattle.replay_core.specs.Opening.{IsEmpty};
ghost use Rattle.replay_core.specs.Going.{ReplayStart, IsReplayReady, HasCome};

use crate::ReplayEnd;
use crate::first::first_line;
use crate::lines::{answer_event, next_event};
use crate::writing::write_one;
use replay_core::{empty_clouds, open_clouds};
use script_lines::{
    Buffers, Jobs, LocalLink, Servers, law_of_acknowledged, law_of_moments, law_of_own_replies,
};
use share_server::laws::law_of_no_commands;
use share_server::{Shelf, Sink, Source};
use std::alloc::Global;
use two_worlds::{Answer, Line, LineReader};

// Carries the lines out, one after another, to the end of the script, and writes what is answered to each and at last
// `done`. The clouds are opened, and `open` is written.
fn carry_lines<S: Source, K: Sink, V: Shelf>(
    alloc: Global,
    reader: &mut LineReader,
    source: &mut S,
    sink: &mut K,
    link: &mut LocalLink<'_, V>,
    buffers: &mut Buffers,
) -> ReplayEnd
    requires limited { reader.old.taken ≤ script_limit }
    ensures replays { (start : ReplayStart) (s : Setting)
        → HasCome V.cloud_at start s link.old [] reader.old (S.left source.old) (S.faults source.old)
        (K.written sink.old) (K.faults sink.old) 0
        → HasReplayed result (call_of start (S.left source.new) (S.faults source.new) (K.faults sink.new)
        (V.faults link.new.shelf.now) (V.cloud_at link.new.shelf.now))
        start.written (K.written sink.new) }
    ensures same_reference { link.new.shelf.ghost_name ≡ link.old.shelf.ghost_name }
{
    law_of_acknowledged();
    law_of_own_replies();
    law_of_moments();
    let shape = link.shape();
    let mut jobs = Jobs::new(alloc);
    let mut text = Answer::new(alloc);
    let mut events: u64 = 0;
    'lines: loop {
        let next = next_event(alloc, shape, jobs.len() as u32, events, reader, source);
        match next {
            Ok(Some(event)) => {
                let answered = answer_event(
                    alloc, link, &mut jobs, event, buffers, &mut text, sink,
                );
                match answered {
                    Ok(()) => events += 1,
                    Err(end) => return end,
                }
            }
            Ok(None) => break 'lines,
            Err(end) => return end,
        }
    }
    match write_one(alloc, sink, &Line::Done { events }, &mut text) {
        Ok(()) => ReplayEnd::Done { events },
        Err(end) => end,
    }
}

// Opens the clouds, which read as nothing, and carries the script's lines out.
fn carry_script<S: Source, K: Sink, V: Shelf>(
    alloc: Global,
    reader: &mut LineReader,
    source: &mut S,
    sink: &mut K,
    link: &mut LocalLink<'_, V>,
) -> ReplayEnd
    requires limited { reader.old.taken ≤ script_limit }
    requires empty { (cloud : ℕ) → cloud < link.old.servers.shape.n → IsEmpty (V.cloud_at link.old.shelf.now cloud) }
    ensures replays { (start : ReplayStart) (s : Setting)
        → IsReplayReady V.cloud_at start s link.old reader.old (S.left source.old) (S.faults source.old)
        (K.written sink.old) (K.faults sink.old)
        → HasReplayed result (call_of start (S.left source.new) (S.faults source.new) (K.faults sink.new)
        (V.faults link.new.shelf.now) (V.cloud_at link.new.shelf.now))
        start.written (K.written sink.new) }
    ensures same_reference { link.new.shelf.ghost_name ≡ link.old.shelf.ghost_name }
{
    law_of_acknowledged();
    law_of_own_replies();
    law_of_no_commands();
    let mut text = Answer::new(alloc);
    let Ok(mut buffers) = Buffers::make(alloc) else {
        return ReplayEnd::NoMemory;
    };
    match open_clouds(link) {
        Ok(()) => {}
        Err(end) => return end,
    }
    let shape = link.shape();
    match write_one(alloc, sink, &Line::Opened { shape }, &mut text) {
        Ok(()) => carry_lines(alloc, reader, source, sink, link, &mut buffers),
        Err(end) => end,
    }
}

/// Runs the script in the source over the clouds of the shelf, which are to be empty, and writes its transcript.
///
/// Line 1 is read first. Then each area of the n clouds is asked, in order, whether it is empty; the clouds are opened in
/// order; `open N K` is written; and each further line is carried out and answered before the next one is read. At the
/// script's end `done E` is written. The last lines of all other ends are left to the caller. Where a told cloud isn't empty no cloud
/// is opened, and nothing is written to any, whatever the end.
///
/// Whatever the end, there is a session of just the lines that were carried out. Each get of it gives each version that
/// its clouds acknowledged; each disk that a crash may leave stands for a list that its cloud had in some state of the
/// session, and keeps what it acknowledged; and each reply to an upload follows from that user's own commands. Where all clouds
/// are told, none failed or was armed, no line was cut and no strings clash, each user's lines are answered as in a session of
/// that user alone.
pub fn replay<S: Source, K: Sink, V: Shelf>(
    alloc: Global,
    source: &mut S,
    sink: &mut K,
    shelf: &mut V,
) -> ReplayEnd
    ensures { HasReplayed result
        (replay_call (S.left source.old) (S.left source.new) (S.faults source.old) (S.faults source.new)
        (K.faults sink.old) (K.faults sink.new) (V.faults shelf.old) (V.faults shelf.new)
        (V.cloud_at shelf.old) (V.cloud_at shelf.new)) (K.written sink.old) (K.written sink.new) }
{
    law_of_acknowledged();
    law_of_own_replies();
    law_of_no_commands();
    let Ok(mut reader) = LineReader::make(alloc) else {
        return ReplayEnd::NoMemory;
    };
    let (shape, rooms) = match first_line(&mut reader, source) {
        Ok(header) => header,
        Err(end) => return end,
    };
    match empty_clouds(shelf, shape) {
        Ok(()) => {}
        Err(end) => return end,
    }
    let Ok(servers) = Servers::make(alloc, shape, rooms) else {
        return ReplayEnd::NoMemory;
    };
    let mut link = LocalLink::of(alloc, shelf, servers);
    let end = carry_script(alloc, &mut reader, source, sink, &mut link);
    let _shelf = link.release();
    end
}
