//! Reading a version of a file from the disks of the named clouds.

ghost use Rattle.std.specs.Prelude.{◌≡◌, ℕ, List, [], Option, IfSome, IfNone};
ghost use Rattle.std.specs.Io.KnownBytes.{Appends};
ghost use Rattle.two_worlds.specs.Transcript.Endings.{ending_text as text_of_ending};
ghost use Rattle.read_command.specs.Ends.{CountsSink, IsOfOpening};
ghost use Rattle.command_words.specs.Commands.{FitsRead};
ghost use Rattle.command_words.specs.Views.{asked_read};
ghost use Rattle.cd_top.specs.Read.{IsReadClosed, IsVersionRead, around_call, last_line as line_due, status_of as status_due};

use crate::ending::{LastErr, write_last};
use command_words::ReadWords;
use delete_command::{Failed, Shelf, Sink};
use read_command::{ReadEnd, Wanted, read_file};
use std::alloc::Global;
use two_worlds::Ending;

// The status of a read that ended so.
fn status_of(end: &ReadEnd) -> u8
    ensures { result ≡ status_due end.now }
{
    match end {
        ReadEnd::Done => 0,
        ReadEnd::SinkFault => 4,
        ReadEnd::ShelfFault { .. } => 5,
        ReadEnd::NoMemory => 6,
        ReadEnd::NotBegun { .. } => 7,
        ReadEnd::Damaged { .. } => 7,
        ReadEnd::Other { .. } => 7,
        ReadEnd::Refused => 8,
    }
}

// The last line of a read that ended so, if one is still to be written.
fn last_line(end: &ReadEnd) -> Option<Ending>
    ensures line { IfSome result (λ last. line_due end.now ≡ text_of_ending last) }
    ensures some { IfSome result (λ last. IsOfOpening end.now) }
    ensures none { IfNone result (line_due end.now ≡ []) }
{
    match end {
        ReadEnd::NotBegun { cloud, len } => Some(Ending::NotBegun {
            cloud: *cloud,
            len: *len,
        }),
        ReadEnd::Damaged { cloud, at, byte } => Some(Ending::Damaged {
            cloud: *cloud,
            at: *at,
            byte: *byte,
        }),
        ReadEnd::Other { cloud, found } => Some(Ending::Other {
            cloud: *cloud,
            format: found.format,
            n: found.shape.n,
            k: found.shape.k,
            own: found.cloud,
        }),
        ReadEnd::ShelfFault { cloud } => Some(Ending::Shelf { cloud: *cloud }),
        ReadEnd::Done => None,
        ReadEnd::Refused => None,
        ReadEnd::SinkFault => None,
        ReadEnd::NoMemory => None,
    }
}

// Writes the last line of a read that ended so, if one is still to be written, and answers the status.
fn finish_read<K: Sink>(alloc: Global, end: &ReadEnd, sink: &mut K) -> u8
    ensures { (faults : ℕ) (text : List ℕ) (before : Option (List ℕ)) → CountsSink faults (K.faults sink.old) end.now
        → Appends before (K.written sink.old) text → (IsOfOpening end.now → text ≡ [])
        → IsReadClosed result faults (K.faults sink.new) end.now text before (K.written sink.new) }
{
    match last_line(end) {
        None => status_of(end),
        Some(last) => match write_last(alloc, &last, sink) {
            Ok(()) => status_of(end),
            Err(LastErr::SinkFault) => 4,
            Err(LastErr::NoMemory) => 6,
        },
    }
}

/// Reads the version that is asked for from the disks of the named clouds in the directory, writes its bytes or why
/// there are none, and answers the status.
pub fn read_in<K: Sink, V: Shelf>(
    alloc: Global,
    asked: &ReadWords<'_>,
    sink: &mut K,
    shelf: &mut V,
) -> u8
    requires { FitsRead (asked_read asked.now) }
    ensures { IsVersionRead result
        (around_call (K.faults sink.old) (K.faults sink.new) (V.faults shelf.old) (V.faults shelf.new)
        (V.cloud_at shelf.old) (V.cloud_at shelf.new)) (asked_read asked.now)
        (K.written sink.old) (K.written sink.new) }
{
    match shelf.root(asked.directory) {
        Ok(()) => {}
        Err(Failed) => return 5,
    }
    let wanted = Wanted {
        shape: asked.shape,
        user: asked.user,
        path: asked.path,
        version: asked.version,
        clouds: &asked.clouds,
    };
    let end = read_file(alloc, &wanted, sink, shelf);
    finish_read(alloc, &end, sink)
}
