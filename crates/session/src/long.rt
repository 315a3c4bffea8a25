//! Reading a line of which the front is held as bytes.

ghost use Rattle.std.specs.Prelude.{◌≡◌, ◌≢◌, ◌++◌, ◌+◌, ◌<◌, ◌≤◌, IfOk, IfErr, IfSome, IsTrue};
ghost use Rattle.journal_start.specs.Ranges.{AreRooms};
ghost use Rattle.journal_start.specs.Grammar.Hexadecimal.{hex};
ghost use Rattle.session.specs.Front.{NamesUpload};
ghost use Rattle.session.specs.Reading.{ReadsScript, header_at, event_at};
ghost use Rattle.session.specs.Spelling.{AreLineBytes, file_limit};

use crate::Event;
use crate::front::{Front, spell};
use crate::reading::{ScriptErr, read_header, read_line};
use journal_start::{Bytes, FILE_LIMIT, NoMemory, Shape, UserId, UserRooms, Version, decode};
use std::alloc::Global;

// Of which version of which file of which user a line is the upload.
#[derive(Drop)]
struct Name {
    user: UserId,
    path: Bytes,
    version: Version,
}

/// What a line says as a script's first one. It takes no memory.
pub fn header_behind(front: &Front, tail: &[u8]) -> Result<(Shape, UserRooms), ScriptErr>
    ensures reads { ReadsScript result (header_at (front.now ++ tail.now)) }
    ensures memory { IfErr result (λ e. e ≢ ScriptErr.NoMemory) }
    ensures allowed { IfOk result (λ header. AreRooms header.1) }
{
    if front.is_empty() {
        read_header(tail)
    } else {
        Err(ScriptErr::At {
            at: 0,
            found: Some(b'u'),
        })
    }
}

// What a line says that is spelled out for it.
fn read_spelled(
    alloc: Global,
    shape: Shape,
    jobs: u32,
    head: &[u8],
    packed: &[u8],
    tail: &[u8],
) -> Result<Event, ScriptErr>
    ensures { ReadsScript result (event_at shape jobs ((head.now ++ hex packed.now) ++ tail.now)) }
{
    match spell(alloc, head, packed, tail) {
        Ok(line) => read_line(alloc, shape, jobs, line.as_slice()),
        Err(NoMemory) => Err(ScriptErr::NoMemory),
    }
}

// The name in an upload's text up to its last word, if it is one.
fn name_of(alloc: Global, shape: Shape, jobs: u32, head: &[u8]) -> Result<Option<Name>, NoMemory>
    ensures { IfOk result (λ o. IfSome o (λ name. NamesUpload shape jobs head.now name.user name.path name.version)) }
{
    let mut text = Bytes::new(alloc);
    text.extend(head)?;
    text.push(b'-')?;
    match read_line(alloc, shape, jobs, text.as_slice()) {
        Ok(
            Event::Upload {
                user,
                path,
                version,
                bytes,
            },
        ) => {
            if bytes.is_empty() {
                Ok(Some(Name {
                    user,
                    path,
                    version,
                }))
            } else {
                Ok(None)
            }
        }
        Ok(_) => Ok(None),
        Err(ScriptErr::At { .. }) => Ok(None),
        Err(ScriptErr::NoMemory) => Err(NoMemory),
    }
}

// Whether so many bytes are a file's, in two parts.
fn is_content(packed: usize, more: usize) -> bool
    ensures { IsTrue result → (0 < packed + more) × (packed + more ≤ file_limit) }
{
    let len = packed.saturating_add(more);
    0 < len && len <= FILE_LIMIT
}

// What a line says of which the name was read. The bytes that are held become the file's.
fn read_content(
    alloc: Global,
    shape: Shape,
    jobs: u32,
    name: Name,
    head: &[u8],
    packed: Bytes,
    tail: &[u8],
) -> Result<Event, ScriptErr>
    requires named { NamesUpload shape jobs head.now name.user name.path name.version }
    requires bytes { AreLineBytes packed }
    ensures { ReadsScript result (event_at shape jobs ((head.now ++ hex packed) ++ tail.now)) }
{
    match decode(alloc, tail) {
        Ok(Some(more)) => {
            if !is_content(packed.len(), more.len()) {
                return read_spelled(alloc, shape, jobs, head, packed.as_slice(), tail);
            }
            let mut bytes = packed;
            match bytes.extend(more.as_slice()) {
                Ok(()) => Ok(Event::Upload {
                    user: name.user,
                    path: name.path,
                    version: name.version,
                    bytes,
                }),
                Err(NoMemory) => Err(ScriptErr::NoMemory),
            }
        }
        Ok(None) => read_spelled(alloc, shape, jobs, head, packed.as_slice(), tail),
        Err(NoMemory) => Err(ScriptErr::NoMemory),
    }
}

/// What a further line says, where so many uploads came before it. The bytes that the front holds become the upload's,
/// without a copy; a line that is no upload, or has a wrong place, is spelled out first.
pub fn event_behind(
    alloc: Global,
    shape: Shape,
    jobs: u32,
    front: Front,
    tail: &[u8],
) -> Result<Event, ScriptErr>
    ensures { ReadsScript result (event_at shape jobs (front ++ tail.now)) }
{
    let (head, packed) = front.parts();
    match name_of(alloc, shape, jobs, head.as_slice()) {
        Ok(Some(name)) => { read_content(alloc, shape, jobs, name, head.as_slice(), packed, tail) }
        Ok(None) => read_spelled(alloc, shape, jobs, head.as_slice(), packed.as_slice(), tail),
        Err(NoMemory) => Err(ScriptErr::NoMemory),
    }
}
