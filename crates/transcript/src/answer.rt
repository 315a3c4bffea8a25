//! The text of answers, before it is written.

ghost use Rattle.std.specs.Prelude.{◌≡◌, ◌++◌, [], OnOk, OnErr};
ghost use Rattle.transcript.specs.Transcript.{line_text};
ghost use Rattle.transcript.specs.declared.line.Line.TheVariants as lines;
ghost use Rattle.transcript.specs.Writing.{HasWrittenText};

use crate::gathering::{put, put_packed};
use crate::spelling::spell;
use crate::{Line, write_line};
use cd_edges::{Failed, Sink};
use grammar::{Bytes, NoMemory};
use std::alloc::Global;
use std::marker::Model;

// A file of more bytes stays packed. A shorter one is spelled at once, so that its line goes to the sink in one piece.
const MOST_SPELLED: usize = 32_768;

/// The text of lines that are still to be written. A long file at its end lies there as its bytes, and not as their digits,
/// which are twice as many.
#[derive(Drop)]
pub struct Answer {
    plain: Bytes,
    // behind the plain text: digits for these bytes and a newline, or nothing where there are none
    packed: Bytes,
}

impl Model for Answer {
    ghost use Rattle.std.specs.Prelude.{ℕ, List, ◌++◌};
    ghost use Rattle.transcript.specs.Packed.{packed_text};

    ghost Value = { List ℕ };

    ghost view = { λ a. a.plain ++ packed_text a.packed };
}

impl Answer {
    /// No text. It takes no memory.
    pub fn new(alloc: Global) -> Answer
        ensures { result ≡ [] }
    {
        Answer {
            plain: Bytes::new(alloc),
            packed: Bytes::new(alloc),
        }
    }

    /// Drops all text. The memory of a packed file is freed, and that of the plain text is kept.
    pub fn clear(&mut self, alloc: Global)
        ensures { self.new ≡ [] }
    {
        self.plain.clear();
        self.packed = Bytes::new(alloc);
    }

    /// Appends a line with its newline. For want of memory nothing changes.
    pub fn push(&mut self, line: &Line) -> Result<(), NoMemory>
        ensures ok { OnOk result (self.new ≡ self.old ++ line_text line.now) }
        ensures err { OnErr result (self.new ≡ self.old) }
    {
        spell(&mut self.plain, &mut self.packed)?;
        write_line(line, &mut self.plain)
    }

    /// Appends the line `got` of a file with its newline. A long file is held as its bytes, until they are written or another
    /// text comes behind them. For want of memory nothing changes.
    pub fn push_got(&mut self, file: Bytes) -> Result<(), NoMemory>
        ensures ok { OnOk result (self.new ≡ self.old ++ line_text (lines.Got file)) }
        ensures err { OnErr result (self.new ≡ self.old) }
    {
        spell(&mut self.plain, &mut self.packed)?;
        if file.len() <= MOST_SPELLED {
            return write_line(&Line::Got { bytes: file }, &mut self.plain);
        }
        self.plain.extend(b"got ")?;
        self.packed = file;
        Ok(())
    }

    /// Appends a text. For want of memory nothing changes.
    pub fn extend(&mut self, text: &[u8]) -> Result<(), NoMemory>
        ensures ok { OnOk result (self.new ≡ self.old ++ text.now) }
        ensures err { OnErr result (self.new ≡ self.old) }
    {
        spell(&mut self.plain, &mut self.packed)?;
        self.plain.extend(text)
    }

    /// Writes the text. The digits of a packed file are made in pieces of 65,536 bytes, and no memory is taken. Where the sink
    /// fails, which comes only where its count of faults rose, a front of the text was written, and nothing after it.
    pub fn write<K: Sink>(&self, sink: &mut K) -> Result<(), Failed>
        ensures writes { HasWrittenText self.now (K.written sink.old) (K.written sink.new) (K.faults sink.old)
            (K.faults sink.new) result }
    {
        match put(self.plain.as_slice(), sink) {
            Ok(()) => put_packed(self.packed.as_slice(), sink),
            Err(Failed) => Err(Failed),
        }
    }
}
