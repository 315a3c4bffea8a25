//! A window of a source: a line, and the bytes that were read ahead of it.

ghost use Rattle.std.specs.Prelude.{◌≡◌, ◌+◌, ◌<◌, ◌≤◌, ◌^◌, [], length, take, drop, IfOk, OnOk, OnErr};
ghost use Rattle.std.specs.Io.KnownBytes.{Consumes, Keeps, IsAtEnd};
ghost use Rattle.cd_edges.specs.Causes.{HasCause};
ghost use Rattle.cd_edges.specs.Held.{Held, Follows};

use crate::{Failed, Source};
use cd_base::NoMemory;
use std::alloc::Global;
use std::marker::Model;

// The room for a read, in bytes.
const READ: usize = 65_536;

// The most bytes of a line whose memory is kept for the next one.
const KEPT_LINE: usize = 1_048_576;

/// A line, and the bytes that were read ahead of it, in one buffer, in this order: `line_from` to `line_to` is the line,
/// `from` to `filled` what is ahead.
#[derive(Drop)]
pub struct Window {
    bytes: Vec<u8>,
    line_from: usize,
    line_to: usize,
    from: usize,
    filled: usize,
}

impl Model for Window {
    ghost use Rattle.std.specs.Prelude.{◌-◌, ◌≤◌, length, take, drop};
    ghost use Rattle.cd_edges.specs.Held.{Held};

    ghost Value = { Held };

    ghost view = { λ w. record {
      line = take (w.line_to - w.line_from) (drop w.line_from w.bytes.items);
      ahead = take (w.filled - w.from) (drop w.from w.bytes.items);
      room = length w.bytes.items - w.filled;
    } };

    ghost invariant = { λ w. (w.line_from ≤ w.line_to) × (w.line_to ≤ length w.bytes.items) × (w.from ≤ w.filled)
        × (w.filled ≤ length w.bytes.items) };
}

impl Window {
    /// No line, and nothing ahead. It takes no memory.
    pub fn new(alloc: Global) -> Window
        ensures { result ≡ record { line = []; ahead = []; room = 0 } }
    {
        Window {
            bytes: Vec::new(alloc),
            line_from: 0,
            line_to: 0,
            from: 0,
            filled: 0,
        }
    }

    /// The line.
    pub fn line(&self) -> &[u8]
        ensures { result.now ≡ self.now.line }
    {
        &self.bytes[self.line_from..self.line_to]
    }

    /// The bytes ahead.
    pub fn ahead(&self) -> &[u8]
        ensures { result.now ≡ self.now.ahead }
    {
        &self.bytes[self.from..self.filled]
    }

    /// Makes the next n bytes the line, and drops the byte behind them, its newline.
    pub fn take_line(&mut self, n: usize)
        requires { n < length self.old.ahead }
        ensures { self.new ≡ record {
          line = take n self.old.ahead;
          ahead = drop (n + 1) self.old.ahead;
          room = self.old.room;
        } }
    {
        self.line_from = self.from;
        self.line_to = self.from + n;
        self.from += n + 1;
    }

    /// Drops the next n bytes, and the line.
    pub fn skip(&mut self, n: usize)
        requires { n ≤ length self.old.ahead }
        ensures { self.new.ahead ≡ drop n self.old.ahead }
    {
        self.from += n;
    }

    // Drops the line, and moves the bytes ahead to the front.
    fn drop_line(&mut self)
        ensures { self.new.ahead ≡ self.old.ahead }
    {
        if 0 < self.from {
            self.bytes.copy_within(self.from..self.filled, 0);
            self.filled -= self.from;
            self.from = 0;
        }
        self.line_from = 0;
        self.line_to = 0;
    }

    /// Gives the memory of a long line back, and drops the line then. A short one stays.
    pub fn let_go(&mut self)
        ensures { self.new.ahead ≡ self.old.ahead }
    {
        if KEPT_LINE < self.line_to - self.line_from {
            self.drop_line();
            self.cut();
        }
    }

    // Drops the line, and the memory behind the bytes ahead.
    fn cut(&mut self)
        ensures { self.new.ahead ≡ self.old.ahead }
    {
        self.line_from = 0;
        self.line_to = 0;
        self.bytes.truncate(self.filled);
        self.bytes.shrink_to(0);
    }

    /// Drops the line, and makes room for a read. No more room is filled with zeros than a read may take, so that memory is
    /// touched once, however long a line is; the buffer's capacity doubles, so that it moves seldom.
    pub fn make_room(&mut self) -> Result<(), NoMemory>
        requires { length self.old.ahead < 2 ^ 62 }
        ensures ahead { self.new.ahead ≡ self.old.ahead }
        ensures room { OnOk result (0 < self.new.room) }
    {
        self.drop_line();
        self.grow()
    }

    fn grow(&mut self) -> Result<(), NoMemory>
        requires { length self.old.ahead < 2 ^ 62 }
        ensures ahead { self.new.ahead ≡ self.old.ahead }
        ensures room { OnOk result (0 < self.new.room) }
    {
        if self.bytes.len() - self.filled < READ {
            self.bytes.resize(self.filled + READ, 0)?;
        }
        Ok(())
    }

    /// Reads once, into the room behind the bytes ahead, and answers how many bytes came; 0 is the end of the source.
    pub fn read<S: Source>(&mut self, source: &mut S) -> Result<usize, Failed>
        requires { 0 < self.old.room }
        ensures follows { Follows self.old.ahead (S.left source.old) self.new.ahead (S.left source.new) }
        ensures longer { IfOk result (λ n. length self.new.ahead ≡ length self.old.ahead + n) }
        ensures begins { take (length self.old.ahead) self.new.ahead ≡ self.old.ahead }
        ensures end { IfOk result (λ n. n ≡ 0 → IsAtEnd (S.left source.new)) }
        ensures cause { HasCause (S.faults source.old) (S.faults source.new) result }
    {
        let count = read_behind(source, &mut self.bytes, self.filled)?;
        self.filled += count;
        Ok(count)
    }
}

// Reads once, behind so many bytes.
fn read_behind<S: Source>(source: &mut S, bytes: &mut [u8], filled: usize) -> Result<usize, Failed>
    requires { filled < length bytes.old }
    ensures kept { take filled bytes.new ≡ take filled bytes.old }
    ensures got { IfOk result (λ n. Consumes (S.left source.old) (S.left source.new) (take n (drop filled bytes.new))) }
    ensures within { IfOk result (λ n. filled + n ≤ length bytes.old) }
    ensures end { IfOk result (λ n. n ≡ 0 → IsAtEnd (S.left source.new)) }
    ensures none { OnErr result (Keeps (S.left source.old) (S.left source.new)) }
    ensures cause { HasCause (S.faults source.old) (S.faults source.new) result }
{
    source.read(&mut bytes[filled..])
}
