//! The lines of a cloud that is served.

ghost use Rattle.std.specs.Prelude.{◌≡◌, [], ◌∷◌, IfOk, codes, decimal, string_bytes};
ghost use Rattle.ports_link.specs.Transcript.Transcript.{ended};
ghost use Rattle.serve_command.specs.Lines.{connection_text, end_word, ready_text};
ghost use Rattle.serve_command.specs.Served.{output_of};
ghost use Rattle.serve_command.specs.Steps.{WritesLine};

use crate::Served;
use crate::stop::ServingStop;
use share_server::{Sink, write_all};
use std::alloc::{AllocError, Global};

// `ready ADDRESS`, with its newline.
fn ready_line(alloc: Global, address: &str) -> Result<String, AllocError>
    ensures { IfOk result (λ line. string_bytes line ≡ ready_text address.now) }
{
    format!(in alloc; "ready {address}\n")
}

// How a connection ended, as a word.
fn word_of(served: Served) -> &'static str
    ensures { result.now ≡ end_word served }
{
    match served {
        Served::End => "end",
        Served::Cut { .. } => "cut",
        Served::BadLength { .. } => "length",
        Served::Spent => "spent",
        Served::Failed => "failed",
    }
}

// The line of a connection that ended with this word.
fn counted_line(alloc: Global, number: u32, word: &str) -> Result<String, AllocError>
    ensures { IfOk result
        (λ line. string_bytes line ≡ ended (codes "connection" ∷ decimal number ∷ word.now ∷ [])) }
{
    format!(in alloc; "connection {number} {word}\n")
}

// `connection NUMBER WORD`, with its newline.
fn connection_line(alloc: Global, number: u32, served: Served) -> Result<String, AllocError>
    ensures { IfOk result (λ line. string_bytes line ≡ connection_text number served) }
{
    counted_line(alloc, number, word_of(served))
}

/// Writes a line. Where the sink fails, a front of it may have been written.
pub fn write_line<K: Sink>(sink: &mut K, line: &[u8]) -> Result<(), ServingStop>
    ensures { WritesLine line.now
        (output_of (K.written sink.old) (K.written sink.new) (K.faults sink.old) (K.faults sink.new)) result }
{
    match write_all(sink, line) {
        Ok(()) => Ok(()),
        Err(_) => Err(ServingStop::SinkFault),
    }
}

/// Writes the line behind which connections to the address are taken.
pub fn write_ready<K: Sink>(alloc: Global, address: &str, sink: &mut K) -> Result<(), ServingStop>
    ensures { WritesLine (ready_text address.now)
        (output_of (K.written sink.old) (K.written sink.new) (K.faults sink.old) (K.faults sink.new)) result }
{
    match ready_line(alloc, address) {
        Ok(line) => write_line(sink, line.as_bytes()),
        Err(AllocError) => Err(ServingStop::NoMemory),
    }
}

/// Writes the line of a connection.
pub fn write_connection<K: Sink>(
    alloc: Global,
    number: u32,
    served: Served,
    sink: &mut K,
) -> Result<(), ServingStop>
    ensures { WritesLine (connection_text number served)
        (output_of (K.written sink.old) (K.written sink.new) (K.faults sink.old) (K.faults sink.new)) result }
{
    match connection_line(alloc, number, served) {
        Ok(line) => write_line(sink, line.as_bytes()),
        Err(AllocError) => Err(ServingStop::NoMemory),
    }
}
