//! The six lines of a summary.

ghost use Rattle.std.specs.Prelude.{◌≡◌, ◌++◌, IfErr, OnOk, decimal};
ghost use Rattle.std.specs.Io.KnownBytes.{Appends};
ghost use Rattle.replay_core.specs.Going.{EndsSink};
ghost use Rattle.generated_session.specs.Numbers.{number_line, summary_text};

use crate::Numbers;
use lane_steps::{Bytes, NoMemory, Sink, write_all};
use replay_core::ReplayEnd;

// Appends a number. For want of memory a part of it may stand there.
#[tactic(auto, using(std::proofs::lemmas::Fmt::decimal_digit, std::proofs::lemmas::Fmt::decimal_step_wide))]
fn put_digits(number: u128, out: &mut Bytes) -> Result<(), NoMemory>
    ensures { OnOk result (out.new ≡ out.old ++ decimal number) }
{
    if number < 10 {
        return out.push(b'0' + number as u8);
    }
    put_digits(number / 10, out)?;
    out.push(b'0' + (number % 10) as u8)
}

// Appends the line of a number. For want of memory a part of it may stand there.
fn put_line(name: &[u8], number: u128, out: &mut Bytes) -> Result<(), NoMemory>
    ensures { OnOk result (out.new ≡ out.old ++ number_line name.now number) }
{
    out.extend(name)?;
    out.push(b' ')?;
    put_digits(number, out)?;
    out.push(b'\n')
}

/// Appends the summary of so many files. For want of memory a part of it may stand there.
#[tactic(auto, unfolding(crate::specs::Numbers::summary_text))]
pub fn put_summary(files: u32, numbers: &Numbers, out: &mut Bytes) -> Result<(), NoMemory>
    ensures { OnOk result (out.new ≡ out.old ++ summary_text files numbers.now) }
{
    put_line(b"files", files as u128, out)?;
    put_line(b"bytes", numbers.bytes as u128, out)?;
    put_line(b"stored", numbers.stored as u128, out)?;
    put_line(b"sent", numbers.sent, out)?;
    put_line(b"known", numbers.known, out)?;
    put_line(b"equal", numbers.equal as u128, out)
}

/// Writes these bytes. Where the sink fails a front of them was written.
pub fn write_summary<K: Sink>(sink: &mut K, bytes: &[u8]) -> Result<(), ReplayEnd>
    ensures ok { OnOk result (Appends (K.written sink.old) (K.written sink.new) bytes.now) }
    ensures still { OnOk result (K.faults sink.new ≡ K.faults sink.old) }
    ensures end { IfErr result (EndsSink bytes.now (K.written sink.old) (K.written sink.new)
        (K.faults sink.old) (K.faults sink.new)) }
{
    match write_all(sink, bytes) {
        Ok(()) => Ok(()),
        Err(_) => Err(ReplayEnd::SinkFault),
    }
}
