//! What is written of a job that is kept, with the status.

ghost use Rattle.std.specs.Prelude.{◌≡◌, ◌++◌, if◌then◌else◌, Ok, Err, OnOk};
ghost use Rattle.upload_spool.specs.CdBase.ids.CloudNo.{CloudNo};
ghost use Rattle.backup_command.specs.Transcript.ending.Ending.TheVariants as endings;
ghost use Rattle.backup_command.specs.Transcript.Endings.{ending_text};
ghost use Rattle.backup_command.specs.Writing.{HasWrittenOrCause, output_of};
ghost use Rattle.spool_command.specs.Writing.{IsWritten, refusal_text, refusal_status};

use crate::interruption::Interruption;
use backup_command::{
    Ending, Line, Refusal, Refused, write_ending, write_hello, write_line, write_text,
};
use std::alloc::Global;
use upload_spool::{Bytes, CloudNo, NoMemory, Sink, SpoolErr};

/// Why a kept job didn't come to its end.
#[derive(Clone, Copy)]
pub enum Unspooled {
    /// An address couldn't be dialled.
    Undialled,
    /// The ports failed in a Hello.
    Unheard,
    /// A reply to Hello isn't as asked: the first such.
    Refused(Refused),
    /// The job couldn't be kept, or what is kept couldn't be opened.
    Unkept(SpoolErr),
    /// It was stopped in a lane, or at its end.
    Interrupted(Interruption),
}

const FOLDER: CloudNo = CloudNo(0);

// The status of a job whose lanes came to their ends.
fn status_of(stored: bool) -> u8
    ensures { result ≡ (if stored then 0 else 8) }
{
    if stored { 0 } else { 8 }
}

// The status with which a spool was refused.
fn status_for(error: &SpoolErr) -> u8
    ensures { result ≡ refusal_status error.now }
{
    match error {
        SpoolErr::NotEmpty { .. } => 7,
        SpoolErr::Fault => 5,
        SpoolErr::Damaged { .. } => 7,
        SpoolErr::OtherStore { .. } => 7,
        SpoolErr::Rotten { .. } => 8,
        SpoolErr::NoMemory => 6,
    }
}

// Appends the line with which a spool was refused. For want of memory nothing changes.
fn put_refusal(error: &SpoolErr, out: &mut Bytes) -> Result<(), NoMemory>
    ensures { OnOk result (out.new ≡ out.old ++ refusal_text error.now) }
{
    match error {
        SpoolErr::NotEmpty { area, len } => {
            let cloud = FOLDER;
            write_ending(
                &Ending::Store {
                    cloud,
                    area: *area,
                    len: *len,
                },
                out,
            )
        }
        SpoolErr::Fault => write_ending(&Ending::Shelf { cloud: FOLDER }, out),
        SpoolErr::Damaged { at, byte } => {
            let cloud = FOLDER;
            write_ending(
                &Ending::Damaged {
                    cloud,
                    at: *at,
                    byte: *byte,
                },
                out,
            )
        }
        SpoolErr::OtherStore { found, .. } => {
            let cloud = FOLDER;
            write_ending(
                &Ending::Other {
                    cloud,
                    format: found.format,
                    n: found.shape.n,
                    k: found.shape.k,
                    own: found.cloud,
                },
                out,
            )
        }
        SpoolErr::Rotten { named, found } => {
            let cloud = FOLDER;
            let why = Refusal::Rotten {
                cloud,
                named: *named,
                found: *found,
            };
            write_line(&Line::Refused { why }, out)
        }
        SpoolErr::NoMemory => Ok(()),
    }
}

// Writes the line with which a spool was refused.
fn write_unkept<K: Sink>(alloc: Global, sink: &mut K, error: &SpoolErr) -> u8
    ensures { HasWrittenOrCause (refusal_text error.now) (refusal_status error.now)
        (output_of (K.written sink.old) (K.written sink.new) (K.faults sink.old) (K.faults sink.new)) result }
{
    let mut line = Bytes::new(alloc);
    match put_refusal(error, &mut line) {
        Ok(()) => write_text(sink, line.as_slice(), status_for(error)),
        Err(NoMemory) => 6,
    }
}

// Writes an ending behind a text.
fn write_behind<K: Sink>(sink: &mut K, text: Bytes, ending: &Ending, due: u8) -> u8
    ensures { HasWrittenOrCause (text ++ ending_text ending.now) due
        (output_of (K.written sink.old) (K.written sink.new) (K.faults sink.old) (K.faults sink.new)) result }
{
    let mut all = text;
    match write_ending(ending, &mut all) {
        Ok(()) => write_text(sink, all.as_slice(), due),
        Err(NoMemory) => 6,
    }
}

// Writes the lines of a job whose lanes came to their ends, or that there is none.
fn write_came<K: Sink>(alloc: Global, sink: &mut K, came: Option<bool>, text: Bytes) -> u8
    ensures { IsWritten (Ok came) text
        (output_of (K.written sink.old) (K.written sink.new) (K.faults sink.old) (K.faults sink.new)) result }
{
    match came {
        Some(stored) => write_text(sink, text.as_slice(), status_of(stored)),
        None => write_behind(sink, Bytes::new(alloc), &Ending::NoSpool, 0),
    }
}

// Writes the lines of a job that was stopped in a lane, or at its end.
fn write_interrupted<K: Sink>(sink: &mut K, why: Interruption, text: Bytes) -> u8
    ensures { IsWritten (Err (Unspooled.Interrupted why)) text
        (output_of (K.written sink.old) (K.written sink.new) (K.faults sink.old) (K.faults sink.new)) result }
{
    match why {
        Interruption::Ports => write_text(sink, text.as_slice(), 9),
        Interruption::Shelf => write_behind(sink, text, &Ending::Shelf { cloud: FOLDER }, 5),
        Interruption::Memory => 6,
    }
}

// Writes why a job didn't come to its end.
fn write_stopped<K: Sink>(alloc: Global, sink: &mut K, why: Unspooled, text: Bytes) -> u8
    ensures { IsWritten (Err why) text
        (output_of (K.written sink.old) (K.written sink.new) (K.faults sink.old) (K.faults sink.new)) result }
{
    match why {
        Unspooled::Undialled => 9,
        Unspooled::Unheard => 9,
        Unspooled::Refused(refused) => write_hello(alloc, sink, &refused),
        Unspooled::Unkept(error) => write_unkept(alloc, sink, &error),
        Unspooled::Interrupted(cause) => write_interrupted(sink, cause, text),
    }
}

/// Writes what came of a job that is kept, with this text of its lines; None is no job.
pub fn write_end<K: Sink>(
    alloc: Global,
    sink: &mut K,
    came: Result<Option<bool>, Unspooled>,
    text: Bytes,
) -> u8
    ensures { IsWritten came text
        (output_of (K.written sink.old) (K.written sink.new) (K.faults sink.old) (K.faults sink.new)) result }
{
    match came {
        Ok(stored) => write_came(alloc, sink, stored, text),
        Err(why) => write_stopped(alloc, sink, why, text),
    }
}
