//! What is written, with the status.

ghost use Rattle.std.specs.Prelude.{◌≡◌, ◌++◌, OnOk};
ghost use Rattle.command_cloud.specs.BackupCommand.Writing.{HasWrittenOrCause, output_of};
ghost use Rattle.reclaim_command.specs.Said.{reclaim_status, reclaim_text, reclaimed_text, rotten_text};

use command_cloud::Word::Number;
use command_cloud::{Ending, Line, Refusal, put_first, write_ending, write_line, write_text};
use reclaim::{Bytes, CloudNo, Fp, NoMemory, ReclaimErr, Reclaimed, Sink};
use std::alloc::Global;

// Appends the line of what was given back. For want of memory a part of it may stand there.
#[tactic(auto, using(transcript::proofs::Joined::joined))]
fn put_sum(cloud: CloudNo, sum: Reclaimed, out: &mut Bytes) -> Result<(), NoMemory>
    ensures { OnOk result (out.new ≡ out.old ++ reclaimed_text cloud sum) }
{
    put_first(
        b"reclaimed",
        &[
            Number(cloud.0 as u64),
            Number(sum.shares),
            Number(sum.recipes),
            Number(sum.dropped as u64),
        ],
        out,
    )?;
    out.push(b'\n')
}

// Appends the line of a blob that is rotten. For want of memory nothing changes.
fn put_rotten(cloud: CloudNo, named: Fp, found: Fp, out: &mut Bytes) -> Result<(), NoMemory>
    ensures { OnOk result (out.new ≡ out.old ++ rotten_text cloud named found) }
{
    let why = Refusal::Rotten {
        cloud,
        named,
        found,
    };
    write_line(&Line::Refused { why }, out)
}

// The status of a reclaim.
fn status_of(came: Result<Reclaimed, ReclaimErr>) -> u8
    ensures { result ≡ reclaim_status came }
{
    match came {
        Ok(_) => 0,
        Err(ReclaimErr::Fault) => 5,
        Err(ReclaimErr::NoMemory) => 6,
        Err(ReclaimErr::Rotten { .. }) => 8,
    }
}

// Appends the line of what came of a reclaim.
fn put_came(
    cloud: CloudNo,
    came: Result<Reclaimed, ReclaimErr>,
    out: &mut Bytes,
) -> Result<(), NoMemory>
    ensures { OnOk result (out.new ≡ out.old ++ reclaim_text cloud came) }
{
    match came {
        Ok(sum) => put_sum(cloud, sum, out),
        Err(ReclaimErr::Fault) => write_ending(&Ending::Shelf { cloud }, out),
        Err(ReclaimErr::NoMemory) => Ok(()),
        Err(ReclaimErr::Rotten { named, found }) => put_rotten(cloud, named, found, out),
    }
}

/// Writes what came of a reclaim, and answers the status.
pub fn write_reclaimed<K: Sink>(
    alloc: Global,
    sink: &mut K,
    cloud: CloudNo,
    came: Result<Reclaimed, ReclaimErr>,
) -> u8
    ensures { HasWrittenOrCause (reclaim_text cloud came) (reclaim_status came)
        (output_of (K.written sink.old) (K.written sink.new) (K.faults sink.old) (K.faults sink.new)) result }
{
    let mut line = Bytes::new(alloc);
    match put_came(cloud, came, &mut line) {
        Ok(()) => write_text(sink, line.as_slice(), status_of(came)),
        Err(NoMemory) => 6,
    }
}
