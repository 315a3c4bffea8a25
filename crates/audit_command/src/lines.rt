//! What is written, with the status.

ghost use Rattle.std.specs.Prelude.{◌≡◌, ◌++◌, [], Err, OnOk};
ghost use Rattle.command_cloud.specs.BackupCommand.Writing.{HasWrittenOrCause, output_of};
ghost use Rattle.audit_command.specs.Said.{audit_status, audit_text, check_status, check_text, differs_text};
ghost use Rattle.audit_command.specs.Said.{other_text, rotten_text, whole_text};
ghost use Rattle.audit_command.specs.Steps.{SaysUnread};

use crate::marks::byte_at;
use crate::reading::CertificateReadErr;
use audit::{AuditErr, CheckErr};
use command_cloud::Word::Number;
use command_cloud::{
    Ending, Line, Refusal, Sink, put_first, write_ending, write_last, write_line, write_text,
};
use grammar::{Bytes, CloudNo, Fp, NoMemory};
use std::alloc::Global;

/// Writes why no certificate was read, and answers the status.
pub fn write_unread<K: Sink>(alloc: Global, sink: &mut K, why: CertificateReadErr) -> u8
    ensures { SaysUnread why
        (output_of (K.written sink.old) (K.written sink.new) (K.faults sink.old) (K.faults sink.new)) result }
{
    match why {
        CertificateReadErr::Failed => 3,
        CertificateReadErr::TooLong { line, at, byte } => {
            let found = Some(byte);
            write_last(alloc, sink, &Ending::Script { line, at, found }, 2)
        }
        CertificateReadErr::NoMemory => 6,
    }
}

// ---- lines

// Appends the line of a blob that isn't there. For want of memory nothing changes.
fn put_rotten(cloud: CloudNo, named: Fp, found: Fp, out: &mut Bytes) -> Result<(), NoMemory>
    ensures { OnOk result (out.new ≡ out.old ++ rotten_text cloud named found) }
{
    let why = Refusal::Rotten {
        cloud,
        named,
        found,
    };
    write_line(&Line::Refused { why }, out)
}

// Appends the line of a cloud that is whole. For want of memory a part of it may stand there.
#[tactic(auto, using(transcript::proofs::Joined::joined))]
fn put_whole(cloud: CloudNo, count: u32, out: &mut Bytes) -> Result<(), NoMemory>
    ensures { OnOk result (out.new ≡ out.old ++ whole_text cloud count) }
{
    put_first(
        b"whole",
        &[Number(cloud.0 as u64), Number(count as u64)],
        out,
    )?;
    out.push(b'\n')
}

// Appends the line of a certificate that is another cloud's. For want of memory a part of it may stand there.
#[tactic(auto, using(transcript::proofs::Joined::joined))]
fn put_other(out: &mut Bytes) -> Result<(), NoMemory>
    ensures { OnOk result (out.new ≡ out.old ++ other_text) }
{
    put_first(b"refused othercloud", &[], out)?;
    out.push(b'\n')
}

// Appends the line of a certificate that differs. For want of memory a part of it may stand there.
#[tactic(auto, using(transcript::proofs::Joined::joined))]
fn put_differs(line: u64, out: &mut Bytes) -> Result<(), NoMemory>
    ensures { OnOk result (out.new ≡ out.old ++ differs_text line) }
{
    put_first(b"refused differs", &[Number(line)], out)?;
    out.push(b'\n')
}

// ---- an audit

// The status of an audit.
fn status_of_audit(came: Result<u32, AuditErr>) -> u8
    ensures { result ≡ audit_status came }
{
    match came {
        Ok(_) => 0,
        Err(AuditErr::Fault) => 5,
        Err(AuditErr::NoMemory) => 6,
        Err(AuditErr::Rotten { .. }) => 8,
    }
}

// Appends what is due behind no certificate.
fn put_unaudited(cloud: CloudNo, error: AuditErr, out: &mut Bytes) -> Result<(), NoMemory>
    ensures { OnOk result (out.new ≡ out.old ++ audit_text cloud [] (Err error)) }
{
    match error {
        AuditErr::Fault => write_ending(&Ending::Shelf { cloud }, out),
        AuditErr::NoMemory => Ok(()),
        AuditErr::Rotten { named, found } => put_rotten(cloud, named, found, out),
    }
}

/// Writes what came of an audit, whose certificate stands in the text, and answers the status.
pub fn write_audited<K: Sink>(
    alloc: Global,
    sink: &mut K,
    cloud: CloudNo,
    text: &[u8],
    came: Result<u32, AuditErr>,
) -> u8
    ensures { HasWrittenOrCause (audit_text cloud text.now came) (audit_status came)
        (output_of (K.written sink.old) (K.written sink.new) (K.faults sink.old) (K.faults sink.new)) result }
{
    match came {
        Ok(_) => write_text(sink, text, 0),
        Err(error) => {
            let mut line = Bytes::new(alloc);
            match put_unaudited(cloud, error, &mut line) {
                Ok(()) => write_text(sink, line.as_slice(), status_of_audit(Err(error))),
                Err(NoMemory) => 6,
            }
        }
    }
}

// ---- a check

// The status of a check.
fn status_of_check(came: Result<u32, CheckErr>) -> u8
    ensures { result ≡ check_status came }
{
    match came {
        Ok(_) => 0,
        Err(CheckErr::Malformed { .. }) => 2,
        Err(CheckErr::Fault) => 5,
        Err(CheckErr::NoMemory) => 6,
        Err(CheckErr::OtherCloud) => 8,
        Err(CheckErr::Differs { .. }) => 8,
        Err(CheckErr::Rotten { .. }) => 8,
    }
}

// Appends the line of what came of a check of this text.
fn put_checked(
    cloud: CloudNo,
    text: &[u8],
    came: Result<u32, CheckErr>,
    out: &mut Bytes,
) -> Result<(), NoMemory>
    ensures { OnOk result (out.new ≡ out.old ++ check_text cloud text.now came) }
{
    match came {
        Ok(count) => put_whole(cloud, count, out),
        Err(CheckErr::Malformed { line, at }) => {
            let found = byte_at(text, line, at);
            write_ending(&Ending::Script { line, at, found }, out)
        }
        Err(CheckErr::Fault) => write_ending(&Ending::Shelf { cloud }, out),
        Err(CheckErr::NoMemory) => Ok(()),
        Err(CheckErr::OtherCloud) => put_other(out),
        Err(CheckErr::Differs { line }) => put_differs(line, out),
        Err(CheckErr::Rotten { named, found }) => put_rotten(cloud, named, found, out),
    }
}

/// Writes what came of a check of this text, and answers the status.
pub fn write_checked<K: Sink>(
    alloc: Global,
    sink: &mut K,
    cloud: CloudNo,
    text: &[u8],
    came: Result<u32, CheckErr>,
) -> u8
    ensures { HasWrittenOrCause (check_text cloud text.now came) (check_status came)
        (output_of (K.written sink.old) (K.written sink.new) (K.faults sink.old) (K.faults sink.new)) result }
{
    let mut line = Bytes::new(alloc);
    match put_checked(cloud, text, came, &mut line) {
        Ok(()) => write_text(sink, line.as_slice(), status_of_check(came)),
        Err(NoMemory) => 6,
    }
}
