//! A certificate from a source.

ghost use Rattle.std.specs.Prelude.{◌≡◌, ◌≤◌, ◌+◌, ◌++◌, length};
ghost use Rattle.command_cloud.specs.BackupCommand.Reading.{input_of};
ghost use Rattle.audit_command.specs.Source.{ReadsCertificate, certificate_limit, mark_behind};

use crate::marks::mark_after;
use command_cloud::{Failed, Source};
use grammar::{Bytes, NoMemory};
use std::alloc::Global;

/// Why no certificate was read.
#[derive(Clone, Copy)]
pub enum CertificateReadErr {
    /// The source failed.
    Failed,
    /// There are more bytes than a certificate may have: the first byte too many, with its line, from 1, and its place in it.
    TooLong { line: u64, at: u64, byte: u8 },
    /// Memory ran out.
    NoMemory,
}

/// How many bytes a certificate may have.
pub const CERTIFICATE_LIMIT: usize = 134_217_728;

// How many bytes are read at a time.
const PIECE: usize = 65_536;

// The line and the place behind a text and more of it.
fn mark_of(text: &[u8], more: &[u8]) -> (u64, u64)
    requires { length text.now + length more.now ≤ certificate_limit }
    ensures { result ≡ mark_behind (1, 0) (text.now ++ more.now) }
{
    let mark = mark_after(1, 0, text);
    mark_after(mark.0, mark.1, more)
}

/// Reads a source to its end. `TooLong` comes exactly where it has more bytes than a certificate may have; it isn't read on then.
pub fn read_text<S: Source>(alloc: Global, source: &mut S) -> Result<Bytes, CertificateReadErr>
    ensures reads { ReadsCertificate (input_of (S.left source.old) (S.faults source.old) (S.faults source.new)) result }
{
    let mut text = Bytes::new(alloc);
    let mut piece = [0; PIECE];
    'pieces: loop {
        let count = match source.read(&mut piece) {
            Ok(count) => count,
            Err(Failed) => return Err(CertificateReadErr::Failed),
        };
        if count == 0 {
            return Ok(text);
        }
        let room = CERTIFICATE_LIMIT - text.len();
        if room < count {
            let (line, at) = mark_of(text.as_slice(), &piece[..room]);
            let byte = piece[room];
            return Err(CertificateReadErr::TooLong { line, at, byte });
        }
        match text.extend(&piece[..count]) {
            Ok(()) => {}
            Err(NoMemory) => return Err(CertificateReadErr::NoMemory),
        }
    }
}
