//! A certificate's lines, written.

ghost use Rattle.std.specs.Prelude.{◌≡◌, ◌++◌, length, take, OnOk, OnErr};
ghost use Rattle.session.specs.Transcript.Words.{spaced};
ghost use Rattle.certificate.specs.Lines.{certificate_words, certificate_line};

use crate::CertificateLine;
use session::Word::{Number, Print};
use session::{Bytes, NoMemory, put_first};

// Appends a line without its newline. For want of memory a part of it may stand there.
fn put_line(line: &CertificateLine, out: &mut Bytes) -> Result<(), NoMemory>
    ensures ok { OnOk result (out.new ≡ out.old ++ spaced (certificate_words line.now)) }
    ensures err { OnErr result (take (length out.old) out.new ≡ out.old) }
{
    match line {
        CertificateLine::Heading(h) => put_first(
            b"audit",
            &[
                Number(1),
                Number(h.shape.n() as u64),
                Number(h.shape.k() as u64),
                Number(h.cloud.0 as u64),
            ],
            out,
        ),
        CertificateLine::Share(s) => put_first(
            b"share",
            &[Print(s.fp.0), Number(s.at), Number(s.len as u64)],
            out,
        ),
        CertificateLine::File(f) => put_first(
            b"file",
            &[
                Number(f.user.0 as u64),
                Print(f.tag.0),
                Number(f.version.0),
                Number(f.at),
                Number(f.len as u64),
                Print(f.fp.0),
            ],
            out,
        ),
        CertificateLine::End { count } => put_first(b"end", &[Number(*count as u64)], out),
    }
}

// Appends a line with its newline. For want of memory a part of it may stand there.
#[tactic(auto, using(transcript::proofs::Joined::joined), unfolding(crate::specs::Lines::certificate_line))]
fn put_ended(line: &CertificateLine, out: &mut Bytes) -> Result<(), NoMemory>
    ensures ok { OnOk result (out.new ≡ out.old ++ certificate_line line.now) }
    ensures err { OnErr result (take (length out.old) out.new ≡ out.old) }
{
    put_line(line, out)?;
    out.push(b'\n')
}

/// Appends a line with its newline. For want of memory nothing changes.
pub fn write_line(line: &CertificateLine, out: &mut Bytes) -> Result<(), NoMemory>
    ensures ok { OnOk result (out.new ≡ out.old ++ certificate_line line.now) }
    ensures err { OnErr result (out.new ≡ out.old) }
{
    let len = out.len();
    let done = put_ended(line, out);
    if done.is_err() {
        out.truncate(len);
    }
    done
}
