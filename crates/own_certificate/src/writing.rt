//! The own certificate as text.

ghost use Rattle.std.specs.Prelude.{◌≡◌, ◌++◌, IfOk, OnOk, OnErr, length, take};
ghost use Rattle.audit_base.specs.Certificate.Lines.{certificate_text};
ghost use Rattle.own_certificate.specs.Own.{own_by};
ghost use Rattle.own_certificate.specs.Inner.{AreLinesOf};

use crate::lines::OwnLines;
use audit_base::{Bytes, CloudMemory, CloudNo, Heading, NoMemory, Shape, write_line};
use std::alloc::Global;

// Appends all lines. For want of memory a part of them may stand there.
fn write_lines(
    lines: &OwnLines,
    heading: Heading,
    memory: &CloudMemory,
    out: &mut Bytes,
) -> Result<(), NoMemory>
    requires { AreLinesOf lines.now.shares.items lines.now.files.items lines.now.count memory.now }
    ensures ok { OnOk result (out.new ≡ out.old
        ++ certificate_text (own_by heading.shape heading.cloud memory.now)) }
    ensures err { OnErr result (take (length out.old) out.new ≡ out.old) }
{
    for index in 0..lines.count as usize + 2 {
        write_line(&lines.line(heading, memory, index), out)?;
    }
    Ok(())
}

/// Appends the certificate of a cloud that has this memory, and answers how many shares and files it names. For want of
/// memory nothing is appended. Beside the text it takes four bytes for each share and file.
#[tactic(auto, using(crate::proofs::Indexing::own_count))]
pub fn write_own(
    alloc: Global,
    shape: Shape,
    cloud: CloudNo,
    memory: &CloudMemory,
    out: &mut Bytes,
) -> Result<u32, NoMemory>
    ensures count { IfOk result (λ count. count ≡ (own_by shape cloud memory.now).count) }
    ensures ok { OnOk result (out.new ≡ out.old ++ certificate_text (own_by shape cloud memory.now)) }
    ensures err { OnErr result (out.new ≡ out.old) }
{
    let heading = Heading { shape, cloud };
    let lines = OwnLines::of(alloc, memory)?;
    let len = out.len();
    match write_lines(&lines, heading, memory, out) {
        Ok(()) => Ok(lines.count),
        Err(NoMemory) => {
            out.truncate(len);
            Err(NoMemory)
        }
    }
}
