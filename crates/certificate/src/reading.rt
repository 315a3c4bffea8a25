//! A text read as a certificate.

ghost use Rattle.std.specs.Prelude.{◌≡◌, ◌<◌, ◌+◌, ◌-◌, ℕ, List, ◌∷◌, suc, true, false, length};
ghost use Rattle.std.specs.Prelude.{Ok, Err, IfOk, IfErr, OnOk};
ghost use Rattle.certificate.specs.Lines.{Certificate, FitsCertificate, certificate_text};
ghost use Rattle.certificate.specs.Reading.{certificate_at, certificate_by, line_onto, stage_behind, kind_of};
ghost use Rattle.certificate.specs.Reading.{is_over, may_stand};
ghost use Rattle.certificate.specs.declared.kinds.LineStage.TheVariants.{First, Shares};
ghost use Rattle.certificate.specs.declared.line.CertificateLine.{CertificateLine};
ghost use Rattle.certificate.specs.declared.line.CertificateLine.TheVariants as lines;

use crate::fields::line_of;
use crate::kinds::{LineStage, no_more, stage_after};
use crate::{CertificateLine, Heading};
use session::{Stop, after, before, len_to};

/// Where a text is no certificate.
#[derive(Clone, Copy, PartialEq, Eq)]
pub struct WrongLine {
    /// The first wrong line, counted from 1.
    pub line: u64,
    /// The first wrong place in it, counted from 0; its length where its end is wrong.
    pub at: u64,
}

// The place in a line from which on so many of its bytes are left.
fn wrong_in(number: u64, len: usize, stop: Stop) -> WrongLine
    ensures { (left : ℕ) → stop ≡ Stop.Left left → result ≡ record { line = number; at = len - left } }
{
    let at = match stop {
        Stop::Memory => 0,
        Stop::Left(left) => len.saturating_sub(left),
    };
    WrongLine {
        line: number,
        at: at as u64,
    }
}

// The line of this number, with which the bytes begin, and what stands behind its newline.
fn front_line(
    stage: LineStage,
    number: u64,
    bytes: &[u8],
) -> Result<(CertificateLine, &[u8]), WrongLine>
    requires { is_over stage ≡ false }
    ensures reads { IfOk result (λ x. (turns : ℕ) → certificate_by (suc turns) stage number bytes.now
        ≡ line_onto x.0 (certificate_by turns (stage_behind (kind_of x.0)) (number + 1) x.1.now)) }
    ensures stands { IfOk result (λ x. may_stand stage (kind_of x.0) ≡ true) }
    ensures shorter { IfOk result (λ x. length x.1.now < length bytes.now) }
    ensures wrong { IfErr result (λ wrong. (turns : ℕ)
        → certificate_by (suc turns) stage number bytes.now ≡ Err wrong) }
{
    let end = len_to(bytes, b'\n');
    if end == bytes.len() {
        return Err(WrongLine {
            line: number,
            at: end as u64,
        });
    }
    match line_of(stage, before(bytes, end)) {
        Ok(line) => Ok((line, after(bytes, end + 1))),
        Err(stop) => Err(wrong_in(number, end, stop)),
    }
}

// Reads what stands behind the first line.
fn read_rest(bytes: &[u8]) -> Result<(), WrongLine>
    ensures reads { OnOk result ((turns : ℕ) → length bytes.now < turns
        → (more : List CertificateLine) × (certificate_by turns Shares 2 bytes.now ≡ Ok more)) }
    ensures wrong { IfErr result (λ wrong. (turns : ℕ) → length bytes.now < turns
        → certificate_by turns Shares 2 bytes.now ≡ Err wrong) }
{
    let mut stage = LineStage::Shares;
    let mut number = 2;
    let mut rest = bytes;
    'lines: while !no_more(stage) {
        let (line, more) = match front_line(stage, number, rest) {
            Ok(read) => read,
            Err(wrong) => return Err(wrong),
        };
        stage = stage_after(&line);
        number += 1;
        rest = more;
    }
    if rest.is_empty() {
        Ok(())
    } else {
        Err(WrongLine {
            line: number,
            at: 0,
        })
    }
}

// The heading of a line that may be the first.
fn heading_in(line: CertificateLine) -> Heading
    requires { may_stand First (kind_of line) ≡ true }
    ensures { line ≡ lines.Heading result }
{
    match line {
        CertificateLine::Heading(heading) => heading,
        CertificateLine::Share(_) => unreachable!(),
        CertificateLine::File(_) => unreachable!(),
        CertificateLine::End { count: _ } => unreachable!(),
    }
}

// Reads all lines.
fn read_lines(bytes: &[u8]) -> Result<Heading, WrongLine>
    ensures reads { IfOk result (λ heading. (more : List CertificateLine)
        × (certificate_at bytes.now ≡ Ok (lines.Heading heading ∷ more))) }
    ensures wrong { IfErr result (λ wrong. certificate_at bytes.now ≡ Err wrong) }
{
    let (line, rest) = match front_line(LineStage::First, 1, bytes) {
        Ok(read) => read,
        Err(wrong) => return Err(wrong),
    };
    match read_rest(rest) {
        Ok(()) => Ok(heading_in(line)),
        Err(wrong) => Err(wrong),
    }
}

/// Reads a text as a certificate, to its end, and answers of which cloud it is. Each field is to be in the range of its
/// type, the shape one of 16 clouds at the most, the cloud one of the shape's; the lines needn't rise, nor their number be
/// the one of the last line. An Err is the first wrong line, with its first wrong place: a word at its front, a missing one
/// or a missing newline at the line's end, what stands behind the last line at its front. It takes no memory.
pub fn read_certificate(bytes: &[u8]) -> Result<Heading, WrongLine>
    ensures reads { IfOk result (λ heading. (more : List CertificateLine)
        × (certificate_at bytes.now ≡ Ok (lines.Heading heading ∷ more))) }
    ensures wrong { IfErr result (λ wrong. certificate_at bytes.now ≡ Err wrong) }
    // So the text of a certificate is read, and no other text is.
    ensures text { IfOk result (λ heading. (c : Certificate) × (c.heading ≡ heading) × FitsCertificate c
        × (bytes.now ≡ certificate_text c)) }
    ensures taken { (c : Certificate) → FitsCertificate c → bytes.now ≡ certificate_text c → result ≡ Ok c.heading }
{
    match read_lines(bytes) {
        Ok(heading) => Ok(heading),
        Err(wrong) => Err(wrong),
    }
}
