//! A text judged by the own certificate.

ghost use Rattle.std.specs.Prelude.{◌≡◌, ◌≢◌, ◌<◌, ◌≤◌, ◌+◌, ◌^◌, ◌↔◌, ◌++◌, ℕ, List, []};
ghost use Rattle.std.specs.Prelude.{IsTrue, IfOk, IfErr, IfSome, MatchOption, Err};
ghost use Rattle.audit_base.specs.CdBase.ids.Fp.{Fp};
ghost use Rattle.audit_base.specs.Certificate.Lines.{Certificate, certificate_lines, certificate_text};
ghost use Rattle.audit_base.specs.Judged.{JudgedIs};
ghost use Rattle.own_certificate.specs.Own.{own_by};
ghost use Rattle.own_certificate.specs.Inner.{AreLinesOf, PartsAt};

use crate::lines::OwnLines;
use audit_base::{
    Bytes, CheckErr, CloudMemory, CloudNo, Heading, NoMemory, Shape, law_of_certificates,
    read_certificate, write_line,
};
use std::alloc::Global;

// What follows a line in a text that begins with it.
fn behind<'t>(text: &'t [u8], line: &[u8]) -> Option<&'t [u8]>
    ensures { MatchOption result ((more : List ℕ) → text.now ≢ line.now ++ more)
        (λ more. text.now ≡ line.now ++ more.now) }
{
    text.strip_prefix(line)
}

// Whether no byte is left.
fn is_over(rest: &[u8]) -> bool
    ensures { IsTrue result ↔ rest.now ≡ [] }
{
    rest.is_empty()
}

// The first line, counted from 0, with which a text doesn't go on as the own certificate; None where it is the own text.
fn parting(
    alloc: Global,
    lines: &OwnLines,
    heading: Heading,
    memory: &CloudMemory,
    text: &[u8],
) -> Result<Option<usize>, NoMemory>
    requires lines { AreLinesOf lines.now.shares.items lines.now.files.items lines.now.count memory.now }
    requires cloud { heading.cloud.0 < heading.shape.n }
    ensures parts { IfOk result (λ at. MatchOption at
        (text.now ≡ certificate_text (own_by heading.shape heading.cloud memory.now))
        (PartsAt (certificate_lines (own_by heading.shape heading.cloud memory.now)) text.now)) }
    ensures few { IfOk result (λ at. IfSome at (λ index. index ≤ lines.now.count + 2)) }
{
    let mut line = Bytes::new(alloc);
    let mut rest = text;
    for index in 0..lines.count as usize + 2 {
        line.clear();
        write_line(&lines.line(heading, memory, index), &mut line)?;
        match behind(rest, line.as_slice()) {
            Some(more) => rest = more,
            None => return Ok(Some(index)),
        }
    }
    if is_over(rest) {
        Ok(None)
    } else {
        Ok(Some(lines.count as usize + 2))
    }
}

// Whether three numbers are these.
fn are_same(n: u8, k: u8, cloud: u8, of_n: u8, of_k: u8, of_cloud: u8) -> bool
    ensures { IsTrue result ↔ (n ≡ of_n) × (k ≡ of_k) × (cloud ≡ of_cloud) }
{
    if n != of_n {
        return false;
    }
    if k != of_k {
        return false;
    }
    cloud == of_cloud
}

// Whether two headings are of one cloud.
fn is_same(one: Heading, two: Heading) -> bool
    ensures { IsTrue result ↔ one ≡ two }
{
    are_same(
        one.shape.n,
        one.shape.k,
        one.cloud.0,
        two.shape.n,
        two.shape.k,
        two.cloud.0,
    )
}

// Why a text isn't the own certificate, which it leaves at this line, counted from 0.
fn refused(heading: Heading, text: &[u8], index: u64) -> CheckErr
    requires { index + 1 < 2 ^ 64 }
    ensures judged { (own : Certificate) → own.heading ≡ heading
        → PartsAt (certificate_lines own) text.now index → JudgedIs own text.now (Err result) }
    ensures unread { (named found : Fp) → result ≢ CheckErr.Rotten named found }
    ensures uncalled { result ≢ CheckErr.Fault }
{
    law_of_certificates();
    match read_certificate(text) {
        Ok(found) => {
            if is_same(found, heading) {
                CheckErr::Differs { line: index + 1 }
            } else {
                CheckErr::OtherCloud
            }
        }
        Err(wrong) => CheckErr::Malformed {
            line: wrong.line,
            at: wrong.at,
        },
    }
}

/// Judges a text: whether it is a certificate, is this cloud's, and has the lines that the cloud would write now, in this
/// order. It answers how many shares and files it names. It calls no device.
#[tactic(auto, using(crate::proofs::Indexing::own_count))]
pub fn judge(
    alloc: Global,
    shape: Shape,
    cloud: CloudNo,
    memory: &CloudMemory,
    text: &[u8],
) -> Result<u32, CheckErr>
    requires cloud { cloud.0 < shape.n }
    ensures judged { JudgedIs (own_by shape cloud memory.now) text.now result }
    ensures own { text.now ≡ certificate_text (own_by shape cloud memory.now)
        → IfErr result (λ error. error ≡ CheckErr.NoMemory) }
    ensures unread { (named found : Fp) → result ≢ Err (CheckErr.Rotten named found) }
    ensures uncalled { result ≢ Err CheckErr.Fault }
{
    let heading = Heading { shape, cloud };
    let lines = match OwnLines::of(alloc, memory) {
        Ok(lines) => lines,
        Err(NoMemory) => return Err(CheckErr::NoMemory),
    };
    let at = match parting(alloc, &lines, heading, memory, text) {
        Ok(at) => at,
        Err(NoMemory) => return Err(CheckErr::NoMemory),
    };
    match at {
        Some(index) => Err(refused(heading, text, index as u64)),
        None => Ok(lines.count),
    }
}
