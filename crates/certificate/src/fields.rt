//! What follows the first word of a line.

ghost use Rattle.std.specs.Prelude.{◌≡◌, ◌≢◌, ◌*◌, length, Some, None, IfErr, IsTrue, is_some, false};
ghost use Rattle.session.specs.Grammar.Readers.{Gives};
ghost use Rattle.session.specs.Grammar.Words.{field_at};
ghost use Rattle.session.specs.Grammar.Hexadecimal.{unhex, unhex_digit};
ghost use Rattle.session.specs.Transcript.Reading.{print_in};
ghost use Rattle.certificate.specs.Reading.{heading_line_at, share_line_at, file_line_at, end_line_at};
ghost use Rattle.certificate.specs.Reading.{fields_behind, line_left};

use crate::kinds::{LineKind, LineStage, kind_word};
use crate::{CertificateLine, FileLine, Heading, ShareLine};
use session::{
    Fp, Stop, Tag, UserId, Version, cloud_field, cut_word, literal_field, shape_field, u32_field,
    u64_field,
};

// Whether a byte is a digit in lower case.
fn is_digit(c: u8) -> bool
    ensures { result ≡ is_some (unhex_digit c) }
{
    let digit = c.wrapping_sub(48) < 10;
    let letter = c.wrapping_sub(97) < 6;
    digit | letter
}

// Makes digits the bytes that they spell. True where all of them are digits in lower case. `hex` reads those in upper
// case too, so each byte is looked at first.
fn decode_digits(text: &[u8], out: &mut [u8]) -> bool
    requires { length text.now ≡ 2 * length out.old }
    ensures good { IsTrue result → unhex text.now ≡ Some out.new }
    ensures bad { result ≡ false → unhex text.now ≡ None }
{
    let mut digits = true;
    for i in 0..text.len() {
        digits &= is_digit(text[i]);
    }
    digits && hex::decode_to_slice(text, out).is_ok()
}

#[tactic(auto, unfolding(transcript::specs::Reading::print_in))]
fn print_of(word: &[u8]) -> Option<[u8; 32]>
    ensures { result ≡ print_in word.now }
{
    if word.len() != 64 {
        return None;
    }
    let mut print = [0; 32];
    if decode_digits(word, &mut print) {
        Some(print)
    } else {
        None
    }
}

#[tactic(auto, unfolding(grammar::specs::Words::field_at, grammar::specs::Words::word_at))]
fn print_field(bytes: &[u8]) -> Result<([u8; 32], &[u8]), Stop>
    ensures value { Gives (λ x. (x.0, x.1.now)) result (field_at print_in bytes.now) }
    ensures memory { IfErr result (λ e. e ≢ Stop.Memory) }
{
    match bytes {
        [b' ', bytes @ ..] => {
            let (word, rest) = cut_word(bytes);
            match print_of(word) {
                Some(print) => Ok((print, rest)),
                None => Err(Stop::Left(bytes.len())),
            }
        }
        _ => Err(Stop::Left(bytes.len())),
    }
}

#[tactic(auto, unfolding(crate::specs::Reading::heading_line_at))]
fn heading_of(bytes: &[u8]) -> Result<CertificateLine, Stop>
    ensures value { Gives (λ x. x) result (heading_line_at bytes.now) }
    ensures memory { IfErr result (λ e. e ≢ Stop.Memory) }
{
    let bytes = literal_field(bytes, b"1")?;
    let (shape, bytes) = shape_field(bytes)?;
    let (cloud, bytes) = cloud_field(bytes, shape)?;
    if !bytes.is_empty() {
        return Err(Stop::Left(bytes.len()));
    }
    Ok(CertificateLine::Heading(Heading { shape, cloud }))
}

#[tactic(auto, unfolding(crate::specs::Reading::share_line_at))]
fn share_of(bytes: &[u8]) -> Result<CertificateLine, Stop>
    ensures value { Gives (λ x. x) result (share_line_at bytes.now) }
    ensures memory { IfErr result (λ e. e ≢ Stop.Memory) }
{
    let (fp, bytes) = print_field(bytes)?;
    let (at, bytes) = u64_field(bytes, 0, u64::MAX)?;
    let (len, bytes) = u32_field(bytes, 0, u32::MAX)?;
    if !bytes.is_empty() {
        return Err(Stop::Left(bytes.len()));
    }
    let fp = Fp(fp);
    Ok(CertificateLine::Share(ShareLine { fp, at, len }))
}

#[tactic(auto, unfolding(crate::specs::Reading::file_line_at))]
fn file_of(bytes: &[u8]) -> Result<CertificateLine, Stop>
    ensures value { Gives (λ x. x) result (file_line_at bytes.now) }
    ensures memory { IfErr result (λ e. e ≢ Stop.Memory) }
{
    let (user, bytes) = u32_field(bytes, 0, u32::MAX)?;
    let (tag, bytes) = print_field(bytes)?;
    let (version, bytes) = u64_field(bytes, 0, u64::MAX)?;
    let (at, bytes) = u64_field(bytes, 0, u64::MAX)?;
    let (len, bytes) = u32_field(bytes, 0, u32::MAX)?;
    let (fp, bytes) = print_field(bytes)?;
    if !bytes.is_empty() {
        return Err(Stop::Left(bytes.len()));
    }
    Ok(CertificateLine::File(FileLine {
        user: UserId(user),
        tag: Tag(tag),
        version: Version(version),
        at,
        len,
        fp: Fp(fp),
    }))
}

#[tactic(auto, unfolding(crate::specs::Reading::end_line_at))]
fn end_of(bytes: &[u8]) -> Result<CertificateLine, Stop>
    ensures value { Gives (λ x. x) result (end_line_at bytes.now) }
    ensures memory { IfErr result (λ e. e ≢ Stop.Memory) }
{
    let (count, bytes) = u32_field(bytes, 0, u32::MAX)?;
    if !bytes.is_empty() {
        return Err(Stop::Left(bytes.len()));
    }
    Ok(CertificateLine::End { count })
}

fn fields_of(kind: LineKind, bytes: &[u8]) -> Result<CertificateLine, Stop>
    ensures value { Gives (λ x. x) result (fields_behind kind bytes.now) }
    ensures memory { IfErr result (λ e. e ≢ Stop.Memory) }
{
    match kind {
        LineKind::Heading => heading_of(bytes),
        LineKind::Share => share_of(bytes),
        LineKind::File => file_of(bytes),
        LineKind::End => end_of(bytes),
    }
}

/// What a line without its newline says where it stands. It takes no memory, and want of it is no answer.
#[tactic(auto, unfolding(crate::specs::Reading::line_left))]
pub fn line_of(stage: LineStage, line: &[u8]) -> Result<CertificateLine, Stop>
    ensures value { Gives (λ x. x) result (line_left stage line.now) }
    ensures memory { IfErr result (λ e. e ≢ Stop.Memory) }
{
    let (kind, bytes) = kind_word(stage, line)?;
    fields_of(kind, bytes)
}
