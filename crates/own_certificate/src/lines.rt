//! The lines of the own certificate, one by one.

ghost use Rattle.std.specs.Prelude.{◌≡◌, ◌<◌, ◌+◌, ◌^◌, All, IfOk, Some, length, slice_get};
ghost use Rattle.audit_base.specs.Certificate.Lines.{certificate_lines, FitsLine, FitsShareLine, FitsFileLine};
ghost use Rattle.audit_base.specs.Own.{share_line, file_line};
ghost use Rattle.own_certificate.specs.Own.{own_by};
ghost use Rattle.own_certificate.specs.Inner.{AreLinesOf, share_at, file_at};

use crate::slots::{file_in, files_in_order, share_in, shares_in_order};
use audit_base::{
    CertificateLine, CloudMemory, FileLine, Fp, Heading, NoMemory, ShareLine, Tag, UserId, Version,
};
use std::alloc::Global;

// The lines of a cloud's own certificate but its heading: the slots of its shares and of its entries, each in the order of
// the lines, and how many these are.
#[derive(Drop)]
pub(crate) struct OwnLines {
    pub(crate) shares: Vec<u32>,
    pub(crate) files: Vec<u32>,
    pub(crate) count: u32,
}

// How many lines there are but the first and the last; none where a line can't say it.
fn count_of(shares: &[u32], files: &[u32]) -> Result<u32, NoMemory>
    ensures count { IfOk result (λ count. count ≡ length shares.now + length files.now) }
    ensures few { IfOk result (λ count. count < 2 ^ 32) }
{
    match u32::try_from(shares.len() + files.len()) {
        Ok(count) => Ok(count),
        Err(_) => Err(NoMemory),
    }
}

// Bytes are below 256.
fn are_bytes(bytes: &[u8])
    ensures { All (λ byte. byte < 256) bytes.now }
{}

// A share's line.
fn share_of(print: [u8; 32], at: u64, len: u32) -> ShareLine
    ensures line { result ≡ record { fp = record { 0 = print }; at = at; len = len } }
    ensures fits { FitsShareLine result }
{
    are_bytes(&print);
    ShareLine {
        fp: Fp(print),
        at,
        len,
    }
}

// An entry's line.
fn file_of(user: u32, tag: [u8; 32], version: u64, at: u64, len: u32, print: [u8; 32]) -> FileLine
    ensures line { result ≡ record {
      user = record { 0 = user };
      tag = record { 0 = tag };
      version = record { 0 = version };
      at = at;
      len = len;
      fp = record { 0 = print };
    } }
    ensures fits { FitsFileLine result }
{
    are_bytes(&tag);
    are_bytes(&print);
    FileLine {
        user: UserId(user),
        tag: Tag(tag),
        version: Version(version),
        at,
        len,
        fp: Fp(print),
    }
}

// The line of the share in a slot.
fn share_line(memory: &CloudMemory, slot: u32) -> ShareLine
    ensures line { result ≡ share_line (share_at memory.now.shares slot) }
    ensures fits { FitsShareLine result }
{
    let (fp, place) = share_in(memory, slot);
    share_of(fp.0, place.at, place.len)
}

// The line of the entry in a slot.
fn file_line(memory: &CloudMemory, slot: u32) -> FileLine
    ensures line { result ≡ file_line (file_at memory.now.files slot) }
    ensures fits { FitsFileLine result }
{
    let (key, entry) = file_in(memory, slot);
    file_of(
        key.user,
        key.tag,
        key.version,
        entry.at,
        entry.len,
        entry.fp.0,
    )
}

// A line of the own certificate, counted from 0.
fn line_at(
    heading: Heading,
    memory: &CloudMemory,
    shares: &[u32],
    files: &[u32],
    count: u32,
    index: usize,
) -> CertificateLine
    ensures line { AreLinesOf shares.now files.now count memory.now → index < count + 2
        → slice_get (certificate_lines (own_by heading.shape heading.cloud memory.now)) index ≡ Some result }
    ensures fits { AreLinesOf shares.now files.now count memory.now → heading.cloud.0 < heading.shape.n
        → FitsLine result }
{
    if index == 0 {
        return CertificateLine::Heading(heading);
    }
    let share = index - 1;
    if share < shares.len() {
        return CertificateLine::Share(share_line(memory, shares[share]));
    }
    let file = share - shares.len();
    if file < files.len() {
        return CertificateLine::File(file_line(memory, files[file]));
    }
    CertificateLine::End { count }
}

impl OwnLines {
    // The lines of a memory.
    pub(crate) fn of(alloc: Global, memory: &CloudMemory) -> Result<OwnLines, NoMemory>
        ensures { IfOk result (λ lines. AreLinesOf lines.shares.items lines.files.items lines.count memory.now) }
    {
        let shares = shares_in_order(alloc, memory)?;
        let files = files_in_order(alloc, memory)?;
        let count = count_of(&shares, &files)?;
        Ok(OwnLines {
            shares,
            files,
            count,
        })
    }

    // A line of the cloud with this heading, counted from 0.
    pub(crate) fn line(
        &self,
        heading: Heading,
        memory: &CloudMemory,
        index: usize,
    ) -> CertificateLine
        ensures line { AreLinesOf self.now.shares.items self.now.files.items self.now.count memory.now
            → index < self.now.count + 2 → slice_get (certificate_lines
            (own_by heading.shape heading.cloud memory.now)) index ≡ Some result }
        ensures fits { AreLinesOf self.now.shares.items self.now.files.items self.now.count memory.now
            → heading.cloud.0 < heading.shape.n → FitsLine result }
    {
        let shares = self.shares.as_slice();
        let files = self.files.as_slice();
        line_at(heading, memory, shares, files, self.count, index)
    }
}
