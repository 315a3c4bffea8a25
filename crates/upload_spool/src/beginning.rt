//! The beginning of a spool.

ghost use Rattle.std.specs.Prelude.{◌≡◌, ◌≢◌, ◌⊎◌, ℕ, ◌+◌, ◌<◌, ◌≤◌, List, [], ◌∷◌, ◌++◌, length, None, IsTrue, IfOk, OnOk, OnErr};
ghost use Rattle.sha2.specs.Sha256.{sha256 as sha256_of};
ghost use Rattle.grammar.specs.CdBase.Limits.{IsPath, file_limit, path_limit};
ghost use Rattle.commit_journal.specs.CdEdges.area.Area.{Area};
ghost use Rattle.commit_journal.specs.CdEdges.Disk.{Cloud, reads};
ghost use Rattle.commit_journal.specs.CdEdges.Shelf.{IsCall, HasFailed, KeepsCounts, Stays};
ghost use Rattle.commit_journal.specs.JournalStart.start.Header.{Header};
ghost use Rattle.commit_journal.specs.JournalStart.Ranges.{IsHeader};
ghost use Rattle.commit_journal.specs.JournalHalves.Beginnings.{IsUnbegun};
ghost use Rattle.commit_journal.specs.declared.journal.Stage.{Stage};
ghost use Rattle.commit_journal.specs.States as half;
ghost use Rattle.upload_spool.specs.Spools.{spool_header, job_fields};
ghost use Rattle.upload_spool.specs.States.{state_of, chosen, first_filled, IsWrittenSoFar, IsJournalKept, IsNewSpool, IsNewRead, spool_error, KeepsJournalSince, HasWrittenFile, AllButAreaStay, LeavesNone, HasNewSpool, IsSpoolOkOrFault, KeepsNewJob, HasNewJob, IsDraft, BeginsIs, LeavesJob, HasBegunSpool, IsBegunSpool, OnSpoolFault};

use crate::spool::{SPOOL_CLOUD, SPOOL_LIMIT};
use crate::{Spool, SpoolErr};
use commit_journal::{
    Area, Failed, Header, Journal, OpenErr, PIECE, RecordErr, Shelf, UserRooms, write_synced,
};
use grammar::{Bytes, Fp, NoMemory, Shape, UserId, Version, sha256};
use std::alloc::Global;

// The first of three lengths that isn't 0.
fn choose(journal: u64, shares: u64, recipes: u64) -> Option<(Area, u64)>
    ensures { result ≡ chosen journal shares recipes }
{
    if journal != 0 {
        Some((Area::Journal, journal))
    } else if shares != 0 {
        Some((Area::Shares, shares))
    } else if recipes != 0 {
        Some((Area::Recipes, recipes))
    } else {
        None
    }
}

// The first area that isn't empty, and how many bytes it has.
fn find_filled<V: Shelf>(shelf: &mut V) -> Result<Option<(Area, u64)>, Failed>
    ensures filled { IsTrue (V.cloud_at shelf.old 0).told
        → IfOk result (λ filled. filled ≡ first_filled (reads (V.cloud_at shelf.old 0).now)) }
    ensures stays { Stays (V.cloud_at shelf.old 0) (V.cloud_at shelf.new 0) }
    ensures call { IsCall (V.cloud_at shelf.old) (V.cloud_at shelf.new) 0 (V.faults shelf.old) (V.faults shelf.new) }
    ensures failed { OnErr result
        (HasFailed (V.cloud_at shelf.old 0) (V.cloud_at shelf.new 0) (V.faults shelf.old) (V.faults shelf.new)) }
    ensures uncounted { OnOk result
        (KeepsCounts (V.cloud_at shelf.old 0) (V.cloud_at shelf.new 0) (V.faults shelf.old) (V.faults shelf.new)) }
{
    let journal = shelf.len(SPOOL_CLOUD, Area::Journal)?;
    let shares = shelf.len(SPOOL_CLOUD, Area::Shares)?;
    let recipes = shelf.len(SPOOL_CLOUD, Area::Recipes)?;
    Ok(choose(journal, shares, recipes))
}

// Writes the file's next piece and syncs it. The result is the place behind it.
fn write_piece<V: Shelf>(shelf: &mut V, bytes: &[u8], at: usize) -> Result<usize, Failed>
    requires { at < length bytes.now }
    ensures further { IfOk result (λ end. at < end) }
    ensures within { IfOk result (λ end. end ≤ length bytes.now) }
    ensures along { IsTrue (V.cloud_at shelf.old 0).told → (start : Cloud)
        → IsWrittenSoFar start (V.cloud_at shelf.old 0) at bytes.now
        → IfOk result (λ end. IsWrittenSoFar start (V.cloud_at shelf.new 0) end bytes.now) }
    ensures any_moment { IsTrue (V.cloud_at shelf.old 0).told → (start : Cloud)
        → IsWrittenSoFar start (V.cloud_at shelf.old 0) at bytes.now → IsJournalKept start (V.cloud_at shelf.new 0) }
    ensures call { IsCall (V.cloud_at shelf.old) (V.cloud_at shelf.new) 0 (V.faults shelf.old) (V.faults shelf.new) }
    ensures failed { OnErr result
        (HasFailed (V.cloud_at shelf.old 0) (V.cloud_at shelf.new 0) (V.faults shelf.old) (V.faults shelf.new)) }
    ensures uncounted { OnOk result
        (KeepsCounts (V.cloud_at shelf.old 0) (V.cloud_at shelf.new 0) (V.faults shelf.old) (V.faults shelf.new)) }
{
    let (_, rest) = bytes.split_at(at);
    let count = rest.len().min(PIECE);
    let (piece, _) = rest.split_at(count);
    write_synced(shelf, SPOOL_CLOUD, Area::Shares, at as u64, piece)?;
    Ok(at + count)
}

// Writes the file into Shares from place 0 on, in pieces of 4 MiB, each with a sync.
fn write_file<V: Shelf>(shelf: &mut V, bytes: &[u8]) -> Result<(), Failed>
    ensures any_moment { KeepsJournalSince (V.cloud_at shelf.old 0) (V.cloud_at shelf.new 0) }
    ensures written { HasWrittenFile bytes.now (V.cloud_at shelf.old 0) (V.cloud_at shelf.new 0) result }
    ensures others { AllButAreaStay Area.Shares (V.cloud_at shelf.old 0) (V.cloud_at shelf.new 0) result }
    ensures call { IsCall (V.cloud_at shelf.old) (V.cloud_at shelf.new) 0 (V.faults shelf.old) (V.faults shelf.new) }
    ensures failed { OnErr result
        (HasFailed (V.cloud_at shelf.old 0) (V.cloud_at shelf.new 0) (V.faults shelf.old) (V.faults shelf.new)) }
    ensures uncounted { OnOk result
        (KeepsCounts (V.cloud_at shelf.old 0) (V.cloud_at shelf.new 0) (V.faults shelf.old) (V.faults shelf.new)) }
{
    let mut at = 0;
    while at < bytes.len() {
        at = write_piece(shelf, bytes, at)?;
    }
    Ok(())
}

// Why a journal wasn't opened, as a spool says it. A journal that is to be begun where it isn't is never without one.
fn opening_error(error: OpenErr) -> SpoolErr
    ensures { result ≡ spool_error error }
{
    match error {
        OpenErr::Fault => SpoolErr::Fault,
        OpenErr::NotBegun { len } => SpoolErr::Damaged { at: len, byte: 0 },
        OpenErr::Damaged { at, byte } => SpoolErr::Damaged { at, byte },
        OpenErr::OtherStore { found, asked, .. } => SpoolErr::OtherStore { found, asked },
    }
}

// Goes to the gate behind the start of a journal that has no record.
fn read_to_end<V: Shelf>(journal: &mut Journal, shelf: &mut V) -> Result<(), SpoolErr>
    requires { (half.state_of journal.old).stage ≡ Stage.Reading }
    ensures ended { IsTrue (V.cloud_at shelf.old 0).told → (header : Header)
        → IsNewRead (half.state_of journal.old) header (V.cloud_at shelf.old 0)
        → IsSpoolOkOrFault result
        × OnOk result (IsNewSpool (half.state_of journal.new) header (V.cloud_at shelf.new 0)) }
    ensures stage { OnOk result ((half.state_of journal.new).stage ≡ Stage.AtEnd) }
    ensures gate { OnOk result ((half.state_of journal.new).current.gate ≡ (half.state_of journal.old).current.gate) }
    ensures limit { (half.state_of journal.new).limit ≡ (half.state_of journal.old).limit }
    ensures stays { Stays (V.cloud_at shelf.old 0) (V.cloud_at shelf.new 0) }
    ensures call { IsCall (V.cloud_at shelf.old) (V.cloud_at shelf.new) 0 (V.faults shelf.old) (V.faults shelf.new) }
    ensures counts { OnSpoolFault result
        (HasFailed (V.cloud_at shelf.old 0) (V.cloud_at shelf.new 0) (V.faults shelf.old) (V.faults shelf.new))
        (KeepsCounts (V.cloud_at shelf.old 0) (V.cloud_at shelf.new 0) (V.faults shelf.old) (V.faults shelf.new)) }
{
    match journal.next(shelf, SPOOL_CLOUD) {
        Ok(false) => Ok(()),
        Ok(true) => Err(SpoolErr::Damaged {
            at: journal.body_at(),
            byte: 1,
        }),
        Err(RecordErr::Failed) => Err(SpoolErr::Fault),
        Err(RecordErr::Damaged { at, byte }) => Err(SpoolErr::Damaged { at, byte }),
    }
}

// Begins the journal, in which no half is begun, with this header and no record.
fn begin_journal<V: Shelf>(
    journal: &mut Journal,
    shelf: &mut V,
    header: &Header,
) -> Result<(), SpoolErr>
    requires { IsHeader header.now }
    ensures any_moment { LeavesNone (V.cloud_at shelf.old 0) (V.cloud_at shelf.new 0) }
    ensures begun { HasNewSpool (half.state_of journal.new) header.now
        (V.cloud_at shelf.old 0) (V.cloud_at shelf.new 0) result }
    ensures answers { IsTrue (V.cloud_at shelf.old 0).told
        → IsUnbegun ((V.cloud_at shelf.old 0).now Area.Journal).read → IsSpoolOkOrFault result }
    ensures others { AllButAreaStay Area.Journal (V.cloud_at shelf.old 0) (V.cloud_at shelf.new 0) result }
    ensures stage { OnOk result ((half.state_of journal.new).stage ≡ Stage.AtEnd) }
    ensures gate { OnOk result ((half.state_of journal.new).current.gate ≤ 62) }
    ensures limit { (half.state_of journal.new).limit ≡ (half.state_of journal.old).limit }
    ensures call { IsCall (V.cloud_at shelf.old) (V.cloud_at shelf.new) 0 (V.faults shelf.old) (V.faults shelf.new) }
    ensures counts { OnSpoolFault result
        (HasFailed (V.cloud_at shelf.old 0) (V.cloud_at shelf.new 0) (V.faults shelf.old) (V.faults shelf.new))
        (KeepsCounts (V.cloud_at shelf.old 0) (V.cloud_at shelf.new 0) (V.faults shelf.old) (V.faults shelf.new)) }
{
    match journal.reopen(shelf, SPOOL_CLOUD, header, true) {
        Ok(()) => read_to_end(journal, shelf),
        Err(error) => Err(opening_error(error)),
    }
}

// Keeps the file and then the job's record, in a cloud whose areas are empty.
fn keep<V: Shelf>(
    journal: &mut Journal,
    shelf: &mut V,
    header: &Header,
    bytes: &[u8],
    body: &[u8],
) -> Result<(), SpoolErr>
    requires header { IsHeader header.now }
    requires some { 1 ≤ length body.now }
    requires few { length body.now ≤ 1079 }
    requires limit { (half.state_of journal.old).limit ≡ 65536 }
    ensures any_moment { KeepsNewJob header.now bytes.now body.now (V.cloud_at shelf.old 0) (V.cloud_at shelf.new 0) }
    ensures kept { HasNewJob (half.state_of journal.new) header.now bytes.now body.now
        (V.cloud_at shelf.old 0) (V.cloud_at shelf.new 0) result }
    ensures answers { IsTrue (V.cloud_at shelf.old 0).told
        → first_filled (reads (V.cloud_at shelf.old 0).now) ≡ None → IsSpoolOkOrFault result }
    ensures stage { OnOk result ((half.state_of journal.new).stage ≡ Stage.AtEnd) }
    ensures gate { OnOk result ((half.state_of journal.new).current.gate ≤ 67 + length body.now) }
    ensures limit { (half.state_of journal.new).limit ≡ (half.state_of journal.old).limit }
    ensures call { IsCall (V.cloud_at shelf.old) (V.cloud_at shelf.new) 0 (V.faults shelf.old) (V.faults shelf.new) }
    ensures counts { OnSpoolFault result
        (HasFailed (V.cloud_at shelf.old 0) (V.cloud_at shelf.new 0) (V.faults shelf.old) (V.faults shelf.new))
        (KeepsCounts (V.cloud_at shelf.old 0) (V.cloud_at shelf.new 0) (V.faults shelf.old) (V.faults shelf.new)) }
{
    match write_file(shelf, bytes) {
        Ok(()) => {}
        Err(Failed) => return Err(SpoolErr::Fault),
    }
    match begin_journal(journal, shelf, header) {
        Ok(()) => {}
        Err(error) => return Err(error),
    }
    match journal.append(shelf, SPOOL_CLOUD, body) {
        Ok(()) => Ok(()),
        Err(Failed) => Err(SpoolErr::Fault),
    }
}

// The body of a job's record.
fn job_body(
    alloc: Global,
    user: UserId,
    version: Version,
    path: &[u8],
    len: u64,
    digest: Fp,
) -> Result<Bytes, NoMemory>
    requires { length path.now ≤ path_limit }
    ensures { IfOk result (λ body. body ≡ job_fields user version path.now len digest.0) }
{
    let mut body = Bytes::new(alloc);
    body.push(1)?;
    body.extend(&user.0.to_be_bytes())?;
    body.extend(&version.0.to_be_bytes())?;
    body.extend(&(path.len() as u16).to_be_bytes())?;
    body.extend(path)?;
    body.extend(&len.to_be_bytes())?;
    body.extend(&digest.0)?;
    Ok(body)
}

// The header of a spool of this shape.
pub(crate) fn header_of(shape: Shape) -> Header
    ensures value { result ≡ spool_header shape }
    ensures is { IsHeader result }
{
    Header {
        format: 2,
        shape,
        cloud: SPOOL_CLOUD,
        rooms: UserRooms::usual(),
    }
}

// A spool whose journal isn't open, and the body of its job's record.
fn draft(
    alloc: Global,
    shape: Shape,
    user: UserId,
    path: &[u8],
    version: Version,
    bytes: &[u8],
) -> Result<(Spool, Bytes), NoMemory>
    requires path { IsPath path.now }
    requires few { length bytes.now ≤ file_limit }
    ensures { IfOk result (λ x. IsDraft shape
        (record { user = user; path = path.now; number = version; file = bytes.now }) x.0 x.1) }
{
    let len = bytes.len() as u64;
    let digest = sha256(bytes);
    let body = job_body(alloc, user, version, path, len, digest)?;
    let mut kept = Bytes::new(alloc);
    kept.extend(path)?;
    let journal = Journal::make(alloc, SPOOL_LIMIT)?;
    let spool = Spool {
        shape,
        user,
        version,
        path: kept,
        len,
        digest,
        noted: Vec::new(alloc),
        journal,
    };
    Ok((spool, body))
}

impl Spool {
    /// Keeps a version of a file, of at most 67,108,864 bytes, in the shelf's cloud 0, with no lane noted: the file in Shares,
    /// then the job's record in Journal. It has the conditions of `Job::new`.
    ///
    /// `SpoolErr::NotEmpty` comes exactly where an area isn't empty, with the first one in the order journal, shares, recipes;
    /// all is as before then. `SpoolErr::Fault` comes only where the cloud's count of faults rose, and
    /// `SpoolErr::NoMemory` before the first write. Whenever a crash comes, no job is open, or this one with no lane noted; after
    /// Ok it is this one.
    pub fn begin<V: Shelf>(
        alloc: Global,
        shelf: &mut V,
        shape: Shape,
        user: UserId,
        path: &[u8],
        version: Version,
        bytes: &[u8],
    ) -> Result<Spool, SpoolErr>
        requires path { IsPath path.now }
        requires few { length bytes.now ≤ file_limit }
        ensures empty { IsTrue (V.cloud_at shelf.old 0).told → BeginsIs (reads (V.cloud_at shelf.old 0).now) result }
        ensures any_moment { LeavesJob shape
            (record { user = user; path = path.now; number = version; file = bytes.now })
            (V.cloud_at shelf.old 0) (V.cloud_at shelf.new 0) }
        ensures begun { HasBegunSpool (record { user = user; path = path.now; number = version; file = bytes.now })
            (V.cloud_at shelf.old 0) (V.cloud_at shelf.new 0) result }
        ensures spared { IsTrue (V.cloud_at shelf.old 0).told
            → first_filled (reads (V.cloud_at shelf.old 0).now) ≢ None
            → Stays (V.cloud_at shelf.old 0) (V.cloud_at shelf.new 0) }
        ensures spool { IfOk result (IsBegunSpool shape
            (record { user = user; path = path.now; number = version; file = bytes.now })) }
        ensures call { IsCall (V.cloud_at shelf.old) (V.cloud_at shelf.new) 0
            (V.faults shelf.old) (V.faults shelf.new) }
        ensures counts { OnSpoolFault result
            (HasFailed (V.cloud_at shelf.old 0) (V.cloud_at shelf.new 0) (V.faults shelf.old) (V.faults shelf.new))
            (KeepsCounts (V.cloud_at shelf.old 0) (V.cloud_at shelf.new 0) (V.faults shelf.old) (V.faults shelf.new)) }
    {
        match find_filled(shelf) {
            Ok(None) => {}
            Ok(Some((area, len))) => return Err(SpoolErr::NotEmpty { area, len }),
            Err(Failed) => return Err(SpoolErr::Fault),
        }
        match draft(alloc, shape, user, path, version, bytes) {
            Ok((mut spool, body)) => {
                let header = header_of(shape);
                match keep(&mut spool.journal, shelf, &header, bytes, body.as_slice()) {
                    Ok(()) => Ok(spool),
                    Err(error) => Err(error),
                }
            }
            Err(NoMemory) => Err(SpoolErr::NoMemory),
        }
    }
}
