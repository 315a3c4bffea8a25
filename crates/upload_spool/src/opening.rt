//! Opening a spool.

ghost use Rattle.std.specs.Prelude.{◌≡◌, ◌↔◌, ◌<◌, ◌≤◌, ℕ, ◌+◌, ◌*◌, All, List, [], length, take, Ok, IsTrue, IfOk, OnOk, None, IfSome};
ghost use Rattle.grammar.specs.CdBase.Limits.{IsPath, file_limit};
ghost use Rattle.commit_journal.specs.CdEdges.area.Area.{Area};
ghost use Rattle.commit_journal.specs.CdEdges.Disk.{IsImage, LeavesOnly, reads};
ghost use Rattle.commit_journal.specs.CdEdges.Shelf.{IsCall, HasFailed, KeepsCounts, Stays};
ghost use Rattle.commit_journal.specs.declared.journal.Stage.{Stage};
ghost use Rattle.commit_journal.specs.Outcomes.{stage_of};
ghost use Rattle.commit_journal.specs.States as half;
ghost use Rattle.upload_job.specs.Upload.{FileVersion};
ghost use Rattle.upload_spool.specs.Spools.{FitsFileVersion, SpoolFor};
ghost use Rattle.upload_spool.specs.States.{OnSpoolFault, IsSpool, state_of};
ghost use Rattle.upload_spool.specs.Steps.{ReadsNextNote, GateIs, shown_fault, JobIs, LaneIs, ReadsLane, MoreNoted, AreNoted};
ghost use Rattle.upload_spool.specs.Steps.{IsSpoolRead, IsAllRead, HasValueOrRefusal, notes_of, notes_in, AreRecordsKept, FoundIs, HasSpoolEnded, IsReadAnswer, BringsIs};
ghost use Rattle.upload_spool.specs.Reading.{JobFields};
ghost use Rattle.upload_spool.specs.Opens as opens;
ghost use Rattle.upload_job.specs.Lanes.{lanes_resumed};

use crate::beginning::header_of;
use crate::records::{RecordFault, is_noted, read_job, read_lane};
use crate::spool::{SPOOL_CLOUD, SPOOL_LIMIT};
use crate::{Spool, SpoolErr};
use commit_journal::{Area, Failed, Journal, OpenErr, RecordErr, Shelf};
use grammar::{Bytes, CloudNo, Clouds, Fp, NoMemory, Shape, UserId, Version, sha256};
use std::alloc::Global;
use upload_job::Job;

// What a spool's job record says, with a path of its own.
#[derive(Drop)]
struct KeptJob {
    user: UserId,
    version: Version,
    path: Bytes,
    len: u64,
    digest: Fp,
}

// What a spool's records say.
#[derive(Drop)]
struct Records {
    job: KeptJob,
    noted: Vec<CloudNo>,
}

// The damage of a body whose record's length begins at this place.
fn fault_at(fault: RecordFault, place: u64) -> SpoolErr
    ensures { result ≡ shown_fault place fault }
{
    match fault {
        RecordFault::Short => SpoolErr::Damaged { at: place, byte: 0 },
        RecordFault::Wrong { place: wrong, byte } => SpoolErr::Damaged {
            at: place.saturating_add(4).saturating_add(wrong as u64),
            byte,
        },
    }
}

// The next record, or the end.
fn next<V: Shelf>(journal: &mut Journal, shelf: &mut V) -> Result<bool, SpoolErr>
    requires { (half.state_of journal.old).stage ≡ Stage.Reading }
    ensures reads { ReadsNextNote (half.state_of journal.old) (half.state_of journal.new)
        (V.cloud_at shelf.old 0) result }
    ensures gate { GateIs (half.state_of journal.old) (half.state_of journal.new) result }
    ensures stage { IfOk result (λ more. (half.state_of journal.new).stage ≡ stage_of (Ok more)) }
    ensures limit { (half.state_of journal.new).limit ≡ (half.state_of journal.old).limit }
    ensures stays { Stays (V.cloud_at shelf.old 0) (V.cloud_at shelf.new 0) }
    ensures call { IsCall (V.cloud_at shelf.old) (V.cloud_at shelf.new) 0 (V.faults shelf.old) (V.faults shelf.new) }
    ensures counts { OnSpoolFault result
        (HasFailed (V.cloud_at shelf.old 0) (V.cloud_at shelf.new 0) (V.faults shelf.old) (V.faults shelf.new))
        (KeepsCounts (V.cloud_at shelf.old 0) (V.cloud_at shelf.new 0) (V.faults shelf.old) (V.faults shelf.new)) }
{
    match journal.next(shelf, SPOOL_CLOUD) {
        Ok(more) => Ok(more),
        Err(RecordErr::Failed) => Err(SpoolErr::Fault),
        Err(RecordErr::Damaged { at, byte }) => Err(SpoolErr::Damaged { at, byte }),
    }
}

// The job of the record that was read last.
fn job_in(alloc: Global, journal: &Journal) -> Result<KeptJob, SpoolErr>
    ensures { JobIs (half.state_of journal.now).current.body (half.state_of journal.now).current.body_at result }
{
    match read_job(journal.body()) {
        Ok(job) => {
            let mut path = Bytes::new(alloc);
            match path.extend(job.path) {
                Ok(()) => Ok(KeptJob {
                    user: job.user,
                    version: job.version,
                    path,
                    len: job.len,
                    digest: job.digest,
                }),
                Err(NoMemory) => Err(SpoolErr::NoMemory),
            }
        }
        Err(fault) => Err(fault_at(fault, journal.body_at().saturating_sub(4))),
    }
}

// The lane of the record that was read last, behind those before.
fn lane_in(journal: &Journal, shape: Shape, noted: &mut Vec<CloudNo>) -> Result<(), SpoolErr>
    ensures { LaneIs shape noted.old.items noted.new.items
        (half.state_of journal.now).current.body (half.state_of journal.now).current.body_at result }
{
    match read_lane(journal.body(), shape, noted.as_slice()) {
        Ok(lane) => {
            if noted.push(lane).is_err() {
                return Err(SpoolErr::NoMemory);
            }
            Ok(())
        }
        Err(fault) => Err(fault_at(fault, journal.body_at().saturating_sub(4))),
    }
}

// The next lane: true. False at the end.
fn next_lane<V: Shelf>(
    journal: &mut Journal,
    shelf: &mut V,
    shape: Shape,
    noted: &mut Vec<CloudNo>,
) -> Result<bool, SpoolErr>
    requires { (half.state_of journal.old).stage ≡ Stage.Reading }
    ensures reads { ReadsLane shape (half.state_of journal.old) (half.state_of journal.new)
        (V.cloud_at shelf.old 0) noted.old.items noted.new.items result }
    ensures more { MoreNoted shape noted.old.items noted.new.items
        (half.state_of journal.old).current.gate (half.state_of journal.new).current.gate result }
    ensures stage { IfOk result (λ more. (half.state_of journal.new).stage ≡ stage_of (Ok more)) }
    ensures limit { (half.state_of journal.new).limit ≡ (half.state_of journal.old).limit }
    ensures stays { Stays (V.cloud_at shelf.old 0) (V.cloud_at shelf.new 0) }
    ensures call { IsCall (V.cloud_at shelf.old) (V.cloud_at shelf.new) 0 (V.faults shelf.old) (V.faults shelf.new) }
    ensures counts { OnSpoolFault result
        (HasFailed (V.cloud_at shelf.old 0) (V.cloud_at shelf.new 0) (V.faults shelf.old) (V.faults shelf.new))
        (KeepsCounts (V.cloud_at shelf.old 0) (V.cloud_at shelf.new 0) (V.faults shelf.old) (V.faults shelf.new)) }
{
    match next(journal, shelf) {
        Ok(true) => match lane_in(journal, shape, noted) {
            Ok(()) => Ok(true),
            Err(error) => Err(error),
        },
        Ok(false) => Ok(false),
        Err(error) => Err(error),
    }
}

// The lanes behind the job's record: at most n, since each is below n and another than those before.
fn lanes_in<V: Shelf>(
    alloc: Global,
    journal: &mut Journal,
    shelf: &mut V,
    shape: Shape,
) -> Result<Vec<CloudNo>, SpoolErr>
    requires { (half.state_of journal.old).stage ≡ Stage.Reading }
    ensures reads { IsTrue (V.cloud_at shelf.old 0).told → (job : JobFields)
        → IsSpoolRead shape (half.state_of journal.old) ((V.cloud_at shelf.old 0).now Area.Journal) (notes_of job [])
        → HasValueOrRefusal shape ((V.cloud_at shelf.old 0).now Area.Journal).read (λ noted. IsAllRead shape
        (half.state_of journal.new) ((V.cloud_at shelf.old 0).now Area.Journal) (notes_of job noted.items)) result }
    ensures noted { IfOk result (λ noted. AreNoted shape
        (half.state_of journal.old).current.gate (half.state_of journal.new).current.gate noted.items) }
    ensures stage { OnOk result ((half.state_of journal.new).stage ≡ Stage.AtEnd) }
    ensures limit { (half.state_of journal.new).limit ≡ (half.state_of journal.old).limit }
    ensures stays { Stays (V.cloud_at shelf.old 0) (V.cloud_at shelf.new 0) }
    ensures call { IsCall (V.cloud_at shelf.old) (V.cloud_at shelf.new) 0 (V.faults shelf.old) (V.faults shelf.new) }
    ensures counts { OnSpoolFault result
        (HasFailed (V.cloud_at shelf.old 0) (V.cloud_at shelf.new 0) (V.faults shelf.old) (V.faults shelf.new))
        (KeepsCounts (V.cloud_at shelf.old 0) (V.cloud_at shelf.new 0) (V.faults shelf.old) (V.faults shelf.new)) }
{
    let mut noted = Vec::new(alloc);
    while next_lane(journal, shelf, shape, &mut noted)? {}
    Ok(noted)
}

// What the records behind the start say, or None where there is none.
fn records_in<V: Shelf>(
    alloc: Global,
    journal: &mut Journal,
    shelf: &mut V,
    shape: Shape,
) -> Result<Option<Records>, SpoolErr>
    requires { (half.state_of journal.old).stage ≡ Stage.Reading }
    ensures reads { IsTrue (V.cloud_at shelf.old 0).told
        → IsSpoolRead shape (half.state_of journal.old) ((V.cloud_at shelf.old 0).now Area.Journal) None
        → HasValueOrRefusal shape ((V.cloud_at shelf.old 0).now Area.Journal).read (λ found. IsAllRead shape
        (half.state_of journal.new) ((V.cloud_at shelf.old 0).now Area.Journal) (notes_in found)) result }
    ensures kept { IfOk result (λ found. IfSome found
        (AreRecordsKept shape (half.state_of journal.old).current.gate (half.state_of journal.new))) }
    ensures limit { (half.state_of journal.new).limit ≡ (half.state_of journal.old).limit }
    ensures stays { Stays (V.cloud_at shelf.old 0) (V.cloud_at shelf.new 0) }
    ensures call { IsCall (V.cloud_at shelf.old) (V.cloud_at shelf.new) 0 (V.faults shelf.old) (V.faults shelf.new) }
    ensures counts { OnSpoolFault result
        (HasFailed (V.cloud_at shelf.old 0) (V.cloud_at shelf.new 0) (V.faults shelf.old) (V.faults shelf.new))
        (KeepsCounts (V.cloud_at shelf.old 0) (V.cloud_at shelf.new 0) (V.faults shelf.old) (V.faults shelf.new)) }
{
    match next(journal, shelf) {
        Ok(true) => {}
        Ok(false) => return Ok(None),
        Err(error) => return Err(error),
    }
    match job_in(alloc, journal) {
        Ok(job) => match lanes_in(alloc, journal, shelf, shape) {
            Ok(noted) => Ok(Some(Records { job, noted })),
            Err(error) => Err(error),
        },
        Err(error) => Err(error),
    }
}

// What the journal keeps, which is synced first; or None where no half is begun, or no record is there.
fn kept_in<V: Shelf>(
    alloc: Global,
    journal: &mut Journal,
    shelf: &mut V,
    shape: Shape,
) -> Result<Option<Records>, SpoolErr>
    ensures found { IsTrue (V.cloud_at shelf.old 0).told
        → FoundIs shape ((V.cloud_at shelf.old 0).now Area.Journal).read result }
    ensures ended { IsTrue (V.cloud_at shelf.old 0).told → IfOk result (λ found. IfSome found
        (HasSpoolEnded shape (half.state_of journal.new) (V.cloud_at shelf.old 0) (V.cloud_at shelf.new 0))) }
    ensures spared { IsTrue (V.cloud_at shelf.old 0).told
        → LeavesOnly (V.cloud_at shelf.old 0) (V.cloud_at shelf.new 0) (IsImage (V.cloud_at shelf.old 0).now) }
    ensures kept { IfOk result (λ found. IfSome found (AreRecordsKept shape 62 (half.state_of journal.new))) }
    ensures limit { (half.state_of journal.new).limit ≡ (half.state_of journal.old).limit }
    ensures call { IsCall (V.cloud_at shelf.old) (V.cloud_at shelf.new) 0 (V.faults shelf.old) (V.faults shelf.new) }
    ensures counts { OnSpoolFault result
        (HasFailed (V.cloud_at shelf.old 0) (V.cloud_at shelf.new 0) (V.faults shelf.old) (V.faults shelf.new))
        (KeepsCounts (V.cloud_at shelf.old 0) (V.cloud_at shelf.new 0) (V.faults shelf.old) (V.faults shelf.new)) }
{
    let header = header_of(shape);
    match journal.reopen(shelf, SPOOL_CLOUD, &header, false) {
        Ok(()) => records_in(alloc, journal, shelf, shape),
        Err(OpenErr::NotBegun { .. }) => Ok(None),
        Err(OpenErr::Fault) => Err(SpoolErr::Fault),
        Err(OpenErr::Damaged { at, byte }) => Err(SpoolErr::Damaged { at, byte }),
        Err(OpenErr::OtherStore { found, asked, .. }) => Err(SpoolErr::OtherStore { found, asked }),
    }
}

// The first so many bytes of Shares, or all of them where there are fewer.
fn file_in<V: Shelf>(alloc: Global, shelf: &mut V, len: u64) -> Result<Bytes, SpoolErr>
    requires { len ≤ file_limit }
    ensures bytes { IsTrue (V.cloud_at shelf.old 0).told
        → IfOk result (λ bytes. bytes ≡ take len ((V.cloud_at shelf.old 0).now Area.Shares).read) }
    ensures answers { IsReadAnswer result }
    ensures stays { Stays (V.cloud_at shelf.old 0) (V.cloud_at shelf.new 0) }
    ensures call { IsCall (V.cloud_at shelf.old) (V.cloud_at shelf.new) 0 (V.faults shelf.old) (V.faults shelf.new) }
    ensures counts { OnSpoolFault result
        (HasFailed (V.cloud_at shelf.old 0) (V.cloud_at shelf.new 0) (V.faults shelf.old) (V.faults shelf.new))
        (KeepsCounts (V.cloud_at shelf.old 0) (V.cloud_at shelf.new 0) (V.faults shelf.old) (V.faults shelf.new)) }
{
    let mut bytes = Bytes::new(alloc);
    match bytes.resize(len as usize, 0) {
        Ok(()) => {}
        Err(NoMemory) => return Err(SpoolErr::NoMemory),
    }
    match shelf.read(SPOOL_CLOUD, Area::Shares, 0, bytes.as_mut_slice()) {
        Ok(count) => {
            bytes.truncate(count);
            Ok(bytes)
        }
        Err(Failed) => Err(SpoolErr::Fault),
    }
}

// The lanes in the order of their numbers.
fn rising(alloc: Global, shape: Shape, noted: &[CloudNo]) -> Result<Clouds, NoMemory>
    ensures is { IfOk result (λ clouds. clouds ≡ opens.rising shape noted.now) }
    ensures below { IfOk result (λ clouds. All (λ cloud. cloud < shape.n) clouds) }
{
    let mut clouds = Clouds::new(alloc);
    for number in 0..shape.n {
        if is_noted(noted, number) {
            clouds.push(CloudNo(number))?;
        }
    }
    Ok(clouds)
}

// The job of what was kept.
fn resumed(
    alloc: Global,
    shape: Shape,
    kept: &KeptJob,
    bytes: &[u8],
    noted: &[CloudNo],
) -> Result<Job, NoMemory>
    requires path { IsPath kept.now.path }
    requires few { length bytes.now ≤ file_limit }
    ensures { IfOk result (λ job. job ≡ lanes_resumed shape (record {
      user = kept.now.user;
      path = kept.now.path;
      number = kept.now.version;
      file = bytes.now;
    }) (opens.rising shape noted.now)) }
{
    let committed = rising(alloc, shape, noted)?;
    let path = kept.path.as_slice();
    Job::resume(
        alloc,
        shape,
        kept.user,
        path,
        kept.version,
        bytes,
        &committed,
    )
}

// Whether the bytes have this length and this SHA-256.
fn is_file(bytes: &[u8], found: Fp, len: u64, named: Fp) -> bool
    ensures { IsTrue result ↔ ((length bytes.now ≡ len) × (found ≡ named)) }
{
    bytes.len() as u64 == len && found == named
}

// The spool and its job, where the file is the one that was kept.
fn bring<V: Shelf>(
    alloc: Global,
    shelf: &mut V,
    shape: Shape,
    records: Records,
    journal: Journal,
) -> Result<(Spool, Job), SpoolErr>
    requires kept { AreRecordsKept shape 62 (half.state_of journal) records }
    requires limit { (half.state_of journal).limit ≡ 65536 }
    ensures brings { BringsIs shape records (half.state_of journal) (V.cloud_at shelf.old 0) result }
    ensures stays { Stays (V.cloud_at shelf.old 0) (V.cloud_at shelf.new 0) }
    ensures call { IsCall (V.cloud_at shelf.old) (V.cloud_at shelf.new) 0 (V.faults shelf.old) (V.faults shelf.new) }
    ensures counts { OnSpoolFault result
        (HasFailed (V.cloud_at shelf.old 0) (V.cloud_at shelf.new 0) (V.faults shelf.old) (V.faults shelf.new))
        (KeepsCounts (V.cloud_at shelf.old 0) (V.cloud_at shelf.new 0) (V.faults shelf.old) (V.faults shelf.new)) }
{
    let bytes = match file_in(alloc, shelf, records.job.len) {
        Ok(bytes) => bytes,
        Err(error) => return Err(error),
    };
    let found = sha256(bytes.as_slice());
    let named = records.job.digest;
    if !is_file(bytes.as_slice(), found, records.job.len, named) {
        return Err(SpoolErr::Rotten { named, found });
    }
    match resumed(
        alloc,
        shape,
        &records.job,
        bytes.as_slice(),
        records.noted.as_slice(),
    ) {
        Ok(job) => {
            let spool = Spool {
                shape,
                user: records.job.user,
                version: records.job.version,
                path: records.job.path,
                len: records.job.len,
                digest: named,
                noted: records.noted,
                journal,
            };
            Ok((spool, job))
        }
        Err(NoMemory) => Err(SpoolErr::NoMemory),
    }
}

impl Spool {
    /// Opens what is kept in the shelf's cloud 0 for clouds of this shape: the spool and its job, whose noted lanes have
    /// entered their version and whose others are at their beginning; or None, exactly where no half of Journal is begun,
    /// or the current one begins with the spool's header and has no record. Shares and Journal are synced first, so that a
    /// crash leaves what is read; nothing is written, and each image since is one that a crash might have left before.
    ///
    /// What was kept is found: where the areas are the spool of a version with some lanes, these are answered, or
    /// `SpoolErr::Fault` or `SpoolErr::NoMemory`.
    ///
    /// In this order: `SpoolErr::Damaged` at a start that is damaged, and `SpoolErr::OtherStore` where the current one has
    /// another header; `Damaged` at the first record that is damaged, or that isn't a job's as the first one, or a new
    /// lane's as a later one, at its first wrong place; and `SpoolErr::Rotten` exactly where the file's bytes, or as many
    /// of them as Shares has, are too few or hash to another value than the one that is named. `SpoolErr::Fault` comes
    /// only where the cloud's count of faults rose.
    pub fn open<V: Shelf>(
        alloc: Global,
        shelf: &mut V,
        shape: Shape,
    ) -> Result<Option<(Spool, Job)>, SpoolErr>
        ensures found { IsTrue (V.cloud_at shelf.old 0).told
            → opens.OpensSpoolIs shape (reads (V.cloud_at shelf.old 0).now) (opens.answer_of result) }
        ensures kept { IsTrue (V.cloud_at shelf.old 0).told → (v : FileVersion) (lanes : List CloudNo)
            → FitsFileVersion v
            → SpoolFor (reads (V.cloud_at shelf.old 0).now) shape v lanes
            → IfOk result (λ opened. IfSome opened (λ x. IsSpool (state_of x.0) v lanes (V.cloud_at shelf.new 0))) }
        ensures found_again { IsTrue (V.cloud_at shelf.old 0).told → (v : FileVersion) (lanes : List CloudNo)
            → FitsFileVersion v → SpoolFor (reads (V.cloud_at shelf.old 0).now) shape v lanes
            → opens.FindsAgain shape v lanes (opens.answer_of result) }
        ensures spool { IfOk result (λ opened. IfSome opened (opens.IsOpenedSpool shape)) }
        ensures spared { IsTrue (V.cloud_at shelf.old 0).told
            → LeavesOnly (V.cloud_at shelf.old 0) (V.cloud_at shelf.new 0) (IsImage (V.cloud_at shelf.old 0).now) }
        ensures call { IsCall (V.cloud_at shelf.old) (V.cloud_at shelf.new) 0
            (V.faults shelf.old) (V.faults shelf.new) }
        ensures counts { OnSpoolFault result
            (HasFailed (V.cloud_at shelf.old 0) (V.cloud_at shelf.new 0) (V.faults shelf.old) (V.faults shelf.new))
            (KeepsCounts (V.cloud_at shelf.old 0) (V.cloud_at shelf.new 0) (V.faults shelf.old) (V.faults shelf.new)) }
    {
        match shelf.sync(SPOOL_CLOUD, Area::Shares) {
            Ok(()) => {}
            Err(Failed) => return Err(SpoolErr::Fault),
        }
        let mut journal = match Journal::make(alloc, SPOOL_LIMIT) {
            Ok(journal) => journal,
            Err(NoMemory) => return Err(SpoolErr::NoMemory),
        };
        match kept_in(alloc, &mut journal, shelf, shape) {
            Ok(None) => Ok(None),
            Ok(Some(records)) => match bring(alloc, shelf, shape, records, journal) {
                Ok(opened) => Ok(Some(opened)),
                Err(error) => Err(error),
            },
            Err(error) => Err(error),
        }
    }
}
