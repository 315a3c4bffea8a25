//! A file that was read, to the clouds at some addresses.

ghost use Rattle.std.specs.Prelude.{◌≡◌, ◌≤◌, ℕ, List, [], length, IfOk, IsTrue};
ghost use Rattle.std.specs.List.{Contains};
ghost use Rattle.transcript.specs.CdBase.Limits.{IsPath};
ghost use Rattle.transcript.specs.CdEdges.Causes.{Rose};
ghost use Rattle.lane_steps.specs.Recipe.Spelling.{file_limit};
ghost use Rattle.lane_steps.specs.UploadJob.Lanes.{lanes_begun};
ghost use Rattle.lane_steps.specs.Reached.{IsReached};
ghost use Rattle.backup_command.specs.BackedUp.{BackupCall, BackupDialsOnly, version_of};
ghost use Rattle.backup_command.specs.Lanes.{numbered};
ghost use Rattle.backup_command.specs.Sends.{IsAskOn, SendsOn, SendsOwn};
ghost use Rattle.backup_command.specs.Steps.{AreGreetedOn, BringsFile, Carries, IfLost, IsCarryLost, IsNumbered};
ghost use Rattle.backup_command.specs.Steps.{LanesWent};

use crate::halt::Halt;
use crate::lanes::bring_lanes;
use crate::news::{put_end, put_line};
use lane_steps::{FileBytes, Job};
use ports_link::{AskedClouds, Greeted, MeetErr, PortsLink, Refused, ReplyBuf, lines_of, meet_all};
use std::alloc::Global;
use transcript::{Bytes, Line, NoMemory, Ports, Shape, UserId, Version};

/// Why a file wasn't carried to the clouds.
#[derive(Clone, Copy)]
pub enum BackupErr {
    /// An address couldn't be dialled.
    Undialled,
    /// The ports failed in a Hello.
    Unheard,
    /// A reply to Hello isn't as asked: the first such.
    Refused(Refused),
    /// The ports failed in a lane.
    Lost,
    /// Memory ran out.
    NoMemory,
}

// Which version of which file is carried.
#[derive(Clone, Copy)]
struct NamedVersion<'a> {
    user: UserId,
    path: &'a [u8],
    version: Version,
}

// The job of a version of a file, whose bytes are let go on the way.
fn job_of(
    alloc: Global,
    shape: Shape,
    user: UserId,
    path: &[u8],
    version: Version,
    file: FileBytes,
) -> Result<Job, NoMemory>
    requires path { IsPath path.now }
    requires few { length file ≤ file_limit }
    ensures begun { IfOk result (λ job. job ≡ lanes_begun shape (record {
      user = user;
      path = path.now;
      number = version;
      file = file;
    })) }
    ensures reached { IfOk result (IsReached shape) }
{
    let _user = user.0;
    let _version = version.0;
    Job::of_bytes(alloc, shape, user, path, version, file)
}

// Brings the lanes of a job to the clouds that were greeted, with their lines.
fn bring_all<P: Ports>(
    alloc: Global,
    greeted: &Greeted,
    job: &mut Job,
    ports: &mut P,
    reply: &mut ReplyBuf,
    text: &mut Bytes,
) -> Result<(), Halt>
    requires numbered { IsNumbered greeted.now }
    requires reached { IsReached greeted.now.shape job.old }
    ensures went { (dialled : List ℕ) → AreGreetedOn (P.tells ports.old) dialled greeted.now.lines.items
        → LanesWent (P.tells ports.old) (P.tells ports.new) greeted.now.lines.items job.old result job.new
        text.old text.new }
    ensures others { (dialled : List ℕ) → AreGreetedOn (P.tells ports.old) dialled greeted.now.lines.items
        → IsTrue (P.tells ports.old).told → (port : ℕ) → ¬ Contains dialled port
        → (P.tells ports.new).port port ≡ (P.tells ports.old).port port }
    ensures sends { (dialled : List ℕ) → AreGreetedOn (P.tells ports.old) dialled greeted.now.lines.items
        → IsTrue (P.tells ports.old).told
        → SendsOn (IsAskOn (numbered 0 dialled) job.old) (P.tells ports.old) (P.tells ports.new) }
    ensures told { (P.tells ports.new).told ≡ (P.tells ports.old).told }
    ensures later { P.faults ports.old ≤ P.faults ports.new }
    ensures lost { IfLost result (Rose (P.faults ports.old) (P.faults ports.new)) }
{
    let lines = match lines_of(alloc, greeted.lines.as_slice()) {
        Ok(lines) => lines,
        Err(NoMemory) => return Err(Halt::NoMemory),
    };
    let mut link = PortsLink::of(ports, greeted.shape, lines);
    let mut content = Bytes::new(alloc);
    let mut told = Vec::new(alloc);
    let came = bring_lanes(
        &mut link,
        greeted.lines.as_slice(),
        job,
        &mut content,
        reply,
        &mut told,
        text,
    );
    let _ports = link.release();
    came
}

// Carries a file to the clouds that were greeted, with the lines.
fn carry_greeted<P: Ports>(
    alloc: Global,
    named: &NamedVersion<'_>,
    greeted: &Greeted,
    file: FileBytes,
    ports: &mut P,
    reply: &mut ReplyBuf,
    text: &mut Bytes,
) -> Result<bool, BackupErr>
    requires path { IsPath named.now.path.now }
    requires few { length file ≤ file_limit }
    requires empty { text.old ≡ [] }
    requires numbered { IsNumbered greeted.now }
    ensures carries { (call : BackupCall) (dialled : List ℕ) → call.user ≡ named.now.user
        → call.path ≡ named.now.path.now → call.version ≡ named.now.version → call.after ≡ P.tells ports.new
        → AreGreetedOn (P.tells ports.old) dialled greeted.now.lines.items
        → BringsFile call file greeted.now.shape (P.tells ports.old) dialled result text.new }
    ensures others { (dialled : List ℕ) → AreGreetedOn (P.tells ports.old) dialled greeted.now.lines.items
        → IsTrue (P.tells ports.old).told → (port : ℕ) → ¬ Contains dialled port
        → (P.tells ports.new).port port ≡ (P.tells ports.old).port port }
    ensures sends { (call : BackupCall) (dialled : List ℕ) → call.user ≡ named.now.user
        → call.path ≡ named.now.path.now → call.version ≡ named.now.version
        → AreGreetedOn (P.tells ports.old) dialled greeted.now.lines.items → IsTrue (P.tells ports.old).told
        → SendsOn (IsAskOn (numbered 0 dialled) (lanes_begun greeted.now.shape (version_of call file)))
        (P.tells ports.old) (P.tells ports.new) }
    ensures told { (P.tells ports.new).told ≡ (P.tells ports.old).told }
    ensures later { P.faults ports.old ≤ P.faults ports.new }
    ensures lost { IsCarryLost result → Rose (P.faults ports.old) (P.faults ports.new) }
{
    let mut job = match job_of(
        alloc,
        greeted.shape,
        named.user,
        named.path,
        named.version,
        file,
    ) {
        Ok(job) => job,
        Err(NoMemory) => return Err(BackupErr::NoMemory),
    };
    match put_line(Line::Job { job: 1 }, text) {
        Ok(()) => {}
        Err(NoMemory) => return Err(BackupErr::NoMemory),
    }
    match bring_all(alloc, greeted, &mut job, ports, reply, text) {
        Ok(()) => {}
        Err(Halt::Lost) => return Err(BackupErr::Lost),
        Err(Halt::NoMemory) => return Err(BackupErr::NoMemory),
    }
    let stored = job.stored();
    match put_end(stored, text) {
        Ok(()) => Ok(stored),
        Err(NoMemory) => Err(BackupErr::NoMemory),
    }
}

/// Carries a file to the clouds at these addresses: meets them, one after another, and brings each lane of the job to
/// its end. It answers whether the version is entered at all clouds; the text has the lines then, and where the
/// ports failed in a lane those so far.
pub fn carry<P: Ports>(
    alloc: Global,
    user: UserId,
    path: &[u8],
    version: Version,
    addresses: &[String],
    file: FileBytes,
    ports: &mut P,
    text: &mut Bytes,
) -> Result<bool, BackupErr>
    requires path { IsPath path.now }
    requires few { length file ≤ file_limit }
    requires some { 1 ≤ length addresses.now }
    requires many { length addresses.now ≤ 255 }
    requires empty { text.old ≡ [] }
    ensures carries { Carries (record {
      user = user;
      path = path.now;
      version = version;
      addresses = length addresses.now;
      before = P.tells ports.old;
      after = P.tells ports.new;
      faults_before = P.faults ports.old;
      faults_after = P.faults ports.new;
    }) file result text.new }
    ensures others { IsTrue (P.tells ports.old).told → BackupDialsOnly (P.tells ports.old) (P.tells ports.new) }
    ensures sends { IsTrue (P.tells ports.old).told → SendsOwn (record {
      user = user;
      path = path.now;
      version = version;
      addresses = length addresses.now;
      before = P.tells ports.old;
      after = P.tells ports.new;
      faults_before = P.faults ports.old;
      faults_after = P.faults ports.new;
    }) file }
    ensures told { (P.tells ports.new).told ≡ (P.tells ports.old).told }
    ensures later { P.faults ports.old ≤ P.faults ports.new }
{
    let mut reply = match ReplyBuf::make(alloc) {
        Ok(reply) => reply,
        Err(NoMemory) => return Err(BackupErr::NoMemory),
    };
    let greeted = match meet_all(alloc, ports, AskedClouds::Backup, addresses, &mut reply) {
        Ok(greeted) => greeted,
        Err(MeetErr::Undialled) => return Err(BackupErr::Undialled),
        Err(MeetErr::Refused(why)) => return Err(BackupErr::Refused(why)),
        Err(MeetErr::Lost) => return Err(BackupErr::Unheard),
        Err(MeetErr::NoMemory) => return Err(BackupErr::NoMemory),
    };
    let named = NamedVersion {
        user,
        path,
        version,
    };
    carry_greeted(alloc, &named, &greeted, file, ports, &mut reply, text)
}
