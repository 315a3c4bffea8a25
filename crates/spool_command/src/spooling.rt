//! Backing a file up with a spool.

ghost use Rattle.std.specs.Prelude.{◌≡◌, ◌≤◌, [], length, IsTrue, IfErr, IfOk};
ghost use Rattle.upload_spool.specs.CdBase.Limits.{IsPath};
ghost use Rattle.upload_spool.specs.CdEdges.Shelf.{IsCall};
ghost use Rattle.upload_spool.specs.Recipe.Spelling.{file_limit};
ghost use Rattle.upload_spool.specs.UploadJob.Lanes.{lanes_begun};
ghost use Rattle.backup_command.specs.LaneSteps.Reached.{IsReached};
ghost use Rattle.upload_spool.specs.States.{IsBegunSpool, LeavesJob, state_of};
ghost use Rattle.backup_command.specs.PortsLink.Dialled.{OnlyDialled};
ghost use Rattle.backup_command.specs.Reading.{input_of};
ghost use Rattle.backup_command.specs.Sends.{HasSentOwn, SendsOwn};
ghost use Rattle.backup_command.specs.Writing.{output_of};
ghost use Rattle.spool_command.specs.Spooled.{CarriesSpool, IsSpoolKept, IsSpooled, IsSpoolUnbegun, SparesFilled, unmet_as, version_for};

use crate::bringing::LaneBuffers;
use crate::going::go_on;
use crate::interruption::Interruption;
use crate::writing::{Unspooled, write_end};
use backup_command::{
    AskedClouds, FileBytes, FileReadErr, MeetErr, ReplyBuf, meet_all, read_file, write_too_long,
};
use std::alloc::Global;
use upload_spool::{
    Bytes, Job, NoMemory, Ports, Shape, Shelf, Sink, Source, Spool, SpoolErr, UserId, Version,
};

/// Which version of which file is backed up.
#[derive(Clone, Copy)]
pub struct SpooledFile<'a> {
    /// Whose file it is.
    pub user: UserId,
    /// Its path, of 1 to 1,024 bytes, none of them zero.
    pub path: &'a [u8],
    /// The number of the version.
    pub version: Version,
}

// The job of a version of a file, and its spool.
fn start<V: Shelf>(
    alloc: Global,
    shape: Shape,
    file: &SpooledFile<'_>,
    bytes: FileBytes,
    shelf: &mut V,
) -> Result<(Spool, Job), SpoolErr>
    requires path { IsPath file.now.path.now }
    requires few { length bytes ≤ file_limit }
    ensures job { IfOk result (λ x. x.1 ≡ lanes_begun shape (version_for file.now bytes)) }
    ensures reached { IfOk result (λ x. IsReached shape x.1) }
    ensures spool { IfOk result (λ x. IsBegunSpool shape (version_for file.now bytes) x.0) }
    ensures begun { IsTrue (V.cloud_at shelf.old 0).told
        → IfOk result (λ x. IsSpoolKept (version_for file.now bytes) (state_of x.0)
        (V.cloud_at shelf.old 0) (V.cloud_at shelf.new 0)) }
    ensures any_moment { LeavesJob shape (version_for file.now bytes)
        (V.cloud_at shelf.old 0) (V.cloud_at shelf.new 0) }
    ensures spared { SparesFilled (V.cloud_at shelf.old 0) (V.cloud_at shelf.new 0) }
    ensures refused { IfErr result (IsSpoolUnbegun (V.cloud_at shelf.old 0) (V.cloud_at shelf.new 0)) }
    ensures call { IsCall (V.cloud_at shelf.old) (V.cloud_at shelf.new) 0 (V.faults shelf.old) (V.faults shelf.new) }
{
    let user = file.user;
    let version = file.version;
    let _user = user.0;
    let _version = version.0;
    let content = bytes.as_slice();
    let job = match Job::new(alloc, shape, user, file.path, version, content) {
        Ok(job) => job,
        Err(NoMemory) => return Err(SpoolErr::NoMemory),
    };
    match Spool::begin(alloc, shelf, shape, user, file.path, version, content) {
        Ok(spool) => Ok((spool, job)),
        Err(error) => Err(error),
    }
}

// Carries a file to the clouds at these addresses, with a spool.
fn carry<P: Ports, V: Shelf>(
    alloc: Global,
    file: &SpooledFile<'_>,
    addresses: &[String],
    bytes: FileBytes,
    shelf: &mut V,
    ports: &mut P,
    text: &mut Bytes,
) -> Result<Option<bool>, Unspooled>
    requires path { IsPath file.now.path.now }
    requires few { length bytes ≤ file_limit }
    requires some { 1 ≤ length addresses.now }
    requires many { length addresses.now ≤ 255 }
    requires empty { text.old ≡ [] }
    ensures carries { CarriesSpool (record {
      addresses = length addresses.now;
      before = P.tells ports.old;
      after = P.tells ports.new;
      faults_before = P.faults ports.old;
      faults_after = P.faults ports.new;
      folder = V.cloud_at shelf.old 0;
      left = V.cloud_at shelf.new 0;
    }) (version_for file.now bytes) result text.new }
    ensures spared { SparesFilled (V.cloud_at shelf.old 0) (V.cloud_at shelf.new 0) }
    ensures others { IsTrue (P.tells ports.old).told → OnlyDialled (P.tells ports.old) (P.tells ports.new) }
    ensures sends { IsTrue (P.tells ports.old).told → SendsOwn (record {
      user = file.now.user;
      path = file.now.path.now;
      version = file.now.version;
      addresses = length addresses.now;
      before = P.tells ports.old;
      after = P.tells ports.new;
      faults_before = P.faults ports.old;
      faults_after = P.faults ports.new;
    }) bytes }
    ensures told { (P.tells ports.new).told ≡ (P.tells ports.old).told }
    ensures later { P.faults ports.old ≤ P.faults ports.new }
    ensures call { IsCall (V.cloud_at shelf.old) (V.cloud_at shelf.new) 0 (V.faults shelf.old) (V.faults shelf.new) }
{
    let mut reply = match ReplyBuf::make(alloc) {
        Ok(reply) => reply,
        Err(NoMemory) => return Err(Unspooled::Interrupted(Interruption::Memory)),
    };
    let greeted = match meet_all(alloc, ports, AskedClouds::Backup, addresses, &mut reply) {
        Ok(greeted) => greeted,
        Err(error) => return Err(unmet(error)),
    };
    let (spool, mut job) = match start(alloc, greeted.shape, file, bytes, shelf) {
        Ok(started) => started,
        Err(error) => return Err(Unspooled::Unkept(error)),
    };
    let mut buffers = LaneBuffers {
        content: Bytes::new(alloc),
        reply,
        told: Vec::new(alloc),
    };
    match go_on(
        alloc,
        &greeted,
        spool,
        &mut job,
        shelf,
        ports,
        &mut buffers,
        text,
    ) {
        Ok(stored) => Ok(Some(stored)),
        Err(why) => Err(Unspooled::Interrupted(why)),
    }
}

/// Why no cloud was met, as a kept job says it.
pub fn unmet(error: MeetErr) -> Unspooled
    ensures { result ≡ unmet_as error }
{
    match error {
        MeetErr::Undialled => Unspooled::Undialled,
        MeetErr::Refused(why) => Unspooled::Refused(why),
        MeetErr::Lost => Unspooled::Unheard,
        MeetErr::NoMemory => Unspooled::Interrupted(Interruption::Memory),
    }
}

/// Backs a version of a user's file up to the clouds at these addresses, as `backup` does, and keeps the file and what was done in
/// the shelf's cloud 0 until each cloud has the version, so that `resume` can go on whatever comes between.
///
/// The source is read to its end, into memory; the addresses are dialled and asked Hello, in order, as by `backup`. Then the job is
/// kept in the folder, whose three areas have to be empty, and its lanes are brought to their ends, one after another; each whose
/// cloud has entered the version is noted before the next is asked. Where all have, the folder is made empty. The lines are written
/// at the end, all at once. A folder that isn't empty stays as it is.
///
/// | Status | Comes | Written |
/// |---|---|---|
/// | 0 | the version is entered at every cloud; the folder is empty | the lines of the job |
/// | 2 | the source has more than 67,108,864 bytes | `script 1 67108864 BYTE` |
/// | 3 | only where the source's count of faults rose | nothing |
/// | 4 | only where the sink's count of faults rose | a front of what was due |
/// | 5 | only where the shelf's count of faults rose | the lines so far, and `shelf 0` |
/// | 6 | memory ran out | nothing |
/// | 7 | an area of the folder isn't empty | `store 0 AREA LEN` |
/// | 8 | a reply to Hello isn't as asked | `refused hello POSITION N K CLOUD`, or `refused strange POSITION KIND` |
/// | 8 | a lane came to its end, and its version isn't entered; the job stays kept | the lines of the job |
/// | 9 | only where the ports' count of faults rose; in a lane the job stays kept | nothing; in a lane the lines so far |
pub fn spool<S: Source, V: Shelf, K: Sink, P: Ports>(
    alloc: Global,
    file: SpooledFile<'_>,
    addresses: &[String],
    shelf: &mut V,
    source: &mut S,
    sink: &mut K,
    ports: &mut P,
) -> u8
    requires path { IsPath file.path.now }
    requires some { 1 ≤ length addresses.now }
    requires many { length addresses.now ≤ 255 }
    ensures spooled { IsSpooled result (record {
      addresses = length addresses.now;
      before = P.tells ports.old;
      after = P.tells ports.new;
      faults_before = P.faults ports.old;
      faults_after = P.faults ports.new;
      folder = V.cloud_at shelf.old 0;
      left = V.cloud_at shelf.new 0;
    }) file.entry (input_of (S.left source.old) (S.faults source.old) (S.faults source.new))
        (output_of (K.written sink.old) (K.written sink.new) (K.faults sink.old) (K.faults sink.new)) }
    ensures spared { SparesFilled (V.cloud_at shelf.old 0) (V.cloud_at shelf.new 0) }
    ensures others { IsTrue (P.tells ports.old).told → OnlyDialled (P.tells ports.old) (P.tells ports.new) }

    // Whatever came of it, want of memory too: nothing was sent but Hellos and the requests of the job of the source's bytes, those of
    // each lane on its cloud's port, or pieces of them.
    ensures sends { IsTrue (P.tells ports.old).told → HasSentOwn (record {
      user = file.entry.user;
      path = file.entry.path.now;
      version = file.entry.version;
      addresses = length addresses.now;
      before = P.tells ports.old;
      after = P.tells ports.new;
      faults_before = P.faults ports.old;
      faults_after = P.faults ports.new;
    }) (input_of (S.left source.old) (S.faults source.old) (S.faults source.new)) }
    ensures told { (P.tells ports.new).told ≡ (P.tells ports.old).told }
    ensures later { P.faults ports.old ≤ P.faults ports.new }
    ensures call { IsCall (V.cloud_at shelf.old) (V.cloud_at shelf.new) 0 (V.faults shelf.old) (V.faults shelf.new) }
{
    let bytes = match read_file(alloc, source) {
        Ok(bytes) => bytes,
        Err(FileReadErr::Failed) => return 3,
        Err(FileReadErr::TooLong { byte }) => return write_too_long(alloc, sink, byte),
        Err(FileReadErr::NoMemory) => return 6,
    };
    let mut text = Bytes::new(alloc);
    let came = carry(alloc, &file, addresses, bytes, shelf, ports, &mut text);
    write_end(alloc, sink, came, text)
}
