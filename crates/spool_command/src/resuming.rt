//! Going on with a job that is kept.

ghost use Rattle.std.specs.Prelude.{◌≡◌, ◌≤◌, ◌↔◌, ℕ, List, [], length, IsTrue, IfOk, OnErr};
ghost use Rattle.std.specs.List.{Contains};
ghost use Rattle.upload_spool.specs.CdEdges.area.Area.{Area};
ghost use Rattle.upload_spool.specs.CdEdges.Shelf.{IsCall, HasFailed, Stays};
ghost use Rattle.backup_command.specs.PortsLink.Dialled.{OnlyDialled};
ghost use Rattle.backup_command.specs.Steps.{AreGreetedOn, IsNumbered};
ghost use Rattle.backup_command.specs.Writing.{output_of};
ghost use Rattle.spool_command.specs.Resumed.{CarriesResumed, Clears, GoesKept, HasSentKept, IsResumed, SendsKeptOr};

use crate::bringing::LaneBuffers;
use crate::going::go_on;
use crate::interruption::Interruption;
use crate::writing::{Unspooled, write_end};
use backup_command::{AskedClouds, Greeted, MeetErr, ReplyBuf, law_of_resumed_lanes, meet_all};
use std::alloc::Global;
use upload_spool::{Area, Bytes, CloudNo, Failed, NoMemory, Ports, Shelf, Sink, Spool, SpoolErr};

const FOLDER: CloudNo = CloudNo(0);

// Whether all three are 0.
fn are_none(journal: u64, shares: u64, recipes: u64) -> bool
    ensures { IsTrue result ↔ ((journal ≡ 0) × (shares ≡ 0) × (recipes ≡ 0)) }
{
    journal == 0 && shares == 0 && recipes == 0
}

// Whether the folder's areas read empty.
fn is_empty<V: Shelf>(shelf: &mut V) -> Result<bool, Failed>
    ensures empty { IsTrue (V.cloud_at shelf.old 0).told → IfOk result (λ empty. IsTrue empty
        → (area : Area) → ((V.cloud_at shelf.old 0).now area).read ≡ []) }
    ensures stays { Stays (V.cloud_at shelf.old 0) (V.cloud_at shelf.new 0) }
    ensures call { IsCall (V.cloud_at shelf.old) (V.cloud_at shelf.new) 0 (V.faults shelf.old) (V.faults shelf.new) }
    ensures failed { OnErr result
        (HasFailed (V.cloud_at shelf.old 0) (V.cloud_at shelf.new 0) (V.faults shelf.old) (V.faults shelf.new)) }
{
    let journal = match shelf.len(FOLDER, Area::Journal) {
        Ok(len) => len,
        Err(Failed) => return Err(Failed),
    };
    let shares = match shelf.len(FOLDER, Area::Shares) {
        Ok(len) => len,
        Err(Failed) => return Err(Failed),
    };
    match shelf.len(FOLDER, Area::Recipes) {
        Ok(recipes) => Ok(are_none(journal, shares, recipes)),
        Err(Failed) => Err(Failed),
    }
}

// Makes the folder empty, where it isn't. Where the shelf fails it stays as it is.
fn clear<V: Shelf>(shelf: &mut V) -> Result<(), Failed>
    ensures clears { IsTrue (V.cloud_at shelf.old 0).told
        → Clears (V.cloud_at shelf.old 0) (V.cloud_at shelf.new 0) result }
    ensures call { IsCall (V.cloud_at shelf.old) (V.cloud_at shelf.new) 0 (V.faults shelf.old) (V.faults shelf.new) }
    ensures failed { OnErr result
        (HasFailed (V.cloud_at shelf.old 0) (V.cloud_at shelf.new 0) (V.faults shelf.old) (V.faults shelf.new)) }
{
    match is_empty(shelf) {
        Ok(true) => Ok(()),
        Ok(false) => shelf.fresh(FOLDER),
        Err(Failed) => Err(Failed),
    }
}

// Goes on with the job that is kept for these clouds, or answers None where none is, and the folder is empty then.
fn go_on_kept<P: Ports, V: Shelf>(
    alloc: Global,
    greeted: &Greeted,
    shelf: &mut V,
    ports: &mut P,
    reply: ReplyBuf,
    text: &mut Bytes,
) -> Result<Option<bool>, Unspooled>
    requires empty { text.old ≡ [] }
    requires numbered { IsNumbered greeted.now }
    ensures goes { (dialled : List ℕ) → AreGreetedOn (P.tells ports.old) dialled greeted.now.lines.items
        → GoesKept greeted.now.shape (P.tells ports.old) (P.tells ports.new) (P.faults ports.old) (P.faults ports.new)
        greeted.now.lines.items (V.cloud_at shelf.old 0) (V.cloud_at shelf.new 0) result text.new }
    ensures others { (dialled : List ℕ) → AreGreetedOn (P.tells ports.old) dialled greeted.now.lines.items
        → IsTrue (P.tells ports.old).told → (port : ℕ) → ¬ Contains dialled port
        → (P.tells ports.new).port port ≡ (P.tells ports.old).port port }
    ensures sends { (dialled : List ℕ) → AreGreetedOn (P.tells ports.old) dialled greeted.now.lines.items
        → IsTrue (P.tells ports.old).told
        → SendsKeptOr greeted.now.shape dialled (P.tells ports.old) (P.tells ports.new) (V.cloud_at shelf.old 0) }
    ensures told { (P.tells ports.new).told ≡ (P.tells ports.old).told }
    ensures later { P.faults ports.old ≤ P.faults ports.new }
    ensures call { IsCall (V.cloud_at shelf.old) (V.cloud_at shelf.new) 0 (V.faults shelf.old) (V.faults shelf.new) }
{
    let (spool, mut job) = match Spool::open(alloc, shelf, greeted.shape) {
        Ok(Some(opened)) => opened,
        Ok(None) => {
            return match clear(shelf) {
                Ok(()) => Ok(None),
                Err(Failed) => Err(Unspooled::Unkept(SpoolErr::Fault)),
            };
        }
        Err(error) => return Err(Unspooled::Unkept(error)),
    };
    law_of_resumed_lanes();
    let _user = spool.user().0;
    let _version = spool.version().0;
    let mut buffers = LaneBuffers {
        content: Bytes::new(alloc),
        reply,
        told: Vec::new(alloc),
    };
    match go_on(
        alloc,
        greeted,
        spool,
        &mut job,
        shelf,
        ports,
        &mut buffers,
        text,
    ) {
        Ok(stored) => Ok(Some(stored)),
        Err(why) => Err(Unspooled::Interrupted(why)),
    }
}

// Goes on at the clouds at these addresses.
fn carry<P: Ports, V: Shelf>(
    alloc: Global,
    addresses: &[String],
    shelf: &mut V,
    ports: &mut P,
    text: &mut Bytes,
) -> Result<Option<bool>, Unspooled>
    requires some { 1 ≤ length addresses.now }
    requires many { length addresses.now ≤ 255 }
    requires empty { text.old ≡ [] }
    ensures carries { CarriesResumed (record {
      addresses = length addresses.now;
      before = P.tells ports.old;
      after = P.tells ports.new;
      faults_before = P.faults ports.old;
      faults_after = P.faults ports.new;
      folder = V.cloud_at shelf.old 0;
      left = V.cloud_at shelf.new 0;
    }) result text.new }
    ensures others { IsTrue (P.tells ports.old).told → OnlyDialled (P.tells ports.old) (P.tells ports.new) }
    ensures sends { IsTrue (P.tells ports.old).told → HasSentKept (record {
      addresses = length addresses.now;
      before = P.tells ports.old;
      after = P.tells ports.new;
      faults_before = P.faults ports.old;
      faults_after = P.faults ports.new;
      folder = V.cloud_at shelf.old 0;
      left = V.cloud_at shelf.new 0;
    }) }
    ensures told { (P.tells ports.new).told ≡ (P.tells ports.old).told }
    ensures later { P.faults ports.old ≤ P.faults ports.new }
    ensures call { IsCall (V.cloud_at shelf.old) (V.cloud_at shelf.new) 0 (V.faults shelf.old) (V.faults shelf.new) }
{
    let mut reply = match ReplyBuf::make(alloc) {
        Ok(reply) => reply,
        Err(NoMemory) => return Err(Unspooled::Interrupted(Interruption::Memory)),
    };
    let greeted = match meet_all(alloc, ports, AskedClouds::Backup, addresses, &mut reply) {
        Ok(greeted) => greeted,
        Err(MeetErr::Undialled) => return Err(Unspooled::Undialled),
        Err(MeetErr::Refused(why)) => return Err(Unspooled::Refused(why)),
        Err(MeetErr::Lost) => return Err(Unspooled::Unheard),
        Err(MeetErr::NoMemory) => return Err(Unspooled::Interrupted(Interruption::Memory)),
    };
    go_on_kept(alloc, &greeted, shelf, ports, reply, text)
}

/// Goes on with the job that `spool` kept in the shelf's cloud 0, at the clouds at these addresses, all of a store and in the order
/// of the clouds. A lane that was noted gives no line, and nothing is sent on its port behind Hello. What was kept is found: where
/// the folder has a job for clouds of this shape, it isn't answered that none is kept, or that what is kept is damaged, another
/// store's or rotten.
///
/// | Status | Comes | Written |
/// |---|---|---|
/// | 0 | the version is entered at every cloud; the folder is empty | the lines of the job |
/// | 0 | no job is kept; the folder is empty | `nospool` |
/// | 4 | only where the sink's count of faults rose | a front of what was due |
/// | 5 | only where the shelf's count of faults rose | the lines so far, and `shelf 0` |
/// | 6 | memory ran out; the job stays kept, or the version is entered at every cloud and the folder is empty | nothing |
/// | 7 | what is kept is damaged, or it was kept for clouds of another shape | `damaged 0 AT BYTE`, or `other 0 FORMAT N K OWN` |
/// | 8 | a reply to Hello isn't as asked | `refused hello POSITION N K CLOUD`, or `refused strange POSITION KIND` |
/// | 8 | the kept file has changed | `refused rotten 0 NAMED FOUND` |
/// | 8 | a lane came to its end, and its version isn't entered; the job stays kept | the lines of the job |
/// | 9 | only where the ports' count of faults rose; the job stays kept | nothing; in a lane the lines so far |
pub fn resume<V: Shelf, K: Sink, P: Ports>(
    alloc: Global,
    addresses: &[String],
    shelf: &mut V,
    sink: &mut K,
    ports: &mut P,
) -> u8
    requires some { 1 ≤ length addresses.now }
    requires many { length addresses.now ≤ 255 }
    ensures resumed { IsResumed result (record {
      addresses = length addresses.now;
      before = P.tells ports.old;
      after = P.tells ports.new;
      faults_before = P.faults ports.old;
      faults_after = P.faults ports.new;
      folder = V.cloud_at shelf.old 0;
      left = V.cloud_at shelf.new 0;
    })
        (output_of (K.written sink.old) (K.written sink.new) (K.faults sink.old) (K.faults sink.new)) }
    ensures others { IsTrue (P.tells ports.old).told → OnlyDialled (P.tells ports.old) (P.tells ports.new) }

    // Whatever came of it, want of memory too: nothing was sent but Hellos and the requests of the kept job, those of each lane on its
    // cloud's port, or pieces of them.
    ensures sends { IsTrue (P.tells ports.old).told → HasSentKept (record {
      addresses = length addresses.now;
      before = P.tells ports.old;
      after = P.tells ports.new;
      faults_before = P.faults ports.old;
      faults_after = P.faults ports.new;
      folder = V.cloud_at shelf.old 0;
      left = V.cloud_at shelf.new 0;
    }) }
    ensures told { (P.tells ports.new).told ≡ (P.tells ports.old).told }
    ensures later { P.faults ports.old ≤ P.faults ports.new }
    ensures call { IsCall (V.cloud_at shelf.old) (V.cloud_at shelf.new) 0 (V.faults shelf.old) (V.faults shelf.new) }
{
    let mut text = Bytes::new(alloc);
    let came = carry(alloc, addresses, shelf, ports, &mut text);
    write_end(alloc, sink, came, text)
}
