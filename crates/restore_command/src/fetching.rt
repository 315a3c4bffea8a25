//! Fetching a file from addresses.

ghost use Rattle.std.specs.Prelude.{◌≡◌, ◌≤◌, [], length, IsTrue};
ghost use Rattle.ports_link.specs.CdBase.Limits.{IsPath};
ghost use Rattle.restore_command.specs.Calls.{RestoreDialsOnly, OnlyReads};
ghost use Rattle.restore_command.specs.Ends.{Fetches, IsErrOf};

use crate::greeted::restore_greeted;
use ports_link::{
    AskedClouds, Bytes, MeetErr, NoMemory, Ports, Refused, ReplyBuf, UserId, Version, meet_all,
};
use std::alloc::Global;
use subset_restore::{Refusal, RestoreErr, as_refusal};

/// Why no file was fetched.
#[derive(Clone, Copy)]
pub enum FetchErr {
    /// A reply to Hello isn't as asked: the first such.
    Hello(Refused),
    /// No k of the clouds gave the file: why the first k didn't.
    Refused(Refusal),
    /// The ports failed: in dialling, in asking Hello, or no k of the clouds gave the file and an ask of the first k was
    /// lost.
    Lost,
    /// Memory ran out.
    NoMemory,
}

// What an error of a restore is here.
fn fetch_err(error: RestoreErr) -> FetchErr
    ensures { IsErrOf error result }
{
    if let RestoreErr::Lost { .. } = error {
        return FetchErr::Lost;
    }
    match as_refusal(error) {
        Some(why) => FetchErr::Refused(why),
        None => FetchErr::NoMemory,
    }
}

/// Fetches a version of a file: meets the clouds at the addresses, one after another, and restores it from any k of them.
pub fn fetch<P: Ports>(
    alloc: Global,
    user: UserId,
    path: &[u8],
    version: Version,
    addresses: &[String],
    ports: &mut P,
    file: &mut Bytes,
) -> Result<(), FetchErr>
    requires path { IsPath path.now }
    requires some { 1 ≤ length addresses.now }
    requires few { length addresses.now ≤ 255 }
    requires empty { file.old ≡ [] }
    ensures fetches { Fetches (record {
      user = user;
      path = path.now;
      version = version;
      addresses = length addresses.now;
      before = P.tells ports.old;
      after = P.tells ports.new;
      faults_before = P.faults ports.old;
      faults_after = P.faults ports.new;
    }) result file.new }
    ensures others { IsTrue (P.tells ports.old).told → RestoreDialsOnly (P.tells ports.old) (P.tells ports.new) }
    ensures sends { IsTrue (P.tells ports.old).told → OnlyReads (P.tells ports.old) (P.tells ports.new) }
    ensures told { (P.tells ports.new).told ≡ (P.tells ports.old).told }
    ensures later { P.faults ports.old ≤ P.faults ports.new }
{
    let mut reply = match ReplyBuf::make(alloc) {
        Ok(reply) => reply,
        Err(NoMemory) => return Err(FetchErr::NoMemory),
    };
    let greeted = match meet_all(alloc, ports, AskedClouds::Restore, addresses, &mut reply) {
        Ok(greeted) => greeted,
        Err(MeetErr::Undialled) => return Err(FetchErr::Lost),
        Err(MeetErr::Refused(why)) => return Err(FetchErr::Hello(why)),
        Err(MeetErr::Lost) => return Err(FetchErr::Lost),
        Err(MeetErr::NoMemory) => return Err(FetchErr::NoMemory),
    };
    match restore_greeted(alloc, user, path, version, &greeted, ports, file) {
        Ok(()) => Ok(()),
        Err(error) => Err(fetch_err(error)),
    }
}
