//! A deletion at the clouds at some addresses.

ghost use Rattle.std.specs.Prelude.{◌≡◌, ◌≤◌, [], length, IsTrue};
ghost use Rattle.deletions.specs.CdBase.Limits.{IsPath};
ghost use Rattle.ports_link.specs.Dialled.{OnlyDialled};
ghost use Rattle.delete_command.specs.Deleted.{OnlyDeletes};
ghost use Rattle.delete_command.specs.Steps.{CarriesDeletion, of_asked};

use crate::asking::{AskHalt, ask_each};
use deletions::{Bytes, NoMemory, ReplyBuf, UserId, Version, delete_request};
use ports_link::{AskedClouds, MeetErr, Ports, Refused, meet_all};
use std::alloc::Global;

/// Why a version wasn't deleted at all clouds.
#[derive(Clone, Copy)]
pub enum DeleteErr {
    /// An address couldn't be dialled.
    Undialled,
    /// The ports failed in a Hello.
    Unheard,
    /// A reply to Hello isn't as asked: the first such.
    Refused(Refused),
    /// The ports failed in an ask.
    Lost,
    /// Memory ran out.
    NoMemory,
}

// What came of the clouds that were met.
fn behind_hellos(came: Result<bool, AskHalt>) -> Result<bool, DeleteErr>
    ensures { result ≡ of_asked came }
{
    match came {
        Ok(gone) => Ok(gone),
        Err(AskHalt::Lost) => Err(DeleteErr::Lost),
        Err(AskHalt::NoMemory) => Err(DeleteErr::NoMemory),
    }
}

/// Deletes a version at the clouds at these addresses: meets them, one after another, and asks each the Delete. It answers
/// whether the version is gone at all of them; the text has the lines then, and where the ports failed in an ask those so
/// far.
pub fn carry<P: Ports>(
    alloc: Global,
    user: UserId,
    path: &[u8],
    version: Version,
    addresses: &[String],
    ports: &mut P,
    text: &mut Bytes,
) -> Result<bool, DeleteErr>
    requires path { IsPath path.now }
    requires some { 1 ≤ length addresses.now }
    requires many { length addresses.now ≤ 255 }
    requires empty { text.old ≡ [] }
    ensures carries { CarriesDeletion (record {
      user = user;
      path = path.now;
      version = version;
      addresses = length addresses.now;
      before = P.tells ports.old;
      after = P.tells ports.new;
      faults_before = P.faults ports.old;
      faults_after = P.faults ports.new;
    }) result text.new }
    ensures others { IsTrue (P.tells ports.old).told → OnlyDialled (P.tells ports.old) (P.tells ports.new) }
    ensures sends { IsTrue (P.tells ports.old).told
        → OnlyDeletes user path.now version (P.tells ports.old) (P.tells ports.new) }
    ensures told { (P.tells ports.new).told ≡ (P.tells ports.old).told }
    ensures later { P.faults ports.old ≤ P.faults ports.new }
{
    let mut reply = match ReplyBuf::make(alloc) {
        Ok(reply) => reply,
        Err(NoMemory) => return Err(DeleteErr::NoMemory),
    };
    let greeted = match meet_all(alloc, ports, AskedClouds::Backup, addresses, &mut reply) {
        Ok(greeted) => greeted,
        Err(MeetErr::Undialled) => return Err(DeleteErr::Undialled),
        Err(MeetErr::Refused(why)) => return Err(DeleteErr::Refused(why)),
        Err(MeetErr::Lost) => return Err(DeleteErr::Unheard),
        Err(MeetErr::NoMemory) => return Err(DeleteErr::NoMemory),
    };
    let request = match delete_request(alloc, greeted.shape, user, path, version) {
        Ok(request) => request,
        Err(NoMemory) => return Err(DeleteErr::NoMemory),
    };
    let lines = greeted.lines.as_slice();
    let came = ask_each(alloc, ports, lines, request.as_slice(), &mut reply, text);
    behind_hellos(came)
}
