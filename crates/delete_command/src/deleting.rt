//! The command.

ghost use Rattle.std.specs.Prelude.{◌≡◌, ◌≤◌, ◌⊎◌, length, IsTrue, if◌then◌else◌};
ghost use Rattle.deletions.specs.CdBase.Limits.{IsPath};
ghost use Rattle.ports_link.specs.Dialled.{OnlyDialled};
ghost use Rattle.delete_command.specs.Deleted.{IsDeleted, OnlyDeletes};
ghost use Rattle.delete_command.specs.Writing.{output_of};

use crate::carrying::{DeleteErr, carry};
use crate::writing::{write_hello, write_text};
use deletions::{Bytes, UserId, Version};
use ports_link::{Ports, Sink};
use std::alloc::Global;

// The status where each cloud replied.
fn status_of(gone: bool) -> u8
    ensures { result ≡ (if gone then 0 else 8) }
{
    if gone { 0 } else { 8 }
}

/// Deletes a version of a user's file at the clouds at these addresses, all of a store and in the order of the clouds,
/// writes what each replied, and answers the status.
///
/// Each address is dialled, in order, and asked Hello before the next is dialled, and each reply is looked at as it
/// comes: they have to be the clouds of one shape of which n is the number of addresses, each at the address of its
/// number. The first that isn't so is the last that is dialled. Then each cloud is asked, in order, to delete the
/// version of the path's tag, the next when the reply of the one before has come, whatever it is. The lines are written
/// at the end, all at once.
///
/// | Status | Comes | Written |
/// |---|---|---|
/// | 0 | each cloud replied that the version is deleted or missing | the lines |
/// | 4 | only where the sink's count of faults rose | a front of what was due |
/// | 6 | memory ran out | nothing |
/// | 8 | a reply to Hello isn't as asked | `refused hello POSITION N K CLOUD`, or `refused strange POSITION KIND` |
/// | 8 | each cloud replied, one of them something else | the lines |
/// | 9 | only where the ports' count of faults rose | nothing; in an ask the lines of the replies before |
///
/// The lines are, for each reply, `deleted C`, `missing C`, `full C ROOM USED NEED LIMIT`, `fault C`, `damaged C AT BYTE`,
/// `rotten C NAMED FOUND`, `nomemory C`, or `strange C KIND` where no server that keeps to the rules replies so to a Delete
/// (KIND is the first byte of what came, or 0 where no whole reply came). After status 4, 6 and 9 clouds may have deleted
/// the version: the same deletion again goes on from there, and finds it missing at them.
pub fn delete<K: Sink, P: Ports>(
    alloc: Global,
    user: UserId,
    path: &[u8],
    version: Version,
    addresses: &[String],
    sink: &mut K,
    ports: &mut P,
) -> u8
    requires path { IsPath path.now }
    requires some { 1 ≤ length addresses.now }
    requires many { length addresses.now ≤ 255 }

    // What was sent, received and written, by the way it ended.
    ensures deleted { IsDeleted result (record {
      user = user;
      path = path.now;
      version = version;
      addresses = length addresses.now;
      before = P.tells ports.old;
      after = P.tells ports.new;
      faults_before = P.faults ports.old;
      faults_after = P.faults ports.new;
    }) (output_of (K.written sink.old) (K.written sink.new) (K.faults sink.old) (K.faults sink.new)) }

    // Every port but those that were dialled is as it was.
    ensures others { IsTrue (P.tells ports.old).told → OnlyDialled (P.tells ports.old) (P.tells ports.new) }

    // Nothing but Hellos and Deletes of this version was sent, or pieces of them, whatever came, want of memory too.
    ensures sends { IsTrue (P.tells ports.old).told
        → OnlyDeletes user path.now version (P.tells ports.old) (P.tells ports.new) }
    ensures told { (P.tells ports.new).told ≡ (P.tells ports.old).told }
    ensures later { P.faults ports.old ≤ P.faults ports.new }
    ensures numbers { (result ≡ 0) ⊎ (result ≡ 4) ⊎ (result ≡ 6) ⊎ (result ≡ 8) ⊎ (result ≡ 9) }
{
    let mut text = Bytes::new(alloc);
    match carry(alloc, user, path, version, addresses, ports, &mut text) {
        Ok(gone) => write_text(sink, text.as_slice(), status_of(gone)),
        Err(DeleteErr::Refused(why)) => write_hello(alloc, sink, &why),
        Err(DeleteErr::Lost) => write_text(sink, text.as_slice(), 9),
        Err(DeleteErr::Undialled) => 9,
        Err(DeleteErr::Unheard) => 9,
        Err(DeleteErr::NoMemory) => 6,
    }
}
