//! The command.

ghost use Rattle.std.specs.Prelude.{◌≡◌, ◌≤◌, ◌⊎◌, length, IsTrue};
ghost use Rattle.ports_link.specs.CdBase.Limits.{IsPath};
ghost use Rattle.restore_command.specs.Calls.{RestoreDialsOnly, OnlyReads};
ghost use Rattle.restore_command.specs.Ends.{IsFetched};

use crate::fetching::{FetchErr, fetch};
use crate::writing::{write_hello, write_refusal, write_text};
use ports_link::{Bytes, Ports, Sink, UserId, Version};
use std::alloc::Global;

/// Restores a version of a user's file from the clouds at these addresses, as many as give a file back or more and in
/// the order of the clouds, writes its bytes, and answers the status.
///
/// Each address is dialled, in order, and asked Hello before the next is dialled, and each reply is looked at as it
/// comes: they have to be clouds of one shape of which k is at most the number of addresses, and to rise. The first that
/// isn't so is the last that is dialled. Then the version is restored into memory, from any k of them as
/// `subset_restore::restore_any` does it, and written.
///
/// | Status | Comes | Written |
/// |---|---|---|
/// | 0 | the file was restored | its bytes |
/// | 4 | only where the sink's count of faults rose | a front of the bytes or of the line |
/// | 6 | memory ran out | nothing |
/// | 8 | a reply isn't as asked for Hello: the first such | `refused hello POSITION N K CLOUD` |
/// | 8 | a reply is no Hello: the first such | `refused strange POSITION KIND` |
/// | 8 | no k clouds give the file | the line that says why the first k don't |
/// | 9 | only where the ports' count of faults rose | nothing |
///
/// Past the Hellos an ask that is lost ends it with 9 only where no k clouds give the file and it was an ask of the
/// first k, so that it is their refusal.
///
/// POSITION counts the addresses from 0; N, K and CLOUD are the reply's; KIND is the first byte of a reply that is no
/// Hello, or 0 where no whole one came.
pub fn restore<K: Sink, P: Ports>(
    alloc: Global,
    user: UserId,
    path: &[u8],
    version: Version,
    addresses: &[String],
    sink: &mut K,
    ports: &mut P,
) -> u8
    requires path { IsPath path.now }
    requires some { 1 ≤ length addresses.now }
    requires few { length addresses.now ≤ 255 }

    // What was written, and the status: a file that was fetched from these clouds, the line of a refusal, a front of
    // these, or nothing. Where the ports tell their bytes, what was sent and what came on them is said whole.
    ensures fetched { IsFetched result (record {
      user = user;
      path = path.now;
      version = version;
      addresses = length addresses.now;
      before = P.tells ports.old;
      after = P.tells ports.new;
      faults_before = P.faults ports.old;
      faults_after = P.faults ports.new;
    }) (K.written sink.old) (K.written sink.new) (K.faults sink.old) (K.faults sink.new) }

    // Every port but those that were dialled is as it was.
    ensures others { IsTrue (P.tells ports.old).told → RestoreDialsOnly (P.tells ports.old) (P.tells ports.new) }

    // Nothing but Hellos and requests that add nothing was sent, or pieces of them, whatever came, want of memory too.
    ensures sends { IsTrue (P.tells ports.old).told → OnlyReads (P.tells ports.old) (P.tells ports.new) }
    ensures told { (P.tells ports.new).told ≡ (P.tells ports.old).told }
    ensures later { P.faults ports.old ≤ P.faults ports.new }
    ensures numbers { (result ≡ 0) ⊎ (result ≡ 4) ⊎ (result ≡ 6) ⊎ (result ≡ 8) ⊎ (result ≡ 9) }
{
    let mut file = Bytes::new(alloc);
    match fetch(alloc, user, path, version, addresses, ports, &mut file) {
        Ok(()) => write_text(sink, file.as_slice(), 0),
        Err(FetchErr::Hello(refused)) => write_hello(alloc, sink, &refused),
        Err(FetchErr::Refused(why)) => write_refusal(alloc, sink, why),
        Err(FetchErr::Lost) => 9,
        Err(FetchErr::NoMemory) => 6,
    }
}
