//! The command.

ghost use Rattle.std.specs.Prelude.{◌≡◌, ◌≤◌, ◌⊎◌, length, IsTrue, if◌then◌else◌};
ghost use Rattle.transcript.specs.CdBase.Limits.{IsPath};
ghost use Rattle.backup_command.specs.BackedUp.{IsBackedUp, BackupDialsOnly};
ghost use Rattle.backup_command.specs.Reading.{input_of};
ghost use Rattle.backup_command.specs.Sends.{HasSentOwn};
ghost use Rattle.backup_command.specs.Writing.{output_of};

use crate::carrying::{BackupErr, carry};
use crate::reading::{FileReadErr, read_file};
use crate::writing::{write_hello, write_text, write_too_long};
use std::alloc::Global;
use transcript::{Bytes, Ports, Sink, Source, UserId, Version};

// The status of a job whose lanes came to their ends.
fn status_of(stored: bool) -> u8
    ensures { result ≡ (if stored then 0 else 8) }
{
    if stored { 0 } else { 8 }
}

/// Backs a version of a user's file up to the clouds at these addresses, all of a store and in the order of the clouds,
/// writes what came of it, and answers the status.
///
/// The source is read to its end, into memory. Then each address is dialled, in order, and asked Hello before the next
/// is dialled, and each reply is looked at as it comes: they have to be the clouds of one shape of which n is the number
/// of addresses, each at the address of its number. The first that isn't so is the last that is dialled. Then a job is
/// made of the bytes, and its lanes are brought to their ends, one after another. The lines are written at the end, all
/// at once.
///
/// | Status | Comes | Written |
/// |---|---|---|
/// | 0 | the version is entered at every cloud | the lines of the job |
/// | 2 | the source has more than 67,108,864 bytes | `script 1 67108864 BYTE` |
/// | 3 | only where the source's count of faults rose | nothing |
/// | 4 | only where the sink's count of faults rose | a front of what was due |
/// | 6 | memory ran out | nothing |
/// | 8 | a reply to Hello isn't as asked | `refused hello POSITION N K CLOUD`, or `refused strange POSITION KIND` |
/// | 8 | a lane came to its end, and its version isn't entered | the lines of the job |
/// | 9 | only where the ports' count of faults rose | nothing; in a lane `job 1` and the lines of the replies so far |
///
/// The lines of the job are `job 1`, for each reply `step 1 CLOUD ..`, and `stored 1` with `end 1 stored`, or
/// `end 1 open`. After status 6 and 9 clouds may have taken the version, or parts of it: the same backup again goes on
/// from there: a cloud that has entered the version with this recipe answers `committed` again.
pub fn backup<S: Source, K: Sink, P: Ports>(
    alloc: Global,
    user: UserId,
    path: &[u8],
    version: Version,
    addresses: &[String],
    source: &mut S,
    sink: &mut K,
    ports: &mut P,
) -> u8
    requires path { IsPath path.now }
    requires some { 1 ≤ length addresses.now }
    requires many { length addresses.now ≤ 255 }

    // What was read, sent, received and written, by the way it ended.
    ensures backed_up { IsBackedUp result (record {
      user = user;
      path = path.now;
      version = version;
      addresses = length addresses.now;
      before = P.tells ports.old;
      after = P.tells ports.new;
      faults_before = P.faults ports.old;
      faults_after = P.faults ports.new;
    }) (input_of (S.left source.old) (S.faults source.old) (S.faults source.new))
        (output_of (K.written sink.old) (K.written sink.new) (K.faults sink.old) (K.faults sink.new)) }

    // Ports that were open before are as they were.
    ensures others { IsTrue (P.tells ports.old).told → BackupDialsOnly (P.tells ports.old) (P.tells ports.new) }

    // Whatever came of it, want of memory too: nothing was sent but Hellos and the requests of the job of the source's bytes, those of
    // each lane on its cloud's port, or pieces of them.
    ensures sends { IsTrue (P.tells ports.old).told → HasSentOwn (record {
      user = user;
      path = path.now;
      version = version;
      addresses = length addresses.now;
      before = P.tells ports.old;
      after = P.tells ports.new;
      faults_before = P.faults ports.old;
      faults_after = P.faults ports.new;
    }) (input_of (S.left source.old) (S.faults source.old) (S.faults source.new)) }
    ensures told { (P.tells ports.new).told ≡ (P.tells ports.old).told }
    ensures later { P.faults ports.old ≤ P.faults ports.new }
    ensures numbers { (result ≡ 0) ⊎ (result ≡ 2) ⊎ (result ≡ 3) ⊎ (result ≡ 4) ⊎ (result ≡ 6) ⊎ (result ≡ 8)
        ⊎ (result ≡ 9) }
{
    let file = match read_file(alloc, source) {
        Ok(file) => file,
        Err(FileReadErr::Failed) => return 3,
        Err(FileReadErr::TooLong { byte }) => return write_too_long(alloc, sink, byte),
        Err(FileReadErr::NoMemory) => return 6,
    };
    let mut text = Bytes::new(alloc);
    match carry(
        alloc, user, path, version, addresses, file, ports, &mut text,
    ) {
        Ok(stored) => write_text(sink, text.as_slice(), status_of(stored)),
        Err(BackupErr::Refused(why)) => write_hello(alloc, sink, &why),
        Err(BackupErr::Lost) => write_text(sink, text.as_slice(), 9),
        Err(BackupErr::Undialled) => 9,
        Err(BackupErr::Unheard) => 9,
        Err(BackupErr::NoMemory) => 6,
    }
}
