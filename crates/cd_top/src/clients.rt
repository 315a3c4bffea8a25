//! Backing up to clouds behind addresses, restoring from them, and deleting there.

ghost use Rattle.std.specs.Prelude.{◌≡◌};
ghost use Rattle.command_words.specs.Commands.{FitsFile};
ghost use Rattle.command_words.specs.Views.{asked_backup, asked_delete, asked_restore};
ghost use Rattle.spool_command.specs.BackupCommand.Reading.{input_of};
ghost use Rattle.spool_command.specs.BackupCommand.Writing.{output_of};
ghost use Rattle.delete_command.specs.Writing.{output_of as deletion_of};
ghost use Rattle.cd_top.specs.Clients.{BacksUp, HasDeletedOrCause, HasRestoredOrCause, lines_of};

use command_words::{BackupWords, DeleteWords, RestoreWords};
use delete_command::{Ports, Sink, Source, delete};
use restore_command::restore;
use spool_command::backup;
use std::alloc::Global;

/// Backs the source's bytes up as the version that is asked for, to the clouds behind the addresses, and answers the
/// status.
pub fn backup_to<S: Source, K: Sink, P: Ports>(
    alloc: Global,
    asked: &BackupWords<'_>,
    source: &mut S,
    sink: &mut K,
    ports: &mut P,
) -> u8
    requires { FitsFile 3 (asked_backup asked.now) }
    ensures { BacksUp result (asked_backup asked.now)
        (lines_of (P.tells ports.old) (P.tells ports.new) (P.faults ports.old) (P.faults ports.new))
        (input_of (S.left source.old) (S.faults source.old) (S.faults source.new))
        (output_of (K.written sink.old) (K.written sink.new) (K.faults sink.old) (K.faults sink.new)) }
{
    backup(
        alloc,
        asked.user,
        asked.path,
        asked.version,
        asked.addresses,
        source,
        sink,
        ports,
    )
}

/// Restores the version that is asked for from the clouds behind the addresses, writes its bytes or why there are none,
/// and answers the status.
pub fn restore_from<K: Sink, P: Ports>(
    alloc: Global,
    asked: &RestoreWords<'_>,
    sink: &mut K,
    ports: &mut P,
) -> u8
    requires { FitsFile 2 (asked_restore asked.now) }
    ensures { HasRestoredOrCause result (asked_restore asked.now)
        (lines_of (P.tells ports.old) (P.tells ports.new) (P.faults ports.old) (P.faults ports.new))
        (K.written sink.old) (K.written sink.new) (K.faults sink.old) (K.faults sink.new) }
{
    restore(
        alloc,
        asked.user,
        asked.path,
        asked.version,
        asked.addresses,
        sink,
        ports,
    )
}

/// Deletes the version that is asked for at the clouds behind the addresses, writes what each replied, and answers the
/// status.
pub fn delete_at<K: Sink, P: Ports>(
    alloc: Global,
    asked: &DeleteWords<'_>,
    sink: &mut K,
    ports: &mut P,
) -> u8
    requires { FitsFile 3 (asked_delete asked.now) }
    ensures { HasDeletedOrCause result (asked_delete asked.now)
        (lines_of (P.tells ports.old) (P.tells ports.new) (P.faults ports.old) (P.faults ports.new))
        (deletion_of (K.written sink.old) (K.written sink.new) (K.faults sink.old) (K.faults sink.new)) }
{
    delete(
        alloc,
        asked.user,
        asked.path,
        asked.version,
        asked.addresses,
        sink,
        ports,
    )
}
