//! Backing up with a job that is kept in a directory, and going on with it.

ghost use Rattle.std.specs.Prelude.{◌≡◌};
ghost use Rattle.command_words.specs.Commands.{FitsFile, FitsResume};
ghost use Rattle.command_words.specs.Views.{asked_backup, asked_resume, asked_spool};
ghost use Rattle.spool_command.specs.BackupCommand.Reading.{input_of};
ghost use Rattle.spool_command.specs.BackupCommand.Writing.{output_of};
ghost use Rattle.cd_top.specs.Clients.{lines_of};
ghost use Rattle.cd_top.specs.Spool.{Resumes, Spools, beside};

use command_words::{ResumeWords, SpoolWords};
use delete_command::{Failed, Ports, Shelf, Sink, Source};
use spool_command::{SpooledFile, resume, spool};
use std::alloc::Global;

/// Backs the source's bytes up as the version that is asked for, to the clouds behind the addresses, keeps the job in the
/// directory until each has it, and answers the status.
pub fn spool_in<S: Source, K: Sink, V: Shelf, P: Ports>(
    alloc: Global,
    asked: &SpoolWords<'_>,
    source: &mut S,
    sink: &mut K,
    shelf: &mut V,
    ports: &mut P,
) -> u8
    requires { FitsFile 3 (asked_backup asked.now.file) }
    ensures { Spools result (asked_spool asked.now)
        (beside (V.cloud_at shelf.old) (V.cloud_at shelf.new) (V.faults shelf.old) (V.faults shelf.new)
        (lines_of (P.tells ports.old) (P.tells ports.new) (P.faults ports.old) (P.faults ports.new)))
        (source.new ≡ source.old)
        (input_of (S.left source.old) (S.faults source.old) (S.faults source.new))
        (output_of (K.written sink.old) (K.written sink.new) (K.faults sink.old) (K.faults sink.new)) }
{
    match shelf.root(asked.directory) {
        Ok(()) => {}
        Err(Failed) => return 5,
    }
    let file = SpooledFile {
        user: asked.file.user,
        path: asked.file.path,
        version: asked.file.version,
    };
    spool(
        alloc,
        file,
        asked.file.addresses,
        shelf,
        source,
        sink,
        ports,
    )
}

/// Goes on with the job that is kept in the directory, at the clouds behind the addresses, and answers the status.
pub fn resume_in<K: Sink, V: Shelf, P: Ports>(
    alloc: Global,
    asked: &ResumeWords<'_>,
    sink: &mut K,
    shelf: &mut V,
    ports: &mut P,
) -> u8
    requires { FitsResume (asked_resume asked.now) }
    ensures { Resumes result (asked_resume asked.now)
        (beside (V.cloud_at shelf.old) (V.cloud_at shelf.new) (V.faults shelf.old) (V.faults shelf.new)
        (lines_of (P.tells ports.old) (P.tells ports.new) (P.faults ports.old) (P.faults ports.new)))
        (output_of (K.written sink.old) (K.written sink.new) (K.faults sink.old) (K.faults sink.new)) }
{
    match shelf.root(asked.directory) {
        Ok(()) => {}
        Err(Failed) => return 5,
    }
    resume(alloc, asked.addresses, shelf, sink, ports)
}
