//! Auditing a cloud in a directory, and checking a certificate of it.

ghost use Rattle.std.specs.Prelude.{◌≡◌};
ghost use Rattle.command_words.specs.Commands.{FitsCloud};
ghost use Rattle.command_words.specs.Views.{asked_cloud};
ghost use Rattle.spool_command.specs.BackupCommand.Reading.{input_of};
ghost use Rattle.spool_command.specs.BackupCommand.Writing.{output_of};
ghost use Rattle.cd_top.specs.Audit.{Audits, HasCheckedOrCause, clouds_of};

use audit_command::{audit_cloud, check_cloud};
use command_words::CloudWords;
use delete_command::{Failed, Shelf, Sink, Source};
use std::alloc::Global;

/// Reads all that the cloud in the directory lists, writes its certificate, and answers the status.
pub fn audit_in<K: Sink, V: Shelf>(
    alloc: Global,
    asked: &CloudWords<'_>,
    sink: &mut K,
    shelf: &mut V,
) -> u8
    requires { FitsCloud (asked_cloud asked.now) }
    ensures { Audits result (asked_cloud asked.now)
        (clouds_of (V.cloud_at shelf.old) (V.cloud_at shelf.new) (V.faults shelf.old) (V.faults shelf.new))
        (output_of (K.written sink.old) (K.written sink.new) (K.faults sink.old) (K.faults sink.new)) }
{
    match shelf.root(asked.directory) {
        Ok(()) => {}
        Err(Failed) => return 5,
    }
    audit_cloud(alloc, asked.shape, asked.cloud, sink, shelf)
}

/// Checks the source's certificate by the cloud in the directory, and all that it lists, writes what came of it, and answers the
/// status.
pub fn check_in<S: Source, K: Sink, V: Shelf>(
    alloc: Global,
    asked: &CloudWords<'_>,
    source: &mut S,
    sink: &mut K,
    shelf: &mut V,
) -> u8
    requires { FitsCloud (asked_cloud asked.now) }
    ensures { HasCheckedOrCause result (asked_cloud asked.now)
        (clouds_of (V.cloud_at shelf.old) (V.cloud_at shelf.new) (V.faults shelf.old) (V.faults shelf.new))
        (source.new ≡ source.old)
        (input_of (S.left source.old) (S.faults source.old) (S.faults source.new))
        (output_of (K.written sink.old) (K.written sink.new) (K.faults sink.old) (K.faults sink.new)) }
{
    match shelf.root(asked.directory) {
        Ok(()) => {}
        Err(Failed) => return 5,
    }
    check_cloud(alloc, asked.shape, asked.cloud, source, sink, shelf)
}
