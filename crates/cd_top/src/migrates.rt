//! Taking a cloud in a directory over from the earlier format into the present one.

ghost use Rattle.command_words.specs.Commands.{FitsMigrate};
ghost use Rattle.command_words.specs.Views.{asked_migrate};
ghost use Rattle.spool_command.specs.BackupCommand.Writing.{output_of};
ghost use Rattle.cd_top.specs.Audit.{clouds_of};
ghost use Rattle.cd_top.specs.Migrate.{HasMigratedOrCause};

use command_words::MigrateWords;
use delete_command::{Failed, Shelf, Sink};
use migrate_command::migrate_cloud;
use std::alloc::Global;

/// Takes the cloud in the directory over into the present format, writes what came of it, and answers the status.
pub fn migrate_in<K: Sink, V: Shelf>(
    alloc: Global,
    asked: &MigrateWords<'_>,
    sink: &mut K,
    shelf: &mut V,
) -> u8
    requires { FitsMigrate (asked_migrate asked.now) }
    ensures { HasMigratedOrCause result (asked_migrate asked.now)
        (clouds_of (V.cloud_at shelf.old) (V.cloud_at shelf.new) (V.faults shelf.old) (V.faults shelf.new))
        (output_of (K.written sink.old) (K.written sink.new) (K.faults sink.old) (K.faults sink.new)) }
{
    match shelf.root(asked.place.directory) {
        Ok(()) => {}
        Err(Failed) => return 5,
    }
    migrate_cloud(
        alloc,
        asked.place.shape,
        asked.place.cloud,
        asked.rooms,
        sink,
        shelf,
    )
}
