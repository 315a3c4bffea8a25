//! Giving back the dead space of a cloud in a directory.

ghost use Rattle.command_words.specs.Commands.{FitsCloud};
ghost use Rattle.command_words.specs.Views.{asked_cloud};
ghost use Rattle.spool_command.specs.BackupCommand.Writing.{output_of};
ghost use Rattle.cd_top.specs.Audit.{clouds_of};
ghost use Rattle.cd_top.specs.Reclaim.{HasReclaimedOrCause};

use command_words::CloudWords;
use delete_command::{Failed, Shelf, Sink};
use reclaim_command::reclaim_cloud;
use std::alloc::Global;

/// Gives back the dead space of the cloud in the directory, writes what came of it, and answers the status.
pub fn reclaim_in<K: Sink, V: Shelf>(
    alloc: Global,
    asked: &CloudWords<'_>,
    sink: &mut K,
    shelf: &mut V,
) -> u8
    requires { FitsCloud (asked_cloud asked.now) }
    ensures { HasReclaimedOrCause result (asked_cloud asked.now)
        (clouds_of (V.cloud_at shelf.old) (V.cloud_at shelf.new) (V.faults shelf.old) (V.faults shelf.new))
        (output_of (K.written sink.old) (K.written sink.new) (K.faults sink.old) (K.faults sink.new)) }
{
    match shelf.root(asked.directory) {
        Ok(()) => {}
        Err(Failed) => return 5,
    }
    reclaim_cloud(alloc, asked.shape, asked.cloud, sink, shelf)
}
