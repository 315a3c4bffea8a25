//! Serving a cloud in a directory.

ghost use Rattle.std.specs.Prelude.{◌≡◌};
ghost use Rattle.command_words.specs.Commands.{FitsServe};
ghost use Rattle.command_words.specs.Views.{asked_serve};
ghost use Rattle.migrate_command.specs.ServeCommand.Served.{output_of};
ghost use Rattle.cd_top.specs.Serve.{HasServedOrCause, serving};

use command_words::ServeWords;
use delete_command::{Failed, Ports, Shelf, Sink};
use migrate_command::serve;
use std::alloc::Global;

/// Serves the cloud that is asked for in the directory, writes a line for each connection, and answers the status.
pub fn serve_in<K: Sink, V: Shelf, P: Ports>(
    alloc: Global,
    asked: &ServeWords<'_>,
    sink: &mut K,
    shelf: &mut V,
    ports: &mut P,
) -> u8
    requires { FitsServe (asked_serve asked.now) }
    ensures { HasServedOrCause result (serving (asked_serve asked.now)
        (output_of (K.written sink.old) (K.written sink.new) (K.faults sink.old) (K.faults sink.new))
        (V.cloud_at shelf.old) (V.cloud_at shelf.new) (V.faults shelf.old) (V.faults shelf.new)
        (P.tells ports.old) (P.tells ports.new) (P.faults ports.old) (P.faults ports.new)) }
{
    match shelf.root(asked.directory) {
        Ok(()) => {}
        Err(Failed) => return 5,
    }
    serve(
        alloc,
        asked.shape,
        asked.cloud,
        asked.address,
        asked.count,
        sink,
        shelf,
        ports,
    )
}
