//! Making a generated session over clouds in a directory.

ghost use Rattle.std.specs.Prelude.{◌≡◌};
ghost use Rattle.command_words.specs.Commands.{FitsSession};
ghost use Rattle.command_words.specs.Views.{asked_session};
ghost use Rattle.cd_top.specs.Generate.{IsGenerated};
ghost use Rattle.cd_top.specs.Read.{around_call};

use crate::ending::finish;
use command_words::GenerateWords;
use delete_command::{Failed, Shelf, Sink};
use generated_session::generate;
use std::alloc::Global;

/// Makes the session that is asked for over the four clouds in the directory, which are to be empty, writes its summary or
/// why there is none, and answers the status.
pub fn generate_in<K: Sink, V: Shelf>(
    alloc: Global,
    asked: &GenerateWords<'_>,
    sink: &mut K,
    shelf: &mut V,
) -> u8
    requires { FitsSession (asked_session asked.now) }
    ensures { IsGenerated result
        (around_call (K.faults sink.old) (K.faults sink.new) (V.faults shelf.old) (V.faults shelf.new)
        (V.cloud_at shelf.old) (V.cloud_at shelf.new)) (asked_session asked.now)
        (K.written sink.old) (K.written sink.new) }
{
    match shelf.root(asked.directory) {
        Ok(()) => {}
        Err(Failed) => return 5,
    }
    let end = generate(alloc, asked.seed, asked.files, asked.pieces, sink, shelf);
    finish(alloc, &end, sink)
}
