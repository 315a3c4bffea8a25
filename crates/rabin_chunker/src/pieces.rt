//! A whole input that comes in pieces.
ghost use Rattle.std.specs.Prelude.{◌≡◌, ◌^◌, ◌<◌, ◌++◌, [], length, OnOk, OnErr, IsOk};
ghost use Rattle.std.specs.List.{concat};
ghost use Rattle.rabin_chunker.specs.Cuts.{ends};

use crate::chunker::Chunker;
use cd_base::{Bytes, Ends, NoMemory};

/// Appends the ends of all secrets of an input of fewer than 2^64 bytes that comes in these pieces. They are those of the
/// pieces in a row, wherever one ends and the next begins.
///
/// For want of memory (`NoMemory`) nothing changes. Where there are no bytes, no memory is asked for.
pub fn cut_pieces(pieces: &[Bytes], cuts: &mut Ends) -> Result<(), NoMemory>
    requires { length (concat pieces.now) < 2 ^ 64 }
    ensures ok { OnOk result (cuts.new ≡ cuts.old ++ ends (concat pieces.now)) }
    ensures err { OnErr result (cuts.new ≡ cuts.old) }
    ensures quiet { concat pieces.now ≡ [] → IsOk result }
{
    let had = cuts.len();
    let mut chunker = Chunker::new();
    for piece in pieces {
        if chunker.feed(piece.as_slice(), cuts).is_err() {
            cuts.truncate(had);
            return Err(NoMemory);
        }
    }
    if chunker.finish(cuts).is_err() {
        cuts.truncate(had);
        return Err(NoMemory);
    }
    Ok(())
}
