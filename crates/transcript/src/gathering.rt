//! Writing plain text, and digits in pieces.

ghost use Rattle.std.specs.Prelude.{◌≡◌, ◌*◌, length};
ghost use Rattle.grammar.specs.Hexadecimal.{hex};
ghost use Rattle.transcript.specs.Packed.{packed_text};
ghost use Rattle.transcript.specs.Writing.{HasWrittenText};

use cd_edges::{Failed, Sink, write_all};

// How many bytes are spelled and written at a time.
const PIECE: usize = 32_768;

/// Writes these bytes, or a front of them where the sink fails.
pub fn put<K: Sink>(bytes: &[u8], sink: &mut K) -> Result<(), Failed>
    ensures { HasWrittenText bytes.now (K.written sink.old) (K.written sink.new) (K.faults sink.old) (K.faults sink.new)
        result }
{
    match write_all(sink, bytes) {
        Ok(()) => Ok(()),
        Err(_) => Err(Failed),
    }
}

// Spells a piece.
fn spell_piece(bytes: &[u8], digits: &mut [u8])
    requires { length digits.old ≡ 2 * length bytes.now }
    ensures { digits.new ≡ hex bytes.now }
{
    let _written = hex::encode_to_slice(bytes, digits);
}

// Spells a piece and writes it, or a front of it.
fn put_piece<K: Sink>(bytes: &[u8], digits: &mut [u8], sink: &mut K) -> Result<(), Failed>
    requires { length digits.old ≡ 2 * length bytes.now }
    ensures { HasWrittenText (hex bytes.now) (K.written sink.old) (K.written sink.new) (K.faults sink.old)
        (K.faults sink.new)
        result }
{
    spell_piece(bytes, digits);
    put(digits, sink)
}

// Writes the digits of all bytes, piece by piece, or a front of them.
fn put_digits<K: Sink>(bytes: &[u8], sink: &mut K) -> Result<(), Failed>
    ensures { HasWrittenText (hex bytes.now) (K.written sink.old) (K.written sink.new) (K.faults sink.old)
        (K.faults sink.new)
        result }
{
    let mut digits = [0; 2 * PIECE];
    let mut rest = bytes;
    while !rest.is_empty() {
        let n = rest.len().min(PIECE);
        let (piece, more) = rest.split_at(n);
        match put_piece(piece, &mut digits[..2 * n], sink) {
            Ok(()) => {}
            Err(Failed) => return Err(Failed),
        }
        rest = more;
    }
    Ok(())
}

/// Writes what a packed file stands for, or a front of it.
pub fn put_packed<K: Sink>(file: &[u8], sink: &mut K) -> Result<(), Failed>
    ensures { HasWrittenText (packed_text file.now) (K.written sink.old) (K.written sink.new) (K.faults sink.old)
        (K.faults sink.new) result }
{
    if file.is_empty() {
        return Ok(());
    }
    match put_digits(file, sink) {
        Ok(()) => put(b"\n", sink),
        Err(Failed) => Err(Failed),
    }
}
