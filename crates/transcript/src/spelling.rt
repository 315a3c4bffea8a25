//! A packed file, spelled behind the plain text.

ghost use Rattle.std.specs.Prelude.{◌≡◌, ◌++◌, ◌∷◌, [], length, take, OnOk, OnErr};
ghost use Rattle.grammar.specs.Hexadecimal.{hex};
ghost use Rattle.transcript.specs.Packed.{packed_text};

use grammar::{Bytes, NoMemory, encode};

// Appends digits and a newline. For want of memory a part of them may stand there.
fn put_digits(file: &[u8], plain: &mut Bytes) -> Result<(), NoMemory>
    ensures ok { OnOk result (plain.new ≡ plain.old ++ hex file.now ++ 10 ∷ []) }
    ensures err { OnErr result (take (length plain.old) plain.new ≡ plain.old) }
{
    encode(file, plain)?;
    plain.push(b'\n')
}

/// Spells what is packed behind the plain text, so that nothing is packed any more. For want of memory nothing changes.
pub fn spell(plain: &mut Bytes, packed: &mut Bytes) -> Result<(), NoMemory>
    ensures ok { OnOk result ((plain.new ≡ plain.old ++ packed_text packed.old) × (packed.new ≡ [])) }
    ensures err { OnErr result ((plain.new ≡ plain.old) × (packed.new ≡ packed.old)) }
{
    if packed.is_empty() {
        return Ok(());
    }
    let len = plain.len();
    match put_digits(packed.as_slice(), plain) {
        Ok(()) => {
            packed.clear();
            Ok(())
        }
        Err(NoMemory) => {
            plain.truncate(len);
            Err(NoMemory)
        }
    }
}
