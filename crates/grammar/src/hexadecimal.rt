//! Bytes as text, two digits a byte in lower case.

ghost use Rattle.std.specs.Prelude.{◌≡◌, ◌<◌, ◌*◌, ◌++◌, length, Some, None, OnOk, OnErr, IfOk, IsTrue, is_some, take, false};
ghost use Rattle.grammar.specs.Hexadecimal.{hex, unhex, unhex_digit};

use crate::{after, before};
use cd_base::{Bytes, NoMemory};
use std::alloc::Global;

// How many bytes are decoded or encoded at a time.
const BLOCK: usize = 4096;

// Whether a byte is a digit in lower case. It has no branch, so that a block is looked at in lanes.
fn is_digit(c: u8) -> bool
    ensures { result ≡ is_some (unhex_digit c) }
{
    let digit = c.wrapping_sub(48) < 10;
    let letter = c.wrapping_sub(97) < 6;
    digit | letter
}

// Decodes a block of text into as many bytes as it spells. True where all of it is digits in lower case. `hex` reads
// those in upper case too, so each byte is looked at first.
fn decode_block(text: &[u8], out: &mut [u8]) -> bool
    requires { length text.now ≡ 2 * length out.old }
    ensures good { IsTrue result → unhex text.now ≡ Some out.new }
    ensures bad { result ≡ false → unhex text.now ≡ None }
{
    let mut digits = true;
    for i in 0..text.len() {
        digits &= is_digit(text[i]);
    }
    digits && hex::decode_to_slice(text, out).is_ok()
}

/// The bytes that a text spells, two digits a byte in lower case; None where the text is another.
pub fn decode(alloc: Global, text: &[u8]) -> Result<Option<Bytes>, NoMemory>
    ensures { IfOk result (λ bytes. bytes ≡ unhex text.now) }
{
    let mut bytes = Bytes::with_capacity(alloc, text.len() / 2)?;
    let mut block = [0; BLOCK];
    let mut rest = text;
    while rest.len() >= 2 {
        let n = (rest.len() / 2).min(BLOCK);
        let (front, more) = rest.split_at(2 * n);
        if !decode_block(front, &mut block[..n]) {
            return Ok(None);
        }
        bytes.extend(&block[..n])?;
        rest = more;
    }
    if rest.is_empty() {
        Ok(Some(bytes))
    } else {
        Ok(None)
    }
}

// Encodes a block of bytes.
fn encode_block(bytes: &[u8], out: &mut [u8])
    requires { length out.old ≡ 2 * length bytes.now }
    ensures { out.new ≡ hex bytes.now }
{
    let _written = hex::encode_to_slice(bytes, out);
}

fn encode_blocks(bytes: &[u8], out: &mut Bytes) -> Result<(), NoMemory>
    ensures ok { OnOk result (out.new ≡ out.old ++ hex bytes.now) }
    ensures err { OnErr result (take (length out.old) out.new ≡ out.old) }
{
    let mut block = [0; 2 * BLOCK];
    let mut rest = bytes;
    while !rest.is_empty() {
        let n = rest.len().min(BLOCK);
        let (front, more) = rest.split_at(n);
        encode_block(front, &mut block[..2 * n]);
        out.extend(&block[..2 * n])?;
        rest = more;
    }
    Ok(())
}

/// Appends the text of bytes, two digits a byte in lower case. For want of memory nothing changes.
pub fn encode(bytes: &[u8], out: &mut Bytes) -> Result<(), NoMemory>
    ensures ok { OnOk result (out.new ≡ out.old ++ hex bytes.now) }
    ensures err { OnErr result (out.new ≡ out.old) }
{
    let len = out.len();
    let done = encode_blocks(bytes, out);
    if done.is_err() {
        out.truncate(len);
    }
    done
}
