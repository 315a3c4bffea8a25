//! The front of a long line, of which the digits are held as the bytes that they spell.

ghost use Rattle.std.specs.Prelude.{◌≡◌, ◌*◌, ◌++◌, ◌≤◌, [], length, take, Some, IfOk, OnErr, IsTrue, false};
ghost use Rattle.journal_start.specs.Grammar.Hexadecimal.{hex, unhex};
ghost use Rattle.session.specs.Front.{BeginsAsUpload, IsUploading, not_upper};
ghost use Rattle.session.specs.Spelling.{AreLineBytes};

use journal_start::{Bytes, NoMemory, after, before, encode};
use memchr::memrchr;
use std::alloc::Global;
use std::marker::Model;

// How many bytes are ahead, at the least, where some of them are taken.
const LONG: usize = 65_536;

// How many bytes are made of digits at a time.
const BLOCK: usize = 4096;

/// The front of a long line that begins as an upload does: its text up to its last word, and the bytes that the front of
/// this word spells. It is empty where a line is short, or another one.
#[derive(Drop)]
pub struct Front {
    head: Bytes,
    packed: Bytes,
    ended: bool,
}

impl Model for Front {
    ghost use Rattle.std.specs.Prelude.{ℕ, List, ◌++◌};
    ghost use Rattle.journal_start.specs.Grammar.Hexadecimal.{hex};
    ghost use Rattle.session.specs.Front.{BeginsAsUpload};
    ghost use Rattle.session.specs.Spelling.{AreLineBytes};

    ghost Value = { List ℕ };

    ghost view = { λ f. f.head ++ hex f.packed };

    ghost invariant = { λ f. BeginsAsUpload f.head f.packed × AreLineBytes f.packed };
}

impl Front {
    /// An empty front. It takes no memory.
    pub fn new(alloc: Global) -> Front
        ensures { result ≡ [] }
    {
        Front {
            head: Bytes::new(alloc),
            packed: Bytes::new(alloc),
            ended: false,
        }
    }

    /// Whether the front is empty.
    pub fn is_empty(&self) -> bool
        ensures empty { IsTrue result → self.now ≡ [] }
        ensures some { result ≡ false → IsUploading self.now }
    {
        self.head.is_empty()
    }

    /// Takes bytes from the front of those ahead, and answers how many. None are taken of fewer than 64 KiB, nor any more
    /// where those ahead aren't digits alone.
    pub fn take(&mut self, ahead: &[u8]) -> Result<usize, NoMemory>
        ensures within { IfOk result (λ n. n ≤ length ahead.now) }
        ensures taken { IfOk result (λ n. self.new ≡ self.old ++ take n ahead.now) }
    {
        if self.ended || ahead.len() < LONG {
            return Ok(0);
        }
        if self.head.is_empty() {
            let len = take_head(ahead, &mut self.head)?;
            self.ended = len == 0;
            return Ok(len);
        }
        let len = pack(ahead, &mut self.packed)?;
        self.ended = len == 0;
        Ok(len)
    }

    /// The text of the front and of what stands behind it.
    pub fn spell(&self, alloc: Global, tail: &[u8]) -> Result<Bytes, NoMemory>
        ensures { IfOk result (λ text. text ≡ self.now ++ tail.now) }
    {
        spell(alloc, self.head.as_slice(), self.packed.as_slice(), tail)
    }

    /// Its text up to the last word, and the bytes of this word.
    pub fn parts(self) -> (Bytes, Bytes)
        ensures view { self ≡ result.0 ++ hex result.1 }
        ensures bytes { AreLineBytes result.1 }
    {
        (self.head, self.packed)
    }
}

// How many bytes there are up to the last blank, with it, of a line that begins as an upload does; else none.
fn head_len(bytes: &[u8]) -> usize
    ensures within { result ≤ length bytes.now }
    ensures begins { BeginsAsUpload (take result bytes.now) [] }
{
    match bytes {
        [b'u', ..] => match memrchr(b' ', bytes) {
            Some(place) => place + 1,
            None => 0,
        },
        _ => 0,
    }
}

// Takes all up to the last blank to the empty head, where the bytes begin as an upload does.
fn take_head(bytes: &[u8], head: &mut Bytes) -> Result<usize, NoMemory>
    requires { head.old ≡ [] }
    ensures within { IfOk result (λ n. n ≤ length bytes.now) }
    ensures taken { IfOk result (λ n. head.new ≡ take n bytes.now) }
    ensures begins { BeginsAsUpload head.new [] }
{
    let len = head_len(bytes);
    head.extend(before(bytes, len))?;
    Ok(len)
}

// Whether a byte is no letter from A to F, which `hex` reads too. It has no branch, so that a block is looked at in lanes.
fn is_lower(c: u8) -> bool
    ensures { result ≡ not_upper c }
{
    c.wrapping_sub(65) >= 6
}

// Makes a block of digits in lower case the bytes that it spells. True only where it is that.
fn decode_block(digits: &[u8], out: &mut [u8]) -> bool
    requires { length digits.now ≡ 2 * length out.old }
    ensures { IsTrue result → Some out.new ≡ unhex digits.now }
{
    let mut lower = true;
    for i in 0..digits.len() {
        lower &= is_lower(digits[i]);
    }
    lower && hex::decode_to_slice(digits, out).is_ok()
}

// Takes the digits of a block as the bytes that they spell, where the block is digits alone.
fn pack_block(bytes: &[u8], packed: &mut Bytes) -> Result<usize, NoMemory>
    requires { AreLineBytes packed.old }
    ensures within { IfOk result (λ n. n ≤ length bytes.now) }
    ensures taken { IfOk result (λ n. hex packed.new ≡ hex packed.old ++ take n bytes.now) }
    ensures bytes { AreLineBytes packed.new }
{
    let mut block = [0; BLOCK];
    let n = (bytes.len() / 2).min(BLOCK);
    if !decode_block(before(bytes, 2 * n), &mut block[..n]) {
        return Ok(0);
    }
    packed.extend(&block[..n])?;
    Ok(2 * n)
}

// Takes digits as the bytes that they spell, up to the first block that isn't digits alone.
fn pack(bytes: &[u8], packed: &mut Bytes) -> Result<usize, NoMemory>
    requires { AreLineBytes packed.old }
    ensures within { IfOk result (λ n. n ≤ length bytes.now) }
    ensures taken { IfOk result (λ n. hex packed.new ≡ hex packed.old ++ take n bytes.now) }
    ensures bytes { AreLineBytes packed.new }
{
    let mut taken = 0;
    while taken < bytes.len() {
        let n = pack_block(after(bytes, taken), packed)?;
        if n == 0 {
            break;
        }
        taken += n;
    }
    Ok(taken)
}

/// The text of a head, of the digits of bytes, and of what stands behind them.
pub fn spell(alloc: Global, head: &[u8], packed: &[u8], tail: &[u8]) -> Result<Bytes, NoMemory>
    ensures { IfOk result (λ text. text ≡ (head.now ++ hex packed.now) ++ tail.now) }
{
    let mut text = Bytes::new(alloc);
    text.extend(head)?;
    encode(packed, &mut text)?;
    text.extend(tail)?;
    Ok(text)
}
