//! Phrases: a name and words behind it, with one blank between them.

ghost use Rattle.std.specs.Prelude.{◌≡◌, ◌++◌, ◌∷◌, length, take, map, OnOk, OnErr};
ghost use Rattle.transcript.specs.Words.{behind, spaced};
ghost use Rattle.transcript.specs.Phrases.{value_text, phrase_words, got_words, said_words};

use crate::words::{put_bytes, put_digits};
use grammar::{Bytes, CloudNo, NoMemory, encode};

/// A word behind a phrase's name.
#[derive(Clone, Copy)]
pub enum Value {
    /// A number, in decimal digits.
    Number(u64),
    /// A number of 32 bits, in decimal digits.
    Small(u32),
    /// A cloud's number, in decimal digits.
    Cloud(CloudNo),
    /// A byte, in two digits.
    Byte(u8),
    /// A fingerprint or a tag, in 64 digits.
    Print([u8; 32]),
    /// A word of letters.
    Name(&'static [u8]),
}

/// A name, and at most five words behind it.
#[derive(Clone, Copy)]
pub enum Phrase {
    Bare(&'static [u8]),
    One(&'static [u8], Value),
    Two(&'static [u8], Value, Value),
    Three(&'static [u8], Value, Value, Value),
    Four(&'static [u8], Value, Value, Value, Value),
    Five(&'static [u8], Value, Value, Value, Value, Value),
}

/// What a line says: a phrase, two of them, or a file's bytes behind `got`.
#[derive(Clone, Copy)]
pub enum Said<'a> {
    Plain(Phrase),
    Both(Phrase, Phrase),
    Got(&'a [u8]),
}

// Appends the text of a value. For want of memory a part of it may stand there.
fn put_value(value: Value, out: &mut Bytes) -> Result<(), NoMemory>
    ensures ok { OnOk result (out.new ≡ out.old ++ value_text value) }
    ensures err { OnErr result (take (length out.old) out.new ≡ out.old) }
{
    match value {
        Value::Number(number) => put_digits(number, out),
        Value::Small(number) => put_digits(number as u64, out),
        Value::Cloud(cloud) => put_digits(cloud.0 as u64, out),
        Value::Byte(byte) => encode(&[byte], out),
        Value::Print(print) => encode(&print, out),
        Value::Name(name) => out.extend(name),
    }
}

// Appends values, each behind a blank. For want of memory a part of them may stand there.
fn put_values(values: &[Value], out: &mut Bytes) -> Result<(), NoMemory>
    ensures ok { OnOk result (out.new ≡ out.old ++ behind (map value_text values.now)) }
    ensures err { OnErr result (take (length out.old) out.new ≡ out.old) }
{
    match values {
        [] => Ok(()),
        [value, values @ ..] => {
            out.push(b' ')?;
            put_value(*value, out)?;
            put_values(values, out)
        }
    }
}

// Appends a name and values, each behind a blank. For want of memory a part of them may stand there.
fn put_name(name: &[u8], values: &[Value], out: &mut Bytes) -> Result<(), NoMemory>
    ensures ok { OnOk result (out.new ≡ out.old ++ spaced (name.now ∷ map value_text values.now)) }
    ensures err { OnErr result (take (length out.old) out.new ≡ out.old) }
{
    out.extend(name)?;
    put_values(values, out)
}

/// Appends a phrase. For want of memory a part of it may stand there.
pub fn put_phrase(phrase: Phrase, out: &mut Bytes) -> Result<(), NoMemory>
    ensures ok { OnOk result (out.new ≡ out.old ++ spaced (phrase_words phrase)) }
    ensures err { OnErr result (take (length out.old) out.new ≡ out.old) }
{
    match phrase {
        Phrase::Bare(name) => out.extend(name),
        Phrase::One(name, a) => put_name(name, &[a], out),
        Phrase::Two(name, a, b) => put_name(name, &[a, b], out),
        Phrase::Three(name, a, b, c) => put_name(name, &[a, b, c], out),
        Phrase::Four(name, a, b, c, d) => put_name(name, &[a, b, c, d], out),
        Phrase::Five(name, a, b, c, d, e) => put_name(name, &[a, b, c, d, e], out),
    }
}

// Appends a phrase, and another behind a blank. For want of memory a part of them may stand there.
fn put_both(first: Phrase, second: Phrase, out: &mut Bytes) -> Result<(), NoMemory>
    ensures ok { OnOk result (out.new ≡ out.old ++ spaced (phrase_words first ++ phrase_words second)) }
    ensures err { OnErr result (take (length out.old) out.new ≡ out.old) }
{
    put_phrase(first, out)?;
    out.push(b' ')?;
    put_phrase(second, out)
}

// Appends the line of a file without its newline. For want of memory a part of it may stand there.
fn put_got(bytes: &[u8], out: &mut Bytes) -> Result<(), NoMemory>
    ensures ok { OnOk result (out.new ≡ out.old ++ spaced (got_words bytes.now)) }
    ensures err { OnErr result (take (length out.old) out.new ≡ out.old) }
{
    out.extend(b"got ")?;
    put_bytes(bytes, out)
}

/// Appends what a line says. For want of memory a part of it may stand there.
pub fn put_said(said: Said<'_>, out: &mut Bytes) -> Result<(), NoMemory>
    ensures ok { OnOk result (out.new ≡ out.old ++ spaced (said_words said.entry)) }
    ensures err { OnErr result (take (length out.old) out.new ≡ out.old) }
{
    match said {
        Said::Plain(phrase) => put_phrase(phrase, out),
        Said::Both(first, second) => put_both(first, second, out),
        Said::Got(bytes) => put_got(bytes, out),
    }
}
