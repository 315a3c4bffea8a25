//! Why a Hello was refused, and the line that says so.

ghost use Rattle.std.specs.Prelude.{◌≡◌, ◌++◌, ◌∷◌, length, take, decimal, OnOk, OnErr};
ghost use Rattle.ports_link.specs.Refusals.{hello_numbers, refused_text};

use transcript::{Line, Refusal, write_line};
use user_dedup::{Bytes, CloudNo, NoMemory};

/// What came in the place of the Hello that was asked for.
#[derive(Clone, Copy)]
pub enum Refused {
    /// A Hello with these numbers, from the address of this position, counted from 0.
    Hello {
        position: u8,
        n: u8,
        k: u8,
        cloud: u8,
    },
    /// No Hello, from the address of this position: the first byte of what came, or 0 where no whole reply came.
    Strange {
        position: u8,
        kind: u8,
    },
}

// Appends a number in decimal digits. For want of memory a part of it may stand there.
#[tactic(auto, using(std::proofs::lemmas::Fmt::decimal_digit, std::proofs::lemmas::Fmt::decimal_step))]
fn put_digits(number: u8, out: &mut Bytes) -> Result<(), NoMemory>
    ensures ok { OnOk result (out.new ≡ out.old ++ decimal number) }
    ensures err { OnErr result (take (length out.old) out.new ≡ out.old) }
{
    if number < 10 {
        return out.push(b'0' + number);
    }
    put_digits(number / 10, out)?;
    out.push(b'0' + number % 10)
}

// Appends a number behind a blank. For want of memory a part of it may stand there.
fn put_number(number: u8, out: &mut Bytes) -> Result<(), NoMemory>
    ensures ok { OnOk result (out.new ≡ out.old ++ (32 ∷ decimal number)) }
    ensures err { OnErr result (take (length out.old) out.new ≡ out.old) }
{
    out.push(b' ')?;
    put_digits(number, out)
}

// Appends the line of a Hello's numbers. For want of memory a part of it may stand there.
#[tactic(auto, using(transcript::proofs::Joined::joined), unfolding(crate::specs::Refusals::hello_numbers))]
fn put_hello(position: u8, n: u8, k: u8, cloud: u8, out: &mut Bytes) -> Result<(), NoMemory>
    ensures ok { OnOk result (out.new ≡ out.old ++ hello_numbers position n k cloud) }
    ensures err { OnErr result (take (length out.old) out.new ≡ out.old) }
{
    out.extend(b"refused hello")?;
    put_number(position, out)?;
    put_number(n, out)?;
    put_number(k, out)?;
    put_number(cloud, out)?;
    out.push(b'\n')
}

// Appends the line of a refusal. For want of memory a part of it may stand there.
#[tactic(auto, unfolding(crate::specs::Refusals::refused_text, transcript::specs::Transcript::line_text))]
fn put_refused(refused: &Refused, out: &mut Bytes) -> Result<(), NoMemory>
    ensures ok { OnOk result (out.new ≡ out.old ++ refused_text refused.now) }
    ensures err { OnErr result (take (length out.old) out.new ≡ out.old) }
{
    match refused {
        Refused::Hello {
            position,
            n,
            k,
            cloud,
        } => put_hello(*position, *n, *k, *cloud, out),
        Refused::Strange { position, kind } => {
            let why = Refusal::Strange {
                cloud: CloudNo(*position),
                kind: *kind,
            };
            write_line(&Line::Refused { why }, out)
        }
    }
}

/// Appends the line of a refusal with its newline: `refused hello POSITION N K CLOUD`, the numbers in decimal digits,
/// or
/// `refused strange POSITION KIND`, the byte in two hexadecimal digits. For want of memory nothing changes.
pub fn write_refused(refused: &Refused, out: &mut Bytes) -> Result<(), NoMemory>
    ensures ok { OnOk result (out.new ≡ out.old ++ refused_text refused.now) }
    ensures err { OnErr result (out.new ≡ out.old) }
{
    let len = out.len();
    let done = put_refused(refused, out);
    if done.is_err() {
        out.truncate(len);
    }
    done
}
