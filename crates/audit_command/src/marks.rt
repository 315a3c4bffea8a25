//! Places in a text, by lines.

ghost use Rattle.std.specs.Prelude.{◌≡◌, ◌<◌, ◌≤◌, ◌+◌, ◌==◌, ◌^◌, ◌∷◌, [], length, drop, MatchOption};
ghost use Rattle.std.specs.Prelude.{if◌then◌else◌};
ghost use Rattle.command_cloud.specs.Transcript.Reading.{line_len};
ghost use Rattle.audit_command.specs.Source.{behind_lines, byte_in, first_line, mark_behind};

use grammar::{after, before, len_to};

// The first byte, and the others.
fn first_of(bytes: &[u8]) -> Option<(u8, &[u8])>
    ensures { MatchOption result (bytes.now ≡ []) (λ x. bytes.now ≡ x.0 ∷ x.1.now) }
{
    match bytes {
        [] => None,
        [byte, more @ ..] => Some((*byte, more)),
    }
}

// The line and the place behind one byte more.
fn stepped(line: u64, at: u64, byte: u8) -> (u64, u64)
    requires { line + at + 1 < 2 ^ 64 }
    ensures mark { result ≡ (if byte == 10 then (line + 1, 0) else (line, at + 1)) }
    ensures bound { result.0 + result.1 ≤ line + at + 1 }
{
    if byte == b'\n' {
        (line + 1, 0)
    } else {
        (line, at + 1)
    }
}

/// The line, from 1, and the place in it, from 0, that come behind these bytes, where they begin at such.
pub fn mark_after(line: u64, at: u64, bytes: &[u8]) -> (u64, u64)
    requires { line + at + length bytes.now < 2 ^ 64 }
    ensures mark { result ≡ mark_behind (line, at) bytes.now }
    ensures bound { result.0 + result.1 ≤ line + at + length bytes.now }
{
    let mut mark = (line, at);
    let mut rest = bytes;
    'bytes: loop {
        let Some((byte, more)) = first_of(rest) else {
            return mark;
        };
        mark = stepped(mark.0, mark.1, byte);
        rest = more;
    }
}

// What stands behind the first line.
fn next_line(text: &[u8]) -> &[u8]
    ensures { result.now ≡ drop (line_len text.now + 1) text.now }
{
    let end = len_to(text, b'\n');
    if end < text.len() {
        after(text, end + 1)
    } else {
        after(text, end)
    }
}

// What stands behind so many lines.
#[tactic(auto, using(crate::proofs::Counting::one_behind))]
fn behind(text: &[u8], lines: u64) -> &[u8]
    ensures { result.now ≡ behind_lines lines text.now }
{
    let mut rest = text;
    let mut left = lines;
    'lines: while 0 < left {
        rest = next_line(rest);
        left -= 1;
    }
    rest
}

// The first line, without its newline.
fn front_line(text: &[u8]) -> &[u8]
    ensures { result.now ≡ first_line text.now }
{
    before(text, len_to(text, b'\n'))
}

/// The byte at a place of a line, both counted so; None at the line's end.
pub fn byte_at(text: &[u8], line: u64, at: u64) -> Option<u8>
    ensures { result ≡ byte_in text.now line at }
{
    let found = front_line(behind(text, line.saturating_sub(1)));
    found.get(at as usize).copied()
}
