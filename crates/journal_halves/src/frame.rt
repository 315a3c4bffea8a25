//! What stands at a gate.

ghost use Rattle.std.specs.Prelude.{ℕ, List, length};
ghost use Rattle.journal_halves.specs.Frames.{IsFrameAhead};

/// What the bytes from a gate on begin with.
#[derive(Clone, Copy, PartialEq, Eq)]
pub enum Frame {
    /// A closed gate.
    Closed,
    /// An open record whose body has so many bytes, with its next gate.
    Record { len: usize },
    /// An open gate before a length that no body has.
    BadLength,
    /// Nothing, or an open gate before too few bytes.
    Short,
}

/// The greatest length of a body.
pub const GREATEST: usize = 65_535;

/// The most bytes that are read or written at once: 64 KiB, and the five bytes of a gate and a length, which are as many as
/// the longest record has with its own gate and the next one.
pub const WINDOW: usize = GREATEST + 6;

/// Tells what the bytes from a gate on begin with.
pub fn frame_of(ahead: &[u8]) -> Frame
    ensures { IsFrameAhead ahead.now result }
{
    match ahead {
        [] => Frame::Short,
        [1, a, b, c, d, rest @ ..] => {
            let len = u32::from_be_bytes([*a, *b, *c, *d]) as usize;
            if len == 0 || len > GREATEST {
                Frame::BadLength
            } else if rest.len() <= len {
                Frame::Short
            } else {
                Frame::Record { len }
            }
        }
        [1, ..] => Frame::Short,
        _ => Frame::Closed,
    }
}
