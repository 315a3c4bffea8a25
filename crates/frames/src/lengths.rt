//! What stands in front of a content.

ghost use Rattle.std.specs.Prelude.{◌≡◌, ◌↔◌, ℕ, List, ◌++◌, length, IsTrue};
ghost use Rattle.std.specs.Int.{w32, to_be_bytes};
ghost use Rattle.frames.specs.Frames.{IsLength, frame};

/// The most bytes of a content: 4 MiB.
pub const FRAME_LIMIT: usize = 4_194_304;

/// Whether a content may have that many bytes: 1 to 4,194,304.
pub fn is_length(len: u32) -> bool
    ensures { IsTrue result ↔ IsLength len }
{
    0 < len && len as usize <= FRAME_LIMIT
}

/// The four bytes in front of a content of that many bytes: the length, big-endian. With the content behind them they
/// are its frame.
pub fn header(content_len: u32) -> [u8; 4]
    requires { IsLength content_len }
    ensures value { result ≡ to_be_bytes w32 content_len }
    ensures framed { (content : List ℕ) → length content ≡ content_len → result ++ content ≡ frame content }
{
    content_len.to_be_bytes()
}
