//! Words of a text, with one blank between them.

ghost use Rattle.std.specs.Prelude.{◌≡◌, ◌==◌, ◌+◌, ◌≤◌, length, take, drop};
ghost use Rattle.std.specs.List.{position_or_len};
ghost use Rattle.grammar.specs.Words.{cut};

use memchr::memchr;

/// The place of the first byte that is the mark, counted from 0, or the length where there is none.
pub fn len_to(bytes: &[u8], mark: u8) -> usize
    ensures value { result ≡ position_or_len (λ b. b == mark) bytes.now }
    ensures within { result ≤ length bytes.now }
{
    match memchr(mark, bytes) {
        Some(place) => place,
        None => bytes.len(),
    }
}

/// The first n bytes.
pub fn before(bytes: &[u8], n: usize) -> &[u8]
    requires { n ≤ length bytes.now }
    ensures { result.now ≡ take n bytes.now }
{
    bytes.split_at(n).0
}

/// The bytes from the place n on.
pub fn after(bytes: &[u8], n: usize) -> &[u8]
    requires { n ≤ length bytes.now }
    ensures { result.now ≡ drop n bytes.now }
{
    bytes.split_at(n).1
}

/// What stands before the next blank or the end, and the rest.
#[tactic(auto, unfolding(crate::specs::Words::cut))]
pub fn cut_word(bytes: &[u8]) -> (&[u8], &[u8])
    ensures cut { cut bytes.now ≡ (result.0.now, result.1.now) }
    ensures len { length result.0.now + length result.1.now ≡ length bytes.now }
{
    bytes.split_at(len_to(bytes, b' '))
}
