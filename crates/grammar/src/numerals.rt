//! Decimal numbers.

ghost use Rattle.std.specs.Prelude.{◌≡◌, ◌≤◌, ◌<◌, ◌^◌, ◌≢◌, IfSome, IfOk, IfErr};
ghost use Rattle.std.specs.Str.{all_ascii_digits};
ghost use Rattle.grammar.specs.Readers.{Gives};
ghost use Rattle.grammar.specs.Words.{field_at};
ghost use Rattle.grammar.specs.Numerals.{is_numeral, number, capped};

use crate::{Stop, cut_word};

fn all_digits(word: &[u8]) -> bool
    ensures { result ≡ all_ascii_digits word.now }
{
    for b in word {
        if !b.is_ascii_digit() {
            return false;
        }
    }
    true
}

fn is_number(word: &[u8]) -> bool
    ensures { result ≡ is_numeral word.now }
{
    if !all_digits(word) {
        return false;
    }
    match word {
        [] => false,
        [_] => true,
        [first, ..] => *first != b'0',
    }
}

/// The number of a word, in a range, both ends in it; None where the word is no number, or is out of the range.
#[tactic(auto, using(crate::proofs::NumeralLaws::not_text, crate::proofs::NumeralLaws::too_long), unfolding(crate::specs::Numerals::number))]
pub fn number_of(word: &[u8], low: u64, high: u64) -> Option<u64>
    ensures value { result ≡ number low high word.now }
    ensures range { IfSome result (λ n. n ≤ high) }
{
    if !is_number(word) {
        return None;
    }
    let Ok(text) = str::from_utf8(word) else {
        return None;
    };
    let Ok(n) = text.parse::<u64>() else {
        return None;
    };
    if low <= n && n <= high { Some(n) } else { None }
}

/// A number in a range, both ends in it, behind a blank, and what follows it. Where the blank or such a number lacks, its
/// place is wrong. It takes no memory, and want of it is no answer.
#[tactic(auto, unfolding(crate::specs::Words::field_at, crate::specs::Words::word_at))]
pub fn u64_field(bytes: &[u8], low: u64, high: u64) -> Result<(u64, &[u8]), Stop>
    ensures value { Gives (λ x. (x.0, x.1.now)) result (field_at (number low high) bytes.now) }
    ensures memory { IfErr result (λ e. e ≢ Stop.Memory) }
    ensures range { IfOk result (λ x. x.0 ≤ high) }
{
    match bytes {
        [b' ', bytes @ ..] => {
            let (word, rest) = cut_word(bytes);
            match number_of(word, low, high) {
                Some(n) => Ok((n, rest)),
                None => Err(Stop::Left(bytes.len())),
            }
        }
        _ => Err(Stop::Left(bytes.len())),
    }
}

/// The same of a smaller range.
pub fn u32_field(bytes: &[u8], low: u32, high: u32) -> Result<(u32, &[u8]), Stop>
    ensures value { Gives (λ x. (x.0, x.1.now)) result (field_at (number low high) bytes.now) }
    ensures memory { IfErr result (λ e. e ≢ Stop.Memory) }
{
    let (n, rest) = u64_field(bytes, low as u64, high as u64)?;
    Ok((n as u32, rest))
}

/// The number of a word, or the cap where that is less; None where the word is no number.
#[tactic(auto, unfolding(crate::specs::Numerals::capped))]
fn capped_of(word: &[u8], cap: u64) -> Option<u64>
    ensures value { result ≡ capped cap word.now }
    ensures range { IfSome result (λ n. n ≤ cap) }
{
    if !is_number(word) {
        return None;
    }
    match number_of(word, 0, cap) {
        Some(n) => Some(n),
        None => Some(cap),
    }
}

/// A number of any size, or the cap where that is less, behind a blank, and what follows it. Where the blank or a number
/// lacks, its place is wrong. It takes no memory, and want of it is no answer.
#[tactic(auto, unfolding(crate::specs::Words::field_at, crate::specs::Words::word_at))]
pub fn capped_field(bytes: &[u8], cap: u64) -> Result<(u64, &[u8]), Stop>
    ensures value { Gives (λ x. (x.0, x.1.now)) result (field_at (capped cap) bytes.now) }
    ensures memory { IfErr result (λ e. e ≢ Stop.Memory) }
    ensures range { IfOk result (λ x. x.0 ≤ cap) }
{
    match bytes {
        [b' ', bytes @ ..] => {
            let (word, rest) = cut_word(bytes);
            match capped_of(word, cap) {
                Some(n) => Ok((n, rest)),
                None => Err(Stop::Left(bytes.len())),
            }
        }
        _ => Err(Stop::Left(bytes.len())),
    }
}
