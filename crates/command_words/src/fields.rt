//! Readers of single words: a value, and the words behind it.

ghost use Rattle.std.specs.Prelude.{◌≡◌, ◌≤◌, ℕ, List, [], ◌∷◌, Some, None, IfSome, IfOk, MatchOption, is_some, map};
ghost use Rattle.std.specs.Prelude.{string_bytes, length, if◌then◌else◌, nat_le};
ghost use Rattle.session.specs.Grammar.Numerals.{number};
ghost use Rattle.session.specs.Reading.{each_room, needed, sources};
ghost use Rattle.command_words.specs.Reading.{GivesOrNone, any, path, rooms_at, shape_at, word_at};

use session::{
    CloudNo, Clouds, MOST_FILES, MOST_OWNERS, MOST_RECIPES, MOST_SHARES, NoMemory, Shape,
    UserRooms, after, before, is_path, len_to, number_of,
};
use std::alloc::Global;

/// Nothing, where no word is left.
pub fn no_word(words: &[String]) -> Option<()>
    ensures { MatchOption result ((word : List ℕ) × (rest : List (List ℕ)) × (map string_bytes words.now ≡ word ∷ rest))
        (λ u. map string_bytes words.now ≡ []) }
{
    match words {
        [] => Some(()),
        [_, ..] => None,
    }
}

/// Any word.
#[tactic(auto, unfolding(crate::specs::Reading::word_at))]
pub fn any_word(words: &[String]) -> Option<(&str, &[String])>
    ensures { GivesOrNone (λ x. (x.0.now, map string_bytes x.1.now)) result (word_at any (map string_bytes words.now)) }
{
    match words {
        [] => None,
        [word, rest @ ..] => Some((word.as_str(), rest)),
    }
}

/// A number in a range, both ends in it.
#[tactic(auto, unfolding(crate::specs::Reading::word_at))]
pub fn number_word(words: &[String], low: u64, high: u64) -> Option<(u64, &[String])>
    ensures value { GivesOrNone (λ x. (x.0, map string_bytes x.1.now)) result
        (word_at (number low high) (map string_bytes words.now)) }
    ensures range { IfSome result (λ x. x.0 ≤ high) }
{
    match words {
        [] => None,
        [word, rest @ ..] => match number_of(word.as_bytes(), low, high) {
            Some(number) => Some((number, rest)),
            None => None,
        },
    }
}

// The word, where it is a path.
#[tactic(auto, using(crate::proofs::WordLaws::path_named, crate::proofs::WordLaws::path_unnamed))]
fn path_of(word: &[u8]) -> Option<&[u8]>
    ensures { GivesOrNone (λ x. x.now) result (path word.now) }
{
    if is_path(word) { Some(word) } else { None }
}

/// A path: the word's own bytes.
#[tactic(auto, unfolding(crate::specs::Reading::word_at))]
pub fn path_word(words: &[String]) -> Option<(&[u8], &[String])>
    ensures { GivesOrNone (λ x. (x.0.now, map string_bytes x.1.now)) result
        (word_at path (map string_bytes words.now)) }
{
    match words {
        [] => None,
        [word, rest @ ..] => match path_of(word.as_bytes()) {
            Some(path) => Some((path, rest)),
            None => None,
        },
    }
}

// How many clouds give a file back, of n clouds.
#[tactic(auto, unfolding(session::specs::Reading::needed))]
fn needed_of(n: u8, word: &[u8]) -> Option<Shape>
    ensures { result ≡ needed n word.now }
{
    match number_of(word, 0, 255) {
        Some(k) => Shape::of(n, k as u8),
        None => None,
    }
}

#[tactic(auto, unfolding(crate::specs::Reading::word_at))]
fn needed_word(n: u8, words: &[String]) -> Option<(Shape, &[String])>
    ensures { GivesOrNone (λ x. (x.0, map string_bytes x.1.now)) result
        (word_at (needed n) (map string_bytes words.now)) }
{
    match words {
        [] => None,
        [word, rest @ ..] => match needed_of(n, word.as_bytes()) {
            Some(shape) => Some((shape, rest)),
            None => None,
        },
    }
}

/// N and K.
#[tactic(auto, unfolding(crate::specs::Reading::shape_at))]
pub fn shape_words(words: &[String]) -> Option<(Shape, &[String])>
    ensures { GivesOrNone (λ x. (x.0, map string_bytes x.1.now)) result (shape_at (map string_bytes words.now)) }
{
    let (n, words) = number_word(words, 0, 255)?;
    needed_word(n as u8, words)
}

// How many users there are: 1 to 256.
#[tactic(auto, using(crate::proofs::RoomWords::some_users))]
fn users_word(words: &[String]) -> Option<(u64, &[String])>
    ensures value { GivesOrNone (λ x. (x.0, map string_bytes x.1.now)) result
        (word_at (number 1 256) (map string_bytes words.now)) }
    ensures some { IfSome result (λ x. 1 ≤ x.0) }
    ensures few { IfSome result (λ x. x.0 ≤ 256) }
{
    number_word(words, 1, 256)
}

// What each of so many users holds, where all of them together hold no more than the most.
#[tactic(auto, using(crate::proofs::RoomWords::part_le))]
fn each_word(words: &[String], most: u64, users: u64) -> Option<(u64, &[String])>
    requires some { 1 ≤ users }
    ensures value { GivesOrNone (λ x. (x.0, map string_bytes x.1.now)) result
        (word_at (each_room most users) (map string_bytes words.now)) }
    ensures range { IfSome result (λ x. x.0 ≤ most) }
{
    number_word(words, 0, most / users)
}

/// USERS, SHARES, RECIPES, OWNERS and FILES.
#[tactic(auto, unfolding(crate::specs::Reading::rooms_at))]
pub fn rooms_words(words: &[String]) -> Option<(UserRooms, &[String])>
    ensures { GivesOrNone (λ x. (x.0, map string_bytes x.1.now)) result (rooms_at (map string_bytes words.now)) }
{
    let (users, words) = users_word(words)?;
    let (shares, words) = each_word(words, MOST_SHARES, users)?;
    let (recipes, words) = each_word(words, MOST_RECIPES, users)?;
    let (owners, words) = each_word(words, MOST_OWNERS, users)?;
    let (files, words) = each_word(words, MOST_FILES, users)?;
    let rooms = UserRooms {
        users: users as u32,
        shares,
        recipes,
        owners: owners as u32,
        files: files as u32,
    };
    Some((rooms, words))
}

// Whether a word is k rising clouds below n or more, with commas between.
fn are_clouds(word: &[u8], shape: Shape) -> bool
    ensures { result ≡ is_some (sources shape word.now) }
{
    let mut rest = word;
    let mut count: u64 = 0;
    let mut least: u64 = 0;
    'texts: loop {
        let end = len_to(rest, b',');
        let Some(number) = number_of(before(rest, end), 0, shape.n as u64 - 1) else {
            return false;
        };
        if number < least {
            return false;
        }
        count += 1;
        least = number + 1;
        if end == rest.len() {
            return shape.k as u64 <= count;
        }
        rest = after(rest, end + 1);
    }
}

// The word, where it is clouds.
#[tactic(auto, using(crate::proofs::WordLaws::clouds_named, crate::proofs::WordLaws::clouds_unnamed))]
fn judged(word: &[u8], shape: Shape) -> Option<&[u8]>
    ensures { MatchOption result (sources shape word.now ≡ None)
        (λ x. (list : List ℕ) × (sources shape x.now ≡ Some list) × (sources shape word.now ≡ Some list)) }
{
    if are_clouds(word, shape) {
        Some(word)
    } else {
        None
    }
}

/// A word of clouds, which aren't listed yet.
#[tactic(auto, unfolding(crate::specs::Reading::word_at))]
pub fn clouds_word(words: &[String], shape: Shape) -> Option<(&[u8], &[String])>
    ensures { MatchOption result (word_at (sources shape) (map string_bytes words.now) ≡ None)
        (λ x. (list : List ℕ) × (sources shape x.0.now ≡ Some list)
        × (word_at (sources shape) (map string_bytes words.now) ≡ Some (list, map string_bytes x.1.now))) }
{
    match words {
        [] => None,
        [word, rest @ ..] => match judged(word.as_bytes(), shape) {
            Some(clouds) => Some((clouds, rest)),
            None => None,
        },
    }
}

// The clouds, where there are k of them or more.
fn full_of(clouds: Clouds, shape: Shape) -> Option<Clouds>
    ensures { result ≡ (if nat_le shape.k (length clouds) then Some clouds else None) }
{
    if shape.k as usize <= clouds.len() {
        Some(clouds)
    } else {
        None
    }
}

/// The clouds that a word names.
pub fn clouds_of(alloc: Global, word: &[u8], shape: Shape) -> Result<Option<Clouds>, NoMemory>
    ensures { IfOk result (λ o. o ≡ sources shape word.now) }
{
    let mut out = Clouds::new(alloc);
    let mut rest = word;
    'texts: loop {
        let end = len_to(rest, b',');
        let Some(number) = number_of(before(rest, end), 0, shape.n as u64 - 1) else {
            return Ok(None);
        };
        let cloud = CloudNo(number as u8);
        if !out.can_push(cloud) {
            return Ok(None);
        }
        out.push(cloud)?;
        if end == rest.len() {
            return Ok(full_of(out, shape));
        }
        rest = after(rest, end + 1);
    }
}
