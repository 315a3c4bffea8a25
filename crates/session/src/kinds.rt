//! The kinds of words that only scripts have.

ghost use Rattle.std.specs.Prelude.{◌≡◌, ◌≢◌, IfOk, IfErr, length, if◌then◌else◌, ◌==◌, nat_le};
ghost use Rattle.journal_start.specs.Grammar.Readers.{Gives};
ghost use Rattle.journal_start.specs.Grammar.Words.{word_at, field_at, keep};
ghost use Rattle.session.specs.Reading.{literal, path, contents, listed, rises, cloud, clouds, sources, lacks, others};
ghost use Rattle.session.specs.Reading.{named_command, is_allowed, command};
ghost use Rattle.journal_start.specs.CdBase.Numbers.{numbers_of};

use crate::limits::UPLOAD_LIMIT;
use journal_start::{
    Bytes, CloudNo, Clouds, FILE_LIMIT, NoMemory, Shape, Stop, after, before, cut_word, decode,
    is_path, len_to, number_of, u64_field,
};
use std::alloc::Global;

#[tactic(auto, unfolding(crate::specs::Reading::literal))]
fn literal_of(word: &[u8], name: &[u8]) -> Option<()>
    ensures { result ≡ literal name.now word.now }
{
    if word == name { Some(()) } else { None }
}

/// What follows one word, with which the line begins.
#[tactic(auto, unfolding(grammar::specs::Words::word_at))]
pub fn literal_word<'a>(line: &'a [u8], name: &[u8]) -> Result<&'a [u8], Stop>
    ensures value { Gives (λ x. (tt, x.now)) result (word_at (literal name.now) line.now) }
    ensures memory { IfErr result (λ e. e ≢ Stop.Memory) }
{
    let (word, rest) = cut_word(line);
    match literal_of(word, name) {
        Some(()) => Ok(rest),
        None => Err(Stop::Left(line.len())),
    }
}

/// What follows one word behind a blank. It takes no memory, and want of it is no answer.
#[tactic(auto, unfolding(grammar::specs::Words::field_at))]
pub fn literal_field<'a>(bytes: &'a [u8], name: &[u8]) -> Result<&'a [u8], Stop>
    ensures value { Gives (λ x. (tt, x.now)) result (field_at (literal name.now) bytes.now) }
    ensures memory { IfErr result (λ e. e ≢ Stop.Memory) }
{
    match bytes {
        [b' ', bytes @ ..] => literal_word(bytes, name),
        _ => Err(Stop::Left(bytes.len())),
    }
}

#[tactic(auto, unfolding(crate::specs::Reading::path))]
fn path_of(alloc: Global, word: &[u8]) -> Result<Option<Bytes>, NoMemory>
    ensures { IfOk result (λ o. o ≡ path word.now) }
{
    if word.len() > 2048 {
        return Ok(None);
    }
    match decode(alloc, word)? {
        Some(bytes) => {
            if is_path(bytes.as_slice()) {
                Ok(Some(bytes))
            } else {
                Ok(None)
            }
        }
        None => Ok(None),
    }
}

/// A path behind a blank, and what follows it.
#[tactic(auto, unfolding(grammar::specs::Words::field_at, grammar::specs::Words::word_at))]
pub fn path_field(alloc: Global, bytes: &[u8]) -> Result<(Bytes, &[u8]), Stop>
    ensures { Gives (λ x. (x.0, x.1.now)) result (field_at path bytes.now) }
{
    match bytes {
        [b' ', bytes @ ..] => {
            let (word, rest) = cut_word(bytes);
            match path_of(alloc, word)? {
                Some(path) => Ok((path, rest)),
                None => Err(Stop::Left(bytes.len())),
            }
        }
        _ => Err(Stop::Left(bytes.len())),
    }
}

#[tactic(auto, unfolding(crate::specs::Reading::contents))]
fn contents_of(alloc: Global, word: &[u8]) -> Result<Option<Bytes>, NoMemory>
    ensures { IfOk result (λ o. o ≡ contents word.now) }
{
    if word == b"-".as_slice() {
        return Ok(Some(Bytes::new(alloc)));
    }
    if word.len() > 2 * FILE_LIMIT {
        return Ok(None);
    }
    match decode(alloc, word)? {
        Some(bytes) => {
            if bytes.is_empty() {
                Ok(None)
            } else {
                Ok(Some(bytes))
            }
        }
        None => Ok(None),
    }
}

/// A file's bytes behind a blank, and what follows them.
#[tactic(auto, unfolding(grammar::specs::Words::field_at, grammar::specs::Words::word_at))]
pub fn contents_field(alloc: Global, bytes: &[u8]) -> Result<(Bytes, &[u8]), Stop>
    ensures { Gives (λ x. (x.0, x.1.now)) result (field_at contents bytes.now) }
{
    match bytes {
        [b' ', bytes @ ..] => {
            let (word, rest) = cut_word(bytes);
            match contents_of(alloc, word)? {
                Some(contents) => Ok((contents, rest)),
                None => Err(Stop::Left(bytes.len())),
            }
        }
        _ => Err(Stop::Left(bytes.len())),
    }
}

/// A cloud below N behind a blank, and what follows it. It takes no memory, and want of it is no answer.
pub fn cloud_field(bytes: &[u8], shape: Shape) -> Result<(CloudNo, &[u8]), Stop>
    ensures value { Gives (λ x. (x.0.0, x.1.now)) result (field_at (cloud shape) bytes.now) }
    ensures memory { IfErr result (λ e. e ≢ Stop.Memory) }
{
    let (number, rest) = u64_field(bytes, 0, shape.n as u64 - 1)?;
    Ok((CloudNo(number as u8), rest))
}

// The clouds, where there are k of them.
fn full_of(clouds: Clouds, shape: Shape) -> Option<Clouds>
    ensures { result ≡ (if length clouds == shape.k then Some clouds else None) }
{
    if clouds.len() == shape.k as usize {
        Some(clouds)
    } else {
        None
    }
}

// The clouds, where there are k or more of them.
fn enough_of(clouds: Clouds, shape: Shape) -> Option<Clouds>
    ensures { result ≡ (if nat_le shape.k (length clouds) then Some clouds else None) }
{
    if clouds.len() >= shape.k as usize {
        Some(clouds)
    } else {
        None
    }
}

// The clouds between commas. The first that doesn't rise ends the reading, so no more of them are kept than there are.
fn rising_of(alloc: Global, word: &[u8], shape: Shape) -> Result<Option<Clouds>, NoMemory>
    ensures { IfOk result (λ o. o ≡ keep rises (listed shape word.now)) }
{
    let mut out = Clouds::new(alloc);
    let mut rest = word;
    'texts: loop {
        let end = len_to(rest, b',');
        let Some(number) = number_of(before(rest, end), 0, shape.n as u64 - 1) else {
            return Ok(None);
        };
        let cloud = CloudNo(number as u8);
        if !out.can_push(cloud) {
            return Ok(None);
        }
        out.push(cloud)?;
        if end == rest.len() {
            return Ok(Some(out));
        }
        rest = after(rest, end + 1);
    }
}

// k clouds between commas.
fn clouds_of(alloc: Global, word: &[u8], shape: Shape) -> Result<Option<Clouds>, NoMemory>
    ensures { IfOk result (λ o. o ≡ clouds shape word.now) }
{
    match rising_of(alloc, word, shape)? {
        Some(clouds) => Ok(full_of(clouds, shape)),
        None => Ok(None),
    }
}

// k or more clouds between commas.
fn sources_of(alloc: Global, word: &[u8], shape: Shape) -> Result<Option<Clouds>, NoMemory>
    ensures { IfOk result (λ o. o ≡ sources shape word.now) }
{
    match rising_of(alloc, word, shape)? {
        Some(clouds) => Ok(enough_of(clouds, shape)),
        None => Ok(None),
    }
}

/// k or more clouds behind a blank, and what follows them.
#[tactic(auto, unfolding(grammar::specs::Words::field_at, grammar::specs::Words::word_at))]
pub fn sources_field(alloc: Global, bytes: &[u8], shape: Shape) -> Result<(Clouds, &[u8]), Stop>
    ensures { Gives (λ x. (x.0, x.1.now)) result (field_at (sources shape) bytes.now) }
{
    match bytes {
        [b' ', bytes @ ..] => {
            let (word, rest) = cut_word(bytes);
            match sources_of(alloc, word, shape)? {
                Some(clouds) => Ok((clouds, rest)),
                None => Err(Stop::Left(bytes.len())),
            }
        }
        _ => Err(Stop::Left(bytes.len())),
    }
}

// Whether none of the clouds is this one.
fn has_none(clouds: &[CloudNo], cloud: CloudNo) -> bool
    ensures { result ≡ lacks cloud.0 (numbers_of clouds.now) }
{
    match clouds {
        [] => true,
        [first, clouds @ ..] => first.0 != cloud.0 && has_none(clouds, cloud),
    }
}

#[tactic(auto, unfolding(crate::specs::Reading::others))]
fn others_of(
    alloc: Global,
    word: &[u8],
    shape: Shape,
    target: CloudNo,
) -> Result<Option<Clouds>, NoMemory>
    ensures { IfOk result (λ o. o ≡ others shape target.0 word.now) }
{
    match clouds_of(alloc, word, shape)? {
        Some(clouds) => {
            if has_none(clouds.as_slice(), target) {
                Ok(Some(clouds))
            } else {
                Ok(None)
            }
        }
        None => Ok(None),
    }
}

/// k clouds behind a blank, of which none is the target, and what follows them.
#[tactic(auto, unfolding(grammar::specs::Words::field_at, grammar::specs::Words::word_at))]
pub fn others_field(
    alloc: Global,
    bytes: &[u8],
    shape: Shape,
    target: CloudNo,
) -> Result<(Clouds, &[u8]), Stop>
    ensures { Gives (λ x. (x.0, x.1.now)) result (field_at (others shape target.0) bytes.now) }
{
    match bytes {
        [b' ', bytes @ ..] => {
            let (word, rest) = cut_word(bytes);
            match others_of(alloc, word, shape, target)? {
                Some(clouds) => Ok((clouds, rest)),
                None => Err(Stop::Left(bytes.len())),
            }
        }
        _ => Err(Stop::Left(bytes.len())),
    }
}

/// The first word of a line.
#[derive(Clone, Copy)]
pub enum FirstWord {
    Upload,
    Step,
    Lose,
    Drop,
    Finish,
    Get,
    List,
    Arm,
    Restart,
    Replace,
    Rebuild,
    Delete,
}

// The command of a name.
fn named_by(word: &[u8]) -> Option<FirstWord>
    ensures { result ≡ named_command word.now }
{
    if word == b"upload".as_slice() {
        Some(FirstWord::Upload)
    } else if word == b"step".as_slice() {
        Some(FirstWord::Step)
    } else if word == b"lose".as_slice() {
        Some(FirstWord::Lose)
    } else if word == b"drop".as_slice() {
        Some(FirstWord::Drop)
    } else if word == b"finish".as_slice() {
        Some(FirstWord::Finish)
    } else if word == b"get".as_slice() {
        Some(FirstWord::Get)
    } else if word == b"list".as_slice() {
        Some(FirstWord::List)
    } else if word == b"arm".as_slice() {
        Some(FirstWord::Arm)
    } else if word == b"restart".as_slice() {
        Some(FirstWord::Restart)
    } else if word == b"replace".as_slice() {
        Some(FirstWord::Replace)
    } else if word == b"rebuild".as_slice() {
        Some(FirstWord::Rebuild)
    } else if word == b"delete".as_slice() {
        Some(FirstWord::Delete)
    } else {
        None
    }
}

// Whether a command may come where so many uploads came before.
fn may_come(command: FirstWord, jobs: u32) -> bool
    ensures { result ≡ is_allowed jobs command }
{
    match command {
        FirstWord::Upload => jobs < UPLOAD_LIMIT,
        FirstWord::Step => true,
        FirstWord::Lose => true,
        FirstWord::Drop => true,
        FirstWord::Finish => true,
        FirstWord::Get => true,
        FirstWord::List => true,
        FirstWord::Arm => true,
        FirstWord::Restart => true,
        FirstWord::Replace => true,
        FirstWord::Rebuild => true,
        FirstWord::Delete => true,
    }
}

#[tactic(auto, unfolding(crate::specs::Reading::command))]
fn command_of(word: &[u8], jobs: u32) -> Option<FirstWord>
    ensures { result ≡ command jobs word.now }
{
    match named_by(word) {
        Some(command) => {
            if may_come(command, jobs) {
                Some(command)
            } else {
                None
            }
        }
        None => None,
    }
}

/// The first word of a line, where so many uploads came before it, and what follows it.
#[tactic(auto, unfolding(grammar::specs::Words::word_at))]
pub fn first_word(line: &[u8], jobs: u32) -> Result<(FirstWord, &[u8]), Stop>
    ensures { Gives (λ x. (x.0, x.1.now)) result (word_at (command jobs) line.now) }
{
    let (word, rest) = cut_word(line);
    match command_of(word, jobs) {
        Some(command) => Ok((command, rest)),
        None => Err(Stop::Left(line.len())),
    }
}
