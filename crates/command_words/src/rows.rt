//! The table of words.

ghost use Rattle.std.specs.Prelude.{◌≡◌, ◌<◌, ◌≤◌, ℕ, List, Some, None, IfSome, IfNone, IfOk, OnErr, MatchOption};
ghost use Rattle.std.specs.Prelude.{map, string_bytes};
ghost use Rattle.session.specs.Reading.{sources};
ghost use Rattle.command_words.specs.Asked.{Asked, AskedRead, ForReplay, ForRead};
ghost use Rattle.command_words.specs.Commands.{IsCommand};
ghost use Rattle.command_words.specs.Reading.{GivesOrNone, named, replay_at, read_at, serve_at, file_at, spool_at};
ghost use Rattle.command_words.specs.Reading.{cloud_at, migrate_at};
ghost use Rattle.command_words.specs.Reading.{resume_at, row_at, session_at, word_at};
ghost use Rattle.command_words.specs.Views.{asked_read, asked_serve, asked_backup, asked_restore, asked_delete};
ghost use Rattle.command_words.specs.Views.{asked_spool, asked_resume, asked_cloud, asked_migrate, asked_session, asked_of};

use crate::command::{
    AskedCommand, BackupWords, CloudWords, DeleteWords, GenerateWords, MigrateWords, ReadWords,
    RestoreWords, ResumeWords, ServeWords, SpoolWords,
};
use crate::fields::{
    any_word, clouds_of, clouds_word, no_word, number_word, path_word, rooms_words, shape_words,
};
use session::{CloudNo, NoMemory, Shape, UserId, Version};
use std::alloc::Global;

// A row of the table.
#[derive(Clone, Copy)]
enum Row {
    Replay,
    Read,
    Serve,
    Backup,
    Restore,
    Delete,
    Spool,
    Resume,
    Audit,
    Check,
    Reclaim,
    Migrate,
    Generate,
}

// The row of a command's name.
fn named_by(word: &str) -> Option<Row>
    ensures { result ≡ named word.now }
{
    if word == "replay" {
        Some(Row::Replay)
    } else if word == "read" {
        Some(Row::Read)
    } else if word == "serve" {
        Some(Row::Serve)
    } else if word == "backup" {
        Some(Row::Backup)
    } else if word == "restore" {
        Some(Row::Restore)
    } else if word == "delete" {
        Some(Row::Delete)
    } else if word == "spool" {
        Some(Row::Spool)
    } else if word == "resume" {
        Some(Row::Resume)
    } else if word == "audit" {
        Some(Row::Audit)
    } else if word == "check" {
        Some(Row::Check)
    } else if word == "reclaim" {
        Some(Row::Reclaim)
    } else if word == "migrate" {
        Some(Row::Migrate)
    } else if word == "gen" {
        Some(Row::Generate)
    } else {
        None
    }
}

#[tactic(auto, unfolding(crate::specs::Reading::replay_at))]
fn replay_of(words: &[String]) -> Option<&str>
    ensures { GivesOrNone (λ directory. directory.now) result (replay_at (map string_bytes words.now)) }
{
    let (directory, words) = any_word(words)?;
    no_word(words)?;
    Some(directory)
}

// The words of a read, of which the clouds aren't listed yet.
#[derive(Clone, Copy)]
struct ReadRow<'a> {
    directory: &'a str,
    shape: Shape,
    user: UserId,
    path: &'a [u8],
    version: Version,
    clouds: &'a [u8],
}

#[tactic(auto, unfolding(crate::specs::Reading::read_at))]
fn read_row(words: &[String]) -> Option<ReadRow<'_>>
    ensures { MatchOption result (read_at (map string_bytes words.now) ≡ None)
        (λ row. (list : List ℕ) × (sources row.shape row.clouds.now ≡ Some list)
        × (read_at (map string_bytes words.now) ≡ Some (record {
          directory = row.directory.now;
          shape = row.shape;
          user = row.user;
          path = row.path.now;
          version = row.version;
          clouds = list;
        }))) }
{
    let (directory, words) = any_word(words)?;
    let (shape, words) = shape_words(words)?;
    let (user, words) = number_word(words, 0, u32::MAX as u64)?;
    let (path, words) = path_word(words)?;
    let (version, words) = number_word(words, 0, u64::MAX)?;
    let (clouds, words) = clouds_word(words, shape)?;
    no_word(words)?;
    Some(ReadRow {
        directory,
        shape,
        user: UserId(user as u32),
        path,
        version: Version(version),
        clouds,
    })
}

fn read_of(alloc: Global, words: &[String]) -> Result<Option<ReadWords<'_>>, NoMemory>
    ensures value { IfOk result (λ o. GivesOrNone asked_read o (read_at (map string_bytes words.now))) }
    ensures memory { OnErr result ((asked : AskedRead) × (read_at (map string_bytes words.now) ≡ Some asked)) }
{
    let Some(row) = read_row(words) else {
        return Ok(None);
    };
    match clouds_of(alloc, row.clouds, row.shape) {
        Ok(Some(clouds)) => Ok(Some(ReadWords {
            directory: row.directory,
            shape: row.shape,
            user: row.user,
            path: row.path,
            version: row.version,
            clouds,
        })),
        Ok(None) => unreachable!(),
        Err(NoMemory) => Err(NoMemory),
    }
}

// A cloud of the shape.
fn cloud_in(number: u64, shape: Shape) -> Option<CloudNo>
    ensures { MatchOption result (shape.n ≤ number) (λ cloud. (cloud.0 ≡ number) × (number < shape.n)) }
{
    if number < shape.n as u64 {
        Some(CloudNo(number as u8))
    } else {
        None
    }
}

#[tactic(auto, unfolding(crate::specs::Reading::serve_at))]
fn serve_of(words: &[String]) -> Option<ServeWords<'_>>
    ensures { GivesOrNone asked_serve result (serve_at (map string_bytes words.now)) }
{
    let (directory, words) = any_word(words)?;
    let (number, words) = number_word(words, 0, 255)?;
    let (shape, words) = shape_words(words)?;
    let (address, words) = any_word(words)?;
    let (count, words) = number_word(words, 1, u32::MAX as u64)?;
    no_word(words)?;
    let cloud = cloud_in(number, shape)?;
    Some(ServeWords {
        directory,
        cloud,
        shape,
        address,
        count: count as u32,
    })
}

// USER PATH VERSION and the addresses, so many at least.
#[tactic(auto, unfolding(crate::specs::Reading::file_at))]
fn file_of(words: &[String], least: usize) -> Option<BackupWords<'_>>
    ensures { GivesOrNone asked_backup result (file_at least (map string_bytes words.now)) }
{
    let (user, words) = number_word(words, 0, u32::MAX as u64)?;
    let (path, words) = path_word(words)?;
    let (version, addresses) = number_word(words, 0, u64::MAX)?;
    if addresses.len() < least || addresses.len() > 16 {
        return None;
    }
    Some(BackupWords {
        user: UserId(user as u32),
        path,
        version: Version(version),
        addresses,
    })
}

fn restore_of(words: &[String]) -> Option<RestoreWords<'_>>
    ensures { GivesOrNone asked_restore result (file_at 2 (map string_bytes words.now)) }
{
    let file = file_of(words, 2)?;
    Some(RestoreWords {
        user: file.user,
        path: file.path,
        version: file.version,
        addresses: file.addresses,
    })
}

fn delete_of(words: &[String]) -> Option<DeleteWords<'_>>
    ensures { GivesOrNone asked_delete result (file_at 3 (map string_bytes words.now)) }
{
    let BackupWords {
        user,
        path,
        version,
        addresses,
    } = file_of(words, 3)?;
    Some(DeleteWords {
        user,
        path,
        version,
        addresses,
    })
}

#[tactic(auto, unfolding(crate::specs::Reading::spool_at))]
fn spool_of(words: &[String]) -> Option<SpoolWords<'_>>
    ensures { GivesOrNone asked_spool result (spool_at (map string_bytes words.now)) }
{
    let (directory, words) = any_word(words)?;
    let file = file_of(words, 3)?;
    Some(SpoolWords { directory, file })
}

#[tactic(auto, unfolding(crate::specs::Reading::resume_at))]
fn resume_of(words: &[String]) -> Option<ResumeWords<'_>>
    ensures { GivesOrNone asked_resume result (resume_at (map string_bytes words.now)) }
{
    let (directory, addresses) = any_word(words)?;
    if addresses.len() < 3 || addresses.len() > 16 {
        return None;
    }
    Some(ResumeWords {
        directory,
        addresses,
    })
}

#[tactic(auto, unfolding(crate::specs::Reading::cloud_at))]
fn cloud_of(words: &[String]) -> Option<CloudWords<'_>>
    ensures { GivesOrNone asked_cloud result (cloud_at (map string_bytes words.now)) }
{
    let (directory, words) = any_word(words)?;
    let (number, words) = number_word(words, 0, 255)?;
    let (shape, words) = shape_words(words)?;
    no_word(words)?;
    let cloud = cloud_in(number, shape)?;
    Some(CloudWords {
        directory,
        cloud,
        shape,
    })
}

#[tactic(auto, unfolding(crate::specs::Reading::migrate_at))]
fn migrate_of(words: &[String]) -> Option<MigrateWords<'_>>
    ensures { GivesOrNone asked_migrate result (migrate_at (map string_bytes words.now)) }
{
    let (directory, words) = any_word(words)?;
    let (number, words) = number_word(words, 0, 255)?;
    let (shape, words) = shape_words(words)?;
    let (rooms, words) = rooms_words(words)?;
    no_word(words)?;
    let cloud = cloud_in(number, shape)?;
    let place = CloudWords {
        directory,
        cloud,
        shape,
    };
    Some(MigrateWords { place, rooms })
}

#[tactic(auto, unfolding(crate::specs::Reading::session_at))]
fn session_of(words: &[String]) -> Option<GenerateWords<'_>>
    ensures { GivesOrNone asked_session result (session_at (map string_bytes words.now)) }
{
    let (seed, words) = number_word(words, 0, u64::MAX)?;
    let (files, words) = number_word(words, 1, 1000)?;
    let (pieces, words) = number_word(words, 1, 8192)?;
    let (directory, words) = any_word(words)?;
    no_word(words)?;
    if files * pieces > 131072 {
        return None;
    }
    Some(GenerateWords {
        seed,
        files: files as u32,
        pieces: pieces as u32,
        directory,
    })
}

// The row that the first word names, and the words behind it.
#[tactic(auto, unfolding(crate::specs::Reading::word_at))]
fn row_word(words: &[String]) -> Option<(Row, &[String])>
    ensures { GivesOrNone (λ x. (x.0, map string_bytes x.1.now)) result (word_at named (map string_bytes words.now)) }
{
    match words {
        [] => None,
        [name, rest @ ..] => match named_by(name.as_str()) {
            Some(row) => Some((row, rest)),
            None => None,
        },
    }
}

// What the words of a row ask for.
fn row_of(alloc: Global, row: Row, words: &[String]) -> Result<Option<AskedCommand<'_>>, NoMemory>
    ensures value { IfOk result (λ o. GivesOrNone asked_of o (row_at row (map string_bytes words.now))) }
    ensures memory { OnErr result ((asked : AskedRead)
        × (row_at row (map string_bytes words.now) ≡ Some (ForRead asked))) }
{
    match row {
        Row::Replay => Ok(replay_of(words).map(|directory| AskedCommand::Replay { directory })),
        Row::Read => match read_of(alloc, words) {
            Ok(words) => Ok(words.map(AskedCommand::Read)),
            Err(NoMemory) => Err(NoMemory),
        },
        Row::Serve => Ok(serve_of(words).map(AskedCommand::Serve)),
        Row::Backup => Ok(file_of(words, 3).map(AskedCommand::Backup)),
        Row::Restore => Ok(restore_of(words).map(AskedCommand::Restore)),
        Row::Delete => Ok(delete_of(words).map(AskedCommand::Delete)),
        Row::Spool => Ok(spool_of(words).map(AskedCommand::Spool)),
        Row::Resume => Ok(resume_of(words).map(AskedCommand::Resume)),
        Row::Audit => Ok(cloud_of(words).map(AskedCommand::Audit)),
        Row::Check => Ok(cloud_of(words).map(AskedCommand::Check)),
        Row::Reclaim => Ok(cloud_of(words).map(AskedCommand::Reclaim)),
        Row::Migrate => Ok(migrate_of(words).map(AskedCommand::Migrate)),
        Row::Generate => Ok(session_of(words).map(AskedCommand::Generate)),
    }
}

/// What the words behind the program's name ask for; None where they are none of the table.
///
/// | Words | |
/// |---|---|
/// | `replay DIR` | |
/// | `read DIR N K USER PATH VERSION CLOUDS` | CLOUDS: K numbers below N, rising, with a comma between |
/// | `serve DIR CLOUD N K ADDR COUNT` | CLOUD: below N. COUNT: 1 to 4,294,967,295 |
/// | `backup USER PATH VERSION ADDR..` | 3 to 16 addresses |
/// | `restore USER PATH VERSION ADDR..` | 2 to 16 addresses |
/// | `delete USER PATH VERSION ADDR..` | 3 to 16 addresses |
/// | `spool DIR USER PATH VERSION ADDR..` | 3 to 16 addresses |
/// | `resume DIR ADDR..` | 3 to 16 addresses |
/// | `audit DIR CLOUD N K` | CLOUD: below N |
/// | `check DIR CLOUD N K` | CLOUD: below N |
/// | `reclaim DIR CLOUD N K` | CLOUD: below N |
/// | `migrate DIR CLOUD N K USERS SHARES RECIPES OWNERS FILES` | CLOUD: below N. USERS: 1 to 256; the others: see below |
/// | `gen SEED FILES PIECES DIR` | FILES: 1 to 1,000. PIECES: 1 to 8,192. Their product: at most 131,072 |
///
/// A number is decimal, without leading zeros. N and K obey `2 <= K < N <= 16`; USER is below 2^32, VERSION and SEED
/// below 2^64. PATH is the word's own bytes, 1 to 1,024 of them, none zero. DIR and ADDR are any words. SHARES, RECIPES,
/// OWNERS and FILES are those of each user; USERS times SHARES is at most 8,589,934,592, USERS times RECIPES 1,073,741,824,
/// USERS times OWNERS 524,288 and USERS times FILES 16,384.
///
/// `NoMemory`: memory ran out for the clouds of a read. Words that are none of the table are never answered so.
pub fn read_words(alloc: Global, words: &[String]) -> Result<Option<AskedCommand<'_>>, NoMemory>
    // What is answered is what the words ask for, and None comes only where they ask for nothing.
    ensures some { IfOk result (λ o. IfSome o (λ c. IsCommand (map string_bytes words.now) (asked_of c))) }
    ensures none { IfOk result (λ o. IfNone o ((asked : Asked) → ¬ IsCommand (map string_bytes words.now) asked)) }
    ensures memory { OnErr result ((asked : AskedRead) × IsCommand (map string_bytes words.now) (ForRead asked)) }
{
    match row_word(words) {
        Some((row, rest)) => row_of(alloc, row, rest),
        None => Ok(None),
    }
}
