//! Reading a line of a script.

ghost use Rattle.std.specs.Prelude.{◌≡◌, ◌≢◌, ◌↔◌, ◌-◌, length, Ok, IfOk, IfErr, slice_get};
ghost use Rattle.journal_start.specs.CdBase.shape.Shape.{Shape};
ghost use Rattle.journal_start.specs.declared.rooms.UserRooms.{UserRooms};
ghost use Rattle.journal_start.specs.Ranges.{AreRooms};
ghost use Rattle.journal_start.specs.Grammar.Readers.{Gives};
ghost use Rattle.session.specs.Reading.{ReadsScript, header_at, event_at, event_left, fields_at, upload_at, lane_at};
ghost use Rattle.session.specs.Reading.{job_at};
ghost use Rattle.session.specs.Reading.{cloud_at, get_at, list_at, arm_at, rebuild_at, delete_at};
ghost use Rattle.session.specs.Spelling.{FitsEvent, IsLine, IsHeaderLine};
ghost use Rattle.session.specs.declared.event.Event.{Event};

use crate::Event;
use crate::header::header_of;
use crate::kinds::{
    FirstWord, cloud_field, contents_field, first_word, others_field, path_field, sources_field,
};
use journal_start::{CloudNo, Shape, Stop, UserId, UserRooms, Version, u32_field, u64_field};
use std::alloc::Global;

/// Why a line was not read.
#[derive(Clone, Copy, PartialEq, Eq)]
pub enum ScriptErr {
    /// The line is wrong: its first wrong place, counted from 0, with the byte there, or None at the line's end.
    At { at: u64, found: Option<u8> },
    /// Memory ran out.
    NoMemory,
}

#[tactic(auto, using(std::proofs::lemmas::Option::slice_get_cases))]
fn byte_at(line: &[u8], at: usize) -> Option<u8>
    ensures { result ≡ slice_get line.now at }
{
    if at < line.len() {
        Some(line[at])
    } else {
        None
    }
}

// The place from which on so many bytes are left, with the byte there.
fn wrong_at(line: &[u8], left: usize) -> ScriptErr
    ensures { result ≡ ScriptErr.At (length line.now - left) (slice_get line.now (length line.now - left)) }
{
    let at = line.len().saturating_sub(left);
    ScriptErr::At {
        at: at as u64,
        found: byte_at(line, at),
    }
}

#[tactic(auto, unfolding(crate::specs::Reading::upload_at))]
fn upload_of(alloc: Global, bytes: &[u8]) -> Result<Event, Stop>
    ensures { Gives (λ x. x) result (upload_at bytes.now) }
{
    let (user, bytes) = u32_field(bytes, 0, u32::MAX)?;
    let (path, bytes) = path_field(alloc, bytes)?;
    let (version, bytes) = u64_field(bytes, 0, u64::MAX)?;
    let (contents, bytes) = contents_field(alloc, bytes)?;
    if !bytes.is_empty() {
        return Err(Stop::Left(bytes.len()));
    }
    Ok(Event::Upload {
        user: UserId(user),
        path,
        version: Version(version),
        bytes: contents,
    })
}

// A job and a cloud.
#[tactic(auto, unfolding(crate::specs::Reading::lane_at))]
fn lane_of(shape: Shape, jobs: u32, bytes: &[u8]) -> Result<(u32, CloudNo), Stop>
    ensures { Gives (λ x. (x.0, x.1.0)) result (lane_at shape jobs bytes.now) }
{
    let (job, bytes) = u32_field(bytes, 1, jobs)?;
    let (lane, bytes) = cloud_field(bytes, shape)?;
    if !bytes.is_empty() {
        return Err(Stop::Left(bytes.len()));
    }
    Ok((job, lane))
}

// A job.
#[tactic(auto, unfolding(crate::specs::Reading::job_at))]
fn job_of(jobs: u32, bytes: &[u8]) -> Result<u32, Stop>
    ensures { Gives (λ x. x) result (job_at jobs bytes.now) }
{
    let (job, rest) = u32_field(bytes, 1, jobs)?;
    if !rest.is_empty() {
        return Err(Stop::Left(rest.len()));
    }
    Ok(job)
}

// A cloud.
#[tactic(auto, unfolding(crate::specs::Reading::cloud_at))]
fn cloud_of(shape: Shape, bytes: &[u8]) -> Result<CloudNo, Stop>
    ensures { Gives (λ x. x.0) result (cloud_at shape bytes.now) }
{
    let (cloud, rest) = cloud_field(bytes, shape)?;
    if !rest.is_empty() {
        return Err(Stop::Left(rest.len()));
    }
    Ok(cloud)
}

#[tactic(auto, unfolding(crate::specs::Reading::get_at))]
fn get_of(alloc: Global, shape: Shape, bytes: &[u8]) -> Result<Event, Stop>
    ensures { Gives (λ x. x) result (get_at shape bytes.now) }
{
    let (user, bytes) = u32_field(bytes, 0, u32::MAX)?;
    let (path, bytes) = path_field(alloc, bytes)?;
    let (version, bytes) = u64_field(bytes, 0, u64::MAX)?;
    let (clouds, bytes) = sources_field(alloc, bytes, shape)?;
    if !bytes.is_empty() {
        return Err(Stop::Left(bytes.len()));
    }
    Ok(Event::Get {
        user: UserId(user),
        path,
        version: Version(version),
        clouds,
    })
}

#[tactic(auto, unfolding(crate::specs::Reading::list_at))]
fn list_of(shape: Shape, bytes: &[u8]) -> Result<Event, Stop>
    ensures { Gives (λ x. x) result (list_at shape bytes.now) }
{
    let (user, bytes) = u32_field(bytes, 0, u32::MAX)?;
    let (cloud, bytes) = cloud_field(bytes, shape)?;
    if !bytes.is_empty() {
        return Err(Stop::Left(bytes.len()));
    }
    Ok(Event::List {
        user: UserId(user),
        cloud,
    })
}

#[tactic(auto, unfolding(crate::specs::Reading::arm_at))]
fn arm_of(shape: Shape, bytes: &[u8]) -> Result<Event, Stop>
    ensures { Gives (λ x. x) result (arm_at shape bytes.now) }
{
    let (cloud, bytes) = cloud_field(bytes, shape)?;
    let (calls, bytes) = u32_field(bytes, 0, u32::MAX)?;
    let (keep, bytes) = u32_field(bytes, 0, u32::MAX)?;
    if !bytes.is_empty() {
        return Err(Stop::Left(bytes.len()));
    }
    Ok(Event::Arm { cloud, calls, keep })
}

#[tactic(auto, unfolding(crate::specs::Reading::rebuild_at))]
fn rebuild_of(alloc: Global, shape: Shape, bytes: &[u8]) -> Result<Event, Stop>
    ensures { Gives (λ x. x) result (rebuild_at shape bytes.now) }
{
    let (user, bytes) = u32_field(bytes, 0, u32::MAX)?;
    let (target, bytes) = cloud_field(bytes, shape)?;
    let (from, bytes) = others_field(alloc, bytes, shape, target)?;
    if !bytes.is_empty() {
        return Err(Stop::Left(bytes.len()));
    }
    Ok(Event::Rebuild {
        user: UserId(user),
        target,
        from,
    })
}

#[tactic(auto, unfolding(crate::specs::Reading::delete_at))]
fn delete_of(alloc: Global, shape: Shape, bytes: &[u8]) -> Result<Event, Stop>
    ensures { Gives (λ x. x) result (delete_at shape bytes.now) }
{
    let (user, bytes) = u32_field(bytes, 0, u32::MAX)?;
    let (path, bytes) = path_field(alloc, bytes)?;
    let (version, bytes) = u64_field(bytes, 0, u64::MAX)?;
    let (cloud, bytes) = cloud_field(bytes, shape)?;
    if !bytes.is_empty() {
        return Err(Stop::Left(bytes.len()));
    }
    Ok(Event::Delete {
        user: UserId(user),
        path,
        version: Version(version),
        cloud,
    })
}

// What a line asks for, by its first word.
fn fields_of(
    alloc: Global,
    shape: Shape,
    jobs: u32,
    command: FirstWord,
    bytes: &[u8],
) -> Result<Event, Stop>
    ensures { Gives (λ x. x) result (fields_at shape jobs command bytes.now) }
{
    match command {
        FirstWord::Upload => upload_of(alloc, bytes),
        FirstWord::Step => {
            let (job, lane) = lane_of(shape, jobs, bytes)?;
            Ok(Event::Step { job, lane })
        }
        FirstWord::Lose => {
            let (job, lane) = lane_of(shape, jobs, bytes)?;
            Ok(Event::Lose { job, lane })
        }
        FirstWord::Drop => {
            let (job, lane) = lane_of(shape, jobs, bytes)?;
            Ok(Event::Drop { job, lane })
        }
        FirstWord::Finish => {
            let job = job_of(jobs, bytes)?;
            Ok(Event::Finish { job })
        }
        FirstWord::Get => get_of(alloc, shape, bytes),
        FirstWord::List => list_of(shape, bytes),
        FirstWord::Arm => arm_of(shape, bytes),
        FirstWord::Restart => {
            let cloud = cloud_of(shape, bytes)?;
            Ok(Event::Restart { cloud })
        }
        FirstWord::Replace => {
            let cloud = cloud_of(shape, bytes)?;
            Ok(Event::Replace { cloud })
        }
        FirstWord::Rebuild => rebuild_of(alloc, shape, bytes),
        FirstWord::Delete => delete_of(alloc, shape, bytes),
    }
}

#[tactic(auto, unfolding(crate::specs::Reading::event_left))]
fn event_of(alloc: Global, shape: Shape, jobs: u32, line: &[u8]) -> Result<Event, Stop>
    ensures { Gives (λ x. x) result (event_left shape jobs line.now) }
{
    let (command, bytes) = first_word(line, jobs)?;
    fields_of(alloc, shape, jobs, command, bytes)
}

/// What the first line of a script says, without its newline: `cdstore 1 N K`, and then nothing or five rooms, USERS
/// SHARES RECIPES OWNERS FILES: 1 to 256 users, and how much each of them may hold. The shape is that of N clouds of which
/// any K give a file back; the rooms are the usual ones where the line names none. `At` is the first field that fails: of
/// the rooms the first that is out of its range, or with which all users together hold too much. It takes no memory, and
/// `NoMemory` is no answer.
#[tactic(auto, unfolding(crate::specs::Reading::header_at))]
pub fn read_header(line: &[u8]) -> Result<(Shape, UserRooms), ScriptErr>
    ensures reads { ReadsScript result (header_at line.now) }
    ensures memory { IfErr result (λ e. e ≢ ScriptErr.NoMemory) }
    ensures allowed { IfOk result (λ header. AreRooms header.1) }
    // A line is read as what it is a spelling of, and no other line is read.
    ensures grammar { (shape : Shape) (rooms : UserRooms)
        → (header_at line.now ≡ Ok (shape, rooms)) ↔ IsHeaderLine line.now (shape, rooms) }
{
    match header_of(line) {
        Ok(header) => Ok(header),
        Err(Stop::Memory) => Err(ScriptErr::NoMemory),
        Err(Stop::Left(left)) => Err(wrong_at(line, left)),
    }
}

/// What a further line of a script says, without its newline, where so many uploads came before it. `At` is the first field
/// that fails: its first place, or the line's end where the field is missing, or the place of what stands behind the
/// last field.
#[tactic(auto, unfolding(crate::specs::Reading::event_at))]
pub fn read_line(alloc: Global, shape: Shape, jobs: u32, line: &[u8]) -> Result<Event, ScriptErr>
    ensures reads { ReadsScript result (event_at shape jobs line.now) }
    ensures fits { IfOk result (FitsEvent shape jobs) }
    // A line is read as the event that it is the spelling of, and no other line is read.
    ensures grammar { (event : Event) → (event_at shape jobs line.now ≡ Ok event) ↔ IsLine shape jobs line.now event }
{
    match event_of(alloc, shape, jobs, line) {
        Ok(event) => Ok(event),
        Err(Stop::Memory) => Err(ScriptErr::NoMemory),
        Err(Stop::Left(left)) => Err(wrong_at(line, left)),
    }
}
