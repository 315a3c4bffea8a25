//! The lines of the session, carried out.

ghost use Rattle.std.specs.Prelude.{◌≡◌, ◌<◌, ◌≤◌, ◌+◌, ◌-◌, ◌/◌, ◌*◌, ℕ, List, [], ◌∷◌, ◌++◌, length, map, IfOk, OnOk};
ghost use Rattle.std.specs.Prelude.{OnErr, IsTrue};
ghost use Rattle.std.specs.List.{flat_map, range_with_len};
ghost use Rattle.lane_steps.specs.CdEdges.Disk.{Cloud};
ghost use Rattle.lane_steps.specs.UploadJob.Upload.{FileVersion};
ghost use Rattle.lane_steps.specs.Reached.{IsReached};
ghost use Rattle.replay_core.specs.Session.event.Event.{Event};
ghost use Rattle.replay_core.specs.Session.event.Event.TheVariants as events;
ghost use Rattle.replay_core.specs.SessionModel.Vault.{Setting};
ghost use Rattle.replay_core.specs.SessionModel.Steps.{version_of as file_version};
ghost use Rattle.replay_core.specs.SessionModel.Kept.{uploads};
ghost use Rattle.replay_core.specs.ScriptLines.At.{KeepsOtherClouds};
ghost use Rattle.generated_session.specs.Drawn.{file_of};
ghost use Rattle.generated_session.specs.Lines.{user_at, version_at, file_path, clouds_at, upload_lines, get_line};
ghost use Rattle.generated_session.specs.Lines.{generated_lines};
ghost use Rattle.generated_session.specs.Progress.{no_numbers, HasRoom, GrowsByLanes, AreWithin, BringsLanes, CutsJob};
ghost use Rattle.generated_session.specs.Progress.{HasMade, HasLastJob, IsFileOf, IsStopped, Makes, StopsWithin};

use crate::Numbers;
use crate::counting::{count_got, count_lane, is_same};
use crate::drawing::make_file;
use lane_steps::{
    Bytes, CloudNo, Clouds, Job, LaneNews, NoMemory, ReplyBuf, Shelf, UserId, Version, finish_lane,
};
use replay_core::{LocalLink, law_of_moments, law_of_parts};
use std::alloc::Global;
use subset_restore::restore_any;

// The one path of all files.
const PATH: &[u8] = b"file";

/// What is written and read on the way, and kept from line to line for its memory alone.
#[derive(Drop)]
pub struct SessionBuffers {
    file: Bytes,
    content: Bytes,
    reply: ReplyBuf,
    told: Vec<LaneNews>,
}

impl SessionBuffers {
    /// Empty buffers. The one for replies takes its 4,194,304 bytes here.
    pub fn make(alloc: Global) -> Result<SessionBuffers, NoMemory> {
        let reply = ReplyBuf::make(alloc)?;
        Ok(SessionBuffers {
            file: Bytes::new(alloc),
            content: Bytes::new(alloc),
            reply,
            told: Vec::new(alloc),
        })
    }
}

// The user of a file.
fn user_of(number: u32) -> UserId
    requires { 1 ≤ number }
    ensures { result ≡ user_at number }
{
    UserId(1 + (number - 1) % 3)
}

// The number of a file's version.
fn version_of(number: u32) -> u32
    requires { 1 ≤ number }
    ensures { result ≡ (version_at number).0 }
{
    1 + (number - 1) / 3
}

// Three clouds.
fn three_clouds(alloc: Global, first: u8, second: u8, third: u8) -> Result<Clouds, NoMemory>
    requires { (first < second) × (second < third) }
    ensures { IfOk result (λ clouds. clouds ≡ first ∷ second ∷ third ∷ []) }
{
    let mut clouds = Clouds::new(alloc);
    clouds.push(CloudNo(first))?;
    clouds.push(CloudNo(second))?;
    clouds.push(CloudNo(third))?;
    Ok(clouds)
}

// The three clouds of four that a file is read back from.
fn clouds_of(alloc: Global, number: u32) -> Result<Clouds, NoMemory>
    ensures { IfOk result (λ clouds. clouds ≡ clouds_at number) }
{
    match number % 4 {
        0 => three_clouds(alloc, 1, 2, 3),
        1 => three_clouds(alloc, 0, 2, 3),
        2 => three_clouds(alloc, 0, 1, 3),
        _ => three_clouds(alloc, 0, 1, 2),
    }
}

// Brings one lane to its end, and counts what came of it. Of the errors of a step only want of memory comes from a cloud of
// this process.
fn finish_one<V: Shelf>(
    link: &mut LocalLink<'_, V>,
    job: &mut Job,
    lane: CloudNo,
    buffers: &mut SessionBuffers,
    numbers: &mut Numbers,
) -> Result<(), NoMemory>
    requires below { lane.0 < link.old.servers.shape.n }
    requires reached { IsReached link.old.servers.shape job.old }
    requires room { HasRoom 1 numbers.old }
    ensures does { OnOk result (BringsLanes V.cloud_at (λ s. lane.0 ∷ []) link.old job.old link.new job.new
        numbers.old numbers.new) }
    ensures cut { OnErr result (CutsJob V.cloud_at (λ s. lane.0 ∷ []) link.old job.old link.new) }
    ensures grows { GrowsByLanes 1 numbers.old numbers.new }
    ensures leaves { KeepsOtherClouds V.cloud_at link.old link.new }
    ensures reached { IsReached link.old.servers.shape job.new }
    ensures same_reference { link.new.shelf.ghost_name ≡ link.old.shelf.ghost_name }
{
    let before = job.stored();
    buffers.told.clear();
    let came = finish_lane(
        link,
        job,
        lane,
        &mut buffers.content,
        &mut buffers.reply,
        &mut buffers.told,
    );
    match came {
        Ok(()) => {}
        Err(_) => return Err(NoMemory),
    }
    let now = job.stored();
    count_lane(buffers.told.as_slice(), before, now, numbers);
    Ok(())
}

// Brings all lanes to their ends, one after another.
fn finish_lanes<V: Shelf>(
    link: &mut LocalLink<'_, V>,
    job: &mut Job,
    buffers: &mut SessionBuffers,
    numbers: &mut Numbers,
) -> Result<(), NoMemory>
    requires reached { IsReached link.old.servers.shape job.old }
    requires room { HasRoom 256 numbers.old }
    ensures does { OnOk result
        (BringsLanes V.cloud_at (λ s. range_with_len 0 s.shape.n) link.old job.old link.new job.new
        numbers.old numbers.new) }
    ensures cut { OnErr result (CutsJob V.cloud_at (λ s. range_with_len 0 s.shape.n) link.old job.old link.new) }
    ensures grows { GrowsByLanes 256 numbers.old numbers.new }
    ensures leaves { KeepsOtherClouds V.cloud_at link.old link.new }
    ensures same_reference { link.new.shelf.ghost_name ≡ link.old.shelf.ghost_name }
{
    let lanes = link.shape().n();
    for lane in 0..lanes {
        finish_one(link, job, CloudNo(lane), buffers, numbers)?;
    }
    Ok(())
}

// Brings the last job to its end: the line `finish` of its number.
fn finish_job<V: Shelf>(
    link: &mut LocalLink<'_, V>,
    job: &mut Job,
    buffers: &mut SessionBuffers,
    numbers: &mut Numbers,
) -> Result<(), NoMemory>
    requires reached { IsReached link.old.servers.shape job.old }
    requires room { HasRoom 256 numbers.old }
    ensures makes { OnOk result ((begun : ℕ → Cloud) (s : Setting) (files : List FileVersion) (script : List Event)
        (count : ℕ)
        → HasLastJob V.cloud_at begun s link.old files script count numbers.old job.old
        → HasMade V.cloud_at begun s link.new files (script ++ events.Finish count ∷ []) count numbers.new) }
    ensures stops { OnErr result ((begun : ℕ → Cloud) (s : Setting) (files : List FileVersion) (script : List Event)
        (count : ℕ)
        → HasLastJob V.cloud_at begun s link.old files script count numbers.old job.old
        → IsStopped V.cloud_at begun s link.new (script ++ events.Finish count ∷ [])) }
    ensures grows { GrowsByLanes 256 numbers.old numbers.new }
    ensures shape { link.new.servers.shape ≡ link.old.servers.shape }
    ensures same_reference { link.new.shelf.ghost_name ≡ link.old.shelf.ghost_name }
{
    law_of_parts();
    law_of_moments();
    match finish_lanes(link, job, buffers, numbers) {
        Ok(()) => Ok(()),
        Err(NoMemory) => Err(NoMemory),
    }
}

// Uploads the file of a number, and brings its job to its end.
fn upload_file<V: Shelf>(
    alloc: Global,
    seed: u64,
    pieces: u32,
    number: u32,
    link: &mut LocalLink<'_, V>,
    buffers: &mut SessionBuffers,
    numbers: &mut Numbers,
) -> Result<(), NoMemory>
    requires number { (1 ≤ number) × (number ≤ 1000) }
    requires pieces { pieces ≤ 8192 }
    requires room { AreWithin (number - 1) numbers.old }
    ensures makes { OnOk result ((files : List FileVersion) → Makes V.cloud_at files (upload_lines seed pieces number)
        (number - 1) number link.old link.new numbers.old numbers.new) }
    ensures stops { OnErr result
        ((files : List FileVersion) → StopsWithin V.cloud_at files (upload_lines seed pieces number)
        (number - 1) link.old link.new numbers.old) }
    ensures within { OnOk result (AreWithin number numbers.new) }
    ensures equal { numbers.new.equal ≡ numbers.old.equal }
    ensures shape { link.new.servers.shape ≡ link.old.servers.shape }
    ensures same_reference { link.new.shelf.ghost_name ≡ link.old.shelf.ghost_name }
{
    law_of_moments();
    let user = user_of(number);
    let version = version_of(number);
    match make_file(seed, pieces, version, &mut buffers.file) {
        Ok(()) => {}
        Err(NoMemory) => return Err(NoMemory),
    }
    let shape = link.shape();
    let version = Version(version as u64);
    let mut job = match Job::new(alloc, shape, user, PATH, version, buffers.file.as_slice()) {
        Ok(job) => job,
        Err(NoMemory) => return Err(NoMemory),
    };
    numbers.bytes += buffers.file.len() as u64;
    match finish_job(link, &mut job, buffers, numbers) {
        Ok(()) => Ok(()),
        Err(NoMemory) => Err(NoMemory),
    }
}

// Reads the file of a number from the three clouds, and counts whether it is the one that was made.
fn get_file<V: Shelf>(
    alloc: Global,
    seed: u64,
    pieces: u32,
    number: u32,
    link: &mut LocalLink<'_, V>,
    buffers: &mut SessionBuffers,
    numbers: &mut Numbers,
) -> Result<(), NoMemory>
    requires number { (1 ≤ number) × (number ≤ 1000) }
    requires shape { (link.old.servers.shape.n ≡ 4) × (link.old.servers.shape.k ≡ 3) }
    requires few { numbers.old.equal < number }
    ensures makes { OnOk result ((files : List FileVersion) (count : ℕ)
        → IsFileOf files (file_version (user_at number) file_path (version_at number)
        (file_of seed pieces (version_at number).0))
        → Makes V.cloud_at files (get_line number ∷ []) count count link.old link.new numbers.old numbers.new) }
    ensures stops { OnErr result ((files : List FileVersion) (count : ℕ)
        → StopsWithin V.cloud_at files (get_line number ∷ []) count link.old link.new numbers.old) }
    ensures few { OnOk result (numbers.new.equal ≤ number) }
    ensures shape { link.new.servers.shape ≡ link.old.servers.shape }
    ensures same_reference { link.new.shelf.ghost_name ≡ link.old.shelf.ghost_name }
{
    law_of_parts();
    law_of_moments();
    let user = user_of(number);
    let version = version_of(number);
    match make_file(seed, pieces, version, &mut buffers.file) {
        Ok(()) => {}
        Err(NoMemory) => return Err(NoMemory),
    }
    let clouds = match clouds_of(alloc, number) {
        Ok(clouds) => clouds,
        Err(NoMemory) => return Err(NoMemory),
    };
    clouds.rises();
    let shape = link.shape();
    let mut file = Bytes::new(alloc);
    let came = restore_any(
        alloc,
        link,
        shape,
        user,
        PATH,
        Version(version as u64),
        &clouds,
        &mut file,
    );
    let same = is_same(file.as_slice(), buffers.file.as_slice());
    count_got(came, same, numbers)
}

// Uploads all files, one after another.
fn upload_all<V: Shelf>(
    alloc: Global,
    seed: u64,
    files: u32,
    pieces: u32,
    link: &mut LocalLink<'_, V>,
    buffers: &mut SessionBuffers,
    numbers: &mut Numbers,
) -> Result<(), NoMemory>
    requires files { files ≤ 1000 }
    requires pieces { pieces ≤ 8192 }
    requires none { numbers.old ≡ no_numbers }
    ensures makes { OnOk result ((all : List FileVersion)
        → Makes V.cloud_at all (flat_map (upload_lines seed pieces) (range_with_len 1 files)) 0 files
        link.old link.new numbers.old numbers.new) }
    ensures stops { OnErr result ((all : List FileVersion)
        → StopsWithin V.cloud_at all (flat_map (upload_lines seed pieces) (range_with_len 1 files)) 0
        link.old link.new numbers.old) }
    ensures equal { numbers.new.equal ≡ 0 }
    ensures shape { link.new.servers.shape ≡ link.old.servers.shape }
    ensures same_reference { link.new.shelf.ghost_name ≡ link.old.shelf.ghost_name }
{
    for place in 0..files {
        upload_file(alloc, seed, pieces, place + 1, link, buffers, numbers)?;
    }
    Ok(())
}

// Reads all files, one after another.
fn get_all<V: Shelf>(
    alloc: Global,
    seed: u64,
    files: u32,
    pieces: u32,
    link: &mut LocalLink<'_, V>,
    buffers: &mut SessionBuffers,
    numbers: &mut Numbers,
) -> Result<(), NoMemory>
    requires files { files ≤ 1000 }
    requires shape { (link.old.servers.shape.n ≡ 4) × (link.old.servers.shape.k ≡ 3) }
    requires equal { numbers.old.equal ≡ 0 }
    ensures makes { OnOk result (Makes V.cloud_at (uploads (generated_lines seed files pieces))
        (map get_line (range_with_len 1 files)) files files link.old link.new numbers.old numbers.new) }
    ensures stops { OnErr result (StopsWithin V.cloud_at (uploads (generated_lines seed files pieces))
        (map get_line (range_with_len 1 files)) files link.old link.new numbers.old) }
    ensures same_reference { link.new.shelf.ghost_name ≡ link.old.shelf.ghost_name }
{
    for place in 0..files {
        get_file(alloc, seed, pieces, place + 1, link, buffers, numbers)?;
    }
    Ok(())
}

/// Carries the lines of the session out, over clouds that are opened and in which there is nothing yet, and gives its numbers.
pub fn carry_all<V: Shelf>(
    alloc: Global,
    seed: u64,
    files: u32,
    pieces: u32,
    link: &mut LocalLink<'_, V>,
    buffers: &mut SessionBuffers,
) -> Result<Numbers, NoMemory>
    requires files { files ≤ 1000 }
    requires pieces { pieces ≤ 8192 }
    requires shape { (link.old.servers.shape.n ≡ 4) × (link.old.servers.shape.k ≡ 3) }
    ensures makes { IfOk result (λ numbers. Makes V.cloud_at (uploads (generated_lines seed files pieces))
        (generated_lines seed files pieces) 0 files link.old link.new no_numbers numbers) }
    ensures stops { OnErr result (StopsWithin V.cloud_at (uploads (generated_lines seed files pieces))
        (generated_lines seed files pieces) 0 link.old link.new no_numbers) }
    ensures same_reference { link.new.shelf.ghost_name ≡ link.old.shelf.ghost_name }
{
    let mut numbers = Numbers {
        bytes: 0,
        stored: 0,
        sent: 0,
        known: 0,
        equal: 0,
    };
    match upload_all(alloc, seed, files, pieces, link, buffers, &mut numbers) {
        Ok(()) => {}
        Err(NoMemory) => return Err(NoMemory),
    }
    match get_all(alloc, seed, files, pieces, link, buffers, &mut numbers) {
        Ok(()) => Ok(numbers),
        Err(NoMemory) => Err(NoMemory),
    }
}
