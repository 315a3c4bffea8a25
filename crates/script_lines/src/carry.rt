//! A line of a script, carried out.

ghost use Rattle.std.specs.Prelude.{◌≡◌, ◌↔◌, length, Err, IsOk, IfErr, OnOk, OnErr};
ghost use Rattle.session_model.specs.Session.Spelling.{FitsEvent};
ghost use Rattle.session_model.specs.Session.Scripts.{jobs_after};
ghost use Rattle.script_lines.specs.At.{KeepsOtherClouds};
ghost use Rattle.script_lines.specs.Does.{CarriesOut, IsCutOff};
ghost use Rattle.script_lines.specs.Jobs.{AreReached};
ghost use Rattle.script_lines.specs.Replacing.{IsShelfFault};

use crate::delete::delete_line;
use crate::finish::finish_line;
use crate::get::get_line;
use crate::lanes::{drop_line, lose_line, step_line};
use crate::listing::list_line;
use crate::one::{arm_line, replace_line, restart_line};
use crate::rebuilding::rebuild_line;
use crate::upload::upload_line;
use crate::{CarryErr, Jobs};
use deletions::ReplyBuf;
use recipe::{Bytes, NoMemory};
use session_model::{Answer, Event, LaneNews, LocalLink, Shelf};
use std::alloc::Global;

/// What is written and read on the way, and kept from line to line for its memory alone.
#[derive(Drop)]
pub struct Buffers {
    content: Bytes,
    reply: ReplyBuf,
    told: Vec<LaneNews>,
}

impl Buffers {
    /// Empty buffers. The one for replies takes its 4,194,304 bytes here.
    pub fn make(alloc: Global) -> Result<Buffers, NoMemory> {
        let reply = ReplyBuf::make(alloc)?;
        Ok(Buffers {
            content: Bytes::new(alloc),
            reply,
            told: Vec::new(alloc),
        })
    }
}

// The error of a line that wants memory alone.
fn for_memory(done: Result<(), NoMemory>) -> Result<(), CarryErr>
    ensures same { IsOk result ↔ IsOk done }
    ensures memory { OnErr result (result ≡ Err CarryErr.NoMemory) }
{
    match done {
        Ok(()) => Ok(()),
        Err(NoMemory) => Err(CarryErr::NoMemory),
    }
}

/// Carries a line of a script out: over the link where it asks clouds, and else on the jobs. The text of its answers is
/// appended to `text`.
///
/// Of every vault at which the link and the jobs are: with Ok the vault went on by the line, with just these answers, and
/// link and jobs are at the vault that it came to. Whenever a crash comes on the way, each told cloud leaves a list that it
/// had at some moment of the line. With an error a part of the line was carried out, up to some moment of it, and nothing is
/// said of `text`, nor of the jobs but that they took replies in a store of this shape.
///
/// `ShelfFault` comes at the line `replace` alone, where its cloud's areas couldn't be made empty: that cloud's count of
/// faults rose, and else all clouds are as they were. `NoMemory` may come at each line.
pub fn carry_out<V: Shelf>(
    alloc: Global,
    link: &mut LocalLink<'_, V>,
    jobs: &mut Jobs,
    event: &Event,
    buffers: &mut Buffers,
    text: &mut Answer,
) -> Result<(), CarryErr>
    requires fits { FitsEvent link.old.servers.shape (length jobs.old) event.now }
    requires reached { AreReached link.old.servers.shape jobs.old }

    ensures does { OnOk result (CarriesOut V.cloud_at event.now link.old jobs.old
        link.new jobs.new text.old text.new) }
    ensures cut { OnErr result (IsCutOff V.cloud_at event.now link.old jobs.old link.new) }
    ensures shelf { IfErr result (IsShelfFault V.cloud_at event.now link.old jobs.old link.new) }

    // Always: the shape stays, of which clouds the shelf tells, the clouds that the store doesn't have, and the shelf's
    // reference.
    ensures leaves { KeepsOtherClouds V.cloud_at link.old link.new }
    ensures same_reference { link.new.shelf.ghost_name ≡ link.old.shelf.ghost_name }

    // The jobs are ones of the shape still, and an upload is one more.
    ensures reached { AreReached link.old.servers.shape jobs.new }
    ensures count { OnOk result (length jobs.new ≡ jobs_after (length jobs.old) event.now) }
{
    match event {
        Event::Upload {
            user,
            path,
            version,
            bytes,
        } => for_memory(upload_line(
            alloc,
            link,
            jobs,
            *user,
            path.as_slice(),
            *version,
            bytes.as_slice(),
            text,
        )),
        Event::Step { job, lane } => for_memory(step_line(
            link,
            jobs,
            *job,
            *lane,
            &mut buffers.content,
            &mut buffers.reply,
            text,
        )),
        Event::Lose { job, lane } => for_memory(lose_line(
            link,
            jobs,
            *job,
            *lane,
            &mut buffers.content,
            text,
        )),
        Event::Drop { job, lane } => for_memory(drop_line(
            link,
            jobs,
            *job,
            *lane,
            &mut buffers.content,
            &mut buffers.reply,
            text,
        )),
        Event::Finish { job } => for_memory(finish_line(
            link,
            jobs,
            *job,
            &mut buffers.content,
            &mut buffers.reply,
            &mut buffers.told,
            text,
        )),
        Event::Get {
            user,
            path,
            version,
            clouds,
        } => for_memory(get_line(
            alloc,
            link,
            jobs,
            *user,
            path.as_slice(),
            *version,
            clouds,
            text,
        )),
        Event::Arm { cloud, calls, keep } => {
            for_memory(arm_line(link, jobs, *cloud, *calls, *keep, text))
        }
        Event::Restart { cloud } => for_memory(restart_line(link, jobs, *cloud, text)),
        Event::List { user, cloud } => for_memory(list_line(
            alloc,
            link,
            jobs,
            *user,
            *cloud,
            &mut buffers.content,
            &mut buffers.reply,
            text,
        )),
        Event::Replace { cloud } => replace_line(link, jobs, *cloud, text),
        Event::Rebuild { user, target, from } => {
            for_memory(rebuild_line(alloc, link, jobs, *user, *target, from, text))
        }
        Event::Delete {
            user,
            path,
            version,
            cloud,
        } => for_memory(delete_line(
            alloc,
            link,
            *user,
            path.as_slice(),
            *version,
            *cloud,
            &mut buffers.reply,
            text,
        )),
    }
}
