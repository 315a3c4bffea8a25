//! The line that brings a job's lanes to their ends.

ghost use Rattle.std.specs.Prelude.{◌≡◌, ◌<◌, ◌++◌, ◌∷◌, [], length, map, OnOk, OnErr};
ghost use Rattle.std.specs.List.{range_with_len};
ghost use Rattle.session_model.specs.Session.Spelling.{IsJob};
ghost use Rattle.session_model.specs.Session.event.Event.TheVariants as events;
ghost use Rattle.session_model.specs.Steps.{step_line as step_line_of};
ghost use Rattle.session_model.specs.Session.Texts.{text_of};
ghost use Rattle.script_lines.specs.At.{KeepsOtherClouds};
ghost use Rattle.script_lines.specs.Does.{CarriesOut, IsCutOff};
ghost use Rattle.script_lines.specs.Finishing.{lane_lines, IsBrought, FinishesLanes, CutsLanes};
ghost use Rattle.script_lines.specs.Jobs.{AreReached};

use crate::Jobs;
use crate::news::{as_news, becomes, put_line, put_stored};
use deletions::ReplyBuf;
use recipe::{Bytes, CloudNo, NoMemory};
use session_jobs::StepErr;
use session_model::{Answer, LaneNews, Line, LocalLink, News, Shelf, law_of_parts};

// Appends what each reply told.
fn put_told(job: u32, lane: CloudNo, told: &[LaneNews], text: &mut Answer) -> Result<(), NoMemory>
    ensures { OnOk result (text.new ≡ text.old ++ text_of (map (step_line_of job lane.0) told.now)) }
{
    for news in told {
        let news = as_news(*news);
        match put_line(Line::Step { job, lane, news }, text) {
            Ok(()) => {}
            Err(NoMemory) => return Err(NoMemory),
        }
    }
    Ok(())
}

// Appends what a lane told on its way, how it ended, and where it made the job a stored one the line of that.
fn put_lane(
    job: u32,
    lane: CloudNo,
    came: Result<(), StepErr>,
    told: &[LaneNews],
    stored: bool,
    text: &mut Answer,
) -> Result<(), NoMemory>
    ensures brought { OnOk result (IsBrought came) }
    ensures text { OnOk result (text.new ≡ text.old ++ text_of (lane_lines job lane.0 came told.now stored)) }
{
    match put_told(job, lane, told, text) {
        Ok(()) => {}
        Err(NoMemory) => return Err(NoMemory),
    }
    match came {
        Ok(()) => put_stored(job, stored, text),
        Err(StepErr::Lost) => put_line(Line::Lost { job, lane }, text),
        Err(StepErr::Strange { kind }) => {
            let news = News::Strange { kind };
            put_line(Line::Step { job, lane, news }, text)
        }
        Err(StepErr::NoMemory) => Err(NoMemory),
    }
}

// Brings one lane to its end, with its lines.
fn finish_one<V: Shelf>(
    link: &mut LocalLink<'_, V>,
    jobs: &mut Jobs,
    job: u32,
    lane: CloudNo,
    content: &mut Bytes,
    reply: &mut ReplyBuf,
    told: &mut Vec<LaneNews>,
    text: &mut Answer,
) -> Result<(), NoMemory>
    requires job { IsJob (length jobs.old) job }
    requires below { lane.0 < link.old.servers.shape.n }
    requires reached { AreReached link.old.servers.shape jobs.old }
    ensures does { OnOk result (FinishesLanes V.cloud_at job (λ s. lane.0 ∷ []) link.old jobs.old
        link.new jobs.new text.old text.new) }
    ensures cut { OnErr result (CutsLanes V.cloud_at job (λ s. lane.0 ∷ []) link.old jobs.old link.new) }
    ensures leaves { KeepsOtherClouds V.cloud_at link.old link.new }
    ensures reached { AreReached link.old.servers.shape jobs.new }
    ensures count { length jobs.new ≡ length jobs.old }
    ensures same_reference { link.new.shelf.ghost_name ≡ link.old.shelf.ghost_name }
{
    let before = jobs.is_stored(job);
    told.clear();
    let came = jobs.finish(link, job, lane, content, reply, told);
    let stored = becomes(before, jobs.is_stored(job));
    put_lane(job, lane, came, told.as_slice(), stored, text)
}

// Brings all lanes to their ends, one after another, with their lines.
fn finish_lanes<V: Shelf>(
    link: &mut LocalLink<'_, V>,
    jobs: &mut Jobs,
    job: u32,
    content: &mut Bytes,
    reply: &mut ReplyBuf,
    told: &mut Vec<LaneNews>,
    text: &mut Answer,
) -> Result<(), NoMemory>
    requires job { IsJob (length jobs.old) job }
    requires reached { AreReached link.old.servers.shape jobs.old }
    ensures does { OnOk result (FinishesLanes V.cloud_at job (λ s. range_with_len 0 s.shape.n) link.old jobs.old
        link.new jobs.new text.old text.new) }
    ensures cut { OnErr result (CutsLanes V.cloud_at job (λ s. range_with_len 0 s.shape.n) link.old jobs.old link.new) }
    ensures leaves { KeepsOtherClouds V.cloud_at link.old link.new }
    ensures reached { AreReached link.old.servers.shape jobs.new }
    ensures count { length jobs.new ≡ length jobs.old }
    ensures same_reference { link.new.shelf.ghost_name ≡ link.old.shelf.ghost_name }
{
    let lanes = link.shape().n();
    for lane in 0..lanes {
        finish_one(link, jobs, job, CloudNo(lane), content, reply, told, text)?;
    }
    Ok(())
}

/// `finish JOB`: the job's lanes are brought on, one after another, each until it has no request or a reply stops it.
pub fn finish_line<V: Shelf>(
    link: &mut LocalLink<'_, V>,
    jobs: &mut Jobs,
    job: u32,
    content: &mut Bytes,
    reply: &mut ReplyBuf,
    told: &mut Vec<LaneNews>,
    text: &mut Answer,
) -> Result<(), NoMemory>
    requires job { IsJob (length jobs.old) job }
    requires reached { AreReached link.old.servers.shape jobs.old }
    ensures does { OnOk result (CarriesOut V.cloud_at (events.Finish job) link.old jobs.old
        link.new jobs.new text.old text.new) }
    ensures cut { OnErr result (IsCutOff V.cloud_at (events.Finish job) link.old jobs.old link.new) }
    ensures leaves { KeepsOtherClouds V.cloud_at link.old link.new }
    ensures reached { AreReached link.old.servers.shape jobs.new }
    ensures count { length jobs.new ≡ length jobs.old }
    ensures same_reference { link.new.shelf.ghost_name ≡ link.old.shelf.ghost_name }
{
    law_of_parts();
    match finish_lanes(link, jobs, job, content, reply, told, text) {
        Ok(()) => {}
        Err(NoMemory) => return Err(NoMemory),
    }
    let stored = jobs.is_stored(job);
    put_line(Line::End { job, stored }, text)
}
