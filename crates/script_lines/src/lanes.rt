//! The lines on one lane of a job: a step, a request that is lost, and a reply that is lost.

ghost use Rattle.std.specs.Prelude.{◌≡◌, ◌<◌, ◌≤◌, ◌++◌, ◌∷◌, [], length, false, IsTrue, OnOk, OnErr};
ghost use Rattle.deletions.specs.Frames.Frames.{frame_limit};
ghost use Rattle.session_model.specs.Session.Spelling.{IsJob};
ghost use Rattle.session_model.specs.Session.event.Event.TheVariants as events;
ghost use Rattle.session_model.specs.Transcript.line.Line.TheVariants as lines;
ghost use Rattle.session_model.specs.Transcript.news.News.TheVariants as news_words;
ghost use Rattle.session_model.specs.Session.Texts.{text_of};
ghost use Rattle.script_lines.specs.At.{KeepsOtherClouds};
ghost use Rattle.script_lines.specs.Does.{CarriesOut, IsCutOff};
ghost use Rattle.script_lines.specs.Jobs.{AreReached};
ghost use Rattle.script_lines.specs.Dropping.{Drops};
ghost use Rattle.script_lines.specs.Stepping.{stored_if, step_lines, IsTold};
ghost use Rattle.session_model.specs.Steps.{step_line as step_line_of};

use crate::Jobs;
use crate::news::{as_news, becomes, put_line, put_stored};
use deletions::ReplyBuf;
use recipe::{Bytes, CloudNo, NoMemory};
use session_jobs::{StepErr, law_of_lane_requests};
use session_model::{Answer, Fate, LaneNews, Line, LocalLink, News, Shelf, law_of_parts};

// Appends what a reply told, and where it made the job a stored one the line of that.
fn put_told_step(
    job: u32,
    lane: CloudNo,
    told: LaneNews,
    stored: bool,
    text: &mut Answer,
) -> Result<(), NoMemory>
    ensures { OnOk result (text.new ≡ text.old ++ text_of (step_line_of job lane.0 told ∷ stored_if job stored)) }
{
    let news = as_news(told);
    match put_line(Line::Step { job, lane, news }, text) {
        Ok(()) => put_stored(job, stored, text),
        Err(NoMemory) => Err(NoMemory),
    }
}

// Appends what a step came to, and where it made the job a stored one the line of that.
fn put_step(
    job: u32,
    lane: CloudNo,
    came: Result<Option<LaneNews>, StepErr>,
    stored: bool,
    text: &mut Answer,
) -> Result<(), NoMemory>
    ensures told { OnOk result (IsTold came) }
    ensures text { OnOk result (text.new ≡ text.old ++ text_of (step_lines job lane.0 came stored)) }
{
    match came {
        Ok(None) => {
            let news = News::Done;
            put_line(Line::Step { job, lane, news }, text)
        }
        Ok(Some(told)) => put_told_step(job, lane, told, stored, text),
        Err(StepErr::Lost) => put_line(Line::Lost { job, lane }, text),
        Err(StepErr::Strange { kind }) => {
            let news = News::Strange { kind };
            put_line(Line::Step { job, lane, news }, text)
        }
        Err(StepErr::NoMemory) => Err(NoMemory),
    }
}

/// `step JOB CLOUD`
pub fn step_line<V: Shelf>(
    link: &mut LocalLink<'_, V>,
    jobs: &mut Jobs,
    job: u32,
    lane: CloudNo,
    content: &mut Bytes,
    reply: &mut ReplyBuf,
    text: &mut Answer,
) -> Result<(), NoMemory>
    requires job { IsJob (length jobs.old) job }
    requires below { lane.0 < link.old.servers.shape.n }
    requires reached { AreReached link.old.servers.shape jobs.old }
    ensures does { OnOk result (CarriesOut V.cloud_at (events.Step job lane) link.old jobs.old
        link.new jobs.new text.old text.new) }
    ensures cut { OnErr result (IsCutOff V.cloud_at (events.Step job lane) link.old jobs.old link.new) }
    ensures leaves { KeepsOtherClouds V.cloud_at link.old link.new }
    ensures reached { AreReached link.old.servers.shape jobs.new }
    ensures count { length jobs.new ≡ length jobs.old }
    ensures same_reference { link.new.shelf.ghost_name ≡ link.old.shelf.ghost_name }
{
    law_of_parts();
    let before = jobs.is_stored(job);
    let came = jobs.step(link, job, lane, content, reply);
    let stored = becomes(before, jobs.is_stored(job));
    put_step(job, lane, came, stored, text)
}

// Appends the line of a lane whose request is lost, or that it has none.
fn put_lost(job: u32, lane: CloudNo, has_request: bool, text: &mut Answer) -> Result<(), NoMemory>
    ensures asks { OnOk result (IsTrue has_request → text.new ≡ text.old ++ text_of (lines.Lost job lane ∷ [])) }
    ensures done { OnOk result (has_request ≡ false
        → text.new ≡ text.old ++ text_of (lines.Step job lane news_words.Done ∷ [])) }
{
    if has_request {
        put_line(Line::Lost { job, lane }, text)
    } else {
        put_line(
            Line::Step {
                job,
                lane,
                news: News::Done,
            },
            text,
        )
    }
}

/// `lose JOB CLOUD`: the lane's request is lost before the cloud takes it.
pub fn lose_line<V: Shelf>(
    link: &mut LocalLink<'_, V>,
    jobs: &mut Jobs,
    job: u32,
    lane: CloudNo,
    content: &mut Bytes,
    text: &mut Answer,
) -> Result<(), NoMemory>
    requires job { IsJob (length jobs.old) job }
    requires below { lane.0 < link.old.servers.shape.n }
    requires reached { AreReached link.old.servers.shape jobs.old }
    ensures does { OnOk result (CarriesOut V.cloud_at (events.Lose job lane) link.old jobs.old
        link.new jobs.new text.old text.new) }
    ensures cut { OnErr result (IsCutOff V.cloud_at (events.Lose job lane) link.old jobs.old link.new) }
    ensures same { (link.new ≡ link.old) × (jobs.new ≡ jobs.old) }
{
    law_of_parts();
    let asks = match jobs.next(job, lane, content) {
        Ok(more) => more,
        Err(NoMemory) => return Err(NoMemory),
    };
    put_lost(job, lane, asks, text)
}

// Has the cloud execute the request, where there is one, and loses the reply.
fn drop_reply<V: Shelf>(
    link: &mut LocalLink<'_, V>,
    lane: CloudNo,
    has_request: bool,
    request: &[u8],
    reply: &mut ReplyBuf,
)
    requires below { lane.0 < link.old.servers.shape.n }
    requires framed { IsTrue has_request → length request.now ≤ frame_limit }
    ensures dropped { Drops V.cloud_at lane.0 has_request request.now link.old link.new }
{
    if has_request {
        link.next_fate(Fate::LoseReply);
        let _lost = link.ask_cloud(lane, request, reply);
    }
}

/// `drop JOB CLOUD`: the cloud executes the lane's request, and the reply is lost.
pub fn drop_line<V: Shelf>(
    link: &mut LocalLink<'_, V>,
    jobs: &mut Jobs,
    job: u32,
    lane: CloudNo,
    content: &mut Bytes,
    reply: &mut ReplyBuf,
    text: &mut Answer,
) -> Result<(), NoMemory>
    requires job { IsJob (length jobs.old) job }
    requires below { lane.0 < link.old.servers.shape.n }
    requires reached { AreReached link.old.servers.shape jobs.old }
    ensures does { OnOk result (CarriesOut V.cloud_at (events.Drop job lane) link.old jobs.old
        link.new jobs.new text.old text.new) }
    ensures cut { OnErr result (IsCutOff V.cloud_at (events.Drop job lane) link.old jobs.old link.new) }
    ensures leaves { KeepsOtherClouds V.cloud_at link.old link.new }
    ensures same { jobs.new ≡ jobs.old }
    ensures same_reference { link.new.shelf.ghost_name ≡ link.old.shelf.ghost_name }
{
    law_of_parts();
    law_of_lane_requests();
    let has_request = match jobs.next(job, lane, content) {
        Ok(more) => more,
        Err(NoMemory) => return Err(NoMemory),
    };
    drop_reply(link, lane, has_request, content.as_slice(), reply);
    put_lost(job, lane, has_request, text)
}
