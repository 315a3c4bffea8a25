//! The lines of a lane.

ghost use Rattle.std.specs.Prelude.{◌≡◌, ◌++◌, ◌∷◌, [], map, OnOk, IfErr};
ghost use Rattle.transcript.specs.declared.line.Line.TheVariants as lines;
ghost use Rattle.transcript.specs.declared.news.News.TheVariants as news;
ghost use Rattle.backup_command.specs.declared.halt.Halt.TheVariants as halts;
ghost use Rattle.backup_command.specs.Steps.{PutsLaneLines};
ghost use Rattle.backup_command.specs.Texts.{as_told, step_line, text_of, end_lines};

use crate::halt::Halt;
use lane_steps::{LaneNews, StepErr};
use transcript::{Bytes, CloudNo, Line, News, NoMemory, write_line};

// What a reply told, as a line says it.
fn as_news(told: LaneNews) -> News
    ensures { result ≡ as_told told }
{
    match told {
        LaneNews::Known { known, asked } => News::Known { known, asked },
        LaneNews::Stored { new, sent } => News::Stored { new, sent },
        LaneNews::Committed => News::Committed,
        LaneNews::Exists => News::Exists,
        LaneNews::Lacking { place } => News::Lacking { place },
        LaneNews::Full {
            room,
            used,
            need,
            limit,
        } => News::Full {
            room,
            used,
            need,
            limit,
        },
        LaneNews::Fault => News::Fault,
        LaneNews::Damaged { at, byte } => News::Damaged { at, byte },
        LaneNews::Rotten { named, found } => News::Rotten { named, found },
        LaneNews::NoMemory => News::NoMemory,
    }
}

/// Appends the text of one line. For want of memory nothing changes.
pub fn put_line(line: Line, text: &mut Bytes) -> Result<(), NoMemory>
    ensures { OnOk result (text.new ≡ text.old ++ text_of (line ∷ [])) }
{
    write_line(&line, text)
}

// Appends what each reply told.
fn put_told(lane: CloudNo, told: &[LaneNews], text: &mut Bytes) -> Result<(), NoMemory>
    ensures { OnOk result (text.new ≡ text.old ++ text_of (map (step_line lane.0) told.now)) }
{
    for news in told {
        let news = as_news(*news);
        match put_line(Line::Step { job: 1, lane, news }, text) {
            Ok(()) => {}
            Err(NoMemory) => return Err(NoMemory),
        }
    }
    Ok(())
}

// Appends the line of a strange reply.
fn put_strange(lane: CloudNo, kind: u8, text: &mut Bytes) -> Result<(), Halt>
    ensures ok { OnOk result (text.new ≡ text.old ++ text_of (lines.Step 1 lane (news.Strange kind) ∷ [])) }
    ensures err { IfErr result (λ halt. halt ≡ halts.NoMemory) }
{
    let news = News::Strange { kind };
    match put_line(Line::Step { job: 1, lane, news }, text) {
        Ok(()) => Ok(()),
        Err(NoMemory) => Err(Halt::NoMemory),
    }
}

/// Appends the lines of a lane that came to this, after these news. It goes on where the lane came to its end, and
/// where a strange reply refused it. Where the ports failed the lines of the news stand there.
pub fn put_lane(
    lane: CloudNo,
    came: Result<(), StepErr>,
    told: &[LaneNews],
    text: &mut Bytes,
) -> Result<(), Halt>
    ensures { PutsLaneLines lane.0 came told.now result text.old text.new }
{
    match put_told(lane, told, text) {
        Ok(()) => {}
        Err(NoMemory) => return Err(Halt::NoMemory),
    }
    match came {
        Ok(()) => Ok(()),
        Err(StepErr::Lost) => Err(Halt::Lost),
        Err(StepErr::Strange { kind }) => put_strange(lane, kind, text),
        Err(StepErr::NoMemory) => Err(Halt::NoMemory),
    }
}

/// Appends the last lines, by whether the version is entered at all clouds.
pub fn put_end(stored: bool, text: &mut Bytes) -> Result<(), NoMemory>
    ensures { OnOk result (text.new ≡ text.old ++ text_of (end_lines stored)) }
{
    if stored {
        match put_line(Line::JobStored { job: 1 }, text) {
            Ok(()) => {}
            Err(NoMemory) => return Err(NoMemory),
        }
    }
    put_line(Line::End { job: 1, stored }, text)
}
