//! What a transcript says of news.

ghost use Rattle.std.specs.Prelude.{◌≡◌, ◌++◌, ◌∷◌, [], ◌&&◌, not, OnOk, OnErr};
ghost use Rattle.session_model.specs.Transcript.line.Line.TheVariants as lines;
ghost use Rattle.session_model.specs.Steps.{as_told};
ghost use Rattle.session_model.specs.Session.Texts.{text_of};
ghost use Rattle.script_lines.specs.Stepping.{stored_if};

use recipe::{Bytes, NoMemory};
use session_model::{Answer, LaneNews, Line, News};

/// The news of a lane, as a transcript says them.
pub fn as_news(told: LaneNews) -> News
    ensures { result ≡ as_told told }
{
    match told {
        LaneNews::Known { known, asked } => News::Known { known, asked },
        LaneNews::Stored { new, sent } => News::Stored { new, sent },
        LaneNews::Committed => News::Committed,
        LaneNews::Exists => News::Exists,
        LaneNews::Lacking { place } => News::Lacking { place },
        LaneNews::Full {
            room,
            used,
            need,
            limit,
        } => News::Full {
            room,
            used,
            need,
            limit,
        },
        LaneNews::Fault => News::Fault,
        LaneNews::Damaged { at, byte } => News::Damaged { at, byte },
        LaneNews::Rotten { named, found } => News::Rotten { named, found },
        LaneNews::NoMemory => News::NoMemory,
    }
}

/// Appends the text of one line. For want of memory nothing changes.
pub fn put_line(line: Line, text: &mut Answer) -> Result<(), NoMemory>
    ensures ok { OnOk result (text.new ≡ text.old ++ text_of (line ∷ [])) }
    ensures err { OnErr result (text.new ≡ text.old) }
{
    text.push(&line)
}

/// Appends the text of the line of a file that was read. For want of memory nothing changes.
pub fn put_got(file: Bytes, text: &mut Answer) -> Result<(), NoMemory>
    ensures ok { OnOk result (text.new ≡ text.old ++ text_of (lines.Got file ∷ [])) }
    ensures err { OnErr result (text.new ≡ text.old) }
{
    text.push_got(file)
}

/// Whether something holds now that didn't hold before.
pub fn becomes(before: bool, now: bool) -> bool
    ensures { result ≡ (not before && now) }
{
    !before && now
}

/// Appends the line of a job that is stored, where it is.
pub fn put_stored(job: u32, stored: bool, text: &mut Answer) -> Result<(), NoMemory>
    ensures { OnOk result (text.new ≡ text.old ++ text_of (stored_if job stored)) }
{
    if stored {
        put_line(Line::JobStored { job }, text)
    } else {
        Ok(())
    }
}
