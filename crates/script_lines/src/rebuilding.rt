//! The line that brings a user's versions back to a cloud from k others.

ghost use Rattle.std.specs.Prelude.{◌≡◌, ◌<◌, ◌++◌, ◌∷◌, [], length, map, OnOk, OnErr};
ghost use Rattle.std.specs.List.{Contains};
ghost use Rattle.session_model.specs.Session.Spelling.{AreClouds};
ghost use Rattle.session_model.specs.Session.Texts.{text_of};
ghost use Rattle.session_model.specs.Session.event.Event.TheVariants as events;
ghost use Rattle.session_model.specs.Transcript.line.Line.TheVariants as lines;
ghost use Rattle.session_model.specs.Steps.{skip_word, skip_line, rebuild_refusal};
ghost use Rattle.script_lines.specs.At.{KeepsOtherClouds};
ghost use Rattle.script_lines.specs.Does.{CarriesOut, IsCutOff};
ghost use Rattle.script_lines.specs.Rebuilding.{SaysRebuild};

use crate::Jobs;
use crate::news::put_line;
use recipe::{CloudNo, Clouds, NoMemory, UserId};
use session_model::{
    Answer, Line, LocalLink, RebuildErr, Rebuilt, Refusal, Shelf, Skip, SkipWhy, SkipWord, Skips,
    TargetWhy, as_refusal, law_of_parts, rebuild,
};
use std::alloc::Global;

// Why a version was skipped, as a transcript says it.
fn as_word(why: SkipWhy) -> SkipWord
    ensures { result ≡ skip_word why }
{
    match why {
        SkipWhy::Missing { .. } => SkipWord::Missing,
        SkipWhy::RecipesDiffer { .. } => SkipWord::RecipesDiffer,
        SkipWhy::ShareLength { .. } => SkipWord::ShareLength,
        SkipWhy::BadSecret { .. } => SkipWord::BadSecret,
        SkipWhy::BadPad { .. } => SkipWord::BadPad,
        SkipWhy::BadName { .. } => SkipWord::BadName,
        SkipWhy::BadNamePad { .. } => SkipWord::BadNamePad,
        SkipWhy::BadPath { .. } => SkipWord::BadPath,
        SkipWhy::TargetExists => SkipWord::TargetExists,
    }
}

// The line of a version that was skipped.
fn as_skipped(skip: Skip) -> Line
    ensures { result ≡ skip_line skip }
{
    Line::Skipped {
        tag: skip.tag,
        version: skip.version,
        why: as_word(skip.why),
    }
}

// Why a rebuild stopped, as a transcript says it; none for want of memory here.
fn as_stop(error: RebuildErr) -> Option<Refusal>
    ensures { result ≡ rebuild_refusal error }
{
    match error {
        RebuildErr::FromRestore(why) => as_refusal(why),
        RebuildErr::TargetLost => Some(Refusal::Target {
            why: TargetWhy::Lost,
        }),
        RebuildErr::TargetFault => Some(Refusal::Target {
            why: TargetWhy::Fault,
        }),
        RebuildErr::TargetDamaged { at, byte } => Some(Refusal::Target {
            why: TargetWhy::Damaged { at, byte },
        }),
        RebuildErr::TargetRotten { named, found } => Some(Refusal::Target {
            why: TargetWhy::Rotten { named, found },
        }),
        RebuildErr::TargetFull {
            room,
            used,
            need,
            limit,
        } => Some(Refusal::Target {
            why: TargetWhy::Full {
                room,
                used,
                need,
                limit,
            },
        }),
        RebuildErr::TargetLacking { place } => Some(Refusal::Target {
            why: TargetWhy::Lacking { place },
        }),
        RebuildErr::TargetNoMemory => Some(Refusal::Target {
            why: TargetWhy::NoMemory,
        }),
        RebuildErr::TargetStrange { kind } => Some(Refusal::Target {
            why: TargetWhy::Strange { kind },
        }),
        RebuildErr::NoMemory => None,
    }
}

// Appends the line of each version that was skipped.
fn put_skips(skips: &Skips, text: &mut Answer) -> Result<(), NoMemory>
    ensures { OnOk result (text.new ≡ text.old ++ text_of (map skip_line skips.now)) }
{
    for place in 0..skips.len() {
        match skips.get(place) {
            Some(skip) => match put_line(as_skipped(*skip), text) {
                Ok(()) => {}
                Err(NoMemory) => return Err(NoMemory),
            },
            None => unreachable!(),
        }
    }
    Ok(())
}

// Appends what a rebuild did. More skips than a line counts end it as want of memory.
fn put_done(
    user: UserId,
    cloud: CloudNo,
    rebuilt: &Rebuilt,
    text: &mut Answer,
) -> Result<(), NoMemory>
    ensures { OnOk result (text.new ≡ text.old
        ++ text_of (lines.Rebuilt user cloud rebuilt.now.files (length rebuilt.now.skipped)
        ∷ map skip_line rebuilt.now.skipped)) }
{
    let files = rebuilt.files;
    let count = rebuilt.skipped.len();
    if count > u32::MAX as usize {
        return Err(NoMemory);
    }
    let skipped = count as u32;
    let line = Line::Rebuilt {
        user,
        cloud,
        files,
        skipped,
    };
    match put_line(line, text) {
        Ok(()) => put_skips(&rebuilt.skipped, text),
        Err(NoMemory) => Err(NoMemory),
    }
}

// Appends what a rebuild did, or why it stopped.
fn put_rebuilt(
    user: UserId,
    cloud: CloudNo,
    came: Result<Rebuilt, RebuildErr>,
    text: &mut Answer,
) -> Result<(), NoMemory>
    ensures { OnOk result (SaysRebuild user cloud.0 came text.old text.new) }
{
    match came {
        Ok(rebuilt) => put_done(user, cloud, &rebuilt, text),
        Err(error) => match as_stop(error) {
            Some(why) => put_line(Line::Refused { why }, text),
            None => Err(NoMemory),
        },
    }
}

/// `rebuild USER CLOUD CLOUDS`: the user's versions at the first of these clouds are brought to the target from all of them.
/// How many stand there now, and each that was skipped; or why it stopped. What was brought before it stopped stays.
pub fn rebuild_line<V: Shelf>(
    alloc: Global,
    link: &mut LocalLink<'_, V>,
    jobs: &Jobs,
    user: UserId,
    target: CloudNo,
    from: &Clouds,
    text: &mut Answer,
) -> Result<(), NoMemory>
    requires below { target.0 < link.old.servers.shape.n }
    requires clouds { AreClouds link.old.servers.shape from.now }
    requires apart { ¬ Contains from.now target.0 }
    ensures does { OnOk result (CarriesOut V.cloud_at (events.Rebuild user target from.now) link.old jobs.now
        link.new jobs.now text.old text.new) }
    ensures cut { OnErr result (IsCutOff V.cloud_at (events.Rebuild user target from.now) link.old jobs.now link.new) }
    ensures leaves { KeepsOtherClouds V.cloud_at link.old link.new }
    ensures same_reference { link.new.shelf.ghost_name ≡ link.old.shelf.ghost_name }
{
    law_of_parts();
    let shape = link.shape();
    let came = rebuild(alloc, link, shape, user, target, from);
    put_rebuilt(user, target, came, text)
}
