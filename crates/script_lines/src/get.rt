//! The line that reads a version of a file.

ghost use Rattle.std.specs.Prelude.{◌≡◌, ◌<◌, ◌++◌, ◌∷◌, [], ℕ, List, Ok, Err, length, OnOk, OnErr};
ghost use Rattle.recipe.specs.CdBase.Limits.{IsPath};
ghost use Rattle.session_model.specs.Session.Spelling.{AreSources};
ghost use Rattle.session_model.specs.Session.event.Event.TheVariants as events;
ghost use Rattle.session_model.specs.Steps.{IsGetLine};
ghost use Rattle.script_lines.specs.At.{KeepsOtherClouds};
ghost use Rattle.script_lines.specs.Does.{CarriesOut, IsCutOff};
ghost use Rattle.script_lines.specs.Getting.{SaysGet};

use crate::Jobs;
use crate::news::{put_got, put_line};
use recipe::{Bytes, Clouds, NoMemory, UserId, Version};
use session_model::{
    Answer, Line, LocalLink, RestoreErr, Shelf, as_refusal, law_of_parts, restore_any,
};
use std::alloc::Global;

// Appends the file that a restore gave, or why it gave none.
fn put_file(file: Bytes, came: Result<(), RestoreErr>, text: &mut Answer) -> Result<(), NoMemory>
    ensures { OnOk result (SaysGet came file text.old text.new) }
{
    match came {
        Ok(()) => put_got(file, text),
        Err(error) => match as_refusal(error) {
            Some(why) => put_line(Line::Refused { why }, text),
            None => Err(NoMemory),
        },
    }
}

/// `get USER PATH VERSION CLOUDS`: the version's bytes from any k of these clouds, or why not.
pub fn get_line<V: Shelf>(
    alloc: Global,
    link: &mut LocalLink<'_, V>,
    jobs: &Jobs,
    user: UserId,
    path: &[u8],
    version: Version,
    clouds: &Clouds,
    text: &mut Answer,
) -> Result<(), NoMemory>
    requires path { IsPath path.now }
    requires clouds { AreSources link.old.servers.shape clouds.now }
    ensures does { OnOk result (CarriesOut V.cloud_at (events.Get user path.now version clouds.now) link.old jobs.now
        link.new jobs.now text.old text.new) }
    ensures cut { OnErr result (IsCutOff V.cloud_at (events.Get user path.now version clouds.now)
        link.old jobs.now link.new) }
    ensures leaves { KeepsOtherClouds V.cloud_at link.old link.new }
    ensures same_reference { link.new.shelf.ghost_name ≡ link.old.shelf.ghost_name }
{
    law_of_parts();
    let shape = link.shape();
    let mut file = Bytes::new(alloc);
    let came = restore_any(alloc, link, shape, user, path, version, clouds, &mut file);
    put_file(file, came, text)
}
