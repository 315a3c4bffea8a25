//! The line that begins a job.

ghost use Rattle.std.specs.Prelude.{◌≡◌, ◌<◌, ◌≤◌, ◌+◌, ◌++◌, ◌∷◌, [], length, OnOk, OnErr};
ghost use Rattle.recipe.specs.CdBase.Limits.{IsPath};
ghost use Rattle.session_model.specs.Session.Spelling.{IsUpload};
ghost use Rattle.session_model.specs.Session.event.Event.TheVariants as events;
ghost use Rattle.script_lines.specs.Does.{CarriesOut, IsCutOff};
ghost use Rattle.script_lines.specs.Jobs.{AreReached};

use crate::Jobs;
use crate::news::put_line;
use recipe::{NoMemory, UserId, Version};
use session_model::{Answer, Job, Line, LocalLink, Shelf, law_of_parts};
use std::alloc::Global;

/// `upload USER PATH VERSION BYTES`: a job that is to bring a version of a file to all clouds. No cloud is asked.
pub fn upload_line<V: Shelf>(
    alloc: Global,
    link: &LocalLink<'_, V>,
    jobs: &mut Jobs,
    user: UserId,
    path: &[u8],
    version: Version,
    bytes: &[u8],
    text: &mut Answer,
) -> Result<(), NoMemory>
    requires fits { IsUpload (length jobs.old) path.now bytes.now }
    requires reached { AreReached link.now.servers.shape jobs.old }
    ensures does { OnOk result (CarriesOut V.cloud_at (events.Upload user path.now version bytes.now) link.now jobs.old
        link.now jobs.new text.old text.new) }
    ensures cut { OnErr result (IsCutOff V.cloud_at (events.Upload user path.now version bytes.now)
        link.now jobs.old link.now) }
    ensures reached { AreReached link.now.servers.shape jobs.new }
    ensures count { OnOk result (length jobs.new ≡ length jobs.old + 1) }
{
    law_of_parts();
    let _user = user.0;
    let _version = version.0;
    let job = match Job::new(alloc, link.shape(), user, path, version, bytes) {
        Ok(job) => job,
        Err(NoMemory) => return Err(NoMemory),
    };
    match jobs.push(job) {
        Ok(()) => {}
        Err(NoMemory) => return Err(NoMemory),
    }
    let number = jobs.len() as u32;
    put_line(Line::Job { job: number }, text)
}
