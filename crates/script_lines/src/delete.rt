//! The line that deletes a version of a file at a cloud.

ghost use Rattle.std.specs.Prelude.{◌≡◌, ◌<◌, List, OnOk, OnErr};
ghost use Rattle.recipe.specs.CdBase.Limits.{IsPath};
ghost use Rattle.session_model.specs.Session.event.Event.TheVariants as events;
ghost use Rattle.session_model.specs.UploadJob.Lanes.{LaneView};
ghost use Rattle.script_lines.specs.At.{KeepsOtherClouds};
ghost use Rattle.script_lines.specs.Does.{CarriesOut, IsCutOff};

use crate::news::put_line;
use deletions::{ReplyBuf, delete_request, line_of};
use recipe::{CloudNo, NoMemory, UserId, Version};
use session_model::{Answer, Link, LocalLink, Shelf, law_of_parts};
use std::alloc::Global;

/// `delete USER PATH VERSION CLOUD`: the cloud deletes the version, and what it replied is the answer. The jobs stay, whatever
/// they are. Where memory lacks for the request, the cloud isn't asked.
pub fn delete_line<V: Shelf>(
    alloc: Global,
    link: &mut LocalLink<'_, V>,
    user: UserId,
    path: &[u8],
    version: Version,
    cloud: CloudNo,
    reply: &mut ReplyBuf,
    text: &mut Answer,
) -> Result<(), NoMemory>
    requires path { IsPath path.now }
    requires below { cloud.0 < link.old.servers.shape.n }
    ensures does { OnOk result ((jobs : List (List LaneView)) → CarriesOut V.cloud_at
        (events.Delete user path.now version cloud) link.old jobs link.new jobs text.old text.new) }
    ensures cut { OnErr result ((jobs : List (List LaneView)) → IsCutOff V.cloud_at
        (events.Delete user path.now version cloud) link.old jobs link.new) }
    ensures leaves { KeepsOtherClouds V.cloud_at link.old link.new }
    ensures same_reference { link.new.shelf.ghost_name ≡ link.old.shelf.ghost_name }
{
    law_of_parts();
    let shape = link.shape();
    let request = match delete_request(alloc, shape, user, path, version) {
        Ok(request) => request,
        Err(NoMemory) => return Err(NoMemory),
    };
    let _lost = link.ask(cloud, request.as_slice(), reply);
    let line = match line_of(alloc, cloud, reply.content()) {
        Ok(line) => line,
        Err(NoMemory) => return Err(NoMemory),
    };
    put_line(line, text)
}
