//! Restoring a version of a file from any k of some clouds.

ghost use Rattle.std.specs.Prelude.{◌≡◌, ◌≤◌, ◌<◌, ℕ, length, All, IsTrue, IfErr, OnErr};
ghost use Rattle.std.specs.List.{Contains};
ghost use Rattle.transcript.specs.CdBase.Limits.{IsPath};
ghost use Rattle.restore_job.specs.Asking.{HasAskedClouds, is_lost};
ghost use Rattle.restore_job.specs.Refusals.{Names};
ghost use Rattle.subset_restore.specs.Ends.{AnyEnds};
ghost use Rattle.subset_restore.specs.Going.{sought};

use crate::chosen::Chosen;
use crate::refusals::Refusals;
use crate::trying::{Choices, WantedVersion, Went, try_from};
use restore_job::{Link, RestoreErr};
use std::alloc::Global;
use transcript::{Bytes, Clouds, Shape, UserId, Version};

/// Appends a version of a file to `out`, from any k of these clouds, which are k or more and which the link reaches.
/// After an error `out` is as before.
///
/// The choices of k of the clouds are tried in lexicographic order by `restore_job::restore`. A choice with a cloud that
/// refused in this call is passed over: one that lacks the version, whose ask was lost, that answered a refusal of its
/// own or nothing that a server gives, or whose share has another hash or length. The first choice that gives the file
/// ends it. Where none does the error is the refusal of the first choice. NoMemory comes where memory ran out, and ends
/// it at once.
pub fn restore_any<L: Link>(
    alloc: Global,
    link: &mut L,
    shape: Shape,
    user: UserId,
    path: &[u8],
    version: Version,
    clouds: &Clouds,
    out: &mut Bytes,
) -> Result<(), RestoreErr>
    requires shape { L.tells.shape link.old ≡ shape }
    requires reached { (cloud : ℕ) → Contains clouds.now cloud → IsTrue (L.tells.reaches link.old cloud) }
    requires count { shape.k ≤ length clouds.now }
    requires within { All (λ cloud. cloud < shape.n) clouds.now }
    requires path { IsPath path.now }

    // Which choices were tried and which passed over, and what the refusals say of their clouds, each told or not.
    // Where the link tells all of these clouds, the result is that of their lists as they stand after it
    // (`restored_any`), but for clouds whose device failed and lost asks. What was asked and what came, restore by
    // restore. The clouds went on from all that they stood for: these were read at most, and the others are as they
    // were.
    ensures restored { AnyEnds L.tells L.talk (sought shape user path.now version clouds.now) link.old link.new
        out.old out.new result }

    // Each ask was of one of these clouds and adds nothing. One is lost only where the link's count of losses rose, and
    // never where it tells that it loses nothing.
    ensures asked { HasAskedClouds L.tells clouds.now link.old link.new (is_lost result) }

    // A refusal names no other clouds.
    ensures named { IfErr result (Names (Contains clouds.now)) }
    ensures kept { OnErr result (out.new ≡ out.old) }
{
    clouds.rises();
    let mut named = Clouds::new(alloc);
    let mut refusals = Refusals::none();
    let wanted = WantedVersion {
        shape,
        user,
        path,
        version,
    };
    let choices = Choices {
        chosen: &Chosen::none(),
        need: shape.k as usize,
        rest: clouds.as_slice(),
    };
    match try_from(
        alloc,
        link,
        &wanted,
        &choices,
        &mut named,
        &mut refusals,
        out,
    ) {
        Went::Restored => Ok(()),
        Went::NoMemory => Err(RestoreErr::NoMemory),
        Went::Refused => match refusals.first() {
            Some(refusal) => Err(refusal),
            None => unreachable!(),
        },
    }
}
