//! One entry of the first cloud: what k clouds have under its key, brought to the target.

ghost use Rattle.std.specs.Prelude.{◌≡◌, ◌<◌, ◌∷◌, [], ℕ, IsTrue};
ghost use Rattle.std.specs.List.{Contains};
ghost use Rattle.lane_steps.specs.CdBase.Numbers.{numbers_of};
ghost use Rattle.kept_files.specs.ReedSolomon.Dispersal.{AreChoice};
ghost use Rattle.lane_steps.specs.UserDedup.Link.{serves};
ghost use Rattle.rebuild.specs.Entering.{EntryBrought, EntryTold, entered_as, stopped_as};
ghost use Rattle.rebuild.specs.Filling.{BringHolds, OfTarget};
ghost use Rattle.rebuild.specs.Over.{HasAskedToRebuild, BringsOwn, HandsOn, HasRebuildCause, LeadsWithTarget, is_lost};
ghost use Rattle.rebuild.specs.Steps.{VersionFits, found_of};
ghost use Rattle.rebuild.specs.Turns.{EndsLane, OwnLanes};

use crate::{FoundVersion, LaneBuffers, RebuildErr, Refill, SkipWhy, bring, find_version};
use kept_files::RestoreErr;
use lane_steps::{CloudNo, Link, Tag, Version};
use std::alloc::Global;

/// A refusal of a cloud that is read, as an error of the rebuild.
pub fn stopped(e: RestoreErr) -> RebuildErr
    ensures { result ≡ stopped_as e }
{
    match e {
        RestoreErr::NoMemory => RebuildErr::NoMemory,
        RestoreErr::Missing { .. } => RebuildErr::FromRestore(e),
        RestoreErr::Lost { .. } => RebuildErr::FromRestore(e),
        RestoreErr::CloudFault { .. } => RebuildErr::FromRestore(e),
        RestoreErr::CloudDamaged { .. } => RebuildErr::FromRestore(e),
        RestoreErr::CloudRotten { .. } => RebuildErr::FromRestore(e),
        RestoreErr::CloudNoMemory { .. } => RebuildErr::FromRestore(e),
        RestoreErr::Strange { .. } => RebuildErr::FromRestore(e),
        RestoreErr::RecipesDiffer { .. } => RebuildErr::FromRestore(e),
        RestoreErr::ShareLength { .. } => RebuildErr::FromRestore(e),
        RestoreErr::BadShare { .. } => RebuildErr::FromRestore(e),
        RestoreErr::BadSecret { .. } => RebuildErr::FromRestore(e),
        RestoreErr::BadPad { .. } => RebuildErr::FromRestore(e),
    }
}

// Why a version that the target was brought is skipped, if it is.
fn skip_of(entered: bool) -> Option<SkipWhy>
    ensures { result ≡ entered_as entered }
{
    if entered {
        None
    } else {
        Some(SkipWhy::TargetExists)
    }
}

// Brings the target what was found.
fn bring_found<L: Link>(
    alloc: Global,
    link: &mut L,
    refill: Refill,
    version: Version,
    found: &FoundVersion,
    buffers: &mut LaneBuffers,
) -> Result<Option<SkipWhy>, RebuildErr>
    requires shape { L.tells.shape link.old ≡ refill.shape }
    requires reached { IsTrue (L.tells.reaches link.old refill.target.0) }
    requires within { refill.target.0 < refill.shape.n }
    requires fit { VersionFits found.now }
    ensures brings { (tag : Tag) → LeadsWithTarget L.tells L.talk refill.target.0 [] link.old link.new result
        (λ turns before after. BringHolds (L.tells.told link.old refill.target.0)
        (OwnLanes refill.shape refill.user refill.target.0) (EndsLane refill.shape refill.user refill.target.0) result
        turns (before refill.target.0) (after refill.target.0))
        (λ turns before at after. EntryBrought refill.shape refill.target.0 (serves L.tells link.old refill.target.0)
        (tag, version) (found_of refill.user (tag, version) found.now) result turns (before refill.target.0) at
        (after refill.target.0)) }
    ensures own { OfTarget result }
    ensures asked { HasAskedToRebuild L.tells refill.target.0 [] link.old link.new (is_lost result) }
    ensures lanes { BringsOwn L.tells refill.shape refill.user refill.target.0 [] link.old link.new }
{
    match found {
        FoundVersion::Version { path, file } => {
            match bring(
                alloc,
                link,
                refill,
                version,
                path.as_slice(),
                file.as_slice(),
                buffers,
            ) {
                Ok(entered) => Ok(skip_of(entered)),
                Err(e) => Err(e),
            }
        }
        FoundVersion::Skipped(why) => Ok(Some(*why)),
    }
}

/// Brings the target what k clouds, of which it is none, have under a key: first the version is read from them, and then the
/// target's lane of a job of it goes on to its end. None where the version is entered there, else why it is skipped, which
/// is TargetExists where the target has another one.
///
/// An error stops the entry. FromRestore comes before the target was asked, and names one of these clouds; the errors of the
/// target come as by `bring`; NoMemory may come at any place. Nothing is said of what is left in `buffers`.
pub fn rebuild_entry<L: Link>(
    alloc: Global,
    link: &mut L,
    refill: Refill,
    tag: Tag,
    version: Version,
    clouds: &[CloudNo],
    buffers: &mut LaneBuffers,
) -> Result<Option<SkipWhy>, RebuildErr>
    requires shape { L.tells.shape link.old ≡ refill.shape }
    requires reached { (cloud : ℕ) → Contains (refill.target.0 ∷ numbers_of clouds.now) cloud
        → IsTrue (L.tells.reaches link.old cloud) }
    requires choice { AreChoice refill.shape (numbers_of clouds.now) }
    requires within { refill.target.0 < refill.shape.n }
    requires apart { ¬ Contains (numbers_of clouds.now) refill.target.0 }
    ensures rebuilt { LeadsWithTarget L.tells L.talk refill.target.0 (numbers_of clouds.now) link.old link.new result
        (HasRebuildCause L.tells link.old refill.shape refill.user refill.target.0 result)
        (EntryTold refill.shape refill.user refill.target.0 (serves L.tells link.old refill.target.0)
        (numbers_of clouds.now) (tag, version) result) }
    ensures hands_on { HandsOn (numbers_of clouds.now) result }
    ensures asked { HasAskedToRebuild L.tells refill.target.0 (numbers_of clouds.now) link.old
        link.new (is_lost result) }
    ensures lanes { BringsOwn L.tells refill.shape refill.user refill.target.0 (numbers_of clouds.now) link.old
        link.new }
{
    match find_version(
        alloc,
        link,
        refill.shape,
        refill.user,
        tag,
        version,
        clouds,
        &mut buffers.reply,
    ) {
        Ok(found) => bring_found(alloc, link, refill, version, &found, buffers),
        Err(e) => Err(stopped(e)),
    }
}
