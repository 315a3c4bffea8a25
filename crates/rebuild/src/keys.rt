//! Some entries of the first cloud, one after another.

ghost use Rattle.std.specs.Prelude.{◌≡◌, ◌<◌, ◌+◌, ◌∷◌, [], ℕ, IsTrue, MatchOption, OnOk, length};
ghost use Rattle.std.specs.List.{Contains};
ghost use Rattle.lane_steps.specs.CdBase.Numbers.{numbers_of};
ghost use Rattle.kept_files.specs.ReedSolomon.Dispersal.{AreChoice};
ghost use Rattle.lane_steps.specs.UserDedup.Link.{serves};
ghost use Rattle.rebuild.specs.Entering.{noted};
ghost use Rattle.rebuild.specs.Over.{HasAskedToRebuild, BringsOwn, HandsOn, HasRebuildCause, LeadsWithTarget, is_lost};
ghost use Rattle.rebuild.specs.Several.{KeysTold, progress_of};

use crate::{LaneBuffers, RebuildErr, Rebuilt, Refill, Skip, SkipWhy, rebuild_entry};
use lane_steps::{CloudNo, Link, NoMemory, Tag, Version};
use std::alloc::Global;

// Counts a version more.
fn count(files: &mut u32) -> Result<(), NoMemory>
    ensures { OnOk result (files.new ≡ files.old + 1) }
{
    match files.checked_add(1) {
        Some(more) => {
            *files = more;
            Ok(())
        }
        None => Err(NoMemory),
    }
}

// Notes what became of an entry.
fn note(
    rebuilt: &mut Rebuilt,
    tag: Tag,
    version: Version,
    skip: Option<SkipWhy>,
) -> Result<(), NoMemory>
    ensures notes { OnOk result (progress_of rebuilt.new ≡ noted (tag, version) skip (progress_of rebuilt.old)) }
    ensures counted { OnOk result (rebuilt.new.files + length rebuilt.new.skipped
        ≡ rebuilt.old.files + length rebuilt.old.skipped + 1) }
{
    match skip {
        None => count(&mut rebuilt.files),
        Some(why) => rebuilt.skipped.push(Skip { tag, version, why }),
    }
}

// The first key and the others.
fn next_key(keys: &[(Tag, Version)]) -> Option<(Tag, Version, &[(Tag, Version)])>
    ensures { MatchOption result (keys.now ≡ []) (λ x. keys.now ≡ (x.0, x.1) ∷ x.2.now) }
{
    match keys {
        [] => None,
        [key, more @ ..] => Some((key.0, key.1, more)),
    }
}

/// Brings the target what k clouds, of which it is none, have under these keys, one after another, as `rebuild_entry` does,
/// and notes each version that is entered there or skipped.
///
/// An error is that of the entry that stopped it; NoMemory comes also where the versions entered are more than a u32
/// counts. Nothing is said then of what is noted. Nothing is said of what is left in `buffers`.
pub fn rebuild_keys<L: Link>(
    alloc: Global,
    link: &mut L,
    refill: Refill,
    keys: &[(Tag, Version)],
    clouds: &[CloudNo],
    buffers: &mut LaneBuffers,
    rebuilt: &mut Rebuilt,
) -> Result<(), RebuildErr>
    requires shape { L.tells.shape link.old ≡ refill.shape }
    requires reached { (cloud : ℕ) → Contains (refill.target.0 ∷ numbers_of clouds.now) cloud
        → IsTrue (L.tells.reaches link.old cloud) }
    requires choice { AreChoice refill.shape (numbers_of clouds.now) }
    requires within { refill.target.0 < refill.shape.n }
    requires apart { ¬ Contains (numbers_of clouds.now) refill.target.0 }
    ensures rebuilt { LeadsWithTarget L.tells L.talk refill.target.0 (numbers_of clouds.now) link.old link.new result
        (HasRebuildCause L.tells link.old refill.shape refill.user refill.target.0 result)
        (KeysTold refill.shape refill.user refill.target.0 (serves L.tells link.old refill.target.0)
        (numbers_of clouds.now) keys.now (progress_of rebuilt.old) (progress_of rebuilt.new) result) }
    ensures hands_on { HandsOn (numbers_of clouds.now) result }
    ensures asked { HasAskedToRebuild L.tells refill.target.0 (numbers_of clouds.now) link.old
        link.new (is_lost result) }
    ensures lanes { BringsOwn L.tells refill.shape refill.user refill.target.0 (numbers_of clouds.now) link.old
        link.new }
    ensures counted { OnOk result (rebuilt.new.files + length rebuilt.new.skipped
        ≡ rebuilt.old.files + length rebuilt.old.skipped + length keys.now) }
{
    match next_key(keys) {
        Some((tag, version, more)) => {
            match rebuild_entry(alloc, link, refill, tag, version, clouds, buffers) {
                Ok(skip) => match note(rebuilt, tag, version, skip) {
                    Ok(()) => rebuild_keys(alloc, link, refill, more, clouds, buffers, rebuilt),
                    Err(NoMemory) => Err(RebuildErr::NoMemory),
                },
                Err(e) => Err(e),
            }
        }
        None => Ok(()),
    }
}
