//! Bringing a user's versions back to a cloud.

ghost use Rattle.std.specs.Prelude.{◌≡◌, ◌≤◌, ◌<◌, ◌+◌, ◌^◌, ◌∷◌, [], ◌++◌, ℕ, List, MatchOption, length, All, IsTrue};
ghost use Rattle.std.specs.List.{Contains};
ghost use Rattle.lane_steps.specs.CdBase.Numbers.{numbers_of};
ghost use Rattle.lane_steps.specs.CdBase.ids.Tag.{Tag};
ghost use Rattle.lane_steps.specs.CdBase.ids.Version.{Version};
ghost use Rattle.lane_steps.specs.MessageFields.Keys.{key_limit};
ghost use Rattle.kept_files.specs.ReedSolomon.Dispersal.{AreChoice};
ghost use Rattle.lane_steps.specs.UserDedup.Exec.{Peer};
ghost use Rattle.lane_steps.specs.UserDedup.Link.{serves};
ghost use Rattle.rebuild.specs.Found.{first_of as first_in};
ghost use Rattle.rebuild.specs.Rebuilding.{RunsTo, nothing_yet};
ghost use Rattle.rebuild.specs.Over.{HasAskedToRebuild, BringsOwn, HandsOn, HasRebuildCause, LeadsWithTarget, is_lost};
ghost use Rattle.rebuild.specs.Kept.{Refills};
ghost use Rattle.rebuild.specs.Several.{progress_of, whole};

use crate::entries::stopped;
use crate::{LaneBuffers, RebuildErr, Rebuilt, Refill, Skips, fetch_page, rebuild_keys};
use lane_steps::{
    Bytes, CloudNo, Clouds, KEY_LIMIT, Link, NoMemory, ReplyBuf, Shape, Tag, UserId, Version,
};
use std::alloc::Global;

// The first of some clouds.
fn first_of(clouds: &[CloudNo]) -> CloudNo
    requires some { 1 ≤ length clouds.now }
    ensures first { result.0 ≡ first_in (numbers_of clouds.now) }
{
    match clouds {
        [first, ..] => *first,
        [] => unreachable!(),
    }
}

// The key above which the next page begins, or None where this one is the last.
fn next_above(page: &[(Tag, Version)]) -> Option<(Tag, Version)>
    ensures { MatchOption result (length page.now < key_limit)
        (λ last. (front : List (Tag × Version)) × (page.now ≡ front ++ last ∷ [])) }
{
    if page.len() < KEY_LIMIT {
        return None;
    }
    match page {
        [.., last] => Some(*last),
        [] => None,
    }
}

// How many versions can be counted and noted. It is here for its contract.
fn counts(rebuilt: &Rebuilt)
    ensures { rebuilt.now.files + length rebuilt.now.skipped < 2 ^ 32 + 2 ^ 64 }
{
    let _files = rebuilt.files;
    let _noted = rebuilt.skipped.len();
}

// Goes through all pages of the first cloud, and notes what became of each entry.
fn rebuild_pages<L: Link>(
    alloc: Global,
    link: &mut L,
    refill: Refill,
    clouds: &[CloudNo],
    buffers: &mut LaneBuffers,
    rebuilt: &mut Rebuilt,
) -> Result<(), RebuildErr>
    requires shape { L.tells.shape link.old ≡ refill.shape }
    requires reached { (cloud : ℕ) → Contains (refill.target.0 ∷ numbers_of clouds.now) cloud
        → IsTrue (L.tells.reaches link.old cloud) }
    requires choice { AreChoice refill.shape (numbers_of clouds.now) }
    requires within { refill.target.0 < refill.shape.n }
    requires apart { ¬ Contains (numbers_of clouds.now) refill.target.0 }
    requires fresh { progress_of rebuilt.old ≡ nothing_yet }
    ensures rebuilt { LeadsWithTarget L.tells L.talk refill.target.0 (numbers_of clouds.now) link.old link.new result
        (HasRebuildCause L.tells link.old refill.shape refill.user refill.target.0 result)
        (λ turns before at after. RunsTo refill.shape refill.user refill.target.0
        (serves L.tells link.old refill.target.0) (numbers_of clouds.now) (whole rebuilt.new result) turns before at
        after) }
    ensures asked { HasAskedToRebuild L.tells refill.target.0 (numbers_of clouds.now) link.old
        link.new (is_lost result) }
    ensures lanes { BringsOwn L.tells refill.shape refill.user refill.target.0 (numbers_of clouds.now) link.old
        link.new }
    ensures hands_on { HandsOn (numbers_of clouds.now) result }
{
    let first = first_of(clouds);
    let mut above = None;
    'pages: loop {
        let page = match fetch_page(
            alloc,
            link,
            refill.shape,
            refill.user,
            first,
            above,
            &mut buffers.reply,
        ) {
            Ok(page) => page,
            Err(e) => return Err(stopped(e)),
        };
        match rebuild_keys(
            alloc,
            link,
            refill,
            page.as_slice(),
            clouds,
            buffers,
            rebuilt,
        ) {
            Ok(()) => {}
            Err(e) => return Err(e),
        }
        counts(rebuilt);
        match next_above(page.as_slice()) {
            Some(last) => above = Some(last),
            None => return Ok(()),
        }
    }
}

/// Brings the versions that a user has at the first of k clouds to the target, which is none of them. The first cloud is
/// listed page by page. For each entry, rising, the k clouds are asked for their recipes, as by a restore; the path
/// comes from the name shares, and the file as by a restore; and the target's lane of a job runs over them. What is
/// needed of an entry is read before the target is written to.
///
/// An entry that is no whole file of these clouds is skipped, and so is one of which the target has another. After an
/// error what was brought before stays, and the same call goes on from there: what stands at the target is entered
/// again without a change.
///
/// FromRestore comes where a cloud that is read stopped it, which it names: an ask was lost, a device failed, memory ran
/// out there, or what came is none of a server's replies, or another share than a recipe names. TargetLost comes only
/// where an ask of the target was lost; TargetFault, TargetDamaged, TargetRotten, TargetFull and TargetNoMemory where
/// this was its reply, TargetLacking where it lacked a share of one version twice, and TargetStrange where what came is
/// no reply that a server which keeps to the rules gives; NoMemory where memory ran out here, or more versions were
/// entered than a u32 counts.
pub fn rebuild<L: Link>(
    alloc: Global,
    link: &mut L,
    shape: Shape,
    user: UserId,
    target: CloudNo,
    from: &Clouds,
) -> Result<Rebuilt, RebuildErr>
    requires shape { L.tells.shape link.old ≡ shape }
    requires reached { (cloud : ℕ) → Contains (target.0 ∷ from.now) cloud → IsTrue (L.tells.reaches link.old cloud) }
    requires count { length from.now ≡ shape.k }
    requires within { All (λ cloud. cloud < shape.n) (target.0 ∷ from.now) }
    requires apart { ¬ Contains from.now target.0 }

    // Over told clouds it finds, brings and ends by their lists; and what an Ok leaves is what was promised. Told or
    // not, only the clouds that are read and the target are asked, the former for what adds nothing, and between the
    // target's turns; and an error has its cause. After want of memory it is the front of one that would go on.
    ensures rebuilt { LeadsWithTarget L.tells L.talk target.0 from.now link.old link.new result
        (HasRebuildCause L.tells link.old shape user target.0 result)
        (λ turns before at after.
        RunsTo shape user target.0 (serves L.tells link.old target.0) from.now result turns before at after
        × Refills shape target.0 from.now user after result) }

    // The other clouds stay, also where the target or a cloud that is read stands for nothing.
    ensures others { (cloud : ℕ) (p : Peer) → ¬ Contains (target.0 ∷ from.now) cloud
        → L.tells.stands link.old cloud p → L.tells.stands link.new cloud p }

    // An ask is lost only where the link's count of losses rose, and never where it tells that it loses nothing.
    ensures asked { HasAskedToRebuild L.tells target.0 from.now link.old link.new (is_lost result) }

    // Told or not, the target was asked for nothing but what brings versions of this user.
    ensures lanes { BringsOwn L.tells shape user target.0 from.now link.old link.new }

    // What a restore would be refused by, and a skip isn't, is handed on; it names a cloud that is read.
    ensures hands_on { HandsOn from.now result }
{
    from.rises();
    let clouds = from.as_slice();
    let mut rebuilt = Rebuilt {
        files: 0,
        skipped: Skips::new(alloc),
    };
    let reply = match ReplyBuf::make(alloc) {
        Ok(reply) => reply,
        Err(NoMemory) => return Err(RebuildErr::NoMemory),
    };
    let mut buffers = LaneBuffers {
        content: Bytes::new(alloc),
        reply,
        told: Vec::new(alloc),
    };
    let refill = Refill {
        shape,
        user,
        target,
    };
    match rebuild_pages(alloc, link, refill, clouds, &mut buffers, &mut rebuilt) {
        Ok(()) => Ok(rebuilt),
        Err(e) => Err(e),
    }
}
