//! One choice of clouds after another.

ghost use Rattle.std.specs.Prelude.{◌≡◌, ◌≢◌, ℕ, ◌+◌, ◌<◌, [], ◌∷◌, ◌++◌, length, All, IsTrue, OnOk};
ghost use Rattle.std.specs.Bool.{MatchBool};
ghost use Rattle.std.specs.List.{Contains};
ghost use Rattle.std.specs.List.Sorted.{IsStrictlyIncreasing};
ghost use Rattle.transcript.specs.CdBase.Limits.{IsPath};
ghost use Rattle.transcript.specs.CdBase.Numbers.{numbers_of};
ghost use Rattle.subset_restore.specs.Going.{Seeks, KeepsToldBeside};
ghost use Rattle.subset_restore.specs.Tracking.{HoldsMarked};
ghost use Rattle.subset_restore.specs.Subsets.{behind};

use crate::chosen::{Chosen, next_cloud};
use crate::refusals::Refusals;
use restore_job::{Link, RestoreErr, restore};
use std::alloc::Global;
use transcript::{Bytes, CloudNo, Clouds, NoMemory, Shape, UserId, Version};

/// How it went with some choices of clouds.
#[derive(Clone, Copy)]
pub enum Went {
    /// The file came from one of them.
    Restored,
    /// Each was passed over or refused.
    Refused,
    /// Memory ran out.
    NoMemory,
}

/// The version of a file that is to be restored.
#[derive(Clone, Copy)]
pub struct WantedVersion<'a> {
    /// The shape of the store.
    pub shape: Shape,
    /// Whose file it is.
    pub user: UserId,
    /// The file's path.
    pub path: &'a [u8],
    /// The version.
    pub version: Version,
}

/// The choices of clouds that have all of the chosen ones and `need` of the rest.
#[derive(Clone, Copy)]
pub struct Choices<'a> {
    /// The clouds that each of the choices has.
    pub chosen: &'a Chosen,
    /// How many more each of them has.
    pub need: usize,
    /// The clouds that these are taken from.
    pub rest: &'a [CloudNo],
}

// Appends clouds.
fn push_all(named: &mut Clouds, clouds: &[CloudNo]) -> Result<(), NoMemory>
    requires { IsStrictlyIncreasing (named.old ++ numbers_of clouds.now) }
    ensures { OnOk result (named.new ≡ named.old ++ numbers_of clouds.now) }
{
    let Some((cloud, more)) = next_cloud(clouds) else {
        return Ok(());
    };
    match named.push(cloud) {
        Ok(()) => push_all(named, more),
        Err(NoMemory) => Err(NoMemory),
    }
}

// Whether it is that memory ran out.
fn is_want(refusal: RestoreErr) -> bool
    ensures { MatchBool result (refusal ≡ RestoreErr.NoMemory) (refusal ≢ RestoreErr.NoMemory) }
{
    refusal == RestoreErr::NoMemory
}

// Restores from these clouds, and keeps a refusal.
fn restore_from<L: Link>(
    alloc: Global,
    link: &mut L,
    wanted: &WantedVersion<'_>,
    named: &Clouds,
    refusals: &mut Refusals,
    out: &mut Bytes,
) -> Went
    requires shape { L.tells.shape link.old ≡ wanted.now.shape }
    requires reached { (cloud : ℕ) → Contains named.now cloud → IsTrue (L.tells.reaches link.old cloud) }
    requires count { length named.now ≡ wanted.now.shape.k }
    requires within { All (λ cloud. cloud < wanted.now.shape.n) named.now }
    requires path { IsPath wanted.now.path.now }
    requires free { HoldsMarked refusals.old.marks named.now → ⊥ }
    ensures keeps { KeepsToldBeside L.tells link.old link.new }
    ensures kept { result ≢ Went.Restored → out.new ≡ out.old }
    ensures goes { Seeks L.tells L.talk wanted.now.shape wanted.now.user wanted.now.path.now wanted.now.version link.old
        link.new out.old out.new named.now (named.now ∷ []) refusals.old refusals.new result }
{
    let WantedVersion {
        shape,
        user,
        path,
        version,
    } = *wanted;
    match restore(alloc, link, shape, user, path, version, named, out) {
        Ok(()) => Went::Restored,
        Err(refusal) => {
            if is_want(refusal) {
                return Went::NoMemory;
            }
            refusals.note(refusal);
            Went::Refused
        }
    }
}

// Tries one choice of clouds, or passes over it where one of them refused. `named` is room for its list.
fn try_one<L: Link>(
    alloc: Global,
    link: &mut L,
    wanted: &WantedVersion<'_>,
    clouds: &[CloudNo],
    named: &mut Clouds,
    refusals: &mut Refusals,
    out: &mut Bytes,
) -> Went
    requires shape { L.tells.shape link.old ≡ wanted.now.shape }
    requires reached { (cloud : ℕ) → Contains (numbers_of clouds.now) cloud → IsTrue (L.tells.reaches link.old cloud) }
    requires count { length (numbers_of clouds.now) ≡ wanted.now.shape.k }
    requires rises { IsStrictlyIncreasing (numbers_of clouds.now) }
    requires within { All (λ cloud. cloud < wanted.now.shape.n) (numbers_of clouds.now) }
    requires path { IsPath wanted.now.path.now }
    ensures keeps { KeepsToldBeside L.tells link.old link.new }
    ensures kept { result ≢ Went.Restored → out.new ≡ out.old }
    ensures goes { Seeks L.tells L.talk wanted.now.shape wanted.now.user wanted.now.path.now wanted.now.version link.old
        link.new out.old out.new (numbers_of clouds.now) (numbers_of clouds.now ∷ []) refusals.old refusals.new result }
{
    if refusals.hold(clouds) {
        return Went::Refused;
    }
    named.clear();
    match push_all(named, clouds) {
        Ok(()) => restore_from(alloc, link, wanted, named, refusals, out),
        Err(NoMemory) => Went::NoMemory,
    }
}

/// Tries some choices of clouds in lexicographic order, up to the first from which the file comes. `named` is room for
/// a choice's list.
pub fn try_from<L: Link>(
    alloc: Global,
    link: &mut L,
    wanted: &WantedVersion<'_>,
    choices: &Choices<'_>,
    named: &mut Clouds,
    refusals: &mut Refusals,
    out: &mut Bytes,
) -> Went
    requires shape { L.tells.shape link.old ≡ wanted.now.shape }
    requires reached { (cloud : ℕ) → Contains (choices.now.chosen.now ++ numbers_of choices.now.rest.now) cloud
        → IsTrue (L.tells.reaches link.old cloud) }
    requires count { length choices.now.chosen.now + choices.now.need ≡ wanted.now.shape.k }
    requires rises { IsStrictlyIncreasing (choices.now.chosen.now ++ numbers_of choices.now.rest.now) }
    requires within { All (λ cloud. cloud < wanted.now.shape.n)
        (choices.now.chosen.now ++ numbers_of choices.now.rest.now) }
    requires path { IsPath wanted.now.path.now }
    ensures keeps { KeepsToldBeside L.tells link.old link.new }
    ensures kept { result ≢ Went.Restored → out.new ≡ out.old }
    ensures goes { Seeks L.tells L.talk wanted.now.shape wanted.now.user wanted.now.path.now wanted.now.version link.old
        link.new out.old out.new (choices.now.chosen.now ++ numbers_of choices.now.rest.now)
        (behind choices.now.chosen.now choices.now.need (numbers_of choices.now.rest.now)) refusals.old refusals.new
        result }
{
    let Choices { chosen, need, rest } = *choices;
    if need == 0 {
        return try_one(alloc, link, wanted, chosen.as_slice(), named, refusals, out);
    }
    if rest.len() < need {
        return Went::Refused;
    }
    let Some((cloud, more)) = next_cloud(rest) else {
        return Went::Refused;
    };
    let with = chosen.with(cloud);
    let with_cloud = Choices {
        chosen: &with,
        need: need - 1,
        rest: more,
    };
    match try_from(alloc, link, wanted, &with_cloud, named, refusals, out) {
        Went::Refused => {
            let without_cloud = Choices {
                chosen,
                need,
                rest: more,
            };
            try_from(alloc, link, wanted, &without_cloud, named, refusals, out)
        }
        Went::Restored => Went::Restored,
        Went::NoMemory => Went::NoMemory,
    }
}
