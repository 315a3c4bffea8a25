//! The shares of a Put that are new to the user.

ghost use Rattle.std.specs.Prelude.{◌≡◌, ◌≢◌, ◌↔◌, ◌<◌, ◌≤◌, ℕ, List, [], ◌∷◌, ◌++◌, length, take, map, slice_set, true};
ghost use Rattle.std.specs.Prelude.{false, not, ◌||◌, bytes_eq, is_some, IsTrue, None, if◌then◌else◌};
ghost use Rattle.std.specs.FinMap.{get};
ghost use Rattle.server_reads.specs.ContainerLog.Places.{container_len};
ghost use Rattle.server_reads.specs.ContainerLog.States.{HasStaged, need_of};
ghost use Rattle.server_reads.specs.MessageFields.Shares.{IsShare, AreShares};
ghost use Rattle.server_reads.specs.ShareIndex.Order.{owner_of};
ghost use Rattle.server_reads.specs.UserDedup.Cloud.{fingerprint};
ghost use Rattle.server_reads.specs.UserDedup.Owning.{is_among};
ghost use Rattle.server_reads.specs.CloudMemory.Rooms.{memory_of};
ghost use Rattle.cloud_store.specs.Store.{IsOpen, IsSettled, EndsMeet};
ghost use Rattle.server_commands.specs.Executing.{IsStoreReady};
ghost use Rattle.server_commands.specs.Entering.{new_of};
ghost use Rattle.server_commands.specs.Picked.{fps_of, with_shares, Picked};

use cloud_store::CloudStore;
use server_reads::{CloudMemory, Fp, New, SharesView, UserId};
use share_digests::digests_of;

// The first share and those behind it. It asks for one share at least.
fn next_share<'a>(shares: &SharesView<'a>) -> (&'a [u8], SharesView<'a>)
    requires { 1 ≤ length shares.now }
    ensures value { shares.now ≡ result.0.now ∷ result.1 }
    ensures range { IsShare result.0.now }
{
    match shares.split_first() {
        Some(both) => both,
        None => unreachable!(),
    }
}

// Whether two fingerprints are the same. Of two that aren't, the first byte mostly tells.
fn is_same(one: &Fp, two: &Fp) -> bool
    ensures { result ≡ bytes_eq one.now.0 two.now.0 }
{
    if one.0[0] != two.0[0] {
        return false;
    }
    *one == *two
}

// Whether one of these shares has the fingerprint.
fn has_fp(news: &[New], fp: &Fp) -> bool
    ensures { result ≡ is_among (fps_of news.now) fp.now }
{
    for new in news {
        if is_same(&new.fp, fp) {
            return true;
        }
    }
    false
}

// Whether a share is new, whose fingerprint is at hand, beside the first `count` ones that are. It is put behind them then.
fn pick(
    memory: &CloudMemory,
    user: UserId,
    share: &[u8],
    fp: Fp,
    news: &mut [New],
    count: usize,
) -> bool
    requires fp { fp ≡ fingerprint share.now }
    requires room { count < length news.old }
    requires range { IsShare share.now }
    ensures fresh { IsTrue result → get (memory_of memory.now).owners (owner_of user.0 (fingerprint share.now).0)
        ≡ None }
    ensures other { IsTrue result → is_among (fps_of (take count news.old)) (fingerprint share.now) ≡ false }
    ensures by_memory { result
        ≡ not (is_some (get (memory_of memory.now).owners (owner_of user.0 (fingerprint share.now).0))
        || is_among (fps_of (take count news.old)) (fingerprint share.now)) }
    ensures put { IsTrue result → news.new ≡ slice_set news.old count (new_of share.now) }
    ensures left { result ≡ false → news.new ≡ news.old }
{
    let (before, _) = news.split_at(count);
    if memory.owns(user, &fp) || has_fp(before, &fp) {
        false
    } else {
        news[count] = New {
            fp,
            len: share.len() as u32,
        };
        true
    }
}

// Stages a share whose fingerprint has no place yet.
fn stage_one(store: &mut CloudStore, share: &[u8], fp: &Fp)
    requires fp { fp.now ≡ fingerprint share.now }
    requires settled { IsSettled store.old }
    requires open { IsOpen store.old }
    requires meet { EndsMeet store.old }
    requires room { need_of store.old.disk.shares (length share.now) ≤ container_len }
    ensures staged { (blobs : List (List ℕ)) → HasStaged store.old.disk.shares blobs
        → HasStaged store.new.disk.shares (if is_some
        (get (memory_of store.old.memory).places (fingerprint share.now).0)
        then blobs else blobs ++ share.now ∷ []) }
    ensures same { store.new ≡ with_shares store.old store.new.disk.shares.staged }
    ensures settled { IsSettled store.new }
    ensures meet { EndsMeet store.new }
{
    if store.memory.place_of(fp).is_none() {
        match store.stage_share(share) {
            Ok(_) => {}
            Err(_) => unreachable!(),
        }
    }
}

/// Puts what the memory needs of each share that is new to the user, the first of each fingerprint, in front of `news`, in
/// order, and stages those that have no place yet. The answer is how many are new.
pub(crate) fn collect(
    store: &mut CloudStore,
    user: UserId,
    shares: &SharesView<'_>,
    news: &mut [New],
) -> usize
    requires ready { IsStoreReady store.old }
    requires batch { AreShares shares.now }
    requires news { length news.old ≡ 256 }
    ensures within { result ≤ length shares.now }
    ensures picked { Picked store.old store.new user shares.now (take result news.new) }
    ensures settled { IsSettled store.new }
    ensures meet { EndsMeet store.new }
{
    let digests = digests_of(shares);
    let mut rest = shares.copied();
    let mut count = 0;
    for place in 0..shares.len() {
        let (share, others) = next_share(&rest);
        let fp = Fp(digests[place]);
        let is_new = pick(&store.memory, user, share, fp, news, count);
        if is_new {
            stage_one(store, share, &news[count].fp);
            count += 1;
        }
        rest = others;
    }
    count
}
