//! Shares that are put into a reply one after another, and hashed there together.

ghost use Rattle.std.specs.Prelude.{◌≡◌, ℕ, ◌+◌, ◌*◌, ◌≤◌, List, [], ◌++◌, length, map, unwrap_or, All};
ghost use Rattle.std.specs.Prelude.{IsTrue, IfOk, Some};
ghost use Rattle.std.specs.List.{Contains, flat_map};
ghost use Rattle.cloud_memory.specs.CdBase.place.Place.{Place};
ghost use Rattle.cloud_memory.specs.CdBase.ids.UserId.{UserId};
ghost use Rattle.cloud_memory.specs.CdBase.shape.Shape.{Shape};
ghost use Rattle.cd_edges.specs.declared.area.Area.TheVariants as areas;
ghost use Rattle.cd_edges.specs.Disk.{Cloud, reads};
ghost use Rattle.cloud_memory.specs.ContainerLog.Laying.{Placed, IsAt};
ghost use Rattle.cloud_memory.specs.ContainerLog.States.{Agrees};
ghost use Rattle.messages.specs.Frames.Frames.{frame_limit};
ghost use Rattle.messages.specs.MessageFields.Fingerprints.{IsBatch};
ghost use Rattle.messages.specs.MessageFields.Shares.{share_bytes, share_limit};
ghost use Rattle.messages.specs.declared.reply.Reply.TheVariants as replies;
ghost use Rattle.messages.specs.Replies.{reply_bytes};
ghost use Rattle.cloud_memory.specs.UserDedup.command.Command.{Command};
ghost use Rattle.cloud_memory.specs.UserDedup.Cloud.{fingerprint, user_view, held_string};
ghost use Rattle.cloud_memory.specs.Rooms.{memory_of};
ghost use Rattle.server_reads.specs.Found.{ReadsLog};
ghost use Rattle.server_reads.specs.Steps.{KeepsRemembered, HasTried, PutOne, HasPut, PutAll, SentAll};

use crate::owning::fp_at;
use cd_edges::{Failed, Shelf};
use cloud_memory::{CloudMemory, CloudNo, Fp, Log, Place};
use message_fields::shares_of;
use messages::{FpsView, ReplyBuf, SHARE_LIMIT, SharesView, append_share, begin_shares};
use share_digests::digests_of;

// Puts a share of this length that lies at a place, by way of what the log keeps, and answers whether so many bytes lie there.
// It isn't hashed yet.
fn copy_from<V: Shelf>(
    log: &mut Log,
    shelf: &mut V,
    cloud: CloudNo,
    place: Place,
    buffer: &mut [u8],
    reply: &mut ReplyBuf,
) -> Result<bool, Failed>
    requires some { 1 ≤ place.len }
    requires few { place.len ≤ share_limit }
    requires buffer { share_limit ≤ length buffer.old }
    requires room { length reply.old + (share_limit + 4) ≤ frame_limit }
    ensures ok { IfOk result (λ whole. IsTrue whole → PutOne reply.old reply.new) }
    ensures blob { IsTrue (V.cloud_at shelf.old cloud.0).told
        → Agrees log.old ((V.cloud_at shelf.old cloud.0).now log.old.area).read
        → (b : Placed) → b.place ≡ place.at → length b.blob ≡ place.len
        → IsAt ((V.cloud_at shelf.old cloud.0).now log.old.area).read b
        → IfOk result (λ whole. IsTrue whole → reply.new ≡ reply.old ++ share_bytes b.blob) }
    ensures log { ReadsLog log.old log.new (V.cloud_at shelf.old cloud.0) (V.cloud_at shelf.new cloud.0) }
    ensures tried { HasTried (V.cloud_at shelf.old) (V.cloud_at shelf.new) cloud.0 (V.faults shelf.old)
        (V.faults shelf.new) result }
{
    let (share, _) = buffer.split_at_mut(place.len as usize);
    match log.read(shelf, cloud, place.at, share) {
        Ok(count) => {
            if count < share.len() {
                return Ok(false);
            }
            append_share(reply, share);
            Ok(true)
        }
        Err(Failed) => Err(Failed),
    }
}

// The same of a place that may be none, or of a length that no share has: no share lies there then.
fn copy_share<V: Shelf>(
    log: &mut Log,
    shelf: &mut V,
    cloud: CloudNo,
    place: Option<Place>,
    buffer: &mut [u8],
    reply: &mut ReplyBuf,
) -> Result<bool, Failed>
    requires buffer { share_limit ≤ length buffer.old }
    requires room { length reply.old + (share_limit + 4) ≤ frame_limit }
    ensures ok { IfOk result (λ whole. IsTrue whole → PutOne reply.old reply.new) }
    ensures blob { IsTrue (V.cloud_at shelf.old cloud.0).told
        → Agrees log.old ((V.cloud_at shelf.old cloud.0).now log.old.area).read
        → (p : Place) → place ≡ Some p → (b : Placed) → b.place ≡ p.at → length b.blob ≡ p.len
        → IsAt ((V.cloud_at shelf.old cloud.0).now log.old.area).read b
        → IfOk result (λ whole. IsTrue whole → reply.new ≡ reply.old ++ share_bytes b.blob) }
    ensures log { ReadsLog log.old log.new (V.cloud_at shelf.old cloud.0) (V.cloud_at shelf.new cloud.0) }
    ensures tried { HasTried (V.cloud_at shelf.old) (V.cloud_at shelf.new) cloud.0 (V.faults shelf.old)
        (V.faults shelf.new) result }
{
    match place {
        Some(place) => {
            if 1 <= place.len && place.len as usize <= SHARE_LIMIT {
                match copy_from(log, shelf, cloud, place, buffer, reply) {
                    Ok(whole) => Ok(whole),
                    Err(Failed) => Err(Failed),
                }
            } else {
                Ok(false)
            }
        }
        None => Ok(false),
    }
}

// Puts what lies at the place of each fingerprint, and answers whether each is as long as the memory says. At the first that
// isn't, it stops.
fn copy_each<V: Shelf>(
    memory: &CloudMemory,
    log: &mut Log,
    shelf: &mut V,
    cloud: CloudNo,
    fps: &FpsView<'_>,
    buffer: &mut [u8],
    reply: &mut ReplyBuf,
) -> Result<bool, Failed>
    requires area { log.old.area ≡ areas.Shares }
    requires buffer { share_limit ≤ length buffer.old }
    requires room { length reply.old + length fps.now * (share_limit + 4) ≤ frame_limit }
    ensures ok { IfOk result (λ whole. IsTrue whole → HasPut (length fps.now) reply.old reply.new) }
    ensures held { IsTrue (V.cloud_at shelf.old cloud.0).told
        → Agrees log.old ((V.cloud_at shelf.old cloud.0).now log.old.area).read
        → (shape : Shape) (number : ℕ) (list : List Command)
        → (user : UserId) → KeepsRemembered (reads (V.cloud_at shelf.old cloud.0).now) shape number list
        (memory_of memory.now)
        → All (Contains (user_view shape list user).own) fps.now
        → IfOk result (λ whole. IsTrue whole → reply.new ≡ reply.old ++ flat_map share_bytes
        (map (λ fp. unwrap_or (held_string list fp) []) fps.now)) }
    ensures log { ReadsLog log.old log.new (V.cloud_at shelf.old cloud.0) (V.cloud_at shelf.new cloud.0) }
    ensures tried { HasTried (V.cloud_at shelf.old) (V.cloud_at shelf.new) cloud.0 (V.faults shelf.old)
        (V.faults shelf.new) result }
{
    for place in 0..fps.len() {
        let fp = fp_at(fps, place);
        let at = memory.place_of(&fp);
        match copy_share(log, shelf, cloud, at, buffer, reply) {
            Ok(true) => {}
            Ok(false) => return Ok(false),
            Err(Failed) => return Err(Failed),
        }
    }
    Ok(true)
}

// Whether shares have these fingerprints, one each. They are hashed together.
fn are_named(shares: &SharesView<'_>, fps: &FpsView<'_>) -> bool
    requires few { length shares.now ≤ 256 }
    requires one_each { length shares.now ≡ length fps.now }
    ensures { IsTrue result → map fingerprint shares.now ≡ fps.now }
{
    let digests = digests_of(shares);
    for place in 0..fps.len() {
        let named = fp_at(fps, place);
        let found = Fp(digests[place]);
        if found != named {
            return false;
        }
    }
    true
}

// Whether the shares of a reply have these fingerprints, one each.
fn has_named(content: &[u8], fps: &FpsView<'_>) -> bool
    requires { PutAll (length fps.now) content.now }
    ensures { IsTrue result → SentAll fps.now content.now }
{
    let (_, fields) = content.split_at(1);
    match shares_of(fields) {
        Ok((shares, _)) => are_named(&shares, fps),
        Err(_) => false,
    }
}

/// The reply Shares, with what lies at the place of each of these fingerprints by way of what the log keeps, and whether it has the
/// shares of these fingerprints. They are hashed when all are put, four at a time; a single one is left to the other way, which
/// hashes it alone.
pub(crate) fn put_together<V: Shelf>(
    memory: &CloudMemory,
    log: &mut Log,
    shelf: &mut V,
    cloud: CloudNo,
    fps: &FpsView<'_>,
    buffer: &mut [u8],
    reply: &mut ReplyBuf,
) -> Result<bool, Failed>
    requires batch { IsBatch fps.now }
    requires area { log.old.area ≡ areas.Shares }
    requires buffer { share_limit ≤ length buffer.old }
    ensures ok { IfOk result (λ all. IsTrue all → SentAll fps.now reply.new) }
    ensures held { IsTrue (V.cloud_at shelf.old cloud.0).told
        → Agrees log.old ((V.cloud_at shelf.old cloud.0).now log.old.area).read
        → (shape : Shape) (number : ℕ) (list : List Command)
        → (user : UserId) → KeepsRemembered (reads (V.cloud_at shelf.old cloud.0).now) shape number list
        (memory_of memory.now)
        → All (Contains (user_view shape list user).own) fps.now
        → IfOk result (λ all. IsTrue all → reply.new ≡ reply_bytes
        (replies.Shares (map (λ fp. unwrap_or (held_string list fp) []) fps.now))) }
    ensures log { ReadsLog log.old log.new (V.cloud_at shelf.old cloud.0) (V.cloud_at shelf.new cloud.0) }
    ensures tried { HasTried (V.cloud_at shelf.old) (V.cloud_at shelf.new) cloud.0 (V.faults shelf.old)
        (V.faults shelf.new) result }
{
    if fps.len() == 1 {
        return Ok(false);
    }
    begin_shares(reply, fps.len());
    match copy_each(memory, log, shelf, cloud, fps, buffer, reply) {
        Ok(true) => Ok(has_named(reply.content(), fps)),
        Ok(false) => Ok(false),
        Err(Failed) => Err(Failed),
    }
}
