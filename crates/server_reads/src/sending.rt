//! The reply to GetShares.

ghost use Rattle.std.specs.Prelude.{◌≡◌, ◌⊎◌, ℕ, ◌+◌, ◌*◌, ◌≤◌, ◌<◌, List, [], ◌++◌, length, map, unwrap_or, All};
ghost use Rattle.std.specs.Prelude.{IsTrue, IsOk, OnOk, OnErr, Some, None};
ghost use Rattle.std.specs.List.{Contains, flat_map};
ghost use Rattle.cloud_memory.specs.CdBase.ids.Fp.{Fp};
ghost use Rattle.cloud_memory.specs.CdBase.ids.UserId.{UserId};
ghost use Rattle.cloud_memory.specs.CdBase.shape.Shape.{Shape};
ghost use Rattle.cd_edges.specs.declared.area.Area.TheVariants as areas;
ghost use Rattle.cd_edges.specs.Disk.{Cloud, reads};
ghost use Rattle.cd_edges.specs.Shelf.{IsCall, HasFailed, KeepsCounts, Stays};
ghost use Rattle.cloud_memory.specs.ContainerLog.Laying.{Placed, IsAt};
ghost use Rattle.cloud_memory.specs.ContainerLog.States.{Agrees};
ghost use Rattle.messages.specs.Frames.Frames.{frame_limit};
ghost use Rattle.messages.specs.MessageFields.Fingerprints.{IsBatch};
ghost use Rattle.messages.specs.MessageFields.Shares.{IsShare, share_bytes, share_limit};
ghost use Rattle.messages.specs.declared.request.Request.TheVariants as requests;
ghost use Rattle.messages.specs.declared.reply.Reply.TheVariants as replies;
ghost use Rattle.messages.specs.Replies.{reply_bytes, IsReply};
ghost use Rattle.cloud_memory.specs.CdBase.place.Place.{Place};
ghost use Rattle.cloud_memory.specs.UserDedup.command.Command.{Command};
ghost use Rattle.cloud_memory.specs.UserDedup.Cloud.{fingerprint, user_view, held_string};
ghost use Rattle.cloud_memory.specs.UserDedup.Dedup.{answer_over, IsSound};
ghost use Rattle.cloud_memory.specs.Memory.{Remembers, Stand};
ghost use Rattle.cloud_memory.specs.Rooms.{memory_of};
ghost use Rattle.server_reads.specs.Allowed.{Replies, SharesReply};
ghost use Rattle.server_reads.specs.Found.{IsOther, IsFoundShare, ReadsLog};
ghost use Rattle.server_reads.specs.Owned.{first_unowned};
ghost use Rattle.server_reads.specs.Reading.{HasReadCloud, IfRotten};
ghost use Rattle.server_reads.specs.Steps.{KeepsRemembered, SentOne, HasSentShares, SentAll};

use crate::blobs::{BlobStop, nothing_at, read_blob};
use crate::owning::{first_foreign, fp_at};
use crate::together::put_together;
use cd_edges::{Failed, Shelf};
use cloud_memory::{CloudMemory, CloudNo, Fp, Log, Place, UserId};
use messages::{
    FpsView, ReplyBuf, SHARE_LIMIT, append_share, begin_shares, write_not_yours, write_rotten,
};

// Puts the share of this length and fingerprint that lies at a place. Rotten comes where another lies there.
fn put_from<V: Shelf>(
    log: &mut Log,
    shelf: &mut V,
    cloud: CloudNo,
    place: Place,
    fp: &Fp,
    buffer: &mut [u8],
    reply: &mut ReplyBuf,
) -> Result<(), BlobStop>
    requires some { 1 ≤ place.len }
    requires few { place.len ≤ share_limit }
    requires buffer { share_limit ≤ length buffer.old }
    requires room { length reply.old + (share_limit + 4) ≤ frame_limit }
    ensures ok { OnOk result (SentOne fp.now reply.old reply.new) }
    ensures named { IfRotten result (λ named found. named ≡ fp.now) }
    ensures found { IsTrue (V.cloud_at shelf.old cloud.0).told
        → IfRotten result (λ named found. IsOther
        ((V.cloud_at shelf.old cloud.0).now log.old.area).read place.at place.len named found) }
    ensures whole { IsTrue (V.cloud_at shelf.old cloud.0).told → (b : Placed) → b.place ≡ place.at
        → length b.blob ≡ place.len → fingerprint b.blob ≡ fp.now
        → IsAt ((V.cloud_at shelf.old cloud.0).now log.old.area).read b → IfRotten result (λ named found. ⊥) }
    ensures blob { IsTrue (V.cloud_at shelf.old cloud.0).told
        → Agrees log.old ((V.cloud_at shelf.old cloud.0).now log.old.area).read
        → (b : Placed) → b.place ≡ place.at → length b.blob ≡ place.len → fingerprint b.blob ≡ fp.now
        → IsAt ((V.cloud_at shelf.old cloud.0).now log.old.area).read b
        → OnOk result (reply.new ≡ reply.old ++ share_bytes b.blob) }
    ensures log { ReadsLog log.old log.new (V.cloud_at shelf.old cloud.0) (V.cloud_at shelf.new cloud.0) }
    ensures reads { HasReadCloud (V.cloud_at shelf.old) (V.cloud_at shelf.new) cloud.0 (V.faults shelf.old)
        (V.faults shelf.new) result }
{
    let (share, _) = buffer.split_at_mut(place.len as usize);
    match read_blob(log, shelf, cloud, place.at, fp, share) {
        Ok(()) => {
            append_share(reply, share);
            Ok(())
        }
        Err(stop) => Err(stop),
    }
}

// The same of a place that may be none, or of a length that no share has: nothing is found there then.
fn put_share<V: Shelf>(
    log: &mut Log,
    shelf: &mut V,
    cloud: CloudNo,
    place: Option<Place>,
    fp: &Fp,
    buffer: &mut [u8],
    reply: &mut ReplyBuf,
) -> Result<(), BlobStop>
    requires buffer { share_limit ≤ length buffer.old }
    requires room { length reply.old + (share_limit + 4) ≤ frame_limit }
    ensures ok { OnOk result (SentOne fp.now reply.old reply.new) }
    ensures named { IfRotten result (λ named found. named ≡ fp.now) }
    ensures found { IsTrue (V.cloud_at shelf.old cloud.0).told → (p : Place) → place ≡ Some p → 1 ≤ p.len
        → p.len ≤ share_limit
        → IfRotten result (λ named found. IsOther
        ((V.cloud_at shelf.old cloud.0).now log.old.area).read p.at p.len named found) }
    ensures none { place ≡ None → IfRotten result (λ named found. found ≡ fingerprint []) }
    ensures unfit { (p : Place) → place ≡ Some p → (p.len < 1) ⊎ (share_limit < p.len)
        → IfRotten result (λ named found. found ≡ fingerprint []) }
    ensures whole { IsTrue (V.cloud_at shelf.old cloud.0).told → (p : Place) → place ≡ Some p → (b : Placed)
        → b.place ≡ p.at → length b.blob ≡ p.len → IsShare b.blob
        → fingerprint b.blob ≡ fp.now → IsAt ((V.cloud_at shelf.old cloud.0).now log.old.area).read b
        → IfRotten result (λ named found. ⊥) }
    ensures blob { IsTrue (V.cloud_at shelf.old cloud.0).told
        → Agrees log.old ((V.cloud_at shelf.old cloud.0).now log.old.area).read
        → (p : Place) → place ≡ Some p → (b : Placed) → b.place ≡ p.at → length b.blob ≡ p.len → IsShare b.blob
        → fingerprint b.blob ≡ fp.now → IsAt ((V.cloud_at shelf.old cloud.0).now log.old.area).read b
        → OnOk result (reply.new ≡ reply.old ++ share_bytes b.blob) }
    ensures log { ReadsLog log.old log.new (V.cloud_at shelf.old cloud.0) (V.cloud_at shelf.new cloud.0) }
    ensures reads { HasReadCloud (V.cloud_at shelf.old) (V.cloud_at shelf.new) cloud.0 (V.faults shelf.old)
        (V.faults shelf.new) result }
{
    match place {
        Some(place) => {
            if 1 <= place.len && place.len as usize <= SHARE_LIMIT {
                match put_from(log, shelf, cloud, place, fp, buffer, reply) {
                    Ok(()) => Ok(()),
                    Err(stop) => Err(stop),
                }
            } else {
                Err(nothing_at(fp))
            }
        }
        None => Err(nothing_at(fp)),
    }
}

// Puts the share of each fingerprint, up to the first that isn't there.
fn put_each<V: Shelf>(
    memory: &CloudMemory,
    log: &mut Log,
    shelf: &mut V,
    cloud: CloudNo,
    fps: &FpsView<'_>,
    buffer: &mut [u8],
    reply: &mut ReplyBuf,
) -> Result<(), BlobStop>
    requires area { log.old.area ≡ areas.Shares }
    requires buffer { share_limit ≤ length buffer.old }
    requires room { length reply.old + length fps.now * (share_limit + 4) ≤ frame_limit }
    ensures ok { OnOk result (HasSentShares fps.now reply.old reply.new) }
    ensures rotten { IfRotten result (λ named found. Contains fps.now named
        × IsFoundShare (V.cloud_at shelf.old cloud.0) (memory_of memory.now) named found) }
    ensures whole { IsTrue (V.cloud_at shelf.old cloud.0).told → (shape : Shape) (number : ℕ) (list : List Command)
        → (user : UserId) → KeepsRemembered (reads (V.cloud_at shelf.old cloud.0).now) shape number list
        (memory_of memory.now)
        → All (Contains (user_view shape list user).own) fps.now
        → IfRotten result (λ named found. ⊥) }
    ensures held { IsTrue (V.cloud_at shelf.old cloud.0).told
        → Agrees log.old ((V.cloud_at shelf.old cloud.0).now log.old.area).read
        → (shape : Shape) (number : ℕ) (list : List Command)
        → (user : UserId) → KeepsRemembered (reads (V.cloud_at shelf.old cloud.0).now) shape number list
        (memory_of memory.now)
        → All (Contains (user_view shape list user).own) fps.now
        → OnOk result (reply.new ≡ reply.old ++ flat_map share_bytes
        (map (λ fp. unwrap_or (held_string list fp) []) fps.now)) }
    ensures log { ReadsLog log.old log.new (V.cloud_at shelf.old cloud.0) (V.cloud_at shelf.new cloud.0) }
    ensures reads { HasReadCloud (V.cloud_at shelf.old) (V.cloud_at shelf.new) cloud.0 (V.faults shelf.old)
        (V.faults shelf.new) result }
{
    for place in 0..fps.len() {
        let fp = fp_at(fps, place);
        let at = memory.place_of(&fp);
        match put_share(log, shelf, cloud, at, &fp, buffer, reply) {
            Ok(()) => {}
            Err(stop) => return Err(stop),
        }
    }
    Ok(())
}

// The reply Shares, with the share of each fingerprint, one read and hashed after another, or else why one isn't there.
fn put_one_by_one<V: Shelf>(
    memory: &CloudMemory,
    log: &mut Log,
    shelf: &mut V,
    cloud: CloudNo,
    fps: &FpsView<'_>,
    buffer: &mut [u8],
    reply: &mut ReplyBuf,
) -> Result<(), BlobStop>
    requires batch { IsBatch fps.now }
    requires area { log.old.area ≡ areas.Shares }
    requires buffer { share_limit ≤ length buffer.old }
    ensures ok { OnOk result (SentAll fps.now reply.new) }
    ensures rotten { IfRotten result (λ named found. Contains fps.now named
        × IsFoundShare (V.cloud_at shelf.old cloud.0) (memory_of memory.now) named found) }
    ensures whole { IsTrue (V.cloud_at shelf.old cloud.0).told → (shape : Shape) (number : ℕ) (list : List Command)
        → (user : UserId) → KeepsRemembered (reads (V.cloud_at shelf.old cloud.0).now) shape number list
        (memory_of memory.now)
        → All (Contains (user_view shape list user).own) fps.now
        → IfRotten result (λ named found. ⊥) }
    ensures held { IsTrue (V.cloud_at shelf.old cloud.0).told
        → Agrees log.old ((V.cloud_at shelf.old cloud.0).now log.old.area).read
        → (shape : Shape) (number : ℕ) (list : List Command)
        → (user : UserId) → KeepsRemembered (reads (V.cloud_at shelf.old cloud.0).now) shape number list
        (memory_of memory.now)
        → All (Contains (user_view shape list user).own) fps.now
        → OnOk result (reply.new ≡ reply_bytes
        (replies.Shares (map (λ fp. unwrap_or (held_string list fp) []) fps.now))) }
    ensures log { ReadsLog log.old log.new (V.cloud_at shelf.old cloud.0) (V.cloud_at shelf.new cloud.0) }
    ensures reads { HasReadCloud (V.cloud_at shelf.old) (V.cloud_at shelf.new) cloud.0 (V.faults shelf.old)
        (V.faults shelf.new) result }
{
    begin_shares(reply, fps.len());
    match put_each(memory, log, shelf, cloud, fps, buffer, reply) {
        Ok(()) => Ok(()),
        Err(stop) => Err(stop),
    }
}

// The same, read one after another and hashed together; and where one isn't there that way, one by one.
fn put_shares<V: Shelf>(
    memory: &CloudMemory,
    log: &mut Log,
    shelf: &mut V,
    cloud: CloudNo,
    fps: &FpsView<'_>,
    buffer: &mut [u8],
    reply: &mut ReplyBuf,
) -> Result<(), BlobStop>
    requires batch { IsBatch fps.now }
    requires area { log.old.area ≡ areas.Shares }
    requires buffer { share_limit ≤ length buffer.old }
    ensures ok { OnOk result (SentAll fps.now reply.new) }
    ensures rotten { IfRotten result (λ named found. Contains fps.now named
        × IsFoundShare (V.cloud_at shelf.old cloud.0) (memory_of memory.now) named found) }
    ensures whole { IsTrue (V.cloud_at shelf.old cloud.0).told → (shape : Shape) (number : ℕ) (list : List Command)
        → (user : UserId) → KeepsRemembered (reads (V.cloud_at shelf.old cloud.0).now) shape number list
        (memory_of memory.now)
        → All (Contains (user_view shape list user).own) fps.now
        → IfRotten result (λ named found. ⊥) }
    ensures held { IsTrue (V.cloud_at shelf.old cloud.0).told
        → Agrees log.old ((V.cloud_at shelf.old cloud.0).now log.old.area).read
        → (shape : Shape) (number : ℕ) (list : List Command)
        → (user : UserId) → KeepsRemembered (reads (V.cloud_at shelf.old cloud.0).now) shape number list
        (memory_of memory.now)
        → All (Contains (user_view shape list user).own) fps.now
        → OnOk result (reply.new ≡ reply_bytes
        (replies.Shares (map (λ fp. unwrap_or (held_string list fp) []) fps.now))) }
    ensures log { ReadsLog log.old log.new (V.cloud_at shelf.old cloud.0) (V.cloud_at shelf.new cloud.0) }
    ensures reads { HasReadCloud (V.cloud_at shelf.old) (V.cloud_at shelf.new) cloud.0 (V.faults shelf.old)
        (V.faults shelf.new) result }
{
    match put_together(memory, log, shelf, cloud, fps, buffer, reply) {
        Ok(true) => Ok(()),
        Ok(false) => match put_one_by_one(memory, log, shelf, cloud, fps, buffer, reply) {
            Ok(()) => Ok(()),
            Err(stop) => Err(stop),
        },
        Err(Failed) => Err(BlobStop::Failed),
    }
}

/// The reply to GetShares becomes the content. Where the user doesn't own each fingerprint it is NotYours, with the place of the
/// first, and no device is called. Else it is Shares, with the share of each fingerprint, read back and compared with the
/// fingerprint; or Rotten where fewer bytes lie there than were kept, or others. Rotten names the fingerprint, and that
/// of what was found at the place that the memory has for it, whatever the memory has.
///
/// Over a told cloud whose areas have the list that the memory has, and with which the log agrees, it is the reply of that list.
/// Failed comes only where the cloud's count of faults rose; nothing is known of the content then. The cloud's areas stay in any
/// case. Of the log only the containers change that it keeps, and with NotYours nothing.
///
/// It asks for 1 to 256 fingerprints, the log of the shares, and a buffer of 8,208 bytes at least. It takes no memory but for the
/// containers that the log keeps, and goes on without where there is none for them.
pub fn shares<V: Shelf>(
    memory: &CloudMemory,
    log: &mut Log,
    shelf: &mut V,
    cloud: CloudNo,
    user: UserId,
    fps: &FpsView<'_>,
    buffer: &mut [u8],
    reply: &mut ReplyBuf,
) -> Result<(), Failed>
    requires batch { IsBatch fps.now }
    requires area { log.old.area ≡ areas.Shares }
    requires buffer { share_limit ≤ length buffer.old }
    ensures value { IsTrue (V.cloud_at shelf.old cloud.0).told
        → Agrees log.old ((V.cloud_at shelf.old cloud.0).now log.old.area).read
        → (shape : Shape) (list : List Command) → IsSound shape cloud.0 list
        → Remembers shape list (memory_of memory.now)
        → Stand shape (reads (V.cloud_at shelf.old cloud.0).now areas.Shares)
        (reads (V.cloud_at shelf.old cloud.0).now areas.Recipes) list (memory_of memory.now)
        → OnOk result (reply.new ≡ reply_bytes
        (answer_over shape cloud.0 list (requests.GetShares user fps.now)).reply) }
    ensures kind { OnOk result
        (Replies reply.new (SharesReply fps.now (IsFoundShare (V.cloud_at shelf.old cloud.0) (memory_of memory.now)))) }
    ensures hashed { (shares : List (List ℕ)) → OnOk result (IsReply reply.new (replies.Shares shares)
        → map fingerprint shares ≡ fps.now) }
    ensures foreign { (place : ℕ) → first_unowned (memory_of memory.now) user fps.now ≡ Some place
        → IsOk result × (shelf.new ≡ shelf.old) × (log.new ≡ log.old)
        × (reply.new ≡ reply_bytes (replies.NotYours place)) }
    ensures untouched { (place : ℕ) → OnOk result (IsReply reply.new (replies.NotYours place)
        → (first_unowned (memory_of memory.now) user fps.now ≡ Some place)
        × (shelf.new ≡ shelf.old) × (log.new ≡ log.old)) }
    ensures log { ReadsLog log.old log.new (V.cloud_at shelf.old cloud.0) (V.cloud_at shelf.new cloud.0) }
    ensures stays { Stays (V.cloud_at shelf.old cloud.0) (V.cloud_at shelf.new cloud.0) }
    ensures call { IsCall (V.cloud_at shelf.old) (V.cloud_at shelf.new) cloud.0 (V.faults shelf.old)
        (V.faults shelf.new) }
    ensures failed { OnErr result
        (HasFailed (V.cloud_at shelf.old cloud.0) (V.cloud_at shelf.new cloud.0) (V.faults shelf.old)
        (V.faults shelf.new)) }
    ensures uncounted { OnOk result
        (KeepsCounts (V.cloud_at shelf.old cloud.0) (V.cloud_at shelf.new cloud.0) (V.faults shelf.old)
        (V.faults shelf.new)) }
{
    match first_foreign(memory, user, fps) {
        Some(place) => {
            write_not_yours(reply, place);
            Ok(())
        }
        None => match put_shares(memory, log, shelf, cloud, fps, buffer, reply) {
            Ok(()) => Ok(()),
            Err(BlobStop::Failed) => Err(Failed),
            Err(BlobStop::Rotten { named, found }) => {
                write_rotten(reply, named, found);
                Ok(())
            }
        },
    }
}
