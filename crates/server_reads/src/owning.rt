//! What the memory says of fingerprints.

ghost use Rattle.std.specs.Prelude.{◌≡◌, ℕ, ◌+◌, ◌≤◌, ◌<◌, List, ◌∷◌, [], ◌++◌, length, slice_get, Some, IfSome};
ghost use Rattle.cloud_memory.specs.CdBase.shape.Shape.{Shape};
ghost use Rattle.messages.specs.Frames.Frames.{frame_limit};
ghost use Rattle.messages.specs.MessageFields.Fingerprints.{IsBatch};
ghost use Rattle.messages.specs.declared.request.Request.TheVariants as requests;
ghost use Rattle.messages.specs.declared.reply.Reply.TheVariants as replies;
ghost use Rattle.messages.specs.Replies.{reply_bytes};
ghost use Rattle.cloud_memory.specs.UserDedup.command.Command.{Command};
ghost use Rattle.cloud_memory.specs.UserDedup.Cloud.{user_view};
ghost use Rattle.cloud_memory.specs.UserDedup.Owning.{first_lacking};
ghost use Rattle.cloud_memory.specs.UserDedup.Dedup.{answer_over};
ghost use Rattle.cloud_memory.specs.Memory.{Remembers};
ghost use Rattle.cloud_memory.specs.Rooms.{memory_of};
ghost use Rattle.server_reads.specs.Allowed.{Replies, KnownReply};
ghost use Rattle.server_reads.specs.Owned.{owned_flag, owned_flags, first_unowned};

use cloud_memory::{CloudMemory, Fp, UserId};
use messages::{FpsView, ReplyBuf, begin_known};

/// The fingerprint at a place, counted from 0. It asks for a place that there is.
pub(crate) fn fp_at(fps: &FpsView<'_>, place: usize) -> Fp
    requires { place < length fps.now }
    ensures { slice_get fps.now place ≡ Some result }
{
    match fps.get(place) {
        Some(fp) => fp,
        None => unreachable!(),
    }
}

// 1 where the user owns the fingerprint, and else 0.
fn mark_of(memory: &CloudMemory, user: UserId, fp: &Fp) -> u8
    ensures { result ≡ owned_flag (memory_of memory.now) user fp.now }
{
    if memory.owns(user, fp) { 1 } else { 0 }
}

// Puts a flag for each fingerprint.
fn put_marks(memory: &CloudMemory, user: UserId, fps: &FpsView<'_>, reply: &mut ReplyBuf)
    requires { length reply.old + length fps.now ≤ frame_limit }
    ensures { reply.new ≡ reply.old ++ owned_flags (memory_of memory.now) user fps.now }
{
    for place in 0..fps.len() {
        let fp = fp_at(fps, place);
        reply.put(&[mark_of(memory, user, &fp)]);
    }
}

/// The reply to Query becomes the content: for each fingerprint 1 where the user owns it, and else 0. It asks for 1 to 256
/// fingerprints.
pub fn known(memory: &CloudMemory, user: UserId, fps: &FpsView<'_>, reply: &mut ReplyBuf)
    requires { IsBatch fps.now }
    ensures kept { reply.new ≡ reply_bytes (replies.Known (owned_flags (memory_of memory.now) user fps.now)) }
    ensures value { (shape : Shape) (cloud : ℕ) (list : List Command) → Remembers shape list (memory_of memory.now)
        → reply.new ≡ reply_bytes (answer_over shape cloud list (requests.Query user fps.now)).reply }
    ensures kind { Replies reply.new (KnownReply fps.now) }
{
    begin_known(reply, fps.len());
    put_marks(memory, user, fps, reply);
}

/// The place, counted from 0, of the first fingerprint that the user doesn't own. None exactly where the user owns all. It asks
/// for 1 to 256 fingerprints.
pub(crate) fn first_foreign(memory: &CloudMemory, user: UserId, fps: &FpsView<'_>) -> Option<u16>
    requires { IsBatch fps.now }
    ensures kept { result ≡ first_unowned (memory_of memory.now) user fps.now }
    ensures value { (shape : Shape) (list : List Command) → Remembers shape list (memory_of memory.now)
        → result ≡ first_lacking (user_view shape list user).own fps.now }
    ensures within { IfSome result (λ place. place < length fps.now) }
{
    for place in 0..fps.len() {
        if !memory.owns(user, &fp_at(fps, place)) {
            return Some(place as u16);
        }
    }
    None
}
