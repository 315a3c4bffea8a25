//! The reply to GetShares.

ghost use Rattle.std.specs.Prelude.{◌≡◌, ℕ, ◌≤◌, List, length, map, IsTrue, OnOk, OnErr};
ghost use Rattle.server_commands.specs.CdBase.Limits.{recipe_limit};
ghost use Rattle.server_commands.specs.CdBase.shape.Shape.{Shape};
ghost use Rattle.server_commands.specs.CdEdges.area.Area.TheVariants as areas;
ghost use Rattle.server_commands.specs.CdEdges.Disk.{reads};
ghost use Rattle.server_commands.specs.CdEdges.Shelf.{IsCall, HasFailed, KeepsCounts, Stays};
ghost use Rattle.server_commands.specs.ContainerLog.States.{Agrees};
ghost use Rattle.server_commands.specs.MessageFields.Fingerprints.{IsBatch};
ghost use Rattle.server_commands.specs.MessageFields.Shares.{share_limit};
ghost use Rattle.server_commands.specs.Messages.request.Request.TheVariants as requests;
ghost use Rattle.server_commands.specs.Messages.reply.Reply.{Reply};
ghost use Rattle.server_commands.specs.Messages.reply.Reply.TheVariants as replies;
ghost use Rattle.server_commands.specs.Messages.Replies.{reply_bytes, IsReply};
ghost use Rattle.server_commands.specs.UserDedup.command.Command.{Command};
ghost use Rattle.server_commands.specs.UserDedup.Cloud.{fingerprint};
ghost use Rattle.server_commands.specs.UserDedup.Dedup.{answer_over, IsSound};
ghost use Rattle.server_commands.specs.ServerReads.CloudMemory.Memory.{Remembers, Stand};
ghost use Rattle.server_commands.specs.ServerReads.CloudMemory.Rooms.{memory_of};
ghost use Rattle.server_commands.specs.ServerReads.Allowed.{Replies, SharesReply};
ghost use Rattle.server_commands.specs.ServerReads.Found.{IsFoundShare};
ghost use Rattle.server_commands.specs.Entering.{SharesBy};
ghost use Rattle.server_commands.specs.Executing.{IsStoreReady, Executes};
ghost use Rattle.server_requests.specs.Hashed.{IsHashed};
ghost use Rattle.server_requests.specs.Reading.{ReadsDisk};

use server_commands::{
    CloudDisk, CloudMemory, CloudNo, CloudStore, Failed, FpsView, ReplyBuf, Shelf, UserId, shares,
};

// The same as `shares`, by the disk.
fn shares_on_disk<V: Shelf>(
    memory: &CloudMemory,
    disk: &mut CloudDisk,
    shelf: &mut V,
    cloud: CloudNo,
    user: UserId,
    fps: &FpsView<'_>,
    buffer: &mut [u8],
    reply: &mut ReplyBuf,
) -> Result<(), Failed>
    requires batch { IsBatch fps.now }
    requires area { disk.old.shares.area ≡ areas.Shares }
    requires buffer { share_limit ≤ length buffer.old }
    ensures value { IsTrue (V.cloud_at shelf.old cloud.0).told
        → Agrees disk.old.shares ((V.cloud_at shelf.old cloud.0).now disk.old.shares.area).read
        → (shape : Shape) (list : List Command) → IsSound shape cloud.0 list
        → Remembers shape list (memory_of memory.now)
        → Stand shape (reads (V.cloud_at shelf.old cloud.0).now areas.Shares)
        (reads (V.cloud_at shelf.old cloud.0).now areas.Recipes) list (memory_of memory.now)
        → OnOk result (reply.new ≡ reply_bytes
        (answer_over shape cloud.0 list (requests.GetShares user fps.now)).reply) }
    ensures kind { OnOk result (Replies reply.new
        (SharesReply fps.now (IsFoundShare (V.cloud_at shelf.old cloud.0) (memory_of memory.now)))) }
    ensures hashed { (shares : List (List ℕ)) → OnOk result (IsReply reply.new (replies.Shares shares)
        → map fingerprint shares ≡ fps.now) }
    ensures says { OnOk result (Replies reply.new (SharesBy (memory_of memory.now) user fps.now)) }
    ensures untouched { (place : ℕ) → OnOk result (IsReply reply.new (replies.NotYours place)
        → (shelf.new ≡ shelf.old) × (disk.new ≡ disk.old)) }
    ensures disk { ReadsDisk disk.old disk.new (V.cloud_at shelf.old cloud.0) (V.cloud_at shelf.new cloud.0) }
    ensures stays { Stays (V.cloud_at shelf.old cloud.0) (V.cloud_at shelf.new cloud.0) }
    ensures call { IsCall (V.cloud_at shelf.old) (V.cloud_at shelf.new) cloud.0 (V.faults shelf.old)
        (V.faults shelf.new) }
    ensures failed { OnErr result
        (HasFailed (V.cloud_at shelf.old cloud.0) (V.cloud_at shelf.new cloud.0) (V.faults shelf.old)
        (V.faults shelf.new)) }
    ensures uncounted { OnOk result
        (KeepsCounts (V.cloud_at shelf.old cloud.0) (V.cloud_at shelf.new cloud.0) (V.faults shelf.old)
        (V.faults shelf.new)) }
{
    shares(
        memory,
        disk.shares_mut(),
        shelf,
        cloud,
        user,
        fps,
        buffer,
        reply,
    )
}

/// Serves a GetShares. Where the device fails the store is shut.
pub(crate) fn send_shares<V: Shelf>(
    store: &mut CloudStore,
    shelf: &mut V,
    user: UserId,
    fps: &FpsView<'_>,
    buffer: &mut [u8],
    reply: &mut ReplyBuf,
) -> Result<(), Failed>
    requires ready { IsStoreReady store.old }
    requires batch { IsBatch fps.now }
    requires buffer { recipe_limit ≤ length buffer.old }
    ensures does { Executes (shelf.new ≡ shelf.old) store.old store.new (V.cloud_at shelf.old) (V.cloud_at shelf.new)
        (V.faults shelf.old) (V.faults shelf.new) (requests.GetShares user fps.now) reply.new result }
    ensures hashed { (answer : Reply) → OnOk result (IsReply reply.new answer
        → IsHashed (memory_of store.old.memory) (requests.GetShares user fps.now) answer) }
    ensures says { OnOk result (Replies reply.new (SharesBy (memory_of store.old.memory) user fps.now)) }
{
    let cloud = store.header.cloud;
    match shares_on_disk(
        &store.memory,
        &mut store.disk,
        shelf,
        cloud,
        user,
        fps,
        buffer,
        reply,
    ) {
        Ok(()) => Ok(()),
        Err(Failed) => {
            store.shut();
            Err(Failed)
        }
    }
}
