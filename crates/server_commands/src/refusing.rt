//! The reply where the journal has no room for a record.

ghost use Rattle.std.specs.Prelude.{◌+◌};
ghost use Rattle.server_reads.specs.CdBase.rooms.Room.TheVariants as rooms;
ghost use Rattle.server_reads.specs.Messages.reply.Reply.TheVariants as replies;
ghost use Rattle.server_reads.specs.Messages.Replies.{IsReply};

use cloud_store::CloudStore;
use server_reads::{ReplyBuf, Room, write_full};

/// Full of the journal: a record whose body has so many bytes doesn't fit even behind a checkpoint. It never comes where the
/// store serves a list.
pub(crate) fn refuse_long(store: &CloudStore, len: u32, reply: &mut ReplyBuf)
    ensures { IsReply reply.new (replies.Full rooms.Journal (store.now.disk.journal.current.gate + 1) (len + 5)
        store.now.disk.journal.limit) }
{
    let journal = store.disk.journal();
    write_full(
        reply,
        Room::Journal,
        journal.used(),
        u64::from(len) + 5,
        journal.limit(),
    );
}
