//! A Put.

ghost use Rattle.std.specs.Prelude.{◌≡◌, ◌≢◌, ◌≤◌, ℕ, List, length, All, OnOk};
ghost use Rattle.server_reads.specs.CdBase.rooms.Room.{Room};
ghost use Rattle.server_reads.specs.CdBase.rooms.Room.TheVariants as rooms;
ghost use Rattle.server_reads.specs.MessageFields.Shares.{AreShares};
ghost use Rattle.server_reads.specs.Messages.request.Request.TheVariants as requests;
ghost use Rattle.server_reads.specs.Messages.reply.Reply.TheVariants as replies;
ghost use Rattle.server_reads.specs.Messages.Replies.{IsReply};
ghost use Rattle.server_reads.specs.UserDedup.command.Command.{Command};
ghost use Rattle.server_reads.specs.UserDedup.Cloud.{user_view};
ghost use Rattle.server_reads.specs.UserDedup.Owning.{new_strings};
ghost use Rattle.cloud_store.specs.CloudAreas.Standing.{Chain};
ghost use Rattle.server_reads.specs.CloudMemory.News.{AreNewTo};
ghost use Rattle.server_reads.specs.CloudMemory.Rooms.{memory_of};
ghost use Rattle.cloud_store.specs.RecordBody.Spelling.{body_bytes};
ghost use Rattle.cloud_store.specs.Adding.{IsPut, IsShareNew, put_record, unstaged, KeepsOrGrows};
ghost use Rattle.server_reads.specs.Allowed.{Replies};
ghost use Rattle.server_commands.specs.Entering.{Stores, Enters};
ghost use Rattle.server_commands.specs.Executing.{IsStoreReady, Executes};
ghost use Rattle.server_commands.specs.Steps.{Calls, IsLeftSettled, DoesByList, GoesBehind, HasNewsStaged};

use crate::news::collect;
use crate::refusing::refuse_long;
use cloud_store::{CloudStore, Unadded};
use server_reads::{
    Failed, Fp, New, ReplyBuf, SharesView, Shelf, UserId, write_full, write_stored,
};

// Adds the Put of these shares, which are new; those that have no place yet are staged.
fn add_news<V: Shelf>(
    store: &mut CloudStore,
    shelf: &mut V,
    user: UserId,
    news: &[New],
    reply: &mut ReplyBuf,
) -> Result<(), Failed>
    requires staged { HasNewsStaged store.old news.now }
    requires some { 1 ≤ length news.now }
    requires few { length news.now ≤ 256 }
    requires lens { All IsShareNew news.now }
    requires new { AreNewTo (memory_of store.old.memory) user news.now }
    ensures leaves { IsLeftSettled store.old store.new result }
    ensures does { (list : List Command) (c : Chain) (sent strings : List (List ℕ))
        → IsPut list c store.old user news.now strings (V.cloud_at shelf.old store.old.header.cloud.0)
        → strings ≡ new_strings (user_view store.old.header.shape list user).own sent
        → DoesByList store.old store.new (V.cloud_at shelf.old store.old.header.cloud.0)
        (V.cloud_at shelf.new store.old.header.cloud.0) list (requests.Put user sent) reply.new result }
    ensures behind { KeepsOrGrows store.old (body_bytes (put_record store.old user news.now))
        (V.cloud_at shelf.old store.old.header.cloud.0) (V.cloud_at shelf.new store.old.header.cloud.0) }
    ensures goes { GoesBehind store.old store.new (body_bytes (put_record store.old user news.now))
        (V.cloud_at shelf.old store.old.header.cloud.0) (V.cloud_at shelf.new store.old.header.cloud.0)
        ((count : ℕ) × IsReply reply.new (replies.Stored count)) result }
    ensures stores { OnOk result (Replies reply.new
        (Stores store.old.header.rooms (memory_of store.old.memory) (memory_of store.new.memory) user news.now)) }
    ensures full { (room : Room) (used need limit : ℕ) → room ≢ rooms.Journal
        → OnOk result (IsReply reply.new (replies.Full room used need limit)
        → (shelf.new ≡ shelf.old) × (store.new ≡ unstaged store.old)) }
    ensures calls { Calls (V.cloud_at shelf.old) (V.cloud_at shelf.new) store.old.header.cloud.0 (V.faults shelf.old)
        (V.faults shelf.new) result }
{
    match store.add_put(shelf, user, news) {
        Ok(()) => {
            write_stored(reply, news.len() as u16);
            Ok(())
        }
        Err(Unadded::Full(full)) => {
            write_full(reply, full.room, full.used, full.need, full.limit);
            Ok(())
        }
        Err(Unadded::Long) => {
            let len = store.memory.put_len(news);
            refuse_long(store, len, reply);
            Ok(())
        }
        Err(Unadded::Failed) => Err(Failed),
    }
}

/// Serves a Put: stores the shares that are new to the user, of those whose SHA-256 isn't the user's own the first of each
/// SHA-256. The reply becomes the content.
///
/// - Where none is new: Stored with 0. No device is called, and nothing changes.
/// - Else Full names the first of the user's rooms that the command would pass, in the order owners, shares. No device is
///   called then, and nothing changes.
/// - Else the new shares that no user has sent yet are written and synced, with no call where there are none, and then the
///   command's record, with a checkpoint before both where the journal has no room: Stored with the number of new shares, and
///   the list has one command more.
///
/// Whatever the cloud has, Stored counts the shares that the memory doesn't give to the user, and behind it the memory is the
/// one before with the command's record taken.
///
/// Full of the journal comes only over a cloud of which the store serves no list. Failed comes only where the cloud's count
/// of faults rose. The store is shut then, the cloud stands for the list without the command or with it, and nothing is known
/// of the content.
///
/// It asks for 1 to 256 shares of 1 to 8,208 bytes. It takes no memory.
pub fn put<V: Shelf>(
    store: &mut CloudStore,
    shelf: &mut V,
    user: UserId,
    shares: &SharesView<'_>,
    reply: &mut ReplyBuf,
) -> Result<(), Failed>
    requires ready { IsStoreReady store.old }
    requires batch { AreShares shares.now }
    ensures does { Executes (shelf.new ≡ shelf.old) store.old store.new (V.cloud_at shelf.old) (V.cloud_at shelf.new)
        (V.faults shelf.old) (V.faults shelf.new) (requests.Put user shares.now) reply.new result }
    ensures enters { OnOk result (Replies reply.new (Enters store.old.header (memory_of store.old.memory)
        (memory_of store.new.memory) (requests.Put user shares.now))) }
{
    let mut news = [New {
        fp: Fp([0; 32]),
        len: 0,
    }; 256];
    let count = collect(store, user, shares, &mut news);
    if count == 0 {
        write_stored(reply, 0);
        return Ok(());
    }
    let (front, _) = news.split_at(count);
    add_news(store, shelf, user, front, reply)
}
