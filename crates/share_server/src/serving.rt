//! A request that was read, from an opening on where the server is closed.

ghost use Rattle.std.specs.Prelude.{◌≡◌, ◌⊎◌, ℕ, List, None, length, IsTrue, OnOk, OnErr, IfErr, Ok};
ghost use Rattle.server_requests.specs.CdBase.ids.Fp.{Fp};
ghost use Rattle.server_requests.specs.CdEdges.Shelf.{IsCall, HasFailed, KeepsCounts, Stays};
ghost use Rattle.server_requests.specs.CommitJournal.Openings.{OnFault};
ghost use Rattle.server_requests.specs.Messages.reply.Reply.{Reply};
ghost use Rattle.server_requests.specs.Messages.reply.Reply.TheVariants as replies;
ghost use Rattle.server_requests.specs.Messages.Replies.{IsReply, reply_bytes};
ghost use Rattle.server_requests.specs.Messages.Requests.{FitsRequest};
ghost use Rattle.server_requests.specs.UserDedup.command.Command.{Command};
ghost use Rattle.server_requests.specs.UserDedup.Exec.{Peer, MaySettleAs};
ghost use Rattle.server_requests.specs.UserDedup.Requests.{HasRecipe};
ghost use Rattle.blob_copy.specs.CloudAreas.Peers.{ImagesSince, MayBecome};
ghost use Rattle.blob_copy.specs.CloudOpening.CloudMemory.Rooms.{memory_of};
ghost use Rattle.server_requests.specs.CloudStore.Store.{IsOpen, ServesSome};
ghost use Rattle.server_requests.specs.ServerCommands.Leaving.{IsFound, LeavesAll};
ghost use Rattle.server_requests.specs.ServerCommands.Serving.{serves};
ghost use Rattle.server_requests.specs.Asking.{request_of, IsOfShape, IsForMemory};
ghost use Rattle.share_server.specs.Keeping.{IsStoreKept};
ghost use Rattle.share_server.specs.Refusals.{MayCome};
ghost use Rattle.share_server.specs.Serving.{ServesAs, ExecutesAs, IsAnsweredContent, IsUnopened, IsUnopenedReply};
ghost use Rattle.share_server.specs.Serving.{CanOpen};
ghost use Rattle.share_server.specs.Serving.{ChangesBehind, EntersBy, GrowsOn, OpensFirst, RottenLeaves};
ghost use Rattle.server_requests.specs.Hashed.{IsHashed};
ghost use Rattle.share_server.specs.Steps.{OpensAs, HasDoneRequest, IsOpenedBy};

use crate::damage::put_refusal;
use blob_copy::law_of_peers;
use server_requests::{
    CloudStore, Failed, OpenErr, ReplyBuf, Shelf, StoreRequest, dispatch, write_fault,
};

// The reply to a request becomes the content, by an open store.
fn serve<V: Shelf>(
    store: &mut CloudStore,
    shelf: &mut V,
    asked: &StoreRequest<'_>,
    buffer: &mut [u8],
    reply: &mut ReplyBuf,
)
    requires kept { IsStoreKept store.old (length buffer.old) }
    requires open { IsOpen store.old }
    requires fits { FitsRequest (request_of asked.now) }
    requires recipe { IsOfShape store.old.header.shape asked.now }
    requires has { HasRecipe store.old.header.shape (request_of asked.now) }
    ensures kept { IsStoreKept store.new (length buffer.new) }
    ensures header { store.new.header ≡ store.old.header }
    ensures does { (p : Peer) → ServesAs store.old (V.cloud_at shelf.old store.old.header.cloud.0) p
        → HasDoneRequest store.old store.new (V.cloud_at shelf.new store.old.header.cloud.0) p
        (request_of asked.now) reply.new }
    ensures images { (p : Peer) → ServesAs store.old (V.cloud_at shelf.old store.old.header.cloud.0) p
        → ImagesSince (V.cloud_at shelf.old store.old.header.cloud.0)
        (V.cloud_at shelf.new store.old.header.cloud.0) store.old.header
        (MayBecome (serves store.old) p (request_of asked.now)) }
    ensures answered { IsAnsweredContent store.old.header.shape (request_of asked.now) store.new
        (V.cloud_at shelf.old store.old.header.cloud.0) (V.cloud_at shelf.new store.old.header.cloud.0)
        (V.faults shelf.old) (V.faults shelf.new) reply.new }
    ensures open { IsOpen store.new ⊎ (reply.new ≡ reply_bytes replies.Fault) }
    ensures rotten { (named found : Fp) → IsReply reply.new (replies.Rotten named found)
        → IsFound (V.cloud_at shelf.old store.old.header.cloud.0) (memory_of store.old.memory)
        (request_of asked.now) named found }
    ensures found { (named found : Fp) → IsReply reply.new (replies.Rotten named found)
        → IsFound (V.cloud_at shelf.new store.old.header.cloud.0) (memory_of store.new.memory)
        (request_of asked.now) named found }
    ensures undamaged { (at byte : ℕ) → IsReply reply.new (replies.Damaged at byte) → ⊥ }
    ensures stays { (list : List Command) → ServesSome list store.old (V.cloud_at shelf.old store.old.header.cloud.0)
        → (serves store.old list (request_of asked.now)).adds ≡ None
        → Stays (V.cloud_at shelf.old store.old.header.cloud.0) (V.cloud_at shelf.new store.old.header.cloud.0)
        × (store.new.memory ≡ store.old.memory) }
    ensures behind { ChangesBehind store.old store.new (V.cloud_at shelf.old store.old.header.cloud.0)
        (V.cloud_at shelf.new store.old.header.cloud.0) (request_of asked.now) }
    ensures grown { GrowsOn store.old store.new (V.cloud_at shelf.old store.old.header.cloud.0)
        (V.cloud_at shelf.new store.old.header.cloud.0) (request_of asked.now) reply.new }
    ensures enters { EntersBy store.old store.new (request_of asked.now) reply.new }
    ensures rotten_leaves { RottenLeaves store.old store.new (V.cloud_at shelf.old store.old.header.cloud.0)
        (V.cloud_at shelf.new store.old.header.cloud.0) reply.new }
    ensures hashed { (answer : Reply) → IsReply reply.new answer
        → IsHashed (memory_of store.new.memory) (request_of asked.now) answer }
    ensures untouched { (answer : Reply) → LeavesAll (request_of asked.now) answer → IsReply reply.new answer
        → (shelf.new ≡ shelf.old) × (store.new ≡ store.old) }
    ensures no_call { IsForMemory (request_of asked.now) → (shelf.new ≡ shelf.old) × (store.new ≡ store.old) }
    ensures call { IsCall (V.cloud_at shelf.old) (V.cloud_at shelf.new) store.old.header.cloud.0 (V.faults shelf.old)
        (V.faults shelf.new) }
{
    match dispatch(store, shelf, asked, buffer, reply) {
        Ok(()) => {}
        Err(Failed) => write_fault(reply),
    }
}

// Opens the cloud where it isn't open, and begins it where it isn't begun.
fn ensure_open<V: Shelf>(
    store: &mut CloudStore,
    shelf: &mut V,
    buffer: &mut [u8],
) -> Result<(), OpenErr>
    requires kept { IsStoreKept store.old (length buffer.old) }
    ensures kept { IsStoreKept store.new (length buffer.new) }
    ensures header { store.new.header ≡ store.old.header }
    ensures open { OnOk result (IsOpen store.new) }
    ensures shut { OnErr result (¬ (IsOpen store.new)) }
    ensures alone { IsOpen store.old → (result ≡ Ok tt) × (store.new ≡ store.old) × (shelf.new ≡ shelf.old) }
    ensures peer { (p : Peer) → IsTrue (V.cloud_at shelf.old store.old.header.cloud.0).told
        → ServesAs store.old (V.cloud_at shelf.old store.old.header.cloud.0) p
        → (q : Peer) × ServesAs store.new (V.cloud_at shelf.new store.old.header.cloud.0) q × OpensAs p q result }
    ensures images { (p : Peer) → IsTrue (V.cloud_at shelf.old store.old.header.cloud.0).told
        → ServesAs store.old (V.cloud_at shelf.old store.old.header.cloud.0) p
        → ImagesSince (V.cloud_at shelf.old store.old.header.cloud.0)
        (V.cloud_at shelf.new store.old.header.cloud.0) store.old.header (MaySettleAs p) }
    ensures error { IfErr result (λ error. MayCome error
        × IsUnopened store.old (V.cloud_at shelf.old store.old.header.cloud.0)
        (V.cloud_at shelf.new store.old.header.cloud.0) error) }
    ensures opened { IsTrue (V.cloud_at shelf.old store.old.header.cloud.0).told → ¬ (IsOpen store.old)
        → OnOk result (IsOpenedBy store.old store.new (V.cloud_at shelf.old store.old.header.cloud.0)
        (V.cloud_at shelf.new store.old.header.cloud.0)) }
    ensures counts { OnFault result
        (HasFailed (V.cloud_at shelf.old store.old.header.cloud.0) (V.cloud_at shelf.new store.old.header.cloud.0)
        (V.faults shelf.old) (V.faults shelf.new))
        (KeepsCounts (V.cloud_at shelf.old store.old.header.cloud.0) (V.cloud_at shelf.new store.old.header.cloud.0)
        (V.faults shelf.old) (V.faults shelf.new)) }
    ensures call { IsCall (V.cloud_at shelf.old) (V.cloud_at shelf.new) store.old.header.cloud.0 (V.faults shelf.old)
        (V.faults shelf.new) }
{
    if store.is_open() {
        return Ok(());
    }
    law_of_peers();
    match store.open(shelf, true, buffer) {
        Ok(_) => Ok(()),
        Err(error) => Err(error),
    }
}

/// The reply to a request becomes the content. A closed server opens first.
pub(crate) fn answer<V: Shelf>(
    store: &mut CloudStore,
    shelf: &mut V,
    asked: &StoreRequest<'_>,
    buffer: &mut [u8],
    reply: &mut ReplyBuf,
)
    requires kept { IsStoreKept store.old (length buffer.old) }
    requires fits { FitsRequest (request_of asked.now) }
    requires recipe { IsOfShape store.old.header.shape asked.now }
    requires has { HasRecipe store.old.header.shape (request_of asked.now) }
    ensures kept { IsStoreKept store.new (length buffer.new) }
    ensures header { store.new.header ≡ store.old.header }
    ensures exec { (p : Peer) → IsTrue (V.cloud_at shelf.old store.old.header.cloud.0).told
        → ServesAs store.old (V.cloud_at shelf.old store.old.header.cloud.0) p
        → ExecutesAs store.old store.new (V.cloud_at shelf.new store.old.header.cloud.0) p
        (request_of asked.now) reply.new }
    ensures images { (p : Peer) → IsTrue (V.cloud_at shelf.old store.old.header.cloud.0).told
        → ServesAs store.old (V.cloud_at shelf.old store.old.header.cloud.0) p
        → ImagesSince (V.cloud_at shelf.old store.old.header.cloud.0)
        (V.cloud_at shelf.new store.old.header.cloud.0) store.old.header
        (MayBecome (serves store.old) p (request_of asked.now)) }
    ensures answered { IsAnsweredContent store.old.header.shape (request_of asked.now) store.new
        (V.cloud_at shelf.old store.old.header.cloud.0) (V.cloud_at shelf.new store.old.header.cloud.0)
        (V.faults shelf.old) (V.faults shelf.new) reply.new }
    ensures rotten { (named found : Fp) → IsOpen store.old → IsReply reply.new (replies.Rotten named found)
        → IsFound (V.cloud_at shelf.old store.old.header.cloud.0) (memory_of store.old.memory)
        (request_of asked.now) named found }
    ensures found { (named found : Fp) → IsReply reply.new (replies.Rotten named found)
        → IsFound (V.cloud_at shelf.new store.old.header.cloud.0) (memory_of store.new.memory)
        (request_of asked.now) named found }
    ensures undamaged { (at byte : ℕ) → IsOpen store.old → IsReply reply.new (replies.Damaged at byte) → ⊥ }
    ensures stays { (list : List Command) → IsOpen store.old
        → ServesSome list store.old (V.cloud_at shelf.old store.old.header.cloud.0)
        → (serves store.old list (request_of asked.now)).adds ≡ None
        → Stays (V.cloud_at shelf.old store.old.header.cloud.0) (V.cloud_at shelf.new store.old.header.cloud.0)
        × (store.new.memory ≡ store.old.memory) }
    ensures behind { IsOpen store.old
        → ChangesBehind store.old store.new (V.cloud_at shelf.old store.old.header.cloud.0)
        (V.cloud_at shelf.new store.old.header.cloud.0) (request_of asked.now) }
    ensures grown { IsOpen store.old
        → GrowsOn store.old store.new (V.cloud_at shelf.old store.old.header.cloud.0)
        (V.cloud_at shelf.new store.old.header.cloud.0) (request_of asked.now) reply.new }
    ensures enters { IsOpen store.old → EntersBy store.old store.new (request_of asked.now) reply.new }
    ensures rotten_leaves { IsOpen store.old
        → RottenLeaves store.old store.new (V.cloud_at shelf.old store.old.header.cloud.0)
        (V.cloud_at shelf.new store.old.header.cloud.0) reply.new }
    ensures hashed { (answer : Reply) → IsReply reply.new answer
        → IsHashed (memory_of store.new.memory) (request_of asked.now) answer }
    ensures damaged { (at byte : ℕ) → IsReply reply.new (replies.Damaged at byte) → ¬ (IsOpen store.new) }
    ensures untouched { (answer : Reply) → IsOpen store.old → LeavesAll (request_of asked.now) answer
        → IsReply reply.new answer → (shelf.new ≡ shelf.old) × (store.new ≡ store.old) }
    ensures no_call { IsOpen store.old → IsForMemory (request_of asked.now)
        → (shelf.new ≡ shelf.old) × (store.new ≡ store.old) }
    ensures refusals { IsOpen store.new
        ⊎ ((reply.new ≡ reply_bytes replies.Fault)
        ⊎ IsUnopenedReply store.old (V.cloud_at shelf.old store.old.header.cloud.0)
        (V.cloud_at shelf.new store.old.header.cloud.0) reply.new) }
    ensures closed { IsTrue (V.cloud_at shelf.old store.old.header.cloud.0).told → ¬ (IsOpen store.old)
        → CanOpen store.old (V.cloud_at shelf.old store.old.header.cloud.0)
        ⊎ IsUnopenedReply store.old (V.cloud_at shelf.old store.old.header.cloud.0)
        (V.cloud_at shelf.new store.old.header.cloud.0) reply.new }
    ensures first { IsTrue (V.cloud_at shelf.old store.old.header.cloud.0).told → ¬ (IsOpen store.old)
        → OpensFirst store.old store.new (V.cloud_at shelf.old store.old.header.cloud.0)
        (V.cloud_at shelf.new store.old.header.cloud.0) (request_of asked.now) reply.new
        ⊎ IsUnopenedReply store.old (V.cloud_at shelf.old store.old.header.cloud.0)
        (V.cloud_at shelf.new store.old.header.cloud.0) reply.new }
    ensures call { IsCall (V.cloud_at shelf.old) (V.cloud_at shelf.new) store.old.header.cloud.0 (V.faults shelf.old)
        (V.faults shelf.new) }
{
    match ensure_open(store, shelf, buffer) {
        Ok(()) => serve(store, shelf, asked, buffer, reply),
        Err(error) => put_refusal(reply, error),
    }
}
