//! The server.

ghost use Rattle.std.specs.Prelude.{vec_len};
ghost use Rattle.share_server.specs.Keeping.{IsStoreKept, kept_prop};

use crate::copies::Copies;
use crate::serving::answer;
use blob_copy::law_of_peers;
use server_requests::{
    CloudNo, CloudStore, Header, NoMemory, OpenErr, RECIPE_LIMIT, ReplyBuf, Shape, Shelf,
    StoreRequest, UserRooms, write_malformed,
};
use std::alloc::Global;

/// The server of one cloud: it keeps a memory of the list of commands that lies on the cloud's disk, and adds to both.
/// It takes all its memory when it is made, but for the containers that it keeps. It is closed at first, and opens its
/// cloud at the first request; after a Fault it is closed again.
#[derive(Drop)]
pub struct Server {
    pub(crate) store: CloudStore,
    pub(crate) buffer: Vec<u8>,
    pub(crate) copies: Copies,
    ghost kept: { IsStoreKept store (vec_len buffer) } by { kept_prop store (vec_len buffer) },
}

impl Server {
    ghost use Rattle.std.specs.Prelude.{◌≡◌, ◌⊎◌, ◌↔◌, ℕ, ◌<◌, ◌^◌, List, length, None};
    ghost use Rattle.std.specs.Prelude.{IsTrue, IfOk, OnOk, OnErr, Ok, Err};
    ghost use Rattle.std.specs.List.{Contains};
    ghost use Rattle.server_requests.specs.CdBase.ids.Fp.{Fp};
    ghost use Rattle.server_requests.specs.CdEdges.area.Area.TheVariants.{Journal};
    ghost use Rattle.server_requests.specs.CdEdges.Disk.{reads};
    ghost use Rattle.server_requests.specs.CdEdges.Shelf.{IsCall, HasFailed, KeepsCounts, Stays};
    ghost use Rattle.server_requests.specs.CommitJournal.Openings.{OnFault, HasBegun};
    ghost use Rattle.server_requests.specs.JournalStart.Ranges.{AreRooms};
    ghost use Rattle.server_requests.specs.Messages.request.Request.{Request};
    ghost use Rattle.server_requests.specs.Messages.reply.Reply.{Reply};
    ghost use Rattle.server_requests.specs.Messages.reply.Reply.TheVariants as replies;
    ghost use Rattle.server_requests.specs.Messages.Replies.{IsReply, reply_bytes};
    ghost use Rattle.server_requests.specs.UserDedup.command.Command.{Command};
    ghost use Rattle.server_requests.specs.UserDedup.Cloud.{counted};
    ghost use Rattle.server_requests.specs.UserDedup.Exec.{Peer};
    ghost use Rattle.server_requests.specs.UserDedup.Requests.{asked_at};
    ghost use Rattle.server_requests.specs.UserDedup.Spending.{IsWithin};
    ghost use Rattle.blob_copy.specs.CloudAreas.Peers.{ImagesNow, ImagesSince, MayBecome};
    ghost use Rattle.blob_copy.specs.CloudAreas.Standing.{StandsFor};
    ghost use Rattle.blob_copy.specs.CloudOpening.CloudMemory.Rooms.{memory_of};
    ghost use Rattle.blob_copy.specs.CloudOpening.Exact.{Opens};
    ghost use Rattle.blob_copy.specs.CloudOpening.Spared.{IsOkOrFault, MayBegin, Spares};
    ghost use Rattle.blob_copy.specs.CloudOpening.Synced.{BeginsSynced};
    ghost use Rattle.server_requests.specs.CloudStore.Store.{IsOpen, IsSettled, ServesSome, closed};
    ghost use Rattle.server_requests.specs.ServerCommands.Leaving.{IsFound, LeavesAll};
    ghost use Rattle.server_requests.specs.Asking.{IsForMemory};
    ghost use Rattle.server_requests.specs.Hashed.{IsHashed};
    ghost use Rattle.share_server.specs.Names.{header_of};
    ghost use Rattle.share_server.specs.Openings.{NotBegunIs, OtherStoreIs};
    ghost use Rattle.share_server.specs.Serving.{number_of, IsServing, server_serves, settled_with, ReopensAs};
    ghost use Rattle.share_server.specs.Serving.{ExecutesAs, IsAnsweredContent, IsUnopenedReply, CanOpen};
    ghost use Rattle.share_server.specs.Serving.{ChangesBehind, EntersBy, GrowsOn, IsReadToEnd, OpensFirst, RottenLeaves};

    /// A closed server of this cloud of a store of this shape, in these rooms. It takes all its memory here; the only
    /// error is want of memory.
    pub fn make(
        alloc: Global,
        cloud: CloudNo,
        shape: Shape,
        rooms: UserRooms,
    ) -> Result<Server, NoMemory>
        requires cloud { cloud.0 < shape.n }
        requires rooms { AreRooms rooms }
        ensures of { IfOk result (λ server. server.store.header ≡ header_of shape rooms cloud.0) }
        ensures closed { IfOk result (λ server. ¬ (IsOpen server.store)) }
    {
        let header = Header {
            format: 2,
            shape,
            cloud,
            rooms,
        };
        let buffer = vec![in alloc; 0u8; RECIPE_LIMIT as usize]?;
        let store = CloudStore::make(alloc, header)?;
        Ok(Server {
            store,
            buffer,
            copies: Copies::none(),
        })
    }

    /// The header of its cloud: its store's shape and rooms, and the cloud's number.
    pub fn header(&self) -> Header
        ensures { result ≡ self.now.store.header }
    {
        self.store.header
    }

    /// The store that it works on, to be looked at: its header, and what it remembers of the list of commands.
    pub fn store(&self) -> &CloudStore
        ensures same { result.now ≡ self.now.store }
        ensures settled { IsSettled result.now }
    {
        &self.store
    }

    /// Whether the cloud is open.
    pub fn is_open(&self) -> bool
        ensures { IsTrue result ↔ IsOpen self.now.store }
    {
        self.store.is_open()
    }

    /// Closes the cloud: the next request opens it. Nothing else changes.
    pub fn close(&mut self)
        ensures same { self.new.store ≡ closed self.old.store }
        ensures closed { ¬ (IsOpen self.new.store) }
    {
        self.store.shut();
    }

    /// Opens the cloud, whether it is open or not: it syncs the three areas, finds the current half of the journal and reads it
    /// from its header on, or begins half 0 where none is begun and `begin` is true. It answers how many commands the list
    /// has. After any error the server is closed.
    ///
    /// Fault comes only where the cloud's count of faults rose. NotBegun comes where no half of the journal is begun and
    /// `begin` is false, with the bytes that it has; OtherStore where the current half has another header, of which the rooms
    /// are a part; Damaged where a record breaks a rule. Over a told cloud the answer is what its bytes come to, record by
    /// record (`Opens`), unless a device call failed.
    ///
    /// Where the cloud stands as a peer, it settles: the list is the peer's, or that with the pending command, and a
    /// crash at any moment leaves one of the two. After Fault and NotBegun the peer has what it had.
    ///
    /// Whatever a told cloud's areas hold, damaged or another store's, they are spared: a crash at any moment leaves
    /// what it might have left before, or begins an unbegun journal, and a begun one is only synced and read.
    pub fn reopen<V: Shelf>(&mut self, shelf: &mut V, begin: bool) -> Result<u64, OpenErr>
        ensures same { self.new.store.header ≡ self.old.store.header }
        ensures open { OnOk result (IsOpen self.new.store) }
        ensures shut { OnErr result (¬ (IsOpen self.new.store)) }
        ensures peer { (p : Peer) → IsTrue (V.cloud_at shelf.old (number_of self.old)).told
            → IsServing self.old (V.cloud_at shelf.old (number_of self.old)) p
            → (q : Peer) × IsServing self.new (V.cloud_at shelf.new (number_of self.old)) q
            × ReopensAs begin p q result }
        ensures kept { IsTrue (V.cloud_at shelf.old (number_of self.old)).told → (lists : List (List Command))
            → ImagesNow (V.cloud_at shelf.old (number_of self.old)) self.old.store.header (Contains lists)
            → ImagesSince (V.cloud_at shelf.old (number_of self.old))
            (V.cloud_at shelf.new (number_of self.old)) self.old.store.header (Contains lists) }
        ensures loaded { IsTrue (V.cloud_at shelf.old (number_of self.old)).told → (list : List Command)
            → StandsFor (reads (V.cloud_at shelf.old (number_of self.old)).now) self.old.store.header list
            → IsWithin self.old.store.header.shape self.old.store.header.rooms list
            → IfOk result (λ commands. (commands ≡ counted list)
            × IsServing self.new (V.cloud_at shelf.new (number_of self.old))
            (settled_with list (V.cloud_at shelf.new (number_of self.old)))) }
        ensures whole { IsTrue (V.cloud_at shelf.old (number_of self.old)).told → (list : List Command)
            → StandsFor (reads (V.cloud_at shelf.old (number_of self.old)).now) self.old.store.header list
            → IsWithin self.old.store.header.shape self.old.store.header.rooms list
            → MayBegin ((V.cloud_at shelf.old (number_of self.old)).now Journal).read begin → IsOkOrFault result }
        ensures not_begun { IsTrue (V.cloud_at shelf.old (number_of self.old)).told
            → NotBegunIs (V.cloud_at shelf.old (number_of self.old))
            (V.cloud_at shelf.new (number_of self.old)) begin result }
        ensures other_store { IsTrue (V.cloud_at shelf.old (number_of self.old)).told
            → OtherStoreIs ((V.cloud_at shelf.old (number_of self.old)).now Journal).read self.old.store.header result }
        ensures synced { IsTrue (V.cloud_at shelf.old (number_of self.old)).told
            → OnFault result (Unit {0})
            (BeginsSynced (V.cloud_at shelf.old (number_of self.old)) (V.cloud_at shelf.new (number_of self.old))) }
        ensures exact { IsTrue (V.cloud_at shelf.old (number_of self.old)).told
            → OnFault result (Unit {0})
            (Opens self.old.store.header begin (reads (V.cloud_at shelf.old (number_of self.old)).now)
            (memory_of self.new.store.memory) result) }
        ensures areas { IsTrue (V.cloud_at shelf.old (number_of self.old)).told
            → Spares self.old.store.header begin (V.cloud_at shelf.old (number_of self.old))
            (V.cloud_at shelf.new (number_of self.old)) result }
        ensures read { IsTrue (V.cloud_at shelf.old (number_of self.old)).told
            → OnOk result (IsReadToEnd self.new.store (V.cloud_at shelf.new (number_of self.old))) }
        ensures begins { IsTrue begin → HasBegun result }
        ensures call { IsCall (V.cloud_at shelf.old) (V.cloud_at shelf.new) (number_of self.old) (V.faults shelf.old)
            (V.faults shelf.new) }
        ensures counts { OnFault result
            (HasFailed (V.cloud_at shelf.old (number_of self.old)) (V.cloud_at shelf.new (number_of self.old))
            (V.faults shelf.old) (V.faults shelf.new))
            (KeepsCounts (V.cloud_at shelf.old (number_of self.old)) (V.cloud_at shelf.new (number_of self.old))
            (V.faults shelf.old) (V.faults shelf.new)) }
    {
        law_of_peers();
        self.store.open(shelf, begin, &mut self.buffer)
    }

    /// The reply to a request becomes the content. The request is one content of a frame, of fewer than 4,294,967,296 bytes.
    ///
    /// Content that asks nothing of a store of this shape is answered by Malformed, with the first place that is wrong,
    /// before anything else is done. A closed server then opens the cloud, and begins it where it isn't begun; it
    /// answers Fault where a device failed, and Damaged where the journal can't be taken: with the place that is wrong
    /// and its byte, or with the first byte of the header that is another's. The request is executed by an open server alone.
    /// So over a told cloud whose bytes come to no list a closed server's reply is that of the opening, by the place and the
    /// byte, and its areas are spared.
    ///
    /// On a cloud that stands as a peer the reply is the one that the peer's list gives, and the list has then the
    /// command that the request adds; or it is Fault, where a device failed, and the command may be there or not. A
    /// crash at any moment leaves the list, or the list with that command. After any other reply than Fault the server
    /// is open, and what was added is certain. It takes no memory but for containers that it reads and keeps, up to 4
    /// of Shares and 4 of Recipes of 4,194,304 bytes each, and goes on without where there is none for them.
    ///
    /// Where the journal's current half has no room for a command's record, a checkpoint is made in the other half first.
    ///
    /// Over a told cloud, whatever its records say, a Put that stored shares, a Commit that entered a version and a Delete that
    /// took one out are on the disk behind the reply: the journal's last record is the request's, as the server spells it, the
    /// shares or the recipe lie where it says, and what lay there before lies there still (`grown`; of a closed server that is
    /// so behind its opening, in `first`).
    ///
    /// A request that adds nothing leaves the cloud's areas and the memory as they were. Stored with 0, Lacking, Missing, NotYours
    /// and Full of a user's room by an open server come with no call of a device at all. Whatever the records say, what is
    /// added lies behind the ends of both logs and of the journal, or in its other half. Rotten names what lies then where
    /// the memory has the share or the recipe, and what lies there is another or shorter; behind it areas and memory are as
    /// they were. An open server never answers Damaged, and behind Damaged the server is closed.
    ///
    /// Whatever the cloud has, what a reply but Fault says of a Put, a Commit or a Delete is so by the memory, and behind it the
    /// memory is what the reply says (`enters`); Known, Recipe, Missing, Shares and NotYours say what the memory has, which
    /// stays. Of a closed server that is the memory that its opening read. Whatever the cloud has and is told of, shares have
    /// the SHA-256 that was asked for, and a recipe has that of the memory's entry (`hashed`).
    pub fn execute<V: Shelf>(&mut self, shelf: &mut V, request: &[u8], reply: &mut ReplyBuf)
        requires { length request.now < 2 ^ 32 }
        ensures same { self.new.store.header ≡ self.old.store.header }
        ensures malformed { (at : ℕ) → asked_at self.old.store.header.shape request.now ≡ Err at
            → (reply.new ≡ reply_bytes (replies.Malformed at)) × (self.new ≡ self.old) × (shelf.new ≡ shelf.old) }
        ensures exec { (p : Peer) (r : Request) → IsTrue (V.cloud_at shelf.old (number_of self.old)).told
            → IsServing self.old (V.cloud_at shelf.old (number_of self.old)) p
            → asked_at self.old.store.header.shape request.now ≡ Ok r
            → ExecutesAs self.old.store self.new.store (V.cloud_at shelf.new (number_of self.old)) p r reply.new }
        ensures images { (p : Peer) (r : Request) → IsTrue (V.cloud_at shelf.old (number_of self.old)).told
            → IsServing self.old (V.cloud_at shelf.old (number_of self.old)) p
            → asked_at self.old.store.header.shape request.now ≡ Ok r
            → ImagesSince (V.cloud_at shelf.old (number_of self.old))
            (V.cloud_at shelf.new (number_of self.old)) self.old.store.header (MayBecome (server_serves self.old) p r) }
        ensures untold { (r : Request) → asked_at self.old.store.header.shape request.now ≡ Ok r
            → IsAnsweredContent self.old.store.header.shape r self.new.store (V.cloud_at shelf.old (number_of self.old))
            (V.cloud_at shelf.new (number_of self.old)) (V.faults shelf.old) (V.faults shelf.new) reply.new }
        ensures rotten { (r : Request) (named found : Fp) → IsOpen self.old.store
            → asked_at self.old.store.header.shape request.now ≡ Ok r → IsReply reply.new (replies.Rotten named found)
            → IsFound (V.cloud_at shelf.old (number_of self.old)) (memory_of self.old.store.memory) r named found }
        ensures found { (r : Request) (named found : Fp) → asked_at self.old.store.header.shape request.now ≡ Ok r
            → IsReply reply.new (replies.Rotten named found)
            → IsFound (V.cloud_at shelf.new (number_of self.old)) (memory_of self.new.store.memory) r named found }
        ensures undamaged { (r : Request) (at byte : ℕ) → IsOpen self.old.store
            → asked_at self.old.store.header.shape request.now ≡ Ok r
            → IsReply reply.new (replies.Damaged at byte) → ⊥ }
        ensures stays { (list : List Command) (r : Request) → IsOpen self.old.store
            → ServesSome list self.old.store (V.cloud_at shelf.old (number_of self.old))
            → asked_at self.old.store.header.shape request.now ≡ Ok r
            → (server_serves self.old list r).adds ≡ None
            → Stays (V.cloud_at shelf.old (number_of self.old)) (V.cloud_at shelf.new (number_of self.old))
            × (self.new.store.memory ≡ self.old.store.memory) }
        ensures behind { (r : Request) → IsOpen self.old.store
            → asked_at self.old.store.header.shape request.now ≡ Ok r
            → ChangesBehind self.old.store self.new.store (V.cloud_at shelf.old (number_of self.old))
            (V.cloud_at shelf.new (number_of self.old)) r }
        ensures grown { (r : Request) → IsOpen self.old.store
            → asked_at self.old.store.header.shape request.now ≡ Ok r
            → GrowsOn self.old.store self.new.store (V.cloud_at shelf.old (number_of self.old))
            (V.cloud_at shelf.new (number_of self.old)) r reply.new }
        ensures enters { (r : Request) → IsOpen self.old.store
            → asked_at self.old.store.header.shape request.now ≡ Ok r
            → EntersBy self.old.store self.new.store r reply.new }
        ensures rotten_leaves { (r : Request) → IsOpen self.old.store
            → asked_at self.old.store.header.shape request.now ≡ Ok r
            → RottenLeaves self.old.store self.new.store (V.cloud_at shelf.old (number_of self.old))
            (V.cloud_at shelf.new (number_of self.old)) reply.new }
        ensures hashed { (r : Request) (answer : Reply) → asked_at self.old.store.header.shape request.now ≡ Ok r
            → IsReply reply.new answer → IsHashed (memory_of self.new.store.memory) r answer }
        ensures damaged { (r : Request) (at byte : ℕ) → asked_at self.old.store.header.shape request.now ≡ Ok r
            → IsReply reply.new (replies.Damaged at byte) → ¬ (IsOpen self.new.store) }
        ensures untouched { (r : Request) (answer : Reply) → IsOpen self.old.store
            → asked_at self.old.store.header.shape request.now ≡ Ok r
            → LeavesAll r answer → IsReply reply.new answer
            → (shelf.new ≡ shelf.old) × (self.new.store ≡ self.old.store) }
        ensures no_call { (r : Request) → IsOpen self.old.store
            → asked_at self.old.store.header.shape request.now ≡ Ok r → IsForMemory r
            → (shelf.new ≡ shelf.old) × (self.new.store ≡ self.old.store) }
        ensures refusals { (r : Request) → asked_at self.old.store.header.shape request.now ≡ Ok r
            → IsOpen self.new.store ⊎ ((reply.new ≡ reply_bytes replies.Fault)
            ⊎ IsUnopenedReply self.old.store (V.cloud_at shelf.old (number_of self.old))
            (V.cloud_at shelf.new (number_of self.old)) reply.new) }
        ensures closed { (r : Request) → IsTrue (V.cloud_at shelf.old (number_of self.old)).told
            → ¬ (IsOpen self.old.store) → asked_at self.old.store.header.shape request.now ≡ Ok r
            → CanOpen self.old.store (V.cloud_at shelf.old (number_of self.old))
            ⊎ IsUnopenedReply self.old.store (V.cloud_at shelf.old (number_of self.old))
            (V.cloud_at shelf.new (number_of self.old)) reply.new }
        ensures first { (r : Request) → IsTrue (V.cloud_at shelf.old (number_of self.old)).told
            → ¬ (IsOpen self.old.store) → asked_at self.old.store.header.shape request.now ≡ Ok r
            → OpensFirst self.old.store self.new.store (V.cloud_at shelf.old (number_of self.old))
            (V.cloud_at shelf.new (number_of self.old)) r reply.new
            ⊎ IsUnopenedReply self.old.store (V.cloud_at shelf.old (number_of self.old))
            (V.cloud_at shelf.new (number_of self.old)) reply.new }
        ensures call { IsCall (V.cloud_at shelf.old) (V.cloud_at shelf.new) (number_of self.old) (V.faults shelf.old)
            (V.faults shelf.new) }
    {
        match StoreRequest::read(self.store.header.shape, request) {
            Ok(asked) => answer(&mut self.store, shelf, &asked, &mut self.buffer, reply),
            Err(at) => write_malformed(reply, at),
        }
    }
}
