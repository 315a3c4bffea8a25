//! The link to all clouds of a shelf.

ghost use Rattle.std.specs.Prelude.{◌≡◌, ◌⊎◌, ◌<◌, ◌≤◌, ℕ, List, Some, IsTrue};
ghost use Rattle.share_server.specs.CdEdges.Causes.{Rose};
ghost use Rattle.share_server.specs.CdEdges.Disk.{LeavesOnly, reads};
ghost use Rattle.share_server.specs.CdEdges.Shelf.{Stays};
ghost use Rattle.share_server.specs.CloudMemory.Memory.{Memory};
ghost use Rattle.share_server.specs.Messages.Requests.{IsRequest};
ghost use Rattle.share_server.specs.Messages.request.Request.{Request};
ghost use Rattle.share_server.specs.Messages.Replies.{IsReply};
ghost use Rattle.share_server.specs.Messages.reply.Reply.TheVariants as replies;
ghost use Rattle.std.specs.List.{Contains};
ghost use Rattle.share_server.specs.UserDedup.Exec.{Peer, MaySettleAs};
ghost use Rattle.share_server.specs.declared.server.Server.{Server};
ghost use Rattle.local_link.specs.declared.servers.Servers.{Servers};
ghost use Rattle.share_server.specs.CloudAreas.Peers.{ImagesSince};
ghost use Rattle.local_link.specs.declared.link.LocalLink.{LocalLink};
ghost use Rattle.share_server.specs.UserDedup.Link.{AddsNothing, Exchange, IsReading, Passes, ReadsOneOf};
ghost use Rattle.local_link.specs.Tells.{server_at, header_at, telling, StandsAt, IsOpenWith, IsRemembered, IsSaidBy};

use crate::Fate;
use crate::servers::Servers;
use share_server::laws::{law_of_areas, law_of_no_commands};
use share_server::{
    CloudNo, Failed, FindErr, Found, Link, Lost, NoMemory, OpenErr, ReplyBuf, Shape, Shelf,
    UserRooms, find,
};
use std::alloc::Global;

/// A link to the n clouds of a shelf, with their servers in this process.
///
/// A server is closed at first, and opens its cloud at the first request. The next ask may be lost, on its way there or back.
#[derive(Drop)]
pub struct LocalLink<'a, V: Shelf> {
    pub(crate) shelf: &'a mut V,
    pub(crate) servers: Servers,
    pub(crate) fate: Fate,
    pub(crate) losses: u64,
    pub(crate) alloc: Global,
}

impl<'a, V: Shelf> LocalLink<'a, V> {
    ghost use Rattle.std.specs.Prelude.{◌≡◌, ◌≢◌, ◌⊎◌, ◌↔◌, ℕ, false, ◌+◌, ◌-◌, ◌^◌, ◌<◌, ◌≤◌, List, [], length, min};
    ghost use Rattle.std.specs.Prelude.{IsTrue, IsOk, IfOk, OnOk, OnErr, IsSomeAnd, Some, Ok, Err, if◌then◌else◌};
    ghost use Rattle.std.specs.List.{Contains};
    ghost use Rattle.share_server.specs.CdEdges.Shelf.{IsCall, HasFailed, KeepsCounts, Arms, Refreshes};
    ghost use Rattle.share_server.specs.CdEdges.Shelf as device;
    ghost use Rattle.cloud_opening.specs.JournalHalves.Records.{window_len};
    ghost use Rattle.share_server.specs.JournalHalves.Findings as findings;
    ghost use Rattle.share_server.specs.Frames.Frames.{frame_limit};
    ghost use Rattle.share_server.specs.Messages.request.Request.{Request};
    ghost use Rattle.share_server.specs.Messages.reply.Reply.{Reply};
    ghost use Rattle.share_server.specs.Messages.reply.Reply.TheVariants as replies;
    ghost use Rattle.share_server.specs.Messages.Replies.{IsReply};
    ghost use Rattle.share_server.specs.CdBase.ids.Fp.{Fp};
    ghost use Rattle.share_server.specs.CloudMemory.Rooms.{memory_of};
    ghost use Rattle.share_server.specs.ServerCommands.Leaving.{IsFound};
    ghost use Rattle.share_server.specs.UserDedup.command.Command.{Command};
    ghost use Rattle.share_server.specs.UserDedup.Requests.{asked_at};
    ghost use Rattle.share_server.specs.UserDedup.Exec.{Peer, MaySettleAs, KeepsPeer, CountsOn};
    ghost use Rattle.share_server.specs.UserDedup.Link.{Asks, AsksNothing, LeavesOthers, Does, serves};
    ghost use Rattle.share_server.specs.CommitJournal.Openings.{OnFault, HasBegun};
    ghost use Rattle.share_server.specs.CdEdges.area.Area.TheVariants.{Journal};
    ghost use Rattle.share_server.specs.CloudOpening.Spared.{IsOkOrFault, MayBegin, Spares};
    ghost use Rattle.share_server.specs.Openings.{NotBegunIs, OtherStoreIs};
    ghost use Rattle.share_server.specs.CloudOpening.Exact.{Opens};
    ghost use Rattle.share_server.specs.CloudStore.Store.{IsOpen};
    ghost use Rattle.share_server.specs.JournalStart.Ranges.{AreRooms, IsStart};
    ghost use Rattle.share_server.specs.UserDedup.Spending.{IsWithin};
    ghost use Rattle.share_server.specs.CloudAreas.Peers.{ImagesNow, ImagesSince, MayBecome};
    ghost use Rattle.share_server.specs.declared.server.Server.{Server};
    ghost use Rattle.share_server.specs.JournalStart.rooms.UserRooms.{UserRooms};
    ghost use Rattle.share_server.specs.UserDedup.Cloud.{counted};
    ghost use Rattle.share_server.specs.Serving.{ReopensAs, settled_with, CanOpen, IsUnopenedReply};
    ghost use Rattle.share_server.specs.Serving.{ChangesBehind, EntersBy, GrowsOn};
    ghost use Rattle.share_server.specs.CloudAreas.Standing.{StandsFor};
    ghost use Rattle.share_server.specs.CdEdges.Disk.{reads};
    ghost use Rattle.local_link.specs.declared.fate.Fate.TheVariants.{Deliver, LoseRequest};
    ghost use Rattle.local_link.specs.Tells.{server_at, rooms_at, header_at, is_delivered, telling, LeavesRest};
    ghost use Rattle.local_link.specs.Steps.{IsClosedIn, OpensOrShuts, Replied, RepliesOpen};
    ghost use Rattle.local_link.specs.Calls.{MayServe, Replaces, Armed, WasBefore, no_commands};

    /// A link to the clouds of this shelf, over a closed server for each, all in these rooms. The next ask is
    /// delivered, and none was lost. The only error is want of memory.
    pub fn over(
        alloc: Global,
        shelf: &'a mut V,
        shape: Shape,
        rooms: UserRooms,
    ) -> Result<LocalLink<'a, V>, NoMemory>
        requires { AreRooms rooms }
        ensures shape { IfOk result (λ link. (telling V.cloud_at).shape link ≡ shape) }
        ensures delivers { IfOk result (λ link. (link.fate ≡ Deliver) × (link.losses ≡ 0)) }
        ensures closed { IfOk result (λ link. (cloud : ℕ) (server : Server)
            → server_at link.servers cloud ≡ Some server → IsClosedIn rooms server) }
        ensures shelf { IfOk result (λ link. link.shelf.now ≡ shelf.old) }
        ensures same_reference { IfOk result (λ link. link.shelf.ghost_name ≡ shelf.entry.ghost_name) }

        // A cloud stands as each peer that it may be served as.
        ensures stands { IfOk result (λ link. (cloud : ℕ) (p : Peer) → cloud < shape.n
            → MayServe shape cloud rooms (V.cloud_at shelf.old cloud) p
            → (telling V.cloud_at).stands link cloud p) }
    {
        let servers = Servers::make(alloc, shape, rooms)?;
        Ok(LocalLink {
            shelf,
            servers,
            fate: Fate::Deliver,
            losses: 0,
            alloc,
        })
    }

    /// A link to the clouds of this shelf, over these servers. The next ask is delivered, and none was lost. Who wants
    /// to know of the shelf what came of it makes the servers first, and at the end takes it back by `release`.
    pub fn of(alloc: Global, shelf: &'a mut V, servers: Servers) -> LocalLink<'a, V>
        ensures servers { result.servers ≡ servers }
        ensures delivers { (result.fate ≡ Deliver) × (result.losses ≡ 0) }
        ensures shelf { result.shelf.now ≡ shelf.old }
        ensures same_reference { result.shelf.ghost_name ≡ shelf.entry.ghost_name }
        ensures stands { (rooms : UserRooms)
            → ((cloud : ℕ) (server : Server) → server_at servers cloud ≡ Some server → IsClosedIn rooms server)
            → (cloud : ℕ) (p : Peer) → cloud < servers.shape.n
            → MayServe servers.shape cloud rooms (V.cloud_at shelf.old cloud) p
            → (telling V.cloud_at).stands result cloud p }
    {
        LocalLink {
            shelf,
            servers,
            fate: Fate::Deliver,
            losses: 0,
            alloc,
        }
    }

    /// Gives the shelf back.
    pub fn release(self) -> &'a mut V
        ensures shelf { result.now ≡ self.entry.shelf.now }
        ensures same_reference { result.ghost_name ≡ self.entry.shelf.ghost_name }
    {
        let LocalLink { shelf, .. } = self;
        shelf
    }

    /// Whether there is a cloud of this number.
    pub fn reaches(&self, cloud: CloudNo) -> bool
        ensures { result ≡ (telling V.cloud_at).reaches self.now cloud.0 }
    {
        cloud.0 < self.servers.shape.n
    }

    /// The shape of the store.
    pub fn shape(&self) -> Shape
        ensures { result ≡ (telling V.cloud_at).shape self.now }
    {
        self.servers.shape
    }

    /// How many asks were lost, a count that stays at its last value, that of a u64.
    pub fn losses(&self) -> u64
        ensures { result ≡ (telling V.cloud_at).losses self.now }
    {
        self.losses
    }

    /// The fate of the next ask alone; behind it the fate is `Deliver` again. Nothing else changes.
    pub fn next_fate(&mut self, fate: Fate)
        ensures { self.new ≡ record self.old { fate = fate } }
    {
        self.fate = fate;
    }

    /// Puts a closed server in these rooms in the cloud's place. Nothing else changes, and for want of memory nothing
    /// does. The cloud stands for each peer that it may be served as in the new rooms; its images then name just these
    /// rooms in their header.
    pub fn set_rooms(&mut self, cloud: CloudNo, rooms: UserRooms) -> Result<(), NoMemory>
        requires reached { IsTrue ((telling V.cloud_at).reaches self.old cloud.0) }
        requires rooms { AreRooms rooms }
        ensures closed { OnOk result (IsSomeAnd (server_at self.new.servers cloud.0) (IsClosedIn rooms)) }
        ensures serves { (p : Peer)
            → MayServe self.old.servers.shape cloud.0 rooms (V.cloud_at self.old.shelf.now cloud.0) p
            → OnOk result ((telling V.cloud_at).stands self.new cloud.0 p) }
        ensures others { LeavesRest V.cloud_at cloud.0 self.old self.new }
        ensures still { (self.new.shelf ≡ self.old.shelf) × (self.new.fate ≡ self.old.fate)
            × (self.new.losses ≡ self.old.losses) }
        ensures err { OnErr result (self.new ≡ self.old) }
    {
        self.servers.renew(self.alloc, cloud, rooms)
    }

    /// Finds the current half of the cloud's journal, and its start, through a window of 65,541 bytes:
    /// `journal_halves::find`. No server changes, and nothing that is told does.
    pub fn find(&mut self, cloud: CloudNo, window: &mut [u8]) -> Result<Found, FindErr>
        requires { length window.old ≡ window_len }
        ensures found { IsTrue ((telling V.cloud_at).told self.old cloud.0)
            → findings.FindIs ((V.cloud_at self.old.shelf.now cloud.0).now Journal).read result }
        ensures start { IfOk result (λ found. IsStart found.half found.start) }
        ensures stays { device.Stays (V.cloud_at self.old.shelf.now cloud.0) (V.cloud_at self.new.shelf.now cloud.0) }
        ensures call { IsCall (V.cloud_at self.old.shelf.now) (V.cloud_at self.new.shelf.now) cloud.0
            (V.faults self.old.shelf.now) (V.faults self.new.shelf.now) }
        ensures counts { findings.OnFindFault result
            (HasFailed (V.cloud_at self.old.shelf.now cloud.0) (V.cloud_at self.new.shelf.now cloud.0)
            (V.faults self.old.shelf.now) (V.faults self.new.shelf.now))
            (KeepsCounts (V.cloud_at self.old.shelf.now cloud.0) (V.cloud_at self.new.shelf.now cloud.0)
            (V.faults self.old.shelf.now) (V.faults self.new.shelf.now)) }
        ensures still { (self.new.servers ≡ self.old.servers) × (self.new.fate ≡ self.old.fate)
            × (self.new.losses ≡ self.old.losses) }
        ensures same_reference { self.new.shelf.ghost_name ≡ self.old.shelf.ghost_name }
    {
        find(self.shelf, cloud, window)
    }

    /// Opens the cloud's server, and answers how many commands the cloud has: `share_server::Server::reopen`. After an
    /// Err the server is closed. Where the cloud's journal isn't begun it is begun, where `begin` is true.
    pub fn reopen(&mut self, cloud: CloudNo, begin: bool) -> Result<u64, OpenErr>
        requires { IsTrue ((telling V.cloud_at).reaches self.old cloud.0) }
        ensures opens { OnOk result (IsSomeAnd (server_at self.new.servers cloud.0) (λ server. IsOpen server.store)) }
        ensures shut { OnErr result
            (IsSomeAnd (server_at self.new.servers cloud.0) (λ server. ¬ (IsOpen server.store))) }

        // Fault comes only where the cloud's count of faults and the one in all rose; with any other answer both stay.
        ensures counts { OnFault result
            (HasFailed (V.cloud_at self.old.shelf.now cloud.0) (V.cloud_at self.new.shelf.now cloud.0)
            (V.faults self.old.shelf.now) (V.faults self.new.shelf.now))
            (KeepsCounts (V.cloud_at self.old.shelf.now cloud.0) (V.cloud_at self.new.shelf.now cloud.0)
            (V.faults self.old.shelf.now) (V.faults self.new.shelf.now)) }

        // NotBegun comes where the journal isn't begun and `begin` is false, after three syncs alone, and no other
        // answer but Fault there.
        ensures not_begun { IsTrue ((telling V.cloud_at).told self.old cloud.0)
            → NotBegunIs (V.cloud_at self.old.shelf.now cloud.0) (V.cloud_at self.new.shelf.now cloud.0) begin result }

        ensures peer { (p : Peer) → IsTrue ((telling V.cloud_at).told self.old cloud.0)
            → (telling V.cloud_at).stands self.old cloud.0 p
            → (q : Peer) × (telling V.cloud_at).stands self.new cloud.0 q × ReopensAs begin p q result }

        // Where what the cloud reads stands for a list within its server's rooms, and the journal is begun or is to be
        // begun, the answer is Ok or Fault.
        ensures whole { IsTrue ((telling V.cloud_at).told self.old cloud.0) → (list : List Command)
            → StandsFor (reads (V.cloud_at self.old.shelf.now cloud.0).now)
            (header_at self.old.servers cloud.0) list
            → IsWithin ((telling V.cloud_at).shape self.old) (rooms_at self.old.servers cloud.0) list
            → MayBegin ((V.cloud_at self.old.shelf.now cloud.0).now Journal).read begin → IsOkOrFault result }
        ensures begins { IsTrue begin → HasBegun result }

        // The answer is what the bytes of the areas come to, record by record, unless a device call failed.
        ensures exact { IsTrue ((telling V.cloud_at).told self.old cloud.0)
            → IsSomeAnd (server_at self.new.servers cloud.0) (λ server. OnFault result (Unit {0})
            (Opens (header_at self.old.servers cloud.0) begin
            (reads (V.cloud_at self.old.shelf.now cloud.0).now) (memory_of server.store.memory) result)) }
        ensures other_store { IsTrue ((telling V.cloud_at).told self.old cloud.0)
            → OtherStoreIs ((V.cloud_at self.old.shelf.now cloud.0).now Journal).read
            (header_at self.old.servers cloud.0) result }

        // Whatever the areas hold, they are spared.
        ensures areas { IsTrue ((telling V.cloud_at).told self.old cloud.0)
            → Spares (header_at self.old.servers cloud.0) begin
            (V.cloud_at self.old.shelf.now cloud.0) (V.cloud_at self.new.shelf.now cloud.0) result }
        ensures call { IsCall (V.cloud_at self.old.shelf.now) (V.cloud_at self.new.shelf.now) cloud.0
            (V.faults self.old.shelf.now) (V.faults self.new.shelf.now) }

        // Where what the cloud reads stands for a list, the cloud stands for that list.
        ensures loaded { IsTrue ((telling V.cloud_at).told self.old cloud.0) → (list : List Command)
            → StandsFor (reads (V.cloud_at self.old.shelf.now cloud.0).now)
            (header_at self.old.servers cloud.0) list
            → IsWithin ((telling V.cloud_at).shape self.old) (rooms_at self.old.servers cloud.0) list
            → IfOk result (λ commands. (commands ≡ counted list)
            × (telling V.cloud_at).stands self.new cloud.0
            (settled_with list (V.cloud_at self.new.shelf.now cloud.0))) }
        ensures untold { (p : Peer) → (telling V.cloud_at).told self.old cloud.0 ≡ false
            → (telling V.cloud_at).stands self.old cloud.0 p
            → (q : Peer) × (telling V.cloud_at).stands self.new cloud.0 q × KeepsPeer p q × CountsOn p q }

        // Whenever a crash comes it leaves a list that it might have left before.
        ensures images { IsTrue ((telling V.cloud_at).told self.old cloud.0) → (lists : List (List Command))
            → ImagesNow (V.cloud_at self.old.shelf.now cloud.0) (header_at self.old.servers cloud.0) (Contains lists)
            → ImagesSince (V.cloud_at self.old.shelf.now cloud.0) (V.cloud_at self.new.shelf.now cloud.0)
            (header_at self.old.servers cloud.0) (Contains lists) }
        ensures rooms { rooms_at self.new.servers cloud.0 ≡ rooms_at self.old.servers cloud.0 }

        ensures others { LeavesOthers (telling V.cloud_at) cloud.0 self.old self.new }
        ensures rest { LeavesRest V.cloud_at cloud.0 self.old self.new }
        ensures still { (self.new.fate ≡ self.old.fate) × (self.new.losses ≡ self.old.losses) }
        ensures same_reference { self.new.shelf.ghost_name ≡ self.old.shelf.ghost_name }
    {
        self.servers.reopen(cloud, self.shelf, begin)
    }

    /// Makes the cloud's areas empty, and disarms it. Its server is closed after it, whatever the answer. After Ok the
    /// cloud stands for no commands; after `Failed`, which comes only where its count of faults rose, for what it stood
    /// for.
    pub fn replace(&mut self, cloud: CloudNo) -> Result<(), Failed>
        requires { IsTrue ((telling V.cloud_at).reaches self.old cloud.0) }
        ensures closed { IsSomeAnd (server_at self.old.servers cloud.0)
            (λ server. IsSomeAnd (server_at self.new.servers cloud.0) (IsClosedIn server.store.header.rooms)) }
        ensures replaced { (p : Peer) → (telling V.cloud_at).stands self.old cloud.0 p
            → (q : Peer) × (telling V.cloud_at).stands self.new cloud.0 q × Replaces p q result }

        // Whatever the cloud stood for, it stands for no commands.
        ensures fresh { OnOk result ((telling V.cloud_at).stands self.new cloud.0
            (no_commands (V.cloud_at self.old.shelf.now cloud.0))) }
        ensures rooms { rooms_at self.new.servers cloud.0 ≡ rooms_at self.old.servers cloud.0 }

        // Failed comes only where the cloud's count of faults and the one in all rose; after Ok both stay.
        ensures call { IsCall (V.cloud_at self.old.shelf.now) (V.cloud_at self.new.shelf.now) cloud.0
            (V.faults self.old.shelf.now) (V.faults self.new.shelf.now) }
        ensures failed { OnErr result
            (HasFailed (V.cloud_at self.old.shelf.now cloud.0) (V.cloud_at self.new.shelf.now cloud.0)
            (V.faults self.old.shelf.now) (V.faults self.new.shelf.now)) }
        ensures uncounted { OnOk result
            (KeepsCounts (V.cloud_at self.old.shelf.now cloud.0) (V.cloud_at self.new.shelf.now cloud.0)
            (V.faults self.old.shelf.now) (V.faults self.new.shelf.now)) }

        // The areas of a told cloud are empty after Ok, which a crash leaves so, and after Failed what they were, each
        // moment too.
        ensures refreshed { IsTrue ((telling V.cloud_at).told self.old cloud.0)
            → Refreshes (V.cloud_at self.old.shelf.now cloud.0) (V.cloud_at self.new.shelf.now cloud.0) result }

        // Whenever a crash comes it leaves what it might have left before, or empty areas.
        ensures images { IsTrue ((telling V.cloud_at).told self.old cloud.0)
            → WasBefore (V.cloud_at self.old.shelf.now cloud.0) (V.cloud_at self.new.shelf.now cloud.0) }

        ensures others { LeavesOthers (telling V.cloud_at) cloud.0 self.old self.new }
        ensures rest { LeavesRest V.cloud_at cloud.0 self.old self.new }
        ensures still { (self.new.fate ≡ self.old.fate) × (self.new.losses ≡ self.old.losses) }
        ensures same_reference { self.new.shelf.ghost_name ≡ self.old.shelf.ghost_name }
    {
        law_of_areas();
        law_of_no_commands();
        self.servers.close(cloud);
        self.shelf.fresh(cloud)
    }

    /// Cuts a later write or sync of the cloud: `cd_edges::Shelf::arm`. No list, no pending command and no fault changes.
    pub fn arm(&mut self, cloud: CloudNo, calls: u32, keep: u32)
        requires { IsTrue ((telling V.cloud_at).reaches self.old cloud.0) }
        ensures total { V.faults self.new.shelf.now ≡ V.faults self.old.shelf.now }
        ensures arms { Arms (V.cloud_at self.old.shelf.now cloud.0) (V.cloud_at self.new.shelf.now cloud.0) calls keep }
        ensures armed { (p : Peer) → (telling V.cloud_at).stands self.old cloud.0 p
            → (q : Peer) × (telling V.cloud_at).stands self.new cloud.0 q × Armed p q }
        ensures others { LeavesOthers (telling V.cloud_at) cloud.0 self.old self.new }
        ensures rest { LeavesRest V.cloud_at cloud.0 self.old self.new }
        ensures still { (self.new.servers ≡ self.old.servers) × (self.new.fate ≡ self.old.fate)
            × (self.new.losses ≡ self.old.losses) }
        ensures same_reference { self.new.shelf.ghost_name ≡ self.old.shelf.ghost_name }
    {
        law_of_areas();
        self.shelf.arm(cloud, calls, keep);
    }

    // Counts a loss. The reply buffer is empty then.
    fn lose(&mut self, reply: &mut ReplyBuf)
        ensures counted { self.new ≡ record self.old { losses = min (self.old.losses + 1) (2 ^ 64 - 1) } }
        ensures later { self.old.losses ≤ self.new.losses }
        ensures empty { reply.new ≡ [] }
    {
        reply.clear();
        self.losses = self.losses.saturating_add(1);
    }

    /// Asks a cloud, as `Link::ask` does, by the fate that was set: `Deliver` has the cloud's server execute the
    /// request, and gives its reply;
    /// `LoseRequest` does nothing; `LoseReply` has the request executed, and loses the reply. Where the ask was lost
    /// the reply buffer is empty.
    pub fn ask_cloud(
        &mut self,
        cloud: CloudNo,
        request: &[u8],
        reply: &mut ReplyBuf,
    ) -> Result<(), Lost>
        requires reached { IsTrue ((telling V.cloud_at).reaches self.old cloud.0) }
        requires framed { length request.now ≤ frame_limit }
        ensures delivered { IsOk result ↔ IsTrue (is_delivered self.old.fate) }
        ensures next { self.new.fate ≡ Deliver }
        ensures counted { self.new.losses
            ≡ (if is_delivered self.old.fate then self.old.losses else min (self.old.losses + 1) (2 ^ 64 - 1)) }
        ensures later { self.old.losses ≤ self.new.losses }
        ensures empty { OnErr result (reply.new ≡ []) }

        // What was lost before the cloud took it changes nothing else.
        ensures unheard { self.old.fate ≡ LoseRequest
            → (self.new.servers ≡ self.old.servers) × (self.new.shelf ≡ self.old.shelf) }

        // Content that asks nothing changes no cloud.
        ensures refused { (at : ℕ) → asked_at ((telling V.cloud_at).shape self.old) request.now ≡ Err at
            → V.cloud_at self.new.shelf.now ≡ V.cloud_at self.old.shelf.now }

        ensures uncounted { (at : ℕ) → asked_at ((telling V.cloud_at).shape self.old) request.now ≡ Err at
            → V.faults self.new.shelf.now ≡ V.faults self.old.shelf.now }
        ensures call { IsCall (V.cloud_at self.old.shelf.now) (V.cloud_at self.new.shelf.now) cloud.0
            (V.faults self.old.shelf.now) (V.faults self.new.shelf.now) }

        // Whatever the cloud has, a request that wasn't lost on its way there has a reply, whether it was lost or not:
        // one that some server gives to it; and Fault, and it alone, where the counts of faults rose.
        ensures answered { self.old.fate ≢ LoseRequest → (r : Request)
            → asked_at ((telling V.cloud_at).shape self.old) request.now ≡ Ok r
            → (content : List ℕ) × OnOk result (reply.new ≡ content)
            × Replied ((telling V.cloud_at).shape self.old) (V.cloud_at self.old.shelf.now cloud.0)
            (V.cloud_at self.new.shelf.now cloud.0) (V.faults self.old.shelf.now)
            (V.faults self.new.shelf.now) r content }

        // A closed server of a told cloud whose bytes come to no list replies with the error of its opening, by the
        // place and the byte, and the cloud's areas are spared.
        ensures closed { self.old.fate ≢ LoseRequest → (r : Request)
            → IsTrue ((telling V.cloud_at).told self.old cloud.0)
            → asked_at ((telling V.cloud_at).shape self.old) request.now ≡ Ok r
            → (content : List ℕ) × OnOk result (reply.new ≡ content)
            × IsSomeAnd (server_at self.old.servers cloud.0) (λ server. ¬ (IsOpen server.store)
            → CanOpen server.store (V.cloud_at self.old.shelf.now cloud.0)
            ⊎ IsUnopenedReply server.store (V.cloud_at self.old.shelf.now cloud.0)
            (V.cloud_at self.new.shelf.now cloud.0) content) }

        // An open server never replies Damaged; and a reply that says that nothing is stored, entered or read comes
        // with no call of a device.
        ensures opened { self.old.fate ≢ LoseRequest → (r : Request)
            → asked_at ((telling V.cloud_at).shape self.old) request.now ≡ Ok r
            → (content : List ℕ) × OnOk result (reply.new ≡ content)
            × IsSomeAnd (server_at self.old.servers cloud.0) (λ server. IsOpen server.store
            → RepliesOpen (V.cloud_at self.old.shelf.now) (V.cloud_at self.new.shelf.now)
            (V.faults self.old.shelf.now) (V.faults self.new.shelf.now) r content) }

        // Rotten names what lies then where the server's memory has the share or the recipe, and that it is another or shorter.
        ensures found { self.old.fate ≢ LoseRequest → (r : Request)
            → asked_at ((telling V.cloud_at).shape self.old) request.now ≡ Ok r
            → (content : List ℕ) × OnOk result (reply.new ≡ content)
            × IsSomeAnd (server_at self.new.servers cloud.0) (λ server. (named what : Fp)
            → IsReply content (replies.Rotten named what)
            → IsFound (V.cloud_at self.new.shelf.now cloud.0) (memory_of server.store.memory) r named what) }

        // Any request that wasn't lost on its way there is executed.
        ensures executed { self.old.fate ≢ LoseRequest → (r : Request)
            → asked_at ((telling V.cloud_at).shape self.old) request.now ≡ Ok r
            → (p : Peer) → (telling V.cloud_at).stands self.old cloud.0 p
            → (q : Peer) × (answer : Reply) × (telling V.cloud_at).stands self.new cloud.0 q
            × Does (telling V.cloud_at) cloud.0 self.old p r answer q }

        // As the trait says.
        ensures exec { (r : Request) → asked_at ((telling V.cloud_at).shape self.old) request.now ≡ Ok r
            → Asks (telling V.cloud_at) cloud.0 self.old r reply.new result self.new }
        ensures malformed { (at : ℕ) → asked_at ((telling V.cloud_at).shape self.old) request.now ≡ Err at
            → AsksNothing (telling V.cloud_at) cloud.0 self.old at reply.new result self.new }
        ensures others { LeavesOthers (telling V.cloud_at) cloud.0 self.old self.new }

        // Whenever a crash comes it leaves a list that the cloud might have settled as, or one with the command that
        // the request adds.
        ensures images { (p : Peer) (r : Request) → IsTrue ((telling V.cloud_at).told self.old cloud.0)
            → (telling V.cloud_at).stands self.old cloud.0 p
            → asked_at ((telling V.cloud_at).shape self.old) request.now ≡ Ok r
            → ImagesSince (V.cloud_at self.old.shelf.now cloud.0) (V.cloud_at self.new.shelf.now cloud.0)
            (header_at self.old.servers cloud.0) (MayBecome (serves (telling V.cloud_at) self.old cloud.0) p r) }
        ensures rooms { rooms_at self.new.servers cloud.0 ≡ rooms_at self.old.servers cloud.0 }

        // Whatever the records say: what an open server adds lies behind the ends of both logs and of the current chain,
        // or behind a checkpoint in the other half; and where its memory has it that the request adds nothing, the areas
        // stay. Over a told cloud a closed server opens first, and the same holds of what it opened.
        ensures behind { self.old.fate ≢ LoseRequest → (r : Request)
            → asked_at ((telling V.cloud_at).shape self.old) request.now ≡ Ok r
            → IsSomeAnd (server_at self.old.servers cloud.0) (λ before. IsOpen before.store
            → IsSomeAnd (server_at self.new.servers cloud.0) (λ after. ChangesBehind before.store after.store
            (V.cloud_at self.old.shelf.now cloud.0) (V.cloud_at self.new.shelf.now cloud.0) r)) }
        // What a reply says was added is on the disk of a told cloud, whatever its records say.
        ensures grown { self.old.fate ≢ LoseRequest → (r : Request)
            → asked_at ((telling V.cloud_at).shape self.old) request.now ≡ Ok r
            → (content : List ℕ) × OnOk result (reply.new ≡ content)
            × IsSomeAnd (server_at self.old.servers cloud.0) (λ before. IsOpen before.store
            → IsSomeAnd (server_at self.new.servers cloud.0) (λ after. GrowsOn before.store after.store
            (V.cloud_at self.old.shelf.now cloud.0) (V.cloud_at self.new.shelf.now cloud.0) r content)) }
        // What an open server replies follows from its memory, and says what that is then.
        ensures enters { self.old.fate ≢ LoseRequest → (r : Request)
            → asked_at ((telling V.cloud_at).shape self.old) request.now ≡ Ok r
            → (content : List ℕ) × OnOk result (reply.new ≡ content)
            × IsSomeAnd (server_at self.old.servers cloud.0) (λ before. IsOpen before.store
            → IsSomeAnd (server_at self.new.servers cloud.0) (λ after.
            EntersBy before.store after.store r content)) }
        ensures first { self.old.fate ≢ LoseRequest → (r : Request)
            → IsTrue ((telling V.cloud_at).told self.old cloud.0)
            → asked_at ((telling V.cloud_at).shape self.old) request.now ≡ Ok r
            → (content : List ℕ) × OnOk result (reply.new ≡ content)
            × IsSomeAnd (server_at self.old.servers cloud.0) (λ before. ¬ (IsOpen before.store)
            → IsSomeAnd (server_at self.new.servers cloud.0) (λ after. OpensOrShuts before.store after.store
            (V.cloud_at self.old.shelf.now cloud.0) (V.cloud_at self.new.shelf.now cloud.0) r content)) }

        ensures rest { LeavesRest V.cloud_at cloud.0 self.old self.new }
        ensures same_reference { self.new.shelf.ghost_name ≡ self.old.shelf.ghost_name }
    {
        let fate = self.fate;
        self.fate = Fate::Deliver;
        match fate {
            Fate::Deliver => {
                self.servers.execute(cloud, self.shelf, request, reply);
                Ok(())
            }
            Fate::LoseRequest => {
                self.lose(reply);
                Err(Lost)
            }
            Fate::LoseReply => {
                self.servers.execute(cloud, self.shelf, request, reply);
                self.lose(reply);
                Err(Lost)
            }
        }
    }
}

/// What asks leave that add nothing, one after another.
pub fn law_of_readings<V: Shelf>()
    // each image since then stands for a list that the cloud might have settled as
    ensures images { (named : List ℕ) (asks : List Exchange) (old new : LocalLink V) (cloud : ℕ) (p : Peer)
        → Passes (telling V.cloud_at) (ReadsOneOf named) old asks new
        → cloud < old.servers.shape.n → IsTrue (V.cloud_at old.shelf.now cloud).told → StandsAt V.cloud_at old cloud p
        → ImagesSince (V.cloud_at old.shelf.now cloud) (V.cloud_at new.shelf.now cloud)
        (header_at old.servers cloud) (MaySettleAs p) }
    // no cloud is armed
    ensures armings { (asks : List Exchange) (old new : LocalLink V) (cloud : ℕ)
        → Passes (telling V.cloud_at) (λ ask. IsReading ask.content) old asks new
        → (V.cloud_at new.shelf.now cloud).armings ≡ (V.cloud_at old.shelf.now cloud).armings }
    // no cloud's count of faults falls
    ensures later { (asks : List Exchange) (old new : LocalLink V) (cloud : ℕ)
        → Passes (telling V.cloud_at) (λ ask. IsReading ask.content) old asks new
        → (V.cloud_at old.shelf.now cloud).faults ≤ (V.cloud_at new.shelf.now cloud).faults }
    // and where one was answered Fault its cloud's count rose, whatever the cloud has
    ensures fault { (asks : List Exchange) (old new : LocalLink V) (ask : Exchange) (content : List ℕ)
        → Passes (telling V.cloud_at) (λ ask. IsReading ask.content) old asks new → Contains asks ask
        → ask.reply ≡ Some content
        → IsReply content replies.Fault
        → Rose (V.cloud_at old.shelf.now ask.cloud).faults (V.cloud_at new.shelf.now ask.cloud).faults }
    // an open server keeps its memory, and the cloud its areas, unless the cloud's count rose
    ensures memory { (asks : List Exchange) (old new : LocalLink V) (cloud : ℕ) (m : Memory)
        → Passes (telling V.cloud_at) (λ ask. IsReading ask.content) old asks new → IsOpenWith old.servers cloud m
        → Rose (V.cloud_at old.shelf.now cloud).faults (V.cloud_at new.shelf.now cloud).faults
        ⊎ (IsOpenWith new.servers cloud m × Stays (V.cloud_at old.shelf.now cloud) (V.cloud_at new.shelf.now cloud)) }
    // and then each of its replies is by that memory
    ensures said { (asks : List Exchange) (old new : LocalLink V) (ask : Exchange) (content : List ℕ) (m : Memory)
        (request : Request) → Passes (telling V.cloud_at) (λ ask. IsReading ask.content) old asks new
        → Contains asks ask → ask.reply ≡ Some content → IsRequest ask.content request → AddsNothing request
        → IsOpenWith old.servers ask.cloud m
        → Rose (V.cloud_at old.shelf.now ask.cloud).faults (V.cloud_at new.shelf.now ask.cloud).faults
        ⊎ IsSaidBy (V.cloud_at old.shelf.now ask.cloud) m request content }
    // What a told cloud reads opens, a crash leaves nothing else, and its server is closed or has the memory that the
    // opening reads: so it stays, whatever failed, and a crash since leaves nothing else
    ensures reading { (asks : List Exchange) (old new : LocalLink V) (cloud : ℕ) (m : Memory)
        → Passes (telling V.cloud_at) (λ ask. IsReading ask.content) old asks new
        → IsTrue (V.cloud_at old.shelf.now cloud).told
        → IsRemembered (header_at old.servers cloud) (V.cloud_at old.shelf.now cloud) (server_at old.servers cloud) m
        → IsRemembered (header_at new.servers cloud) (V.cloud_at new.shelf.now cloud) (server_at new.servers cloud) m
        × LeavesOnly (V.cloud_at old.shelf.now cloud) (V.cloud_at new.shelf.now cloud)
        (λ image. image ≡ reads (V.cloud_at old.shelf.now cloud).now)
        × (reads (V.cloud_at new.shelf.now cloud).now ≡ reads (V.cloud_at old.shelf.now cloud).now) }
    // and each of its replies is by that memory, or Fault
    ensures recalled { (asks : List Exchange) (old new : LocalLink V) (ask : Exchange) (content : List ℕ) (m : Memory)
        (request : Request) → Passes (telling V.cloud_at) (λ ask. IsReading ask.content) old asks new
        → Contains asks ask → ask.reply ≡ Some content → IsRequest ask.content request → AddsNothing request
        → IsTrue (V.cloud_at old.shelf.now ask.cloud).told
        → IsRemembered (header_at old.servers ask.cloud) (V.cloud_at old.shelf.now ask.cloud)
        (server_at old.servers ask.cloud) m
        → IsReply content replies.Fault ⊎ IsSaidBy (V.cloud_at old.shelf.now ask.cloud) m request content }
    // the clouds that aren't named are as they were
    ensures others { (named : List ℕ) (asks : List Exchange) (old new : LocalLink V) (cloud : ℕ)
        → Passes (telling V.cloud_at) (ReadsOneOf named) old asks new
        → ¬ Contains named cloud → V.cloud_at new.shelf.now cloud ≡ V.cloud_at old.shelf.now cloud }
    // and it is the same shelf
    ensures same_reference { (named : List ℕ) (asks : List Exchange) (old new : LocalLink V)
        → Passes (telling V.cloud_at) (ReadsOneOf named) old asks new
        → new.shelf.ghost_name ≡ old.shelf.ghost_name }
{}

/// The header of each server is that of its cloud's number in a store of the servers' shape.
pub fn law_of_headers()
    ensures { (servers : Servers) (cloud : ℕ) (server : Server) → server_at servers cloud ≡ Some server
        → server.store.header ≡ header_at servers cloud }
{}

impl<'a, V: Shelf> Link for LocalLink<'a, V> {
    ghost use Rattle.local_link.specs.Tells.{telling};
    ghost use Rattle.local_link.specs.Sounds.{tells_sound};

    ghost tells = { telling V.cloud_at };

    fn ask(&mut self, cloud: CloudNo, request: &[u8], reply: &mut ReplyBuf) -> Result<(), Lost> {
        self.ask_cloud(cloud, request, reply)
    }

    ghost sound = { tells_sound V.cloud_at };
}
