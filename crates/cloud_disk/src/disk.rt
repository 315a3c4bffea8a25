//! A cloud's journal and its two logs.

ghost use Rattle.std.specs.Prelude.{◌≡◌, ◌↔◌, ℕ, ◌+◌, ◌<◌, ◌≤◌, List, [], ◌∷◌, ◌++◌, length, IsTrue, IfOk, OnOk};
ghost use Rattle.std.specs.Prelude.{OnErr, MatchResult};
ghost use Rattle.std.specs.List.{Contains};
ghost use Rattle.std.specs.Borrow.{sem};
ghost use Rattle.commit_journal.specs.CdEdges.area.Area.TheVariants.{Shares, Recipes};
ghost use Rattle.commit_journal.specs.CdEdges.Disk.{Cloud, moment};
ghost use Rattle.commit_journal.specs.CdEdges.Shelf.{IsCall, HasFailed, KeepsCounts, Stays, ReadsFrom};
ghost use Rattle.cloud_areas.specs.ContainerLog.Laying.{Placed};
ghost use Rattle.cloud_areas.specs.ContainerLog.Places.{container_len, place_of};
ghost use Rattle.cloud_areas.specs.ContainerLog.States.{HasStaged, staged_end, need_of, with_blob, in_area};
ghost use Rattle.commit_journal.specs.JournalStart.start.Header.{Header};
ghost use Rattle.commit_journal.specs.JournalStart.Ranges.{AreRooms};
ghost use Rattle.commit_journal.specs.JournalHalves.Halves.{half_limit};
ghost use Rattle.commit_journal.specs.declared.journal.Stage.TheVariants.{Shut, AtEnd};
ghost use Rattle.commit_journal.specs.States.{state_of};
ghost use Rattle.commit_journal.specs.Outcomes.{stage_after};
ghost use Rattle.cloud_areas.specs.RecordBody.Spelling.{Body};
ghost use Rattle.cloud_areas.specs.UserDedup.command.Command.{Command};
ghost use Rattle.cloud_areas.specs.Placing.{shares_in};
ghost use Rattle.cloud_areas.specs.Chains.{laid_shares};
ghost use Rattle.cloud_areas.specs.Standing.{Chain};
ghost use Rattle.cloud_areas.specs.Adding.{with_record};
ghost use Rattle.cloud_disk.specs.Held.{flush_moments};
ghost use Rattle.cloud_disk.specs.Disk.{Disk, regions_end, empty_log, ended_at, without_staged, IsOn, AreEnds, Stages};
ghost use Rattle.cloud_disk.specs.Disk.{IsPrepared, KeepsOrAdds, KeepsDiskOrGrows, HasDiskGrown, KeepsFronts, EndsBehind, SameRooms};
ghost use Rattle.cloud_disk.specs.Lending.{LendsJournal, LendsShares, LendsRecipes};

use crate::flush::flush_both;
use cloud_areas::laws::law_of_one_more;
use cloud_areas::{Log, LogFull, REGION_LEN};
use commit_journal::{
    Area, CloudNo, Failed, Journal, NoMemory, Shelf, Stage, UserRooms, half_limit,
};
use std::alloc::Global;
use std::marker::Model;

// How many containers each of the two logs keeps.
const KEPT: u32 = 4;

// Where region 1 ends, the last one: no log goes on behind it.
const REGIONS_END: u64 = 2 * REGION_LEN;

/// A cloud's journal in two halves and the logs of its shares and recipes, seen together. On a cloud they stand for a list of
/// commands.
///
/// Each command is added in two steps: first the shares and recipes that its record places are staged, and then `add` writes
/// them and the record.
#[derive(Drop)]
pub struct CloudDisk {
    journal: Journal,
    shares: Log,
    recipes: Log,
}

impl Model for CloudDisk {
    ghost use Rattle.commit_journal.specs.States.{state_of};
    ghost use Rattle.cloud_disk.specs.Disk.{Disk};

    ghost Value = { Disk };

    ghost view = { λ d. record { journal = state_of d.journal; shares = d.shares; recipes = d.recipes } };
}

impl CloudDisk {
    /// A disk that isn't open yet, with nothing staged, for a cloud of these rooms. Each of the two logs keeps up to 4
    /// containers that were read lately, and takes 4,194,304 bytes for each when it is read, where there is memory. All else
    /// is taken here. The only error is want of memory.
    pub fn make(alloc: Global, rooms: &UserRooms) -> Result<CloudDisk, NoMemory>
        requires { AreRooms rooms.now }
        ensures journal { IfOk result (λ disk. (disk.journal.limit ≡ half_limit rooms.now)
            × (disk.journal.stage ≡ Shut)) }
        ensures logs { IfOk result (λ disk. (disk.shares ≡ empty_log Shares) × (disk.recipes ≡ empty_log Recipes)) }
        ensures none { IfOk result (λ disk. HasStaged disk.shares [] × HasStaged disk.recipes []) }
    {
        Ok(CloudDisk {
            journal: Journal::make(alloc, half_limit(rooms))?,
            shares: Log::make(alloc, Area::Shares, REGIONS_END, KEPT)?,
            recipes: Log::make(alloc, Area::Recipes, REGIONS_END, KEPT)?,
        })
    }

    /// Says where the two logs end, as places of their areas, and forgets what is staged and each container that is kept. Where
    /// the journal was read to its end, and the ends lie behind all that its records place, the disk stands for the list then.
    pub fn reset(&mut self, shares_end: u64, recipes_end: u64)
        ensures journal { self.new.journal ≡ self.old.journal }
        ensures shares { self.new.shares ≡ ended_at shares_end self.old.shares }
        ensures recipes { self.new.recipes ≡ ended_at recipes_end self.old.recipes }
        ensures none { HasStaged self.new.shares [] × HasStaged self.new.recipes [] }
        ensures on { (header : Header) (list : List Command) (c : Chain) (cloud : Cloud)
            → AreEnds header list c self.old shares_end recipes_end cloud → IsOn header list c self.new cloud }
    {
        self.shares.reset(shares_end);
        self.recipes.reset(recipes_end);
    }

    /// The journal.
    pub fn journal(&self) -> &Journal
        ensures { state_of result.now ≡ self.now.journal }
    {
        &self.journal
    }

    /// The journal, to be read or to have a checkpoint laid.
    pub fn journal_mut(&mut self) -> &mut Journal
        // the disk has the journal that is left behind the result
        ensures* writes_back { sem 𝓛 (LendsJournal self.entry result) }
        ensures value { state_of result.now ≡ self.old.journal }
    {
        &mut self.journal
    }

    /// The log of the shares.
    pub fn shares_mut(&mut self) -> &mut Log
        // the disk has the log of the shares that is left behind the result
        ensures* writes_back { sem 𝓛 (LendsShares self.entry result) }
        ensures value { result.now ≡ self.old.shares }
    {
        &mut self.shares
    }

    /// The log of the recipes.
    pub fn recipes_mut(&mut self) -> &mut Log
        // the disk has the log of the recipes that is left behind the result
        ensures* writes_back { sem 𝓛 (LendsRecipes self.entry result) }
        ensures value { result.now ≡ self.old.recipes }
    {
        &mut self.recipes
    }

    /// Shuts the journal: no command may be added until it is opened again. The logs stay.
    pub fn shut(&mut self)
        ensures { self.new ≡ record self.old { journal = record self.old.journal { stage = Shut } } }
    {
        self.journal.shut();
    }

    /// Whether the journal was read to its end, so that a command may be added.
    pub fn is_at_end(&self) -> bool
        ensures { IsTrue result ↔ (self.now.journal.stage ≡ AtEnd) }
    {
        self.journal.stage() == Stage::AtEnd
    }

    /// Whether a record with a body of so many bytes has room in the current half: whether the bytes used, up to and with the
    /// gate, and the body's length and 5 are within the journal's limit together. Where it has none, a checkpoint is to come.
    pub fn fits(&self, len: u32) -> bool
        ensures { IsTrue result ↔ (self.now.journal.current.gate + 1 + (len + 5) ≤ self.now.journal.limit) }
    {
        self.journal.fits(len)
    }

    /// Whether a share of `len` bytes has room among the shares that can be staged, with the zeros before it: what is staged
    /// would have 4,194,304 bytes at most.
    pub fn has_room_for_share(&self, len: usize) -> bool
        ensures { IsTrue result ↔ (need_of self.now.shares len ≤ container_len) }
    {
        self.shares.has_room(len)
    }

    /// Whether a recipe of `len` bytes has room among the recipes that can be staged, with the zeros before it: what is staged
    /// would have 4,194,304 bytes at most.
    pub fn has_room_for_recipe(&self, len: usize) -> bool
        ensures { IsTrue result ↔ (need_of self.now.recipes len ≤ container_len) }
    {
        self.recipes.has_room(len)
    }

    /// Stages a share behind those that are staged, and answers the place where it will lie: behind the log's end. LogFull
    /// comes exactly where it would end past the log's limit, the end of region 1, and nothing changes then. It takes no
    /// memory.
    pub fn stage_share(&mut self, share: &[u8]) -> Result<u64, LogFull>
        requires room { need_of self.old.shares (length share.now) ≤ container_len }
        ensures answer { MatchResult result
            (λ place. (self.old.shares.end + need_of self.old.shares (length share.now) ≤ self.old.shares.limit)
            × (place ≡ place_of (staged_end self.old.shares) (length share.now)))
            (λ full. (self.old.shares.limit < self.old.shares.end + need_of self.old.shares (length share.now))
            × (full ≡ record {
              used = self.old.shares.end;
              need = need_of self.old.shares (length share.now);
              limit = self.old.shares.limit;
            })) }
        ensures ok { OnOk result (self.new ≡ record self.old { shares = with_blob self.old.shares share.now }) }
        ensures err { OnErr result (self.new ≡ self.old) }
        ensures staged { (blobs : List (List ℕ)) → HasStaged self.old.shares blobs
            → OnOk result (HasStaged self.new.shares (blobs ++ share.now ∷ [])) }
        ensures places { (blobs : List Placed) → Stages self.old.shares blobs
            → IfOk result (λ place. Stages self.new.shares
            (blobs ++ record { place = place; blob = share.now } ∷ [])) }
        ensures on { (header : Header) (list : List Command) (c : Chain) (cloud : Cloud)
            → IsOn header list c self.old cloud → IsOn header list c self.new cloud }
    {
        self.shares.stage(share)
    }

    /// Stages a recipe behind those that are staged, and answers the place where it will lie: behind the log's end. LogFull
    /// comes exactly where it would end past the log's limit, the end of region 1, and nothing changes then. It takes no
    /// memory.
    pub fn stage_recipe(&mut self, recipe: &[u8]) -> Result<u64, LogFull>
        requires room { need_of self.old.recipes (length recipe.now) ≤ container_len }
        ensures answer { MatchResult result
            (λ place. (self.old.recipes.end + need_of self.old.recipes (length recipe.now) ≤ self.old.recipes.limit)
            × (place ≡ place_of (staged_end self.old.recipes) (length recipe.now)))
            (λ full. (self.old.recipes.limit < self.old.recipes.end + need_of self.old.recipes (length recipe.now))
            × (full ≡ record {
              used = self.old.recipes.end;
              need = need_of self.old.recipes (length recipe.now);
              limit = self.old.recipes.limit;
            })) }
        ensures ok { OnOk result (self.new ≡ record self.old { recipes = with_blob self.old.recipes recipe.now }) }
        ensures err { OnErr result (self.new ≡ self.old) }
        ensures staged { (blobs : List (List ℕ)) → HasStaged self.old.recipes blobs
            → OnOk result (HasStaged self.new.recipes (blobs ++ recipe.now ∷ [])) }
        ensures places { (blobs : List Placed) → Stages self.old.recipes blobs
            → IfOk result (λ place. Stages self.new.recipes
            (blobs ++ record { place = place; blob = recipe.now } ∷ [])) }
        ensures on { (header : Header) (list : List Command) (c : Chain) (cloud : Cloud)
            → IsOn header list c self.old cloud → IsOn header list c self.new cloud }
    {
        self.recipes.stage(recipe)
    }

    /// Forgets what is staged, shares and recipes.
    pub fn unstage(&mut self)
        ensures forgets { self.new ≡ without_staged self.old }
        ensures none { HasStaged self.new.shares [] × HasStaged self.new.recipes [] }
        ensures on { (header : Header) (list : List Command) (c : Chain) (cloud : Cloud)
            → IsOn header list c self.old cloud → IsOn header list c self.new cloud }
    {
        self.shares.unstage();
        self.recipes.unstage();
    }

    /// Adds a command: writes what is staged for it, shares and then recipes, and then the record that `body` is. After Ok the
    /// disk stands for the list with the command. Whenever a crash comes, and after Failed too, the cloud stands for the list
    /// or for the list with the command. Whatever the journal's records say, each image since has the chain that was read, or
    /// that with this record, and keeps what lies below the ends of both logs; and after Ok this record is the chain's last
    /// one and what was staged lies behind both ends, all of it on the disk.
    ///
    /// The device calls are a write and a sync of each area for which something was staged, and a write and a sync of the
    /// record with the next gate, closed, and of its own gate: each raises the cloud's moment by one. Failed comes only where
    /// the cloud's count of faults rose; the journal is shut then. After Ok the logs end behind what was staged, and the
    /// journal behind the record. Nothing is staged afterwards. It takes no memory.
    pub fn add<V: Shelf>(
        &mut self,
        shelf: &mut V,
        cloud: CloudNo,
        body: &[u8],
    ) -> Result<(), Failed>
        requires at_end { self.old.journal.stage ≡ AtEnd }
        requires some { 1 ≤ length body.now }
        requires few { length body.now ≤ 65535 }
        requires fits { self.old.journal.current.gate + 1 + (length body.now + 5) ≤ self.old.journal.limit }

        ensures any_moment { (header : Header) (list : List Command) (c : Chain) (command : Command)
            (b : Body) (laid : List Placed)
            → IsPrepared header list c command b laid self.old body.now (V.cloud_at shelf.old cloud.0)
            → KeepsOrAdds header list command (V.cloud_at shelf.old cloud.0) (V.cloud_at shelf.new cloud.0) }
        ensures added { (header : Header) (list : List Command) (c : Chain) (command : Command)
            (b : Body) (laid : List Placed)
            → IsPrepared header list c command b laid self.old body.now (V.cloud_at shelf.old cloud.0)
            → OnOk result (IsOn header (list ++ command ∷ []) (with_record c b laid) self.new
            (V.cloud_at shelf.new cloud.0)) }
        ensures kept { (header : Header) (list : List Command) (c : Chain) (command : Command)
            (b : Body) (laid : List Placed)
            → IsPrepared header list c command b laid self.old body.now (V.cloud_at shelf.old cloud.0)
            → OnOk result (KeepsFronts self.old (V.cloud_at shelf.old cloud.0) (V.cloud_at shelf.new cloud.0)) }
        ensures moments { IsTrue (V.cloud_at shelf.old cloud.0).told
            → OnOk result (moment (V.cloud_at shelf.new cloud.0) ≡ moment (V.cloud_at shelf.old cloud.0)
            + flush_moments self.old.shares + flush_moments self.old.recipes + 4) }

        // whatever the records say
        ensures chain { KeepsDiskOrGrows self.old body.now (V.cloud_at shelf.old cloud.0)
            (V.cloud_at shelf.new cloud.0) }
        ensures grown { HasDiskGrown self.old self.new body.now (V.cloud_at shelf.old cloud.0)
            (V.cloud_at shelf.new cloud.0) result }
        ensures none { HasStaged self.new.shares [] × HasStaged self.new.recipes [] }
        ensures ends { OnOk result (EndsBehind self.old self.new body.now) }
        ensures stage { self.new.journal.stage ≡ stage_after AtEnd result }
        ensures rooms { SameRooms self.old self.new }
        ensures call { IsCall (V.cloud_at shelf.old) (V.cloud_at shelf.new) cloud.0
            (V.faults shelf.old) (V.faults shelf.new) }
        ensures failed { OnErr result (HasFailed (V.cloud_at shelf.old cloud.0) (V.cloud_at shelf.new cloud.0)
            (V.faults shelf.old) (V.faults shelf.new)) }
        ensures uncounted { OnOk result (KeepsCounts (V.cloud_at shelf.old cloud.0) (V.cloud_at shelf.new cloud.0)
            (V.faults shelf.old) (V.faults shelf.new)) }
    {
        law_of_one_more();
        match flush_both(&mut self.shares, &mut self.recipes, shelf, cloud) {
            Ok(()) => self.journal.append(shelf, cloud, body),
            Err(Failed) => {
                self.journal.shut();
                Err(Failed)
            }
        }
    }

    /// Reads the share at a place from the device alone: puts what Shares has from there on in front of `out`, and answers how
    /// many bytes that are. A share that the chain places there, and that has as many bytes as `out`, is what `out` then has.
    /// What is staged isn't seen, nor what the log keeps. Nothing changes. Failed comes only where the cloud's count of faults
    /// rose. It takes no memory.
    pub fn read_share<V: Shelf>(
        &mut self,
        shelf: &mut V,
        cloud: CloudNo,
        place: u64,
        out: &mut [u8],
    ) -> Result<usize, Failed>
        ensures share { (header : Header) (list : List Command) (c : Chain) (b : Placed)
            → IsOn header list c self.old (V.cloud_at shelf.old cloud.0)
            → Contains (laid_shares list (shares_in c.records)) b → b.place ≡ place → length b.blob ≡ length out.old
            → IfOk result (λ count. (count ≡ length b.blob) × (out.new ≡ b.blob)) }
        ensures bytes { IsTrue (V.cloud_at shelf.old cloud.0).told → IfOk result (λ count.
            ReadsFrom (in_area self.old.shares (V.cloud_at shelf.old cloud.0)) place count out.new) }
        ensures bound { IfOk result (λ count. count ≤ length out.new) }
        ensures on { (header : Header) (list : List Command) (c : Chain)
            → IsOn header list c self.old (V.cloud_at shelf.old cloud.0)
            → IsOn header list c self.new (V.cloud_at shelf.new cloud.0) }
        ensures disk { self.new ≡ self.old }
        ensures stays { Stays (V.cloud_at shelf.old cloud.0) (V.cloud_at shelf.new cloud.0) }
        ensures call { IsCall (V.cloud_at shelf.old) (V.cloud_at shelf.new) cloud.0
            (V.faults shelf.old) (V.faults shelf.new) }
        ensures failed { OnErr result (HasFailed (V.cloud_at shelf.old cloud.0) (V.cloud_at shelf.new cloud.0)
            (V.faults shelf.old) (V.faults shelf.new)) }
        ensures uncounted { OnOk result (KeepsCounts (V.cloud_at shelf.old cloud.0) (V.cloud_at shelf.new cloud.0)
            (V.faults shelf.old) (V.faults shelf.new)) }
    {
        self.shares.read_alone(shelf, cloud, place, out)
    }

    /// Reads the recipe at a place from the device alone: puts what Recipes has from there on in front of `out`, and answers
    /// how many bytes that are. A recipe that the chain places there, and that has as many bytes as `out`, is what `out` then
    /// has. What is staged isn't seen, nor what the log keeps. Nothing changes. Failed comes only where the cloud's count of
    /// faults rose. It takes no memory.
    pub fn read_recipe<V: Shelf>(
        &mut self,
        shelf: &mut V,
        cloud: CloudNo,
        place: u64,
        out: &mut [u8],
    ) -> Result<usize, Failed>
        ensures recipe { (header : Header) (list : List Command) (c : Chain) (b : Placed)
            → IsOn header list c self.old (V.cloud_at shelf.old cloud.0)
            → Contains c.recipes b → b.place ≡ place → length b.blob ≡ length out.old
            → IfOk result (λ count. (count ≡ length b.blob) × (out.new ≡ b.blob)) }
        ensures bytes { IsTrue (V.cloud_at shelf.old cloud.0).told → IfOk result (λ count.
            ReadsFrom (in_area self.old.recipes (V.cloud_at shelf.old cloud.0)) place count out.new) }
        ensures bound { IfOk result (λ count. count ≤ length out.new) }
        ensures on { (header : Header) (list : List Command) (c : Chain)
            → IsOn header list c self.old (V.cloud_at shelf.old cloud.0)
            → IsOn header list c self.new (V.cloud_at shelf.new cloud.0) }
        ensures disk { self.new ≡ self.old }
        ensures stays { Stays (V.cloud_at shelf.old cloud.0) (V.cloud_at shelf.new cloud.0) }
        ensures call { IsCall (V.cloud_at shelf.old) (V.cloud_at shelf.new) cloud.0
            (V.faults shelf.old) (V.faults shelf.new) }
        ensures failed { OnErr result (HasFailed (V.cloud_at shelf.old cloud.0) (V.cloud_at shelf.new cloud.0)
            (V.faults shelf.old) (V.faults shelf.new)) }
        ensures uncounted { OnOk result (KeepsCounts (V.cloud_at shelf.old cloud.0) (V.cloud_at shelf.new cloud.0)
            (V.faults shelf.old) (V.faults shelf.new)) }
    {
        self.recipes.read_alone(shelf, cloud, place, out)
    }
}
