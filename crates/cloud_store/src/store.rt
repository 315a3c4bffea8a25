//! An open store.

ghost use Rattle.std.specs.Prelude.{◌≡◌, ◌↔◌, ◌+◌, ◌<◌, ◌≤◌, List, [], ◌∷◌, ◌++◌, length, IsOk, IfOk, OnOk, OnErr, IsTrue, MatchResult};
ghost use Rattle.checkpoints.specs.CdEdges.Disk.{Cloud};
ghost use Rattle.checkpoints.specs.ContainerLog.Laying.{Placed};
ghost use Rattle.checkpoints.specs.ContainerLog.Places.{container_len, place_of};
ghost use Rattle.checkpoints.specs.ContainerLog.States.{staged_end, need_of, with_blob};
ghost use Rattle.checkpoints.specs.JournalStart.Ranges.{IsHeader};
ghost use Rattle.checkpoints.specs.CommitJournal.journal.Stage.TheVariants.{Shut};
ghost use Rattle.checkpoints.specs.UserDedup.command.Command.{Command};
ghost use Rattle.checkpoints.specs.CloudAreas.Standing.{Chain};
ghost use Rattle.checkpoints.specs.CloudDisk.Disk.{Stages};
ghost use Rattle.cloud_store.specs.Store.{IsOpen, IsSettled, EndsMeet, Serves, closed};
ghost use Rattle.cloud_store.specs.Adding.{NoneStaged, unstaged};

use checkpoints::{BodyBuf, CloudDisk, CloudMemory, Full, Header, LogFull, Marks, OwnerChains};
use recipe::NoMemory;
use std::alloc::Global;

/// Why a command isn't added.
#[derive(Clone, Copy)]
pub enum Unadded {
    /// This room of the user's is too small. Nothing changed, but that nothing is staged.
    Full(Full),
    /// The journal has no room for the record, even behind a checkpoint, or an area's end lies too far. It never comes
    /// where the store serves a list.
    Long,
    /// A device failed. The journal is shut.
    Failed,
}

/// One cloud's store, whose parts its commands work on.
#[derive(Drop)]
pub struct CloudStore {
    /// The store and the cloud, as the start of the journal names them.
    pub header: Header,
    /// What is remembered of the list of commands.
    pub memory: CloudMemory,
    /// The journal and the two logs.
    pub disk: CloudDisk,
    /// How many commands the list has, as far as 64 bits reach.
    pub commands: u64,
    /// The region that the blobs lie in.
    pub region: u8,
    /// By which a checkpoint goes through what each user owns.
    pub chains: OwnerChains,
    /// Which shares a checkpoint has listed.
    pub marks: Marks,
    /// The body of the record that is being made.
    pub body: BodyBuf,
}

impl CloudStore {
    /// A store that isn't open, of the cloud that the header names. It takes all its memory here, but for the containers that
    /// its logs keep; the only error is want of memory.
    pub fn make(alloc: Global, header: Header) -> Result<CloudStore, NoMemory>
        requires header { IsHeader header }
        requires format { header.format ≡ 2 }
        ensures settled { IfOk result IsSettled }
        ensures header { IfOk result (λ store. store.header ≡ header) }
        ensures shut { IfOk result (λ store. store.disk.journal.stage ≡ Shut) }
    {
        let body = BodyBuf::make(alloc)?;
        let marks = Marks::make(alloc)?;
        let chains = OwnerChains::make(alloc)?;
        let disk = CloudDisk::make(alloc, &header.rooms)?;
        let memory = CloudMemory::make(alloc, &header.rooms)?;
        Ok(CloudStore {
            header,
            memory,
            disk,
            commands: 0,
            region: 0,
            chains,
            marks,
            body,
        })
    }

    /// Whether commands may be added: the journal was read to its end.
    pub fn is_open(&self) -> bool
        ensures { IsTrue result ↔ IsOpen self.now }
    {
        self.disk.is_at_end()
    }

    /// Stages a share behind those that are staged, and answers the place where it will lie: behind the log's end. LogFull
    /// comes exactly where it would end past the log's limit, the end of region 1, and nothing changes then; it never comes
    /// in an open store whose logs end where its memory says. What the store serves stays. It takes no memory.
    pub fn stage_share(&mut self, share: &[u8]) -> Result<u64, LogFull>
        requires settled { IsSettled self.old }
        requires room { need_of self.old.disk.shares (length share.now) ≤ container_len }
        ensures answer { MatchResult result
            (λ place. (self.old.disk.shares.end + need_of self.old.disk.shares (length share.now)
            ≤ self.old.disk.shares.limit)
            × (place ≡ place_of (staged_end self.old.disk.shares) (length share.now)))
            (λ full. (self.old.disk.shares.limit
            < self.old.disk.shares.end + need_of self.old.disk.shares (length share.now))
            × (full ≡ record {
              used = self.old.disk.shares.end;
              need = need_of self.old.disk.shares (length share.now);
              limit = self.old.disk.shares.limit;
            })) }
        ensures places { (blobs : List Placed) → Stages self.old.disk.shares blobs
            → IfOk result (λ place. Stages self.new.disk.shares
            (blobs ++ record { place = place; blob = share.now } ∷ [])) }
        ensures ok { OnOk result (self.new
            ≡ record self.old { disk = record self.old.disk { shares = with_blob self.old.disk.shares share.now } }) }
        ensures err { OnErr result (self.new ≡ self.old) }
        ensures serves { (list : List Command) (c : Chain) (cloud : Cloud) → Serves list c self.old cloud
            → Serves list c self.new cloud }
        ensures never_full { IsOpen self.old → EndsMeet self.old → IsOk result }
        ensures meet { EndsMeet self.old → EndsMeet self.new }
        ensures settled { IsSettled self.new }
    {
        self.disk.stage_share(share)
    }

    /// Stages a recipe behind those that are staged, and answers the place where it will lie: behind the log's end. LogFull
    /// comes exactly where it would end past the log's limit, the end of region 1, and nothing changes then; it never comes
    /// in an open store whose logs end where its memory says. What the store serves stays. It takes no memory.
    pub fn stage_recipe(&mut self, recipe: &[u8]) -> Result<u64, LogFull>
        requires settled { IsSettled self.old }
        requires room { need_of self.old.disk.recipes (length recipe.now) ≤ container_len }
        ensures answer { MatchResult result
            (λ place. (self.old.disk.recipes.end + need_of self.old.disk.recipes (length recipe.now)
            ≤ self.old.disk.recipes.limit)
            × (place ≡ place_of (staged_end self.old.disk.recipes) (length recipe.now)))
            (λ full. (self.old.disk.recipes.limit
            < self.old.disk.recipes.end + need_of self.old.disk.recipes (length recipe.now))
            × (full ≡ record {
              used = self.old.disk.recipes.end;
              need = need_of self.old.disk.recipes (length recipe.now);
              limit = self.old.disk.recipes.limit;
            })) }
        ensures places { (blobs : List Placed) → Stages self.old.disk.recipes blobs
            → IfOk result (λ place. Stages self.new.disk.recipes
            (blobs ++ record { place = place; blob = recipe.now } ∷ [])) }
        ensures ok { OnOk result (self.new
            ≡ record self.old
            { disk = record self.old.disk { recipes = with_blob self.old.disk.recipes recipe.now } }) }
        ensures err { OnErr result (self.new ≡ self.old) }
        ensures serves { (list : List Command) (c : Chain) (cloud : Cloud) → Serves list c self.old cloud
            → Serves list c self.new cloud }
        ensures never_full { IsOpen self.old → EndsMeet self.old → IsOk result }
        ensures meet { EndsMeet self.old → EndsMeet self.new }
        ensures settled { IsSettled self.new }
    {
        self.disk.stage_recipe(recipe)
    }

    /// Forgets what is staged, shares and recipes. What the store serves stays.
    pub fn unstage(&mut self)
        requires settled { IsSettled self.old }
        ensures same { self.new ≡ unstaged self.old }
        ensures none { NoneStaged self.new }
        ensures serves { (list : List Command) (c : Chain) (cloud : Cloud) → Serves list c self.old cloud
            → Serves list c self.new cloud }
        ensures meet { EndsMeet self.old → EndsMeet self.new }
        ensures settled { IsSettled self.new }
    {
        self.disk.unstage();
    }

    /// Closes the store: its journal is shut, and only `open` may be called from then on. Nothing else changes.
    pub fn shut(&mut self)
        requires settled { IsSettled self.old }
        ensures same { self.new ≡ closed self.old }
        ensures settled { IsSettled self.new }
        ensures shut { ¬ IsOpen self.new }
    {
        self.disk.shut();
    }
}
