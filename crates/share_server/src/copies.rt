//! What is alive of an open server's cloud is copied to the other region, a step at a time, and then switched to. Between two
//! steps the server is as it was: it alone knows where the copies end.

ghost use Rattle.std.specs.Prelude.{◌≡◌, ◌≤◌, ◌<◌, List, length, IsTrue, OnOk, OnErr};
ghost use Rattle.server_requests.specs.CdBase.Limits.{recipe_limit};
ghost use Rattle.server_requests.specs.CdEdges.Disk.{Cloud, LeavesOnly, reads};
ghost use Rattle.server_requests.specs.CdEdges.Shelf.{IsCall, HasFailed, KeepsCounts};
ghost use Rattle.server_requests.specs.CommitJournal.Leaving.{OtherAreasStay};
ghost use Rattle.server_requests.specs.UserDedup.command.Command.{Command};
ghost use Rattle.server_requests.specs.UserDedup.Compact.{compact};
ghost use Rattle.blob_copy.specs.CloudAreas.Standing.{Chain, StandsFor};
ghost use Rattle.blob_copy.specs.CloudOpening.CloudMemory.Rooms.{memory_of};
ghost use Rattle.server_requests.specs.CloudStore.Store.{IsOpen, IsSettled, Serves, ServesSome};
ghost use Rattle.server_requests.specs.ServerCommands.Executing.{IsStoreReady};
ghost use Rattle.blob_copy.specs.Answers.{SomeRotten};
ghost use Rattle.blob_copy.specs.CompactMemories.Kept.{live_sum, commands_in};
ghost use Rattle.blob_copy.specs.CompactMemories.Moved.{IsMoved, other_region};
ghost use Rattle.blob_copy.specs.Copies.{HasCopied, KeepsBeside};
ghost use Rattle.blob_copy.specs.Copying.{IsCopyLaid, IsCopying, AreAllCopied, StandsForKept};
ghost use Rattle.share_server.specs.Copies.{reclaim_error, OnReclaimFault, IfRottenThere, IsDoneOrFault, MatchCopied};
ghost use Rattle.share_server.specs.Copies.{no_copies, at_copies, AreCopiesLaid, KeepsCopies, copied_so_far};
ghost use Rattle.share_server.specs.Copies.{KeepsAllBut};
ghost use Rattle.share_server.specs.Copies.{HasGoneOn, SwitchesOver, KeepsOrSwitches, HasSwitched};
ghost use Rattle.share_server.specs.Serving.{IsServing, number_of, settled_with};

use crate::Server;
use blob_copy::{CopyErr, Copying, Reclaimed, forget, start, step, sum, switch};
use server_requests::{CloudStore, Fp, Log, Shelf};

/// Why what is alive isn't copied, or the copies aren't switched to.
#[derive(Clone, Copy)]
pub enum ReclaimErr {
    /// A device failed. The server is closed.
    Fault,
    /// A blob that is alive is shorter than it was, or its bytes hash to `found` and not to its name.
    Rotten { named: Fp, found: Fp },
    /// What is alive has no room in the other region, or passes the rooms. It never comes where the server serves a list.
    NoMemory,
}

/// How far a server's copies are, and where they end in both areas.
#[derive(Clone, Copy)]
pub struct Copies {
    pub(crate) copying: Copying,
    pub(crate) shares_end: u64,
    pub(crate) recipes_end: u64,
}

impl Copies {
    // No copies.
    pub(crate) fn none() -> Copies
        ensures { result ≡ no_copies }
    {
        Copies {
            copying: Copying {
                place_slot: 0,
                file_slot: 0,
            },
            shares_end: 0,
            recipes_end: 0,
        }
    }
}

// Why a copy doesn't go on, as the server says it.
fn reclaim_err(error: CopyErr) -> ReclaimErr
    ensures { result ≡ reclaim_error error }
{
    match error {
        CopyErr::Fault => ReclaimErr::Fault,
        CopyErr::Rotten { named, found } => ReclaimErr::Rotten { named, found },
        CopyErr::Long => ReclaimErr::NoMemory,
    }
}

// Where a log ends.
fn end_of(log: &mut Log) -> u64
    ensures value { result ≡ log.old.end }
    ensures same { log.new ≡ log.old }
{
    log.end()
}

// Where both logs end becomes where the copies do.
fn keep_ends(store: &mut CloudStore, copies: &mut Copies)
    ensures store { store.new ≡ store.old }
    ensures copies { copies.new ≡ record copies.old {
      shares_end = store.old.disk.shares.end;
      recipes_end = store.old.disk.recipes.end;
    } }
{
    copies.shares_end = end_of(store.disk.shares_mut());
    copies.recipes_end = end_of(store.disk.recipes_mut());
}

// Both logs end where the copies do.
fn resume(store: &mut CloudStore, copies: &Copies)
    requires settled { IsSettled store.old }
    ensures at { store.new ≡ at_copies store.old copies.now }
    ensures settled { IsSettled store.new }
{
    store.disk.reset(copies.shares_end, copies.recipes_end);
}

// The server knows where the copies end, and both logs end where the memory says.
fn pause(store: &mut CloudStore, copies: &mut Copies)
    requires settled { IsSettled store.old }
    requires open { IsOpen store.old }
    ensures copying { copies.new.copying ≡ copies.old.copying }
    ensures copied { (list : List Command) (c : Chain) (cloud : Cloud)
        → IsCopying list c store.old copies.old.copying cloud → KeepsCopies list c store.new copies.new cloud }
    ensures laid { IsCopyLaid store.old copies.old.copying → AreCopiesLaid store.new copies.new }
    ensures same { KeepsAllBut store.old store.new }
    ensures ready { IsStoreReady store.new }
{
    keep_ends(store, copies);
    forget(store);
}

// Copies begin.
fn begin_copies(store: &mut CloudStore, copies: &mut Copies)
    requires settled { IsSettled store.old }
    requires open { IsOpen store.old }
    ensures copied { (list : List Command) (c : Chain) (cloud : Cloud) → Serves list c store.old cloud
        → KeepsCopies list c store.new copies.new cloud }
    ensures none { (copies.new.copying.place_slot ≡ 0) × (copies.new.copying.file_slot ≡ 0) }
    ensures laid { AreCopiesLaid store.new copies.new }
    ensures same { KeepsAllBut store.old store.new }
    ensures ready { IsStoreReady store.new }
{
    copies.copying = start(store);
    pause(store, copies);
}

// A step of a store whose logs are where the copies end.
fn go_on<V: Shelf>(
    store: &mut CloudStore,
    shelf: &mut V,
    copies: &mut Copies,
    buffer: &mut [u8],
) -> Result<bool, ReclaimErr>
    requires settled { IsSettled store.old }
    requires open { IsOpen store.old }
    requires laid { IsCopyLaid store.old copies.old.copying }
    requires buffer { recipe_limit ≤ length buffer.old }
    ensures goes { HasGoneOn (shelf.new ≡ shelf.old) store.old copies.old.copying store.new copies.new
        (V.cloud_at shelf.old) (V.cloud_at shelf.new) (V.faults shelf.old) (V.faults shelf.new) result }
    ensures buffer { length buffer.new ≡ length buffer.old }
{
    match step(store, shelf, &mut copies.copying, buffer) {
        Ok(more) => {
            pause(store, copies);
            Ok(more)
        }
        Err(CopyErr::Fault) => Err(ReclaimErr::Fault),
        Err(CopyErr::Rotten { named, found }) => {
            pause(store, copies);
            Err(ReclaimErr::Rotten { named, found })
        }
        Err(CopyErr::Long) => {
            pause(store, copies);
            Err(ReclaimErr::NoMemory)
        }
    }
}

// The switch of a store whose logs are where the copies end.
fn switch_over<V: Shelf>(
    store: &mut CloudStore,
    shelf: &mut V,
    copies: &Copies,
) -> Result<(), ReclaimErr>
    requires settled { IsSettled store.old }
    requires open { IsOpen store.old }
    requires laid { IsCopyLaid store.old copies.now.copying }
    requires all { AreAllCopied store.old copies.now.copying }
    ensures { SwitchesOver store.old copies.now.copying store.new
        (V.cloud_at shelf.old) (V.cloud_at shelf.new) (V.faults shelf.old) (V.faults shelf.new) result }
{
    match switch(store, shelf, &copies.copying) {
        Ok(()) => Ok(()),
        Err(error) => Err(reclaim_err(error)),
    }
}

impl Server {
    /// Begins a copy of what is alive: nothing is copied. No request may be executed until the copies are switched to or
    /// forgotten: what it adds isn't among the copies.
    pub fn copy_start(&mut self)
        requires open { IsOpen self.old.store }
        ensures copied { (list : List Command) (c : Chain) (cloud : Cloud) → Serves list c self.old.store cloud
            → KeepsCopies list c self.new.store self.new.copies cloud }
        ensures none { (self.new.copies.copying.place_slot ≡ 0) × (self.new.copies.copying.file_slot ≡ 0) }
        ensures laid { AreCopiesLaid self.new.store self.new.copies }
        ensures same { KeepsAllBut self.old.store self.new.store }
        ensures open { IsOpen self.new.store }
    {
        begin_copies(&mut self.store, &mut self.copies)
    }

    /// The bytes that are alive, each blob once, and how many shares no user owns.
    pub fn copy_sum(&self) -> Reclaimed
        ensures { result ≡ live_sum self.now.store.memory }
    {
        sum(&self.store)
    }

    /// Copies more of what is alive, up to a container of shares while any is left, and then of recipes: each blob is read and
    /// hashed, and behind them all is one write and one sync. It answers whether any was left; where none was, no device was
    /// called. On a told cloud each blob that it went over was read right after Ok, and lies at its new place. It takes no
    /// memory.
    ///
    /// Rotten comes at a blob that is alive and is short or hashes to another value than its name; what this step copied before
    /// it is forgotten. Whenever a crash comes the cloud stands for the list as before. Fault comes only where the cloud's
    /// count of faults rose, and closes the server.
    pub fn copy_step<V: Shelf>(&mut self, shelf: &mut V) -> Result<bool, ReclaimErr>
        requires open { IsOpen self.old.store }
        requires laid { AreCopiesLaid self.old.store self.old.copies }
        ensures any_moment { (list : List Command) (c : Chain)
            → KeepsCopies list c self.old.store self.old.copies (V.cloud_at shelf.old (number_of self.old))
            → LeavesOnly (V.cloud_at shelf.old (number_of self.old)) (V.cloud_at shelf.new (number_of self.old))
            (λ image. StandsFor image self.old.store.header list) }
        ensures copied { (list : List Command) (c : Chain)
            → KeepsCopies list c self.old.store self.old.copies (V.cloud_at shelf.old (number_of self.old))
            → OnReclaimFault result (Unit {0})
            (KeepsCopies list c self.new.store self.new.copies (V.cloud_at shelf.new (number_of self.old))) }
        ensures answers { (list : List Command) (c : Chain)
            → KeepsCopies list c self.old.store self.old.copies (V.cloud_at shelf.old (number_of self.old))
            → IsDoneOrFault result }
        ensures step { MatchCopied result
            (copied_so_far self.old.store self.old.copies.copying
            < copied_so_far self.old.store self.new.copies.copying)
            (AreAllCopied self.old.store self.new.copies.copying × (shelf.new ≡ shelf.old))
            (self.new.copies.copying ≡ self.old.copies.copying) }
        ensures laid { OnReclaimFault result (Unit {0}) (AreCopiesLaid self.new.store self.new.copies) }
        ensures right { IsTrue (V.cloud_at shelf.old (number_of self.old)).told → OnOk result
            (HasCopied (at_copies self.old.store self.old.copies) self.old.copies.copying self.new.copies.copying
            (reads (V.cloud_at shelf.old (number_of self.old)).now)
            (reads (V.cloud_at shelf.new (number_of self.old)).now)) }
        ensures rotten { IsTrue (V.cloud_at shelf.old (number_of self.old)).told → IfRottenThere result
            (SomeRotten self.old.store.memory (reads (V.cloud_at shelf.new (number_of self.old)).now)) }
        ensures beside { IsTrue (V.cloud_at shelf.old (number_of self.old)).told → OnReclaimFault result (Unit {0})
            (KeepsBeside (at_copies self.old.store self.old.copies) (V.cloud_at shelf.old (number_of self.old))
            (V.cloud_at shelf.new (number_of self.old))) }
        ensures same { KeepsAllBut self.old.store self.new.store }
        ensures stage { OnReclaimFault result (¬ (IsOpen self.new.store)) (IsOpen self.new.store) }
        ensures call { IsCall (V.cloud_at shelf.old) (V.cloud_at shelf.new) (number_of self.old) (V.faults shelf.old)
            (V.faults shelf.new) }
        ensures counts { OnReclaimFault result
            (HasFailed (V.cloud_at shelf.old (number_of self.old)) (V.cloud_at shelf.new (number_of self.old))
            (V.faults shelf.old) (V.faults shelf.new))
            (KeepsCounts (V.cloud_at shelf.old (number_of self.old)) (V.cloud_at shelf.new (number_of self.old))
            (V.faults shelf.old) (V.faults shelf.new)) }
    {
        resume(&mut self.store, &self.copies);
        go_on(&mut self.store, shelf, &mut self.copies, &mut self.buffer)
    }

    /// Makes the copies the server's blobs and forgets the rest: a checkpoint of what is kept, in the other region, takes the
    /// chain's place. Whenever a crash comes the cloud stands for the list or for its compact list, and whatever the records
    /// say it has the chain that was read or that checkpoint; after Ok that checkpoint is there, and the server serves the
    /// compact list. Rotten never comes. After an error the server is closed. No area but the journal is written. It takes
    /// no memory.
    pub fn copy_switch<V: Shelf>(&mut self, shelf: &mut V) -> Result<(), ReclaimErr>
        requires open { IsOpen self.old.store }
        requires laid { AreCopiesLaid self.old.store self.old.copies }
        requires all { AreAllCopied self.old.store self.old.copies.copying }
        ensures any_moment { (list : List Command) (c : Chain)
            → KeepsCopies list c self.old.store self.old.copies (V.cloud_at shelf.old (number_of self.old))
            → LeavesOnly (V.cloud_at shelf.old (number_of self.old)) (V.cloud_at shelf.new (number_of self.old))
            (StandsForKept self.old.store.header list) }
        ensures switched { (list : List Command) (c : Chain)
            → KeepsCopies list c self.old.store self.old.copies (V.cloud_at shelf.old (number_of self.old))
            → OnOk result (ServesSome (compact self.old.store.header.shape list) self.new.store
            (V.cloud_at shelf.new (number_of self.old))) }
        ensures peer { (list : List Command) (c : Chain)
            → KeepsCopies list c self.old.store self.old.copies (V.cloud_at shelf.old (number_of self.old))
            → OnOk result (IsServing self.new (V.cloud_at shelf.new (number_of self.old))
            (settled_with (compact self.old.store.header.shape list) (V.cloud_at shelf.new (number_of self.old)))) }
        ensures answers { (list : List Command) (c : Chain)
            → KeepsCopies list c self.old.store self.old.copies (V.cloud_at shelf.old (number_of self.old))
            → IsDoneOrFault result }
        ensures moved { OnOk result (IsMoved (other_region self.old.store.region) self.old.store.memory
            (memory_of self.new.store.memory)) }
        ensures number { OnOk result (self.new.store.commands ≡ commands_in (memory_of self.old.store.memory)) }
        ensures region { OnOk result (self.new.store.region ≡ other_region self.old.store.region) }
        ensures never_rotten { IfRottenThere result (λ named found. ⊥) }
        ensures chain { KeepsOrSwitches self.old.store self.new.store (V.cloud_at shelf.old (number_of self.old))
            (V.cloud_at shelf.new (number_of self.old)) }
        ensures taken { HasSwitched self.old.store self.new.store (V.cloud_at shelf.old (number_of self.old))
            (V.cloud_at shelf.new (number_of self.old)) result }
        ensures others { OtherAreasStay (V.cloud_at shelf.old (number_of self.old))
            (V.cloud_at shelf.new (number_of self.old)) result }
        ensures none { self.new.copies ≡ no_copies }
        ensures header { self.new.store.header ≡ self.old.store.header }
        ensures open { OnOk result (IsOpen self.new.store) }
        ensures shut { OnErr result (¬ (IsOpen self.new.store)) }
        ensures call { IsCall (V.cloud_at shelf.old) (V.cloud_at shelf.new) (number_of self.old) (V.faults shelf.old)
            (V.faults shelf.new) }
        ensures counts { OnReclaimFault result
            (HasFailed (V.cloud_at shelf.old (number_of self.old)) (V.cloud_at shelf.new (number_of self.old))
            (V.faults shelf.old) (V.faults shelf.new))
            (KeepsCounts (V.cloud_at shelf.old (number_of self.old)) (V.cloud_at shelf.new (number_of self.old))
            (V.faults shelf.old) (V.faults shelf.new)) }
    {
        resume(&mut self.store, &self.copies);
        let result = switch_over(&mut self.store, shelf, &self.copies);
        self.copies = Copies::none();
        result
    }

    /// Forgets the copies. The server and its cloud stay as they are: what lies in the other region has no name.
    pub fn copy_drop(&mut self)
        ensures store { self.new.store ≡ self.old.store }
        ensures none { self.new.copies ≡ no_copies }
    {
        self.copies = Copies::none();
    }
}
