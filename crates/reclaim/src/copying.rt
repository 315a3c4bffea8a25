//! Copies, step by step, and the switch to them.

ghost use Rattle.std.specs.Prelude.{◌≡◌, List, IsTrue, IfOk, OnOk, OnErr};
ghost use Rattle.share_server.specs.CdEdges.Disk.{LeavesOnly, reads};
ghost use Rattle.share_server.specs.CdEdges.Shelf.{IsCall, HasFailed, KeepsCounts};
ghost use Rattle.compact_memories.specs.UserDedup.command.Command.{Command};
ghost use Rattle.compact_memories.specs.UserDedup.Compact.{compact};
ghost use Rattle.compact_memories.specs.Checkpoints.Known.{AreListed};
ghost use Rattle.blob_audit.specs.AuditBase.Whole.{tables_of};
ghost use Rattle.blob_audit.specs.Reading.{AreStored, IsUnlike};
ghost use Rattle.share_server.specs.BlobCopy.CompactMemories.Kept.{live_sum, commands_in};
ghost use Rattle.share_server.specs.BlobCopy.CompactMemories.Moved.{IsMoved, other_region};
ghost use Rattle.share_server.specs.BlobCopy.Copying.{StandsForKept, copies_start};
ghost use Rattle.share_server.specs.CloudMemory.Rooms.{memory_of};
ghost use Rattle.share_server.specs.Copies.{OnReclaimFault, IfRottenThere, IsDoneOrFault, KeepsAllBut};
ghost use Rattle.share_server.specs.Copies.{no_copies, AreCopiesLaid};
ghost use Rattle.share_server.specs.CloudStore.Store.{IsOpen, ServesSome};
ghost use Rattle.share_server.specs.Serving.{IsServing, number_of, settled_with};
ghost use Rattle.reclaim.specs.Inner.{CopiesAll, Reclaims};
ghost use Rattle.reclaim.specs.Reclaims.{KeepsLive, KeepsOtherRegion};
ghost use Rattle.reclaim.specs.Sums.{IsSumOf};

use share_server::{ReclaimErr, Reclaimed, Server, Shelf};

// Copies all that is alive, step by step.
fn copy_all<V: Shelf>(server: &mut Server, shelf: &mut V) -> Result<(), ReclaimErr>
    requires open { IsOpen server.old.store }
    requires laid { AreCopiesLaid server.old.store server.old.copies }
    ensures { CopiesAll server.old.store server.new.store server.old.copies server.new.copies
        (V.cloud_at shelf.old) (V.cloud_at shelf.new) (V.faults shelf.old) (V.faults shelf.new) result }
{
    'steps: loop {
        match server.copy_step(shelf) {
            Ok(true) => {}
            Ok(false) => return Ok(()),
            Err(error) => return Err(error),
        }
    }
}

// The slots of a server's memory list what it has.
fn slots_list(server: &Server)
    ensures { AreListed server.now.store.memory }
{
    let memory = &server.store().memory;
    let _ = memory.shares().place_at(0);
    let _ = memory.shares().owner_at(0);
    let _ = memory.files().entry_at(0);
}

// Copies all that is alive and switches to the copies, or forgets them.
fn copy_and_switch<V: Shelf>(server: &mut Server, shelf: &mut V) -> Result<Reclaimed, ReclaimErr>
    requires open { IsOpen server.old.store }
    ensures { Reclaims server.old.store server.new.store server.new.copies
        (V.cloud_at shelf.old) (V.cloud_at shelf.new) (V.faults shelf.old) (V.faults shelf.new) result }
{
    slots_list(server);
    let sum = server.copy_sum();
    server.copy_start();
    match copy_all(server, shelf) {
        Ok(()) => {}
        Err(error) => {
            server.copy_drop();
            return Err(error);
        }
    }
    match server.copy_switch(shelf) {
        Ok(()) => Ok(sum),
        Err(error) => Err(error),
    }
}

/// Gives back the space of what is dead. What is alive, the shares that some user owns and the recipes of entries, is copied to
/// the other region of both areas, each byte hashed on its way, and a checkpoint with that region takes the chain's place. It
/// answers how many bytes of shares and of recipes are alive, each blob once, and how many shares no user owned. It takes no
/// memory.
///
/// For each list that the server serves: whenever a crash comes the cloud stands for the list or for its compact list, in which
/// each user has what it had. After Ok the server serves the compact list, so that what a user has spent is what it keeps, and
/// nothing dead has a place. Ok or Fault comes.
///
/// After Ok on a told cloud, whatever it stands for, each blob that is alive lies where the server's memory says, as long as it
/// says, and hashes to its name. Where the server serves a list, the numbers are that list's.
///
/// Fault comes only where the cloud's count of faults rose, and closes the server. On a told cloud Rotten names a blob that is
/// alive, by the memory, and is short or hashes to another value; the server's memory is as before then, and so it is after
/// NoMemory where the server is open. NoMemory says that what is kept passes the rooms, or that its copies don't fit the other
/// region.
pub fn reclaim<V: Shelf>(server: &mut Server, shelf: &mut V) -> Result<Reclaimed, ReclaimErr>
    requires open { IsOpen server.old.store }

    // for each list that the server serves
    ensures any_moment { (list : List Command)
        → ServesSome list server.old.store (V.cloud_at shelf.old (number_of server.old))
        → LeavesOnly (V.cloud_at shelf.old (number_of server.old)) (V.cloud_at shelf.new (number_of server.old))
        (StandsForKept server.old.store.header list) }
    ensures reclaimed { (list : List Command)
        → ServesSome list server.old.store (V.cloud_at shelf.old (number_of server.old))
        → OnOk result (IsServing server.new (V.cloud_at shelf.new (number_of server.old))
        (settled_with (compact server.old.store.header.shape list) (V.cloud_at shelf.new (number_of server.old)))) }
    ensures kept { (list : List Command)
        → ServesSome list server.old.store (V.cloud_at shelf.old (number_of server.old))
        → OnOk result (KeepsLive server.old.store.header.shape list (memory_of server.new.store.memory)) }
    ensures answers { (list : List Command)
        → ServesSome list server.old.store (V.cloud_at shelf.old (number_of server.old)) → IsDoneOrFault result }
    ensures sums { (list : List Command)
        → ServesSome list server.old.store (V.cloud_at shelf.old (number_of server.old))
        → IfOk result (IsSumOf server.old.store.header.shape list) }

    // whatever is known of the cloud
    ensures sum { IfOk result (λ sum. sum ≡ live_sum server.old.store.memory) }
    ensures moved { OnOk result (IsMoved (other_region server.old.store.region) server.old.store.memory
        (memory_of server.new.store.memory)) }
    ensures whole { IsTrue (V.cloud_at shelf.old (number_of server.old)).told → OnOk result
        (AreStored (reads (V.cloud_at shelf.new (number_of server.old)).now) (tables_of server.new.store.memory)) }
    ensures number { OnOk result (server.new.store.commands ≡ commands_in (memory_of server.old.store.memory)) }
    ensures region { OnOk result (server.new.store.region ≡ other_region server.old.store.region) }
    ensures rotten { IsTrue (V.cloud_at shelf.old (number_of server.old)).told → IfRottenThere result
        (IsUnlike (reads (V.cloud_at shelf.new (number_of server.old)).now) (tables_of server.old.store.memory)) }
    ensures spared { IsTrue (V.cloud_at shelf.old (number_of server.old)).told → IfRottenThere result
        (λ named found. KeepsOtherRegion (copies_start server.old.store) (V.cloud_at shelf.old (number_of server.old))
        (V.cloud_at shelf.new (number_of server.old))) }
    ensures given_up { OnErr result (IsOpen server.new.store → KeepsAllBut server.old.store server.new.store) }
    ensures open { OnOk result (IsOpen server.new.store) }
    ensures still_open { IfRottenThere result (λ named found. IsOpen server.new.store) }
    ensures closed { OnReclaimFault result (¬ (IsOpen server.new.store)) (Unit {0}) }
    ensures none { server.new.copies ≡ no_copies }
    ensures same { server.new.store.header ≡ server.old.store.header }
    ensures call { IsCall (V.cloud_at shelf.old) (V.cloud_at shelf.new) (number_of server.old) (V.faults shelf.old)
        (V.faults shelf.new) }
    ensures counts { OnReclaimFault result
        (HasFailed (V.cloud_at shelf.old (number_of server.old)) (V.cloud_at shelf.new (number_of server.old))
        (V.faults shelf.old) (V.faults shelf.new))
        (KeepsCounts (V.cloud_at shelf.old (number_of server.old)) (V.cloud_at shelf.new (number_of server.old))
        (V.faults shelf.old) (V.faults shelf.new)) }
{
    copy_and_switch(server, shelf)
}
