//! The laws of checkpoints that stand by themselves, for the proofs of callers. The calls do nothing.

ghost use Rattle.std.specs.Prelude.{ℕ, List, ◌≡◌, ◌≢◌, IsTrue};
ghost use Rattle.cloud_disk.specs.CdEdges.Disk.{Image, Cloud, LeavesOnly};
ghost use Rattle.cloud_disk.specs.JournalStart.start.Header.{Header};
ghost use Rattle.cloud_disk.specs.UserDedup.command.Command.{Command};
ghost use Rattle.cloud_disk.specs.CloudAreas.Standing.{Chain, Holds, where_of};
ghost use Rattle.compact_memories.specs.CloudMemory.cloud.CloudMemory.{CloudMemory};
ghost use Rattle.compact_memories.specs.CloudMemory.Memory.{IsPlacedBy};
ghost use Rattle.compact_memories.specs.CloudMemory.Rooms.{memory_of};
ghost use Rattle.compact_memories.specs.Checkpoints.Known.{checkpoint_in};
ghost use Rattle.compact_memories.specs.Checkpoints.Records.{records_of};
ghost use Rattle.fresh_checkpoints.specs.Fresh.{StandsAlone};
ghost use Rattle.cloud_disk.specs.CdEdges.area.Area.{Area};
ghost use Rattle.cloud_disk.specs.CdEdges.area.Area.TheVariants.{Journal};
ghost use Rattle.cloud_disk.specs.JournalHalves.Halves.{half_limit};
ghost use Rattle.cloud_disk.specs.Disk.{IsRead};
ghost use Rattle.fresh_checkpoints.specs.Switching.{MaySwitch, MayMigrate, StandsForOneOf, IsMigrating, HasEitherChain};
ghost use Rattle.cloud_disk.specs.CommitJournal.States as journals;

/// The checkpoint of a memory of a list holds the list, in whatever half and behind whatever chain, and the memory is
/// placed by its records.
pub fn law_of_fresh_checkpoints()
    ensures holds { (header : Header) (image : Image) (list : List Command) (c : Chain) (commands region : ℕ)
        (memory : CloudMemory) → StandsAlone header image list commands region memory
        → Holds header image list (checkpoint_in header list c commands region memory) }
    ensures placed { (header : Header) (image : Image) (list : List Command) (commands region : ℕ)
        (memory : CloudMemory) → StandsAlone header image list commands region memory
        → IsPlacedBy (records_of memory) (memory_of memory) }
{}

/// While another chain takes the place of the one by which a cloud stands for a list, each image stands for that list,
/// or for the other chain's. Once it has the place, the journal is read to its end for the other list.
pub fn law_of_switches()
    ensures any_moment { (one two : Header) (list other : List Command) (c next : Chain)
        (journal : journals.JournalState)
        (old new : Cloud) → MaySwitch one two list other c next journal old → HasEitherChain c next old new
        → LeavesOnly old new (StandsForOneOf one list two other) }
    ensures settled { (one two : Header) (list other : List Command) (c next : Chain)
        (journal after : journals.JournalState)
        (old new : Cloud) → MaySwitch one two list other c next journal old → IsTrue new.told
        → journals.IsJournalEnded after (new.now Journal) (where_of next) → after.limit ≡ half_limit two.rooms
        → ((area : Area) → area ≢ Journal → new.now area ≡ old.now area) → IsRead two other next after new }
{}

/// The same, from a chain of format 1.
pub fn law_of_migrations()
    ensures any_moment { (one two : Header) (list other : List Command) (c next : Chain)
        (journal : journals.JournalState)
        (old new : Cloud) → MayMigrate one two list other c next journal old → HasEitherChain c next old new
        → LeavesOnly old new (IsMigrating one list two other) }
    ensures settled { (one two : Header) (list other : List Command) (c next : Chain)
        (journal after : journals.JournalState)
        (old new : Cloud) → MayMigrate one two list other c next journal old → IsTrue new.told
        → journals.IsJournalEnded after (new.now Journal) (where_of next) → after.limit ≡ half_limit two.rooms
        → ((area : Area) → area ≢ Journal → new.now area ≡ old.now area) → IsRead two other next after new }
{}
