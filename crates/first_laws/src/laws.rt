//! The laws of what the records of format 1 leave, for the proofs of callers. The calls do nothing.

ghost use Rattle.std.specs.Prelude.{◌≤◌, ℕ, List, [], ◌∷◌, ◌++◌, All};
ghost use Rattle.journal_halves.specs.CdBase.Limits.{greatest_rooms};
ghost use Rattle.journal_halves.specs.CdBase.shape.Shape.{Shape};
ghost use Rattle.journal_halves.specs.CdEdges.area.Area.TheVariants.{Shares, Recipes};
ghost use Rattle.journal_halves.specs.CdEdges.Disk.{Image};
ghost use Rattle.record_laws.specs.ContainerLog.Laying.{Placed, IsAt};
ghost use Rattle.journal_halves.specs.JournalStart.start.Header.{Header};
ghost use Rattle.journal_halves.specs.JournalStart.Spelling.{recipes_end_of};
ghost use Rattle.first_records.specs.RecordBody.Spelling.{Body};
ghost use Rattle.compact_memories.specs.UserDedup.command.Command.{Command};
ghost use Rattle.compact_memories.specs.UserDedup.Dedup.{IsSound};
ghost use Rattle.compact_memories.specs.CloudAreas.Chains.{IsRecord, AreLong};
ghost use Rattle.compact_memories.specs.CloudAreas.Checkpoints.{IsCheckpointOfList};
ghost use Rattle.compact_memories.specs.CloudAreas.FormatOne.{Lays, IsWithinGreatest};
ghost use Rattle.compact_memories.specs.CloudAreas.Placing.{shares_in};
ghost use Rattle.compact_memories.specs.CloudAreas.Standing.{Chain};
ghost use Rattle.compact_memories.specs.CloudMemory.Memory.{Memory, Stand};
ghost use Rattle.compact_memories.specs.Moved.{PlacesLie};
ghost use Rattle.first_laws.specs.Holding.{MayHoldOne, front_left_one};
ghost use Rattle.first_laws.specs.Leaving.{begun_behind, first_left, first_left_by, IsLeftOne};

/// The records of a checkpoint of format 1, read into an empty memory, leave that of each list that they say.
pub fn law_of_first_checkpoints()
    ensures left { (shape : Shape) (cloud users end : ℕ) (area : List ℕ) (list : List Command) (records : List Body)
        (recipes : List Placed) → IsSound shape cloud list → IsWithinGreatest shape list
        → IsCheckpointOfList 1 shape list records recipes → AreLong list (shares_in records) → All (IsAt area) recipes
        → IsLeftOne shape area end list records (first_left_by shape area (begun_behind users end) records) }
{}

/// Behind a checkpoint of format 1 one record more leaves the memory of the list with its command, at whatever places it
/// lays shares and a recipe.
pub fn law_of_first_records()
    ensures left { (shape : Shape) (cloud end : ℕ) (area : List ℕ) (list : List Command) (records : List Body)
        (m : Memory) (command : Command) (body : Body) (laid : List Placed) → IsSound shape cloud (list ++ command ∷ [])
        → IsWithinGreatest shape (list ++ command ∷ []) → IsLeftOne shape area end list records m
        → IsRecord 0 records list command body laid → All (IsAt area) laid
        → IsLeftOne shape area end (list ++ command ∷ []) (records ++ body ∷ []) (first_left shape area m body) }
{}

/// The records of a chain of format 1 leave the memory of each list that it says and lays, in which each string and
/// recipe stands where the memory says.
pub fn law_of_first_chains()
    ensures left { (header : Header) (image : Image) (users : ℕ) (list : List Command) (c : Chain)
        → MayHoldOne header list → Lays header image list c
        → IsLeftOne header.shape (image Recipes) (recipes_end_of c.start.checkpoint) list c.records
        (front_left_one header image users c c.records) }
    ensures stand { (header : Header) (image : Image) (list : List Command) (c : Chain) (m : Memory)
        → MayHoldOne header list → Lays header image list c
        → IsLeftOne header.shape (image Recipes) (recipes_end_of c.start.checkpoint) list c.records m
        → Stand header.shape (image Shares) (image Recipes) list m }
{}

/// What such a memory places lies in the first region, each blob in one container, apart, and ends within the greatest
/// rooms.
pub fn law_of_first_places()
    ensures lie { (header : Header) (image : Image) (list : List Command) (c : Chain) (m : Memory)
        → MayHoldOne header list → Lays header image list c
        → IsLeftOne header.shape (image Recipes) (recipes_end_of c.start.checkpoint) list c.records m
        → PlacesLie 0 greatest_rooms.shares greatest_rooms.recipes m }
    ensures ends { (header : Header) (image : Image) (list : List Command) (c : Chain) (m : Memory)
        → MayHoldOne header list → Lays header image list c
        → IsLeftOne header.shape (image Recipes) (recipes_end_of c.start.checkpoint) list c.records m
        → (m.shares_end ≤ greatest_rooms.shares) × (m.recipes_end ≤ greatest_rooms.recipes) }
{}
