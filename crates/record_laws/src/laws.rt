//! The laws of what records leave, for the proofs of callers. The calls do nothing.

ghost use Rattle.std.specs.Prelude.{true, false, ℕ, List, [], ◌∷◌, ◌++◌, All};
ghost use Rattle.cd_edges.specs.declared.area.Area.TheVariants.{Shares, Recipes};
ghost use Rattle.cd_edges.specs.Disk.{Image};
ghost use Rattle.record_checks.specs.ContainerLog.Laying.{Placed, IsAt};
ghost use Rattle.record_checks.specs.JournalStart.start.Header.{Header};
ghost use Rattle.record_checks.specs.RecordBody.Spelling.{Body};
ghost use Rattle.record_checks.specs.UserDedup.command.Command.{Command};
ghost use Rattle.record_checks.specs.CloudAreas.Chains.{IsRecord, AreLong, BothHaveRoom};
ghost use Rattle.record_checks.specs.CloudAreas.Checkpoints.{IsCheckpointOfList};
ghost use Rattle.record_checks.specs.CloudAreas.Placing.{shares_in};
ghost use Rattle.record_checks.specs.CloudAreas.Standing.{Chain, region_in, Holds};
ghost use Rattle.record_checks.specs.CloudMemory.Memory.{Memory, HasEnds, Stand};
ghost use Rattle.record_checks.specs.CloudMemory.Steps.{begun};
ghost use Rattle.record_laws.specs.Leaving.{record_left, left_by, MayHold, front_left, IsLeftIn, EndsWithinRows};

/// The records of a checkpoint, read into an empty memory, leave that of each list that they say, whatever their order.
pub fn law_of_checkpoint_records()
    ensures left { (header : Header) (image : Image) (region : ℕ) (list : List Command) (records : List Body)
        (recipes : List Placed) → MayHold header list
        → IsCheckpointOfList header.format header.shape list records recipes
        → AreLong list (shares_in records) → All (IsAt (image Recipes)) recipes
        → IsLeftIn header image region list records
        (left_by header.shape (image Recipes) true (begun header.rooms.users region) records) }
{}

/// Behind a checkpoint one record more leaves the memory of the list with its command, at whatever places it lays
/// shares and a recipe.
pub fn law_of_next_records()
    ensures left { (header : Header) (image : Image) (region : ℕ) (list : List Command) (records : List Body)
        (m : Memory) (command : Command) (body : Body) (laid : List Placed) → MayHold header (list ++ command ∷ [])
        → IsLeftIn header image region list records m → IsRecord region records list command body laid
        → All (IsAt (image Recipes)) laid
        → IsLeftIn header image region (list ++ command ∷ []) (records ++ body ∷ [])
        (record_left header.shape (image Recipes) false m body) }
{}

/// The records of a chain leave the memory of each list that the areas have by it.
pub fn law_of_chains()
    ensures left { (header : Header) (image : Image) (list : List Command) (c : Chain) → MayHold header list
        → Holds header image list c
        → IsLeftIn header image (region_in c) list c.records (front_left header image c c.records) }
    // Such a memory has the ends, and each string and recipe stands where it says.
    ensures ends { (header : Header) (image : Image) (list : List Command) (c : Chain) (m : Memory)
        → Holds header image list c → IsLeftIn header image (region_in c) list c.records m
        → HasEnds (region_in c) list c.records m }
    // The last check of an opening, by the sums of the rows.
    ensures bounds { (header : Header) (image : Image) (list : List Command) (c : Chain) (m : Memory)
        → MayHold header list → Holds header image list c → IsLeftIn header image (region_in c) list c.records m
        → EndsWithinRows (region_in c) m }
    ensures stand { (header : Header) (image : Image) (list : List Command) (c : Chain) (m : Memory)
        → Holds header image list c → IsLeftIn header image (region_in c) list c.records m
        → Stand header.shape (image Shares) (image Recipes) list m }
{}
