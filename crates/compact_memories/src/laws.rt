//! The laws of the memory of a compact list, for the proofs of callers. The calls do nothing.

ghost use Rattle.std.specs.Prelude.{◌≡◌, ◌≤◌, ◌<◌, ◌+◌, ◌*◌, ℕ, List, length, All};
ghost use Rattle.std.specs.List.{sum_by, Contains};
ghost use Rattle.compact_lists.specs.CdBase.ids.Fp.{Fp};
ghost use Rattle.compact_lists.specs.CdBase.ids.UserId.{UserId};
ghost use Rattle.compact_lists.specs.CdBase.shape.Shape.{Shape};
ghost use Rattle.checkpoints.specs.ContainerLog.Places.{container_len, end_of_laid};
ghost use Rattle.compact_lists.specs.CdBase.place.Place.{Place};
ghost use Rattle.compact_lists.specs.UserDedup.command.Command.{Command};
ghost use Rattle.compact_lists.specs.UserDedup.Dedup.{IsSound};
ghost use Rattle.compact_lists.specs.UserDedup.Compact.{compact};
ghost use Rattle.checkpoints.specs.CloudAreas.Placing.{region_start, end_of, places_of};
ghost use Rattle.checkpoints.specs.CloudAreas.Chains.{LiesIn, DontOverlap};
ghost use Rattle.checkpoints.specs.CloudMemory.cloud.CloudMemory.{CloudMemory};
ghost use Rattle.checkpoints.specs.CloudMemory.Fitting.{FitsRecords};
ghost use Rattle.checkpoints.specs.CloudMemory.Memory.{Memory, Remembers, as_spent};
ghost use Rattle.checkpoints.specs.CloudMemory.Rooms.{memory_of};
ghost use Rattle.checkpoints.specs.Known.{AreListed};
ghost use Rattle.checkpoints.specs.SpentTable.Spending.{spent_by};
ghost use Rattle.compact_lists.specs.Live.{live_of};
ghost use Rattle.compact_memories.specs.Kept.{IsCompacted, RemembersCompact, kept_in, commands_in};
ghost use Rattle.compact_memories.specs.Kept.{live_places, live_entries};
ghost use Rattle.compact_memories.specs.Moved.{new_places, lens_of, IsMoved, PlacesLie};
ghost use Rattle.compact_lists.specs.UserDedup.Spending.{nothing, spent_by_all};
ghost use Rattle.checkpoints.specs.SpentTable.Spent.{Spent as Row};
ghost use Rattle.compact_memories.specs.Tables.{with_table};
ghost use Rattle.checkpoints.specs.FileIndex.key.Entry.{Entry};
ghost use Rattle.checkpoints.specs.FileIndex.key.FileKey.{FileKey};

/// Copies that are laid one behind another from a region's first place on lie in the region, each in one container,
/// apart, and end no further than twice their bytes.
pub fn law_of_copies()
    ensures lie { (region : ℕ) (places : List (Fp × Place)) → All (λ (x : Fp × Place). x.1.len ≤ container_len) places
        → All (λ (x : Fp × Place). LiesIn region x.1) (new_places (region_start region) places) }
    ensures apart { (region : ℕ) (places : List (Fp × Place))
        → DontOverlap (places_of (new_places (region_start region) places)) }
    ensures bound { (region : ℕ) (places : List (Fp × Place))
        → end_of_laid (region_start region) (lens_of places)
        ≤ region_start region + 2 * sum_by (λ (x : Fp × Place). x.1.len) places }
    ensures ends { (region : ℕ) (places : List (Fp × Place))
        → All (λ (x : Fp × Place). end_of x.1 ≤ end_of_laid (region_start region) (lens_of places))
        (new_places (region_start region) places) }
{}

/// The memory of a list, without what is dead, is that of the compact list: where it is, and moved.
pub fn law_of_moved_memories()
    ensures stays { (shape : Shape) (cloud : ℕ) (list : List Command) (old : CloudMemory) (new : Memory)
        → IsSound shape cloud list → Remembers shape list (memory_of old) → AreListed old → IsCompacted old new
        → ((user : UserId) → as_spent (spent_by new.spent user) ≡ live_of shape list user)
        → RemembersCompact shape list new }
    ensures moved { (shape : Shape) (cloud : ℕ) (region : ℕ) (list : List Command) (old : CloudMemory) (new : Memory)
        → IsSound shape cloud list → Remembers shape list (memory_of old) → AreListed old → IsMoved region old new
        → ((user : UserId) → as_spent (spent_by new.spent user) ≡ live_of shape list user)
        → RemembersCompact shape list new }
{}

/// What a user keeps by the memory of a list is what it has by the list. So the memory of a list, with whatever table
/// of what was spent, remembers the compact list once it is without what is dead, where it is and moved, if its own
/// table has a row for each user that keeps anything. A table that has a row for each user that has spent anything has
/// one.
pub fn law_of_kept()
    ensures kept { (shape : Shape) (cloud : ℕ) (list : List Command) (m : Memory) (user : UserId)
        → IsSound shape cloud list
        → Remembers shape list m → kept_in m user ≡ live_of shape list user }
    ensures numbers { (shape : Shape) (cloud : ℕ) (list : List Command) (m : Memory) → IsSound shape cloud list
        → Remembers shape list m → commands_in m ≡ length (compact shape list) }
    ensures past { (shape : Shape) (list : List Command) (m : Memory) (user : UserId) → Remembers shape list m
        → length m.spent ≤ user.0 → live_of shape list user ≡ nothing }
    ensures stays { (shape : Shape) (cloud : ℕ) (list : List Command) (table : List Row) (old : CloudMemory)
        (new : Memory)
        → IsSound shape cloud list → Remembers shape list (with_table table (memory_of old)) → AreListed old
        → IsCompacted old new
        → ((user : UserId) → length old.spent ≤ user.0 → live_of shape list user ≡ nothing)
        → RemembersCompact shape list new }
    ensures moved { (shape : Shape) (cloud region : ℕ) (list : List Command) (table : List Row) (old : CloudMemory)
        (new : Memory)
        → IsSound shape cloud list → Remembers shape list (with_table table (memory_of old)) → AreListed old
        → IsMoved region old new
        → ((user : UserId) → length old.spent ≤ user.0 → live_of shape list user ≡ nothing)
        → RemembersCompact shape list new }
{}

/// What a moved memory places lies in the region, each blob in one container, apart, and ends no further than twice
/// what is alive.
pub fn law_of_moved_places()
    ensures { (region : ℕ) (old : CloudMemory) (new : Memory) → IsMoved region old new
        → ((x : Fp × Place) → Contains (live_places old) x → x.1.len ≤ container_len)
        → ((x : FileKey × Entry) → Contains (live_entries old) x → x.1.len ≤ container_len)
        → PlacesLie region (2 * sum_by (λ (x : Fp × Place). x.1.len) (live_places old))
        (2 * sum_by (λ (x : FileKey × Entry). x.1.len) (live_entries old)) new }
{}

/// What is alive is no more than the compact list has spent: each blob once, where the list counts it for each user.
pub fn law_of_live_sums()
    ensures shares { (shape : Shape) (list : List Command) (table : List Row) (old : CloudMemory)
        → Remembers shape list (with_table table (memory_of old)) → AreListed old
        → sum_by (λ (x : Fp × Place). x.1.len) (live_places old) ≤ (spent_by_all (compact shape list)).shares }
    ensures recipes { (shape : Shape) (list : List Command) (table : List Row) (old : CloudMemory)
        → Remembers shape list (with_table table (memory_of old)) → AreListed old
        → sum_by (λ (x : FileKey × Entry). x.1.len) (live_entries old) ≤ (spent_by_all (compact shape list)).recipes }
{}

/// What is moved fits records as before: lengths of shares and of recipes, and a place for each fingerprint that some user
/// owns.
pub fn law_of_moved_fits()
    ensures { (region : ℕ) (old : CloudMemory) (new : Memory) → AreListed old → FitsRecords (memory_of old)
        → IsMoved region old new → FitsRecords new }
{}
