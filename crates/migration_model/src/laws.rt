//! The law of what is too large, for the proofs of callers. The call does nothing.

ghost use Rattle.std.specs.Prelude.{◌≡◌, ◌≤◌, ◌<◌, ◌↔◌, ℕ, List, Some, None, IsSome};
ghost use Rattle.compact_lists.specs.CdBase.ids.UserId.{UserId};
ghost use Rattle.compact_lists.specs.CdBase.shape.Shape.{Shape};
ghost use Rattle.compact_lists.specs.JournalStart.rooms.UserRooms.{UserRooms};
ghost use Rattle.compact_lists.specs.UserDedup.Dedup.{FullRoom, IsSound};
ghost use Rattle.compact_lists.specs.UserDedup.command.Command.{Command};
ghost use Rattle.compact_lists.specs.UserDedup.Compact.{compact};
ghost use Rattle.compact_lists.specs.UserDedup.Spending.{files_of, UsesWithin, IsWithin};
ghost use Rattle.fresh_checkpoints.specs.CloudAreas.FormatOne.{passed_room, too_large_for};
ghost use Rattle.compact_lists.specs.Live.{live_of};
ghost use Rattle.migration_model.specs.Migrating.{AreSmallEnough};

/// A user is too large for some rooms exactly where what it keeps passes one of them.
pub fn law_of_too_large()
    // by what is kept
    ensures by_kept { (shape : Shape) (cloud : ℕ) (rooms : UserRooms) (list : List Command) (user : UserId)
        → IsSound shape cloud list
        → too_large_for shape rooms list user
        ≡ passed_room rooms user (live_of shape list user) (files_of shape list user) }
    // by the uses of the compact list
    ensures exact { (shape : Shape) (rooms : UserRooms) (list : List Command) (user : UserId)
        → too_large_for shape rooms list user ≡ None ↔ UsesWithin shape rooms (compact shape list) user }
    ensures passed { (shape : Shape) (rooms : UserRooms) (list : List Command) (user : UserId) (full : FullRoom)
        → too_large_for shape rooms list user ≡ Some full → (full.need ≡ 0) × (full.limit < full.used) }
    // where none is, the compact list is within the rooms
    ensures within { (shape : Shape) (rooms : UserRooms) (list : List Command) → AreSmallEnough shape rooms list
        → IsWithin shape rooms (compact shape list) }
{}
