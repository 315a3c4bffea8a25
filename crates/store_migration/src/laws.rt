//! The laws of readings of format 1 and of a migration's answers, for the proofs of callers. The calls do nothing.

ghost use Rattle.std.specs.Prelude.{◌≡◌, ℕ, List, Result, IsOk};
ghost use Rattle.fresh_checkpoints.specs.CdBase.ids.CloudNo.{CloudNo};
ghost use Rattle.fresh_checkpoints.specs.CdBase.shape.Shape.{Shape};
ghost use Rattle.fresh_checkpoints.specs.CdEdges.area.Area.TheVariants.{Recipes};
ghost use Rattle.fresh_checkpoints.specs.CdEdges.Disk.{Image};
ghost use Rattle.cloud_opening.specs.JournalStart.rooms.UserRooms.{UserRooms};
ghost use Rattle.cloud_opening.specs.JournalStart.Spelling.{recipes_end_of};
ghost use Rattle.cloud_opening.specs.UserDedup.command.Command.{Command};
ghost use Rattle.fresh_checkpoints.specs.CloudAreas.FormatOne.{Lays, IsWithinGreatest};
ghost use Rattle.fresh_checkpoints.specs.CloudAreas.Standing.{Chain};
ghost use Rattle.fresh_checkpoints.specs.CloudMemory.Memory.{Memory};
ghost use Rattle.first_laws.specs.Leaving.{IsLeftOne};
ghost use Rattle.large_users.specs.MigrationModel.Migrating.{header_one, IsBegunOne};
ghost use Rattle.store_migration.specs.declared.errors.MigrateErr.{MigrateErr};
ghost use Rattle.store_migration.specs.Exact.{ReadsOld, Migrates};

/// Begun areas that stand for a list in format 1, which kept within the rooms that format 1 had, are read whole:
/// nothing of them is damaged, no room is passed, and the memory that is left is the list's.
pub fn law_of_old_readings()
    ensures whole { (shape : Shape) (cloud : CloudNo) (list : List Command) (image : Image) (m : Memory)
        (result : Result (Unit {0}) MigrateErr) → IsBegunOne (header_one shape cloud) list image
        → IsWithinGreatest shape list → ReadsOld shape cloud image m result → IsOk result }
    ensures left { (shape : Shape) (cloud : CloudNo) (list : List Command) (image : Image) (m : Memory)
        (result : Result (Unit {0}) MigrateErr) → IsBegunOne (header_one shape cloud) list image
        → IsWithinGreatest shape list → ReadsOld shape cloud image m result
        → (c : Chain) × Lays (header_one shape cloud) image list c
        × IsLeftOne shape (image Recipes) (recipes_end_of c.start.checkpoint) list c.records m }
{}

/// Whatever the bytes of a cloud's three areas are, a migration for which there is memory, and over which no device
/// call fails, has one answer alone: the first check that fails, in the order of the starts, of the records and of
/// the checks of each, and of the users, or else how many commands there are.
pub fn law_of_one_answer()
    ensures one { (shape : Shape) (cloud : CloudNo) (rooms : UserRooms) (image : Image) (one two : Result ℕ MigrateErr)
        → Migrates shape cloud rooms image one → Migrates shape cloud rooms image two → one ≡ two }
{}
