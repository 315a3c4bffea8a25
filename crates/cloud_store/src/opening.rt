//! An opening.

ghost use Rattle.std.specs.Prelude.{◌≡◌, ◌≤◌, ℕ, List, length, IsTrue, IfOk, OnOk, OnErr};
ghost use Rattle.recipe.specs.CdBase.Limits.{recipe_limit};
ghost use Rattle.checkpoints.specs.CdEdges.area.Area.{Area};
ghost use Rattle.checkpoints.specs.CdEdges.Disk.{reads};
ghost use Rattle.checkpoints.specs.CdEdges.Shelf.{IsCall, HasFailed, KeepsCounts};
ghost use Rattle.checkpoints.specs.CommitJournal.journal.Stage.{Stage};
ghost use Rattle.checkpoints.specs.CommitJournal.Openings.{OnFault, HasBegun};
ghost use Rattle.checkpoints.specs.CommitJournal.Outcomes.{stage_after};
ghost use Rattle.checkpoints.specs.UserDedup.command.Command.{Command};
ghost use Rattle.checkpoints.specs.CloudAreas.Standing.{StandsFor};
ghost use Rattle.checkpoints.specs.CloudMemory.Rooms.{memory_of};
ghost use Rattle.cloud_opening.specs.RecordLaws.Leaving.{MayHold};
ghost use Rattle.cloud_opening.specs.Exact.{Opens};
ghost use Rattle.cloud_opening.specs.Spared.{KeepsLists, Spares, IsOkOrFault, IsReadWhole, MayBegin};
ghost use Rattle.cloud_store.specs.Adding.{NoneStaged};
ghost use Rattle.cloud_store.specs.Store.{IsSettled, EndsMeet, ServesSome};

use crate::CloudStore;
use checkpoints::{OpenErr, Shelf};
use cloud_opening::reopen;

impl CloudStore {
    /// Opens the store's cloud, as `cloud_opening::reopen` says: syncs its areas, finds the current half of the journal, or
    /// begins half 0 where none is begun and `begin` is true, and takes each record of its chain into the memory. Answers
    /// how many commands there are, as far as 64 bits reach. `recipe` is a buffer of at least 1,180,190 bytes.
    ///
    /// Whenever a crash comes, and after an Err too, each image of the cloud stands for one of the lists that the images
    /// stood for before. After Ok the store serves each list within its rooms that the cloud stands for, and nothing is
    /// staged; whatever the records say, both logs end where the memory says, and the memory and the journal are what the
    /// records leave. After an Err the store is shut, and its logs are as they were: only `open` may be called. The errors
    /// are those of `reopen`, each by the bytes of the areas alone but `Fault`, which comes only where the cloud's count of
    /// faults rose; `NotBegun` never comes where `begin` is true, whatever the cloud tells. It takes no memory.
    pub fn open<V: Shelf>(
        &mut self,
        shelf: &mut V,
        begin: bool,
        recipe: &mut [u8],
    ) -> Result<u64, OpenErr>
        requires settled { IsSettled self.old }
        requires recipe { recipe_limit ≤ length recipe.old }

        // of a told cloud
        ensures kept { IsTrue (V.cloud_at shelf.old self.old.header.cloud.0).told
            → KeepsLists self.old.header (V.cloud_at shelf.old self.old.header.cloud.0)
            (V.cloud_at shelf.new self.old.header.cloud.0) }
        ensures spares { IsTrue (V.cloud_at shelf.old self.old.header.cloud.0).told
            → Spares self.old.header begin (V.cloud_at shelf.old self.old.header.cloud.0)
            (V.cloud_at shelf.new self.old.header.cloud.0) result }
        ensures exact { IsTrue (V.cloud_at shelf.old self.old.header.cloud.0).told → OnFault result (Unit {0})
            (Opens self.old.header begin (reads (V.cloud_at shelf.old self.old.header.cloud.0).now)
            (memory_of self.new.memory) result) }
        ensures serves { IsTrue (V.cloud_at shelf.old self.old.header.cloud.0).told → (list : List Command)
            → StandsFor (reads (V.cloud_at shelf.old self.old.header.cloud.0).now) self.old.header list
            → MayHold self.old.header list
            → OnOk result (ServesSome list self.new (V.cloud_at shelf.new self.old.header.cloud.0)) }
        ensures whole { IsTrue (V.cloud_at shelf.old self.old.header.cloud.0).told → (list : List Command)
            → StandsFor (reads (V.cloud_at shelf.old self.old.header.cloud.0).now) self.old.header list
            → MayHold self.old.header list
            → MayBegin ((V.cloud_at shelf.old self.old.header.cloud.0).now Area.Journal).read begin
            → IsOkOrFault result }

        ensures read { IsTrue (V.cloud_at shelf.old self.old.header.cloud.0).told
            → IfOk result (λ commands. IsReadWhole self.old.header self.new.disk.journal (memory_of self.new.memory)
            commands (V.cloud_at shelf.new self.old.header.cloud.0)) }

        // whatever is known of the cloud
        ensures begins { IsTrue begin → HasBegun result }
        ensures meet { OnOk result (EndsMeet self.new) }
        ensures logs { OnErr result ((self.new.disk.shares ≡ self.old.disk.shares)
            × (self.new.disk.recipes ≡ self.old.disk.recipes)) }
        ensures commands { IfOk result (λ commands. commands ≡ self.new.commands) }
        ensures none { OnOk result (NoneStaged self.new) }
        ensures settled { IsSettled self.new }
        ensures header { self.new.header ≡ self.old.header }
        ensures stage { self.new.disk.journal.stage ≡ stage_after Stage.AtEnd result }
        ensures call { IsCall (V.cloud_at shelf.old) (V.cloud_at shelf.new) self.old.header.cloud.0 (V.faults shelf.old)
            (V.faults shelf.new) }
        ensures counts { OnFault result
            (HasFailed (V.cloud_at shelf.old self.old.header.cloud.0) (V.cloud_at shelf.new self.old.header.cloud.0)
            (V.faults shelf.old) (V.faults shelf.new))
            (KeepsCounts (V.cloud_at shelf.old self.old.header.cloud.0) (V.cloud_at shelf.new self.old.header.cloud.0)
            (V.faults shelf.old) (V.faults shelf.new)) }
    {
        let cloud = self.header.cloud;
        match reopen(
            &mut self.disk,
            &mut self.memory,
            shelf,
            cloud,
            &self.header,
            begin,
            recipe,
        ) {
            Ok(commands) => {
                self.commands = commands;
                self.region = self.disk.journal().region();
                Ok(commands)
            }
            Err(error) => Err(error),
        }
    }
}
