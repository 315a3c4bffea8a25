//! The laws of lawful records of format 1, for the proofs of callers. The calls do nothing.

ghost use Rattle.std.specs.Prelude.{ℕ, List, [], take, drop};
ghost use Rattle.journal_halves.specs.CdBase.place.Place.{Place};
ghost use Rattle.journal_halves.specs.CdEdges.area.Area.TheVariants.{Recipes};
ghost use Rattle.journal_halves.specs.CdEdges.Disk.{Image};
ghost use Rattle.journal_halves.specs.JournalStart.start.Header.{Header};
ghost use Rattle.first_records.specs.RecordBody.Spelling.{Body, FitsBody};
ghost use Rattle.compact_memories.specs.UserDedup.command.Command.{Command};
ghost use Rattle.compact_memories.specs.CloudAreas.Standing.{Chain};
ghost use Rattle.first_laws.specs.Lawful.{IsNextOne, WantsOne, PassesOne};

/// Each record of a chain of format 1 that lays a list is taken, in the checkpoint and behind it: it is neither
/// damaged nor does it pass a room.
pub fn law_of_lawful_first_records()
    // with what lies in Recipes where its checks ask
    ensures there { (header : Header) (image : Image) (users : ℕ) (list : List Command) (c : Chain) (before : List Body)
        (body : Body) (place : Place) → IsNextOne header image list c before body → FitsBody body
        → WantsOne header image users c before body place
        → PassesOne header image users c before body (take place.len (drop place.at (image Recipes))) }
    // or with nothing, where they ask for nothing
    ensures nowhere { (header : Header) (image : Image) (users : ℕ) (list : List Command) (c : Chain)
        (before : List Body) (body : Body) → IsNextOne header image list c before body → FitsBody body
        → ((place : Place) → ¬ (WantsOne header image users c before body place))
        → PassesOne header image users c before body [] }
{}
