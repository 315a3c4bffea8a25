//! The laws of lawful records, for the proofs of callers. The calls do nothing.

ghost use Rattle.std.specs.Prelude.{◌≡◌, ◌≤◌, ℕ, List, [], ◌∷◌, ◌++◌, length, map, take, drop};
ghost use Rattle.cd_edges.specs.declared.area.Area.TheVariants.{Recipes};
ghost use Rattle.cd_edges.specs.Disk.{Image};
ghost use Rattle.record_checks.specs.JournalStart.start.Header.{Header};
ghost use Rattle.record_checks.specs.RecordBody.Spelling.{Body, body_bytes, FitsBody};
ghost use Rattle.cd_edges.specs.CdBase.place.Place.{Place};
ghost use Rattle.record_checks.specs.UserDedup.command.Command.{Command};
ghost use Rattle.record_checks.specs.CloudAreas.Standing.{Chain, region_in, Holds};
ghost use Rattle.record_checks.specs.CloudMemory.Memory.{Memory};
ghost use Rattle.record_checks.specs.CloudMemory.Steps.{begun};
ghost use Rattle.record_checks.specs.declared.taking.Taking.{Taking};
ghost use Rattle.record_checks.specs.Noting.{nothing_noted, IsNoted};
ghost use Rattle.record_laws.specs.Leaving.{record_left, checkpoint_records, front_left};
ghost use Rattle.record_laws.specs.Fronts.{is_inside, marks_of, IsNextRecord, Wants, PassesWith, StandsBehind};

/// Each record of a chain that says a list passes its checks, in the checkpoint and behind it.
pub fn law_of_lawful_records()
    // with what lies in Recipes where its checks ask
    ensures there { (header : Header) (image : Image) (list : List Command) (c : Chain) (before : List Body)
        (body : Body) (place : Place) → IsNextRecord header image list c before body → FitsBody body
        → Wants header image c before body place
        → PassesWith header image c before body (take place.len (drop place.at (image Recipes))) }
    // or with nothing, where they ask for nothing
    ensures nowhere { (header : Header) (image : Image) (list : List Command) (c : Chain) (before : List Body)
        (body : Body) → IsNextRecord header image list c before body → FitsBody body
        → ((place : Place) → ¬ (Wants header image c before body place)) → PassesWith header image c before body [] }
{}

/// What the first records of a chain leave, and who has a Spent among them.
pub fn law_of_fronts()
    ensures begun { (header : Header) (image : Image) (c : Chain)
        → front_left header image c [] ≡ begun header.rooms.users (region_in c) }
    ensures next { (header : Header) (image : Image) (c : Chain) (before : List Body) (body : Body)
        → front_left header image c (before ++ body ∷ [])
        ≡ record_left header.shape (image Recipes) (is_inside c before) (front_left header image c before) body }
    // A chain has all records of its checkpoint; and bytes of its records are those of one of them.
    ensures whole { (header : Header) (image : Image) (list : List Command) (c : Chain) → Holds header image list c
        → checkpoint_records c ≤ length c.records }
    ensures by_bytes { (records : List Body) (bodies rest : List (List ℕ)) (bytes : List ℕ)
        → map body_bytes records ≡ bodies ++ bytes ∷ rest → StandsBehind records bodies bytes }
    ensures unmarked { nothing_noted.spent ≡ marks_of [] }
    ensures marked { (at : ℕ) (m : Memory) (old new : Taking) (before : List Body) (body : Body) → FitsBody body
        → old.spent ≡ marks_of before → IsNoted at (body_bytes body) m old new
        → new.spent ≡ marks_of (before ++ body ∷ []) }
{}
