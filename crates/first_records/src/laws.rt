//! The laws of a record's checks, for the proofs of callers. The calls do nothing.

ghost use Rattle.std.specs.Prelude.{◌≡◌, ℕ, Bool, List, Result, Ok};
ghost use Rattle.record_checks.specs.CloudMemory.Fitting.{FitsRecords};
ghost use Rattle.record_checks.specs.CloudMemory.Memory.{Memory};
ghost use Rattle.record_checks.specs.declared.ground.Ground.{Ground};
ghost use Rattle.first_records.specs.Judging.{JudgesFirst};
ghost use Rattle.first_records.specs.declared.errors.FirstErr.{FirstErr};

/// No two answers fit one record over one memory.
pub fn law_of_first_answers()
    ensures { (g : Ground) (inside : Bool) (read : List ℕ) (m : Memory) (at : ℕ) (body : List ℕ)
        (x y : Result Memory FirstErr) → JudgesFirst g inside read m at body x → JudgesFirst g inside read m at body y
        → x ≡ y }
{}
