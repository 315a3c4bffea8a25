//! The law of records, for the proofs of callers. The call does nothing.

ghost use Rattle.std.specs.Prelude.{◌≡◌, ℕ, Bool, List, Result};
ghost use Rattle.cloud_memory.specs.Memory.{Memory};
ghost use Rattle.record_checks.specs.declared.damage.Damage.{Damage};
ghost use Rattle.record_checks.specs.declared.ground.Ground.{Ground};
ghost use Rattle.record_checks.specs.Judging.{Judges};

/// Whatever a memory holds and whatever the record's bytes are, one answer alone fits.
pub fn law_of_answers()
    ensures { (g : Ground) (inside : Bool) (read : List ℕ) (marks : List Bool) (m : Memory) (at : ℕ) (body : List ℕ)
        (one two : Result Memory Damage)
        → Judges g inside read marks m at body one → Judges g inside read marks m at body two → one ≡ two }
{}
