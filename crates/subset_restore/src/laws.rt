//! The choices of k of some clouds.

ghost use Rattle.std.specs.Prelude.{◌≡◌, ℕ, List, [], ◌∷◌, length, All};
ghost use Rattle.std.specs.List.{AllPairs, Contains};
ghost use Rattle.std.specs.List.Sorted.{IsStrictlyIncreasing};
ghost use Rattle.subset_restore.specs.Subsets.{IsBefore, IsSubset, subsets};

/// The choices of k of rising clouds are all their rising choices of k, in lexicographic order; of k clouds there is one.
/// It does nothing: its clauses are theorems on the definition.
pub fn law_of_subsets()
    ensures each { (k : ℕ) (clouds : List ℕ) → IsStrictlyIncreasing clouds
        → All (IsSubset k clouds) (subsets k clouds) }
    ensures all { (k : ℕ) (clouds subset : List ℕ) → IsStrictlyIncreasing clouds → IsSubset k clouds subset
        → Contains (subsets k clouds) subset }
    ensures ordered { (k : ℕ) (clouds : List ℕ) → IsStrictlyIncreasing clouds → AllPairs IsBefore (subsets k clouds) }
    ensures whole { (clouds : List ℕ) → subsets (length clouds) clouds ≡ clouds ∷ [] }
{}
