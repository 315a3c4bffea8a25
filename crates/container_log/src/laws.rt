//! What the definitions of a log mean, as laws.

ghost use Rattle.std.specs.Prelude.{◌≡◌, ℕ, ◌+◌, ◌-◌, ◌<◌, ◌≤◌, List, [], ◌∷◌, ◌++◌, length, slice_index, sum_by};
ghost use Rattle.std.specs.Prelude.{All, AllPairs};
ghost use Rattle.cd_edges.specs.Disk.{IsOutside, overwritten};
ghost use Rattle.cd_edges.specs.Shelf.{ReadsFrom, stable};
ghost use Rattle.container_log.specs.Kept.{KeepsBelow};
ghost use Rattle.container_log.specs.Laying.{Placed, Fit, lengths, laid, placed, ranges, IsFrom, IsAt, AreLeast};
ghost use Rattle.container_log.specs.States.{State, HasStaged, need_of};
ghost use Rattle.container_log.specs.Places.{container_len, place_of, end_of_laid, LiesInOne, IsLeastPlace};

/// A blob of at most a container's bytes has the least place behind the end from which it lies in one container.
pub fn law_of_places()
    ensures { (end len : ℕ) → len ≤ container_len → IsLeastPlace end len (place_of end len) }
{}

/// Blobs that are laid in order lie at the least places, one behind another, each whole, with zeros in all places that none
/// of them takes; and they end where their lengths say. Where no byte is laid, each
/// blob is empty. One blob more lies behind the others.
pub fn law_of_laying()
    ensures least { (end : ℕ) (blobs : List (List ℕ)) → Fit blobs → AreLeast end (placed end blobs) }
    ensures apart { (end : ℕ) (blobs : List (List ℕ))
        → AllPairs (λ (b later : Placed). b.place + length b.blob ≤ later.place) (placed end blobs) }
    ensures whole { (end : ℕ) (blobs : List (List ℕ)) → All (IsFrom end (laid end blobs)) (placed end blobs) }
    ensures zeros { (end : ℕ) (blobs : List (List ℕ)) (k : ℕ)
        → IsOutside (ranges (placed end blobs)) (end + k) → slice_index (laid end blobs) k ≡ 0 }
    ensures end { (end : ℕ) (blobs : List (List ℕ)) → end + length (laid end blobs) ≡ end_of_laid end (lengths blobs) }
    ensures none { (end : ℕ) (blobs : List (List ℕ)) → laid end blobs ≡ [] → All (λ (b : List ℕ). b ≡ []) blobs }
    ensures more { (end : ℕ) (blobs : List (List ℕ)) (blob : List ℕ)
        → placed end (blobs ++ blob ∷ []) ≡ placed end blobs
        ++ record { place = place_of (end_of_laid end (lengths blobs)) (length blob); blob = blob } ∷ [] }
{}

/// Another blob has room among what is staged where the blobs and it, and once more the greatest length of one of them,
/// are no more than 4,194,304 bytes together, wherever the log ends: there are zeros before one of them at most.
pub fn law_of_room()
    ensures { (log : State) (blobs : List (List ℕ)) (blob : List ℕ) (greatest : ℕ) → HasStaged log blobs
        → All (λ (b : List ℕ). length b ≤ greatest) blobs → length blob ≤ greatest
        → sum_by (λ (b : List ℕ). length b) blobs + length blob + greatest ≤ container_len
        → need_of log (length blob) ≤ container_len }
{}

/// A blob is what is read from its place on. Later writes at an end behind it leave it, and so does a crash of one.
pub fn law_of_reading()
    ensures read { (bytes : List ℕ) (b : Placed) (count : ℕ) (out : List ℕ) → IsAt bytes b
        → length out ≡ length b.blob → ReadsFrom bytes b.place count out → out ≡ b.blob }
    ensures laid { (old : List ℕ) (end : ℕ) (blobs : List (List ℕ))
        → All (IsAt (overwritten old end (laid end blobs))) (placed end blobs) }
    ensures later { (old : List ℕ) (end : ℕ) (bytes : List ℕ) (b : Placed) → b.place + length b.blob ≤ end
        → IsAt old b → IsAt (overwritten old end bytes) b }
    ensures crashed { (old image : List ℕ) (end : ℕ) (b : Placed) → b.place + length b.blob ≤ end
        → IsAt old b → KeepsBelow end (stable old) image → IsAt image b }
{}
