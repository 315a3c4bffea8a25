//! What recipes and secrets are, for the proofs of callers. The calls do nothing: their clauses are theorems on the
//! definitions.

ghost use Rattle.std.specs.Prelude.{◌≡◌, ℕ, List, ◌<◌, ◌≤◌, ◌+◌, Ok, length, slice_index, slice_index_or, []};
ghost use Rattle.std.specs.List.{concat, sum_by, flat_map};
ghost use Rattle.rabin_chunker.specs.CdBase.shape.Shape.{Shape};
ghost use Rattle.rabin_chunker.specs.CdBase.Lengths.{share_len_of};
ghost use Rattle.rabin_chunker.specs.CdBase.Limits.{IsPath, secret_limit};
ghost use Rattle.caont_rs.specs.Package.{share};
ghost use Rattle.recipe.specs.Spelling.{Fits, file_limit, item_limit};
ghost use Rattle.recipe.specs.Reading.{recipe_at};
ghost use Rattle.file_recipe.specs.FileRecipe.{secrets, shares_at, recipe_of, recipe_bytes};

/// The secrets of a file.
pub fn secret_laws()
    // joined they are the file
    ensures joined { (file : List ℕ) → concat (secrets file) ≡ file }
    // none is empty or longer than 16,384 bytes
    ensures some { (file : List ℕ) (i : ℕ) → i < length (secrets file)
        → 1 ≤ length (slice_index_or (secrets file) i []) }
    ensures longest { (file : List ℕ) (i : ℕ) → length (slice_index_or (secrets file) i []) ≤ secret_limit }
    // and none but the last is shorter than 2,048
    ensures shortest { (file : List ℕ) (i : ℕ) → i + 1 < length (secrets file)
        → 2048 ≤ length (slice_index_or (secrets file) i []) }
    // so a file within the limit has at most as many secrets as a recipe may name
    ensures few { (file : List ℕ) → length file ≤ file_limit → length (secrets file) ≤ item_limit }
{}

/// The recipe of a path and a file at a cloud.
pub fn recipe_laws()
    // it keeps the rules
    ensures fits { (s : Shape) (j : ℕ) (path file : List ℕ) → IsPath path → length file ≤ file_limit
        → Fits s (recipe_of s j path file) }
    // so its bytes are read as that recipe
    ensures reads { (s : Shape) (j : ℕ) (path file : List ℕ) → IsPath path → length file ≤ file_limit
        → recipe_at s (recipe_bytes s j path file) ≡ Ok (recipe_of s j path file) }
    // the shares that it names are as long as the lengths of its items say
    ensures shares_length { (s : Shape) (j : ℕ) (file : List ℕ)
        → length (shares_at s j file) ≡ sum_by (λ (secret : List ℕ). share_len_of s.k (length secret)) (secrets file) }
{}
