//! The laws of a recipe's bytes, for the proofs of callers. The calls do nothing.

ghost use Rattle.std.specs.Prelude.{◌≡◌, ℕ, List, ◌+◌, ◌*◌, ◌≤◌, Ok, length};
ghost use Rattle.grammar.specs.CdBase.Limits.{recipe_limit};
ghost use Rattle.grammar.specs.CdBase.shape.Shape.{Shape};
ghost use Rattle.recipe.specs.Spelling.{Fits, spelling};
ghost use Rattle.recipe.specs.Reading.{recipe_at};
ghost use Rattle.recipe.specs.declared.recipe.Recipe.{Recipe};

/// The spelling of a recipe that keeps the rules.
pub fn spelling_laws()
    // it is read as the same recipe
    ensures again { (shape : Shape) (r : Recipe) → Fits shape r → recipe_at shape (spelling r) ≡ Ok r }
    // no other one has it
    ensures one { (shape : Shape) (q r : Recipe) → Fits shape q → Fits shape r → spelling q ≡ spelling r → q ≡ r }
    // how long it is, and the most
    ensures len { (shape : Shape) (r : Recipe) → Fits shape r
        → length (spelling r) ≡ 14 + length r.name_share + 36 * length r.items }
    ensures longest { (shape : Shape) (r : Recipe) → Fits shape r → length (spelling r) ≤ recipe_limit }
{}
