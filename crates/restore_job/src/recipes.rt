//! Recipes of one file at several clouds.

ghost use Rattle.std.specs.Prelude.{◌≡◌, [], ◌∷◌, ◌++◌, OnOk, OnErr};

use std::alloc::Global;
use std::marker::Model;
use user_dedup::{NoMemory, Recipe};

/// Recipes, in order.
#[derive(Drop)]
pub struct Recipes {
    items: Vec<Recipe>,
}

impl Model for Recipes {
    ghost use Rattle.std.specs.Prelude.{List};
    ghost use Rattle.user_dedup.specs.Recipe.recipe.Recipe.{Recipe};

    ghost Value = { List Recipe };

    ghost view = { λ r. r.items.items };
}

impl Recipes {
    /// No recipes. It takes no memory.
    pub fn new(alloc: Global) -> Recipes
        ensures { result ≡ [] }
    {
        Recipes {
            items: Vec::new(alloc),
        }
    }

    /// Appends a recipe. For want of memory nothing changes.
    pub fn push(&mut self, recipe: Recipe) -> Result<(), NoMemory>
        ensures ok { OnOk result (self.new ≡ self.old ++ recipe ∷ []) }
        ensures err { OnErr result (self.new ≡ self.old) }
    {
        self.items.push(recipe)?;
        Ok(())
    }

    /// The recipes.
    pub fn as_slice(&self) -> &[Recipe]
        ensures { result.now ≡ self.now }
    {
        self.items.as_slice()
    }
}
