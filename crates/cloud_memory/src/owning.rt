//! Whether a user owns what a recipe names.

ghost use Rattle.std.specs.Prelude.{◌≡◌, ◌↔◌, ◌<◌, ◌≤◌, List, length, All, IfSome, IsTrue};
ghost use Rattle.std.specs.List.{Contains};
ghost use Rattle.spent_table.specs.CdBase.shape.Shape.{Shape};
ghost use Rattle.recipe.specs.Spelling.{item_limit};
ghost use Rattle.cloud_areas.specs.UserDedup.Owning.{fps_in, first_lacking};
ghost use Rattle.cloud_areas.specs.UserDedup.command.Command.{Command};
ghost use Rattle.cloud_areas.specs.UserDedup.Cloud.{user_view};
ghost use Rattle.cloud_memory.specs.Memory.{Remembers};
ghost use Rattle.cloud_memory.specs.Rooms.{memory_of};
ghost use Rattle.cloud_memory.specs.Sharing.{AreOwned, FindsUnowned};

use crate::CloudMemory;
use crate::uses::fp_at;
use recipe::RecipeView;
use spent_table::UserId;

impl CloudMemory {
    // The place of the first item whose fingerprint the user doesn't own.
    fn unowned_place(&self, user: UserId, recipe: &RecipeView<'_>) -> Option<usize>
        ensures { FindsUnowned self.now.shares.owners user (fps_in recipe.now.items) result }
    {
        for place in 0..recipe.count() {
            if !self.owns(user, &fp_at(recipe, place)) {
                return Some(place);
            }
        }
        None
    }

    /// The place, counted from 0, of the recipe's first item whose fingerprint the user doesn't own. None comes exactly
    /// where the user owns all that the recipe names.
    pub fn first_unowned(&self, user: UserId, recipe: &RecipeView<'_>) -> Option<u32>
        requires { length recipe.now.items ≤ item_limit }
        ensures kept { FindsUnowned self.now.shares.owners user (fps_in recipe.now.items) result }
        ensures value { (shape : Shape) (list : List Command) → Remembers shape list (memory_of self.now)
            → result ≡ first_lacking (user_view shape list user).own (fps_in recipe.now.items) }
        ensures within { IfSome result (λ place. place < length recipe.now.items) }
    {
        match self.unowned_place(user, recipe) {
            Some(place) => Some(place as u32),
            None => None,
        }
    }

    /// Whether the user owns all that the recipe names, as a Commit of it asks.
    pub fn owns_all(&self, user: UserId, recipe: &RecipeView<'_>) -> bool
        ensures kept { IsTrue result ↔ AreOwned self.now.shares.owners user (fps_in recipe.now.items) }
        ensures meaning { (shape : Shape) (list : List Command) → Remembers shape list (memory_of self.now)
            → IsTrue result ↔ All (Contains (user_view shape list user).own) (fps_in recipe.now.items) }
    {
        self.unowned_place(user, recipe).is_none()
    }
}
