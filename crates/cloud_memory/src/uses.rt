//! How often a user's entries name its fingerprints: item by item of a recipe.

ghost use Rattle.std.specs.Prelude.{◌≡◌, ◌<◌, length, slice_get, fold, All, Some, IsSome};
ghost use Rattle.std.specs.FinMap.{get};
ghost use Rattle.share_index.specs.Order.{owner_of};
ghost use Rattle.cloud_areas.specs.UserDedup.Owning.{fps_in};
ghost use Rattle.cloud_memory.specs.Steps.{with_use, without_use};
ghost use Rattle.cloud_memory.specs.Sharing.{AreOwned, KeepsPlaces};

use recipe::RecipeView;
use share_index::ShareIndex;
use spent_table::{Fp, UserId};

/// The fingerprint of the item at a place that there is.
pub(crate) fn fp_at(recipe: &RecipeView<'_>, place: usize) -> Fp
    requires { place < length recipe.now.items }
    ensures { slice_get (fps_in recipe.now.items) place ≡ Some result }
{
    match recipe.item_at(place) {
        Some(item) => item.fp,
        None => unreachable!(),
    }
}

// A fingerprint of the user's gets a use more, as far as 32 bits reach.
fn raise(shares: &mut ShareIndex, user: UserId, fp: &Fp)
    requires { IsSome (get shares.old.owners (owner_of user.0 fp.now.0)) }
    ensures owners { shares.new.owners ≡ with_use user shares.old.owners fp.now }
    ensures others { KeepsPlaces shares.old shares.new }
{
    match shares.uses(user, fp) {
        Some(uses) => {
            if uses < u32::MAX {
                shares.add_use(user, fp);
            }
        }
        None => unreachable!(),
    }
}

// A fingerprint loses a use, if it has one; with the last one the user owns it no more.
fn lower(shares: &mut ShareIndex, user: UserId, fp: &Fp)
    ensures owners { shares.new.owners ≡ without_use user shares.old.owners fp.now }
    ensures others { KeepsPlaces shares.old shares.new }
{
    shares.release(user, fp);
}

/// Each item's fingerprint, which the user owns, gets a use more.
pub(crate) fn raise_all(shares: &mut ShareIndex, user: UserId, recipe: &RecipeView<'_>)
    requires { AreOwned shares.old.owners user (fps_in recipe.now.items) }
    ensures owners { shares.new.owners ≡ fold (with_use user) shares.old.owners (fps_in recipe.now.items) }
    ensures others { KeepsPlaces shares.old shares.new }
{
    for place in 0..recipe.count() {
        raise(shares, user, &fp_at(recipe, place));
    }
}

/// Each item's fingerprint loses a use.
pub(crate) fn lower_all(shares: &mut ShareIndex, user: UserId, recipe: &RecipeView<'_>)
    ensures owners { shares.new.owners ≡ fold (without_use user) shares.old.owners (fps_in recipe.now.items) }
    ensures others { KeepsPlaces shares.old shares.new }
{
    for place in 0..recipe.count() {
        lower(shares, user, &fp_at(recipe, place));
    }
}
