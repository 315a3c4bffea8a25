//! A recipe read where its bytes lie.

ghost use Rattle.std.specs.Prelude.{◌≡◌, ◌^◌, ◌*◌, ◌<◌, ◌≤◌, ◌↔◌, ℕ, length, slice_get, Ok, Err, IfOk};
ghost use Rattle.grammar.specs.CdBase.shape.Shape.{Shape};
ghost use Rattle.recipe.specs.Spelling.{IsRecipe, item_limit, spelling};
ghost use Rattle.recipe.specs.Reading.{ReadsRecipe, recipe_left, recipe_at};
ghost use Rattle.recipe.specs.InPlace.{Checks, Finds, first_item, items_in};
ghost use Rattle.recipe.specs.declared.recipe.Recipe.{Recipe};

use crate::reading::{BytesLeft, name_len_of, share_of, tail_of};
use crate::{Item, Items, Malformed, Recipe, RecipeErr};
use grammar::{Bytes, Fp, NoMemory, Shape};
use std::alloc::Global;
use std::marker::Model;

/// A recipe that lies in bytes. It takes no memory, and contracts see the recipe.
#[derive(Drop)]
pub struct RecipeView<'a> {
    bytes: &'a [u8],
    name_len: u16,
    name_share: &'a [u8],
    file_len: u64,
    count: u32,
    items: &'a [u8],
}

impl<'a> Model for RecipeView<'a> {
    ghost use Rattle.recipe.specs.declared.recipe.Recipe.{Recipe};
    ghost use Rattle.recipe.specs.InPlace.{items_in, LiesInSpelling};

    ghost Value = { Recipe };

    ghost view = { λ v. record {
      name_len = v.name_len;
      name_share = v.name_share.now;
      file_len = v.file_len;
      items = items_in v.count v.items.now;
    } };

    ghost invariant = { λ v. LiesInSpelling v.bytes.now v.count v.items.now (record {
      name_len = v.name_len;
      name_share = v.name_share.now;
      file_len = v.file_len;
      items = items_in v.count v.items.now;
    }) };
}

// The item that bytes begin with.
fn item_in(bytes: &[u8]) -> Item
    requires { 36 ≤ length bytes.now }
    ensures { result ≡ first_item bytes.now }
{
    let (front, rest) = bytes.split_at(32);
    let (len, _) = rest.split_at(4);
    let mut fp = [0; 32];
    fp.copy_from_slice(front);
    Item {
        fp: Fp(fp),
        secret_len: u32::from_be_bytes([len[0], len[1], len[2], len[3]]),
    }
}

#[tactic(auto, unfolding(crate::specs::Reading::recipe_left))]
fn view_of(shape: Shape, bytes: &[u8]) -> Result<RecipeView<'_>, BytesLeft>
    requires { length bytes.now < 2 ^ 32 }
    ensures { Finds (λ x. x) result (recipe_left shape bytes.now) }
{
    let (name_len, rest) = name_len_of(bytes)?;
    let (name_share, rest) = share_of(rest, shape, name_len)?;
    let tail = tail_of(rest)?;
    Ok(RecipeView {
        bytes,
        name_len,
        name_share,
        file_len: tail.file_len,
        count: tail.count,
        items: tail.items,
    })
}

impl<'a> RecipeView<'a> {
    /// The recipe that the bytes are, all of them, in a store of this shape. Malformed comes exactly where they are none:
    /// fields are read in order; one that lacks bytes gives the length of the bytes, one out of its range its first place;
    /// then bytes behind the items the place of the first of them; then a wrong sum the place of the file's length.
    #[tactic(auto, unfolding(crate::specs::Reading::recipe_at))]
    pub fn check(shape: Shape, bytes: &'a [u8]) -> Result<RecipeView<'a>, Malformed>
        requires { length bytes.now < 2 ^ 32 }
        ensures checks { Checks result (recipe_at shape bytes.now) }
        // Bytes are read as the recipe that they are the spelling of, and no other bytes are read.
        ensures grammar { (r : Recipe) → (recipe_at shape bytes.now ≡ Ok r) ↔ IsRecipe shape bytes.now r }
    {
        match view_of(shape, bytes) {
            Ok(view) => Ok(view),
            Err(BytesLeft(left)) => Err(Malformed {
                at: bytes.len().saturating_sub(left) as u32,
            }),
        }
    }

    /// The bytes, all of them: the recipe's one spelling.
    pub fn bytes(&self) -> &'a [u8]
        ensures { result.now ≡ spelling self.now }
    {
        self.bytes
    }

    /// The length of the file's path, in bytes.
    pub fn name_len(&self) -> u16
        ensures { result ≡ self.now.name_len }
    {
        self.name_len
    }

    /// The cloud's share of the path.
    pub fn name_share(&self) -> &'a [u8]
        ensures { result.now ≡ self.now.name_share }
    {
        self.name_share
    }

    /// The length of the file, in bytes.
    pub fn file_len(&self) -> u64
        ensures { result ≡ self.now.file_len }
    {
        self.file_len
    }

    /// How many items there are.
    pub fn count(&self) -> usize
        ensures { result ≡ length self.now.items }
    {
        self.count as usize
    }

    /// The item at a place, counted from 0, or None past the end. It is read where it lies, whatever its place is.
    pub fn item_at(&self, place: usize) -> Option<Item>
        ensures { result ≡ slice_get self.now.items place }
    {
        if place < self.count as usize {
            Some(item_in(&self.items[36 * place..]))
        } else {
            None
        }
    }

    /// The recipe in memory of its own. For want of memory nothing is made.
    pub fn to_recipe(&self, alloc: Global) -> Result<Recipe, NoMemory>
        ensures { IfOk result (λ recipe. recipe ≡ self.now) }
    {
        let mut name_share = Bytes::new(alloc);
        name_share.extend(self.name_share)?;
        let items = items_of(alloc, self.count, self.items)?;
        Ok(Recipe {
            name_len: self.name_len,
            name_share,
            file_len: self.file_len,
            items,
        })
    }
}

// So many items, in memory that is taken at once.
fn items_of(alloc: Global, count: u32, bytes: &[u8]) -> Result<Items, NoMemory>
    requires room { length bytes.now ≡ 36 * count }
    requires few { count ≤ item_limit }
    ensures { IfOk result (λ items. items ≡ items_in count bytes.now) }
{
    let mut items = Items::with_capacity(alloc, count as usize)?;
    for place in 0..count as usize {
        items.push(item_in(&bytes[36 * place..]))?;
    }
    Ok(items)
}

impl Recipe {
    /// The recipe that the bytes are, as `RecipeView::check` finds it, in memory of its own. Malformed comes exactly where
    /// that answers it, at the same place.
    pub fn read(alloc: Global, shape: Shape, bytes: &[u8]) -> Result<Recipe, RecipeErr>
        requires { length bytes.now < 2 ^ 32 }
        ensures reads { ReadsRecipe result (recipe_at shape bytes.now) }
        ensures malformed { (at : ℕ) → recipe_at shape bytes.now ≡ Err at → result ≡ Err (RecipeErr.Malformed at) }
        // Bytes are read as the recipe that they are the spelling of, and no other bytes are read.
        ensures grammar { (r : Recipe) → (recipe_at shape bytes.now ≡ Ok r) ↔ IsRecipe shape bytes.now r }
    {
        match RecipeView::check(shape, bytes) {
            Ok(view) => match view.to_recipe(alloc) {
                Ok(recipe) => Ok(recipe),
                Err(NoMemory) => Err(RecipeErr::NoMemory),
            },
            Err(fault) => Err(RecipeErr::Malformed { at: fault.at }),
        }
    }
}
