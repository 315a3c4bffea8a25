//! Recipes: what a cloud knows of a file.
#![tactic(auto)]

mod items;
pub mod laws;
mod reading;
mod recipe;
mod rules;
mod view;
mod writing;

pub use grammar::{
    Bytes, CloudNo, Clouds, Fp, NoMemory, Place, Shape, Tag, UserId, Version, sha256,
};
pub use items::{Item, Items};
pub use recipe::{Malformed, Recipe, RecipeErr};
pub use rules::ITEM_LIMIT;
pub use view::RecipeView;
