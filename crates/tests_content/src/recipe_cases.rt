//! The greatest recipe.

use cd_base::{Bytes, Fp, NoMemory, Shape};
use recipe::{Item, Items, Recipe, RecipeView};
use std::alloc::Global;
use std::test::Fail;

fn put_items(items: &mut Items) -> Result<(), NoMemory> {
    for _ in 0..32_768 {
        items.push(Item {
            fp: Fp([9; 32]),
            secret_len: 2_048,
        })?;
    }
    Ok(())
}

// A recipe of 32,768 secrets of 2,048 bytes each, the most.
fn greatest(alloc: Global) -> Result<Recipe, NoMemory> {
    let mut items = Items::new(alloc);
    put_items(&mut items)?;
    let mut name_share = Bytes::new(alloc);
    name_share.extend(&[7; 11])?;
    Ok(Recipe {
        name_len: 1,
        name_share,
        file_len: 67_108_864,
        items,
    })
}

fn is_viewed(shape: Shape, bytes: &[u8]) -> bool {
    bytes.len() <= 2_000_000 && RecipeView::check(shape, bytes).is_ok()
}

// Whether the recipe is written, and read again, by both readers.
fn is_read(alloc: Global, shape: Shape, recipe: &Recipe) -> Result<bool, NoMemory> {
    let mut bytes = Bytes::new(alloc);
    if !recipe.fits(shape) {
        return Ok(false);
    }
    recipe.write(&mut bytes)?;
    Ok(
        bytes.len() == 25 + 36 * 32_768
            && is_viewed(shape, bytes.as_slice())
            && is_read_whole(alloc, shape, bytes.as_slice()),
    )
}

fn is_read_whole(alloc: Global, shape: Shape, bytes: &[u8]) -> bool {
    bytes.len() <= 2_000_000 && Recipe::read(alloc, shape, bytes).is_ok()
}

#[test]
fn the_most_items(rt: HostRuntime) -> Result<(), Fail> {
    let recipe = greatest(rt.alloc())?;
    let well = is_read(rt.alloc(), Shape { n: 4, k: 3 }, &recipe);
    drop(recipe);
    assert!(rt; well?);
    Ok(())
}
