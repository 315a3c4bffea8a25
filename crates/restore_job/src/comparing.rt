//! Comparing the recipes of a file.

ghost use Rattle.std.specs.Prelude.{◌≡◌, ◌+◌, ◌≤◌, ◌<◌, ◌^◌, length, OnOk, All, option_map};
ghost use Rattle.user_dedup.specs.CdBase.Numbers.{numbers_of};
ghost use Rattle.user_dedup.specs.Recipe.Spelling.{item_limit};
ghost use Rattle.restore_job.specs.Restored.{items_difference, difference};
ghost use Rattle.restore_job.specs.Steps.{Compares, NextPair};

use crate::RestoreErr;
use user_dedup::{CloudNo, Item, Recipe};

// Two items that stand first, and those behind them.
fn next_pair<'a>(one: &'a [Item], other: &'a [Item]) -> Option<(u32, u32, &'a [Item], &'a [Item])>
    ensures { NextPair one.now other.now (option_map (λ x. (x.0, x.1, x.2.now, x.3.now)) result) }
{
    match one {
        [] => None,
        [a, more @ ..] => match other {
            [] => None,
            [b, rest @ ..] => Some((a.secret_len, b.secret_len, more, rest)),
        },
    }
}

// The first place from here on at which the lengths of secrets differ.
fn items_differ(first: u32, one: &[Item], other: &[Item]) -> Option<u32>
    requires few { first + length one.now < 2 ^ 32 }
    ensures { result ≡ items_difference first one.now other.now }
{
    let mut place = first;
    let mut ones = one;
    let mut others = other;
    'items: loop {
        let Some((a, b, more, rest)) = next_pair(ones, others) else {
            return None;
        };
        if a != b {
            return Some(place);
        }
        place += 1;
        ones = more;
        others = rest;
    }
}

// The first place in which two recipes differ.
fn differ(one: &Recipe, other: &Recipe) -> Option<u32>
    requires few { length one.now.items ≤ item_limit }
    ensures { result ≡ difference one.now other.now }
{
    if one.name_len != other.name_len {
        return Some(0);
    }
    if one.file_len != other.file_len {
        return Some(1);
    }
    if one.items.len() != other.items.len() {
        return Some(2);
    }
    items_differ(3, one.items.as_slice(), other.items.as_slice())
}

/// Compares recipes of other clouds, in order, with that of the first one. RecipesDiffer comes exactly where one differs,
/// of the first such with the first place; no other error comes.
pub fn compare(
    first: CloudNo,
    recipe: &Recipe,
    clouds: &[CloudNo],
    recipes: &[Recipe],
) -> Result<(), RestoreErr>
    requires few { length recipe.now.items ≤ item_limit }
    requires pairs { length clouds.now ≡ length recipes.now }
    ensures compares { Compares first.0 recipe.now (numbers_of clouds.now) recipes.now result }
    ensures counts { OnOk result (All (λ other. length other.items ≡ length recipe.now.items) recipes.now) }
{
    match (clouds, recipes) {
        ([cloud, clouds @ ..], [other, recipes @ ..]) => match differ(recipe, other) {
            Some(place) => Err(RestoreErr::RecipesDiffer {
                cloud_a: first,
                cloud_b: *cloud,
                place,
            }),
            None => compare(first, recipe, clouds, recipes),
        },
        _ => Ok(()),
    }
}
