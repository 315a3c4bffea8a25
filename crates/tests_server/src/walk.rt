//! The commands of the tests in their order, and what they leave.

use crate::commands::{Step, TAG, USER};
use cd_base::Version;
use cloud_store::CloudStore;

/// The commands in their order: a Put of each share, a version, and then in turn a version more and a Delete of the one before it.
pub(crate) fn step_of(number: u64) -> Step {
    let half = number / 2;
    let version = match number {
        0 => return Step::Put(1),
        1 => return Step::Put(2),
        2 => 0,
        _ if number % 2 == 1 => half,
        _ => half.wrapping_sub(2),
    };
    let first = if version % 2 == 0 { 1 } else { 2 };
    if number > 2 && number % 2 == 0 {
        Step::Delete(version, first)
    } else {
        Step::Commit(version, first)
    }
}

/// Whether the store has what is left of so many commands: the newest version, and the one before it while that isn't deleted.
pub(crate) fn is_left(store: &CloudStore, count: u64) -> bool {
    let commits = if count > 2 { count / 2 } else { 0 };
    let newest = commits.wrapping_sub(1);
    let last = store.memory.entry(USER, &TAG, Version(newest));
    let older = store
        .memory
        .entry(USER, &TAG, Version(newest.wrapping_sub(1)));
    let spent = store.memory.spent(USER);
    store.commands == count
        && last.is_some() == (count > 2)
        && older.is_some() == (count > 2 && count % 2 == 0)
        && u64::from(spent.owners) == count.min(2)
        && spent.recipes == commits.wrapping_mul(97)
}
