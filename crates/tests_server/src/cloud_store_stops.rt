//! Each write and sync of a command stopped that brings a checkpoint, and of the opening behind it, with a crash behind each.

ghost use Rattle.cloud_store.specs.Store.{IsSettled};

use crate::commands::{Ground, ZERO};
use crate::walk::{is_left, step_of};
use cd_base::NoMemory;
use cd_edges::Shelf;
use cd_fakes::MemShelf;
use std::alloc::Global;
use std::test::Fail;

/// Which write or sync is cut, how many bytes of a write stay, and what a crash leaves of what wasn't synced.
#[derive(Clone, Copy)]
struct Case {
    call: u32,
    keep: u32,
    fill: u8,
    whole: bool,
}

// Adds commands until the next one doesn't fit. Says whether each was added.
fn fills(ground: &mut Ground, shelf: &mut MemShelf) -> bool
    requires { IsSettled ground.old.store }
    ensures { IsSettled ground.new.store }
{
    for _ in 0..200 {
        let number = ground.store.commands;
        let len = if number % 2 == 0 { 45 } else { 89 };
        if !ground.store.disk.fits(len) {
            return true;
        }
        if !ground.play(shelf, step_of(number)) {
            return false;
        }
    }
    false
}

// Opens the cloud again, and whether it has from so many commands to so many.
fn is_found(ground: &mut Ground, shelf: &mut MemShelf, least: u64, most: u64) -> bool
    requires { IsSettled ground.old.store }
    ensures { IsSettled ground.new.store }
{
    match ground.open(shelf) {
        Some(found) => least <= found && found <= most && is_left(&ground.store, found),
        None => false,
    }
}

// Stops an opening in one of its first two syncs. Says whether it was.
fn is_stopped(ground: &mut Ground, shelf: &mut MemShelf, call: u32) -> bool
    requires { IsSettled ground.old.store }
    ensures { IsSettled ground.new.store }
{
    shelf.arm(ZERO, call, 0);
    let stopped = ground.open(shelf).is_none();
    shelf.arm(ZERO, 0, 0);
    stopped
}

// A command that brings a checkpoint is stopped, and a crash comes, and the opening behind it is stopped too. Whether the cloud
// has the commands until then, or this one too; if it wasn't stopped, this one too.
fn is_kept(ground: &mut Ground, shelf: &mut MemShelf, case: Case) -> bool
    requires { IsSettled ground.old.store }
    ensures { IsSettled ground.new.store }
{
    let filled = fills(ground, shelf);
    let before = ground.store.commands;
    shelf.arm(ZERO, case.call, case.keep);
    let done = ground.play(shelf, step_of(before));
    shelf.arm(ZERO, 0, 0);
    let crashed = shelf.crash(ZERO, case.fill, case.whole);
    let stopped = is_stopped(ground, shelf, case.call % 2 + 1);
    let most = before.saturating_add(1);
    let least = if done { most } else { before };
    is_found(ground, shelf, least, most) && filled && crashed && stopped
}

// All cases of one call and one number of kept bytes.
fn are_kept(ground: &mut Ground, shelf: &mut MemShelf, call: u32, keep: u32) -> bool
    requires { IsSettled ground.old.store }
    ensures { IsSettled ground.new.store }
{
    let mut well = true;
    for fill in [0, 1, 0xEE] {
        for whole in [false, true] {
            let case = Case {
                call,
                keep,
                fill,
                whole,
            };
            well = is_kept(ground, shelf, case) && well;
        }
    }
    well
}

// All cases.
fn all_kept(ground: &mut Ground, shelf: &mut MemShelf) -> bool
    requires { IsSettled ground.old.store }
    ensures { IsSettled ground.new.store }
{
    let mut well = ground.open(shelf) == Some(0);
    for call in 1..20u32 {
        for keep in [0, 1, 30] {
            well = are_kept(ground, shelf, call, keep) && well;
        }
    }
    well
}

fn with_store(alloc: Global, shelf: &mut MemShelf) -> Result<bool, NoMemory> {
    let mut ground = Ground::make(alloc)?;
    Ok(all_kept(&mut ground, shelf))
}

#[test]
fn each_stop_of_a_checkpoint(rt: HostRuntime) -> Result<(), Fail> {
    let mut shelf = MemShelf::of(rt.alloc(), 1, 16_000_000, 400_000, &[])?;
    let well = with_store(rt.alloc(), &mut shelf);
    drop(shelf);
    assert!(rt; well?);
    Ok(())
}
