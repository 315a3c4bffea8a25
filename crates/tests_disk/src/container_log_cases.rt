//! The containers that a log keeps, by the calls of its reads.

use cd_base::{CloudNo, NoMemory};
use cd_edges::{Area, Shelf};
use cd_fakes::MemShelf;
use container_log::Log;
use std::alloc::Global;
use std::test::Fail;

const TWO: CloudNo = CloudNo(2);

// A read of the eleven bytes of the container of this number gives them all by so many calls.
type Read = (u8, u64);

// How many calls on the cloud came.
fn calls(shelf: &MemShelf) -> u64 {
    match shelf.clouds.get(2) {
        Some(cloud) => cloud.calls,
        None => 0,
    }
}

// How many bytes a read gives.
fn count_of_read(log: &mut Log, shelf: &mut MemShelf, place: u64, out: &mut [u8]) -> Option<usize> {
    log.read(shelf, TWO, place, out).ok()
}

// Whether a read comes out so.
fn is_read(log: &mut Log, shelf: &mut MemShelf, read: Read) -> bool {
    let (number, wanted) = read;
    let mut out = [0; 11];
    let before = calls(shelf);
    let count = count_of_read(log, shelf, number as u64 * 4_194_304, &mut out);
    let made = calls(shelf).saturating_sub(before);
    count == Some(11) && out == [number.saturating_add(1); 11] && made == wanted
}

fn is_written(shelf: &mut MemShelf, number: u8) -> bool {
    let place = number as u64 * 4_194_304;
    shelf
        .write(TWO, Area::Recipes, place, &[number.saturating_add(1); 11])
        .is_ok()
}

// Five containers have a blob of eleven bytes each, of the number behind the container's, and the last is short.
fn are_five(shelf: &mut MemShelf) -> bool {
    let mut well = true;
    for number in 0..5u8 {
        well = is_written(shelf, number) && well;
    }
    well
}

static READS: [Read; 24] = [
    (0, 1),
    (1, 1),
    (2, 1),
    (3, 1),
    (0, 0),
    (1, 0),
    (2, 0),
    (3, 0),
    // The first one goes for the fifth, which is short.
    (4, 1),
    (1, 0),
    (2, 0),
    (3, 0),
    (4, 0),
    (0, 1),
    (1, 1),
    (0, 0),
    (3, 0),
    (1, 0),
    // The short one goes for a whole one.
    (2, 1),
    (3, 0),
    (1, 0),
    (0, 0),
    (2, 0),
    (4, 1),
];

fn are_read(log: &mut Log, shelf: &mut MemShelf) -> bool {
    log.reset(16_777_227);
    let mut well = true;
    for read in &READS {
        well = is_read(log, shelf, *read) && well;
    }
    well
}

// Whether a log that keeps four containers reads them so.
fn are_kept(alloc: Global, shelf: &mut MemShelf) -> Result<bool, NoMemory> {
    let mut log = Log::make(alloc, Area::Recipes, 16_777_300, 4)?;
    Ok(are_read(&mut log, shelf))
}

#[test]
fn the_oldest_of_four_goes_for_a_fifth(rt: HostRuntime) -> Result<(), Fail> {
    let mut shelf = MemShelf::of(rt.alloc(), 3, 16_777_300, 100, &[])?;
    let well = are_five(&mut shelf);
    let kept = are_kept(rt.alloc(), &mut shelf);
    drop(shelf);
    assert!(rt; well && kept?);
    Ok(())
}
