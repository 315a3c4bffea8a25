//! Checkpoints that are written, in either half.

use cd_base::{CloudNo, NoMemory, Shape};
use cd_edges::{Area, Failed, Shelf};
use cd_fakes::MemShelf;
use commit_journal::CheckpointWriter;
use journal_halves::HALF_LEN;
use journal_start::{Checkpoint, Header, Start, UserRooms};
use mem_disk::Note;
use std::alloc::Global;
use std::test::Fail;

const ZERO: CloudNo = CloudNo(0);

// Cloud 0 of the shape 4, 3, in format 2 with the usual rooms: epoch 1, 2 commands, 2 records with the bodies 05 and 0607.
const WRITTEN: [u8; 76] = [
    1, 0, 0, 0, 57, 67, 68, 83, 84, 2, 4, 3, 0, 0, 0, 0, 16, 0, 0, 0, 0, 32, 0, 0, 0, 0, 0, 0, 0,
    4, 0, 0, 0, 0, 0, 128, 0, 0, 0, 4, 0, 0, 0, 0, 0, 0, 0, 0, 1, 0, 0, 0, 0, 0, 0, 0, 2, 0, 0, 0,
    2, 0, 1, 0, 0, 0, 1, 5, 1, 0, 0, 0, 2, 6, 7, 0,
];

fn start(records: u32) -> Start {
    Start {
        header: Header {
            format: 2,
            shape: Shape { n: 4, k: 3 },
            cloud: ZERO,
            rooms: UserRooms::usual(),
        },
        checkpoint: Some(Checkpoint {
            epoch: 1,
            commands: 2,
            records,
            region: 0,
            recipes_end: 0,
        }),
    }
}

// Lays a record where one is to come and there is room.
fn lay<V: Shelf>(writer: &mut CheckpointWriter, shelf: &mut V, body: &[u8]) -> Result<(), Failed> {
    if body.is_empty() || body.len() > 65_535 {
        return Err(Failed);
    }
    if writer.left() == 0 || writer.used() > 100_000_000 {
        return Err(Failed);
    }
    writer.lay(shelf, ZERO, body)
}

// Settles a checkpoint all of whose records are laid.
fn settle<V: Shelf>(writer: &mut CheckpointWriter, shelf: &mut V) -> Result<(), Failed> {
    if writer.left() != 0 {
        return Err(Failed);
    }
    writer.settle(shelf, ZERO)
}

// A checkpoint with two records in a half.
fn write_two<V: Shelf>(
    writer: &mut CheckpointWriter,
    shelf: &mut V,
    half: u8,
) -> Result<(), Failed> {
    writer.turn(shelf, ZERO, half.min(1), &start(2))?;
    lay(writer, shelf, &[5])?;
    lay(writer, shelf, &[6, 7])?;
    settle(writer, shelf)
}

// The first place of a half.
fn first_of(half: u8) -> u64 {
    half as u64 * HALF_LEN
}

// The first bytes of a half, with nines behind its end.
fn bytes_of<V: Shelf>(shelf: &mut V, half: u8) -> Result<[u8; 76], Failed> {
    let mut out = [9; 76];
    shelf.read(ZERO, Area::Journal, first_of(half), &mut out)?;
    Ok(out)
}

fn len(shelf: &mut MemShelf) -> Option<u64> {
    shelf.len(ZERO, Area::Journal).ok()
}

// How many calls on the cloud came, and how many writes and syncs of them were Ok.
fn calls(shelf: &MemShelf) -> (u64, u32, u32) {
    let mut writes = 0u32;
    let mut syncs = 0u32;
    let Some(cloud) = shelf.clouds.get(0) else {
        return (0, 0, 0);
    };
    for note in cloud.disk.notes.iter() {
        match note {
            Note::Wrote { .. } => writes = writes.saturating_add(1),
            Note::Synced { .. } => syncs = syncs.saturating_add(1),
            Note::Emptied | Note::Crashed { .. } => {}
        }
    }
    (cloud.calls, writes, syncs)
}

// Whether a checkpoint in a half, written twice, has these bytes each time, by so many calls: a read of the first place; a 0 there and
// a sync; the piece, a sync, the gate, a sync. An open gate is closed again.
fn is_written_twice(writer: &mut CheckpointWriter, shelf: &mut MemShelf, half: u8) -> bool {
    let (before, writes, syncs) = calls(shelf);
    let mut well = true;
    for _ in 0..2 {
        well = write_two(writer, shelf, half).is_ok() && well;
    }
    let made = calls(shelf)
        == (
            before.saturating_add(14),
            writes.saturating_add(6),
            syncs.saturating_add(6),
        );
    let end = first_of(half).saturating_add(76);
    well && made && bytes_of(shelf, half) == Ok(WRITTEN) && len(shelf) == Some(end)
}

fn in_each_half(alloc: Global, shelf: &mut MemShelf) -> Result<bool, NoMemory> {
    let mut writer = CheckpointWriter::make(alloc)?;
    let first = is_written_twice(&mut writer, shelf, 0);
    Ok(first && is_written_twice(&mut writer, shelf, 1))
}

#[test]
fn a_checkpoint_in_bytes(rt: HostRuntime) -> Result<(), Fail> {
    let mut shelf = MemShelf::of(rt.alloc(), 1, 400, 100, &[])?;
    let well = in_each_half(rt.alloc(), &mut shelf);
    drop(shelf);
    assert!(rt; well?);
    Ok(())
}

// How many records of 65,535 bytes there are, and by how many writes they go out. What waits goes out where the next record has no
// room behind it in 4 MiB: 63 records of 65,540 bytes and the start are less, 64 are more.
static PIECES: [(u32, u32); 3] = [(63, 3), (64, 4), (65, 4)];

// Whether so many records go out by so many writes.
fn goes_out(
    writer: &mut CheckpointWriter,
    shelf: &mut MemShelf,
    body: &[u8],
    row: (u32, u32),
) -> bool {
    let (records, wanted) = row;
    let (_, before, _) = calls(shelf);
    let mut well = writer.turn(shelf, ZERO, 0, &start(records)).is_ok();
    for _ in 0..records {
        well = lay(writer, shelf, body).is_ok() && well;
    }
    let used = records as u64 * 65_540 + 63;
    let counted = writer.used() == used;
    well = settle(writer, shelf).is_ok() && well && counted;
    let (_, writes, _) = calls(shelf);
    well && writes.saturating_sub(before) == wanted && len(shelf) == Some(used)
}

// Whether each row goes out so, over an area that is made empty before it.
fn all_go_out(writer: &mut CheckpointWriter, shelf: &mut MemShelf, body: &[u8]) -> bool {
    let mut well = true;
    for row in &PIECES {
        well = shelf.fresh(ZERO).is_ok() && goes_out(writer, shelf, body, *row) && well;
    }
    well
}

fn in_pieces(alloc: Global, shelf: &mut MemShelf) -> Result<bool, NoMemory> {
    let body = vec![in alloc; 5u8; 65_535]?;
    let mut writer = CheckpointWriter::make(alloc)?;
    Ok(all_go_out(&mut writer, shelf, &body))
}

#[test]
fn pieces_of_4_mib(rt: HostRuntime) -> Result<(), Fail> {
    let mut shelf = MemShelf::of(rt.alloc(), 1, 15_000_000, 60, &[])?;
    let well = in_pieces(rt.alloc(), &mut shelf);
    drop(shelf);
    assert!(rt; well?);
    Ok(())
}
