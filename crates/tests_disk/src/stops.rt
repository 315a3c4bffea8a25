//! A stop in each device call of a checkpoint's settling, and a crash behind it.

use crate::ground::{
    CRASHES, Chain, Crash, Ground, ZERO, add, chain_behind, checkpoint, crashes, lay, settle, turn,
};
use cd_edges::Shelf;
use std::test::Fail;

// How far a gate's opening went.
#[derive(Clone, Copy)]
enum Gate {
    Closed,
    Written,
    Synced,
}

// Whether the gate reads 1 behind this crash: a byte that wasn't synced is what the crash makes of it.
fn is_open(gate: Gate, crash: Crash) -> bool {
    match gate {
        Gate::Closed => false,
        Gate::Synced => true,
        Gate::Written => match crash {
            Crash::No => true,
            Crash::Comes { fill, whole: _ } => fill == 1,
        },
    }
}

// The call that is cut, or 0; how many bytes of a write it keeps; and how far the gate came.
// The first write of a settling has all of the checkpoint but its first gate.
const SETTLE_STOPS: [(u32, u32, Gate); 9] = [
    (1, 0, Gate::Closed),
    (1, 30, Gate::Closed),
    (1, 67, Gate::Closed),
    (1, 68, Gate::Closed),
    (2, 0, Gate::Closed),
    (3, 0, Gate::Closed),
    (3, 1, Gate::Written),
    (4, 0, Gate::Written),
    (0, 0, Gate::Synced),
];

// Whether the other journal goes on from these checkpoints: one more, with a record behind it, which a crash leaves.
fn goes_on(ground: &mut Ground, checkpoints: u8, crash: Crash) -> bool {
    let number = checkpoints.min(20) + 1;
    let byte = number * 10 + 1;
    let well = checkpoint(&mut ground.other, &mut ground.shelf, byte)
        && add(&mut ground.other, &mut ground.shelf, &[byte + 1]);
    well && crashes(&mut ground.shelf, crash) && ground.finds(chain_behind(number))
}

// The settling of a checkpoint behind so many: the old chain stays, or the checkpoint's comes.
fn settles(ground: &mut Ground, checkpoints: u8, stop: (u32, u32, Gate), crash: Crash) -> bool {
    let (call, keep, gate) = stop;
    let number = checkpoints.min(20) + 1;
    let byte = number * 10 + 1;
    let ready = ground.is_at(checkpoints)
        && turn(&mut ground.journal, &mut ground.shelf, 1)
        && lay(&mut ground.journal, &mut ground.shelf, &[byte]);
    ground.shelf.arm(ZERO, call, keep);
    let settled = settle(&mut ground.journal, &mut ground.shelf) == (call == 0);
    let crashed = crashes(&mut ground.shelf, crash);
    let well = ready && settled && crashed;
    if !is_open(gate, crash) {
        return well
            && ground.finds(chain_behind(checkpoints))
            && goes_on(ground, checkpoints, crash);
    }
    let found = ground.finds(Chain {
        records: [byte, 0, 0, 0],
        ..chain_behind(number)
    });
    let added = add(&mut ground.other, &mut ground.shelf, &[byte + 1]);
    well && found && added && ground.finds(chain_behind(number)) && goes_on(ground, number, crash)
}

fn all_settlings(ground: &mut Ground) -> bool {
    let mut well = true;
    for checkpoints in 0..3 {
        for stop in SETTLE_STOPS {
            for crash in CRASHES {
                well = settles(ground, checkpoints, stop, crash) && well;
            }
        }
    }
    well
}

#[test]
fn stops_where_a_checkpoint_settles(rt: HostRuntime) -> Result<(), Fail> {
    let mut ground = Ground::make(rt.alloc(), 300_000)?;
    let well = all_settlings(&mut ground);
    drop(ground);
    assert!(rt; well);
    Ok(())
}
