//! Tests of journal_start.

use cd_base::{CloudNo, Shape};
use journal_start::{Checkpoint, Header, Start, UserRooms};
use std::test::Fail;

// Cloud 2 of the shape 4, 3, in format 1.
const FIRST: [u8; 8] = [67, 68, 83, 84, 1, 4, 3, 2];

// Its checkpoint: epoch 2, 600 commands, 3 records, recipes up to 4,194,304.
const FIRST_CHECKPOINT: [u8; 36] = [
    67, 68, 83, 84, 1, 4, 3, 2, 0, 0, 0, 0, 0, 0, 0, 2, 0, 0, 0, 0, 0, 0, 2, 88, 0, 0, 0, 3, 0, 0,
    0, 0, 0, 64, 0, 0,
];

// The same cloud in format 2, with the usual rooms.
const SECOND: [u8; 36] = [
    67, 68, 83, 84, 2, 4, 3, 2, 0, 0, 0, 16, 0, 0, 0, 0, 32, 0, 0, 0, 0, 0, 0, 0, 4, 0, 0, 0, 0, 0,
    128, 0, 0, 0, 4, 0,
];

// Its checkpoint: epoch 1, 600 commands, 3 records, region 1.
const SECOND_CHECKPOINT: [u8; 57] = [
    67, 68, 83, 84, 2, 4, 3, 2, 0, 0, 0, 16, 0, 0, 0, 0, 32, 0, 0, 0, 0, 0, 0, 0, 4, 0, 0, 0, 0, 0,
    128, 0, 0, 0, 4, 0, 0, 0, 0, 0, 0, 0, 0, 1, 0, 0, 0, 0, 0, 0, 2, 88, 0, 0, 0, 3, 1,
];

fn header(format: u8, shape: Shape) -> Header {
    Header {
        format,
        shape,
        cloud: CloudNo(2),
        rooms: UserRooms::usual(),
    }
}

fn start(format: u8, checkpoint: Option<Checkpoint>) -> Start {
    Start {
        header: header(format, SHAPE),
        checkpoint,
    }
}

// The checkpoint in format 1, and that in format 2.
fn of_first() -> Option<Checkpoint> {
    Some(Checkpoint {
        epoch: 2,
        commands: 600,
        records: 3,
        region: 0,
        recipes_end: 4_194_304,
    })
}

fn of_second() -> Option<Checkpoint> {
    Some(Checkpoint {
        epoch: 1,
        commands: 600,
        records: 3,
        region: 1,
        recipes_end: 0,
    })
}

const SHAPE: Shape = Shape { n: 4, k: 3 };

// Whether a start has these bytes, and they are read as it in this half.
fn stands(start: Start, half: u8, bytes: &[u8]) -> bool {
    start.bytes().as_slice() == bytes && Start::read(half, bytes) == Ok(start)
}

#[test]
fn each_start_both_ways(rt: HostRuntime) -> Result<(), Fail> {
    assert!(rt; stands(start(1, None), 0, &FIRST));
    assert!(rt; stands(start(2, None), 0, &SECOND));
    for half in 0..2 {
        assert!(rt; stands(start(1, of_first()), half, &FIRST_CHECKPOINT));
        assert!(rt; stands(start(2, of_second()), half, &SECOND_CHECKPOINT));
    }
    Ok(())
}
