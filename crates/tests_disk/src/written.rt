//! Journals that are written by hand, in both halves.

use crate::ground::{Chain, Ground, Stop, header, read};
use cd_base::CloudNo;
use commit_journal::{OpenErr, RecordErr};
use journal_halves::HALF_LEN;
use journal_start::Header;
use std::test::Fail;

// The start of a checkpoint: epoch 0 from place 41 on, 600 commands from 49, no records from 57, region 1 at 61.
const LATER: [u8; 63] = [
    1, 0, 0, 0, 57, 67, 68, 83, 84, 2, 4, 3, 0, 0, 0, 0, 16, 0, 0, 0, 0, 32, 0, 0, 0, 0, 0, 0, 0,
    4, 0, 0, 0, 0, 0, 128, 0, 0, 0, 4, 0, 0, 0, 0, 0, 0, 0, 0, 0, 0, 0, 0, 0, 0, 0, 2, 88, 0, 0, 0,
    0, 1, 0,
];

// What is read: so many records, or damage, whose place is counted from the half's first place.
#[derive(Clone, Copy, PartialEq, Eq)]
enum Answer {
    Records(u8),
    Damaged(u64, u8),
    NotBegun,
    OtherCloud,
    Other,
}

fn damage(half: u8, at: u64, byte: u8) -> Answer {
    let first = half as u64 * HALF_LEN;
    if at < first {
        return Answer::Other;
    }
    Answer::Damaged(at - first, byte)
}

// How many records a chain has.
fn count(chain: Chain) -> u8 {
    let mut count = 0u8;
    for byte in chain.records {
        if byte != 0 {
            count = count.saturating_add(1);
        }
    }
    count
}

// What is read of the journal, with places counted from this half's first place.
fn found_in(ground: &mut Ground, half: u8) -> Answer {
    match read(&mut ground.journal, &mut ground.shelf, false) {
        Ok(chain) => Answer::Records(count(chain)),
        Err(Stop::Open(OpenErr::Damaged { at, byte })) => damage(half, at, byte),
        Err(Stop::Next(RecordErr::Damaged { at, byte })) => damage(half, at, byte),
        Err(Stop::Open(OpenErr::NotBegun { len: _ })) => Answer::NotBegun,
        Err(Stop::Open(OpenErr::OtherStore { found, asked, at })) => other(half, found, asked, at),
        Err(Stop::Open(OpenErr::Fault)) => Answer::Other,
        Err(Stop::Next(RecordErr::Failed)) => Answer::Other,
        Err(Stop::TooMany) => Answer::Other,
    }
}

// The journal of cloud 1 of this store, whose header's body begins five places behind the half's first.
fn other(half: u8, found: Header, asked: Header, at: u64) -> Answer {
    let first = half as u64 * HALF_LEN;
    let one = Header {
        cloud: CloudNo(1),
        ..header()
    };
    if asked == header() && found == one && at == first + 5 {
        return Answer::OtherCloud;
    }
    Answer::Other
}

// Writes a start into a half, with another byte at one place, and these bytes from its closed gate on.
fn puts(ground: &mut Ground, half: u8, start: &[u8], changed: (u64, u8), behind: &[u8]) -> bool {
    let (place, byte) = changed;
    let gate = start.len().saturating_sub(1) as u64;
    ground.put(half, 0, start) && ground.put(half, place, &[byte]) && ground.put(half, gate, behind)
}

// What stands from a checkpoint's closed gate on, and what is read then.
const RECORDS: [(&[u8], Answer); 15] = [
    (&[0], Answer::Records(0)),
    (&[2, 0, 0, 0, 1, 5, 1], Answer::Records(0)),
    (&[0xFF], Answer::Records(0)),
    (&[1, 0, 0, 0, 1, 5, 0], Answer::Records(1)),
    (
        &[1, 0, 0, 0, 1, 5, 1, 0, 0, 0, 2, 6, 7, 0],
        Answer::Records(2),
    ),
    (&[1, 0, 0, 0, 1, 5, 0, 1, 0, 0, 0, 9], Answer::Records(1)),
    (&[1], Answer::Damaged(62, 1)),
    (&[1, 7], Answer::Damaged(63, 7)),
    (&[1, 0, 0, 0, 0], Answer::Damaged(63, 0)),
    (&[1, 0, 0, 0, 1], Answer::Damaged(63, 0)),
    (&[1, 0, 0, 0, 1, 5], Answer::Damaged(63, 0)),
    (&[1, 0, 0, 0, 2, 5, 0], Answer::Damaged(63, 0)),
    (&[1, 0, 1, 0, 0, 5, 0], Answer::Damaged(63, 0)),
    (&[1, 0, 0, 0, 1, 5, 1], Answer::Damaged(68, 1)),
    (&[1, 0, 0, 0, 1, 5, 1, 9, 0], Answer::Damaged(69, 9)),
];

fn are_read(ground: &mut Ground, half: u8) -> bool {
    let mut well = true;
    for (behind, wanted) in RECORDS {
        well = ground.empty() && puts(ground, half, &LATER, (0, 1), behind) && well;
        well = found_in(ground, half) == wanted && well;
    }
    well
}

#[test]
fn records_in_each_half(rt: HostRuntime) -> Result<(), Fail> {
    let mut ground = Ground::make(rt.alloc(), 20_000)?;
    let well = are_read(&mut ground, 0) && are_read(&mut ground, 1);
    drop(ground);
    assert!(rt; well);
    Ok(())
}
