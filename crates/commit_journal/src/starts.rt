//! Starts of a journal's chains.

ghost use Rattle.std.specs.Prelude.{◌≡◌, ◌≢◌, ℕ, ◌+◌, ◌%◌, ◌≤◌, true, false};
ghost use Rattle.commit_journal.specs.Outcomes as outcomes;
ghost use Rattle.commit_journal.specs.States as states;

use journal_halves::{Checkpoint, CloudNo, Header, Shape, Start, UserRooms};

/// A start that is no journal's, before the first opening.
pub(crate) fn no_start() -> Start {
    Start {
        header: Header {
            format: 2,
            shape: Shape { n: 4, k: 3 },
            cloud: CloudNo(0),
            rooms: UserRooms::least(),
        },
        checkpoint: None,
    }
}

/// The first place of the number of records in a start's record.
pub(crate) fn records_place(start: &Start) -> u64
    ensures value { result ≡ outcomes.records_place start.now }
    ensures small { result ≤ 57 }
{
    if start.header.format == 1 { 29 } else { 57 }
}

/// The start that a checkpoint behind a chain has.
pub(crate) fn next_start(
    start: &Start,
    header: &Header,
    commands: u64,
    records: u32,
    region: u8,
) -> Start
    ensures { result ≡ states.next_start start.now header.now commands records region }
{
    Start {
        header: *header,
        checkpoint: Some(Checkpoint {
            epoch: (start.epoch() % 3 + 1) % 3,
            commands,
            records,
            region,
            recipes_end: 0,
        }),
    }
}

/// Whether two headers are the same.
pub(crate) fn is_same(one: &Header, two: &Header) -> bool
    ensures same { result ≡ true → one.now ≡ two.now }
    ensures other { result ≡ false → one.now ≢ two.now }
{
    *one == *two
}
