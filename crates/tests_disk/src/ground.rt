//! A cloud with a journal in two halves, and what is done with it.

ghost use Rattle.std.specs.Prelude.{◌≡◌};
ghost use Rattle.journal_start.specs.Ranges.{IsHeader};

use cd_base::{CloudNo, NoMemory, Shape};
use cd_edges::{Area, Shelf};
use cd_fakes::MemShelf;
use commit_journal::{Journal, OpenErr, RecordErr, Stage};
use journal_halves::HALF_LEN;
use journal_start::{Header, UserRooms};
use std::alloc::Global;

pub(crate) const ZERO: CloudNo = CloudNo(0);

/// Cloud 0 of four clouds of which three give a file back, in format 2 with the usual rooms.
pub(crate) fn header() -> Header
    ensures header { IsHeader result }
    ensures format { result.format ≡ 2 }
{
    Header {
        format: 2,
        shape: Shape { n: 4, k: 3 },
        cloud: ZERO,
        rooms: UserRooms::usual(),
    }
}

/// Why a journal wasn't read.
#[derive(Clone, Copy, PartialEq, Eq)]
pub(crate) enum Stop {
    Open(OpenErr),
    Next(RecordErr),
    TooMany,
}

/// A chain that was read: whether it lies in half 1, its epoch, and the first byte of each record, with zeros behind.
#[derive(Clone, Copy, PartialEq, Eq)]
pub(crate) struct Chain {
    pub second: bool,
    pub epoch: u64,
    pub records: [u8; 4],
}

// Notes the first byte of a record, where there is a place for it.
fn note(records: &mut [u8; 4], place: usize, body: &[u8]) {
    if place < 4 {
        if let [first, ..] = body {
            records[place] = *first;
        }
    }
}

/// The next record, where records may be to come.
pub(crate) fn next<V: Shelf>(journal: &mut Journal, shelf: &mut V) -> Result<bool, RecordErr> {
    match journal.stage() {
        Stage::Reading => journal.next(shelf, ZERO),
        Stage::Shut | Stage::AtEnd | Stage::Laying => Err(RecordErr::Failed),
    }
}

/// Reads on to the closed gate.
fn records_of<V: Shelf>(journal: &mut Journal, shelf: &mut V) -> Result<[u8; 4], Stop> {
    let mut records = [0; 4];
    for place in 0..5 {
        match next(journal, shelf) {
            Ok(true) => note(&mut records, place, journal.body()),
            Ok(false) => return Ok(records),
            Err(error) => return Err(Stop::Next(error)),
        }
    }
    Err(Stop::TooMany)
}

/// Opens the journal, and reads it to its end.
pub(crate) fn read<V: Shelf>(
    journal: &mut Journal,
    shelf: &mut V,
    begin: bool,
) -> Result<Chain, Stop> {
    match journal.reopen(shelf, ZERO, &header(), begin) {
        Ok(()) => {}
        Err(error) => return Err(Stop::Open(error)),
    }
    let epoch = journal.start().epoch();
    let records = records_of(journal, shelf)?;
    Ok(Chain {
        second: journal.body_at() >= HALF_LEN,
        epoch,
        records,
    })
}

/// Adds a record where it has room. Says whether it did.
pub(crate) fn add<V: Shelf>(journal: &mut Journal, shelf: &mut V, body: &[u8]) -> bool {
    if body.is_empty() || body.len() > 65_535 {
        return false;
    }
    if !journal.fits(body.len() as u32) {
        return false;
    }
    match journal.stage() {
        Stage::AtEnd => journal.append(shelf, ZERO, body).is_ok(),
        Stage::Shut | Stage::Reading | Stage::Laying => false,
    }
}

/// Begins a checkpoint of so many records where the journal is read to its end. Says whether it did.
pub(crate) fn turn<V: Shelf>(journal: &mut Journal, shelf: &mut V, records: u32) -> bool {
    match journal.stage() {
        Stage::AtEnd => journal
            .turn(shelf, ZERO, &header(), 600, records, 1)
            .is_ok(),
        Stage::Shut | Stage::Reading | Stage::Laying => false,
    }
}

/// Lays a record where one is to come and it has room. Says whether it did.
pub(crate) fn lay<V: Shelf>(journal: &mut Journal, shelf: &mut V, body: &[u8]) -> bool {
    if body.is_empty() || body.len() > 65_535 {
        return false;
    }
    let room = journal.limit().saturating_sub(journal.laid());
    if journal.to_lay() == 0 || room < body.len() as u64 + 5 {
        return false;
    }
    match journal.stage() {
        Stage::Laying => journal.lay(shelf, ZERO, body).is_ok(),
        Stage::Shut | Stage::Reading | Stage::AtEnd => false,
    }
}

/// Settles a checkpoint all of whose records are laid. Says whether it did.
pub(crate) fn settle<V: Shelf>(journal: &mut Journal, shelf: &mut V) -> bool {
    if journal.to_lay() != 0 {
        return false;
    }
    match journal.stage() {
        Stage::Laying => journal.settle(shelf, ZERO).is_ok(),
        Stage::Shut | Stage::Reading | Stage::AtEnd => false,
    }
}

/// A checkpoint of one record.
pub(crate) fn checkpoint<V: Shelf>(journal: &mut Journal, shelf: &mut V, byte: u8) -> bool {
    turn(journal, shelf, 1) && lay(journal, shelf, &[byte]) && settle(journal, shelf)
}

/// A cloud, its journal, and another one that opens it.
#[derive(Drop)]
pub(crate) struct Ground {
    pub shelf: MemShelf,
    pub journal: Journal,
    pub other: Journal,
}

impl Ground {
    /// With so many bytes in each half, and for all that is written.
    pub(crate) fn make(alloc: Global, room: u64) -> Result<Ground, NoMemory> {
        Ok(Ground {
            shelf: MemShelf::of(alloc, 1, room, 40_000, &[])?,
            journal: Journal::make(alloc, 8_000_000)?,
            other: Journal::make(alloc, 8_000_000)?,
        })
    }

    /// Makes the cloud empty.
    pub(crate) fn empty(&mut self) -> bool {
        self.journal.shut();
        self.shelf.fresh(ZERO).is_ok()
    }

    /// Writes bytes at a place of a half.
    pub(crate) fn put(&mut self, half: u8, place: u64, bytes: &[u8]) -> bool {
        let at = half as u64 * HALF_LEN + place.min(1_000_000);
        self.shelf.write(ZERO, Area::Journal, at, bytes).is_ok()
    }

    /// Whether another journal reads this chain.
    pub(crate) fn finds(&mut self, chain: Chain) -> bool {
        read(&mut self.other, &mut self.shelf, false) == Ok(chain)
    }

    /// Begins the journal anew, and makes so many checkpoints, one behind another, each with a record behind it. Where half 1 is
    /// to be there, half 0 has a last byte behind its chain, so that it can be read fast.
    pub(crate) fn is_at(&mut self, checkpoints: u8) -> bool {
        let begun = self.empty() && read(&mut self.journal, &mut self.shelf, true).is_ok();
        let mut well = begun && add(&mut self.journal, &mut self.shelf, &[1]);
        well = add(&mut self.journal, &mut self.shelf, &[2]) && well;
        if checkpoints > 0 {
            well = self.put(0, 70_000, &[9]) && well;
        }
        for number in 1..=checkpoints {
            let byte = number.min(20) * 10 + 1;
            well = checkpoint(&mut self.journal, &mut self.shelf, byte) && well;
            well = add(&mut self.journal, &mut self.shelf, &[byte + 1]) && well;
        }
        well
    }
}

/// What stands behind so many checkpoints.
pub(crate) fn chain_behind(checkpoints: u8) -> Chain {
    let byte = checkpoints.min(20) * 10 + 1;
    Chain {
        second: checkpoints % 2 == 1,
        epoch: (checkpoints % 3) as u64,
        records: [byte, byte + 1, 0, 0],
    }
}

/// What a crash makes of the bytes that weren't synced, and whether those past the synced length stay; or no crash.
#[derive(Clone, Copy)]
pub(crate) enum Crash {
    No,
    Comes { fill: u8, whole: bool },
}

pub(crate) const CRASHES: [Crash; 7] = [
    Crash::No,
    Crash::Comes {
        fill: 0,
        whole: true,
    },
    Crash::Comes {
        fill: 0,
        whole: false,
    },
    Crash::Comes {
        fill: 1,
        whole: true,
    },
    Crash::Comes {
        fill: 1,
        whole: false,
    },
    Crash::Comes {
        fill: 0xFF,
        whole: true,
    },
    Crash::Comes {
        fill: 0xFF,
        whole: false,
    },
];

/// Leaves the cloud as a crash leaves it. Says whether it did.
pub(crate) fn crashes(shelf: &mut MemShelf, crash: Crash) -> bool {
    match crash {
        Crash::No => true,
        Crash::Comes { fill, whole } => shelf.crash(ZERO, fill, whole),
    }
}
