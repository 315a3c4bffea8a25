//! The record of a Kept.

ghost use Rattle.std.specs.Prelude.{◌≡◌, ◌<◌, ◌≤◌, ℕ, List, length, IfErr, OnOk, MatchResult};
ghost use Rattle.record_checks.specs.RecordBody.Spelling.{Kept};
ghost use Rattle.record_checks.specs.CloudMemory.Rooms.{memory_of};
ghost use Rattle.record_checks.specs.CloudMemory.Steps.{with_kepts};
ghost use Rattle.record_checks.specs.Checks.{AreRightKepts, KeptsFault};
ghost use Rattle.first_records.specs.Limits.{HasFirstRooms, crowded};
ghost use Rattle.first_records.specs.Steps.{HasKeptsRoom, FirstJudgedAs, IsFaultWithin};

use crate::Ground;
use crate::errors::Fault;
use crate::limits::{if_past, shares_within};
use message_fields::Room;
use record_checks::{CloudMemory, KeptItems, kept_fault};

// The room that these shares would pass by their number.
fn crowded_by(memory: &CloudMemory, items: &KeptItems<'_>) -> Option<Room>
    requires { length items.now.items ≤ 256 }
    ensures { result ≡ crowded (memory_of memory.now) (Kept items.now.items) }
{
    let placed = u64::from(memory.placed()) + items.len() as u64;
    if_past(Room::Fps, placed)
}

// Takes the shares, up to the first at which a check fails; that gives the place of its field in the body.
fn take_items(
    memory: &mut CloudMemory,
    ground: &Ground,
    inside: bool,
    items: KeptItems<'_>,
) -> Result<(), usize>
    requires { HasKeptsRoom memory.old items.items }
    ensures right { MatchResult result (λ _. AreRightKepts ground.now inside (memory_of memory.old) items.entry.items)
        (λ place. KeptsFault ground.now inside (memory_of memory.old) items.entry.at items.entry.items place) }
    ensures taken { OnOk result (memory_of memory.new ≡ with_kepts (memory_of memory.old) items.entry.items) }
    ensures within { IfErr result (λ place. place < length items.entry.body) }
    ensures rooms { HasFirstRooms memory.new }
{
    let mut items = items;
    while let Some(found) = items.next() {
        let placed = memory.place_of(&found.item.fp).is_some();
        let end = memory.shares_end();
        match kept_fault(ground, inside, placed, end, &found) {
            Some(place) => return Err(place),
            None => memory.take_kept(&found.item),
        }
    }
    Ok(())
}

/// Takes the record of a Kept, or says what of it fails.
pub(crate) fn take_kept(
    memory: &mut CloudMemory,
    ground: &Ground,
    inside: bool,
    items: KeptItems<'_>,
) -> Result<(), Fault>
    requires rooms { HasFirstRooms memory.old }
    requires few { length items.items ≤ 256 }
    requires from { items.at ≡ 3 }
    ensures judged { (read : List ℕ) → FirstJudgedAs ground.now inside read (memory_of memory.old)
        (Kept items.entry.items) result (memory_of memory.new) }
    ensures within { IfErr result (IsFaultWithin (length items.entry.body)) }
    ensures rooms { HasFirstRooms memory.new }
{
    match crowded_by(memory, &items) {
        Some(room) => return Err(Fault::Passes(room)),
        None => {}
    }
    match take_items(memory, ground, inside, items) {
        Ok(()) => shares_within(memory),
        Err(place) => Err(Fault::Field(place)),
    }
}
