//! What is answered of a record that isn't taken.

ghost use Rattle.std.specs.Prelude.{◌≡◌, ◌+◌, ◌<◌, ◌≤◌, ◌^◌, length};
ghost use Rattle.record_checks.specs.RecordBody.FirstReading.{IsPlaced};
ghost use Rattle.record_checks.specs.Checks.{damaged_at, body_fault};
ghost use Rattle.first_records.specs.Judging.{err_of};
ghost use Rattle.first_records.specs.Steps.{IsFaultWithin};

use crate::FirstErr;
use crate::errors::Fault;
use crate::limits::limit_of;
use record_checks::{BodyErr, Damage};

/// The damage at a byte of a body that begins at a place of the journal.
pub(crate) fn damaged(body: &[u8], at: u64, place: usize) -> Damage
    requires place { place < length body.now }
    requires end { at + length body.now < 2 ^ 64 }
    ensures { result ≡ damaged_at at body.now place }
{
    Damage {
        at: at + place as u64,
        byte: body[place],
    }
}

/// The damage of a body that is none. One that is too short is damaged at its length, which stands in 4 bytes before
/// it.
pub(crate) fn damaged_body(body: &[u8], at: u64, err: BodyErr) -> Damage
    requires few { length body.now ≤ 65535 }
    requires place { 5 ≤ at }
    requires end { at + length body.now < 2 ^ 64 }
    requires within { IsPlaced (length body.now) err }
    ensures { result ≡ body_fault at body.now err }
{
    match err {
        BodyErr::Field { at: place } => damaged(body, at, place),
        BodyErr::Short => Damage {
            at: at - 4,
            byte: 0,
        },
        BodyErr::Extra { at: place } => damaged(body, at, place),
    }
}

/// The answer for what fails of a record. Its gate stands in 5 bytes before its body, with the length.
pub(crate) fn answer_for(body: &[u8], at: u64, fault: Fault) -> FirstErr
    requires place { 5 ≤ at }
    requires end { at + length body.now < 2 ^ 64 }
    requires within { IsFaultWithin (length body.now) fault }
    ensures { result ≡ err_of at body.now fault }
{
    match fault {
        Fault::Field(place) => FirstErr::Damaged(damaged(body, at, place)),
        Fault::Passes(room) => FirstErr::RoomsTooSmall {
            room,
            limit: limit_of(room),
            at: at - 5,
        },
    }
}
