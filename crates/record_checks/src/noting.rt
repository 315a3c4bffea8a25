//! Damage in a body, and where the places of the farthest blobs stand.

ghost use Rattle.std.specs.Prelude.{◌≡◌, ◌+◌, ◌-◌, ◌<◌, ◌≤◌, ◌^◌, length, nat_lt, IfSome};
ghost use Rattle.cloud_memory.specs.CloudAreas.Placing.{end_of};
ghost use Rattle.cloud_memory.specs.RecordBody.FirstReading.{IsPlaced};
ghost use Rattle.record_checks.specs.Checks.{damaged_at, body_fault};
ghost use Rattle.record_checks.specs.Noting.{farther_field};

use crate::Damage;
use cloud_memory::{BodyErr, Place};

/// The damage at a byte of a body that begins at a place of the journal.
pub(crate) fn damaged(body: &[u8], at: u64, place: usize) -> Damage
    requires place { place < length body.now }
    requires end { at + length body.now < 2 ^ 64 }
    ensures { result ≡ damaged_at at body.now place }
{
    Damage {
        at: at + place as u64,
        byte: body[place],
    }
}

/// The damage of a body that is none. One that is too short is damaged at its length, which stands in 4 bytes before
/// it.
pub(crate) fn damaged_body(body: &[u8], at: u64, err: BodyErr) -> Damage
    requires few { length body.now ≤ 65535 }
    requires place { 5 ≤ at }
    requires end { at + length body.now < 2 ^ 64 }
    requires within { IsPlaced (length body.now) err }
    ensures { result ≡ body_fault at body.now err }
{
    match err {
        BodyErr::Field { at: place } => damaged(body, at, place),
        BodyErr::Short => Damage {
            at: at - 4,
            byte: 0,
        },
        BodyErr::Extra { at: place } => damaged(body, at, place),
    }
}

// Whether a blob at this place ends behind the end.
fn is_farther(end: u64, place: &Place) -> bool
    ensures { result ≡ nat_lt end (end_of place.now) }
{
    end < place.at || end - place.at < u64::from(place.len)
}

/// Keeps the place's field in the body, where the blob ends behind the end so far.
pub(crate) fn note(
    field: &mut Option<Damage>,
    end: u64,
    place: Option<Place>,
    body: &[u8],
    at: u64,
    place_at: usize,
)
    requires place { IfSome place (λ _. place_at < length body.now) }
    requires end { at + length body.now < 2 ^ 64 }
    ensures { field.new ≡ farther_field end field.old place (damaged_at at body.now place_at) }
{
    match place {
        Some(place) => {
            if is_farther(end, &place) {
                *field = Some(damaged(body, at, place_at));
            }
        }
        None => {}
    }
}
