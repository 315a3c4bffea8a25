//! Reading a start.

ghost use Rattle.std.specs.Prelude.{◌≡◌, ◌≤◌, ◌↔◌, length, Ok, Err, MatchResult, IfErr};
ghost use Rattle.message_fields.specs.Readings.{IsReadingSeenBy};
ghost use Rattle.journal_start.specs.declared.start.Start.{Start};
ghost use Rattle.journal_start.specs.Reading.{fields_of, fields_at, start_at, IsFaultPlaced};
ghost use Rattle.journal_start.specs.Spelling.{IsSpelled};
ghost use Rattle.journal_start.specs.Reading.{tail_at};

use crate::fields::{first_behind, front_of, rooms_of, second_behind};
use crate::{Checkpoint, Header, Start, StartFault, UserRooms};
use message_fields::Left;

// The rooms and the checkpoint, and what follows.
#[tactic(auto, unfolding(crate::specs::Reading::tail_at))]
fn tail_of(
    half: u8,
    format: u8,
    bytes: &[u8],
) -> Result<((UserRooms, Option<Checkpoint>), &[u8]), Left>
    ensures { IsReadingSeenBy (λ x. ((x.0.0, x.0.1), x.1.now)) result (tail_at half format bytes.now) }
{
    if format == 1 {
        let (checkpoint, rest) = first_behind(half, bytes)?;
        Ok(((UserRooms::usual(), checkpoint), rest))
    } else {
        let (rooms, rest) = rooms_of(bytes)?;
        let (checkpoint, rest) = second_behind(half, rest)?;
        Ok(((rooms, checkpoint), rest))
    }
}

// A start in this half, and what follows it.
#[tactic(auto, unfolding(crate::specs::Reading::fields_at))]
fn start_of(half: u8, bytes: &[u8]) -> Result<(Start, &[u8]), Left>
    ensures { IsReadingSeenBy (λ x. (fields_of x.0, x.1.now)) result (fields_at half bytes.now) }
{
    let ((format, shape, cloud), rest) = front_of(bytes)?;
    let ((rooms, checkpoint), rest) = tail_of(half, format, rest)?;
    let header = Header {
        format,
        shape,
        cloud,
        rooms,
    };
    Ok((Start { header, checkpoint }, rest))
}

// What is wrong, where so many bytes are left.
fn wrong(bytes: &[u8], left: usize) -> StartFault
    requires some { 1 ≤ left }
    requires within { left ≤ length bytes.now }
    ensures { result ≡ wrong_at bytes.now left }
{
    let place = bytes.len() - left;
    StartFault::Wrong {
        place,
        byte: bytes[place],
    }
}

ghost use Rattle.journal_start.specs.Reading.{wrong_at};

impl Start {
    /// The start that these bytes are, all of them, in half 0 or another half. Fields are read in order, and the first that
    /// fails gives the error: `Short` comes exactly where it lacks bytes; `Wrong` where its bytes are there and wrong, with
    /// its first place, or where all fields are read and bytes are left, with the place of the first of them.
    ///
    /// The letters are four fields. The format is 1 or 2. A pair n, k that is no shape is wrong at k's place, and a cloud
    /// that isn't below n at its own. In format 2 the first room that breaks its range or its product is wrong. In half 0
    /// bytes that end behind the header are a start without a checkpoint; any others have one, whose epoch is 0 to 2 and
    /// whose region is 0 or 1.
    #[tactic(auto, unfolding(crate::specs::Reading::start_at))]
    pub fn read(half: u8, body: &[u8]) -> Result<Start, StartFault>
        ensures reads { MatchResult result (λ start. start_at half body.now ≡ Ok (fields_of start))
            (λ fault. start_at half body.now ≡ Err fault) }
        // The bytes are read as the start that they are the spelling of, and no other bytes are read.
        ensures grammar { (start : Start) → (result ≡ Ok start) ↔ IsSpelled half body.now start }
        // The place of an error is one of the bytes.
        ensures within { IfErr result (λ fault. IsFaultPlaced (length body.now) fault) }
    {
        match start_of(half, body) {
            Ok((start, [])) => Ok(start),
            Ok((_, rest)) => Err(wrong(body, rest.len())),
            Err(Left(0)) => Err(StartFault::Short),
            Err(Left(left)) => Err(wrong(body, left)),
        }
    }
}
