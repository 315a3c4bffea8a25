//! The start of one half, by what was read of it.

ghost use Rattle.std.specs.Prelude.{◌≡◌, ℕ, ◌+◌, ◌≤◌, List, length, take, drop, true, MatchResult, IfOk, IfErr};
ghost use Rattle.journal_halves.specs.Outcomes.{DamageIs};
ghost use Rattle.journal_halves.specs.declared.errors.RecordErr.TheVariants.{Damaged};
ghost use Rattle.journal_start.specs.Reading.{IsFaultPlaced};
ghost use Rattle.journal_halves.specs.Records.{window_len, is_begun};
ghost use Rattle.journal_halves.specs.Frames.{IsRecordAhead};
ghost use Rattle.journal_halves.specs.Halves.{half_len};
ghost use Rattle.journal_start.specs.Ranges.{IsStart};
ghost use Rattle.journal_start.specs.Spelling.{start_bytes};
ghost use Rattle.journal_halves.specs.Findings.{IsStartDamage, IsFaultAt};

use crate::{Frame, frame_of};
use journal_start::{Start, StartFault};

/// A place in a half that is wrong, and its byte.
#[derive(Clone, Copy)]
pub struct HalfDamage {
    pub at: u64,
    pub byte: u8,
}

// The damage of an open record with no body of a length and a next gate.
fn frame_damage(ahead: &[u8]) -> HalfDamage
    ensures small { result.at ≤ 1 }
    ensures damage { DamageIs ahead.now 0 (Damaged result.at result.byte) }
{
    match ahead {
        [_, byte, ..] => HalfDamage { at: 1, byte: *byte },
        _ => HalfDamage { at: 0, byte: 1 },
    }
}

// The damage of a body that is no start.
fn body_damage(fault: StartFault) -> HalfDamage
    requires { IsFaultPlaced 65535 fault }
    ensures small { result.at ≤ 65540 }
    ensures place { IsFaultAt fault result.at result.byte }
{
    match fault {
        StartFault::Short => HalfDamage { at: 1, byte: 0 },
        StartFault::Wrong { place, byte } => HalfDamage {
            at: place as u64 + 5,
            byte,
        },
    }
}

// The body within a record that was read.
fn body_in(ahead: &[u8], len: usize) -> &[u8]
    requires { len + 5 ≤ length ahead.now }
    ensures { result.now ≡ take len (drop 5 ahead.now) }
{
    let (_, rest) = ahead.split_at(5);
    let (body, _) = rest.split_at(len);
    body
}

/// The start with which a half begins, of whose places as many were read as are there, up to 65,541, and of which the first
/// holds 1; or its damage: where no length from 1 to 65,535 with so many bytes and a next gate follow in the half, the
/// first place of the length and its byte, or where the first place is all there is, that and 1; else the first wrong place
/// of the body, or the first place of the length where the body is too short.
pub fn read_start(half: u8, ahead: &[u8]) -> Result<Start, HalfDamage>
    ensures small { IfErr result (λ damage. damage.at ≤ 65540) }
    ensures is_start { IfOk result (λ start. IsStart half start) }
    ensures start { (rest : List ℕ) → ahead.now ≡ take window_len rest → length rest ≤ half_len → is_begun rest ≡ true
        → MatchResult result
        (λ start. IsStart half start × IsRecordAhead rest (start_bytes start))
        (λ damage. IsStartDamage half rest damage.at damage.byte) }
{
    match frame_of(ahead) {
        Frame::Record { len } => match Start::read(half, body_in(ahead, len)) {
            Ok(start) => Ok(start),
            Err(fault) => Err(body_damage(fault)),
        },
        Frame::Closed => Err(frame_damage(ahead)),
        Frame::BadLength => Err(frame_damage(ahead)),
        Frame::Short => Err(frame_damage(ahead)),
    }
}
