//! Finding the current half of a journal.

ghost use Rattle.std.specs.Prelude.{◌≡◌, ℕ, ◌≤◌, List, length, take, IsTrue, Option, Ok, IfOk, IfSome};
ghost use Rattle.journal_start.specs.Ranges.{IsStart};
ghost use Rattle.cd_edges.specs.declared.area.Area.{Area};
ghost use Rattle.cd_edges.specs.Shelf.{IsCall, HasFailed, KeepsCounts, Stays};
ghost use Rattle.journal_halves.specs.Records.{window_len, is_begun};
ghost use Rattle.journal_halves.specs.Halves.{half_of};
ghost use Rattle.journal_start.specs.declared.start.Start.{Start};
ghost use Rattle.journal_halves.specs.Findings.{LookIs, FindIs, OnFindFault};
ghost use Rattle.journal_halves.specs.Findings as findings;
ghost use Rattle.journal_halves.specs.Choices.{AnswerIs, IsChosen};

use crate::choice::{Choice, choose};
use crate::record::{HalfDamage, read_start};
use crate::{FindErr, Found, HALF_LEN};
use cd_edges::{Area, CloudNo, Failed, Shelf};
use journal_start::Start;

// Whether the bytes begin a half.
fn begins(bytes: &[u8]) -> bool
    ensures { result ≡ is_begun bytes.now }
{
    match bytes {
        [gate, _, ..] => *gate == 1,
        _ => false,
    }
}

// What a half begins with, by what was read of it.
fn judge(half: u8, ahead: &[u8]) -> Result<Option<Start>, FindErr>
    requires { half ≤ 1 }
    ensures looks { (journal : List ℕ) → ahead.now ≡ take window_len (half_of half journal)
        → LookIs journal half result }
    ensures start { IfOk result (λ found. IfSome found (IsStart half)) }
    ensures handled { OnFindFault result ⊥ (Unit {0}) }
{
    if !begins(ahead) {
        return Ok(None);
    }
    match read_start(half, ahead) {
        Ok(start) => Ok(Some(start)),
        Err(HalfDamage { at, byte }) => Err(FindErr::Damaged {
            at: half as u64 * HALF_LEN + at,
            byte,
        }),
    }
}

// What a half begins with.
fn look<V: Shelf>(
    shelf: &mut V,
    cloud: CloudNo,
    half: u8,
    window: &mut [u8],
) -> Result<Option<Start>, FindErr>
    requires half { half ≤ 1 }
    requires window { length window.old ≡ window_len }
    ensures found { IsTrue (V.cloud_at shelf.old cloud.0).told
        → LookIs ((V.cloud_at shelf.old cloud.0).now Area.Journal).read half result }
    ensures start { IfOk result (λ found. IfSome found (IsStart half)) }
    ensures stays { Stays (V.cloud_at shelf.old cloud.0) (V.cloud_at shelf.new cloud.0) }
    ensures call { IsCall (V.cloud_at shelf.old) (V.cloud_at shelf.new) cloud.0
        (V.faults shelf.old) (V.faults shelf.new) }
    ensures counts { OnFindFault result
        (HasFailed (V.cloud_at shelf.old cloud.0) (V.cloud_at shelf.new cloud.0)
        (V.faults shelf.old) (V.faults shelf.new))
        (KeepsCounts (V.cloud_at shelf.old cloud.0) (V.cloud_at shelf.new cloud.0)
        (V.faults shelf.old) (V.faults shelf.new)) }
{
    match shelf.read(cloud, Area::Journal, half as u64 * HALF_LEN, window) {
        Err(Failed) => Err(FindErr::Fault),
        Ok(count) => {
            let (ahead, _) = window.split_at(count);
            judge(half, ahead)
        }
    }
}

// The first place of the epoch in a start's record.
fn epoch_place(start: &Start) -> u64
    ensures value { result ≡ findings.epoch_place start.now }
    ensures small { result ≤ 41 }
{
    if start.header.format == 1 { 13 } else { 41 }
}

// The answer for what was chosen.
fn answer<V: Shelf>(shelf: &mut V, cloud: CloudNo, choice: Choice) -> Result<Found, FindErr>
    ensures found { IsTrue (V.cloud_at shelf.old cloud.0).told → (first second : Option Start)
        → AnswerIs ((V.cloud_at shelf.old cloud.0).now Area.Journal).read first second choice result }
    ensures start { (first second : Option Start) → IsChosen first second choice → IfSome first (IsStart 0)
        → IfSome second (IsStart 1) → IfOk result (λ found. IsStart found.half found.start) }
    ensures stays { Stays (V.cloud_at shelf.old cloud.0) (V.cloud_at shelf.new cloud.0) }
    ensures call { IsCall (V.cloud_at shelf.old) (V.cloud_at shelf.new) cloud.0
        (V.faults shelf.old) (V.faults shelf.new) }
    ensures counts { OnFindFault result
        (HasFailed (V.cloud_at shelf.old cloud.0) (V.cloud_at shelf.new cloud.0)
        (V.faults shelf.old) (V.faults shelf.new))
        (KeepsCounts (V.cloud_at shelf.old cloud.0) (V.cloud_at shelf.new cloud.0)
        (V.faults shelf.old) (V.faults shelf.new)) }
{
    match choice {
        Choice::Current(found) => Ok(found),
        Choice::Equal(start) => Err(FindErr::Damaged {
            at: HALF_LEN + epoch_place(&start),
            byte: 0,
        }),
        Choice::Neither => match shelf.len(cloud, Area::Journal) {
            Ok(len) => Err(FindErr::NotBegun { len }),
            Err(Failed) => Err(FindErr::Fault),
        },
    }
}

/// Finds the current half of a cloud's journal, and its start: of the halves that are begun the only one, or the one whose
/// epoch is the other's plus 1 modulo 3. It reads each half's first record, through a window of 65,541 bytes.
///
/// NotBegun comes exactly where no half is begun, with the area's length. Damaged comes exactly where the start of a half
/// that is begun is damaged, half 0 first, or both have one epoch: by the frame, the first place of the length and its byte
/// (or the gate's place and 1, where it is all there is); by the body, its first wrong field or a byte left over, or the
/// first place of the length where the body is too short; else the first place of half 1's epoch. Fault comes only where
/// the cloud's count of faults rose. Nothing told changes. What is found is a start of its half, whatever the cloud tells: its
/// header and its rooms are allowed ones.
pub fn find<V: Shelf>(shelf: &mut V, cloud: CloudNo, window: &mut [u8]) -> Result<Found, FindErr>
    requires { length window.old ≡ window_len }
    ensures found { IsTrue (V.cloud_at shelf.old cloud.0).told
        → FindIs ((V.cloud_at shelf.old cloud.0).now Area.Journal).read result }
    ensures start { IfOk result (λ found. IsStart found.half found.start) }
    ensures stays { Stays (V.cloud_at shelf.old cloud.0) (V.cloud_at shelf.new cloud.0) }
    ensures call { IsCall (V.cloud_at shelf.old) (V.cloud_at shelf.new) cloud.0
        (V.faults shelf.old) (V.faults shelf.new) }
    ensures counts { OnFindFault result
        (HasFailed (V.cloud_at shelf.old cloud.0) (V.cloud_at shelf.new cloud.0)
        (V.faults shelf.old) (V.faults shelf.new))
        (KeepsCounts (V.cloud_at shelf.old cloud.0) (V.cloud_at shelf.new cloud.0)
        (V.faults shelf.old) (V.faults shelf.new)) }
{
    match look(shelf, cloud, 0, window) {
        Err(error) => Err(error),
        Ok(first) => match look(shelf, cloud, 1, window) {
            Err(error) => Err(error),
            Ok(second) => answer(shelf, cloud, choose(first, second)),
        },
    }
}
