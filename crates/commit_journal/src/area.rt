//! What a writer does to the area of its journal.

ghost use Rattle.std.specs.Prelude.{◌≡◌, ◌≢◌, ◌⊎◌, ℕ, ◌+◌, ◌-◌, ◌*◌, ◌<◌, ◌≤◌, List, [], ◌∷◌, ◌++◌, length, true, false, IsTrue, IfOk, OnOk, OnErr};
ghost use Rattle.journal_halves.specs.CdEdges.area.Area.{Area};
ghost use Rattle.journal_halves.specs.CdEdges.Shelf.{IsCall, HasFailed, KeepsCounts, Stays, Writes};
ghost use Rattle.journal_halves.specs.Halves.{half_len};
ghost use Rattle.journal_halves.specs.Journals.{IsClosedAt, IsOpenAt};
ghost use Rattle.commit_journal.specs.Leaving.{KeepsStanding, LeavesWrite, HasClosed, HasWritten, OtherAreasStay, IsLater, IsSparedIfClosed, IsLaterOpen};
ghost use Rattle.commit_journal.specs.Pieces.{piece_len};

use crate::piece::Piece;
use journal_halves::{Area, CloudNo, Failed, HALF_LEN, Shelf, write_synced};

/// The first place of a half.
pub(crate) fn first_place(half: u8) -> u64
    requires { half ≤ 1 }
    ensures { result ≡ half * half_len }
{
    half as u64 * HALF_LEN
}

// Whether a half's first place is there and doesn't open it.
fn is_closed<V: Shelf>(shelf: &mut V, cloud: CloudNo, half: u8) -> Result<bool, Failed>
    requires { half ≤ 1 }
    ensures closed { IsTrue (V.cloud_at shelf.old cloud.0).told → IfOk result (λ closed. closed ≡ true
        → IsClosedAt ((V.cloud_at shelf.old cloud.0).now Area.Journal).read half) }
    ensures opened { IsTrue (V.cloud_at shelf.old cloud.0).told → IfOk result (λ closed. closed ≡ false
        → IsOpenAt ((V.cloud_at shelf.old cloud.0).now Area.Journal).read half) }
    ensures stays { Stays (V.cloud_at shelf.old cloud.0) (V.cloud_at shelf.new cloud.0) }
    ensures call { IsCall (V.cloud_at shelf.old) (V.cloud_at shelf.new) cloud.0
        (V.faults shelf.old) (V.faults shelf.new) }
    ensures failed { OnErr result (HasFailed (V.cloud_at shelf.old cloud.0) (V.cloud_at shelf.new cloud.0)
        (V.faults shelf.old) (V.faults shelf.new)) }
    ensures uncounted { OnOk result (KeepsCounts (V.cloud_at shelf.old cloud.0) (V.cloud_at shelf.new cloud.0)
        (V.faults shelf.old) (V.faults shelf.new)) }
{
    let mut first = [1];
    let count = shelf.read(cloud, Area::Journal, first_place(half), &mut first)?;
    Ok(count == 1 && first[0] != 1)
}

/// Makes sure that a half's first place is there and doesn't open it, by a write and a sync where it isn't so.
pub(crate) fn close<V: Shelf>(shelf: &mut V, cloud: CloudNo, half: u8) -> Result<(), Failed>
    requires { half ≤ 1 }
    ensures any_moment { KeepsStanding half (V.cloud_at shelf.old cloud.0) (V.cloud_at shelf.new cloud.0) }
    ensures closed { HasClosed half (V.cloud_at shelf.old cloud.0) (V.cloud_at shelf.new cloud.0) result }
    ensures spared { IsSparedIfClosed half (V.cloud_at shelf.old cloud.0) (V.cloud_at shelf.new cloud.0) }
    ensures moments { IsLaterOpen 2 half (V.cloud_at shelf.old cloud.0) (V.cloud_at shelf.new cloud.0) result }
    ensures others { OtherAreasStay (V.cloud_at shelf.old cloud.0) (V.cloud_at shelf.new cloud.0) result }
    ensures call { IsCall (V.cloud_at shelf.old) (V.cloud_at shelf.new) cloud.0
        (V.faults shelf.old) (V.faults shelf.new) }
    ensures failed { OnErr result (HasFailed (V.cloud_at shelf.old cloud.0) (V.cloud_at shelf.new cloud.0)
        (V.faults shelf.old) (V.faults shelf.new)) }
    ensures uncounted { OnOk result (KeepsCounts (V.cloud_at shelf.old cloud.0) (V.cloud_at shelf.new cloud.0)
        (V.faults shelf.old) (V.faults shelf.new)) }
{
    if is_closed(shelf, cloud, half)? {
        return Ok(());
    }
    write_synced(shelf, cloud, Area::Journal, first_place(half), &[0])
}

/// Writes what waits; after Ok nothing waits.
pub(crate) fn write_piece<V: Shelf>(
    shelf: &mut V,
    cloud: CloudNo,
    at: u64,
    waiting: &mut Piece,
) -> Result<(), Failed>
    ensures write { IsTrue (V.cloud_at shelf.old cloud.0).told
        → Writes (V.cloud_at shelf.old cloud.0) (V.cloud_at shelf.new cloud.0) Area.Journal at waiting.old result }
    ensures done { OnOk result (waiting.new ≡ []) }
    ensures kept { OnErr result (waiting.new ≡ waiting.old) }
    ensures call { IsCall (V.cloud_at shelf.old) (V.cloud_at shelf.new) cloud.0
        (V.faults shelf.old) (V.faults shelf.new) }
    ensures failed { OnErr result (HasFailed (V.cloud_at shelf.old cloud.0) (V.cloud_at shelf.new cloud.0)
        (V.faults shelf.old) (V.faults shelf.new)) }
    ensures uncounted { OnOk result (KeepsCounts (V.cloud_at shelf.old cloud.0) (V.cloud_at shelf.new cloud.0)
        (V.faults shelf.old) (V.faults shelf.new)) }
{
    shelf.write(cloud, Area::Journal, at, waiting.as_slice())?;
    waiting.clear();
    Ok(())
}

/// Writes what waits and a closed gate, and syncs. Nothing waits then.
pub(crate) fn write_last<V: Shelf>(
    shelf: &mut V,
    cloud: CloudNo,
    at: u64,
    waiting: &mut Piece,
) -> Result<(), Failed>
    requires { length waiting.old < piece_len }
    ensures any_moment { LeavesWrite at (waiting.old ++ 0 ∷ [])
        (V.cloud_at shelf.old cloud.0) (V.cloud_at shelf.new cloud.0) }
    ensures written { HasWritten at (waiting.old ++ 0 ∷ [])
        (V.cloud_at shelf.old cloud.0) (V.cloud_at shelf.new cloud.0) result }
    ensures others { OtherAreasStay (V.cloud_at shelf.old cloud.0) (V.cloud_at shelf.new cloud.0) result }
    ensures moments { IsLater 2 (V.cloud_at shelf.old cloud.0) (V.cloud_at shelf.new cloud.0) result }
    ensures none { waiting.new ≡ [] }
    ensures call { IsCall (V.cloud_at shelf.old) (V.cloud_at shelf.new) cloud.0
        (V.faults shelf.old) (V.faults shelf.new) }
    ensures failed { OnErr result (HasFailed (V.cloud_at shelf.old cloud.0) (V.cloud_at shelf.new cloud.0)
        (V.faults shelf.old) (V.faults shelf.new)) }
    ensures uncounted { OnOk result (KeepsCounts (V.cloud_at shelf.old cloud.0) (V.cloud_at shelf.new cloud.0)
        (V.faults shelf.old) (V.faults shelf.new)) }
{
    waiting.put(&[0]);
    let result = write_synced(shelf, cloud, Area::Journal, at, waiting.as_slice());
    waiting.clear();
    result
}
