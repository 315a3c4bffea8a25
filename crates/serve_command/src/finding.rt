//! The rooms of a cloud.

ghost use Rattle.std.specs.Prelude.{◌≡◌, length, IsTrue, IsErr, IfOk, IfErr, Ok, Err};
ghost use Rattle.journal_halves.specs.Records.{window_len};
ghost use Rattle.share_server.specs.CdEdges.area.Area.{Area};
ghost use Rattle.share_server.specs.CdEdges.Shelf.{IsCall, HasFailed, KeepsCounts, Stays};
ghost use Rattle.share_server.specs.CommitJournal.Openings.{OnFault};
ghost use Rattle.share_server.specs.JournalStart.Ranges.{AreRooms};
ghost use Rattle.share_server.specs.Refusals.{MayCome};
ghost use Rattle.serve_command.specs.Served.{HasJournalRooms, IsUnreadable};

use ports_link::CloudNo;
use share_server::{FindErr, OpenErr, Shelf, UserRooms, find};

/// The rooms that a cloud's journal has, read through a window of 65,541 bytes; the usual ones where no half of it is
/// begun. The error is Fault where the cloud's count of faults rose, and Damaged where the starts of the halves are
/// damaged.
pub fn rooms_of<V: Shelf>(
    shelf: &mut V,
    cloud: CloudNo,
    window: &mut [u8],
) -> Result<UserRooms, OpenErr>
    requires { length window.old ≡ window_len }
    ensures allowed { IfOk result AreRooms }
    ensures found { IsTrue (V.cloud_at shelf.old cloud.0).told
        → IfOk result (HasJournalRooms ((V.cloud_at shelf.old cloud.0).now Area.Journal).read) }
    ensures unreadable { IfErr result (IsUnreadable (V.cloud_at shelf.old cloud.0)) }
    ensures may_come { IfErr result MayCome }
    ensures stays { Stays (V.cloud_at shelf.old cloud.0) (V.cloud_at shelf.new cloud.0) }
    ensures call { IsCall (V.cloud_at shelf.old) (V.cloud_at shelf.new) cloud.0
        (V.faults shelf.old) (V.faults shelf.new) }
    ensures counts { OnFault result
        (HasFailed (V.cloud_at shelf.old cloud.0) (V.cloud_at shelf.new cloud.0)
        (V.faults shelf.old) (V.faults shelf.new))
        (KeepsCounts (V.cloud_at shelf.old cloud.0) (V.cloud_at shelf.new cloud.0)
        (V.faults shelf.old) (V.faults shelf.new)) }
{
    match find(shelf, cloud, window) {
        Ok(found) => Ok(found.start.header.rooms),
        Err(FindErr::NotBegun { .. }) => Ok(UserRooms::usual()),
        Err(FindErr::Fault) => Err(OpenErr::Fault),
        Err(FindErr::Damaged { at, byte }) => Err(OpenErr::Damaged { at, byte }),
    }
}
