//! Opening the chosen clouds.

ghost use Rattle.std.specs.Prelude.{◌≡◌, ◌<◌, ℕ, List, [], ◌∷◌, length, All, IsTrue, MatchOption, IfOk, IfErr, OnOk};
ghost use Rattle.commit_journal.specs.CdEdges.area.Area.TheVariants.{Journal};
ghost use Rattle.commit_journal.specs.CdEdges.Shelf.{HasFailed, Stays};
ghost use Rattle.commit_journal.specs.JournalHalves.Records.{window_len};
ghost use Rattle.commit_journal.specs.JournalStart.rooms.UserRooms.{UserRooms};
ghost use Rattle.commit_journal.specs.JournalStart.Ranges.{AreRooms};
ghost use Rattle.read_command.specs.declared.end.ReadEnd.TheVariants.{ShelfFault};
ghost use Rattle.std.specs.List.Sorted.{IsStrictlyIncreasing};
ghost use Rattle.commit_journal.specs.CdBase.Numbers.{numbers_of};
ghost use Rattle.cloud_areas.specs.UserDedup.command.Command.{Command};
ghost use Rattle.local_link.specs.Tells.{LeavesRest};
ghost use Rattle.read_command.specs.Disks.{AreReadable, IsSpared, KeepsDisks, NamesRooms};
ghost use Rattle.read_command.specs.Opening.{Opening, EndsOpening, IsFailedOrNoMemory, AreOpened};

use crate::ReadEnd;
use crate::end::end_of;
use cloud_areas::laws::law_of_headers;
use commit_journal::{CloudNo, FindErr, NoMemory, Shelf, UserRooms};
use local_link::LocalLink;

// The rooms that a cloud's journal names. Where it names none, they are the usual ones, and an opening says why. Nothing
// that is told changes, and where nothing failed nothing does.
fn named_rooms<V: Shelf>(
    link: &mut LocalLink<'_, V>,
    cloud: CloudNo,
    window: &mut [u8],
) -> Result<UserRooms, ReadEnd>
    requires { length window.old ≡ window_len }
    ensures allowed { IfOk result AreRooms }
    ensures named { IsTrue (V.cloud_at link.old.shelf.now cloud.0).told
        → IfOk result (NamesRooms ((V.cloud_at link.old.shelf.now cloud.0).now Journal).read) }
    ensures failed { IfErr result (λ end. (end ≡ ShelfFault cloud) × HasFailed (V.cloud_at link.old.shelf.now cloud.0)
        (V.cloud_at link.new.shelf.now cloud.0) (V.faults link.old.shelf.now) (V.faults link.new.shelf.now)) }
    ensures same { OnOk result ((V.cloud_at link.new.shelf.now cloud.0 ≡ V.cloud_at link.old.shelf.now cloud.0)
        × (V.faults link.new.shelf.now ≡ V.faults link.old.shelf.now)) }
    ensures stays { Stays (V.cloud_at link.old.shelf.now cloud.0) (V.cloud_at link.new.shelf.now cloud.0) }
    ensures armings { (V.cloud_at link.new.shelf.now cloud.0).armings
        ≡ (V.cloud_at link.old.shelf.now cloud.0).armings }
    ensures rest { LeavesRest V.cloud_at cloud.0 link.old link.new }
    ensures still { (link.new.servers ≡ link.old.servers) × (link.new.fate ≡ link.old.fate) }
    ensures same_reference { link.new.shelf.ghost_name ≡ link.old.shelf.ghost_name }
{
    match link.find(cloud, window) {
        Ok(found) => Ok(found.start.header.rooms),
        Err(FindErr::Fault) => Err(ReadEnd::ShelfFault { cloud }),
        Err(FindErr::NotBegun { .. }) => Ok(UserRooms::usual()),
        Err(FindErr::Damaged { .. }) => Ok(UserRooms::usual()),
    }
}

// Opens a cloud in these rooms, which its journal names, and begins nothing.
fn open_in<V: Shelf>(
    link: &mut LocalLink<'_, V>,
    cloud: CloudNo,
    rooms: UserRooms,
) -> Result<(), ReadEnd>
    requires reached { cloud.0 < link.old.servers.shape.n }
    requires allowed { AreRooms rooms }
    requires named { IsTrue (V.cloud_at link.old.shelf.now cloud.0).told
        → NamesRooms ((V.cloud_at link.old.shelf.now cloud.0).now Journal).read rooms }
    ensures opens { Opening V.cloud_at link.old.servers.shape (V.cloud_at link.old.shelf.now cloud.0)
        (V.faults link.old.shelf.now) link.new (V.faults link.new.shelf.now) cloud.0 result }
    ensures rest { LeavesRest V.cloud_at cloud.0 link.old link.new }
    ensures fate { link.new.fate ≡ link.old.fate }
    ensures same_reference { link.new.shelf.ghost_name ≡ link.old.shelf.ghost_name }
{
    law_of_headers();
    match link.set_rooms(cloud, rooms) {
        Ok(()) => {}
        Err(NoMemory) => return Err(ReadEnd::NoMemory),
    }
    match link.reopen(cloud, false) {
        Ok(_) => Ok(()),
        Err(error) => Err(end_of(cloud, error)),
    }
}

// Opens a cloud in the rooms that its journal names, and begins nothing.
fn open_cloud<V: Shelf>(
    link: &mut LocalLink<'_, V>,
    cloud: CloudNo,
    window: &mut [u8],
) -> Result<(), ReadEnd>
    requires reached { cloud.0 < link.old.servers.shape.n }
    requires window { length window.old ≡ window_len }
    ensures opens { Opening V.cloud_at link.old.servers.shape (V.cloud_at link.old.shelf.now cloud.0)
        (V.faults link.old.shelf.now) link.new (V.faults link.new.shelf.now) cloud.0 result }
    ensures rest { LeavesRest V.cloud_at cloud.0 link.old link.new }
    ensures fate { link.new.fate ≡ link.old.fate }
    ensures same_reference { link.new.shelf.ghost_name ≡ link.old.shelf.ghost_name }
{
    match named_rooms(link, cloud, window) {
        Ok(rooms) => open_in(link, cloud, rooms),
        Err(end) => Err(end),
    }
}

// The first cloud and the others.
fn next_cloud(clouds: &[CloudNo]) -> Option<(CloudNo, &[CloudNo])>
    ensures { MatchOption result (clouds.now ≡ []) (λ x. clouds.now ≡ x.0 ∷ x.1.now) }
{
    match clouds {
        [] => None,
        [cloud, more @ ..] => Some((*cloud, more)),
    }
}

/// Opens rising clouds in order, each in the rooms that its journal names, and begins nothing. It ends at the first that
/// doesn't open. The window has 65,541 bytes.
pub fn open_clouds<V: Shelf>(
    link: &mut LocalLink<'_, V>,
    clouds: &[CloudNo],
    window: &mut [u8],
) -> Result<(), ReadEnd>
    requires window { length window.old ≡ window_len }
    requires rising { IsStrictlyIncreasing (numbers_of clouds.now) }
    requires within { All (λ cloud. cloud < link.old.servers.shape.n) (numbers_of clouds.now) }
    ensures opened { OnOk result (AreOpened V.cloud_at (V.faults link.old.shelf.now) (V.faults link.new.shelf.now)
        link.old link.new (numbers_of clouds.now)) }
    ensures end { IfErr result (EndsOpening link.old.servers.shape (numbers_of clouds.now)
        (V.cloud_at link.old.shelf.now) (V.cloud_at link.new.shelf.now)
        (V.faults link.old.shelf.now) (V.faults link.new.shelf.now)) }
    ensures readable { (rooms : ℕ → UserRooms) (lists : ℕ → List Command)
        → AreReadable link.old.servers.shape (numbers_of clouds.now) (V.cloud_at link.old.shelf.now) rooms lists
        → IfErr result IsFailedOrNoMemory }
    ensures kept { KeepsDisks link.old.servers.shape (numbers_of clouds.now) (V.cloud_at link.old.shelf.now)
        (V.cloud_at link.new.shelf.now) }
    ensures spared { (cloud : ℕ) → IsTrue (V.cloud_at link.old.shelf.now cloud).told
        → IsSpared (V.cloud_at link.old.shelf.now cloud) (V.cloud_at link.new.shelf.now cloud) }
    ensures armings { (cloud : ℕ) → (V.cloud_at link.new.shelf.now cloud).armings
        ≡ (V.cloud_at link.old.shelf.now cloud).armings }
    ensures same_reference { link.new.shelf.ghost_name ≡ link.old.shelf.ghost_name }
{
    let mut rest = clouds;
    'clouds: loop {
        let Some((cloud, more)) = next_cloud(rest) else {
            return Ok(());
        };
        match open_cloud(link, cloud, window) {
            Ok(()) => {}
            Err(end) => return Err(end),
        }
        rest = more;
    }
}
