//! The first steps of a session over clouds: their areas, which are to be empty, and the first openings.

ghost use Rattle.std.specs.Prelude.{◌≡◌, ◌≢◌, ◌<◌, ℕ, IsTrue, IfErr, OnOk, OnErr};
ghost use Rattle.share_server.specs.CdEdges.area.Area.{Area};
ghost use Rattle.share_server.specs.JournalStart.start.Header.{Header};
ghost use Rattle.script_lines.specs.LocalLink.Calls.{no_commands};
ghost use Rattle.script_lines.specs.LocalLink.Tells.{rooms_at, header_at, StandsAt, LeavesRest};
ghost use Rattle.replay_core.specs.Opening.{IsEmptyAt, AreEmptyBefore, Prepares, PreparesAll, AreSame, IsEmpty, EndsEmpty, EndsAtOpening, EndsUnopened, OpensClouds, IsEndOf};

use crate::ReplayEnd;
use script_lines::LocalLink;
use share_server::laws::law_of_no_commands;
use share_server::{Area, CloudNo, Failed, OpenErr, Shape, Shelf, damage_of};

// Whether the cloud's area is empty, those in front of which are.
fn empty_area<V: Shelf>(shelf: &mut V, cloud: CloudNo, area: Area) -> Result<(), ReplayEnd>
    requires { IsTrue (V.cloud_at shelf.old cloud.0).told → AreEmptyBefore area (V.cloud_at shelf.old cloud.0) }
    ensures same { OnOk result (AreSame (V.cloud_at shelf.old) (V.cloud_at shelf.new)) }
    ensures empty { IsTrue (V.cloud_at shelf.old cloud.0).told
        → OnOk result (IsEmptyAt (V.cloud_at shelf.old cloud.0) area) }
    ensures prepares { (header : Header)
        → Prepares header (V.cloud_at shelf.old cloud.0) (V.cloud_at shelf.new cloud.0) }
    ensures others { (other : ℕ) → other ≢ cloud.0 → V.cloud_at shelf.new other ≡ V.cloud_at shelf.old other }
    ensures end { IfErr result (EndsEmpty cloud.0 (V.cloud_at shelf.old cloud.0) (V.cloud_at shelf.new cloud.0)) }
{
    law_of_no_commands();
    match shelf.len(cloud, area) {
        Ok(0) => Ok(()),
        Ok(len) => Err(ReplayEnd::NotEmpty { cloud, area, len }),
        Err(Failed) => Err(ReplayEnd::ShelfFault { cloud }),
    }
}

// Whether all areas of the cloud are empty.
fn empty_cloud<V: Shelf>(shelf: &mut V, cloud: CloudNo) -> Result<(), ReplayEnd>
    ensures same { OnOk result (AreSame (V.cloud_at shelf.old) (V.cloud_at shelf.new)) }
    ensures empty { OnOk result (IsEmpty (V.cloud_at shelf.old cloud.0)) }
    ensures prepares { (header : Header)
        → Prepares header (V.cloud_at shelf.old cloud.0) (V.cloud_at shelf.new cloud.0) }
    ensures others { (other : ℕ) → other ≢ cloud.0 → V.cloud_at shelf.new other ≡ V.cloud_at shelf.old other }
    ensures end { IfErr result (EndsEmpty cloud.0 (V.cloud_at shelf.old cloud.0) (V.cloud_at shelf.new cloud.0)) }
{
    empty_area(shelf, cloud, Area::Journal)?;
    empty_area(shelf, cloud, Area::Shares)?;
    empty_area(shelf, cloud, Area::Recipes)
}

/// Checks in order that the areas of the store's clouds are empty.
pub fn empty_clouds<V: Shelf>(shelf: &mut V, shape: Shape) -> Result<(), ReplayEnd>
    ensures same { OnOk result (AreSame (V.cloud_at shelf.old) (V.cloud_at shelf.new)) }
    ensures empty { OnOk result ((cloud : ℕ) → cloud < shape.n → IsEmpty (V.cloud_at shelf.old cloud)) }
    ensures prepares { OnErr result ((headers : ℕ → Header)
        → PreparesAll headers shape (V.cloud_at shelf.old) (V.cloud_at shelf.new)) }
    ensures end { IfErr result (EndsUnopened shape (V.cloud_at shelf.old) (V.cloud_at shelf.new)) }
{
    law_of_no_commands();
    for number in 0..shape.n {
        empty_cloud(shelf, CloudNo(number))?;
    }
    Ok(())
}

// The end of a replay whose first opening of the cloud ended so.
fn end_of(cloud: CloudNo, error: OpenErr) -> ReplayEnd
    ensures { IsEndOf cloud error result }
{
    match error {
        OpenErr::Fault => ReplayEnd::ShelfFault { cloud },
        _ => {
            let (at, byte) = damage_of(error);
            ReplayEnd::Damaged { cloud, at, byte }
        }
    }
}

// Opens a cloud that reads as nothing.
fn open_cloud<V: Shelf>(link: &mut LocalLink<'_, V>, cloud: CloudNo) -> Result<(), ReplayEnd>
    requires below { cloud.0 < link.old.servers.shape.n }
    requires empty { IsEmpty (V.cloud_at link.old.shelf.now cloud.0) }
    ensures opens { OnOk result (StandsAt V.cloud_at link.new cloud.0
        (no_commands (V.cloud_at link.old.shelf.now cloud.0))) }
    ensures prepares { Prepares (header_at link.old.servers cloud.0)
        (V.cloud_at link.old.shelf.now cloud.0) (V.cloud_at link.new.shelf.now cloud.0) }
    ensures rest { LeavesRest V.cloud_at cloud.0 link.old link.new }
    ensures rooms { rooms_at link.new.servers cloud.0 ≡ rooms_at link.old.servers cloud.0 }
    ensures fate { link.new.fate ≡ link.old.fate }
    ensures same_reference { link.new.shelf.ghost_name ≡ link.old.shelf.ghost_name }
    ensures end { IfErr result (EndsAtOpening cloud.0
        (V.cloud_at link.old.shelf.now cloud.0) (V.cloud_at link.new.shelf.now cloud.0)) }
{
    law_of_no_commands();
    match link.reopen(cloud, true) {
        Ok(_) => Ok(()),
        Err(error) => Err(end_of(cloud, error)),
    }
}

/// Opens all clouds in order, each of which reads as nothing.
pub fn open_clouds<V: Shelf>(link: &mut LocalLink<'_, V>) -> Result<(), ReplayEnd>
    requires empty { (cloud : ℕ) → cloud < link.old.servers.shape.n → IsEmpty (V.cloud_at link.old.shelf.now cloud) }
    ensures opens { OnOk result (OpensClouds V.cloud_at link.old link.new link.old.servers.shape.n) }
    ensures prepares { OnErr result (PreparesAll (header_at link.old.servers) link.old.servers.shape
        (V.cloud_at link.old.shelf.now) (V.cloud_at link.new.shelf.now)) }
    ensures end { IfErr result (EndsUnopened link.old.servers.shape
        (V.cloud_at link.old.shelf.now) (V.cloud_at link.new.shelf.now)) }
    ensures same_reference { link.new.shelf.ghost_name ≡ link.old.shelf.ghost_name }
{
    law_of_no_commands();
    let shape = link.shape();
    for number in 0..shape.n {
        open_cloud(link, CloudNo(number))?;
    }
    Ok(())
}
