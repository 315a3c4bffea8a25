//! The lines on one cloud: its device is armed, its server is opened again, and the cloud is replaced.

ghost use Rattle.std.specs.Prelude.{◌≡◌, ◌<◌, IfErr, OnOk, OnErr};
ghost use Rattle.session_model.specs.Session.event.Event.TheVariants as events;
ghost use Rattle.script_lines.specs.At.{KeepsOtherClouds};
ghost use Rattle.script_lines.specs.Does.{CarriesOut, IsCutOff};
ghost use Rattle.script_lines.specs.Replacing.{IsNewStore, IsShelfFault};
ghost use Rattle.script_lines.specs.Stepping.{IsOpeningLine};
ghost use Rattle.session_model.specs.ShareServer.Serving.{an_error};

use crate::news::put_line;
use crate::{CarryErr, Jobs};
use recipe::{CloudNo, NoMemory};
use session_model::{Answer, Failed, Line, LocalLink, OpenErr, Shelf, damage_of, law_of_parts};

/// `arm CLOUD CALLS KEEP`: a later write or sync of the cloud is cut.
pub fn arm_line<V: Shelf>(
    link: &mut LocalLink<'_, V>,
    jobs: &Jobs,
    cloud: CloudNo,
    calls: u32,
    keep: u32,
    text: &mut Answer,
) -> Result<(), NoMemory>
    requires below { cloud.0 < link.old.servers.shape.n }
    ensures does { OnOk result (CarriesOut V.cloud_at (events.Arm cloud calls keep) link.old jobs.now
        link.new jobs.now text.old text.new) }
    ensures cut { OnErr result (IsCutOff V.cloud_at (events.Arm cloud calls keep) link.old jobs.now link.new) }
    ensures leaves { KeepsOtherClouds V.cloud_at link.old link.new }
    ensures same_reference { link.new.shelf.ghost_name ≡ link.old.shelf.ghost_name }
{
    link.arm(cloud, calls, keep);
    put_line(Line::Armed { cloud }, text)
}

// The line of an opening that ended with this error.
fn error_line(cloud: CloudNo, error: OpenErr) -> Line
    ensures { IsOpeningLine cloud.0 (an_error error) result }
{
    match error {
        OpenErr::Fault => Line::Fault { cloud },
        _ => {
            let (at, byte) = damage_of(error);
            Line::Damaged { cloud, at, byte }
        }
    }
}

// The line of an opening that ended so.
fn opening_line(cloud: CloudNo, opened: Result<u64, OpenErr>) -> Line
    ensures { IsOpeningLine cloud.0 opened result }
{
    match opened {
        Ok(commands) => Line::Restarted { cloud, commands },
        Err(error) => error_line(cloud, error),
    }
}

/// `restart CLOUD`: the cloud's server is opened again, from what its areas hold.
pub fn restart_line<V: Shelf>(
    link: &mut LocalLink<'_, V>,
    jobs: &Jobs,
    cloud: CloudNo,
    text: &mut Answer,
) -> Result<(), NoMemory>
    requires below { cloud.0 < link.old.servers.shape.n }
    ensures does { OnOk result (CarriesOut V.cloud_at (events.Restart cloud) link.old jobs.now
        link.new jobs.now text.old text.new) }
    ensures cut { OnErr result (IsCutOff V.cloud_at (events.Restart cloud) link.old jobs.now link.new) }
    ensures leaves { KeepsOtherClouds V.cloud_at link.old link.new }
    ensures same_reference { link.new.shelf.ghost_name ≡ link.old.shelf.ghost_name }
{
    let opened = link.reopen(cloud, true);
    put_line(opening_line(cloud, opened), text)
}

// The line of a new store whose first opening ended so.
fn new_store_line(cloud: CloudNo, opened: Result<u64, OpenErr>) -> Line
    ensures { IsNewStore cloud.0 opened result }
{
    match opened {
        Ok(_) => Line::Replaced { cloud },
        Err(error) => error_line(cloud, error),
    }
}

/// `replace CLOUD`: the cloud's areas are made empty, and a new store is begun there. An error for the shelf comes where the
/// areas couldn't be made empty, and then all lists are as they were.
pub fn replace_line<V: Shelf>(
    link: &mut LocalLink<'_, V>,
    jobs: &Jobs,
    cloud: CloudNo,
    text: &mut Answer,
) -> Result<(), CarryErr>
    requires below { cloud.0 < link.old.servers.shape.n }
    ensures does { OnOk result (CarriesOut V.cloud_at (events.Replace cloud) link.old jobs.now
        link.new jobs.now text.old text.new) }
    ensures cut { OnErr result (IsCutOff V.cloud_at (events.Replace cloud) link.old jobs.now link.new) }
    ensures shelf { IfErr result (IsShelfFault V.cloud_at (events.Replace cloud) link.old jobs.now link.new) }
    ensures leaves { KeepsOtherClouds V.cloud_at link.old link.new }
    ensures same_reference { link.new.shelf.ghost_name ≡ link.old.shelf.ghost_name }
{
    law_of_parts();
    match link.replace(cloud) {
        Ok(()) => {}
        Err(Failed) => return Err(CarryErr::ShelfFault { cloud }),
    }
    let begun = link.reopen(cloud, true);
    match put_line(new_store_line(cloud, begun), text) {
        Ok(()) => Ok(()),
        Err(NoMemory) => Err(CarryErr::NoMemory),
    }
}
