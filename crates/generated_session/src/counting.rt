//! What answers add to the numbers of a session.

ghost use Rattle.std.specs.Prelude.{◌≡◌, ◌<◌, ◌≤◌, ◌+◌, ◌*◌, ◌^◌, sum_by, not, ◌&&◌, if◌then◌else◌, OnOk, OnErr, IsTrue, ◌↔◌};
ghost use Rattle.generated_session.specs.Progress.{sent_by, known_by, HasRoom, GrowsByLanes, CountsGot};

use crate::Numbers;
use lane_steps::{LaneNews, NoMemory};
use subset_restore::RestoreErr;

// How many shares were sent by the news of a lane.
fn sent_of(told: LaneNews) -> u16
    ensures { result ≡ sent_by told }
{
    match told {
        LaneNews::Stored { sent, .. } => sent,
        LaneNews::Known { .. } => 0,
        LaneNews::Committed => 0,
        LaneNews::Exists => 0,
        LaneNews::Lacking { .. } => 0,
        LaneNews::Full { .. } => 0,
        LaneNews::Fault => 0,
        LaneNews::Damaged { .. } => 0,
        LaneNews::Rotten { .. } => 0,
        LaneNews::NoMemory => 0,
    }
}

// How many shares a cloud had already by the news of a lane.
fn known_of(told: LaneNews) -> u16
    ensures { result ≡ known_by told }
{
    match told {
        LaneNews::Known { known, .. } => known,
        LaneNews::Stored { .. } => 0,
        LaneNews::Committed => 0,
        LaneNews::Exists => 0,
        LaneNews::Lacking { .. } => 0,
        LaneNews::Full { .. } => 0,
        LaneNews::Fault => 0,
        LaneNews::Damaged { .. } => 0,
        LaneNews::Rotten { .. } => 0,
        LaneNews::NoMemory => 0,
    }
}

// How many shares were sent in all.
fn all_sent(told: &[LaneNews]) -> u128
    ensures sum { result ≡ sum_by sent_by told.now }
    ensures few { result ≤ 2 ^ 80 }
{
    let len = told.len();
    let mut sum: u128 = 0;
    for place in 0..len {
        sum += sent_of(told[place]) as u128;
    }
    sum
}

// How many shares the cloud had already in all.
fn all_known(told: &[LaneNews]) -> u128
    ensures sum { result ≡ sum_by known_by told.now }
    ensures few { result ≤ 2 ^ 80 }
{
    let len = told.len();
    let mut sum: u128 = 0;
    for place in 0..len {
        sum += known_of(told[place]) as u128;
    }
    sum
}

/// Counts what a lane told on its way, and whether its job was stored by it.
pub fn count_lane(told: &[LaneNews], before: bool, now: bool, numbers: &mut Numbers)
    requires room { HasRoom 1 numbers.old }
    ensures counts { numbers.new ≡ record numbers.old {
      stored = numbers.old.stored + (if not before && now then 1 else 0);
      sent = numbers.old.sent + sum_by sent_by told.now;
      known = numbers.old.known + sum_by known_by told.now;
    } }
    ensures grows { GrowsByLanes 1 numbers.old numbers.new }
{
    numbers.sent += all_sent(told);
    numbers.known += all_known(told);
    if !before && now {
        numbers.stored += 1;
    }
}

/// Counts a get, of which `same` says whether it gave the file that was made.
pub fn count_got(
    came: Result<(), RestoreErr>,
    same: bool,
    numbers: &mut Numbers,
) -> Result<(), NoMemory>
    requires few { numbers.old.equal < 2 ^ 32 }
    ensures ok { OnOk result (CountsGot came same numbers.old numbers.new) }
{
    match came {
        Ok(()) => {
            if same {
                numbers.equal += 1;
            }
            Ok(())
        }
        Err(RestoreErr::NoMemory) => Err(NoMemory),
        Err(RestoreErr::Missing { .. }) => Ok(()),
        Err(RestoreErr::Lost { .. }) => Ok(()),
        Err(RestoreErr::CloudFault { .. }) => Ok(()),
        Err(RestoreErr::CloudDamaged { .. }) => Ok(()),
        Err(RestoreErr::CloudRotten { .. }) => Ok(()),
        Err(RestoreErr::CloudNoMemory { .. }) => Ok(()),
        Err(RestoreErr::Strange { .. }) => Ok(()),
        Err(RestoreErr::RecipesDiffer { .. }) => Ok(()),
        Err(RestoreErr::ShareLength { .. }) => Ok(()),
        Err(RestoreErr::BadShare { .. }) => Ok(()),
        Err(RestoreErr::BadSecret { .. }) => Ok(()),
        Err(RestoreErr::BadPad { .. }) => Ok(()),
    }
}

/// Whether the bytes are the same.
pub fn is_same(bytes: &[u8], other: &[u8]) -> bool
    ensures { IsTrue result ↔ (bytes.now ≡ other.now) }
{
    bytes == other
}
