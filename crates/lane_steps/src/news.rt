//! News of a lane, in order.

ghost use Rattle.std.specs.Prelude.{◌≡◌, ◌+◌, ◌<◌, ◌≤◌, ◌++◌, ◌∷◌, [], ◌||◌, vec_len, vec_capacity, OnOk};
ghost use Rattle.lane_steps.specs.Steps.{stops_by, tells_lack};

use grammar::NoMemory;
use upload_job::LaneNews;

/// Whether the news stop a lane whose cloud has lacked a share already, or hasn't.
pub fn stops(lacked: bool, news: &LaneNews) -> bool
    ensures { result ≡ stops_by lacked news.now }
{
    match news {
        LaneNews::Fault => true,
        LaneNews::NoMemory => true,
        LaneNews::Lacking { .. } => lacked,
        LaneNews::Known { .. } => false,
        LaneNews::Stored { .. } => false,
        LaneNews::Committed => false,
        LaneNews::Exists => false,
        LaneNews::Full { .. } => false,
        LaneNews::Damaged { .. } => false,
        LaneNews::Rotten { .. } => false,
    }
}

// Whether the cloud lacks a share.
fn is_lack(news: &LaneNews) -> bool
    ensures { result ≡ tells_lack news.now }
{
    match news {
        LaneNews::Lacking { .. } => true,
        LaneNews::Fault => false,
        LaneNews::NoMemory => false,
        LaneNews::Known { .. } => false,
        LaneNews::Stored { .. } => false,
        LaneNews::Committed => false,
        LaneNews::Exists => false,
        LaneNews::Full { .. } => false,
        LaneNews::Damaged { .. } => false,
        LaneNews::Rotten { .. } => false,
    }
}

/// Whether the lane's cloud has lacked a share, behind these news.
pub fn has_lacked(lacked: bool, news: &LaneNews) -> bool
    ensures { result ≡ (lacked || tells_lack news.now) }
{
    lacked || is_lack(news)
}

/// Makes room for one news more. The list stays, also after want of memory.
pub fn make_room(told: &mut Vec<LaneNews>) -> Result<(), NoMemory>
    ensures items { told.new.items ≡ told.old.items }
    ensures room { OnOk result (vec_len told.new < vec_capacity told.new) }
{
    told.reserve(1)?;
    Ok(())
}

/// Appends news for which there is room.
pub fn tell(told: &mut Vec<LaneNews>, news: LaneNews)
    requires { vec_len told.old < vec_capacity told.old }
    ensures { told.new.items ≡ told.old.items ++ news ∷ [] }
{
    let _ = told.push(news);
}
