//! The lanes of a new job.

ghost use Rattle.std.specs.Prelude.{◌≡◌, ◌<◌, ◌≤◌, ℕ, length, All, IfOk};
ghost use Rattle.user_dedup.specs.Recipe.Spelling.{item_limit};
ghost use Rattle.upload_job.specs.Index.{AreNamed, IsBegun, IsIdle, IsAlone, EachNamed, EachBegun};

use crate::lane::{Lane, LaneStage};
use crate::recalled::Recalled;
use crate::wanted::wanted_of;
use file_recipe::CloudFile;
use std::alloc::Global;
use user_dedup::{Bytes, CloudNo, NoMemory, Shape};

// The lane of a cloud's file.
fn lane_of(alloc: Global, shape: Shape, file: CloudFile) -> Result<Lane, NoMemory>
    requires few { length file.recipe.items ≤ item_limit }
    requires named { AreNamed shape.k file.recipe.items file.shares }
    ensures { IfOk result (λ lane. IsBegun shape.k file lane) }
{
    let CloudFile {
        recipe: named,
        shares,
    } = file;
    let mut recipe = Bytes::new(alloc);
    named.write(&mut recipe)?;
    let wanted = wanted_of(alloc, shape, named.items.as_slice(), shares.as_slice())?;
    let recalled = Recalled::of(shares.as_slice());
    Ok(Lane {
        recipe,
        items: named.items.len() as u32,
        shares,
        wanted,
        stage: LaneStage::Bringing { from: 0 },
        recalled,
    })
}

// A lane that has nothing to bring, and no request.
fn idle_lane(alloc: Global) -> Lane
    ensures { IsIdle result }
{
    Lane {
        recipe: Bytes::new(alloc),
        items: 0,
        shares: Bytes::new(alloc),
        wanted: Vec::new(alloc),
        stage: LaneStage::Refused,
        recalled: Recalled::of(&[]),
    }
}

/// The lanes of the clouds' files, in their order.
pub fn lanes_of(alloc: Global, shape: Shape, files: Vec<CloudFile>) -> Result<Vec<Lane>, NoMemory>
    requires { EachNamed shape.k files.items }
    ensures len { IfOk result (λ lanes. length lanes.items ≡ length files.items) }
    ensures each { IfOk result (λ lanes. EachBegun shape.k files.items lanes.items) }
{
    let mut lanes = Vec::new(alloc);
    for file in files {
        lanes.push(lane_of(alloc, shape, file)?)?;
    }
    Ok(lanes)
}

// So many lanes that have nothing to bring.
fn idle_lanes(alloc: Global, count: usize) -> Result<Vec<Lane>, NoMemory>
    ensures len { IfOk result (λ lanes. length lanes.items ≡ count) }
    ensures each { IfOk result (λ lanes. All IsIdle lanes.items) }
{
    let mut lanes = Vec::new(alloc);
    for _ in 0..count {
        lanes.push(idle_lane(alloc))?;
    }
    Ok(lanes)
}

/// As many lanes as clouds, of which only that of one cloud has something to bring: its file.
pub fn lane_alone(
    alloc: Global,
    shape: Shape,
    cloud: CloudNo,
    file: CloudFile,
) -> Result<Vec<Lane>, NoMemory>
    requires cloud { cloud.0 < shape.n }
    requires few { length file.recipe.items ≤ item_limit }
    requires named { AreNamed shape.k file.recipe.items file.shares }
    ensures { IfOk result (λ lanes. IsAlone shape cloud.0 file lanes.items) }
{
    let lane = lane_of(alloc, shape, file)?;
    let mut lanes = idle_lanes(alloc, shape.n as usize)?;
    lanes[cloud.0 as usize] = lane;
    Ok(lanes)
}
