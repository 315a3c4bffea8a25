//! The content of a lane's requests. Each function appends; for want of memory a part may stand there.

ghost use Rattle.std.specs.Prelude.{◌≡◌, ◌∷◌, ◌++◌, ◌≤◌, ◌<◌, [], ℕ, List, length, map, OnOk, IfOk, true, ◌==◌, if◌then◌else◌};
ghost use Rattle.std.specs.List.{flat_map};
ghost use Rattle.std.specs.Int.{w32, to_be_bytes};
ghost use Rattle.user_dedup.specs.MessageFields.Fingerprints.{batch_limit};
ghost use Rattle.user_dedup.specs.MessageFields.Shares.{share_bytes, share_limit};
ghost use Rattle.user_dedup.specs.Messages.Requests.{request_bytes};
ghost use Rattle.user_dedup.specs.Messages.request.Request.TheVariants.{Query, Put, Commit};
ghost use Rattle.upload_job.specs.declared.lane.LaneStage.TheVariants as stages;
ghost use Rattle.upload_job.specs.Lane.{unflagged, lane_request};
ghost use Rattle.upload_job.specs.Lanes.{IsAsked};
ghost use Rattle.upload_job.specs.Index.{IsInShares, AreIn, IsLane, share_in, shares_in, work_in, state_in};

use crate::lane::{Lane, LaneStage, VersionKey, zeros};
use crate::wanted::{WantedShare, batch_at};
use user_dedup::{Bytes, NoMemory, UserId};

fn put_head(out: &mut Bytes, kind: u8, user: UserId) -> Result<(), NoMemory>
    ensures { OnOk result (out.new ≡ out.old ++ (kind ∷ to_be_bytes w32 user.0)) }
{
    out.push(kind)?;
    out.extend(&user.0.to_be_bytes())
}

fn put_each_fp(out: &mut Bytes, wanted: &[WantedShare]) -> Result<(), NoMemory>
    ensures { OnOk result (out.new ≡ out.old ++ flat_map (λ w. w.fp.0) wanted.now) }
{
    for w in wanted {
        out.extend(&w.fp.0)?;
    }
    Ok(())
}

fn put_query(out: &mut Bytes, user: UserId, batch: &[WantedShare]) -> Result<(), NoMemory>
    requires { length batch.now ≤ batch_limit }
    ensures { OnOk result (out.new ≡ out.old ++ request_bytes (Query user (map (λ w. w.fp) batch.now))) }
{
    put_head(out, 2, user)?;
    out.extend(&(batch.len() as u16).to_be_bytes())?;
    put_each_fp(out, batch)
}

fn put_share(out: &mut Bytes, share: &[u8]) -> Result<(), NoMemory>
    requires { length share.now ≤ share_limit }
    ensures { OnOk result (out.new ≡ out.old ++ share_bytes share.now) }
{
    out.extend(&(share.len() as u32).to_be_bytes())?;
    out.extend(share)
}

// A share, where its flag is 0.
fn put_if_lacking(out: &mut Bytes, shares: &[u8], w: WantedShare, flag: u8) -> Result<(), NoMemory>
    requires { IsInShares shares.now w }
    ensures { OnOk result (out.new ≡ out.old ++ flat_map share_bytes
        (if flag == 0 then share_in shares.now w ∷ [] else [])) }
{
    if flag == 0 {
        put_share(out, &shares[w.start..w.end])
    } else {
        Ok(())
    }
}

// Those shares of the batch whose flag is 0.
fn put_unflagged(
    out: &mut Bytes,
    shares: &[u8],
    batch: &[WantedShare],
    flags: &[u8],
) -> Result<(), NoMemory>
    requires { AreIn shares.now batch.now }
    ensures { OnOk result (out.new ≡ out.old ++ flat_map share_bytes
        (unflagged (shares_in shares.now batch.now) flags.now)) }
{
    for i in 0..batch.len().min(flags.len()) {
        put_if_lacking(out, shares, batch[i], flags[i])?;
    }
    Ok(())
}

fn put_put(
    out: &mut Bytes,
    user: UserId,
    shares: &[u8],
    batch: &[WantedShare],
    flags: &[u8],
) -> Result<(), NoMemory>
    requires few { length batch.now ≤ batch_limit }
    requires inside { AreIn shares.now batch.now }
    ensures { OnOk result (out.new ≡ out.old ++ request_bytes
        (Put user (unflagged (shares_in shares.now batch.now) flags.now))) }
{
    put_head(out, 3, user)?;
    out.extend(&(zeros(batch.len(), flags) as u16).to_be_bytes())?;
    put_unflagged(out, shares, batch, flags)
}

fn put_commit(out: &mut Bytes, key: &VersionKey, recipe: &[u8]) -> Result<(), NoMemory>
    ensures { OnOk result (out.new ≡ out.old ++ request_bytes
        (Commit key.now.user key.now.tag key.now.version recipe.now)) }
{
    put_head(out, 4, key.user)?;
    out.extend(&key.tag.0)?;
    out.extend(&key.version.0.to_be_bytes())?;
    out.extend(recipe)
}

// The request of a lane that asks, or enters the recipe.
fn put_bringing(out: &mut Bytes, key: &VersionKey, lane: &Lane, from: usize) -> Result<(), NoMemory>
    requires empty { out.old ≡ [] }
    requires inside { AreIn lane.now.recalled.bytes lane.now.wanted.items }
    ensures { OnOk result (IsAsked (lane_request (work_in key.now lane.now)
        (state_in (shares_in lane.now.recalled.bytes lane.now.wanted.items) (stages.Bringing from)))
        true out.old out.new) }
{
    if from < lane.wanted.len() {
        put_query(out, key.user, batch_at(lane.wanted.as_slice(), from))
    } else {
        put_commit(out, key, lane.recipe.as_slice())
    }
}

/// Writes the lane's request into an empty list, where it has one.
pub fn put_request(out: &mut Bytes, key: &VersionKey, lane: &Lane) -> Result<bool, NoMemory>
    requires empty { out.old ≡ [] }
    requires is { IsLane lane.now }
    ensures { IfOk result (λ more. IsAsked (lane_request (work_in key.now lane.now)
        (state_in (shares_in lane.now.recalled.bytes lane.now.wanted.items) lane.now.stage)) more out.old out.new) }
{
    match &lane.stage {
        LaneStage::Bringing { from } => {
            put_bringing(out, key, lane, *from)?;
            Ok(true)
        }
        LaneStage::Sending { from, flags } => {
            let batch = batch_at(lane.wanted.as_slice(), *from);
            let shares = lane.shares.as_slice();
            put_put(out, key.user, shares, batch, flags.as_slice())?;
            Ok(true)
        }
        LaneStage::Done => Ok(false),
        LaneStage::Refused => Ok(false),
    }
}
