//! Which of a cloud's shares it is to have.

ghost use Rattle.std.specs.Prelude.{◌≡◌, [], take, drop, OnOk, IfOk, true};
ghost use Rattle.std.specs.Ordering.{nat_cmp};
ghost use Rattle.std.specs.Cmp.Lexicographic.{slice_cmp};
ghost use Rattle.std.specs.BTreeSet.{contains, Updates};
ghost use Rattle.user_dedup.specs.MessageFields.Fingerprints.{batch_limit};
ghost use Rattle.user_dedup.specs.Owning.{new_strings};
ghost use Rattle.upload_job.specs.Index.{AreNamed, AreIn, shares_in, pieces, noted};

use std::alloc::Global;
use std::collections::BTreeSet;
use user_dedup::{Fp, Item, NoMemory, Shape, share_len};

/// A share that the cloud is to have: its fingerprint, and where it lies among the cloud's shares.
#[derive(Clone, Copy)]
pub struct WantedShare {
    pub fp: Fp,
    pub start: usize,
    pub end: usize,
}

// Adds a share whose fingerprint was not seen before. The set has it then.
fn note(
    seen: &mut BTreeSet<[u8; 32]>,
    wanted: &mut Vec<WantedShare>,
    share: WantedShare,
) -> Result<(), NoMemory>
    ensures list { OnOk result (wanted.new.items
        ≡ noted (contains (slice_cmp nat_cmp) seen.old share.fp.0) wanted.old.items share) }
    ensures keys { OnOk result (Updates (slice_cmp nat_cmp) seen.old seen.new share.fp.0 true) }
{
    if seen.insert(share.fp.0)? {
        wanted.push(share)?;
    }
    Ok(())
}

/// The first share of each fingerprint, of those that lie one after another.
pub fn wanted_of(
    alloc: Global,
    shape: Shape,
    items: &[Item],
    shares: &[u8],
) -> Result<Vec<WantedShare>, NoMemory>
    requires { AreNamed shape.k items.now shares.now }
    ensures first { IfOk result (λ wanted. shares_in shares.now wanted.items
        ≡ new_strings [] (pieces shape.k items.now shares.now)) }
    ensures inside { IfOk result (λ wanted. AreIn shares.now wanted.items) }
{
    let mut seen = BTreeSet::new(alloc);
    let mut wanted = Vec::new(alloc);
    let mut start = 0;
    for item in items {
        let end = start + share_len(shape, item.secret_len) as usize;
        let share = WantedShare {
            fp: item.fp,
            start,
            end,
        };
        note(&mut seen, &mut wanted, share)?;
        start = end;
    }
    Ok(wanted)
}

/// The next shares from a place on, at most 256.
pub fn batch_at(wanted: &[WantedShare], from: usize) -> &[WantedShare]
    ensures { result.now ≡ take batch_limit (drop from wanted.now) }
{
    let (_, rest) = wanted.split_at(from.min(wanted.len()));
    let (batch, _) = rest.split_at(rest.len().min(256));
    batch
}
