//! Looking at the shares of a batch, and bringing them together.

ghost use Rattle.std.specs.Prelude.{◌≡◌, ◌+◌, ◌≤◌, ◌<◌, ◌^◌, length};
ghost use Rattle.user_dedup.specs.CdBase.Limits.{secret_limit};
ghost use Rattle.user_dedup.specs.MessageFields.Fingerprints.{batch_limit};
ghost use Rattle.user_dedup.specs.MessageFields.Shares.{share_limit};
ghost use Rattle.sha2.specs.Sha256.{sha256 as sha256_of};
ghost use Rattle.restore_job.specs.Steps.{AreItemsAt, ChecksString, IsItem, Takes};

use crate::RestoreErr;
use crate::rooms::SecretRooms;
use share_digests::digests_of;
use user_dedup::{CloudNo, Fp, Item, Shape, SharesView, share_len};

// Looks at the length and then at the hash, which is at hand, of a share of secret number `secret`, which has `secret_len`
// bytes.
fn check_share(
    shape: Shape,
    cloud: CloudNo,
    secret: u32,
    secret_len: u32,
    named: Fp,
    share: &[u8],
    digest: [u8; 32],
) -> Result<(), RestoreErr>
    requires digest { digest ≡ sha256_of share.now }
    requires some { 1 ≤ secret_len }
    requires few { secret_len ≤ secret_limit }
    requires short { length share.now ≤ share_limit }
    ensures { ChecksString shape cloud secret secret_len named.0 share.now result }
{
    let found = share.len() as u32;
    let wanted = share_len(shape, secret_len);
    if found != wanted {
        return Err(RestoreErr::ShareLength {
            cloud,
            secret,
            found,
            wanted,
        });
    }
    let found = Fp(digest);
    if found != named {
        return Err(RestoreErr::BadShare {
            cloud,
            secret,
            named,
            found,
        });
    }
    Ok(())
}

/// Looks at the shares of secrets `place` on, in order, and appends each in its room. `firsts` has the lengths of the
/// secrets, and `items` the fingerprints of the shares. All are hashed before the first is looked at.
pub fn take_shares(
    shape: Shape,
    cloud: CloudNo,
    firsts: &[Item],
    items: &[Item],
    place: usize,
    count: usize,
    shares: &SharesView<'_>,
    rooms: &mut SecretRooms,
) -> Result<(), RestoreErr>
    requires all { length shares.now ≡ count }
    requires batch { count ≤ batch_limit }
    requires firsts { place + count ≤ length firsts.now }
    requires items { place + count ≤ length items.now }
    requires lens { AreItemsAt firsts.now }
    requires few { place + count < 2 ^ 32 }
    requires room { count ≤ length rooms.old }
    ensures takes { Takes shape cloud firsts.now items.now place count shares.now rooms.old rooms.new result }
    ensures rooms { length rooms.new ≡ length rooms.old }
{
    let digests = digests_of(shares);
    let mut rest = shares.copied();
    for j in 0..count {
        let Some((share, more)) = rest.split_first() else {
            return Ok(());
        };
        let first = firsts[place + j];
        let item = items[place + j];
        let secret = (place + j) as u32;
        let digest = digests[j];
        check_share(
            shape,
            cloud,
            secret,
            first.secret_len,
            item.fp,
            share,
            digest,
        )?;
        rooms.append(j, share)?;
        rest = more;
    }
    Ok(())
}
