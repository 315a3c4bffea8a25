//! Opening the secrets of a batch.

ghost use Rattle.std.specs.Prelude.{◌≡◌, ◌+◌, ◌*◌, ◌≤◌, ◌<◌, ◌^◌, ℕ, List, [], length, map, false, IfErr, OnOk};
ghost use Rattle.std.specs.List.{flat_map};
ghost use Rattle.user_dedup.specs.CdBase.Lengths.{share_len_of};
ghost use Rattle.user_dedup.specs.CdBase.Limits.{secret_limit};
ghost use Rattle.caont_rs.specs.Opening.{opened};
ghost use Rattle.user_dedup.specs.Recipe.recipe.Recipe.{Recipe};
ghost use Rattle.caont_rs.specs.ReedSolomon.Dispersal.{AreChoice};
ghost use Rattle.restore_job.specs.Asking.{is_lost};
ghost use Rattle.restore_job.specs.Brought.{Extends, HasShares};
ghost use Rattle.restore_job.specs.Exchanges.{OpensBatch};
ghost use Rattle.restore_job.specs.Refusals.{Names};
ghost use Rattle.restore_job.specs.Restored.{Given, item_of, of_secret, secrets_opened, string_at};
ghost use Rattle.restore_job.specs.Steps.{AreItemsAt, Grows, OpensSecretsTo, room_of};

use crate::RestoreErr;
use crate::rooms::SecretRooms;
use caont_rs::{RecoverErr, recover};
use user_dedup::{Bytes, Item, Shape};

// Appends a secret.
fn open_secret(
    shape: Shape,
    points: &[u8],
    secret: u32,
    secret_len: u32,
    shares: &[u8],
    out: &mut Bytes,
) -> Result<(), RestoreErr>
    requires some { 1 ≤ secret_len }
    requires few { secret_len ≤ secret_limit }
    requires choice { AreChoice shape points.now }
    requires whole { length shares.now ≡ shape.k * share_len_of shape.k secret_len }
    ensures opens { OpensSecretsTo
        (of_secret secret (opened shape secret_len points.now shares.now)) result out.old out.new }
    ensures grows { Grows out.old out.new }
    ensures alone { IfErr result (Names (λ c. ⊥)) }
    ensures found { is_lost result ≡ false }
{
    match recover(shape, secret_len, points, shares, out) {
        Ok(()) => Ok(()),
        Err(RecoverErr::BadSecret { named, found }) => Err(RestoreErr::BadSecret {
            secret,
            named,
            found,
        }),
        Err(RecoverErr::BadPad { at, byte }) => Err(RestoreErr::BadPad { secret, at, byte }),
        Err(RecoverErr::NoMemory) => Err(RestoreErr::NoMemory),
    }
}

/// Appends the secrets `place` on, from their shares, which stand in the rooms; after an error a part of them may stand there.
pub fn open_batch(
    shape: Shape,
    points: &[u8],
    firsts: &[Item],
    place: usize,
    count: usize,
    rooms: &SecretRooms,
    out: &mut Bytes,
) -> Result<(), RestoreErr>
    requires choice { AreChoice shape points.now }
    requires firsts { place + count ≤ length firsts.now }
    requires lens { AreItemsAt firsts.now }
    requires few { place + count < 2 ^ 32 }
    requires room { count ≤ length rooms.now }
    requires whole { (j : ℕ) → j < count
        → length (room_of rooms.now j) ≡ shape.k * share_len_of shape.k (item_of firsts.now (place + j)).secret_len }
    ensures opens { (all : List Given) → points.now ≡ map (λ given. given.cloud) all
        → ((j : ℕ) → j < count → room_of rooms.now j ≡ flat_map (λ given. string_at given (place + j)) all)
        → OpensSecretsTo (secrets_opened shape firsts.now all place count) result out.old out.new }
    ensures opened { OpensBatch shape points.now firsts.now rooms.now place count out.old out.new result }
    ensures brought { (recipes : List Recipe)
        → ((j : ℕ) → j < count → HasShares recipes (place + j) [] (room_of rooms.now j))
        → OnOk result (Extends shape points.now firsts.now recipes place (place + count) out.old out.new) }
    ensures grows { Grows out.old out.new }
    ensures alone { IfErr result (Names (λ c. ⊥)) }
    ensures found { is_lost result ≡ false }
{
    for j in 0..count {
        let first = firsts[place + j];
        let secret = (place + j) as u32;
        match open_secret(shape, points, secret, first.secret_len, rooms.get(j), out) {
            Ok(()) => {}
            Err(e) => return Err(e),
        }
    }
    Ok(())
}
