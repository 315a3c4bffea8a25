//! One blob after another, read, hashed and staged, and then written.

ghost use Rattle.std.specs.Prelude.{◌≡◌, ◌≤◌, ◌<◌, [], ◌∷◌, length, map, take, slice_index_or, IsTrue, IfSome, IfNone, Option};
ghost use Rattle.compact_lists.specs.CdBase.Limits.{recipe_limit};
ghost use Rattle.fresh_checkpoints.specs.CdEdges.Shelf.{HasFailed, KeepsCounts, IsCall, Stays};
ghost use Rattle.record_laws.specs.ContainerLog.Places.{container_len, end_after};
ghost use Rattle.record_laws.specs.ContainerLog.States.{HasStaged, need_of, staged_end, without_staged, in_area};
ghost use Rattle.record_laws.specs.FileIndex.key.Entry.{Entry};
ghost use Rattle.record_laws.specs.FileIndex.key.FileKey.{FileKey};
ghost use Rattle.compact_lists.specs.UserDedup.Strings.{fingerprint};
ghost use Rattle.fresh_checkpoints.specs.CloudMemory.Fitting.{AreSharePlaces, AreShort};
ghost use Rattle.fresh_checkpoints.specs.Checkpoints.Picking.{onto};
ghost use Rattle.fresh_checkpoints.specs.CompactMemories.Kept.{live_at, live_in, live_places, entries_in, live_entries};
ghost use Rattle.blob_copy.specs.Answers.{MatchFault, MatchCopy, EitherWay, IsRotten, bytes_at};
ghost use Rattle.blob_copy.specs.Copies.{share_blob, entry_blob};
ghost use Rattle.blob_copy.specs.Runs.{IsReadAs, StagesMore, StagesSome, HasRotten, IsReadAlone, all_end};
ghost use Rattle.blob_copy.specs.Runs.{CopiesTo, MayTear};

use crate::CopyErr;
use compact_lists::{CloudNo, Fp, sha256};
use fresh_checkpoints::{CloudMemory, Failed, Shelf};
use record_laws::Log;

// The fingerprint of what was found, where it is short or has another than was named.
fn wrong_in(there: &[u8], len: usize, named: &Fp) -> Option<Fp>
    ensures wrong { IfSome result (λ found. IsRotten there.now len named.now found) }
    ensures right { IfNone result ((len ≤ length there.now) × (fingerprint there.now ≡ named.now)) }
{
    let found = sha256(there);
    if there.len() < len || found != *named {
        Some(found)
    } else {
        None
    }
}

// Reads the blob at a place into the buffer, from the device alone, and hashes it.
fn read_blob<V: Shelf>(
    log: &mut Log,
    shelf: &mut V,
    cloud: CloudNo,
    at: u64,
    named: &Fp,
    out: &mut [u8],
) -> Result<(), CopyErr>
    ensures read { MatchCopy result
        (λ done. IsReadAs (V.cloud_at shelf.old cloud.0).told (in_area log.old (V.cloud_at shelf.old cloud.0))
        (record { named = named.now; at = at; len = length out.old }) out.new)
        (Unit {0})
        (λ name found. (name ≡ named.now) × (IsTrue (V.cloud_at shelf.old cloud.0).told
        → IsRotten (bytes_at (in_area log.old (V.cloud_at shelf.old cloud.0)) at (length out.old))
        (length out.old) name found)) }
    ensures long { length out.new ≡ length out.old }
    ensures log { log.new ≡ log.old }
    ensures reads { IsReadAlone (V.cloud_at shelf.old) (V.cloud_at shelf.new) cloud.0
        (V.faults shelf.old) (V.faults shelf.new) }
    ensures counts { MatchFault result
        (HasFailed (V.cloud_at shelf.old cloud.0) (V.cloud_at shelf.new cloud.0)
        (V.faults shelf.old) (V.faults shelf.new))
        (KeepsCounts (V.cloud_at shelf.old cloud.0) (V.cloud_at shelf.new cloud.0)
        (V.faults shelf.old) (V.faults shelf.new)) }
{
    let len = out.len();
    match log.read_alone(shelf, cloud, at, out) {
        Ok(count) => {
            let (there, _) = out.split_at(count);
            match wrong_in(there, len, named) {
                Some(found) => Err(CopyErr::Rotten {
                    named: *named,
                    found,
                }),
                None => Ok(()),
            }
        }
        Err(Failed) => Err(CopyErr::Fault),
    }
}

// The same, and stages what was read.
fn copy_blob<V: Shelf>(
    log: &mut Log,
    shelf: &mut V,
    cloud: CloudNo,
    at: u64,
    named: &Fp,
    out: &mut [u8],
) -> Result<(), CopyErr>
    requires room { need_of log.old (length out.old) ≤ container_len }
    requires within { end_after (staged_end log.old) (length out.old) ≤ log.old.limit }
    ensures staged { MatchCopy result
        (λ done. StagesMore (V.cloud_at shelf.old cloud.0).told (in_area log.old (V.cloud_at shelf.old cloud.0))
        (record { named = named.now; at = at; len = length out.old } ∷ []) log.old log.new)
        (log.new ≡ log.old)
        (λ name found. (log.new ≡ log.old) × (name ≡ named.now) × (IsTrue (V.cloud_at shelf.old cloud.0).told
        → IsRotten (bytes_at (in_area log.old (V.cloud_at shelf.old cloud.0)) at (length out.old))
        (length out.old) name found)) }
    ensures long { length out.new ≡ length out.old }
    ensures reads { IsReadAlone (V.cloud_at shelf.old) (V.cloud_at shelf.new) cloud.0
        (V.faults shelf.old) (V.faults shelf.new) }
    ensures counts { MatchFault result
        (HasFailed (V.cloud_at shelf.old cloud.0) (V.cloud_at shelf.new cloud.0)
        (V.faults shelf.old) (V.faults shelf.new))
        (KeepsCounts (V.cloud_at shelf.old cloud.0) (V.cloud_at shelf.new cloud.0)
        (V.faults shelf.old) (V.faults shelf.new)) }
{
    match read_blob(log, shelf, cloud, at, named, out) {
        Ok(()) => match log.stage(out) {
            Ok(_) => Ok(()),
            Err(_) => unreachable!(),
        },
        Err(error) => Err(error),
    }
}

// Reads, hashes and stages a blob, or answers false where it has no room any more behind what is staged.
fn stage_blob<V: Shelf>(
    log: &mut Log,
    shelf: &mut V,
    cloud: CloudNo,
    at: u64,
    len: u32,
    named: &Fp,
    buffer: &mut [u8],
) -> Result<bool, CopyErr>
    requires few { len ≤ recipe_limit }
    requires buffer { recipe_limit ≤ length buffer.old }
    requires within { end_after (staged_end log.old) len ≤ log.old.limit }
    ensures staged { MatchCopy result
        (λ staged. EitherWay staged
        (StagesMore (V.cloud_at shelf.old cloud.0).told (in_area log.old (V.cloud_at shelf.old cloud.0))
        (record { named = named.now; at = at; len = len } ∷ []) log.old log.new)
        ((1 ≤ length log.old.staged) × (log.new ≡ log.old)))
        (log.new ≡ log.old)
        (λ name found. (log.new ≡ log.old) × (name ≡ named.now) × (IsTrue (V.cloud_at shelf.old cloud.0).told
        → IsRotten (bytes_at (in_area log.old (V.cloud_at shelf.old cloud.0)) at len) len name found)) }
    ensures buffer { length buffer.new ≡ length buffer.old }
    ensures reads { IsReadAlone (V.cloud_at shelf.old) (V.cloud_at shelf.new) cloud.0
        (V.faults shelf.old) (V.faults shelf.new) }
    ensures counts { MatchFault result
        (HasFailed (V.cloud_at shelf.old cloud.0) (V.cloud_at shelf.new cloud.0)
        (V.faults shelf.old) (V.faults shelf.new))
        (KeepsCounts (V.cloud_at shelf.old cloud.0) (V.cloud_at shelf.new cloud.0)
        (V.faults shelf.old) (V.faults shelf.new)) }
{
    if !log.has_room(len as usize) {
        return Ok(false);
    }
    let (out, _) = buffer.split_at_mut(len as usize);
    match copy_blob(log, shelf, cloud, at, named, out) {
        Ok(()) => Ok(true),
        Err(error) => Err(error),
    }
}

// Stages the share in a slot, where some user owns it, or answers false where it has no room any more.
fn stage_share<V: Shelf>(
    memory: &CloudMemory,
    log: &mut Log,
    shelf: &mut V,
    cloud: CloudNo,
    slot: u32,
    buffer: &mut [u8],
) -> Result<bool, CopyErr>
    requires inside { slot < length memory.now.shares.place_slots }
    requires fits { AreSharePlaces memory.now.shares.places }
    requires buffer { recipe_limit ≤ length buffer.old }
    requires within { all_end (live_at memory.now.shares.owners) share_blob memory.now.shares.place_slots
        slot (staged_end log.old) ≤ log.old.limit }
    ensures staged { MatchCopy result
        (λ staged. EitherWay staged
        (StagesMore (V.cloud_at shelf.old cloud.0).told (in_area log.old (V.cloud_at shelf.old cloud.0))
        (map share_blob (onto (live_at memory.now.shares.owners
        (slice_index_or memory.now.shares.place_slots slot None)) [])) log.old log.new)
        ((1 ≤ length log.old.staged) × (log.new ≡ log.old)))
        (log.new ≡ log.old)
        (λ name found. (log.new ≡ log.old) × (IsTrue (V.cloud_at shelf.old cloud.0).told
        → HasRotten share_blob (live_places memory.now)
        (in_area log.old (V.cloud_at shelf.old cloud.0)) name found)) }
    ensures buffer { length buffer.new ≡ length buffer.old }
    ensures reads { IsReadAlone (V.cloud_at shelf.old) (V.cloud_at shelf.new) cloud.0
        (V.faults shelf.old) (V.faults shelf.new) }
    ensures counts { MatchFault result
        (HasFailed (V.cloud_at shelf.old cloud.0) (V.cloud_at shelf.new cloud.0)
        (V.faults shelf.old) (V.faults shelf.new))
        (KeepsCounts (V.cloud_at shelf.old cloud.0) (V.cloud_at shelf.new cloud.0)
        (V.faults shelf.old) (V.faults shelf.new)) }
{
    match memory.live_share(slot) {
        Some((fp, place)) => stage_blob(log, shelf, cloud, place.at, place.len, &fp, buffer),
        None => Ok(true),
    }
}

// Stages the recipe of the entry in a slot, where there is one, or answers false where it has no room any more.
fn stage_recipe<V: Shelf>(
    memory: &CloudMemory,
    log: &mut Log,
    shelf: &mut V,
    cloud: CloudNo,
    slot: u32,
    buffer: &mut [u8],
) -> Result<bool, CopyErr>
    requires inside { slot < length memory.now.files.slots }
    requires fits { AreShort memory.now.files.files }
    requires buffer { recipe_limit ≤ length buffer.old }
    requires within { all_end (λ (e : Option (FileKey × Entry)). e) entry_blob memory.now.files.slots
        slot (staged_end log.old) ≤ log.old.limit }
    ensures staged { MatchCopy result
        (λ staged. EitherWay staged
        (StagesMore (V.cloud_at shelf.old cloud.0).told (in_area log.old (V.cloud_at shelf.old cloud.0))
        (map entry_blob (onto (slice_index_or memory.now.files.slots slot None) [])) log.old log.new)
        ((1 ≤ length log.old.staged) × (log.new ≡ log.old)))
        (log.new ≡ log.old)
        (λ name found. (log.new ≡ log.old) × (IsTrue (V.cloud_at shelf.old cloud.0).told
        → HasRotten entry_blob (live_entries memory.now)
        (in_area log.old (V.cloud_at shelf.old cloud.0)) name found)) }
    ensures buffer { length buffer.new ≡ length buffer.old }
    ensures reads { IsReadAlone (V.cloud_at shelf.old) (V.cloud_at shelf.new) cloud.0
        (V.faults shelf.old) (V.faults shelf.new) }
    ensures counts { MatchFault result
        (HasFailed (V.cloud_at shelf.old cloud.0) (V.cloud_at shelf.new cloud.0)
        (V.faults shelf.old) (V.faults shelf.new))
        (KeepsCounts (V.cloud_at shelf.old cloud.0) (V.cloud_at shelf.new cloud.0)
        (V.faults shelf.old) (V.faults shelf.new)) }
{
    match memory.live_file(slot) {
        Some((_, _, _, entry)) => stage_blob(
            log, shelf, cloud, entry.at, entry.len, &entry.fp, buffer,
        ),
        None => Ok(true),
    }
}

// Stages the shares that some user owns, from a slot on, as long as the next one has room, and answers the first slot that
// isn't gone over.
fn stage_shares<V: Shelf>(
    memory: &CloudMemory,
    log: &mut Log,
    shelf: &mut V,
    cloud: CloudNo,
    from: u32,
    buffer: &mut [u8],
) -> Result<u32, CopyErr>
    requires some { length (live_in memory.now.shares.owners (take from memory.now.shares.place_slots))
        < length (live_places memory.now) }
    requires fits { AreSharePlaces memory.now.shares.places }
    requires buffer { recipe_limit ≤ length buffer.old }
    requires none { HasStaged log.old [] }
    requires within { all_end (live_at memory.now.shares.owners) share_blob memory.now.shares.place_slots
        from log.old.end ≤ log.old.limit }
    ensures staged { MatchCopy result
        (λ to. StagesSome (live_at memory.now.shares.owners) share_blob memory.now.shares.place_slots from to
        (V.cloud_at shelf.old cloud.0) log.old log.new)
        (log.new ≡ record log.old { staged = log.new.staged })
        (λ name found. (log.new ≡ record log.old { staged = log.new.staged })
        × (IsTrue (V.cloud_at shelf.old cloud.0).told → HasRotten share_blob (live_places memory.now)
        (in_area log.old (V.cloud_at shelf.old cloud.0)) name found)) }
    ensures buffer { length buffer.new ≡ length buffer.old }
    ensures reads { IsReadAlone (V.cloud_at shelf.old) (V.cloud_at shelf.new) cloud.0
        (V.faults shelf.old) (V.faults shelf.new) }
    ensures counts { MatchFault result
        (HasFailed (V.cloud_at shelf.old cloud.0) (V.cloud_at shelf.new cloud.0)
        (V.faults shelf.old) (V.faults shelf.new))
        (KeepsCounts (V.cloud_at shelf.old cloud.0) (V.cloud_at shelf.new cloud.0)
        (V.faults shelf.old) (V.faults shelf.new)) }
{
    let slots = memory.shares().place_slots();
    for slot in from..slots {
        match stage_share(memory, log, shelf, cloud, slot, buffer) {
            Ok(staged) => {
                if !staged {
                    return Ok(slot);
                }
            }
            Err(error) => return Err(error),
        }
    }
    Ok(slots)
}

// Stages the entries' recipes, from a slot on, as long as the next one has room, and answers the first slot that isn't gone
// over.
fn stage_recipes<V: Shelf>(
    memory: &CloudMemory,
    log: &mut Log,
    shelf: &mut V,
    cloud: CloudNo,
    from: u32,
    buffer: &mut [u8],
) -> Result<u32, CopyErr>
    requires some { length (entries_in (take from memory.now.files.slots)) < length (live_entries memory.now) }
    requires fits { AreShort memory.now.files.files }
    requires buffer { recipe_limit ≤ length buffer.old }
    requires none { HasStaged log.old [] }
    requires within { all_end (λ (e : Option (FileKey × Entry)). e) entry_blob memory.now.files.slots
        from log.old.end ≤ log.old.limit }
    ensures staged { MatchCopy result
        (λ to. StagesSome (λ (e : Option (FileKey × Entry)). e) entry_blob memory.now.files.slots from to
        (V.cloud_at shelf.old cloud.0) log.old log.new)
        (log.new ≡ record log.old { staged = log.new.staged })
        (λ name found. (log.new ≡ record log.old { staged = log.new.staged })
        × (IsTrue (V.cloud_at shelf.old cloud.0).told → HasRotten entry_blob (live_entries memory.now)
        (in_area log.old (V.cloud_at shelf.old cloud.0)) name found)) }
    ensures buffer { length buffer.new ≡ length buffer.old }
    ensures reads { IsReadAlone (V.cloud_at shelf.old) (V.cloud_at shelf.new) cloud.0
        (V.faults shelf.old) (V.faults shelf.new) }
    ensures counts { MatchFault result
        (HasFailed (V.cloud_at shelf.old cloud.0) (V.cloud_at shelf.new cloud.0)
        (V.faults shelf.old) (V.faults shelf.new))
        (KeepsCounts (V.cloud_at shelf.old cloud.0) (V.cloud_at shelf.new cloud.0)
        (V.faults shelf.old) (V.faults shelf.new)) }
{
    let slots = memory.files().slots();
    for slot in from..slots {
        match stage_recipe(memory, log, shelf, cloud, slot, buffer) {
            Ok(staged) => {
                if !staged {
                    return Ok(slot);
                }
            }
            Err(error) => return Err(error),
        }
    }
    Ok(slots)
}

// An error, behind which nothing is staged any more.
fn forget_staged(log: &mut Log, error: CopyErr) -> CopyErr
    ensures same { result ≡ error }
    ensures forgets { log.new ≡ without_staged log.old }
{
    log.unstage();
    error
}

/// Copies the shares that some user owns behind the log's end, from a slot on, as long as the next one has room, by one write
/// and one sync. It answers the first slot that isn't gone over. After an error nothing is staged.
pub(crate) fn copy_shares<V: Shelf>(
    memory: &CloudMemory,
    log: &mut Log,
    shelf: &mut V,
    cloud: CloudNo,
    from: u32,
    buffer: &mut [u8],
) -> Result<u32, CopyErr>
    requires some { length (live_in memory.now.shares.owners (take from memory.now.shares.place_slots))
        < length (live_places memory.now) }
    requires fits { AreSharePlaces memory.now.shares.places }
    requires buffer { recipe_limit ≤ length buffer.old }
    requires none { HasStaged log.old [] }
    requires within { all_end (live_at memory.now.shares.owners) share_blob memory.now.shares.place_slots
        from log.old.end ≤ log.old.limit }
    ensures copied { MatchCopy result
        (λ to. CopiesTo (live_at memory.now.shares.owners) share_blob memory.now.shares.place_slots from to
        log.old log.new (V.cloud_at shelf.old cloud.0) (V.cloud_at shelf.new cloud.0))
        (log.new ≡ record log.old { kept = log.new.kept })
        (λ name found. (log.new ≡ log.old) × Stays (V.cloud_at shelf.old cloud.0) (V.cloud_at shelf.new cloud.0)
        × (IsTrue (V.cloud_at shelf.old cloud.0).told → HasRotten share_blob (live_places memory.now)
        (in_area log.old (V.cloud_at shelf.old cloud.0)) name found)) }
    ensures torn { IsTrue (V.cloud_at shelf.old cloud.0).told
        → MayTear log.old (all_end (live_at memory.now.shares.owners) share_blob memory.now.shares.place_slots
        from log.old.end) (V.cloud_at shelf.old cloud.0) (V.cloud_at shelf.new cloud.0) }
    ensures buffer { length buffer.new ≡ length buffer.old }
    ensures call { IsCall (V.cloud_at shelf.old) (V.cloud_at shelf.new) cloud.0
        (V.faults shelf.old) (V.faults shelf.new) }
    ensures counts { MatchFault result
        (HasFailed (V.cloud_at shelf.old cloud.0) (V.cloud_at shelf.new cloud.0)
        (V.faults shelf.old) (V.faults shelf.new))
        (KeepsCounts (V.cloud_at shelf.old cloud.0) (V.cloud_at shelf.new cloud.0)
        (V.faults shelf.old) (V.faults shelf.new)) }
{
    match stage_shares(memory, log, shelf, cloud, from, buffer) {
        Ok(to) => match log.flush(shelf, cloud) {
            Ok(()) => Ok(to),
            Err(Failed) => Err(CopyErr::Fault),
        },
        Err(error) => Err(forget_staged(log, error)),
    }
}

/// Copies the entries' recipes behind the log's end, from a slot on, as long as the next one has room, by one write and one
/// sync. It answers the first slot that isn't gone over. After an error nothing is staged.
pub(crate) fn copy_recipes<V: Shelf>(
    memory: &CloudMemory,
    log: &mut Log,
    shelf: &mut V,
    cloud: CloudNo,
    from: u32,
    buffer: &mut [u8],
) -> Result<u32, CopyErr>
    requires some { length (entries_in (take from memory.now.files.slots)) < length (live_entries memory.now) }
    requires fits { AreShort memory.now.files.files }
    requires buffer { recipe_limit ≤ length buffer.old }
    requires none { HasStaged log.old [] }
    requires within { all_end (λ (e : Option (FileKey × Entry)). e) entry_blob memory.now.files.slots
        from log.old.end ≤ log.old.limit }
    ensures copied { MatchCopy result
        (λ to. CopiesTo (λ (e : Option (FileKey × Entry)). e) entry_blob memory.now.files.slots from to
        log.old log.new (V.cloud_at shelf.old cloud.0) (V.cloud_at shelf.new cloud.0))
        (log.new ≡ record log.old { kept = log.new.kept })
        (λ name found. (log.new ≡ log.old) × Stays (V.cloud_at shelf.old cloud.0) (V.cloud_at shelf.new cloud.0)
        × (IsTrue (V.cloud_at shelf.old cloud.0).told → HasRotten entry_blob (live_entries memory.now)
        (in_area log.old (V.cloud_at shelf.old cloud.0)) name found)) }
    ensures torn { IsTrue (V.cloud_at shelf.old cloud.0).told
        → MayTear log.old (all_end (λ (e : Option (FileKey × Entry)). e) entry_blob memory.now.files.slots
        from log.old.end) (V.cloud_at shelf.old cloud.0) (V.cloud_at shelf.new cloud.0) }
    ensures buffer { length buffer.new ≡ length buffer.old }
    ensures call { IsCall (V.cloud_at shelf.old) (V.cloud_at shelf.new) cloud.0
        (V.faults shelf.old) (V.faults shelf.new) }
    ensures counts { MatchFault result
        (HasFailed (V.cloud_at shelf.old cloud.0) (V.cloud_at shelf.new cloud.0)
        (V.faults shelf.old) (V.faults shelf.new))
        (KeepsCounts (V.cloud_at shelf.old cloud.0) (V.cloud_at shelf.new cloud.0)
        (V.faults shelf.old) (V.faults shelf.new)) }
{
    match stage_recipes(memory, log, shelf, cloud, from, buffer) {
        Ok(to) => match log.flush(shelf, cloud) {
            Ok(()) => Ok(to),
            Err(Failed) => Err(CopyErr::Fault),
        },
        Err(error) => Err(forget_staged(log, error)),
    }
}
