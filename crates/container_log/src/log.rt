//! The log of an area.

ghost use Rattle.std.specs.Prelude.{◌≡◌, ◌≢◌, ◌↔◌, ℕ, ◌+◌, ◌-◌, ◌^◌, ◌<◌, ◌≤◌, List, [], ◌∷◌, ◌++◌, length, take};
ghost use Rattle.std.specs.Prelude.{replicate, map, All, IsTrue, IsOk, IfOk, OnOk, OnErr, MatchResult, vec_len, vec_capacity};
ghost use Rattle.cd_edges.specs.declared.area.Area.{Area};
ghost use Rattle.cd_edges.specs.Disk.{LeavesOnly, IsAtArea, MayLeave, moment, overwritten};
ghost use Rattle.cd_edges.specs.Shelf.{IsCall, HasFailed, KeepsCounts, Stays, ReadsFrom, wrote, stable};
ghost use Rattle.container_log.specs.Kept.{KeepsBelow};
ghost use Rattle.container_log.specs.Laying.{Placed, lengths, placed, IsAt};
ghost use Rattle.container_log.specs.Places.{container_len, place_of, end_after, end_of_laid};
ghost use Rattle.container_log.specs.States.{State, HasStaged, staged_end, need_of, with_blob, without_staged, after_flush};
ghost use Rattle.container_log.specs.States.{Agrees, OnAgreeing, IsContainerKept, IsAfterRead};
ghost use Rattle.container_log.specs.States.{in_area, KeepsEarlier, IsTorn, area_flushed};

use crate::LogFull;
use crate::cache::Cache;
use crate::places::{CONTAINER, gap_behind};
use crate::reading::read_kept;
use cd_edges::{Area, CloudNo, Failed, NoMemory, Shelf, write_synced};
use std::alloc::Global;
use std::marker::Model;
use std::mem;

/// The most bytes that can be staged, with the zeros between blobs: as many as a container has.
pub const STAGING: usize = CONTAINER as usize;

/// The log of an area: blobs in containers of 4,194,304 bytes, each in one container, behind one another.
///
/// A blob begins at the current end, or, where it wouldn't fit into the rest of that container, at the next container's first
/// place, with zeros between. The end is then the blob's end. Blobs are staged first, and then written by one flush.
#[derive(Drop)]
pub struct Log {
    area: Area,
    limit: u64,
    end: u64,
    // The bytes that are staged, in front, in memory that is taken once and written to as it is needed.
    buffer: Vec<u8>,
    used: usize,
    cache: Cache,
}

impl Model for Log {
    ghost use Rattle.std.specs.Prelude.{◌+◌, ◌^◌, ◌<◌, ◌≤◌, take, vec_len, vec_capacity};
    ghost use Rattle.container_log.specs.Places.{container_len};
    ghost use Rattle.container_log.specs.States.{State};

    ghost Value = { State };

    ghost view = { λ l. record {
      area = l.area;
      limit = l.limit;
      end = l.end;
      staged = take l.used l.buffer.items;
      keep = l.cache.keep;
      kept = l.cache.kept;
    } };

    ghost invariant = { λ l. (l.used ≤ vec_len l.buffer) × (l.used ≤ container_len) × (l.end + l.used < 2 ^ 64)
        × (container_len ≤ vec_capacity l.buffer) };
}

// Memory for what is staged, of which none is written to yet.
fn buffer_of(alloc: Global) -> Result<Vec<u8>, NoMemory>
    ensures { IfOk result (λ v. (v.items ≡ []) × (container_len ≤ vec_capacity v)) }
{
    Ok(Vec::with_capacity(alloc, STAGING)?)
}

// Appends so many zeros, for which there is room.
fn put_zeros(bytes: &mut Vec<u8>, count: usize)
    requires { vec_len bytes.old + count ≤ vec_capacity bytes.old }
    ensures items { bytes.new.items ≡ bytes.old.items ++ replicate count 0 }
    ensures capacity { vec_capacity bytes.old ≤ vec_capacity bytes.new }
{
    'zeros: for _place in 0..count {
        let _ = bytes.push(0);
    }
}

// Puts zeros and a blob behind what a buffer has in front.
fn put_behind(buffer: &mut Vec<u8>, used: usize, gap: usize, blob: &[u8])
    requires front { used ≤ vec_len buffer.old }
    requires room { used + gap + length blob.now ≤ vec_capacity buffer.old }
    ensures items { buffer.new.items ≡ take used buffer.old.items ++ replicate gap 0 ++ blob.now }
    ensures capacity { vec_capacity buffer.old ≤ vec_capacity buffer.new }
{
    buffer.truncate(used);
    put_zeros(buffer, gap);
    let _ = buffer.extend_from_slice(blob);
}

impl Log {
    /// The log of this area, which has no blob yet and may end at `limit` at most. It keeps up to `keep` containers that
    /// were read lately, 16 at most, and none of them yet. It takes a buffer of 4,194,304 bytes here, and writes to what of it is needed; a read may take as many
    /// for a container that it keeps, and where `keep` of them are kept gives the memory of one back first. No other call
    /// takes memory.
    pub fn make(alloc: Global, area: Area, limit: u64, keep: u32) -> Result<Log, NoMemory>
        requires keep { keep ≤ 16 }
        ensures made { IfOk result (λ log.
            log ≡ record { area = area; limit = limit; end = 0; staged = []; keep = keep; kept = [] }) }
        ensures none { IfOk result (λ log. HasStaged log []) }
        ensures agrees { (bytes : List ℕ) → IfOk result (λ log. Agrees log bytes) }
    {
        Ok(Log {
            area,
            limit,
            end: 0,
            buffer: buffer_of(alloc)?,
            used: 0,
            cache: Cache::make(alloc, keep)?,
        })
    }

    /// Says where the log ends, as a place of the area, and forgets what is staged and each container that is kept: so the
    /// log agrees with whatever the area has. It takes no memory.
    pub fn reset(&mut self, end: u64)
        ensures reset { self.new ≡ record self.old { end = end; staged = []; kept = [] } }
        ensures none { HasStaged self.new [] }
        ensures agrees { (bytes : List ℕ) → Agrees self.new bytes }
    {
        self.end = end;
        self.used = 0;
        self.cache.forget();
    }

    /// The place where the log ends. What is staged isn't counted.
    pub fn end(&self) -> u64
        ensures { result ≡ self.now.end }
    {
        self.end
    }

    /// Whether a blob of `len` bytes has room among what can be staged, zeros counted: it would end 4,194,304 bytes behind
    /// the log's end at most. So a blob of up to 4,194,304 bytes has room where the log ends at a container's first place and
    /// nothing is staged.
    pub fn has_room(&self, len: usize) -> bool
        ensures { IsTrue result ↔ (need_of self.now len ≤ container_len) }
    {
        let gap = gap_behind(self.end + self.used as u64, len as u64);
        len <= STAGING && self.used as u64 + gap + len as u64 <= STAGING as u64
    }

    /// Stages a blob, and answers its place in the area. LogFull comes exactly where the blob would end past the limit:
    /// `used` is the log's end, `need` reaches from there to the blob's end, and together they are more than `limit`. Nothing
    /// changes then. It copies the blob once and takes no memory.
    pub fn stage(&mut self, blob: &[u8]) -> Result<u64, LogFull>
        requires room { need_of self.old (length blob.now) ≤ container_len }

        ensures answer { MatchResult result
            (λ place. (self.old.end + need_of self.old (length blob.now) ≤ self.old.limit)
            × (place ≡ place_of (staged_end self.old) (length blob.now)))
            (λ full. (self.old.limit < self.old.end + need_of self.old (length blob.now))
            × (full ≡ record {
              used = self.old.end;
              need = need_of self.old (length blob.now);
              limit = self.old.limit;
            })) }
        ensures ok { OnOk result (self.new ≡ with_blob self.old blob.now) }
        ensures err { OnErr result (self.new ≡ self.old) }
        ensures place { (blobs : List (List ℕ)) → HasStaged self.old blobs
            → IfOk result (λ place. place ≡ place_of (end_of_laid self.old.end (lengths blobs)) (length blob.now)) }
        ensures staged { (blobs : List (List ℕ)) → HasStaged self.old blobs
            → OnOk result (HasStaged self.new (blobs ++ blob.now ∷ [])) }
    {
        let behind = self.end + self.used as u64;
        let gap = gap_behind(behind, blob.len() as u64);
        let need = self.used as u64 + gap + blob.len() as u64;
        if self.end > self.limit || need > self.limit - self.end {
            return Err(LogFull {
                used: self.end,
                need,
                limit: self.limit,
            });
        }
        put_behind(&mut self.buffer, self.used, gap as usize, blob);
        self.used = need as usize;
        Ok(behind + gap)
    }

    /// Forgets what is staged.
    pub fn unstage(&mut self)
        ensures forgets { self.new ≡ without_staged self.old }
        ensures none { HasStaged self.new [] }
    {
        self.used = 0;
    }

    /// Writes what is staged at the log's end, by one write and one sync of the area; where nothing is staged, it makes no
    /// device call. After Ok the log ends behind the last blob, and a crash leaves each at its place. After Failed, which
    /// comes only where the cloud's count of faults rose, the log ends where it did. Nothing is staged afterwards. It takes
    /// no memory.
    ///
    /// Whenever a crash comes, each byte below the log's old end that lay in the area at its last Ok sync and wasn't written
    /// since is there still, and the other areas are left as they might have been before. An area may be longer than the
    /// log, by what an earlier crash left of a flush: as many bytes of that tail are written over as are staged, and what
    /// lies behind them stays. Where the area is shorter, zeros fill the gap.
    ///
    /// Before it writes it forgets each container that it writes, and each that is kept with fewer than 4,194,304 bytes; after
    /// Failed it has forgotten all. So a log that agrees with the area does so afterwards.
    pub fn flush<V: Shelf>(&mut self, shelf: &mut V, cloud: CloudNo) -> Result<(), Failed>
        ensures any_moment { IsTrue (V.cloud_at shelf.old cloud.0).told
            → LeavesOnly (V.cloud_at shelf.old cloud.0) (V.cloud_at shelf.new cloud.0)
            (KeepsEarlier self.old (V.cloud_at shelf.old cloud.0)) }
        ensures torn { IsTrue (V.cloud_at shelf.old cloud.0).told
            → LeavesOnly (V.cloud_at shelf.old cloud.0) (V.cloud_at shelf.new cloud.0)
            (IsTorn self.old (V.cloud_at shelf.old cloud.0)) }

        ensures written { IsTrue (V.cloud_at shelf.old cloud.0).told → self.old.staged ≢ []
            → OnOk result ((V.cloud_at shelf.new cloud.0).now self.old.area
            ≡ area_flushed self.old (V.cloud_at shelf.old cloud.0)) }
        ensures placed { IsTrue (V.cloud_at shelf.old cloud.0).told → (blobs : List (List ℕ)) → HasStaged self.old blobs
            → OnOk result (All (IsAt (in_area self.old (V.cloud_at shelf.new cloud.0))) (placed self.old.end blobs)) }
        ensures kept { IsTrue (V.cloud_at shelf.old cloud.0).told → (b : Placed)
            → b.place + length b.blob ≤ self.old.end → IsAt (in_area self.old (V.cloud_at shelf.old cloud.0)) b
            → OnOk result (IsAt (in_area self.old (V.cloud_at shelf.new cloud.0)) b) }
        ensures others { IsTrue (V.cloud_at shelf.old cloud.0).told
            → OnOk result ((other : Area) → other ≢ self.old.area
            → (V.cloud_at shelf.new cloud.0).now other ≡ (V.cloud_at shelf.old cloud.0).now other) }
        ensures moments { IsTrue (V.cloud_at shelf.old cloud.0).told → self.old.staged ≢ []
            → OnOk result (moment (V.cloud_at shelf.new cloud.0) ≡ moment (V.cloud_at shelf.old cloud.0) + 2) }
        ensures nothing { self.old.staged ≡ [] → (shelf.new ≡ shelf.old) × (self.new ≡ self.old) × IsOk result }

        ensures agrees { OnAgreeing self.old (V.cloud_at shelf.old cloud.0)
            (Agrees self.new (in_area self.new (V.cloud_at shelf.new cloud.0))) }

        ensures log { self.new ≡ after_flush self.old result }
        ensures end { (blobs : List (List ℕ)) → HasStaged self.old blobs
            → OnOk result (self.new.end ≡ end_of_laid self.old.end (lengths blobs)) }
        ensures none { HasStaged self.new [] }
        ensures call { IsCall (V.cloud_at shelf.old) (V.cloud_at shelf.new) cloud.0
            (V.faults shelf.old) (V.faults shelf.new) }
        ensures failed { OnErr result (HasFailed (V.cloud_at shelf.old cloud.0) (V.cloud_at shelf.new cloud.0)
            (V.faults shelf.old) (V.faults shelf.new)) }
        ensures uncounted { OnOk result (KeepsCounts (V.cloud_at shelf.old cloud.0) (V.cloud_at shelf.new cloud.0)
            (V.faults shelf.old) (V.faults shelf.new)) }
    {
        if self.used == 0 {
            return Ok(());
        }
        let used = mem::take(&mut self.used);
        self.cache.forget_changed(
            self.end / CONTAINER,
            (self.end + (used as u64 - 1)) / CONTAINER,
        );
        match write_synced(shelf, cloud, self.area, self.end, &self.buffer[..used]) {
            Ok(()) => {
                self.end += used as u64;
                Ok(())
            }
            Err(Failed) => {
                self.cache.forget();
                Err(Failed)
            }
        }
    }

    /// Puts what the area has from place `place` on in front of `out`, and answers how many bytes that are: fewer than
    /// `out.len()` exactly where the area ends there. What is staged isn't seen. Failed comes only where the cloud's count of
    /// faults rose.
    ///
    /// Where the bytes lie in a container that is kept, no device is called: so the answer is the area's where the log agrees
    /// with it. Else it makes one device call. Where they lie in one container, it reads that container whole, up to the
    /// area's end, and keeps it, where containers are to be kept and memory allows. Where as many are kept as may be, the one
    /// that was read longest ago is forgotten before, and the new one takes over its memory; where memory is lacking all the
    /// same, it stays forgotten. One in which the area ends takes, once it is kept, no more memory than it has bytes. Else it
    /// reads these bytes alone. After Failed it has forgotten all.
    pub fn read<V: Shelf>(
        &mut self,
        shelf: &mut V,
        cloud: CloudNo,
        place: u64,
        out: &mut [u8],
    ) -> Result<usize, Failed>
        ensures bytes { OnAgreeing self.old (V.cloud_at shelf.old cloud.0)
            (IfOk result (λ count. ReadsFrom (in_area self.old (V.cloud_at shelf.old cloud.0)) place count out.new)) }
        ensures blob { OnAgreeing self.old (V.cloud_at shelf.old cloud.0)
            ((b : Placed) → b.place ≡ place → length b.blob ≡ length out.old
            → IsAt (in_area self.old (V.cloud_at shelf.old cloud.0)) b → OnOk result (out.new ≡ b.blob)) }
        ensures bound { IfOk result (λ count. count ≤ length out.new) }
        ensures agrees { OnAgreeing self.old (V.cloud_at shelf.old cloud.0)
            (Agrees self.new (in_area self.new (V.cloud_at shelf.new cloud.0))) }
        ensures no_call { (bytes : List ℕ) → IsContainerKept self.old place (length out.old) bytes
            → (shelf.new ≡ shelf.old) × IsOk result }
        ensures log { self.new ≡ record self.old { kept = self.new.kept } }
        ensures kept { OnOk result (IsAfterRead self.old place self.new) }
        ensures forgets { OnErr result (self.new.kept ≡ []) }
        ensures stays { Stays (V.cloud_at shelf.old cloud.0) (V.cloud_at shelf.new cloud.0) }
        ensures call { IsCall (V.cloud_at shelf.old) (V.cloud_at shelf.new) cloud.0
            (V.faults shelf.old) (V.faults shelf.new) }
        ensures failed { OnErr result (HasFailed (V.cloud_at shelf.old cloud.0) (V.cloud_at shelf.new cloud.0)
            (V.faults shelf.old) (V.faults shelf.new)) }
        ensures uncounted { OnOk result (KeepsCounts (V.cloud_at shelf.old cloud.0) (V.cloud_at shelf.new cloud.0)
            (V.faults shelf.old) (V.faults shelf.new)) }
    {
        match read_kept(&mut self.cache, shelf, cloud, self.area, place, out) {
            Ok(count) => Ok(count),
            Err(Failed) => {
                self.cache.forget();
                Err(Failed)
            }
        }
    }

    /// The same by one device call that reads these bytes alone, whatever is kept: so the answer is the area's in any case.
    /// Nothing is kept for it or forgotten, and it takes no memory.
    pub fn read_alone<V: Shelf>(
        &mut self,
        shelf: &mut V,
        cloud: CloudNo,
        place: u64,
        out: &mut [u8],
    ) -> Result<usize, Failed>
        ensures bytes { IsTrue (V.cloud_at shelf.old cloud.0).told
            → IfOk result (λ count. ReadsFrom (in_area self.old (V.cloud_at shelf.old cloud.0)) place count out.new) }
        ensures blob { IsTrue (V.cloud_at shelf.old cloud.0).told
            → (b : Placed) → b.place ≡ place → length b.blob ≡ length out.old
            → IsAt (in_area self.old (V.cloud_at shelf.old cloud.0)) b → OnOk result (out.new ≡ b.blob) }
        ensures bound { IfOk result (λ count. count ≤ length out.new) }
        ensures log { self.new ≡ self.old }
        ensures stays { Stays (V.cloud_at shelf.old cloud.0) (V.cloud_at shelf.new cloud.0) }
        ensures call { IsCall (V.cloud_at shelf.old) (V.cloud_at shelf.new) cloud.0
            (V.faults shelf.old) (V.faults shelf.new) }
        ensures failed { OnErr result (HasFailed (V.cloud_at shelf.old cloud.0) (V.cloud_at shelf.new cloud.0)
            (V.faults shelf.old) (V.faults shelf.new)) }
        ensures uncounted { OnOk result (KeepsCounts (V.cloud_at shelf.old cloud.0) (V.cloud_at shelf.new cloud.0)
            (V.faults shelf.old) (V.faults shelf.new)) }
    {
        shelf.read(cloud, self.area, place, out)
    }
}
