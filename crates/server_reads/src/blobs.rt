//! Blobs, read and compared with their fingerprints.

ghost use Rattle.std.specs.Prelude.{◌≡◌, ◌↔◌, List, ℕ, [], length, IsTrue, OnOk, OnErr, IfOk, IfErr, Ok};
ghost use Rattle.cloud_memory.specs.CdBase.ids.Fp.{Fp};
ghost use Rattle.cd_edges.specs.Disk.{Cloud};
ghost use Rattle.cd_edges.specs.Shelf.{IsCall, HasFailed, KeepsCounts, Stays};
ghost use Rattle.cloud_memory.specs.ContainerLog.Laying.{Placed, IsAt};
ghost use Rattle.cloud_memory.specs.ContainerLog.States.{Agrees};
ghost use Rattle.cloud_memory.specs.UserDedup.Cloud.{fingerprint};
ghost use Rattle.server_reads.specs.Found.{IsOther, ReadsLog};
ghost use Rattle.server_reads.specs.declared.blobs.BlobStop.TheVariants as stops;
ghost use Rattle.server_reads.specs.Reading.{HasReadCloud, IfRotten};

use cd_edges::{Failed, Shelf};
use cloud_memory::{CloudNo, Fp, Log, sha256};

/// Why a blob isn't given.
#[derive(Clone, Copy)]
pub enum BlobStop {
    /// The device failed.
    Failed,
    /// What lies there is another: the fingerprint that was named, and that of what was found.
    Rotten { named: Fp, found: Fp },
}

// Compares the bytes that were found with the length and the fingerprint that were named.
fn compare(there: &[u8], len: usize, fp: &Fp) -> Result<(), BlobStop>
    ensures ok { OnOk result (length there.now ≡ len) }
    ensures hashed { OnOk result (fingerprint there.now ≡ fp.now) }
    ensures err { IfErr result (λ stop. stop ≡ stops.Rotten fp.now (fingerprint there.now)) }
    ensures whole { length there.now ≡ len → fingerprint there.now ≡ fp.now → result ≡ Ok tt }
{
    let found = sha256(there);
    if there.len() == len && found == *fp {
        Ok(())
    } else {
        Err(BlobStop::Rotten { named: *fp, found })
    }
}

// Fills the buffer with what lies at a place, by way of what the log keeps, and answers whether that is as long and has
// the fingerprint.
fn read_through<V: Shelf>(
    log: &mut Log,
    shelf: &mut V,
    cloud: CloudNo,
    at: u64,
    fp: &Fp,
    out: &mut [u8],
) -> Result<bool, Failed>
    ensures hashed { IfOk result (λ fits. IsTrue fits → fingerprint out.new ≡ fp.now) }
    ensures blob { IsTrue (V.cloud_at shelf.old cloud.0).told
        → Agrees log.old ((V.cloud_at shelf.old cloud.0).now log.old.area).read
        → (b : Placed) → b.place ≡ at → length b.blob ≡ length out.old
        → IsAt ((V.cloud_at shelf.old cloud.0).now log.old.area).read b
        → OnOk result (out.new ≡ b.blob) }
    ensures log { ReadsLog log.old log.new (V.cloud_at shelf.old cloud.0) (V.cloud_at shelf.new cloud.0) }
    ensures stays { Stays (V.cloud_at shelf.old cloud.0) (V.cloud_at shelf.new cloud.0) }
    ensures call { IsCall (V.cloud_at shelf.old) (V.cloud_at shelf.new) cloud.0
        (V.faults shelf.old) (V.faults shelf.new) }
    ensures failed { OnErr result (HasFailed (V.cloud_at shelf.old cloud.0) (V.cloud_at shelf.new cloud.0)
        (V.faults shelf.old) (V.faults shelf.new)) }
    ensures uncounted { OnOk result (KeepsCounts (V.cloud_at shelf.old cloud.0) (V.cloud_at shelf.new cloud.0)
        (V.faults shelf.old) (V.faults shelf.new)) }
{
    let len = out.len();
    match log.read(shelf, cloud, at, out) {
        Ok(count) => {
            let (there, _) = out.split_at(count);
            Ok(compare(there, len, fp).is_ok())
        }
        Err(Failed) => Err(Failed),
    }
}

// The same from the device alone, whatever the log keeps.
fn read_device<V: Shelf>(
    log: &mut Log,
    shelf: &mut V,
    cloud: CloudNo,
    at: u64,
    fp: &Fp,
    out: &mut [u8],
) -> Result<(), BlobStop>
    ensures hashed { OnOk result (fingerprint out.new ≡ fp.now) }
    ensures named { IfRotten result (λ named found. named ≡ fp.now) }
    ensures found { IsTrue (V.cloud_at shelf.old cloud.0).told
        → IfRotten result (λ named found.
        IsOther ((V.cloud_at shelf.old cloud.0).now log.old.area).read at (length out.old) named found) }
    ensures whole { IsTrue (V.cloud_at shelf.old cloud.0).told
        → (b : Placed) → b.place ≡ at → length b.blob ≡ length out.old → fingerprint b.blob ≡ fp.now
        → IsAt ((V.cloud_at shelf.old cloud.0).now log.old.area).read b → IfRotten result (λ named found. ⊥) }
    ensures blob { IsTrue (V.cloud_at shelf.old cloud.0).told → (b : Placed) → b.place ≡ at
        → length b.blob ≡ length out.old → fingerprint b.blob ≡ fp.now
        → IsAt ((V.cloud_at shelf.old cloud.0).now log.old.area).read b → OnOk result (out.new ≡ b.blob) }
    ensures log { log.new ≡ log.old }
    ensures reads { HasReadCloud (V.cloud_at shelf.old) (V.cloud_at shelf.new) cloud.0
        (V.faults shelf.old) (V.faults shelf.new) result }
{
    let len = out.len();
    match log.read_alone(shelf, cloud, at, out) {
        Ok(count) => {
            let (there, _) = out.split_at(count);
            compare(there, len, fp)
        }
        Err(Failed) => Err(BlobStop::Failed),
    }
}

/// Fills the buffer with what lies at a place: by way of what the log keeps, and, where that isn't as long or has another
/// fingerprint, from the device alone. So Rotten comes exactly where fewer bytes lie on the device or their fingerprint is
/// another, with that of the bytes that lie there; and Failed only where the cloud's count of faults rose.
pub fn read_blob<V: Shelf>(
    log: &mut Log,
    shelf: &mut V,
    cloud: CloudNo,
    at: u64,
    fp: &Fp,
    out: &mut [u8],
) -> Result<(), BlobStop>
    ensures hashed { OnOk result (fingerprint out.new ≡ fp.now) }
    ensures named { IfRotten result (λ named found. named ≡ fp.now) }
    ensures found { IsTrue (V.cloud_at shelf.old cloud.0).told
        → IfRotten result (λ named found.
        IsOther ((V.cloud_at shelf.old cloud.0).now log.old.area).read at (length out.old) named found) }
    ensures whole { IsTrue (V.cloud_at shelf.old cloud.0).told
        → (b : Placed) → b.place ≡ at → length b.blob ≡ length out.old → fingerprint b.blob ≡ fp.now
        → IsAt ((V.cloud_at shelf.old cloud.0).now log.old.area).read b → IfRotten result (λ named found. ⊥) }
    ensures blob { IsTrue (V.cloud_at shelf.old cloud.0).told
        → Agrees log.old ((V.cloud_at shelf.old cloud.0).now log.old.area).read
        → (b : Placed) → b.place ≡ at → length b.blob ≡ length out.old → fingerprint b.blob ≡ fp.now
        → IsAt ((V.cloud_at shelf.old cloud.0).now log.old.area).read b → OnOk result (out.new ≡ b.blob) }
    ensures log { ReadsLog log.old log.new (V.cloud_at shelf.old cloud.0) (V.cloud_at shelf.new cloud.0) }
    ensures reads { HasReadCloud (V.cloud_at shelf.old) (V.cloud_at shelf.new) cloud.0
        (V.faults shelf.old) (V.faults shelf.new) result }
{
    match read_through(log, shelf, cloud, at, fp, out) {
        Ok(true) => Ok(()),
        Ok(false) => match read_device(log, shelf, cloud, at, fp, out) {
            Ok(()) => Ok(()),
            Err(stop) => Err(stop),
        },
        Err(Failed) => Err(BlobStop::Failed),
    }
}

/// Nothing is found where something was named: what is found has the fingerprint of no bytes.
pub(crate) fn nothing_at(fp: &Fp) -> BlobStop
    ensures { result ≡ stops.Rotten fp.now (fingerprint []) }
{
    BlobStop::Rotten {
        named: *fp,
        found: sha256(&[]),
    }
}
