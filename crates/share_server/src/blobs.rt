//! What a server's memory names, slot by slot, and its blobs as the device reads them now.

ghost use Rattle.std.specs.Prelude.{◌≡◌, ◌↔◌, ◌+◌, ◌≤◌, ◌==◌, List, length, take, drop, option_map};
ghost use Rattle.std.specs.Prelude.{if◌then◌else◌, IsTrue, IsSome, IfOk, OnOk, OnErr, Ok, Err};
ghost use Rattle.std.specs.FinMap as maps;
ghost use Rattle.server_requests.specs.CdBase.shape.Shape.{Shape};
ghost use Rattle.server_requests.specs.CdEdges.Shelf.{IsCall, HasFailed, KeepsCounts, Stays, ReadsFrom};
ghost use Rattle.blob_copy.specs.CloudMemory.Live.{live_at, IsEachLive};
ghost use Rattle.blob_copy.specs.CloudMemory.Memory.{Remembers};
ghost use Rattle.blob_copy.specs.CloudMemory.Rooms.{memory_of};
ghost use Rattle.server_requests.specs.FileIndex.Files.{entry_with};
ghost use Rattle.blob_copy.specs.PoolMap.Slots.{slot_of, IsListed};
ghost use Rattle.server_requests.specs.CloudStore.Store.{IsOpen};
ghost use Rattle.blob_copy.specs.ShareIndex.Order.{owner_of};
ghost use Rattle.blob_copy.specs.ShareIndex.Placed.{AreAllPlaced};
ghost use Rattle.blob_copy.specs.ShareIndex.Shares.{place_with};
ghost use Rattle.server_requests.specs.UserDedup.Cloud.{user_view};
ghost use Rattle.server_requests.specs.UserDedup.Owning.{is_among};
ghost use Rattle.server_requests.specs.UserDedup.command.Command.{Command};
ghost use Rattle.share_server.specs.Blobs.{BlobIs, AppendsBlobBytes, OnBlobFault};
ghost use Rattle.share_server.specs.Serving.{number_of};
ghost use Rattle.share_server.specs.declared.blobs.BlobErr.TheVariants.{Short};

use crate::Server;
use server_requests::{
    Area, Bytes, CloudNo, Entry, Failed, Fp, NoMemory, Place, Shelf, Tag, UserId, Version,
};

/// Why a blob isn't read whole.
#[derive(Clone, Copy)]
pub enum BlobErr {
    /// A device failed.
    Fault,
    /// The area ends before: so many bytes are there, and they were appended.
    Short { found: u32 },
    /// Memory ran out.
    NoMemory,
}

impl Server {
    /// The share in a slot of the memory's tables that some user owns, and its place. None exactly for a slot without one; the
    /// slots are numbered from 0, at most 524,288 of them, and each share that some user owns and that has a place stands in
    /// just one. While the server is open each that some user owns has a place.
    pub fn live_share(&self, slot: u32) -> Option<(Fp, Place)>
        ensures value { option_map place_with result ≡ live_at self.now.store.memory.shares slot }
        ensures each { IsEachLive self.now.store.memory.shares }
        ensures few { length self.now.store.memory.shares.place_slots ≤ 524288 }
        ensures placed { IsOpen self.now.store
            → AreAllPlaced self.now.store.memory.shares.places self.now.store.memory.shares.owners }
    {
        self.store().memory.live_share(slot)
    }

    /// The entry in a slot of the memory's tables, whose it is, and of which version. None exactly for a slot without one; the
    /// slots are numbered from 0, at most 16,384 of them, and each entry stands in just one.
    pub fn live_file(&self, slot: u32) -> Option<(UserId, Tag, Version, Entry)>
        ensures value { option_map entry_with result ≡ slot_of self.now.store.memory.files.slots slot }
        ensures each { IsListed self.now.store.memory.files.files self.now.store.memory.files.slots }
        ensures few { length self.now.store.memory.files.slots ≤ 16384 }
    {
        self.store().memory.live_file(slot)
    }

    /// Whether the user owns the fingerprint, by the memory.
    pub fn owns(&self, user: UserId, fp: &Fp) -> bool
        ensures kept { IsTrue result
            ↔ IsSome (maps.get self.now.store.memory.shares.owners (owner_of user.0 fp.now.0)) }
        ensures meaning { (shape : Shape) (list : List Command)
            → Remembers shape list (memory_of self.now.store.memory)
            → result ≡ is_among (user_view shape list user).own fp.now }
    {
        self.store().memory.owns(user, fp)
    }

    /// Appends the blob at a place of an area, as the device reads it now: nothing that is kept of it is asked. Short comes
    /// exactly where the area ends before; the bytes that there are were appended then. Fault comes only where a device
    /// failed, and then as after NoMemory nothing was appended. The server stays, and so do the cloud's areas.
    pub fn read_blob<V: Shelf>(
        &mut self,
        shelf: &mut V,
        area: Area,
        place: Place,
        out: &mut Bytes,
    ) -> Result<(), BlobErr>
        ensures blob { IsTrue (V.cloud_at shelf.old (number_of self.old)).told
            → BlobIs ((V.cloud_at shelf.old (number_of self.old)).now area).read place result out.old out.new }
        ensures appends { AppendsBlobBytes place.len result out.old out.new }
        ensures server { self.new ≡ self.old }
        ensures stays { Stays (V.cloud_at shelf.old (number_of self.old)) (V.cloud_at shelf.new (number_of self.old)) }
        ensures call { IsCall (V.cloud_at shelf.old) (V.cloud_at shelf.new) (number_of self.old) (V.faults shelf.old)
            (V.faults shelf.new) }
        ensures counts { OnBlobFault result
            (HasFailed (V.cloud_at shelf.old (number_of self.old)) (V.cloud_at shelf.new (number_of self.old))
            (V.faults shelf.old) (V.faults shelf.new))
            (KeepsCounts (V.cloud_at shelf.old (number_of self.old)) (V.cloud_at shelf.new (number_of self.old))
            (V.faults shelf.old) (V.faults shelf.new)) }
    {
        read_into(shelf, self.header().cloud, area, place, out)
    }
}

// Puts what the area has from a place on behind so many bytes, as much as fits there.
fn read_behind<V: Shelf>(
    shelf: &mut V,
    cloud: CloudNo,
    area: Area,
    at: u64,
    bytes: &mut [u8],
    filled: usize,
) -> Result<usize, Failed>
    requires { filled ≤ length bytes.old }
    ensures kept { take filled bytes.new ≡ take filled bytes.old }
    ensures within { IfOk result (λ count. filled + count ≤ length bytes.old) }
    ensures bytes { IsTrue (V.cloud_at shelf.old cloud.0).told → IfOk result (λ count.
        ReadsFrom ((V.cloud_at shelf.old cloud.0).now area).read at count (drop filled bytes.new)) }
    ensures stays { Stays (V.cloud_at shelf.old cloud.0) (V.cloud_at shelf.new cloud.0) }
    ensures call { IsCall (V.cloud_at shelf.old) (V.cloud_at shelf.new) cloud.0 (V.faults shelf.old)
        (V.faults shelf.new) }
    ensures failed { OnErr result (HasFailed (V.cloud_at shelf.old cloud.0) (V.cloud_at shelf.new cloud.0)
        (V.faults shelf.old) (V.faults shelf.new)) }
    ensures uncounted { OnOk result (KeepsCounts (V.cloud_at shelf.old cloud.0) (V.cloud_at shelf.new cloud.0)
        (V.faults shelf.old) (V.faults shelf.new)) }
{
    shelf.read(cloud, area, at, &mut bytes[filled..])
}

// What so many bytes of a blob are: all, or too few.
fn ended(count: usize, len: u32) -> Result<(), BlobErr>
    requires { count ≤ len }
    ensures { result ≡ (if count == len then Ok tt else Err (Short count)) }
{
    if count == len as usize {
        Ok(())
    } else {
        Err(BlobErr::Short {
            found: count as u32,
        })
    }
}

// Appends the blob at a place of a cloud's area.
fn read_into<V: Shelf>(
    shelf: &mut V,
    cloud: CloudNo,
    area: Area,
    place: Place,
    out: &mut Bytes,
) -> Result<(), BlobErr>
    ensures blob { IsTrue (V.cloud_at shelf.old cloud.0).told
        → BlobIs ((V.cloud_at shelf.old cloud.0).now area).read place result out.old out.new }
    ensures appends { AppendsBlobBytes place.len result out.old out.new }
    ensures stays { Stays (V.cloud_at shelf.old cloud.0) (V.cloud_at shelf.new cloud.0) }
    ensures call { IsCall (V.cloud_at shelf.old) (V.cloud_at shelf.new) cloud.0 (V.faults shelf.old)
        (V.faults shelf.new) }
    ensures counts { OnBlobFault result
        (HasFailed (V.cloud_at shelf.old cloud.0) (V.cloud_at shelf.new cloud.0)
        (V.faults shelf.old) (V.faults shelf.new))
        (KeepsCounts (V.cloud_at shelf.old cloud.0) (V.cloud_at shelf.new cloud.0)
        (V.faults shelf.old) (V.faults shelf.new)) }
{
    let before = out.len();
    let Some(whole) = before.checked_add(place.len as usize) else {
        return Err(BlobErr::NoMemory);
    };
    match out.resize(whole, 0) {
        Ok(()) => {}
        Err(NoMemory) => return Err(BlobErr::NoMemory),
    }
    match read_behind(shelf, cloud, area, place.at, out.as_mut_slice(), before) {
        Ok(count) => {
            out.truncate(before + count);
            ended(count, place.len)
        }
        Err(Failed) => {
            out.truncate(before);
            Err(BlobErr::Fault)
        }
    }
}
