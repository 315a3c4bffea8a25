//! A container that was read.

ghost use Rattle.std.specs.Prelude.{◌≡◌, ◌*◌, ◌^◌, ◌<◌, ◌≤◌, length, IsTrue, IfSome, OnOk, OnErr};
ghost use Rattle.cd_edges.specs.Shelf.{IsCall, HasFailed, KeepsCounts, Stays, ReadsFrom};
ghost use Rattle.container_log.specs.Caches.{container_of, is_left};
ghost use Rattle.container_log.specs.Places.{container_len};

use crate::places::CONTAINER;
use cd_edges::{Area, CloudNo, Failed, Shelf};
use std::alloc::Global;
use std::marker::Model;

/// The bytes of a container, up to the area's end. Contracts see the list.
#[derive(Drop)]
pub(crate) struct Container {
    bytes: Vec<u8>,
}

impl Model for Container {
    ghost use Rattle.std.specs.Prelude.{ℕ, List};

    ghost Value = { List ℕ };

    ghost view = { λ c. c.bytes.items };
}

impl Container {
    /// As many zeros as a container has bytes; None where memory is lacking.
    pub(crate) fn make(alloc: Global, len: usize) -> Option<Container>
        ensures { IfSome result (λ container. length container ≡ len) }
    {
        let bytes = vec![in alloc; 0u8; len].ok()?;
        Some(Container { bytes })
    }

    /// A buffer of so many bytes: it takes over the memory of a container that has as many. A shorter one it gives back
    /// first, and takes memory for zeros; None where that is lacking.
    pub(crate) fn taken_over(self, alloc: Global, len: usize) -> Option<Container>
        ensures { IfSome result (λ container. length container ≡ len) }
    {
        if self.bytes.len() == len {
            return Some(self);
        }
        drop(self);
        Container::make(alloc, len)
    }

    /// Reads a container whole, up to the area's end, by one device call. Where the area ends in it, it gives back what
    /// memory it has beyond.
    pub(crate) fn fill<V: Shelf>(
        &mut self,
        shelf: &mut V,
        cloud: CloudNo,
        area: Area,
        number: u64,
    ) -> Result<(), Failed>
        requires whole { length self.old ≡ container_len }
        requires within { number * container_len < 2 ^ 64 }
        ensures read { IsTrue (V.cloud_at shelf.old cloud.0).told
            → OnOk result (self.new ≡ container_of ((V.cloud_at shelf.old cloud.0).now area).read number) }
        ensures stays { Stays (V.cloud_at shelf.old cloud.0) (V.cloud_at shelf.new cloud.0) }
        ensures call { IsCall (V.cloud_at shelf.old) (V.cloud_at shelf.new) cloud.0
            (V.faults shelf.old) (V.faults shelf.new) }
        ensures failed { OnErr result (HasFailed (V.cloud_at shelf.old cloud.0) (V.cloud_at shelf.new cloud.0)
            (V.faults shelf.old) (V.faults shelf.new)) }
        ensures uncounted { OnOk result (KeepsCounts (V.cloud_at shelf.old cloud.0) (V.cloud_at shelf.new cloud.0)
            (V.faults shelf.old) (V.faults shelf.new)) }
    {
        let count = shelf.read(cloud, area, number * CONTAINER, &mut self.bytes)?;
        self.bytes.truncate(count);
        self.bytes.shrink_to_fit();
        Ok(())
    }

    /// Puts its bytes from a place on in front of `out`, and answers how many these are.
    pub(crate) fn copy_from(&self, from: usize, out: &mut [u8]) -> usize
        ensures { ReadsFrom self.now from result out.new }
    {
        let bytes = self.bytes.as_slice();
        if bytes.len() <= from {
            return 0;
        }
        let count = out.len().min(bytes.len() - from);
        out[..count].copy_from_slice(&bytes[from..from + count]);
        count
    }

    /// Whether a write of the containers from the first to the last leaves this one's bytes, if this is its number.
    pub(crate) fn is_left(&self, number: u64, first: u64, last: u64) -> bool
        ensures { result ≡ is_left first last (number, self.now) }
    {
        CONTAINER <= self.bytes.len() as u64 && (number < first || last < number)
    }
}
