//! One connection in memory.

ghost use Rattle.std.specs.Prelude.{◌≡◌, ◌+◌, ◌-◌, ◌≤◌, min, length, take, drop, [], ◌++◌, false, true, IfOk, vec_len, vec_capacity};
ghost use Rattle.mem_disk.specs.CdEdges.Ports.{Port};

use mem_disk::NoMemory;
use std::alloc::Global;

/// The bytes that come on a connection, and those that were sent there. It has all its memory from the start.
#[derive(Drop)]
pub struct MemStream {
    /// All the bytes that come.
    pub bytes: Vec<u8>,
    /// How many of them came.
    pub place: usize,
    /// The bytes that were sent.
    pub sent: Vec<u8>,
    /// How many bytes can be sent in all.
    pub room: usize,
    /// Whether it was closed.
    pub closed: bool,
    ghost within: { place ≤ vec_len bytes },
    ghost fits: { vec_len sent ≤ room },
    ghost held: { room ≤ vec_capacity sent },
}

impl MemStream {
    /// These bytes are to come, and `room` bytes can be sent.
    pub fn of(alloc: Global, bytes: &[u8], room: usize) -> Result<MemStream, NoMemory>
        ensures bytes { IfOk result (λ stream. stream.bytes.items ≡ bytes.now) }
        ensures place { IfOk result (λ stream. stream.place ≡ 0) }
        ensures sent { IfOk result (λ stream. stream.sent.items ≡ []) }
        ensures room { IfOk result (λ stream. stream.room ≡ room) }
        ensures live { IfOk result (λ stream. stream.closed ≡ false) }
    {
        Ok(MemStream {
            bytes: bytes.to_vec(alloc)?,
            place: 0,
            sent: Vec::with_capacity(alloc, room)?,
            room,
            closed: false,
        })
    }

    /// Gives the next bytes, at most `most` of them.
    pub fn give(&mut self, most: usize, out: &mut [u8]) -> usize
        ensures count { result ≡ min (min (length out.old) most) (vec_len self.old.bytes - self.old.place) }
        ensures long { length out.new ≡ length out.old }
        ensures came { drop self.old.place self.old.bytes.items
            ≡ take result out.new ++ drop self.new.place self.new.bytes.items }
        ensures bytes_stay { self.new.bytes ≡ self.old.bytes }
        ensures place { self.new.place ≡ self.old.place + result }
        ensures sent_stays { self.new.sent ≡ self.old.sent }
        ensures rest { (self.new.room ≡ self.old.room) × (self.new.closed ≡ self.old.closed) }
    {
        let rest = &self.bytes[self.place..];
        let count = out.len().min(most).min(rest.len());
        out[..count].copy_from_slice(&rest[..count]);
        self.place += count;
        count
    }

    /// How many bytes can still be sent.
    pub fn left(&self) -> usize
        ensures { result ≡ self.now.room - vec_len self.now.sent }
    {
        self.room - self.sent.len()
    }

    /// Takes the first bytes, at most `most` of them and as many as there is room for.
    pub fn take(&mut self, most: usize, bytes: &[u8]) -> usize
        ensures count { result ≡ min (min (length bytes.now) most) (self.old.room - vec_len self.old.sent) }
        ensures sent { self.new.sent.items ≡ self.old.sent.items ++ take result bytes.now }
        ensures bytes_stay { self.new.bytes ≡ self.old.bytes }
        ensures place { self.new.place ≡ self.old.place }
        ensures rest { (self.new.room ≡ self.old.room) × (self.new.closed ≡ self.old.closed) }
    {
        let count = bytes.len().min(most).min(self.left());
        let _ = self.sent.extend_from_slice(&bytes[..count]);
        count
    }
}
