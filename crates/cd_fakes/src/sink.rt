//! A sink in memory.

ghost use Rattle.std.specs.Prelude.{◌≡◌, ◌↔◌, ◌⊎◌, ℕ, ◌+◌, ◌-◌, ◌^◌, ◌≤◌, ◌<◌, min, length, [], Contains, Some, IfOk, IsErr, if◌then◌else◌, is_ok, vec_len, vec_capacity};
ghost use Rattle.std.specs.Io.{WritesAtMost};
ghost use Rattle.std.specs.Io.KnownBytes.{WriteAppends};
ghost use Rattle.mem_disk.specs.CdEdges.Causes.{HasCause};
ghost use Rattle.cd_fakes.specs.Counts.{counted_up};

use crate::CallCount;
use mem_disk::{Failed, NoMemory, Sink};
use std::alloc::Global;

/// Takes bytes into memory, so many a call at most, and so many in all. It has all its memory from the start.
#[derive(Drop)]
pub struct MemSink {
    /// The bytes that were taken.
    pub bytes: Vec<u8>,
    /// The most that it takes in all.
    pub room: usize,
    /// The most that a call takes.
    pub most: usize,
    /// The calls, and which of them fail.
    pub count: CallCount,
    ghost within: { vec_len bytes ≤ room },
    ghost held: { room ≤ vec_capacity bytes },
    ghost some: { 1 ≤ most },
}

impl MemSink {
    /// Takes `room` bytes in all, and `most` of them a call at most. The calls whose numbers, from 1, stand in `fails`
    /// fail, and so does each call once no room is left.
    pub fn of(alloc: Global, room: usize, most: usize, fails: &[u64]) -> Result<MemSink, NoMemory>
        requires { 1 ≤ most }
        ensures bytes { IfOk result (λ sink. sink.bytes.items ≡ []) }
        ensures room { IfOk result (λ sink. sink.room ≡ room) }
        ensures most { IfOk result (λ sink. sink.most ≡ most) }
        ensures fails { IfOk result (λ sink. sink.count.fails.items ≡ fails.now) }
        ensures calls { IfOk result (λ sink. sink.count.calls ≡ 0) }
        ensures faults { IfOk result (λ sink. sink.count.faults ≡ 0) }
    {
        Ok(MemSink {
            bytes: Vec::with_capacity(alloc, room)?,
            room,
            most,
            count: CallCount::of(alloc, fails)?,
        })
    }

    /// The bytes that were taken.
    pub fn written(&self) -> &[u8]
        ensures { result.now ≡ self.now.bytes.items }
    {
        &self.bytes
    }
}

impl Sink for MemSink {
    ghost written = { λ sink. Some sink.bytes.items };

    ghost faults = { λ sink. sink.count.faults };

    fn write(&mut self, bytes: &[u8]) -> Result<usize, Failed>
        ensures bound { WritesAtMost result bytes.now }
        ensures progress { IfOk result (λ n. 0 < length bytes.now → 0 < n) }
        ensures bytes { WriteAppends (Some self.old.bytes.items) (Some self.new.bytes.items) result bytes.now }
        ensures cause { HasCause self.old.count.faults self.new.count.faults result }

        // It fails exactly by its number or where no room is left, and takes as much as it may.
        ensures fails { IsErr result ↔ (Contains self.old.count.fails.items (counted_up self.old.count.calls) ⊎
            (vec_len self.old.bytes ≡ self.old.room)) }
        ensures much { IfOk result (λ count. count
            ≡ min (min (length bytes.now) self.old.most) (self.old.room - vec_len self.old.bytes)) }

        // The calls and the failures are counted, and the rest stays.
        ensures calls { self.new.count.calls ≡ counted_up self.old.count.calls }
        ensures faults { self.new.count.faults
            ≡ (if is_ok result then self.old.count.faults else counted_up self.old.count.faults) }
        ensures fails_stay { self.new.count.fails ≡ self.old.count.fails }
        ensures room_stays { self.new.room ≡ self.old.room }
        ensures most_stays { self.new.most ≡ self.old.most }
    {
        let room = self.room - self.bytes.len();
        let named = self.count.begin();
        if named || room == 0 {
            return self.count.refuse();
        }
        let count = bytes.len().min(self.most).min(room);
        let _ = self.bytes.extend_from_slice(&bytes[..count]);
        Ok(count)
    }
}
