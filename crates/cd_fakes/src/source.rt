//! A source in memory.

ghost use Rattle.std.specs.Prelude.{◌≡◌, ◌↔◌, ℕ, ◌+◌, ◌-◌, ◌^◌, ◌≤◌, min, drop, length, Contains, Some, IfOk, IsErr, if◌then◌else◌, is_ok, vec_len};
ghost use Rattle.std.specs.Io.{ReadsAtMost};
ghost use Rattle.std.specs.Io.KnownBytes.{ReadConsumes};
ghost use Rattle.mem_disk.specs.CdEdges.Causes.{HasCause};
ghost use Rattle.cd_fakes.specs.Counts.{counted_up};

use crate::CallCount;
use mem_disk::{Failed, NoMemory, Source};
use std::alloc::Global;

/// Gives bytes from memory, so many a call at most.
#[derive(Drop)]
pub struct MemSource {
    /// All the bytes.
    pub bytes: Vec<u8>,
    /// How many of them were given.
    pub place: usize,
    /// The most that a call gives.
    pub most: usize,
    /// The calls, and which of them fail.
    pub count: CallCount,
    ghost within: { place ≤ vec_len bytes },
    ghost some: { 1 ≤ most },
}

impl MemSource {
    /// Gives these bytes, `most` of them a call at most. The calls whose numbers, from 1, stand in `fails` fail, and no
    /// others.
    pub fn of(
        alloc: Global,
        bytes: &[u8],
        most: usize,
        fails: &[u64],
    ) -> Result<MemSource, NoMemory>
        requires { 1 ≤ most }
        ensures bytes { IfOk result (λ source. source.bytes.items ≡ bytes.now) }
        ensures place { IfOk result (λ source. source.place ≡ 0) }
        ensures most { IfOk result (λ source. source.most ≡ most) }
        ensures fails { IfOk result (λ source. source.count.fails.items ≡ fails.now) }
        ensures calls { IfOk result (λ source. source.count.calls ≡ 0) }
        ensures faults { IfOk result (λ source. source.count.faults ≡ 0) }
    {
        Ok(MemSource {
            bytes: bytes.to_vec(alloc)?,
            place: 0,
            most,
            count: CallCount::of(alloc, fails)?,
        })
    }
}

impl Source for MemSource {
    ghost left = { λ source. Some (drop source.place source.bytes.items) };

    ghost faults = { λ source. source.count.faults };

    fn read(&mut self, out: &mut [u8]) -> Result<usize, Failed>
        ensures bound { ReadsAtMost result out.new }
        ensures bytes { ReadConsumes (Some (drop self.old.place self.old.bytes.items))
            (Some (drop self.new.place self.new.bytes.items)) result out.new }
        ensures cause { HasCause self.old.count.faults self.new.count.faults result }

        // It fails exactly by its number, and gives as much as it may.
        ensures fails { IsErr result ↔ Contains self.old.count.fails.items (counted_up self.old.count.calls) }
        ensures much { IfOk result (λ count. count
            ≡ min (min (length out.old) self.old.most) (vec_len self.old.bytes - self.old.place)) }

        // The calls and the failures are counted, and the rest stays.
        ensures calls { self.new.count.calls ≡ counted_up self.old.count.calls }
        ensures faults { self.new.count.faults
            ≡ (if is_ok result then self.old.count.faults else counted_up self.old.count.faults) }
        ensures fails_stay { self.new.count.fails ≡ self.old.count.fails }
        ensures most_stays { self.new.most ≡ self.old.most }
        ensures bytes_stay { self.new.bytes ≡ self.old.bytes }
    {
        if self.count.begin() {
            return self.count.refuse();
        }
        let rest = &self.bytes[self.place..];
        let count = out.len().min(self.most).min(rest.len());
        out[..count].copy_from_slice(&rest[..count]);
        self.place += count;
        Ok(count)
    }
}
