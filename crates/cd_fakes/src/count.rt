//! Calls that fail by their numbers.

ghost use Rattle.std.specs.Prelude.{◌≡◌, ◌↔◌, ◌+◌, ◌-◌, ◌^◌, min, Contains, IsTrue, IsErr, IfOk};
ghost use Rattle.mem_disk.specs.CdEdges.Causes.{HasCause};
ghost use Rattle.cd_fakes.specs.Counts.{counted_up};

use mem_disk::{Failed, NoMemory};
use std::alloc::Global;

/// Numbers the calls of an object from 1, and knows which of them fail. Each count stays at the last value of a u64.
#[derive(Drop)]
pub struct CallCount {
    /// The numbers of the calls that fail.
    pub fails: Vec<u64>,
    /// How many calls came.
    pub calls: u64,
    /// How many of them failed.
    pub faults: u64,
}

impl CallCount {
    /// No call came yet.
    pub fn of(alloc: Global, fails: &[u64]) -> Result<CallCount, NoMemory>
        ensures fails { IfOk result (λ count. count.fails.items ≡ fails.now) }
        ensures calls { IfOk result (λ count. count.calls ≡ 0) }
        ensures faults { IfOk result (λ count. count.faults ≡ 0) }
    {
        Ok(CallCount {
            fails: fails.to_vec(alloc)?,
            calls: 0,
            faults: 0,
        })
    }

    /// Begins a call, and says whether it fails by its number.
    pub fn begin(&mut self) -> bool
        ensures calls { self.new ≡ record self.old { calls = counted_up self.old.calls } }
        ensures fails { IsTrue result ↔ Contains self.old.fails.items (counted_up self.old.calls) }
    {
        self.calls = self.calls.saturating_add(1);
        self.fails.contains(&self.calls)
    }

    /// Counts a failure, which is the answer.
    pub fn refuse<T>(&mut self) -> Result<T, Failed>
        ensures faults { self.new ≡ record self.old { faults = counted_up self.old.faults } }
        ensures failed { IsErr result }
        ensures cause { HasCause self.old.faults self.new.faults result }
    {
        self.faults = self.faults.saturating_add(1);
        Err(Failed)
    }
}
