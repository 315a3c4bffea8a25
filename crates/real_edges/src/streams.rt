//! The standard streams as a source and a sink. They tell no bytes, and count their failures.

ghost use Rattle.std.specs.Prelude.{◌≡◌, ◌≤◌, ◌<◌, length, IfSome, None};

use cd_edges::{Failed, Sink, Source};
use std::io::{Read, Stdin, Stdout, Write};

/// Standard input. The only cause of `Failed` is that the system refuses a read.
#[derive(Drop)]
pub struct StdSource {
    input: Stdin,
    faults: u64,
}

impl StdSource {
    /// Nothing has failed yet.
    pub fn new(input: Stdin) -> StdSource {
        StdSource { input, faults: 0 }
    }
}

impl Source for StdSource {
    ghost left = { λ _. None };

    ghost faults = { λ s. s.faults };

    fn read(&mut self, out: &mut [u8]) -> Result<usize, Failed> {
        match self.input.read(out) {
            Ok(count) => Ok(count),
            Err(_) => {
                self.faults = self.faults.saturating_add(1);
                Err(Failed)
            }
        }
    }
}

/// Standard output, which is flushed after each write. The only causes of `Failed` are that the system refuses a write or a flush, or
/// takes nothing of a piece that isn't empty.
#[derive(Drop)]
pub struct StdSink {
    output: Stdout,
    faults: u64,
}

impl StdSink {
    /// Nothing has failed yet.
    pub fn new(output: Stdout) -> StdSink {
        StdSink { output, faults: 0 }
    }

    // A write that takes at least one byte of a piece that isn't empty, and a flush; None where either failed.
    fn try_write(&mut self, bytes: &[u8]) -> Option<usize>
        ensures faults { self.new.faults ≡ self.old.faults }
        ensures bound { IfSome result (λ count. count ≤ length bytes.now) }
        ensures progress { IfSome result (λ count. 0 < length bytes.now → 0 < count) }
    {
        let count = self.output.write(bytes).ok()?;
        self.output.flush().ok()?;
        if count == 0 && !bytes.is_empty() {
            return None;
        }
        Some(count)
    }
}

impl Sink for StdSink {
    ghost written = { λ _. None };

    ghost faults = { λ s. s.faults };

    fn write(&mut self, bytes: &[u8]) -> Result<usize, Failed> {
        match self.try_write(bytes) {
            Some(count) => Ok(count),
            None => {
                self.faults = self.faults.saturating_add(1);
                Err(Failed)
            }
        }
    }
}
