//! The ports on which clouds are reached.

ghost use Rattle.std.specs.Prelude.{◌≡◌, ◌<◌, ◌++◌, ℕ, length, true, false, Some, None, is_some, slice_set, slice_index_or, replicate, IfOk, IsTrue};
ghost use Rattle.ports_link.specs.Lines.{line_of, no_line};

use std::alloc::Global;
use user_dedup::{CloudNo, NoMemory};

/// How a cloud is reached: its port, if it has one, and whether a reply didn't come there whole.
#[derive(Clone, Copy)]
pub struct CloudLine {
    /// The number of its port, if it has one.
    pub port: Option<u32>,
    /// Whether no whole reply was to come there once.
    pub ended: bool,
}

/// A line for each number of a cloud.
#[derive(Drop)]
pub struct Lines {
    /// The lines, by the numbers of the clouds.
    pub items: Vec<CloudLine>,
    ghost all: { length items.items ≡ 256 },
}

impl Lines {
    /// No cloud has a port. The only error is want of memory.
    pub fn none(alloc: Global) -> Result<Lines, NoMemory>
        ensures { IfOk result (λ lines. lines.items.items ≡ replicate 256 no_line) }
    {
        let none = CloudLine {
            port: None,
            ended: false,
        };
        let items = vec![in alloc; none; 256]?;
        Ok(Lines { items })
    }

    /// How a cloud is reached.
    pub fn get(&self, cloud: CloudNo) -> CloudLine
        ensures { result ≡ line_of self.now.items.items cloud.0 }
    {
        self.items[cloud.0 as usize]
    }

    /// From now on the cloud is reached so.
    pub fn set(&mut self, cloud: CloudNo, line: CloudLine)
        ensures { self.new.items.items ≡ slice_set self.old.items.items cloud.0 line }
    {
        self.items[cloud.0 as usize] = line;
    }
}
