//! The content of a frame that is being made.

use crate::FRAME_LIMIT;
use cd_base::NoMemory;
use std::alloc::Global;
use std::marker::Model;

/// Up to 4 MiB of content. Contracts see the list of its bytes.
#[derive(Drop)]
pub struct ReplyBuf {
    bytes: Vec<u8>,
}

impl Model for ReplyBuf {
    ghost use Rattle.std.specs.Prelude.{ℕ, ◌≤◌, List, length, vec_capacity};
    ghost use Rattle.frames.specs.Frames.{frame_limit};

    ghost Value = { List ℕ };

    ghost view = { λ b. b.bytes.items };

    ghost invariant = { λ b. (length b.bytes.items ≤ frame_limit) × (frame_limit ≤ vec_capacity b.bytes) };
}

impl ReplyBuf {
    ghost use Rattle.std.specs.Prelude.{◌≡◌, ◌+◌, ◌≤◌, [], ◌++◌, length, IfOk};
    ghost use Rattle.frames.specs.Frames.{frame_limit};

    /// No content, with memory for 4 MiB of it. The only error is want of memory.
    pub fn make(alloc: Global) -> Result<ReplyBuf, NoMemory>
        ensures { IfOk result (λ buf. buf ≡ []) }
    {
        let bytes = Vec::with_capacity(alloc, FRAME_LIMIT)?;
        Ok(ReplyBuf { bytes })
    }

    /// The content.
    pub fn content(&self) -> &[u8]
        ensures value { result.now ≡ self.now }
        ensures few { length self.now ≤ frame_limit }
    {
        self.bytes.as_slice()
    }

    /// Drops the content, and keeps the memory.
    pub fn clear(&mut self)
        ensures { self.new ≡ [] }
    {
        self.bytes.clear();
    }

    /// Appends bytes. It takes no memory.
    pub fn put(&mut self, bytes: &[u8])
        requires { length self.old + length bytes.now ≤ frame_limit }
        ensures { self.new ≡ self.old ++ bytes.now }
    {
        let _ = self.bytes.extend_from_slice(bytes);
    }
}
