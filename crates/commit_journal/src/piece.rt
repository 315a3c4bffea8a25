//! Bytes that wait to be written at once.

ghost use Rattle.std.specs.Prelude.{◌≡◌, ◌+◌, ◌≤◌, ◌++◌, [], length, IfOk};
ghost use Rattle.journal_halves.specs.Records.{sized};
ghost use Rattle.commit_journal.specs.Pieces.{piece_len};

use journal_halves::NoMemory;
use std::alloc::Global;
use std::marker::Model;

/// The most bytes that are written at once: 4 MiB.
pub const PIECE: usize = 4_194_304;

/// Up to 4 MiB of bytes, in memory that is taken once. Contracts see the list.
#[derive(Drop)]
pub struct Piece {
    bytes: Vec<u8>,
}

impl Model for Piece {
    ghost use Rattle.std.specs.Prelude.{ℕ, ◌≤◌, List, length, vec_capacity};
    ghost use Rattle.commit_journal.specs.Pieces.{piece_len};

    ghost Value = { List ℕ };

    ghost view = { λ p. p.bytes.items };

    ghost invariant = { λ p. (length p.bytes.items ≤ piece_len) × (piece_len ≤ vec_capacity p.bytes) };
}

impl Piece {
    /// No bytes, with memory for 4 MiB. The only error is want of memory.
    pub fn make(alloc: Global) -> Result<Piece, NoMemory>
        ensures { IfOk result (λ piece. piece ≡ []) }
    {
        let bytes = Vec::with_capacity(alloc, PIECE)?;
        Ok(Piece { bytes })
    }

    /// The bytes.
    pub fn as_slice(&self) -> &[u8]
        ensures { result.now ≡ self.now }
    {
        self.bytes.as_slice()
    }

    /// How many bytes there are.
    pub fn len(&self) -> usize
        ensures { result ≡ length self.now }
    {
        self.bytes.len()
    }

    /// Drops the bytes, and keeps the memory.
    pub fn clear(&mut self)
        ensures { self.new ≡ [] }
    {
        self.bytes.clear();
    }

    /// Appends bytes. It takes no memory.
    pub fn put(&mut self, bytes: &[u8])
        requires { length self.old + length bytes.now ≤ piece_len }
        ensures { self.new ≡ self.old ++ bytes.now }
    {
        let _ = self.bytes.extend_from_slice(bytes);
    }

    /// Appends the length of a body, in four bytes, and the body.
    pub fn put_sized(&mut self, body: &[u8])
        requires few { length body.now ≤ 65535 }
        requires room { length self.old + length body.now + 4 ≤ piece_len }
        ensures { self.new ≡ self.old ++ sized body.now }
    {
        self.put(&(body.len() as u32).to_be_bytes());
        self.put(body);
    }
}
