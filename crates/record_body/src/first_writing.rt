//! Writing a body of format 1.

ghost use Rattle.std.specs.Prelude.{◌≡◌, ◌+◌, ◌≤◌, ◌++◌, [], length, IfOk};
ghost use Rattle.record_body.specs.FirstSpelling.{Commit, put_front, placed_bytes, item_bytes, body_bytes};

use crate::{CommitBody, PutItem};
use message_fields::{NoMemory, Place, UserId};
use std::alloc::Global;
use std::marker::Model;

/// The body of a record of format 1 that is being made, of up to 65,535 bytes. Contracts see the list of its bytes.
#[derive(Drop)]
pub struct RecordBuf {
    bytes: Vec<u8>,
}

impl Model for RecordBuf {
    ghost use Rattle.std.specs.Prelude.{ℕ, ◌≤◌, List, length, vec_capacity};

    ghost Value = { List ℕ };

    ghost view = { λ b. b.bytes.items };

    ghost invariant = { λ b. (length b.bytes.items ≤ 65535) × (65535 ≤ vec_capacity b.bytes) };
}

impl RecordBuf {
    /// No bytes, with memory for 65,535 of them. The only error is want of memory.
    pub fn make(alloc: Global) -> Result<RecordBuf, NoMemory>
        ensures { IfOk result (λ buf. buf ≡ []) }
    {
        let bytes = Vec::with_capacity(alloc, 65_535)?;
        Ok(RecordBuf { bytes })
    }

    /// The bytes.
    pub fn as_slice(&self) -> &[u8]
        ensures value { result.now ≡ self.now }
        ensures few { length self.now ≤ 65535 }
    {
        self.bytes.as_slice()
    }

    /// How many bytes there are.
    pub fn len(&self) -> usize
        ensures value { result ≡ length self.now }
        ensures few { result ≤ 65535 }
    {
        self.bytes.len()
    }

    // Drops the bytes, and keeps the memory.
    fn clear(&mut self)
        ensures { self.new ≡ [] }
    {
        self.bytes.clear();
    }

    // Appends bytes. It takes no memory.
    fn put(&mut self, bytes: &[u8])
        requires { length self.old + length bytes.now ≤ 65535 }
        ensures { self.new ≡ self.old ++ bytes.now }
    {
        let _ = self.bytes.extend_from_slice(bytes);
    }

    /// Begins a Put of so many items in place of what stood here. Its items follow by `put_item`, and with as many as were
    /// named the bytes are the Put's body (`first_laws::written_laws`).
    pub fn start_put(&mut self, user: UserId, count: u16)
        ensures { self.new ≡ put_front user count }
    {
        self.clear();
        self.put(&[1]);
        self.put(&user.0.to_be_bytes());
        self.put(&count.to_be_bytes());
    }

    // Appends a flag, and the place behind flag 1.
    fn put_placed(&mut self, place: &Option<Place>)
        requires { length self.old + 13 ≤ 65535 }
        ensures { self.new ≡ self.old ++ placed_bytes place.now }
    {
        match place {
            None => self.put(&[0]),
            Some(place) => {
                self.put(&[1]);
                self.put(&place.at.to_be_bytes());
                self.put(&place.len.to_be_bytes());
            }
        }
    }

    /// Appends an item of a Put. An item takes 33 bytes, or 45 with a place.
    pub fn put_item(&mut self, item: &PutItem)
        requires { length self.old + 45 ≤ 65535 }
        ensures { self.new ≡ self.old ++ item_bytes item.now }
    {
        self.put(&item.fp.0);
        self.put_placed(&item.place);
    }

    /// Writes a Commit in place of what stood here: 89 bytes.
    pub fn write_commit(&mut self, commit: &CommitBody)
        ensures { self.new ≡ body_bytes (Commit commit.now) }
    {
        self.clear();
        self.put(&[2]);
        self.put(&commit.user.0.to_be_bytes());
        self.put(&commit.tag.0);
        self.put(&commit.version.0.to_be_bytes());
        self.put(&commit.at.to_be_bytes());
        self.put(&commit.len.to_be_bytes());
        self.put(&commit.fp.0);
    }
}
