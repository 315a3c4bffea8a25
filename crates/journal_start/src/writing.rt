//! Writing a start.

ghost use Rattle.std.specs.Prelude.{◌≡◌, ◌+◌, ◌≤◌, ◌++◌, [], length};
ghost use Rattle.journal_start.specs.Spelling.{rooms_bytes, front_bytes, header_bytes, last_bytes, behind_header, start_bytes};

use crate::{Checkpoint, Header, Start, UserRooms};
use std::marker::Model;

/// The longest start: a checkpoint's in format 2.
const LONGEST: usize = 57;

/// The bytes of a start, up to 57 of them. Contracts see the list.
#[derive(Drop)]
pub struct StartBytes {
    bytes: [u8; 57],
    len: usize,
}

impl Model for StartBytes {
    ghost use Rattle.std.specs.Prelude.{ℕ, ◌≤◌, List, take};

    ghost Value = { List ℕ };

    ghost view = { λ b. take b.len b.bytes };

    ghost invariant = { λ b. b.len ≤ 57 };
}

impl StartBytes {
    // No bytes.
    fn new() -> StartBytes
        ensures { result ≡ [] }
    {
        StartBytes {
            bytes: [0; LONGEST],
            len: 0,
        }
    }

    /// The bytes.
    pub fn as_slice(&self) -> &[u8]
        ensures value { result.now ≡ self.now }
    {
        &self.bytes[..self.len]
    }

    /// How many bytes there are, at most 57.
    pub fn len(&self) -> usize
        ensures value { result ≡ length self.now }
        ensures few { result ≤ 57 }
    {
        self.len
    }

    // Appends bytes.
    fn put(&mut self, bytes: &[u8])
        requires { length self.old + length bytes.now ≤ 57 }
        ensures { self.new ≡ self.old ++ bytes.now }
    {
        let end = self.len + bytes.len();
        self.bytes[self.len..end].copy_from_slice(bytes);
        self.len = end;
    }

    // Appends the letters, the format, the shape and the cloud.
    fn put_front(&mut self, header: &Header)
        requires { length self.old + 8 ≤ 57 }
        ensures { self.new ≡ self.old ++ front_bytes header.now }
    {
        self.put(b"CDST");
        self.put(&[
            header.format,
            header.shape.n,
            header.shape.k,
            header.cloud.0,
        ]);
    }

    // Appends the rooms.
    fn put_rooms(&mut self, rooms: &UserRooms)
        requires { length self.old + 28 ≤ 57 }
        ensures { self.new ≡ self.old ++ rooms_bytes rooms.now }
    {
        self.put(&rooms.users.to_be_bytes());
        self.put(&rooms.shares.to_be_bytes());
        self.put(&rooms.recipes.to_be_bytes());
        self.put(&rooms.owners.to_be_bytes());
        self.put(&rooms.files.to_be_bytes());
    }

    // Appends a header.
    fn put_header(&mut self, header: &Header)
        requires { self.old ≡ [] }
        ensures { self.new ≡ header_bytes header.now }
    {
        self.put_front(header);
        if header.format != 1 {
            self.put_rooms(&header.rooms);
        }
    }

    // Appends what a checkpoint has in its format alone.
    fn put_last(&mut self, format: u8, checkpoint: &Checkpoint)
        requires { length self.old + length (last_bytes format checkpoint.now) ≤ 57 }
        ensures { self.new ≡ self.old ++ last_bytes format checkpoint.now }
    {
        if format == 1 {
            self.put(&checkpoint.recipes_end.to_be_bytes());
        } else {
            self.put(&[checkpoint.region]);
        }
    }

    // Appends what a checkpoint says.
    fn put_checkpoint(&mut self, format: u8, checkpoint: &Checkpoint)
        requires { length self.old + 20 + length (last_bytes format checkpoint.now) ≤ 57 }
        ensures { self.new ≡ self.old ++ checkpoint_bytes format checkpoint.now }
    {
        self.put(&checkpoint.epoch.to_be_bytes());
        self.put(&checkpoint.commands.to_be_bytes());
        self.put(&checkpoint.records.to_be_bytes());
        self.put_last(format, checkpoint);
    }
}

ghost use Rattle.journal_start.specs.Spelling.{checkpoint_bytes};

impl Start {
    /// Its bytes: 8 or 36 in format 1, 36 or 57 in format 2.
    pub fn bytes(&self) -> StartBytes
        ensures { result ≡ start_bytes self.now }
    {
        let mut bytes = StartBytes::new();
        bytes.put_header(&self.header);
        match &self.checkpoint {
            None => {}
            Some(checkpoint) => bytes.put_checkpoint(self.header.format, checkpoint),
        }
        bytes
    }
}
