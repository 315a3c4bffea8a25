//! Rooms in which the shares of a batch of secrets come together.

ghost use Rattle.std.specs.Prelude.{◌≡◌, ◌<◌, ◌++◌, ℕ, [], length, slice_set, IfOk, OnOk};
ghost use Rattle.restore_job.specs.Steps.{room_of};

use std::alloc::Global;
use std::marker::Model;
use user_dedup::{Bytes, NoMemory};

/// A room for each secret of a batch. What is cleared keeps its memory, so all batches share that of the first.
#[derive(Drop)]
pub struct SecretRooms {
    items: Vec<Bytes>,
}

impl Model for SecretRooms {
    ghost use Rattle.std.specs.Prelude.{ℕ, List};

    ghost Value = { List (List ℕ) };

    ghost view = { λ r. r.items.items };
}

impl SecretRooms {
    /// So many empty rooms.
    pub fn make(alloc: Global, count: usize) -> Result<SecretRooms, NoMemory>
        ensures { IfOk result (λ rooms. length rooms ≡ count) }
    {
        let mut items = Vec::new(alloc);
        for i in 0..count {
            items.push(Bytes::new(alloc))?;
        }
        Ok(SecretRooms { items })
    }

    /// Empties each room.
    pub fn clear(&mut self)
        ensures len { length self.new ≡ length self.old }
        ensures empty { (j : ℕ) → j < length self.old → room_of self.new j ≡ [] }
    {
        for room in self.items.iter_mut() {
            room.clear();
        }
    }

    /// Appends a share in a room. For want of memory nothing changes.
    pub fn append(&mut self, j: usize, share: &[u8]) -> Result<(), NoMemory>
        requires { j < length self.old }
        ensures ok { OnOk result (self.new ≡ slice_set self.old j (room_of self.old j ++ share.now)) }
        ensures len { length self.new ≡ length self.old }
    {
        self.items[j].extend(share)
    }

    /// What stands in a room.
    pub fn get(&self, j: usize) -> &[u8]
        requires { j < length self.now }
        ensures { result.now ≡ room_of self.now j }
    {
        self.items[j].as_slice()
    }
}
