//! The first record of a chain.

ghost use Rattle.std.specs.Prelude.{◌≡◌};
ghost use Rattle.journal_start.specs.Spelling.{epoch_of, commands_of, records_of, region_of, recipes_end_of};

use crate::UserRooms;
use message_fields::{CloudNo, Shape};

/// Which store this is, in which format, which of its clouds, and in which rooms.
#[derive(Clone, Copy, PartialEq, Eq)]
pub struct Header {
    /// The format of the store: 2, or 1 in an older one.
    pub format: u8,
    /// The shape of the store.
    pub shape: Shape,
    /// The number of the cloud, below the shape's n.
    pub cloud: CloudNo,
    /// The rooms. In format 1 they are the usual ones, and aren't written.
    pub rooms: UserRooms,
}

/// What the first record of a checkpoint says besides: its epoch, how many commands and how many records it stands for, and
/// where its blobs lie.
#[derive(Clone, Copy, PartialEq, Eq)]
pub struct Checkpoint {
    /// 0 to 2. Each checkpoint has the next one, and 0 comes again after 2.
    pub epoch: u64,
    /// How many commands came before it.
    pub commands: u64,
    /// How many records behind it are the checkpoint's.
    pub records: u32,
    /// The region of the blobs, 0 or 1. In format 1 it is 0, and isn't written.
    pub region: u8,
    /// The least end of the recipes, in bytes. In format 2 it is 0, and isn't written.
    pub recipes_end: u64,
}

/// The first record of a chain.
#[derive(Clone, Copy, PartialEq, Eq)]
pub struct Start {
    /// Which store this is.
    pub header: Header,
    /// What a checkpoint says. None in a chain that begins with no command.
    pub checkpoint: Option<Checkpoint>,
}

impl Start {
    /// The epoch of its checkpoint, or 0.
    pub fn epoch(&self) -> u64
        ensures { result ≡ epoch_of self.now.checkpoint }
    {
        match &self.checkpoint {
            Some(checkpoint) => checkpoint.epoch,
            None => 0,
        }
    }

    /// How many commands came before it, or 0.
    pub fn commands(&self) -> u64
        ensures { result ≡ commands_of self.now.checkpoint }
    {
        match &self.checkpoint {
            Some(checkpoint) => checkpoint.commands,
            None => 0,
        }
    }

    /// How many records behind it are its checkpoint's, or 0.
    pub fn records(&self) -> u32
        ensures { result ≡ records_of self.now.checkpoint }
    {
        match &self.checkpoint {
            Some(checkpoint) => checkpoint.records,
            None => 0,
        }
    }

    /// The region of its blobs, or 0.
    pub fn region(&self) -> u8
        ensures { result ≡ region_of self.now.checkpoint }
    {
        match &self.checkpoint {
            Some(checkpoint) => checkpoint.region,
            None => 0,
        }
    }

    /// The least end of the recipes in bytes, or 0.
    pub fn recipes_end(&self) -> u64
        ensures { result ≡ recipes_end_of self.now.checkpoint }
    {
        match &self.checkpoint {
            Some(checkpoint) => checkpoint.recipes_end,
            None => 0,
        }
    }
}
