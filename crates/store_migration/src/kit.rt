//! The memory of a migration.

ghost use Rattle.std.specs.Prelude.{◌≡◌, vec_len, IfOk};
ghost use Rattle.cloud_opening.specs.JournalStart.Ranges.{AreRooms};
ghost use Rattle.store_migration.specs.Kit.{IsKit, HasFirst};

use cd_base::Rooms as Limits;
use cloud_opening::{BodyBuf, Journal, UserRooms};
use fresh_checkpoints::{CloudMemory, Marks, NoMemory, OwnerChains, RECIPE_LIMIT, half_limit};
use std::alloc::Global;

// As many users as a cloud may have.
const USERS: u32 = 256;

/// All that a migration needs of memory.
#[derive(Drop)]
pub(crate) struct Kit {
    /// What the records of format 1 leave.
    pub(crate) memory: CloudMemory,
    pub(crate) journal: Journal,
    /// By which the checkpoint goes through what each user owns.
    pub(crate) chains: OwnerChains,
    /// Which shares the checkpoint has listed.
    pub(crate) marks: Marks,
    /// The body of the record that is being made.
    pub(crate) body: BodyBuf,
    /// The recipe that was read last.
    pub(crate) recipe: Vec<u8>,
}

// The memory of no commands, with the greatest rooms that format 1 had.
fn make_memory(alloc: Global) -> Result<CloudMemory, NoMemory>
    ensures { IfOk result HasFirst }
{
    let most = Limits::greatest();
    CloudMemory::make_shared(alloc, most.fps, most.owners, most.files, USERS)
}

// A buffer of so many bytes.
fn make_buffer(alloc: Global, len: usize) -> Result<Vec<u8>, NoMemory>
    ensures { IfOk result (λ buffer. vec_len buffer ≡ len) }
{
    let buffer = vec![in alloc; 0u8; len]?;
    Ok(buffer)
}

impl Kit {
    /// Takes all memory of a migration to these rooms.
    pub(crate) fn make(alloc: Global, rooms: &UserRooms) -> Result<Kit, NoMemory>
        requires { AreRooms rooms.now }
        ensures { IfOk result (IsKit rooms.now) }
    {
        let recipe = make_buffer(alloc, RECIPE_LIMIT as usize)?;
        let body = BodyBuf::make(alloc)?;
        let marks = Marks::make(alloc)?;
        let chains = OwnerChains::make(alloc)?;
        let journal = Journal::make(alloc, half_limit(rooms))?;
        let memory = make_memory(alloc)?;
        Ok(Kit {
            memory,
            journal,
            chains,
            marks,
            body,
            recipe,
        })
    }
}
