//! The laws of a memory's records, for the proofs of callers. The calls do nothing.

ghost use Rattle.std.specs.Prelude.{◌≤◌, ◌+◌, List, All};
ghost use Rattle.cloud_memory.specs.CdBase.shape.Shape.{Shape};
ghost use Rattle.cloud_disk.specs.JournalHalves.Halves.{half_limit};
ghost use Rattle.cloud_disk.specs.JournalStart.rooms.UserRooms.{UserRooms};
ghost use Rattle.cloud_memory.specs.RecordBody.Spelling.{Body, FitsBody};
ghost use Rattle.cloud_memory.specs.UserDedup.command.Command.{Command};
ghost use Rattle.cloud_disk.specs.CloudAreas.Checkpoints.{IsCheckpointOfList};
ghost use Rattle.cloud_memory.specs.declared.cloud.CloudMemory.{CloudMemory};
ghost use Rattle.cloud_memory.specs.Fitting.{FitsRecords};
ghost use Rattle.cloud_memory.specs.Memory.{Remembers};
ghost use Rattle.cloud_memory.specs.Rooms.{memory_of, HasRooms};
ghost use Rattle.checkpoints.specs.Laying.{record_len, records_len, longest_record};
ghost use Rattle.checkpoints.specs.Records.{records_of};
ghost use Rattle.checkpoints.specs.Known.{AreListed, recipes_of};

/// The records of a memory of a list are a checkpoint of the list.
pub fn law_of_records()
    ensures { (shape : Shape) (list : List Command) (memory : CloudMemory) → Remembers shape list (memory_of memory)
        → AreListed memory → IsCheckpointOfList 2 shape list (records_of memory) (recipes_of shape list memory) }
{}

/// Behind the records of a memory with these rooms a half has room for the longest record. It takes no list: a memory that was
/// read from a journal that nobody wrote has the room too.
pub fn law_of_room()
    ensures room { (rooms : UserRooms) (memory : CloudMemory) → HasRooms rooms memory → FitsRecords (memory_of memory)
        → AreListed memory → All FitsBody (records_of memory)
        → 63 + records_len (records_of memory) + longest_record ≤ half_limit rooms }
    ensures longest { (body : Body) → FitsBody body → record_len body ≤ longest_record }
{}
