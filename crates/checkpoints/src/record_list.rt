//! Where the records of a checkpoint come from.

ghost use Rattle.std.specs.Prelude.{ℕ, ◌<◌, List, length};
ghost use Rattle.cloud_memory.specs.RecordBody.Spelling.{Body};
ghost use Rattle.checkpoints.specs.Laying.{IsNextInBuffer};

use cloud_memory::BodyBuf;

/// The records of a checkpoint, one after another.
pub trait CheckpointRecords {
    /// Those that are still to come.
    ghost to_come: { Self → List Body };

    /// What holds between two calls.
    ghost is_ready: { Self → Type 0 };

    /// Writes the next record's body in place of what the buffer has.
    fn write_next(&mut self, buffer: &mut BodyBuf)
        requires some { 0 < length (to_come self.old) }
        requires ready { is_ready self.old }
        ensures next { IsNextInBuffer (to_come self.old) (to_come self.new) buffer.new }
        ensures ready { is_ready self.new };
}
