//! The law of openings, for the proofs of callers. The call does nothing.

ghost use Rattle.std.specs.Prelude.{ℕ, Bool, Result};
ghost use Rattle.cloud_disk.specs.CdEdges.Disk.{Image};
ghost use Rattle.cloud_disk.specs.JournalStart.start.Header.{Header};
ghost use Rattle.cloud_disk.specs.CommitJournal.errors.OpenErr.{OpenErr};
ghost use Rattle.record_laws.specs.RecordChecks.CloudMemory.Memory.{Memory};
ghost use Rattle.cloud_opening.specs.Exact.{Opens, IsSame};

/// Whatever the bytes of a cloud's three areas are, an opening over which no device call fails has one answer alone:
/// the first check that fails, in the order of the starts, of the records and of the checks of each, or else how many
/// commands there are. After Ok it leaves one memory alone.
pub fn law_of_openings()
    ensures one { (header : Header) (begin : Bool) (image : Image) (m n : Memory) (one two : Result ℕ OpenErr)
        → Opens header begin image m one → Opens header begin image n two → IsSame m n one two }
{}
