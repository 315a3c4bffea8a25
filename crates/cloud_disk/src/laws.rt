//! What a disk that stands for a list says of its cloud, for the proofs of callers. The calls do nothing.

ghost use Rattle.std.specs.Prelude.{◌≡◌, ◌+◌, List, []};
ghost use Rattle.commit_journal.specs.CdEdges.Disk.{Cloud, Image, IsImage, reads};
ghost use Rattle.cloud_areas.specs.ContainerLog.States.{State, HasStaged};
ghost use Rattle.commit_journal.specs.JournalStart.start.Header.{Header};
ghost use Rattle.commit_journal.specs.JournalHalves.Journals.{used_by};
ghost use Rattle.cloud_areas.specs.UserDedup.command.Command.{Command};
ghost use Rattle.cloud_areas.specs.Standing.{Chain, where_of, StandsFor};
ghost use Rattle.cloud_disk.specs.Disk.{Disk, IsOn, Stages, IsReadThrough};

/// A cloud on which a disk stands for a list stands for it, and so does each image that a crash may leave now. The bytes used
/// in the journal are those of the chain, and the journal's start is the chain's.
pub fn law_of_standing()
    ensures stands { (header : Header) (list : List Command) (c : Chain) (disk : Disk) (cloud : Cloud)
        → IsOn header list c disk cloud → StandsFor (reads cloud.now) header list }
    ensures images { (header : Header) (list : List Command) (c : Chain) (disk : Disk) (cloud : Cloud)
        → IsOn header list c disk cloud → (image : Image) → IsImage cloud.now image → StandsFor image header list }
    ensures used { (header : Header) (list : List Command) (c : Chain) (disk : Disk) (cloud : Cloud)
        → IsOn header list c disk cloud → disk.journal.current.gate + 1 ≡ used_by (where_of c) }
    ensures start { (header : Header) (list : List Command) (c : Chain) (disk : Disk) (cloud : Cloud)
        → IsOn header list c disk cloud → disk.journal.start ≡ c.start }
{}

/// A disk stands for its list still once its cloud was read through its logs, which keep other containers then.
pub fn law_of_reads()
    ensures { (header : Header) (list : List Command) (c : Chain) (old new : Disk) (before after : Cloud)
        → IsOn header list c old before → IsReadThrough old new before after → IsOn header list c new after }
{}

/// Where nothing is staged, no blob is staged for any place.
pub fn law_of_nothing_staged()
    ensures { (log : State) → HasStaged log [] → Stages log [] }
{}
