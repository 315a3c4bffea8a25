//! The law of what areas of format 1 stand for, for the proofs of callers. The call does nothing.

ghost use Rattle.std.specs.Prelude.{◌≡◌, List, []};
ghost use Rattle.journal_halves.specs.CdEdges.area.Area.TheVariants.{Journal};
ghost use Rattle.journal_halves.specs.CdEdges.Disk.{Image};
ghost use Rattle.journal_halves.specs.Beginnings.{IsUnbegun};
ghost use Rattle.journal_halves.specs.Halves.{half_len};
ghost use Rattle.journal_halves.specs.Journals.{Where, HasChain};
ghost use Rattle.journal_halves.specs.JournalStart.start.Header.{Header};
ghost use Rattle.compact_memories.specs.UserDedup.Dedup.{IsSound};
ghost use Rattle.compact_memories.specs.UserDedup.command.Command.{Command};
ghost use Rattle.compact_memories.specs.CloudAreas.FormatOne.{Lays, StandsForOne};
ghost use Rattle.compact_memories.specs.CloudAreas.Standing.{Chain, IsChain};
ghost use Rattle.first_laws.specs.Standing.{HasChainOne};

/// Which lists areas of format 1 stand for.
pub fn law_of_first_standing()
    ensures sound { (image : Image) (header : Header) (list : List Command) → StandsForOne image header list
        → IsSound header.shape header.cloud.0 list }
    // A journal of which no half is begun stands for no commands.
    ensures only { (image : Image) (header : Header) (list : List Command) → StandsForOne image header list
        → IsUnbegun (image Journal) → list ≡ [] }
    // Where the journal has a chain, it begins with the header, and each list that the areas stand for is said by it.
    ensures header { (image : Image) (header : Header) (list : List Command) (w : Where)
        → StandsForOne image header list → HasChain (image Journal) w → w.start.header ≡ header }
    ensures chain { (image : Image) (header : Header) (list : List Command) (w : Where)
        → StandsForOne image header list → HasChain (image Journal) w → HasChainOne image header list w }
    // A chain that says one of them says them all.
    ensures one { (image : Image) (header : Header) (one two : List Command) (c : Chain)
        → IsChain header half_len (image Journal) c → Lays header image one c → StandsForOne image header two
        → Lays header image two c }
{}
