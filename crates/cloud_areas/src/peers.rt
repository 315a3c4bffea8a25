//! The law of a cloud that users ask, for the proofs of callers. The call does nothing.

ghost use Rattle.std.specs.Prelude.{◌≡◌, ◌⊎◌, ◌↔◌, List, [], ◌∷◌, ◌++◌, Some};
ghost use Rattle.std.specs.List.{Contains};
ghost use Rattle.journal_halves.specs.CdEdges.area.Area.{Area};
ghost use Rattle.journal_halves.specs.CdEdges.Disk.{Cloud, Image, IsImage, LeavesOnly, reads};
ghost use Rattle.journal_halves.specs.CdEdges.Shelf.{stable};
ghost use Rattle.journal_halves.specs.JournalStart.start.Header.{Header};
ghost use Rattle.user_dedup.specs.Messages.request.Request.{Request};
ghost use Rattle.user_dedup.specs.declared.command.Command.{Command};
ghost use Rattle.user_dedup.specs.Dedup.{Outcome};
ghost use Rattle.user_dedup.specs.Exec.{Peer, MaySettleAs};
ghost use Rattle.cloud_areas.specs.Standing.{StandsFor};
ghost use Rattle.cloud_areas.specs.Peers.{StandsForSome, ImagesNow, ImagesSince, MayBecome};

/// From what a store leaves of a cloud's images to what a peer says of them.
pub fn law_of_peers()
    // Each image since stands for one list, as which the peer may settle.
    ensures kept { (header : Header) (old new : Cloud) (p : Peer) (list : List Command) → MaySettleAs p list
        → LeavesOnly old new (λ image. StandsFor image header list) → ImagesSince old new header (MaySettleAs p) }
    // Each image since stands for it, or for it with the command that a request adds.
    ensures added { (serve : List Command → Request → Outcome) (header : Header) (old new : Cloud) (p : Peer)
        (request : Request) (list : List Command) (command : Command)
        → MaySettleAs p list → (serve list request).adds ≡ Some command
        → LeavesOnly old new (λ image. StandsFor image header list ⊎ StandsFor image header (list ++ command ∷ []))
        → ImagesSince old new header (MayBecome serve p request) }
    // Whatever lists the images stood for, each image since stands for one of them.
    ensures lists { (header : Header) (old new : Cloud) (p : Peer) → ImagesNow old header (MaySettleAs p)
        → ((lists : List (List Command)) → ((image : Image) → IsImage old.now image
        → StandsForSome header (Contains lists) image)
        → LeavesOnly old new (StandsForSome header (Contains lists)))
        → ImagesSince old new header (MaySettleAs p) }
    // What is said of all images since is said of those now.
    ensures last { (header : Header) (old new : Cloud) (p : Peer) → ImagesSince old new header (MaySettleAs p)
        → ImagesNow new header (MaySettleAs p) }
    // Where a crash leaves each area as it reads, each image stands for just those lists that the areas stand for.
    ensures alike { (header : Header) (cloud : Cloud) (image : Image) (list : List Command)
        → ((area : Area) → cloud.now area ≡ stable (cloud.now area).read) → IsImage cloud.now image
        → StandsFor image header list ↔ StandsFor (reads cloud.now) header list }
{}
