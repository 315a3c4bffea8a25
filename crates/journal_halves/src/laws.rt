//! The laws of a journal in two halves, for the proofs of callers. The calls do nothing.

ghost use Rattle.std.specs.Prelude.{◌≡◌, ℕ, ◌*◌, ◌-◌, List, [], ◌∷◌};
ghost use Rattle.cd_edges.specs.Disk.{Store, MayLeave};
ghost use Rattle.cd_edges.specs.Shelf.{wrote};
ghost use Rattle.journal_halves.specs.Records.{IsJournal};
ghost use Rattle.journal_halves.specs.Halves.{half_len};
ghost use Rattle.journal_halves.specs.Journals.{Where, HasChain, IsEither, Stands, IsOpenAt, IsHalfApart, IsLaidWhole};

/// Bytes are the journal of one list of bodies at most.
pub fn law_of_journals()
    ensures { (one two : List (List ℕ)) (bytes : List ℕ) → IsJournal one bytes → IsJournal two bytes → one ≡ two }
{}

/// Bytes are the journal of one chain at most: one half is the current one, with one start and one list of bodies.
pub fn law_of_chains()
    ensures { (journal : List ℕ) (w v : Where) → HasChain journal w → HasChain journal v → w ≡ v }
{}

/// Whatever a crash leaves while the other half's first gate is closed, which holds 1 or isn't there: the chain.
pub fn law_of_turning()
    ensures { (store : Store) (w : Where) (half : ℕ) → half ≡ 1 - w.half → Stands store w → IsOpenAt store.read half
        → (image : List ℕ)
        → MayLeave (wrote store (half * half_len) (0 ∷ [])) image → HasChain image w }
{}

/// Whatever a crash leaves while the other half's first gate is closed, and anything is written behind it within that
/// half: the chain.
pub fn law_of_laying()
    ensures { (store : Store) (w : Where) (half : ℕ) → IsHalfApart store w half → (image : List ℕ)
        → MayLeave store image
        → HasChain image w }
{}

/// Whatever a crash leaves while the first gate of a checkpoint that is laid whole is opened: the chain, or the
/// checkpoint's.
pub fn law_of_settling()
    ensures { (store : Store) (w next : Where) → IsLaidWhole store w next → (image : List ℕ)
        → MayLeave (wrote store (next.half * half_len) (1 ∷ [])) image → IsEither w next image }
{}
