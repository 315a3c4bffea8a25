//! The laws of starts, for the proofs of callers. The calls do nothing.

ghost use Rattle.std.specs.Prelude.{◌≡◌, ◌↔◌, ℕ, ◌<◌, ◌≤◌, List, ◌∷◌, ◌++◌, length, All, Some, None, Ok, Err};
ghost use Rattle.journal_start.specs.declared.rooms.UserRooms.{UserRooms};
ghost use Rattle.journal_start.specs.declared.start.Checkpoint.{Checkpoint};
ghost use Rattle.journal_start.specs.declared.start.Start.{Start};
ghost use Rattle.journal_start.specs.declared.fault.StartFault.TheVariants.{Short, Wrong};
ghost use Rattle.journal_start.specs.Ranges.{AreRooms, IsHeader, IsStart, first_broken};
ghost use Rattle.journal_start.specs.Spelling.{start_bytes, IsSpelled};
ghost use Rattle.journal_start.specs.Reading.{fields_of, start_at};

/// Reading and spelling are inverse.
pub fn law_of_starts()
    // a start is read again
    ensures again { (half : ℕ) (start : Start) → IsStart half start
        → start_at half (start_bytes start) ≡ Ok (fields_of start) }
    // no two starts have one spelling
    ensures one { (half : ℕ) (a b : Start) → IsStart half a → IsStart half b → start_bytes a ≡ start_bytes b → a ≡ b }
    // bytes behind a checkpoint's start are refused at the first of them
    ensures extra { (half : ℕ) (start : Start) (checkpoint : Checkpoint) (byte : ℕ) (rest : List ℕ)
        → IsStart half start → start.checkpoint ≡ Some checkpoint
        → start_at half (start_bytes start ++ byte ∷ rest) ≡ Err (Wrong (length (start_bytes start)) byte) }
{}

/// How long a start is.
pub fn law_of_lengths()
    ensures plain_first { (half : ℕ) (start : Start) → IsStart half start → start.header.format ≡ 1
        → start.checkpoint ≡ None → length (start_bytes start) ≡ 8 }
    ensures first { (half : ℕ) (start : Start) (checkpoint : Checkpoint) → IsStart half start → start.header.format ≡ 1
        → start.checkpoint ≡ Some checkpoint → length (start_bytes start) ≡ 36 }
    ensures plain_second { (half : ℕ) (start : Start) → IsStart half start → start.header.format ≡ 2
        → start.checkpoint ≡ None → length (start_bytes start) ≡ 36 }
    ensures second { (half : ℕ) (start : Start) (checkpoint : Checkpoint) → IsStart half start → start.header.format ≡ 2
        → start.checkpoint ≡ Some checkpoint → length (start_bytes start) ≡ 57 }
{}

/// Rooms are allowed exactly where none of them breaks its range or its product.
pub fn law_of_rooms()
    ensures { (rooms : UserRooms) → (first_broken rooms ≡ None) ↔ AreRooms rooms }
{}
