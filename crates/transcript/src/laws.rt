//! What holds of all lines.

ghost use Rattle.std.specs.Prelude.{◌≡◌, ℕ, List, ◌++◌, Some, All};
ghost use Rattle.std.specs.List.{flat_map};
ghost use Rattle.transcript.specs.Transcript.{line_text};
ghost use Rattle.transcript.specs.Ranges.{FitsTranscript};
ghost use Rattle.transcript.specs.Reading.{line_at};
ghost use Rattle.transcript.specs.declared.line.Line.{Line};

/// The text of a line says which line it is, whatever follows it, where each field is in the range of its type. So no
/// two different lines have one text, no line's text begins another's, and no two different transcripts have one text.
pub fn law_of_lines()
    ensures read_back { (line : Line) (rest : List ℕ) → FitsTranscript line
        → line_at (line_text line ++ rest) ≡ Some (line, rest) }
    ensures one_line { (a b : Line) (x y : List ℕ) → FitsTranscript a → FitsTranscript b
        → line_text a ++ x ≡ line_text b ++ y
        → (a ≡ b) × (x ≡ y) }
    ensures one_transcript { (a b : List Line) → All FitsTranscript a → All FitsTranscript b
        → flat_map line_text a ≡ flat_map line_text b → a ≡ b }
{}
