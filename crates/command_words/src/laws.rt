//! What holds of all words.

ghost use Rattle.std.specs.Prelude.{◌≡◌, ℕ, List};
ghost use Rattle.command_words.specs.Asked.{Asked};
ghost use Rattle.command_words.specs.Commands.{IsCommand};

/// Words ask for one thing at most.
pub fn law_of_words()
    ensures one { (words : List (List ℕ)) (a b : Asked) → IsCommand words a → IsCommand words b → a ≡ b }
{}
