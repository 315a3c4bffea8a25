//! What holds of all scripts.

ghost use Rattle.std.specs.Prelude.{◌≡◌, ℕ, List};
ghost use Rattle.journal_start.specs.CdBase.shape.Shape.{Shape};
ghost use Rattle.journal_start.specs.declared.rooms.UserRooms.{UserRooms};
ghost use Rattle.session.specs.Scripts.{ScriptPlace, Reaches, IsEnd};
ghost use Rattle.session.specs.declared.event.Event.{Event};

/// A script is read to its end in one way: as one shape, one choice of rooms and one list of events.
pub fn law_of_scripts()
    ensures one { (script : List ℕ) (s t : Shape) (q r : UserRooms) (a b : List Event) (x y : ScriptPlace)
        → Reaches script s q a x → IsEnd x → Reaches script t r b y → IsEnd y → (s ≡ t) × (q ≡ r) × (a ≡ b) }
{}
