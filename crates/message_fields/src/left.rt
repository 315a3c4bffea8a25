//! Where reading failed.

ghost use Rattle.std.specs.Prelude.{◌≡◌};
ghost use Rattle.grammar.specs.declared.stop.Stop.TheVariants as stops;

use grammar::Stop;

/// Reading failed, and so many bytes are left from the first wrong place on; 0 at the end.
#[derive(Clone, Copy)]
pub struct Left(pub usize);

impl From<Left> for Stop {
    ghost from_gives = { λ left e. e ≡ stops.Left left.0 };

    fn from(left: Left) -> Stop {
        Stop::Left(left.0)
    }
}
