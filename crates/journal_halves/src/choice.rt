//! Which of two starts is the current one.

ghost use Rattle.std.specs.Prelude.{Some};
ghost use Rattle.journal_halves.specs.Choices.{IsChosen};

use crate::Found;
use journal_start::Start;

/// Which of two halves is the current one.
#[derive(Clone, Copy)]
pub enum Choice {
    /// No half is begun.
    Neither,
    /// This one.
    Current(Found),
    /// Both have one epoch; this is half 1's start.
    Equal(Start),
}

// Which of two starts is the later one.
fn later(first: Start, second: Start) -> Choice
    ensures { IsChosen (Some first) (Some second) result }
{
    let one = first.epoch();
    let two = second.epoch();
    if (one % 3 + 1) % 3 == two {
        Choice::Current(Found {
            half: 1,
            start: second,
        })
    } else if (two % 3 + 1) % 3 == one {
        Choice::Current(Found {
            half: 0,
            start: first,
        })
    } else {
        Choice::Equal(second)
    }
}

/// Which of two halves is the current one, by the starts of those that are begun: the only one, or the one whose epoch is the
/// other's plus 1 modulo 3.
pub fn choose(first: Option<Start>, second: Option<Start>) -> Choice
    ensures { IsChosen first second result }
{
    match (first, second) {
        (None, None) => Choice::Neither,
        (Some(start), None) => Choice::Current(Found { half: 0, start }),
        (None, Some(start)) => Choice::Current(Found { half: 1, start }),
        (Some(first), Some(second)) => later(first, second),
    }
}
