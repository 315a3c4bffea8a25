//! Whether the line of a reply says that the version is gone.

ghost use Rattle.std.specs.Prelude.{◌↔◌, IsTrue};
ghost use Rattle.delete_command.specs.Lines.{IsGone};

use deletions::Line;

/// Whether the line says that the version isn't there any more.
pub fn is_gone(line: &Line) -> bool
    ensures { IsTrue result ↔ IsGone line.now }
{
    match line {
        Line::Deleted { .. } => true,
        Line::Missing { .. } => true,
        _ => false,
    }
}
