//! Which kinds of lines there are, and which may stand where.

ghost use Rattle.std.specs.Prelude.{◌≡◌, ◌≢◌, IfErr};
ghost use Rattle.session.specs.Grammar.Readers.{Gives};
ghost use Rattle.session.specs.Grammar.Words.{word_at};
ghost use Rattle.certificate.specs.Reading.{kind_named, may_stand, kind_at, kind_of, stage_behind, is_over};

use crate::CertificateLine;
use session::{Stop, cut_word};

/// Which lines may come: the first; shares, files or the last; files or the last; none.
#[derive(Clone, Copy)]
pub enum LineStage {
    First,
    Shares,
    Files,
    Over,
}

/// The first word of a line.
#[derive(Clone, Copy)]
pub enum LineKind {
    Heading,
    Share,
    File,
    End,
}

// The kind of a name.
fn kind_by(word: &[u8]) -> Option<LineKind>
    ensures { result ≡ kind_named word.now }
{
    if word == b"audit".as_slice() {
        Some(LineKind::Heading)
    } else if word == b"share".as_slice() {
        Some(LineKind::Share)
    } else if word == b"file".as_slice() {
        Some(LineKind::File)
    } else if word == b"end".as_slice() {
        Some(LineKind::End)
    } else {
        None
    }
}

// Whether a line of this kind may stand here.
fn can_stand(stage: LineStage, kind: LineKind) -> bool
    ensures { result ≡ may_stand stage kind }
{
    match stage {
        LineStage::First => matches!(kind, LineKind::Heading),
        LineStage::Shares => !matches!(kind, LineKind::Heading),
        LineStage::Files => matches!(kind, LineKind::File | LineKind::End),
        LineStage::Over => false,
    }
}

#[tactic(auto, unfolding(crate::specs::Reading::kind_at))]
fn kind_here(stage: LineStage, word: &[u8]) -> Option<LineKind>
    ensures { result ≡ kind_at stage word.now }
{
    match kind_by(word) {
        Some(kind) => {
            if can_stand(stage, kind) {
                Some(kind)
            } else {
                None
            }
        }
        None => None,
    }
}

/// The kind of a line that may stand here, by its first word, and what follows that word. It takes no memory, and want of
/// it is no answer.
#[tactic(auto, unfolding(grammar::specs::Words::word_at))]
pub fn kind_word(stage: LineStage, line: &[u8]) -> Result<(LineKind, &[u8]), Stop>
    ensures value { Gives (λ x. (x.0, x.1.now)) result (word_at (kind_at stage) line.now) }
    ensures memory { IfErr result (λ e. e ≢ Stop.Memory) }
{
    let (word, rest) = cut_word(line);
    match kind_here(stage, word) {
        Some(kind) => Ok((kind, rest)),
        None => Err(Stop::Left(line.len())),
    }
}

/// What may come behind a line.
pub fn stage_after(line: &CertificateLine) -> LineStage
    ensures { result ≡ stage_behind (kind_of line.now) }
{
    match line {
        CertificateLine::Heading(_) => LineStage::Shares,
        CertificateLine::Share(_) => LineStage::Shares,
        CertificateLine::File(_) => LineStage::Files,
        CertificateLine::End { count: _ } => LineStage::Over,
    }
}

/// Whether no line may come.
pub fn no_more(stage: LineStage) -> bool
    ensures { result ≡ is_over stage }
{
    matches!(stage, LineStage::Over)
}
