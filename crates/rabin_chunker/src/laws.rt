//! The laws of the ends of secrets, for the proofs of callers. The calls do nothing.
ghost use Rattle.std.specs.Prelude.{◌≡◌, ◌+◌, ◌<◌, ◌≤◌, ◌++◌, [], length};
ghost use Rattle.std.specs.List.{concat};
ghost use Rattle.cd_base.specs.Limits.{secret_limit};
ghost use Rattle.rabin_chunker.specs.Cuts.{ends, ends_after, fed_ends, last_end};
ghost use Rattle.rabin_chunker.specs.Rule.{IsCutFrom, IsFirstEnd};

use cd_base::Bytes;

/// Each secret ends at the first place where it may: from the start of the file the ends are those of the rule.
pub fn ends_obey_the_rule(file: &[u8])
    ensures { IsCutFrom file.now 0 (ends file.now) }
{}

/// No other list of places obeys the rule.
pub fn ends_alone_obey_the_rule(file: &[u8], places: &[u64])
    requires { IsCutFrom file.now 0 places.now }
    ensures { places.now ≡ ends file.now }
{}

/// No secret is longer than 16,384 bytes, and only the last may be shorter than 2,048.
pub fn secrets_are_bounded(file: &[u8], start: u64, end: u64)
    requires { IsFirstEnd file.now start end }
    ensures longest { end ≤ start + secret_limit }
    ensures shortest { end < length file.now → start + 2048 ≤ end }
{}

/// The ends that are appended as pieces are fed in turn, and the last one, are those of the whole file.
pub fn pieces_do_not_matter(pieces: &[Bytes])
    ensures { fed_ends [] pieces.now ++ last_end (concat pieces.now) ≡ ends (concat pieces.now) }
{}

/// What a caller that feeds piece after piece keeps: the ends within the bytes so far, wherever the file ends.
pub fn ends_go_on(fed: &[u8], piece: &[u8])
    ensures { ends_after fed.now 0 (length fed.now)
        ++ ends_after (fed.now ++ piece.now) (length fed.now) (length piece.now)
        ≡ ends_after (fed.now ++ piece.now) 0 (length (fed.now ++ piece.now)) }
{}

/// At the end of the file these and the last one are the ends of all secrets.
pub fn ends_are_whole(file: &[u8])
    ensures { ends_after file.now 0 (length file.now) ++ last_end file.now ≡ ends file.now }
{}
