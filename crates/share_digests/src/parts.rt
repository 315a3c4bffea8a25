//! The shares of a batch, side by side.
ghost use Rattle.std.specs.Prelude.{◌≡◌, ◌≤◌, length, map, take};

use message_fields::SharesView;

/// The shares of a batch of at most 256, one after another. What stands behind them is of no meaning.
pub(crate) fn parts_of<'a>(shares: &SharesView<'a>) -> [&'a [u8]; 256]
    requires { length shares.now ≤ 256 }
    ensures { take (length shares.now) (map (λ part. part.now) result) ≡ shares.now }
{
    let mut parts: [&'a [u8]; 256] = [&[]; 256];
    let mut rest = shares.copied();
    'shares: for place in 0..shares.len() {
        let Some((share, more)) = rest.split_first() else {
            return parts;
        };
        parts[place] = share;
        rest = more;
    }
    parts
}
