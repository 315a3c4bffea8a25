//! Replies whose greater parts stay in the bytes that they came in.

ghost use Rattle.std.specs.Prelude.{◌≡◌};
ghost use Rattle.messages.specs.ReplyViews.{kind_in};

use crate::Reply;
use message_fields::SharesView;

/// A reply whose recipe or shares stay in the bytes that it came in.
#[derive(Drop)]
pub enum ReplyView<'a> {
    /// To GetRecipe: the bytes of the recipe, of which there is one at least.
    Recipe(&'a [u8]),
    /// To GetShares: the shares.
    Shares(SharesView<'a>),
    /// Any other reply.
    Other(Reply),
}

/// The first byte of a reply's content, which is its kind; 0 of an empty one.
pub fn kind_of(content: &[u8]) -> u8
    ensures { result ≡ kind_in content.now }
{
    match content {
        [] => 0,
        [kind, ..] => *kind,
    }
}
