//! The damage that an opening names, and the reply to it.

ghost use Rattle.std.specs.Prelude.{◌≢◌};
ghost use Rattle.server_requests.specs.JournalStart.Ranges.{IsHeader};
ghost use Rattle.server_requests.specs.JournalStart.Spelling.{header_bytes};
ghost use Rattle.share_server.specs.Refusals.{DiffersAt, AreSameInFront, IsNamedDamage, IsErrorReply, MayCome};

use server_requests::{Header, OpenErr, ReplyBuf, Start, write_damaged, write_fault};

// The first place of both at which found bytes differ from the asked ones, and the byte there; or 0 and 0 where there is none.
fn first_difference(found: &[u8], asked: &[u8]) -> (usize, u8)
    ensures { ¬ (AreSameInFront found.now asked.now) → DiffersAt found.now asked.now result.0 result.1 }
{
    for place in 0..found.len().min(asked.len()) {
        if found[place] != asked[place] {
            return (place, found[place]);
        }
    }
    (0, 0)
}

// The bytes of a header, as a start spells them that has no checkpoint.
fn first_place(found: Header, asked: Header) -> (usize, u8)
    ensures { IsHeader found → IsHeader asked → found ≢ asked
        → DiffersAt (header_bytes found) (header_bytes asked) result.0 result.1 }
{
    let ours = Start {
        header: found,
        checkpoint: None,
    }
    .bytes();
    let theirs = Start {
        header: asked,
        checkpoint: None,
    }
    .bytes();
    first_difference(ours.as_slice(), theirs.as_slice())
}

/// The place and the byte by which a server's reply names the error of an opening: those of the damage, and of another store's
/// header the first byte that differs, counted from the header's place on. Of the other errors, which are no damage, nothing is
/// said.
pub fn damage_of(error: OpenErr) -> (u64, u8)
    ensures { IsNamedDamage error result.0 result.1 }
{
    match error {
        OpenErr::Damaged { at, byte } => (at, byte),
        OpenErr::OtherStore { found, asked, at } => {
            let (place, byte) = first_place(found, asked);
            (at.saturating_add(place as u64), byte)
        }
        OpenErr::Fault => (0, 0),
        OpenErr::NotBegun { len } => (len, 0),
    }
}

/// The reply to an opening's error becomes the content.
pub(crate) fn put_refusal(reply: &mut ReplyBuf, error: OpenErr)
    requires { MayCome error }
    ensures { IsErrorReply error reply.new }
{
    match error {
        OpenErr::Fault => write_fault(reply),
        OpenErr::Damaged { .. } | OpenErr::OtherStore { .. } => {
            let (at, byte) = damage_of(error);
            write_damaged(reply, at, byte);
        }
        OpenErr::NotBegun { .. } => unreachable!(),
    }
}
