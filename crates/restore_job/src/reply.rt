//! Replies to reading requests.

ghost use Rattle.std.specs.Prelude.{◌≡◌, ◌<◌, ◌^◌, List, ℕ, length, IfOk, Ok};
ghost use Rattle.user_dedup.specs.CdBase.Reading.{AreBytes};
ghost use Rattle.user_dedup.specs.Messages.reply.Reply.TheVariants as replies;
ghost use Rattle.user_dedup.specs.Messages.ReplyReading.{reply_at};
ghost use Rattle.user_dedup.specs.Messages.ReplyViews.{kind_in};
ghost use Rattle.user_dedup.specs.Recipe.Spelling.{Fits};
ghost use Rattle.restore_job.specs.Steps.{HasKind, NamesKind, RecipeFrom, SharesFrom, refusal};

use crate::RestoreErr;
use std::alloc::Global;
use user_dedup::{
    CloudNo, MsgErr, Recipe, RecipeErr, Reply, ReplyView, Shape, SharesView, kind_of,
};

// The refusal that a reply is which brings nothing, where `missing` is what Missing says.
fn refusal_of(cloud: CloudNo, kind: u8, missing: RestoreErr, reply: &Reply) -> RestoreErr
    ensures is { result ≡ refusal cloud kind missing reply.now }
    ensures kind { (content : List ℕ) → kind ≡ kind_in content → HasKind content missing → HasKind content result }
{
    match reply {
        Reply::Missing => missing,
        Reply::Fault => RestoreErr::CloudFault { cloud },
        Reply::Damaged { at, byte } => RestoreErr::CloudDamaged {
            cloud,
            at: *at,
            byte: *byte,
        },
        Reply::Rotten { named, found } => RestoreErr::CloudRotten {
            cloud,
            named: *named,
            found: *found,
        },
        Reply::NoMemory => RestoreErr::CloudNoMemory { cloud },
        Reply::Hello { .. }
        | Reply::Known { .. }
        | Reply::Stored { .. }
        | Reply::Committed
        | Reply::Exists
        | Reply::Lacking { .. }
        | Reply::Recipe { .. }
        | Reply::Shares { .. }
        | Reply::NotYours { .. }
        | Reply::Entries { .. }
        | Reply::Deleted
        | Reply::Full { .. }
        | Reply::Malformed { .. } => RestoreErr::Strange { cloud, kind },
    }
}

// The recipe that bytes of a reply are.
fn recipe_of(
    alloc: Global,
    shape: Shape,
    cloud: CloudNo,
    kind: u8,
    bytes: &[u8],
) -> Result<Recipe, RestoreErr>
    requires few { length bytes.now < 2 ^ 32 }
    ensures from { RecipeFrom shape cloud (Ok (replies.Recipe bytes.now)) result }
    ensures kind { (content : List ℕ) → kind ≡ kind_in content → NamesKind content result }
    ensures fits { IfOk result (Fits shape) }
{
    match Recipe::read(alloc, shape, bytes) {
        Ok(recipe) => Ok(recipe),
        Err(RecipeErr::NoMemory) => Err(RestoreErr::NoMemory),
        Err(RecipeErr::Malformed { .. }) => Err(RestoreErr::Strange { cloud, kind }),
    }
}

/// The recipe that the content of a cloud's reply brings, or the refusal that it is.
pub fn recipe_from(
    alloc: Global,
    shape: Shape,
    cloud: CloudNo,
    content: &[u8],
) -> Result<Recipe, RestoreErr>
    requires few { length content.now < 2 ^ 32 }
    ensures from { RecipeFrom shape cloud (reply_at content.now) result }
    ensures kind { NamesKind content.now result }
    ensures fits { IfOk result (Fits shape) }
    ensures bytes { AreBytes content.now }
{
    let kind = kind_of(content);
    match ReplyView::read(alloc, content) {
        Ok(ReplyView::Recipe(bytes)) => recipe_of(alloc, shape, cloud, kind, bytes),
        Ok(ReplyView::Other(reply)) => {
            let missing = RestoreErr::Missing { cloud };
            Err(refusal_of(cloud, kind, missing, &reply))
        }
        Ok(ReplyView::Shares(_)) => Err(RestoreErr::Strange { cloud, kind }),
        Err(MsgErr::Malformed { .. }) => Err(RestoreErr::Strange { cloud, kind }),
        Err(MsgErr::NoMemory) => Err(RestoreErr::NoMemory),
    }
}

/// So many shares that the content of a cloud's reply brings, or the refusal that it is.
pub fn shares_from(
    alloc: Global,
    cloud: CloudNo,
    count: usize,
    content: &[u8],
) -> Result<SharesView<'_>, RestoreErr>
    requires few { length content.now < 2 ^ 32 }
    ensures from { SharesFrom cloud count (reply_at content.now) result }
    ensures kind { NamesKind content.now result }
    ensures bytes { AreBytes content.now }
{
    let kind = kind_of(content);
    match ReplyView::read(alloc, content) {
        Ok(ReplyView::Shares(shares)) => {
            if shares.len() == count {
                Ok(shares)
            } else {
                Err(RestoreErr::Strange { cloud, kind })
            }
        }
        Ok(ReplyView::Other(reply)) => {
            let missing = RestoreErr::Strange { cloud, kind };
            Err(refusal_of(cloud, kind, missing, &reply))
        }
        Ok(ReplyView::Recipe(_)) => Err(RestoreErr::Strange { cloud, kind }),
        Err(MsgErr::Malformed { .. }) => Err(RestoreErr::Strange { cloud, kind }),
        Err(MsgErr::NoMemory) => Err(RestoreErr::NoMemory),
    }
}
