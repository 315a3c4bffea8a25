//! A body of format 1 in the bytes that it came in.

ghost use Rattle.std.specs.Prelude.{◌≡◌, ◌∷◌, ◌↔◌, length, Ok, Err, MatchResult, IfOk, IfErr};
ghost use Rattle.message_fields.specs.Readings.{IsReadingSeenBy};
ghost use Rattle.record_body.specs.FirstSpelling.{FirstBody, IsFirstBody};
ghost use Rattle.record_body.specs.FirstReading.{put_at, front_at, body_at, IsPlaced};
ghost use Rattle.record_body.specs.FirstSeen.{seen, FirstWalkStartsIn};

use crate::first_fields::{behind_items, commit_of};
use crate::{BodyErr, CommitBody, PutItems};
use message_fields::{Left, UserId, batch_of, user_of};

/// A body of format 1, in the bytes that it came in. It takes no memory.
#[derive(Drop)]
pub enum FirstBodyView<'a> {
    /// The user's shares are stored: those that were new to the user, in the request's order.
    Put { user: UserId, items: PutItems<'a> },
    /// A version of a user's file is entered.
    Commit(CommitBody),
}

// The fields of a Put, which stand behind the kind of a body, and what follows them.
#[tactic(auto, unfolding(crate::specs::FirstReading::put_at, crate::specs::FirstReading::items_at))]
fn put_of<'a>(body: &'a [u8], fields: &'a [u8]) -> Result<(FirstBodyView<'a>, &'a [u8]), Left>
    requires { body.now ≡ 1 ∷ fields.now }
    ensures reads { IsReadingSeenBy (λ x. (seen x.0, x.1.now)) result (put_at fields.now) }
    ensures starts { IfOk result (λ x. FirstWalkStartsIn body.now x.0) }
{
    let (user, rest) = user_of(fields)?;
    let (count, items) = batch_of(rest)?;
    let count = count as usize;
    let rest = behind_items(items, count)?;
    let walk = PutItems::over(body, 7, count);
    Ok((FirstBodyView::Put { user, items: walk }, rest))
}

// A body, and what follows it.
#[tactic(auto, unfolding(crate::specs::FirstReading::fields_at, crate::specs::FirstReading::front_at))]
fn view_of(body: &[u8]) -> Result<(FirstBodyView<'_>, &[u8]), Left>
    ensures reads { IsReadingSeenBy (λ x. (seen x.0, x.1.now)) result (front_at body.now) }
    ensures starts { IfOk result (λ x. FirstWalkStartsIn body.now x.0) }
{
    match body {
        [] => Err(Left(0)),
        [1, fields @ ..] => put_of(body, fields),
        [2, fields @ ..] => {
            let (commit, rest) = commit_of(fields)?;
            Ok((FirstBodyView::Commit(commit), rest))
        }
        _ => Err(Left(body.len())),
    }
}

impl<'a> FirstBodyView<'a> {
    /// The body that the bytes are, all of them. Fields are read in order, and the first that fails gives the error: `Short`
    /// comes exactly where it lacks bytes, and `Field` where its bytes are there and wrong, with its first place (an unknown
    /// kind has the place 0; each flag is a field). `Extra` comes exactly where all fields are read and bytes are left, with
    /// the place of the first of them.
    #[tactic(auto, unfolding(crate::specs::FirstReading::body_at))]
    pub fn check(body: &'a [u8]) -> Result<FirstBodyView<'a>, BodyErr>
        ensures reads { MatchResult result (λ view. body_at body.now ≡ Ok (seen view)) (λ e. body_at body.now ≡ Err e) }
        // The bytes are read as the body that they are the spelling of, and no other bytes are read.
        ensures grammar { (b : FirstBody) → (body_at body.now ≡ Ok b) ↔ IsFirstBody body.now b }
        // The walk over the items goes over these bytes, from the first item on.
        ensures starts { IfOk result (λ view. FirstWalkStartsIn body.now view) }
        // The place of an error is one of the bytes.
        ensures within { IfErr result (λ e. IsPlaced (length body.now) e) }
    {
        match view_of(body) {
            Ok((view, [])) => Ok(view),
            Ok((_, rest)) => Err(BodyErr::Extra {
                at: body.len().saturating_sub(rest.len()),
            }),
            Err(Left(0)) => Err(BodyErr::Short),
            Err(Left(left)) => Err(BodyErr::Field {
                at: body.len().saturating_sub(left),
            }),
        }
    }
}
