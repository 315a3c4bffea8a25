//! A body in the bytes that it came in.

ghost use Rattle.std.specs.Prelude.{◌≡◌, ◌∷◌, ◌↔◌, length, Ok, Err, MatchResult, IfOk, IfErr};
ghost use Rattle.message_fields.specs.Readings.{IsReadingSeenBy};
ghost use Rattle.record_body.specs.FirstReading as first_reading;
ghost use Rattle.record_body.specs.FirstReading.{IsPlaced};
ghost use Rattle.record_body.specs.Spelling.{Body, IsBody};
ghost use Rattle.record_body.specs.Reading.{kept_at, front_at, body_at, is_later, judged, lifted_answer};
ghost use Rattle.record_body.specs.Seen.{seen, StartsIn};

use crate::fields::{behind_items, delete_of, spent_of};
use crate::{BodyErr, CommitBody, DeleteBody, FirstBodyView, KeptItems, PutItems, SpentBody};
use message_fields::{Left, UserId, batch_of};

/// A body in the bytes that it came in. It takes no memory.
#[derive(Drop)]
pub enum BodyView<'a> {
    /// The user's shares are stored: those that were new to the user, in the request's order.
    Put { user: UserId, items: PutItems<'a> },
    /// A version of a user's file is entered.
    Commit(CommitBody),
    /// A version of a user's file is taken out.
    Delete(DeleteBody),
    /// Shares lie here that no user owns. It stands in a checkpoint alone.
    Kept(KeptItems<'a>),
    /// What a user has spent. It stands in a checkpoint alone.
    Spent(SpentBody),
}

// Whether the bytes begin with the kind of a Delete, a Kept or a Spent.
fn are_later(body: &[u8]) -> bool
    ensures { result ≡ is_later body.now }
{
    match body {
        [] => false,
        [kind, ..] => 3 <= *kind && *kind <= 5,
    }
}

// The fields of a Kept, which stand behind the kind of a body, and what follows them.
#[tactic(auto, unfolding(crate::specs::Reading::kept_at, crate::specs::Reading::items_at))]
fn kept_of<'a>(body: &'a [u8], fields: &'a [u8]) -> Result<(BodyView<'a>, &'a [u8]), Left>
    requires { body.now ≡ 4 ∷ fields.now }
    ensures reads { IsReadingSeenBy (λ x. (seen x.0, x.1.now)) result (kept_at fields.now) }
    ensures starts { IfOk result (λ x. StartsIn body.now x.0) }
{
    let (count, items) = batch_of(fields)?;
    let count = count as usize;
    let rest = behind_items(items, count)?;
    let walk = KeptItems::over(body, 3, count);
    Ok((BodyView::Kept(walk), rest))
}

// A Delete, a Kept or a Spent, and what follows it.
#[tactic(auto, unfolding(crate::specs::Reading::fields_at, crate::specs::Reading::front_at))]
fn view_of(body: &[u8]) -> Result<(BodyView<'_>, &[u8]), Left>
    ensures reads { IsReadingSeenBy (λ x. (seen x.0, x.1.now)) result (front_at body.now) }
    ensures starts { IfOk result (λ x. StartsIn body.now x.0) }
{
    match body {
        [] => Err(Left(0)),
        [3, fields @ ..] => {
            let (delete, rest) = delete_of(fields)?;
            Ok((BodyView::Delete(delete), rest))
        }
        [4, fields @ ..] => kept_of(body, fields),
        [5, fields @ ..] => {
            let (spent, rest) = spent_of(fields)?;
            Ok((BodyView::Spent(spent), rest))
        }
        _ => Err(Left(body.len())),
    }
}

// A Put or a Commit, all the bytes.
fn first_view(body: &[u8]) -> Result<BodyView<'_>, BodyErr>
    ensures reads { MatchResult result (λ view. lifted_answer (first_reading.body_at body.now) ≡ Ok (seen view))
        (λ e. lifted_answer (first_reading.body_at body.now) ≡ Err e) }
    ensures starts { IfOk result (λ view. StartsIn body.now view) }
    ensures within { IfErr result (λ e. IsPlaced (length body.now) e) }
{
    match FirstBodyView::check(body) {
        Ok(FirstBodyView::Put { user, items }) => Ok(BodyView::Put { user, items }),
        Ok(FirstBodyView::Commit(commit)) => Ok(BodyView::Commit(commit)),
        Err(error) => Err(error),
    }
}

// A Delete, a Kept or a Spent, all the bytes.
fn later_view(body: &[u8]) -> Result<BodyView<'_>, BodyErr>
    ensures reads { MatchResult result (λ view. judged (length body.now) (front_at body.now) ≡ Ok (seen view))
        (λ e. judged (length body.now) (front_at body.now) ≡ Err e) }
    ensures starts { IfOk result (λ view. StartsIn body.now view) }
    ensures within { IfErr result (λ e. IsPlaced (length body.now) e) }
{
    match view_of(body) {
        Ok((view, [])) => Ok(view),
        Ok((_, rest)) => Err(BodyErr::Extra {
            at: body.len().saturating_sub(rest.len()),
        }),
        Err(Left(0)) => Err(BodyErr::Short),
        Err(Left(left)) => Err(BodyErr::Field {
            at: body.len().saturating_sub(left),
        }),
    }
}

impl<'a> BodyView<'a> {
    /// The body that the bytes are, all of them. Fields are read in order, and the first that fails gives the error: `Short`
    /// comes exactly where it lacks bytes, and `Field` where its bytes are there and wrong, with its first place (an unknown
    /// kind has the place 0; each flag is a field). `Extra` comes exactly where all fields are read and bytes are left, with
    /// the place of the first of them.
    #[tactic(auto, unfolding(crate::specs::Reading::body_at))]
    pub fn check(body: &'a [u8]) -> Result<BodyView<'a>, BodyErr>
        ensures reads { MatchResult result (λ view. body_at body.now ≡ Ok (seen view)) (λ e. body_at body.now ≡ Err e) }
        // The bytes are read as the body that they are the spelling of, and no other bytes are read.
        ensures grammar { (b : Body) → (body_at body.now ≡ Ok b) ↔ IsBody body.now b }
        // The walk over the items goes over these bytes, from the first item on.
        ensures starts { IfOk result (λ view. StartsIn body.now view) }
        // The place of an error is one of the bytes.
        ensures within { IfErr result (λ e. IsPlaced (length body.now) e) }
    {
        if are_later(body) {
            later_view(body)
        } else {
            first_view(body)
        }
    }
}
