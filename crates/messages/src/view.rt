//! Requests in the bytes that they came in.

ghost use Rattle.std.specs.Prelude.{◌≡◌, ◌<◌, ◌^◌, length, Ok, Err, MatchResult, ◌↔◌};
ghost use Rattle.message_fields.specs.Readings.{IsReadingSeenBy};
ghost use Rattle.messages.specs.Parts.{after_at};
ghost use Rattle.messages.specs.declared.request.Request.{Request};
ghost use Rattle.messages.specs.Requests.{IsRequest};
ghost use Rattle.messages.specs.RequestReading.{query_left, put_left, commit_left, delete_left, get_recipe_left, get_shares_left, list_left, fields_left, request_left, request_at};
ghost use Rattle.messages.specs.Seen.{seen};

use message_fields::{
    FpsView, Left, SharesView, Tag, UserId, Version, ended, fps_of, key_of, shares_of, user_of,
};

/// A request in the bytes that it came in. It takes no memory.
#[derive(Drop)]
pub enum RequestView<'a> {
    /// Who is there?
    Hello,
    /// Which of these fingerprints has the user stored there?
    Query {
        user: UserId,
        fps: FpsView<'a>,
    },
    /// Keep these shares for the user.
    Put {
        user: UserId,
        shares: SharesView<'a>,
    },
    /// Enter this recipe as a version of the user's file.
    Commit {
        user: UserId,
        tag: Tag,
        version: Version,
        recipe: &'a [u8],
    },
    /// The recipe of a version of the user's file.
    GetRecipe {
        user: UserId,
        tag: Tag,
        version: Version,
    },
    /// The user's shares of these fingerprints.
    GetShares {
        user: UserId,
        fps: FpsView<'a>,
    },
    /// The user's files, from above this one on.
    List {
        user: UserId,
        after: Option<(Tag, Version)>,
    },
    /// Take this version of the user's file out.
    Delete {
        user: UserId,
        tag: Tag,
        version: Version,
    },
}

// A key or none, behind a flag.
#[tactic(auto, unfolding(crate::specs::Parts::after_at))]
fn after_of(bytes: &[u8]) -> Result<(Option<(Tag, Version)>, &[u8]), Left>
    ensures { IsReadingSeenBy (λ x. (x.0, x.1.now)) result (after_at bytes.now) }
{
    match bytes {
        [] => Err(Left(0)),
        [0, rest @ ..] => Ok((None, rest)),
        [1, rest @ ..] => {
            let (key, rest) = key_of(rest)?;
            Ok((Some(key), rest))
        }
        _ => Err(Left(bytes.len())),
    }
}

#[tactic(auto, unfolding(crate::specs::RequestReading::query_left))]
fn query_of(fields: &[u8]) -> Result<RequestView<'_>, Left>
    ensures { IsReadingSeenBy seen result (query_left fields.now) }
{
    let (user, rest) = user_of(fields)?;
    let (fps, rest) = fps_of(rest)?;
    ended(rest)?;
    Ok(RequestView::Query { user, fps })
}

#[tactic(auto, unfolding(crate::specs::RequestReading::put_left))]
fn put_of(fields: &[u8]) -> Result<RequestView<'_>, Left>
    ensures { IsReadingSeenBy seen result (put_left fields.now) }
{
    let (user, rest) = user_of(fields)?;
    let (shares, rest) = shares_of(rest)?;
    ended(rest)?;
    Ok(RequestView::Put { user, shares })
}

#[tactic(auto, unfolding(crate::specs::RequestReading::commit_left))]
fn commit_of(fields: &[u8]) -> Result<RequestView<'_>, Left>
    ensures { IsReadingSeenBy seen result (commit_left fields.now) }
{
    let (user, rest) = user_of(fields)?;
    let ((tag, version), recipe) = key_of(rest)?;
    match recipe {
        [] => Err(Left(0)),
        _ => Ok(RequestView::Commit {
            user,
            tag,
            version,
            recipe,
        }),
    }
}

#[tactic(auto, unfolding(crate::specs::RequestReading::get_recipe_left))]
fn get_recipe_of(fields: &[u8]) -> Result<RequestView<'_>, Left>
    ensures { IsReadingSeenBy seen result (get_recipe_left fields.now) }
{
    let (user, rest) = user_of(fields)?;
    let ((tag, version), rest) = key_of(rest)?;
    ended(rest)?;
    Ok(RequestView::GetRecipe { user, tag, version })
}

#[tactic(auto, unfolding(crate::specs::RequestReading::get_shares_left))]
fn get_shares_of(fields: &[u8]) -> Result<RequestView<'_>, Left>
    ensures { IsReadingSeenBy seen result (get_shares_left fields.now) }
{
    let (user, rest) = user_of(fields)?;
    let (fps, rest) = fps_of(rest)?;
    ended(rest)?;
    Ok(RequestView::GetShares { user, fps })
}

#[tactic(auto, unfolding(crate::specs::RequestReading::list_left))]
fn list_of(fields: &[u8]) -> Result<RequestView<'_>, Left>
    ensures { IsReadingSeenBy seen result (list_left fields.now) }
{
    let (user, rest) = user_of(fields)?;
    let (after, rest) = after_of(rest)?;
    ended(rest)?;
    Ok(RequestView::List { user, after })
}

#[tactic(auto, unfolding(crate::specs::RequestReading::delete_left))]
fn delete_of(fields: &[u8]) -> Result<RequestView<'_>, Left>
    ensures { IsReadingSeenBy seen result (delete_left fields.now) }
{
    let (user, rest) = user_of(fields)?;
    let ((tag, version), rest) = key_of(rest)?;
    ended(rest)?;
    Ok(RequestView::Delete { user, tag, version })
}

// No fields.
#[tactic(auto, unfolding(crate::specs::RequestReading::fields_left))]
fn hello_of(fields: &[u8]) -> Result<RequestView<'_>, Left>
    ensures { IsReadingSeenBy seen result (fields_left 1 fields.now) }
{
    ended(fields)?;
    Ok(RequestView::Hello)
}

#[tactic(auto, unfolding(crate::specs::RequestReading::fields_left, crate::specs::RequestReading::request_left))]
fn view_of(content: &[u8]) -> Result<RequestView<'_>, Left>
    ensures { IsReadingSeenBy seen result (request_left content.now) }
{
    match content {
        [] => Err(Left(0)),
        [1, fields @ ..] => hello_of(fields),
        [2, fields @ ..] => query_of(fields),
        [3, fields @ ..] => put_of(fields),
        [4, fields @ ..] => commit_of(fields),
        [5, fields @ ..] => get_recipe_of(fields),
        [6, fields @ ..] => get_shares_of(fields),
        [7, fields @ ..] => list_of(fields),
        [8, fields @ ..] => delete_of(fields),
        _ => Err(Left(content.len())),
    }
}

impl<'a> RequestView<'a> {
    /// The request that the content is, all of it, or the place of the first field that fails, counted from 0. Fields are read in
    /// order: an unknown kind gives 0; a field that lacks bytes gives the length of the content, one out of its range its first
    /// place; bytes behind the last field give the place of the first of them.
    #[tactic(auto, unfolding(crate::specs::RequestReading::request_at))]
    pub fn check(content: &'a [u8]) -> Result<RequestView<'a>, u32>
        requires { length content.now < 2 ^ 32 }
        ensures reads { MatchResult result (λ view. request_at content.now
            ≡ Ok (seen view)) (λ at. request_at content.now ≡ Err at) }
        // Content is read as the request that it is the spelling of, and no other content is read.
        ensures grammar { (r : Request) → (request_at content.now ≡ Ok r) ↔ IsRequest content.now r }
    {
        match view_of(content) {
            Ok(view) => Ok(view),
            Err(Left(left)) => Err(content.len().saturating_sub(left) as u32),
        }
    }
}
