//! What is asked of a store, in the bytes that it came in.

ghost use Rattle.std.specs.Prelude.{◌≡◌, ◌+◌, ◌<◌, ◌^◌, length, Ok, Err, IfOk, MatchResult};
ghost use Rattle.server_commands.specs.Messages.Seen.{seen};
ghost use Rattle.server_commands.specs.Messages.Requests.{FitsRequest};
ghost use Rattle.server_commands.specs.Messages.request.Request.TheVariants as requests;
ghost use Rattle.server_commands.specs.Recipe.Reading.{recipe_at};
ghost use Rattle.server_commands.specs.UserDedup.Requests.{HasRecipe, recipe_place, recipe_read, whole_read, asked_at};
ghost use Rattle.server_requests.specs.Asking.{IsOfShape, request_of, recipe_in};

use server_commands::{FpsView, RecipeView, RequestView, Shape, SharesView, Tag, UserId, Version};

/// What is asked of a store of one shape, in the bytes that it came in. It takes no memory.
#[derive(Drop)]
pub enum StoreRequest<'a> {
    /// Who is there?
    Hello,
    /// Which of these fingerprints has the user stored there?
    Query {
        user: UserId,
        fps: FpsView<'a>,
    },
    /// Keep these shares for the user.
    Put {
        user: UserId,
        shares: SharesView<'a>,
    },
    /// Enter this recipe, which is one of the store's shape, as a version of the user's file.
    Commit {
        user: UserId,
        tag: Tag,
        version: Version,
        recipe: RecipeView<'a>,
    },
    /// The recipe of a version of the user's file.
    GetRecipe {
        user: UserId,
        tag: Tag,
        version: Version,
    },
    /// The user's shares of these fingerprints.
    GetShares {
        user: UserId,
        fps: FpsView<'a>,
    },
    /// The user's files, from above this one on.
    List {
        user: UserId,
        after: Option<(Tag, Version)>,
    },
    /// Take this version of the user's file out.
    Delete {
        user: UserId,
        tag: Tag,
        version: Version,
    },
}

// The place in front of the recipe of a Commit.
const RECIPE_PLACE: u32 = 45;

// A Commit, whose recipe is read too.
fn commit_of(
    shape: Shape,
    user: UserId,
    tag: Tag,
    version: Version,
    recipe: &[u8],
) -> Result<StoreRequest<'_>, u32>
    requires { recipe_place + length recipe.now < 2 ^ 32 }
    ensures reads { MatchResult result
        (λ asked. recipe_read (requests.Commit user tag version recipe.now) (recipe_at shape recipe.now)
        ≡ Ok (request_of asked))
        (λ at. recipe_read (requests.Commit user tag version recipe.now) (recipe_at shape recipe.now) ≡ Err at) }
    ensures recipe { IfOk result (IsOfShape shape) }
{
    match RecipeView::check(shape, recipe) {
        Ok(recipe) => Ok(StoreRequest::Commit {
            user,
            tag,
            version,
            recipe,
        }),
        Err(fault) => Err(RECIPE_PLACE + fault.at),
    }
}

// What a request asks, with the recipe of a Commit read.
fn asked_of(shape: Shape, view: RequestView<'_>) -> Result<StoreRequest<'_>, u32>
    requires { recipe_place + length (recipe_in (seen view)) < 2 ^ 32 }
    ensures reads { MatchResult result
        (λ asked. whole_read shape (Ok (seen view.entry)) ≡ Ok (request_of asked))
        (λ at. whole_read shape (Ok (seen view.entry)) ≡ Err at) }
    ensures recipe { IfOk result (IsOfShape shape) }
{
    match view {
        RequestView::Hello => Ok(StoreRequest::Hello),
        RequestView::Query { user, fps } => Ok(StoreRequest::Query { user, fps }),
        RequestView::Put { user, shares } => Ok(StoreRequest::Put { user, shares }),
        RequestView::Commit {
            user,
            tag,
            version,
            recipe,
        } => commit_of(shape, user, tag, version, recipe),
        RequestView::GetRecipe { user, tag, version } => Ok(StoreRequest::GetRecipe {
            user,
            tag,
            version,
        }),
        RequestView::GetShares { user, fps } => Ok(StoreRequest::GetShares { user, fps }),
        RequestView::List { user, after } => Ok(StoreRequest::List { user, after }),
        RequestView::Delete { user, tag, version } => Ok(StoreRequest::Delete {
            user,
            tag,
            version,
        }),
    }
}

impl<'a> StoreRequest<'a> {
    /// What the content asks of a store of this shape, all of it, or the first place at which it asks nothing, counted from 0.
    /// Fields are read in order: an unknown kind gives 0; a field that lacks bytes gives the length of the content, one out of
    /// its range its first place; bytes behind the last field give the place of the first of them. A Commit's recipe is read
    /// too: it stands behind 45 bytes, so its place p is the content's place 45 + p.
    ///
    /// What is asked has each field in its range, and a Commit's recipe is one of this shape. It takes no memory.
    pub fn read(shape: Shape, content: &'a [u8]) -> Result<StoreRequest<'a>, u32>
        requires { length content.now < 2 ^ 32 }
        ensures reads { MatchResult result (λ asked. asked_at shape content.now ≡ Ok (request_of asked))
            (λ at. asked_at shape content.now ≡ Err at) }
        ensures range { IfOk result (λ asked. FitsRequest (request_of asked) × HasRecipe shape (request_of asked)) }
        ensures recipe { IfOk result (IsOfShape shape) }
    {
        match RequestView::check(content) {
            Ok(view) => asked_of(shape, view),
            Err(at) => Err(at),
        }
    }
}
