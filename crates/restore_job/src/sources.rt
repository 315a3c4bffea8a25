//! What a file's secrets are restored from.

use user_dedup::{CloudNo, Item, Recipe, Shape, UserId};

/// A batch of a file's secrets: the `count` from number `place` on. Which they are is the same at every cloud.
#[derive(Clone, Copy)]
pub struct SecretBatch<'a> {
    /// The shape of the store.
    pub shape: Shape,
    /// Whose file it is.
    pub user: UserId,
    /// The items of the file at its first cloud, which have the lengths of its secrets.
    pub firsts: &'a [Item],
    /// The number of the batch's first secret.
    pub place: usize,
    /// How many secrets the batch has.
    pub count: usize,
}

/// The clouds that a file is restored from.
#[derive(Clone, Copy)]
pub struct Sources<'a> {
    /// The clouds, in the order in which they are asked.
    pub clouds: &'a [CloudNo],
    /// Their numbers, as the code takes them.
    pub points: &'a [u8],
    /// The recipe that each of them has of the file.
    pub recipes: &'a [Recipe],
}
