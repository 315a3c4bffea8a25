//! A recipe.

ghost use Rattle.std.specs.Prelude.{IsTrue, ◌↔◌};
ghost use Rattle.recipe.specs.Spelling.{Fits};

use crate::Items;
use crate::rules::{
    ITEM_LIMIT, are_items_of, is_count_of, is_file_len_of, is_name_len_of, total_is,
};
use grammar::{Bytes, Shape};

/// What one cloud knows of a file: its share of the name, and the secrets in order.
#[derive(Drop)]
pub struct Recipe {
    /// The length of the file's path, in bytes.
    pub name_len: u16,
    /// The cloud's share of the path.
    pub name_share: Bytes,
    /// The length of the file, in bytes.
    pub file_len: u64,
    /// The file's secrets, in order.
    pub items: Items,
}

/// Bytes that are no recipe.
#[derive(Clone, Copy)]
pub struct Malformed {
    /// The place of the first field that fails, counted from 0.
    pub at: u32,
}

/// Why bytes were not read.
#[derive(Clone, Copy)]
pub enum RecipeErr {
    /// The bytes are no recipe: the place of the first field that fails, counted from 0.
    Malformed { at: u32 },
    /// Memory ran out.
    NoMemory,
}

impl Recipe {
    /// Whether the recipe keeps the rules of a store of this shape: the path has 1 to 1,024 bytes, and its share is as long
    /// as that says; the file has at most 67,108,864 bytes; it has at most 32,768 items, and none exactly where the file is
    /// empty; each secret has 2,048 to 16,384 bytes, the last one 1 to 16,384; and together they are as long as the file.
    pub fn fits(&self, shape: Shape) -> bool
        ensures { IsTrue result ↔ Fits shape self.now }
    {
        let k = shape.k as usize;
        is_name_len_of(self.name_len)
            && self.name_share.len() == (self.name_len as usize + 31 + k) / k
            && is_file_len_of(self.file_len)
            && self.items.len() <= ITEM_LIMIT
            && is_count_of(self.file_len, self.items.len() as u32)
            && are_items_of(self.items.as_slice())
            && total_is(self.items.as_slice(), self.file_len)
    }
}
