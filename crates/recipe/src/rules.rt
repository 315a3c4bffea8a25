//! The rules of recipes, each as a test.

ghost use Rattle.std.specs.Prelude.{◌≡◌, ◌==◌, length, IsTrue, ◌↔◌};
ghost use Rattle.recipe.specs.Spelling.{is_name_len, is_file_len, is_count, is_len, AreRecipeItems, total};

use crate::Item;
use grammar::{FILE_LIMIT, PATH_LIMIT, SECRET_LIMIT};

/// The most secrets of a file.
pub const ITEM_LIMIT: usize = 32_768;

/// A path has 1 to 1,024 bytes.
pub fn is_name_len_of(n: u16) -> bool
    ensures { result ≡ is_name_len n }
{
    1 <= n && n as usize <= PATH_LIMIT
}

/// A file has at most 67,108,864 bytes.
pub fn is_file_len_of(n: u64) -> bool
    ensures { result ≡ is_file_len n }
{
    n <= FILE_LIMIT as u64
}

/// A file has at most 32,768 secrets, and none exactly where it is empty.
pub fn is_count_of(file: u64, n: u32) -> bool
    ensures { result ≡ is_count file n }
{
    n as usize <= ITEM_LIMIT && (if file == 0 { n == 0 } else { 1 <= n })
}

/// A secret has 2,048 to 16,384 bytes, the last one 1 to 16,384.
pub fn is_len_of(last: bool, n: u32) -> bool
    ensures { result ≡ is_len last n }
{
    let least = if last { 1 } else { 2048 };
    least <= n && n <= SECRET_LIMIT
}

// An item's length, in a place that may be the last. A fingerprint always has 32 bytes.
fn is_item_of(last: bool, item: Item) -> bool
    ensures len { result ≡ is_len last item.secret_len }
    ensures fp { length item.fp.0 ≡ 32 }
{
    is_len_of(last, item.secret_len)
}

/// Each secret has such a length.
pub fn are_items_of(items: &[Item]) -> bool
    ensures { IsTrue result ↔ AreRecipeItems items.now }
{
    let count = items.len();
    for (place, item) in items.iter().enumerate() {
        if !is_item_of(count - place == 1, *item) {
            return false;
        }
    }
    true
}

/// The lengths of the secrets add up to this.
pub fn total_is(items: &[Item], file: u64) -> bool
    ensures { result ≡ (total items.now == file) }
{
    let mut left = file;
    for item in items {
        if left < item.secret_len as u64 {
            return false;
        }
        left -= item.secret_len as u64;
    }
    left == 0
}
