//! Writing a recipe.

ghost use Rattle.std.specs.Prelude.{◌≡◌, ◌+◌, ◌*◌, ◌≤◌, ◌++◌, length, IfSome, OnOk, OnErr};
ghost use Rattle.std.specs.List.{flat_map};
ghost use Rattle.recipe.specs.Spelling.{item, item_limit, spelling};

use crate::{Item, Recipe};
use grammar::{Bytes, NoMemory};

// Writes an item.
fn write_item(i: &Item, out: &mut [u8])
    requires { length out.old ≡ 36 }
    ensures bytes { out.new ≡ item i.now }
    ensures len { length out.new ≡ 36 }
{
    let (fp, len) = out.split_at_mut(32);
    fp.copy_from_slice(&i.fp.0);
    len.copy_from_slice(&i.secret_len.to_be_bytes());
}

// Writes items.
fn write_items(items: &[Item], out: &mut [u8])
    requires { length out.old ≡ 36 * length items.now }
    ensures { out.new ≡ flat_map item items.now }
{
    for (place, i) in items.iter().enumerate() {
        write_item(i, &mut out[36 * place..36 * place + 36]);
    }
}

// Writes a recipe.
fn write_recipe(recipe: &Recipe, out: &mut [u8])
    requires few { length recipe.now.items ≤ item_limit }
    requires room { length out.old ≡ 14 + length recipe.now.name_share + 36 * length recipe.now.items }
    ensures { out.new ≡ spelling recipe.now }
{
    let (name_len, rest) = out.split_at_mut(2);
    let (name_share, rest) = rest.split_at_mut(recipe.name_share.len());
    let (file_len, rest) = rest.split_at_mut(8);
    let (count, items) = rest.split_at_mut(4);
    name_len.copy_from_slice(&recipe.name_len.to_be_bytes());
    name_share.copy_from_slice(recipe.name_share.as_slice());
    file_len.copy_from_slice(&recipe.file_len.to_be_bytes());
    count.copy_from_slice(&(recipe.items.len() as u32).to_be_bytes());
    write_items(recipe.items.as_slice(), items);
}

impl Recipe {
    /// How many bytes `write` appends, or None past the numbers of the machine.
    fn written_len(&self) -> Option<usize>
        requires { length self.now.items ≤ item_limit }
        ensures { IfSome result (λ len. len ≡ 14 + length self.now.name_share + 36 * length self.now.items) }
    {
        self.name_share
            .len()
            .checked_add(14 + 36 * self.items.len())
    }

    /// Appends the one spelling of the recipe. For want of memory nothing changes. A recipe that keeps the rules
    /// (`fits`) has no more items than this call asks for, and what is written is read as the same recipe
    /// (`laws::spelling_laws`).
    pub fn write(&self, out: &mut Bytes) -> Result<(), NoMemory>
        requires { length self.now.items ≤ item_limit }
        ensures ok { OnOk result (out.new ≡ out.old ++ spelling self.now) }
        ensures err { OnErr result (out.new ≡ out.old) }
    {
        let before = out.len();
        let Some(len) = self.written_len() else {
            return Err(NoMemory);
        };
        let Some(whole) = before.checked_add(len) else {
            return Err(NoMemory);
        };
        out.resize(whole, 0)?;
        write_recipe(self, &mut out.as_mut_slice()[before..]);
        Ok(())
    }
}
