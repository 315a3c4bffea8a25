//! Bytes that are there, compared with what was stored.

ghost use Rattle.std.specs.Prelude.{◌≡◌, ◌↔◌, ◌<◌, ◌^◌, List, ℕ, false, length, IsTrue};
ghost use Rattle.audit_base.specs.CdBase.ids.UserId.{UserId as User};
ghost use Rattle.audit_base.specs.UserDedup.Cloud.{fingerprint};
ghost use Rattle.audit_base.specs.Whole.{Tables, tables_of};
ghost use Rattle.blob_audit.specs.Holding.{window_len};
ghost use Rattle.blob_audit.specs.Steps.{has_fault, lacks_memory, AreFoundBytes, IsWholeBlob, IsFine, IsOwnRecipe};
ghost use Rattle.blob_audit.specs.Steps.{BlobJudgedAs};

use crate::ReadErr;
use crate::pieces::Found;
use audit_base::{CloudMemory, Entry, Fp, RecipeView, Shape, UserId, sha256};

// Whether there are so many bytes, which hash to this.
fn is_whole(named: &Fp, len: u32, found: &Found) -> bool
    ensures { IsTrue result ↔ ((found.now.len ≡ len) × (found.now.fp ≡ named.now)) }
{
    found.len == len as usize && found.fp == *named
}

/// Compares what lies at a blob's place with its fingerprint and length.
pub(crate) fn judge(named: Fp, len: u32, found: &Found) -> Result<(), ReadErr>
    ensures judged { (bytes : List ℕ) → AreFoundBytes bytes found.now
        → BlobJudgedAs (IsWholeBlob bytes len named) named (fingerprint bytes) result }
    ensures calm { has_fault result ≡ false }
    ensures memory { lacks_memory result ≡ false }
{
    if is_whole(&named, len, found) {
        Ok(())
    } else {
        Err(ReadErr::Rotten {
            named,
            found: found.fp,
        })
    }
}

/// Compares the bytes at a blob's place with its fingerprint and length.
pub(crate) fn judge_bytes(named: Fp, len: u32, bytes: &[u8]) -> Result<(), ReadErr>
    ensures judged { BlobJudgedAs (IsWholeBlob bytes.now len named) named (fingerprint bytes.now) result }
    ensures memory { lacks_memory result ≡ false }
{
    let found = Found {
        len: bytes.len(),
        fp: sha256(bytes),
    };
    judge(named, len, &found)
}

// Whether the bytes are a recipe of the shape that names only what the user owns.
fn is_own_recipe(memory: &CloudMemory, shape: Shape, user: UserId, bytes: &[u8]) -> bool
    requires { length bytes.now < 2 ^ 32 }
    ensures { IsTrue result ↔ IsOwnRecipe shape (tables_of memory.now) user bytes.now }
{
    match RecipeView::check(shape, bytes) {
        Ok(view) => memory.owns_all(user, &view),
        Err(_) => false,
    }
}

/// Compares the bytes at an entry's place with it, and looks at the recipe where a shape is given.
pub(crate) fn judge_entry(
    memory: &CloudMemory,
    shape: Option<Shape>,
    user: UserId,
    entry: Entry,
    bytes: &[u8],
) -> Result<(), ReadErr>
    requires { length bytes.now < 2 ^ 32 }
    ensures judged { BlobJudgedAs (IsFine shape (tables_of memory.now) user entry bytes.now) entry.fp
        (fingerprint bytes.now) result }
    ensures memory { lacks_memory result ≡ false }
{
    match judge_bytes(entry.fp, entry.len, bytes) {
        Ok(()) => match shape {
            Some(shape) => {
                if is_own_recipe(memory, shape, user, bytes) {
                    Ok(())
                } else {
                    Err(ReadErr::Rotten {
                        named: entry.fp,
                        found: entry.fp,
                    })
                }
            }
            None => Ok(()),
        },
        Err(error) => Err(error),
    }
}

/// Compares what lies at the place of an entry that is too long for a recipe.
pub(crate) fn judge_long(shape: Option<Shape>, entry: Entry, found: &Found) -> Result<(), ReadErr>
    requires { window_len < entry.len }
    ensures judged { (t : Tables) (user : User) (bytes : List ℕ) → AreFoundBytes bytes found.now
        → BlobJudgedAs (IsFine shape t user entry bytes) entry.fp (fingerprint bytes) result }
    ensures calm { has_fault result ≡ false }
    ensures memory { lacks_memory result ≡ false }
{
    match judge(entry.fp, entry.len, found) {
        Ok(()) => match shape {
            Some(_) => Err(ReadErr::Rotten {
                named: entry.fp,
                found: entry.fp,
            }),
            None => Ok(()),
        },
        Err(error) => Err(error),
    }
}
