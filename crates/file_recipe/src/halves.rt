//! Dispersing a file whose bytes are let go on the way.

ghost use Rattle.std.specs.Prelude.{◌≡◌, ◌≤◌, ◌∷◌, length, slice_index_or, OnOk, IfOk};
ghost use Rattle.rabin_chunker.specs.CdBase.Limits.{IsPath};
ghost use Rattle.rabin_chunker.specs.Cuts.{ends as ends_of_file};
ghost use Rattle.recipe.specs.Spelling.{file_limit};
ghost use Rattle.file_recipe.specs.FileRecipe.{secrets};
ghost use Rattle.file_recipe.specs.Clouds.{dispersed};
ghost use Rattle.file_recipe.specs.Progress.{EachWithSecrets};

use crate::disperse::{add_secrets, ends_of, unshared_files};
use crate::{CloudFile, CloudFiles, FileBytes};
use rabin_chunker::{NoMemory, Shape};
use std::alloc::Global;

// How many secrets of a file end in its first half.
fn in_first_half(file_len: usize, ends: &[u64]) -> usize
    ensures { result ≤ length ends.now }
{
    let half = file_len as u64 / 2;
    let count = ends.iter().filter(|end| **end <= half).count();
    count.min(ends.len())
}

// Where the first `count` secrets end.
fn end_of(ends: &[u64], count: usize) -> usize
    requires { count ≤ length ends.now }
    ensures { result ≡ slice_index_or (0 ∷ ends.now) count 0 }
{
    if count == 0 {
        0
    } else {
        ends[count - 1] as usize
    }
}

// Disperses each secret of a file, and gives all clouds their shares. The first half of the file is let go before the second
// is dispersed.
fn add_halves(
    alloc: Global,
    shape: Shape,
    file: FileBytes,
    ends: &[u64],
    files: &mut [CloudFile],
) -> Result<(), NoMemory>
    requires ends { ends.now ≡ ends_of_file file }
    requires clouds { length files.old ≤ shape.n }
    ensures { OnOk result (EachWithSecrets shape 0 (secrets file) files.old files.new) }
{
    let count = in_first_half(file.len(), ends);
    let middle = end_of(ends, count);
    let (early, late) = ends.split_at(count);
    let (front, back) = file.split(alloc, middle)?;
    add_secrets(alloc, shape, front.as_slice(), 0, early, 0, files)?;
    drop(front);
    add_secrets(alloc, shape, back.as_slice(), middle, late, 0, files)
}

/// The same as `disperse_file`, of a file that is let go on the way: its second half is copied, and before that is dispersed the
/// first half is dropped. So file and shares together take some half of the file less.
pub fn disperse_bytes(
    alloc: Global,
    shape: Shape,
    path: &[u8],
    file: FileBytes,
) -> Result<CloudFiles, NoMemory>
    requires path { IsPath path.now }
    requires few { length file ≤ file_limit }
    ensures { IfOk result (λ files. files ≡ dispersed shape path.now file) }
{
    let ends = ends_of(alloc, file.as_slice())?;
    let clouds = shape.n as usize;
    let mut files = unshared_files(alloc, shape, path, file.as_slice(), 0, clouds, ends.len())?;
    add_halves(alloc, shape, file, ends.as_slice(), files.as_mut_slice())?;
    Ok(CloudFiles::of(files))
}
