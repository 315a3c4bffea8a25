//! What one cloud gets of a file.

ghost use Rattle.std.specs.Prelude.{◌≡◌, [], length, slice_get, OnOk, IsTrue, ◌↔◌};
ghost use Rattle.std.specs.Option.{option_copied};
ghost use Rattle.sha2.specs.Sha256.{sha256 as sha256_of};
ghost use Rattle.file_recipe.specs.Progress.{with_share};

use caont_rs::Fp;
use rabin_chunker::{Bytes, NoMemory};
use recipe::{Item, Recipe};
use std::marker::Model;

/// What one cloud gets of a file.
#[derive(Drop)]
pub struct CloudFile {
    /// The cloud's recipe of the file.
    pub recipe: Recipe,
    /// The cloud's shares of the file's secrets, one after another, in the order of the recipe's items. The share of an
    /// item has `share_len(shape, item.secret_len)` bytes.
    pub shares: Bytes,
}

impl CloudFile {
    // Appends the share of the next secret, and its item, by the hash of the share. For want of memory a part of it may
    // stand there.
    pub(crate) fn add(
        &mut self,
        secret_len: u32,
        share: &[u8],
        digest: [u8; 32],
    ) -> Result<(), NoMemory>
        requires digest { digest ≡ sha256_of share.now }
        ensures { OnOk result (self.new ≡ with_share self.old secret_len share.now) }
    {
        self.recipe.items.push(Item {
            fp: Fp(digest),
            secret_len,
        })?;
        self.shares.extend(share)
    }
}

/// What each cloud gets of a file, in the order of the clouds' numbers.
#[derive(Drop)]
pub struct CloudFiles {
    files: Vec<CloudFile>,
}

impl Model for CloudFiles {
    ghost use Rattle.std.specs.Prelude.{List};
    ghost use Rattle.file_recipe.specs.declared.cloud_file.CloudFile.{CloudFile};

    ghost Value = { List CloudFile };

    ghost view = { λ c. c.files.items };
}

impl CloudFiles {
    // The files of all clouds.
    pub(crate) fn of(files: Vec<CloudFile>) -> CloudFiles
        ensures { result ≡ files.items }
    {
        CloudFiles { files }
    }

    /// How many clouds there are.
    pub fn len(&self) -> usize
        ensures { result ≡ length self.now }
    {
        self.files.len()
    }

    /// Whether there is no cloud.
    pub fn is_empty(&self) -> bool
        ensures { IsTrue result ↔ (self.now ≡ []) }
    {
        self.files.is_empty()
    }

    /// What the cloud of that number gets, or None where there is no such cloud.
    pub fn get(&self, cloud: usize) -> Option<&CloudFile>
        ensures { option_copied result ≡ slice_get self.now cloud }
    {
        self.files.get(cloud)
    }

    /// What each cloud gets, as a list of its own.
    pub fn into_vec(self) -> Vec<CloudFile>
        ensures { result.items ≡ self }
    {
        self.files
    }

    /// What each cloud gets.
    pub fn as_slice(&self) -> &[CloudFile]
        ensures { result.now ≡ self.now }
    {
        self.files.as_slice()
    }
}
