//! The tables of a memory, for those who go through them slot by slot.

ghost use Rattle.std.specs.Prelude.{◌≡◌};

use crate::CloudMemory;
use file_index::FileIndex;
use share_index::ShareIndex;
use spent_table::SpentTable;

impl CloudMemory {
    /// Where each share lies, and how often each user's entries name what the user owns.
    pub fn shares(&self) -> &ShareIndex
        ensures { result.now ≡ self.now.shares }
    {
        &self.shares
    }

    /// The entry of each version of each user's files.
    pub fn files(&self) -> &FileIndex
        ensures { result.now ≡ self.now.files }
    {
        &self.files
    }

    /// What each user has spent.
    pub fn spent_table(&self) -> &SpentTable
        ensures { result.now ≡ self.now.spent }
    {
        &self.spent
    }
}
