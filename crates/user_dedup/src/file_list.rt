//! A user's files at one cloud.

ghost use Rattle.std.specs.Prelude.{◌≡◌, List, [], ◌∷◌, ◌++◌, length, slice_get, OnOk, OnErr, IsTrue, ◌↔◌};
ghost use Rattle.std.specs.Option.{option_copied};

use journal_start::{Bytes, NoMemory, Tag, Version};
use std::alloc::Global;
use std::marker::Model;

/// One version of a file, and its recipe at the cloud.
#[derive(Drop)]
pub struct FileEntry {
    pub tag: Tag,
    pub version: Version,
    pub recipe: Bytes,
}

/// The versions of a user's files, in the order in which they were entered. The list keeps its allocator.
#[derive(Drop)]
pub struct FileList {
    entries: Vec<FileEntry>,
}

impl Model for FileList {
    ghost use Rattle.std.specs.Prelude.{List};
    ghost use Rattle.user_dedup.specs.declared.file_list.FileEntry.{FileEntry};

    ghost Value = { List FileEntry };

    ghost view = { λ f. f.entries.items };
}

impl FileList {
    /// No files. It takes no memory.
    pub fn new(alloc: Global) -> FileList
        ensures { result ≡ [] }
    {
        FileList {
            entries: Vec::new(alloc),
        }
    }

    /// Appends an entry. For want of memory nothing changes.
    pub fn push(&mut self, entry: FileEntry) -> Result<(), NoMemory>
        ensures ok { OnOk result (self.new ≡ self.old ++ entry ∷ []) }
        ensures err { OnErr result (self.new ≡ self.old) }
    {
        self.entries.push(entry)?;
        Ok(())
    }

    /// How many entries there are.
    pub fn len(&self) -> usize
        ensures { result ≡ length self.now }
    {
        self.entries.len()
    }

    /// Whether there is no entry.
    pub fn is_empty(&self) -> bool
        ensures { IsTrue result ↔ (self.now ≡ []) }
    {
        self.entries.is_empty()
    }

    /// The entry at a place, counted from 0, or None past the end.
    pub fn get(&self, place: usize) -> Option<&FileEntry>
        ensures { option_copied result ≡ slice_get self.now place }
    {
        self.entries.get(place)
    }

    /// The entries.
    pub fn as_slice(&self) -> &[FileEntry]
        ensures { result.now ≡ self.now }
    {
        self.entries.as_slice()
    }
}
