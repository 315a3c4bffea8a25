//! A file that is held to be dispersed.

ghost use Rattle.std.specs.Prelude.{◌≡◌, ◌≤◌, ◌++◌, [], length, take, drop, OnOk, OnErr, IfOk};

use rabin_chunker::NoMemory;
use std::alloc::Global;
use std::marker::Model;

/// A file's bytes, which can be let go while they are dispersed.
#[derive(Drop)]
pub struct FileBytes {
    items: Vec<u8>,
}

impl Model for FileBytes {
    ghost use Rattle.std.specs.Prelude.{ℕ, List};

    ghost Value = { List ℕ };

    ghost view = { λ f. f.items.items };
}

impl FileBytes {
    /// No bytes. It takes no memory.
    pub fn new(alloc: Global) -> FileBytes
        ensures { result ≡ [] }
    {
        FileBytes {
            items: Vec::new(alloc),
        }
    }

    /// Appends bytes. For want of memory nothing changes.
    pub fn extend(&mut self, values: &[u8]) -> Result<(), NoMemory>
        ensures ok { OnOk result (self.new ≡ self.old ++ values.now) }
        ensures err { OnErr result (self.new ≡ self.old) }
    {
        self.items.extend_from_slice(values)?;
        Ok(())
    }

    /// How many bytes there are.
    pub fn len(&self) -> usize
        ensures { result ≡ length self.now }
    {
        self.items.len()
    }

    /// The bytes.
    pub fn as_slice(&self) -> &[u8]
        ensures { result.now ≡ self.now }
    {
        self.items.as_slice()
    }

    // The bytes in front of a place, and those from there on. These are copied, and their own memory is given back first.
    pub(crate) fn split(
        self,
        alloc: Global,
        place: usize,
    ) -> Result<(FileBytes, FileBytes), NoMemory>
        requires { place ≤ length self }
        ensures front { IfOk result (λ x. x.0 ≡ take place self) }
        ensures back { IfOk result (λ x. x.1 ≡ drop place self) }
    {
        let FileBytes { mut items } = self;
        let back = Vec::from_slice(alloc, &items[place..])?;
        items.truncate(place);
        items.shrink_to_fit();
        Ok((FileBytes { items }, FileBytes { items: back }))
    }
}
