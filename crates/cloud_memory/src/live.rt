//! What is alive, slot by slot.

ghost use Rattle.std.specs.Prelude.{◌≡◌, option_map};
ghost use Rattle.file_index.specs.PoolMap.Slots.{slot_of, IsListed};
ghost use Rattle.file_index.specs.Files.{entry_with};
ghost use Rattle.share_index.specs.Shares.{place_with};
ghost use Rattle.cloud_memory.specs.Live.{live_at, IsEachLive};

use crate::CloudMemory;
use file_index::Entry;
use spent_table::{Fp, Place, Tag, UserId, Version};

impl CloudMemory {
    /// The share in a slot of the tables that some user owns, and its place. None exactly for a slot without one; the
    /// slots are numbered from 0, and each share that some user owns and that has a place stands in just one of them.
    #[tactic(auto, using(crate::proofs::LiveSlots::each_live))]
    pub fn live_share(&self, slot: u32) -> Option<(Fp, Place)>
        ensures value { option_map place_with result ≡ live_at self.now.shares slot }
        ensures each { IsEachLive self.now.shares }
    {
        match self.shares.place_at(slot) {
            Some((fp, place)) => {
                if self.shares.is_owned(&fp) {
                    Some((fp, place))
                } else {
                    None
                }
            }
            None => None,
        }
    }

    /// The entry in a slot of the tables, whose it is, and of which version. None exactly for a slot without one; the slots
    /// are numbered from 0, and each entry stands in just one of them.
    pub fn live_file(&self, slot: u32) -> Option<(UserId, Tag, Version, Entry)>
        ensures value { option_map entry_with result ≡ slot_of self.now.files.slots slot }
        ensures each { IsListed self.now.files.files self.now.files.slots }
    {
        self.files.entry_at(slot)
    }
}
