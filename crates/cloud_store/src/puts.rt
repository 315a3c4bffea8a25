//! A Put.

ghost use Rattle.std.specs.Prelude.{◌+◌, ◌-◌, ◌^◌, min};
ghost use Rattle.std.specs.Prelude.{◌≡◌, ◌<◌, ◌≤◌, ℕ, List, [], ◌∷◌, ◌++◌, length, All, Some, None, IsTrue, OnOk, OnErr};
ghost use Rattle.checkpoints.specs.CdEdges.Disk.{Cloud, moment};
ghost use Rattle.checkpoints.specs.CloudDisk.Held.{flush_moments};
ghost use Rattle.checkpoints.specs.CloudDisk.Disk.{KeepsDiskOrGrows as GrowsBy, HasDiskGrown as DiskGrows};
ghost use Rattle.checkpoints.specs.CdEdges.Shelf.{IsCall, HasFailed, KeepsCounts};
ghost use Rattle.checkpoints.specs.UserDedup.Dedup.{FullRoom};
ghost use Rattle.checkpoints.specs.UserDedup.command.Command.{Command};
ghost use Rattle.checkpoints.specs.UserDedup.command.Command.TheVariants as commands;
ghost use Rattle.checkpoints.specs.UserDedup.Spending.{full_for};
ghost use Rattle.checkpoints.specs.CloudAreas.Standing.{Chain};
ghost use Rattle.checkpoints.specs.CloudDisk.Disk.{KeepsOrAdds, regions_end};
ghost use Rattle.checkpoints.specs.CloudMemory.News.{AreNewTo, seen};
ghost use Rattle.checkpoints.specs.CloudMemory.Rooms.{memory_of, full_news};
ghost use Rattle.checkpoints.specs.CommitJournal.journal.Stage.TheVariants.{AtEnd};
ghost use Rattle.checkpoints.specs.CommitJournal.Outcomes.{stage_after as journal_after};
ghost use Rattle.checkpoints.specs.RecordBody.Spelling.{body_bytes};
ghost use Rattle.checkpoints.specs.CloudAreas.Adding.{with_record};
ghost use Rattle.checkpoints.specs.CloudMemory.Steps.{parts_of, with_put};
ghost use Rattle.cloud_store.specs.Store.{IsOpen, IsSettled, Serves, FitsHalf};
ghost use Rattle.cloud_store.specs.Adding.{IsShareNew, HasFp, IsPut, put_record, ServesMore, MadeFirst, unstaged, NoneStaged};
ghost use Rattle.cloud_store.specs.Adding.{EndBehind, Unmoved, KeepsOrGrows, HasGrown};
ghost use Rattle.cloud_store.specs.Adding.{OnAdded, MatchFull, MatchFailed, NotLong, WhenLong, IsTooLong, stage_after};

use crate::room::have_room;
use crate::writing::{add_record, write_put};
use crate::{CloudStore, Unadded};
use checkpoints::{Failed, New, PutItem, Shelf, Unsettled, law_of_laying};
use recipe::{Fp, UserId};

// Adds the Put where there is room for it.
fn add_roomy<V: Shelf>(
    store: &mut CloudStore,
    shelf: &mut V,
    user: UserId,
    news: &[New],
) -> Result<(), Failed>
    requires settled { IsSettled store.old }
    requires open { IsOpen store.old }
    requires some { 1 ≤ length news.now }
    requires few { length news.now ≤ 256 }
    requires lens { All IsShareNew news.now }
    requires new { AreNewTo (memory_of store.old.memory) user news.now }
    requires room { full_news store.old.header.rooms user (memory_of store.old.memory) news.now ≡ None }
    requires end { store.old.memory.shares_end ≤ regions_end }
    requires fits { FitsHalf store.old (length (body_bytes (put_record store.old user news.now))) }
    ensures any_moment { (list : List Command) (c : Chain) (strings : List (List ℕ))
        → IsPut list c store.old user news.now strings (V.cloud_at shelf.old store.old.header.cloud.0)
        → KeepsOrAdds store.old.header list (commands.Put user strings)
        (V.cloud_at shelf.old store.old.header.cloud.0) (V.cloud_at shelf.new store.old.header.cloud.0) }
    ensures added { (list : List Command) (c : Chain) (strings : List (List ℕ))
        → IsPut list c store.old user news.now strings (V.cloud_at shelf.old store.old.header.cloud.0)
        → OnOk result (Serves (list ++ commands.Put user strings ∷ [])
        (with_record c (put_record store.old user news.now) []) store.new
        (V.cloud_at shelf.new store.old.header.cloud.0)) }
    ensures taken { memory_of store.new.memory
        ≡ with_put user (parts_of user (memory_of store.old.memory) news.now) (memory_of store.old.memory) }
    ensures chain { GrowsBy store.old.disk (body_bytes (put_record store.old user news.now))
        (V.cloud_at shelf.old store.old.header.cloud.0) (V.cloud_at shelf.new store.old.header.cloud.0) }
    ensures grown { DiskGrows store.old.disk store.new.disk
        (body_bytes (put_record store.old user news.now))
        (V.cloud_at shelf.old store.old.header.cloud.0) (V.cloud_at shelf.new store.old.header.cloud.0) result }
    ensures ends { OnOk result (EndBehind store.old store.new) }
    ensures moments { IsTrue (V.cloud_at shelf.old store.old.header.cloud.0).told
        → OnOk result (moment (V.cloud_at shelf.new store.old.header.cloud.0)
        ≡ moment (V.cloud_at shelf.old store.old.header.cloud.0) + flush_moments store.old.disk.shares
        + flush_moments store.old.disk.recipes + 4) }
    ensures number { OnOk result (store.new.commands ≡ min (store.old.commands + 1) (2 ^ 64 - 1)) }
    ensures none { NoneStaged store.new }
    ensures settled { IsSettled store.new }
    ensures header { store.new.header ≡ store.old.header }
    ensures stage { store.new.disk.journal.stage ≡ journal_after AtEnd result }
    ensures call { IsCall (V.cloud_at shelf.old) (V.cloud_at shelf.new) store.old.header.cloud.0
        (V.faults shelf.old) (V.faults shelf.new) }
    ensures failed { OnErr result (HasFailed (V.cloud_at shelf.old store.old.header.cloud.0)
        (V.cloud_at shelf.new store.old.header.cloud.0) (V.faults shelf.old) (V.faults shelf.new)) }
    ensures uncounted { OnOk result (KeepsCounts (V.cloud_at shelf.old store.old.header.cloud.0)
        (V.cloud_at shelf.new store.old.header.cloud.0) (V.faults shelf.old) (V.faults shelf.new)) }
{
    law_of_laying();
    let rooms = store.header.rooms;
    let mut items = [PutItem {
        fp: Fp([0; 32]),
        place: None,
    }; 256];
    let (items, _) = items.split_at_mut(news.len());
    match store.memory.add_put(&rooms, user, news, items) {
        Ok(()) => {}
        Err(_) => unreachable!(),
    }
    write_put(&mut store.body, user, items);
    add_record(store, shelf)
}

impl CloudStore {
    /// Adds a Put of these shares, which are new to the user and no two alike, as the list's next command, where the user's
    /// rooms are wide enough. The shares that get a place, those whose fingerprint has none yet, are to be staged before,
    /// in their order.
    ///
    /// Where the Put's record doesn't fit the journal, and only there, a checkpoint is made first, before any other area is
    /// written. Then what is staged is written and synced, and then the record. Whenever a crash comes, and after `Failed`
    /// too, the cloud stands for the list, or for the list with the Put; after Ok the store serves the list with the Put.
    /// `Full` names the first room that the Put would pass, of owners and shares; nothing changes then but that nothing is
    /// staged, and no device call is made. `Failed` comes only where the cloud's count of faults rose, and then the journal
    /// is shut. Nothing is staged afterwards. It takes no memory.
    pub fn add_put<V: Shelf>(
        &mut self,
        shelf: &mut V,
        user: UserId,
        news: &[New],
    ) -> Result<(), Unadded>
        requires settled { IsSettled self.old }
        requires open { IsOpen self.old }
        requires some { 1 ≤ length news.now }
        requires few { length news.now ≤ 256 }
        requires lens { All IsShareNew news.now }
        requires new { AreNewTo (memory_of self.old.memory) user news.now }

        // by each list that the store serves
        ensures any_moment { (list : List Command) (c : Chain) (strings : List (List ℕ))
            → IsPut list c self.old user news.now strings (V.cloud_at shelf.old self.old.header.cloud.0)
            → KeepsOrAdds self.old.header list (commands.Put user strings)
            (V.cloud_at shelf.old self.old.header.cloud.0) (V.cloud_at shelf.new self.old.header.cloud.0) }
        ensures added { (list : List Command) (c : Chain) (strings : List (List ℕ))
            → IsPut list c self.old user news.now strings (V.cloud_at shelf.old self.old.header.cloud.0)
            → OnAdded result (ServesMore list c self.old (commands.Put user strings)
            (put_record self.old user news.now) []
            self.new (V.cloud_at shelf.new self.old.header.cloud.0)) }
        ensures checkpoint_first { (list : List Command) (c : Chain) (strings : List (List ℕ))
            → IsPut list c self.old user news.now strings
            (V.cloud_at shelf.old self.old.header.cloud.0)
            → ¬ (FitsHalf self.old (length (body_bytes (put_record self.old user news.now))))
            → OnAdded result (MadeFirst list c self.old (commands.Put user strings)
            (V.cloud_at shelf.old self.old.header.cloud.0) (V.cloud_at shelf.new self.old.header.cloud.0)) }
        ensures full_list { (list : List Command) (c : Chain) (strings : List (List ℕ))
            → IsPut list c self.old user news.now strings (V.cloud_at shelf.old self.old.header.cloud.0)
            → MatchFull result
            (full_for self.old.header.shape self.old.header.rooms list (commands.Put user strings) ≡ None)
            (λ full. full_for self.old.header.shape self.old.header.rooms list (commands.Put user strings)
            ≡ Some (seen full)) }

        // whatever is known of the cloud
        ensures never_long { All HasFp news.now → NotLong result }
        ensures full { MatchFull result
            (full_news self.old.header.rooms user (memory_of self.old.memory) news.now ≡ None)
            (λ full. full_news self.old.header.rooms user (memory_of self.old.memory) news.now ≡ Some (seen full)) }
        ensures unadded { MatchFull result (Unit {0})
            (λ full. (self.new ≡ unstaged self.old) × (shelf.new ≡ shelf.old)) }
        ensures serves_still { MatchFull result (Unit {0}) (λ full. (list : List Command) (c : Chain) (cloud : Cloud)
            → Serves list c self.old cloud → Serves list c self.new cloud) }
        ensures taken { OnAdded result (memory_of self.new.memory
            ≡ with_put user (parts_of user (memory_of self.old.memory) news.now) (memory_of self.old.memory)) }
        ensures chain { KeepsOrGrows self.old (body_bytes (put_record self.old user news.now))
            (V.cloud_at shelf.old self.old.header.cloud.0) (V.cloud_at shelf.new self.old.header.cloud.0) }
        ensures grown { OnAdded result (HasGrown self.old self.new
            (body_bytes (put_record self.old user news.now))
            (V.cloud_at shelf.old self.old.header.cloud.0) (V.cloud_at shelf.new self.old.header.cloud.0)) }
        ensures ends { OnAdded result (EndBehind self.old self.new) }
        ensures moments { IsTrue (V.cloud_at shelf.old self.old.header.cloud.0).told
            → FitsHalf self.old (length (body_bytes (put_record self.old user news.now)))
            → OnAdded result (moment (V.cloud_at shelf.new self.old.header.cloud.0)
            ≡ moment (V.cloud_at shelf.old self.old.header.cloud.0) + flush_moments self.old.disk.shares
            + flush_moments self.old.disk.recipes + 4) }
        ensures number { OnAdded result (self.new.commands ≡ min (self.old.commands + 1) (2 ^ 64 - 1)) }
        ensures long { WhenLong result (IsTooLong self.old (length (body_bytes (put_record self.old user news.now)))) }
        ensures unmoved { WhenLong result (Unmoved self.old self.new) }
        ensures none { NoneStaged self.new }
        ensures settled { IsSettled self.new }
        ensures header { self.new.header ≡ self.old.header }
        ensures stage { self.new.disk.journal.stage ≡ stage_after result }
        ensures call { IsCall (V.cloud_at shelf.old) (V.cloud_at shelf.new) self.old.header.cloud.0
            (V.faults shelf.old) (V.faults shelf.new) }
        ensures counts { MatchFailed result
            (KeepsCounts (V.cloud_at shelf.old self.old.header.cloud.0)
            (V.cloud_at shelf.new self.old.header.cloud.0) (V.faults shelf.old) (V.faults shelf.new))
            (HasFailed (V.cloud_at shelf.old self.old.header.cloud.0)
            (V.cloud_at shelf.new self.old.header.cloud.0) (V.faults shelf.old) (V.faults shelf.new)) }
    {
        let rooms = self.header.rooms;
        match self.memory.full_for_put(&rooms, user, news) {
            Some(full) => {
                self.disk.unstage();
                return Err(Unadded::Full(full));
            }
            None => {}
        }
        let len = self.memory.put_len(news);
        match have_room(self, shelf, len) {
            Ok(()) => {}
            Err(Unsettled::Long) => return Err(Unadded::Long),
            Err(Unsettled::Failed) => return Err(Unadded::Failed),
        }
        match add_roomy(self, shelf, user, news) {
            Ok(()) => Ok(()),
            Err(Failed) => Err(Unadded::Failed),
        }
    }
}
