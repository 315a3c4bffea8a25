//! The laws of a server's memory, for the proofs of callers. The calls do nothing.

ghost use Rattle.std.specs.Prelude.{◌≡◌, ◌<◌, ◌≤◌, ℕ, List, [], ◌∷◌, ◌++◌, length, All, Some, None};
ghost use Rattle.std.specs.FinMap.{get};
ghost use Rattle.spent_table.specs.CdBase.Limits.{recipe_limit};
ghost use Rattle.spent_table.specs.CdBase.ids.Tag.{Tag};
ghost use Rattle.spent_table.specs.CdBase.ids.UserId.{UserId};
ghost use Rattle.spent_table.specs.CdBase.ids.Version.{Version};
ghost use Rattle.spent_table.specs.CdBase.shape.Shape.{Shape};
ghost use Rattle.spent_table.specs.CdBase.ids.Fp.{Fp};
ghost use Rattle.cloud_areas.specs.ContainerLog.Places.{place_of};
ghost use Rattle.file_index.specs.declared.key.FileKey.{FileKey};
ghost use Rattle.file_index.specs.Files.{key_of};
ghost use Rattle.cloud_areas.specs.JournalStart.rooms.UserRooms.{UserRooms};
ghost use Rattle.cloud_areas.specs.JournalStart.Ranges.{most_files};
ghost use Rattle.cloud_areas.specs.MessageFields.Shares.{share_limit};
ghost use Rattle.cloud_areas.specs.RecordBody.body.CommitBody.{CommitBody};
ghost use Rattle.cloud_areas.specs.RecordBody.body.PutItem.{PutItem};
ghost use Rattle.cloud_areas.specs.RecordBody.body.DeleteBody.{DeleteBody};
ghost use Rattle.cloud_areas.specs.RecordBody.body.KeptItem.{KeptItem};
ghost use Rattle.cloud_areas.specs.RecordBody.Spelling as bodies;
ghost use Rattle.cloud_areas.specs.RecordBody.Spelling.{Body, FitsKept};
ghost use Rattle.spent_table.specs.declared.Spent.{Spent};
ghost use Rattle.cloud_areas.specs.UserDedup.file_list.FileEntry.{FileEntry};
ghost use Rattle.cloud_areas.specs.UserDedup.Pages.{entry_at};
ghost use Rattle.cloud_areas.specs.UserDedup.Requests.{fps_of};
ghost use Rattle.cloud_areas.specs.UserDedup.command.Command.{Command};
ghost use Rattle.cloud_areas.specs.UserDedup.command.Command.TheVariants as commands;
ghost use Rattle.cloud_areas.specs.UserDedup.Cloud.{user_view};
ghost use Rattle.cloud_areas.specs.UserDedup.Dedup.{IsSound};
ghost use Rattle.cloud_memory.specs.declared.rooms.New.{New};
ghost use Rattle.cloud_memory.specs.Memory.{Memory, Remembers, IsPlacedBy, HasEnds};
ghost use Rattle.cloud_memory.specs.News.{AreOf, AreNewTo};
ghost use Rattle.cloud_areas.specs.UserDedup.Spending.{files_of, full_for, IsWithin};
ghost use Rattle.cloud_areas.specs.Chains.{commit_of, IsRecord};
ghost use Rattle.cloud_areas.specs.Laid.{AreLaid};
ghost use Rattle.cloud_areas.specs.Placing.{places_given, places_of};
ghost use Rattle.cloud_memory.specs.Rooms.{full_news, full_commit};
ghost use Rattle.cloud_memory.specs.Sharing.{AreOwned};
ghost use Rattle.cloud_memory.specs.Fitting.{FitsPart, FitsRecords, AreItemsPlaced};
ghost use Rattle.cloud_memory.specs.Steps.{begun, with_put, parts_of, with_commit, without_entry};
ghost use Rattle.cloud_memory.specs.Steps.{with_items, with_kepts, with_entry, spends, with_spent};

/// A memory of a sound list, with what a Put leaves, is that of the list with the Put.
pub fn law_of_puts()
    ensures { (shape : Shape) (cloud : ℕ) (list : List Command) (user : UserId) (strings : List (List ℕ))
        (news : List New) (m : Memory)
        → IsSound shape cloud list → Remembers shape list m → AreOf news strings → AreNewTo m user news
        → user.0 < length m.spent
        → Remembers shape (list ++ commands.Put user strings ∷ []) (with_put user (parts_of user m news) m) }
{}

/// A memory of a list, with what a Commit leaves, is that of the list with the Commit. The user doesn't have the
/// version and owns what the recipe names, and has no more entries than users may have.
pub fn law_of_commits()
    ensures { (shape : Shape) (list : List Command) (user : UserId) (tag : Tag) (version : Version)
        (recipe : List ℕ) (at : ℕ) (m : Memory)
        → Remembers shape list m → get m.files (key_of user.0 tag.0 version.0) ≡ None
        → AreOwned m.owners user (fps_of shape recipe)
        → files_of shape list user ≤ most_files → user.0 < length m.spent
        → Remembers shape (list ++ commands.Commit user tag version recipe ∷ [])
        (with_commit (fps_of shape recipe) (commit_of user tag version recipe at) m) }
{}

/// A memory of a sound list, with what a Delete leaves, is that of the list with the Delete.
pub fn law_of_deletes()
    ensures { (shape : Shape) (cloud : ℕ) (list : List Command) (user : UserId) (tag : Tag) (version : Version)
        (entry : FileEntry) (m : Memory)
        → IsSound shape cloud list → Remembers shape list m
        → entry_at (user_view shape list user).files (tag, version) ≡ Some entry
        → Remembers shape (list ++ commands.Delete user tag version ∷ [])
        (without_entry (fps_of shape entry.recipe) user (key_of user.0 tag.0 version.0) m) }
{}

/// What a memory places is what the records place, with the record of a Put, a Commit or a Delete more.
pub fn law_of_placing()
    ensures begun { (users region : ℕ) → IsPlacedBy [] (begun users region) }
    ensures puts { (records : List Body) (user : UserId) (news : List New) (m : Memory) → IsPlacedBy records m
        → IsPlacedBy (records ++ bodies.Put user (parts_of user m news) ∷ []) (with_put user (parts_of user m news) m) }
    ensures commits { (records : List Body) (names : List Fp) (commit : CommitBody) (m : Memory) → IsPlacedBy records m
        → IsPlacedBy (records ++ bodies.Commit commit ∷ []) (with_commit names commit m) }
    ensures deletes { (records : List Body) (names : List Fp) (delete : DeleteBody) (m : Memory) → IsPlacedBy records m
        → IsPlacedBy (records ++ bodies.Delete delete ∷ [])
        (without_entry names delete.user (key_of delete.user.0 delete.tag.0 delete.version.0) m) }
{}

/// The logs end behind all that the records place and within what was spent, with one command and its record more.
pub fn law_of_ends()
    ensures begun { (users region : ℕ) → HasEnds region [] [] (begun users region) }
    ensures puts { (shape : Shape) (cloud : ℕ) (list : List Command) (user : UserId) (strings : List (List ℕ))
        (news : List New)
        (m : Memory) (region : ℕ) (records : List Body)
        → IsSound shape cloud list → Remembers shape list m → AreOf news strings → AreNewTo m user news
        → HasEnds region list records m
        → HasEnds region (list ++ commands.Put user strings ∷ [])
        (records ++ bodies.Put user (parts_of user m news) ∷ [])
        (with_put user (parts_of user m news) m) }
    ensures commits { (list : List Command) (user : UserId) (tag : Tag) (version : Version)
        (recipe : List ℕ) (names : List Fp)
        (m : Memory) (region : ℕ) (records : List Body) → HasEnds region list records m
        → HasEnds region (list ++ commands.Commit user tag version recipe ∷ [])
        (records ++ bodies.Commit (commit_of user tag version recipe (place_of m.recipes_end (length recipe))) ∷ [])
        (with_commit names (commit_of user tag version recipe (place_of m.recipes_end (length recipe))) m) }
    ensures deletes { (list : List Command) (user : UserId) (tag : Tag) (version : Version)
        (names : List Fp) (m : Memory)
        (region : ℕ) (records : List Body) → HasEnds region list records m
        → HasEnds region (list ++ commands.Delete user tag version ∷ [])
        (records ++ bodies.Delete (record { user = user; tag = tag; version = version }) ∷ [])
        (without_entry names user (key_of user.0 tag.0 version.0) m) }
{}

/// The room that is full by a memory is the one that is full by its list, which is sound and within its rooms: the
/// indexes' own numbers are never the first that is passed there.
pub fn law_of_full_rooms()
    ensures puts { (shape : Shape) (cloud : ℕ) (rooms : UserRooms) (list : List Command) (user : UserId) (m : Memory)
        (strings : List (List ℕ)) (news : List New)
        → IsSound shape cloud list → Remembers shape list m → IsWithin shape rooms list
        → AreOf news strings → AreNewTo m user news
        → full_news rooms user m news ≡ full_for shape rooms list (commands.Put user strings) }
    ensures commits { (shape : Shape) (cloud : ℕ) (rooms : UserRooms) (list : List Command) (user : UserId) (m : Memory)
        (tag : Tag) (version : Version) (recipe : List ℕ)
        → IsSound shape cloud list → Remembers shape list m → IsWithin shape rooms list
        → full_commit rooms user m (length recipe)
        ≡ full_for shape rooms list (commands.Commit user tag version recipe) }
{}

/// What a Put and a Commit of a list that the memory remembers write behind its ends is the record of the command.
pub fn law_of_records()
    ensures puts { (shape : Shape) (list : List Command) (user : UserId) (strings : List (List ℕ)) (news : List New)
        (m : Memory) (region : ℕ) (records : List Body)
        → Remembers shape list m → AreOf news strings → HasEnds region list records m
        → IsRecord region records list (commands.Put user strings) (bodies.Put user (parts_of user m news)) [] }
    ensures laid { (user : UserId) (news : List New) (m : Memory)
        → AreLaid m.shares_end (places_of (places_given (parts_of user m news))) }
    ensures commits { (list : List Command) (user : UserId) (tag : Tag) (version : Version) (recipe : List ℕ)
        (m : Memory) (region : ℕ) (records : List Body) → HasEnds region list records m
        → IsRecord region records list (commands.Commit user tag version recipe)
        (bodies.Commit (commit_of user tag version recipe (place_of m.recipes_end (length recipe))))
        (record { place = place_of m.recipes_end (length recipe); blob = recipe } ∷ []) }
{}

/// A memory that fits records fits them after a command more: a Put whose shares have from 1 to 8,208 bytes, by its shares or
/// by its record's items, of which each has a place by then; a Commit of a recipe that has from 1 to 1,180,190 bytes and
/// names what its user owns; and any Delete. So it does after a record more.
pub fn law_of_fitting()
    ensures begun { (users region : ℕ) → FitsRecords (begun users region) }
    ensures puts { (user : UserId) (news : List New) (m : Memory)
        → All (λ (n : New). (1 ≤ n.len) × (n.len ≤ share_limit)) news
        → FitsRecords m → FitsRecords (with_put user (parts_of user m news) m) }
    ensures items { (user : UserId) (items : List PutItem) (m : Memory) → All FitsPart items
        → AreItemsPlaced m.places items → FitsRecords m → FitsRecords (with_put user items m) }
    ensures commits { (names : List Fp) (c : CommitBody) (m : Memory) → 1 ≤ c.len → c.len ≤ recipe_limit
        → AreOwned m.owners c.user names → FitsRecords m → FitsRecords (with_commit names c m) }
    ensures deletes { (names : List Fp) (user : UserId) (key : FileKey) (m : Memory)
        → FitsRecords m → FitsRecords (without_entry names user key m) }
    // what a record leaves
    ensures parts { (user : UserId) (items : List PutItem) (m : Memory) → All FitsPart items
        → AreItemsPlaced m.places items → FitsRecords m → FitsRecords (with_items user m items) }
    ensures kepts { (items : List KeptItem) (m : Memory) → All FitsKept items
        → FitsRecords m → FitsRecords (with_kepts m items) }
    ensures entries { (names : List Fp) (c : CommitBody) (m : Memory) → 1 ≤ c.len → c.len ≤ recipe_limit
        → AreOwned m.owners c.user names → FitsRecords m → FitsRecords (with_entry names c m) }
    ensures spends { (user : UserId) (more : Spent) (m : Memory) → FitsRecords m → FitsRecords (spends user more m) }
    ensures spent { (user : UserId) (spent : Spent) (m : Memory) → FitsRecords m
        → FitsRecords (with_spent user spent m) }
{}
