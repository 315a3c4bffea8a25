//! The laws of these replies, for the proofs of callers. The calls do nothing.

ghost use Rattle.std.specs.FinMap.{get};
ghost use Rattle.std.specs.List.{Contains};
ghost use Rattle.std.specs.Prelude.{◌≡◌, ℕ, List, Option, Some, None};
ghost use Rattle.cloud_memory.specs.CdBase.ids.Fp.{Fp};
ghost use Rattle.cloud_memory.specs.CdBase.ids.Tag.{Tag};
ghost use Rattle.cloud_memory.specs.CdBase.ids.UserId.{UserId};
ghost use Rattle.cloud_memory.specs.CdBase.ids.Version.{Version};
ghost use Rattle.cloud_memory.specs.CdBase.shape.Shape.{Shape};
ghost use Rattle.cd_edges.specs.Disk.{Cloud};
ghost use Rattle.cloud_memory.specs.FileIndex.key.Entry.{Entry};
ghost use Rattle.cloud_memory.specs.FileIndex.key.FileKey.{FileKey};
ghost use Rattle.cloud_memory.specs.FileIndex.Files.{key_of};
ghost use Rattle.messages.specs.declared.request.Request.TheVariants as requests;
ghost use Rattle.messages.specs.declared.reply.Reply.{Reply};
ghost use Rattle.messages.specs.declared.reply.Reply.TheVariants as replies;
ghost use Rattle.messages.specs.Replies.{IsReply};
ghost use Rattle.cloud_memory.specs.UserDedup.command.Command.{Command};
ghost use Rattle.cloud_memory.specs.UserDedup.Cloud.{user_view};
ghost use Rattle.cloud_memory.specs.UserDedup.Owning.{first_lacking, flags};
ghost use Rattle.cloud_memory.specs.UserDedup.Pages.{entry_at};
ghost use Rattle.cloud_memory.specs.UserDedup.Dedup.{IsSound};
ghost use Rattle.cloud_memory.specs.Memory.{Memory, Remembers, Stand};
ghost use Rattle.server_reads.specs.Allowed.{Replies, KnownReply, EntriesReply, SharesReply, RecipeReply, IsPlain};
ghost use Rattle.server_reads.specs.Found.{IsFoundShare, AreEntryBytes, HasNone, IsFoundRecipe, EntryStands};
ghost use Rattle.server_reads.specs.Owned.{first_unowned, owned_flags};

/// Each reply that may come is one that an open server that keeps to the rules gives to its request, and says neither
/// that a device failed, nor that the journal is damaged, nor that memory ran out.
pub fn law_of_kinds()
    ensures known { (user : UserId) (fps : List Fp) (reply : Reply) → KnownReply fps reply
        → IsPlain (requests.Query user fps) reply }
    ensures entries { (user : UserId) (last : Option (Tag × Version)) (reply : Reply) → EntriesReply last reply
        → IsPlain (requests.List user last) reply }
    ensures shares { (user : UserId) (fps : List Fp) (cloud : Cloud) (m : Memory) (reply : Reply)
        → SharesReply fps (IsFoundShare cloud m) reply → IsPlain (requests.GetShares user fps) reply }
    ensures recipe { (user : UserId) (tag : Tag) (version : Version) (cloud : Cloud) (m : Memory)
        (key : FileKey) (reply : Reply)
        → RecipeReply (AreEntryBytes m key) (HasNone m key) (IsFoundRecipe cloud m key) reply
        → IsPlain (requests.GetRecipe user tag version) reply }
{}

/// Where the content of one of these replies is Rotten, what the reply says of the two fingerprints is said of those that stand
/// there: of shares that the first was asked for, and what was found for it (`shares`); of a recipe what was found for the
/// entry (`recipe`).
pub fn law_of_rotten()
    ensures shares { (fps : List Fp) (cloud : Cloud) (m : Memory) (content : List ℕ) (named found : Fp)
        → Replies content (SharesReply fps (IsFoundShare cloud m)) → IsReply content (replies.Rotten named found)
        → Contains fps named × IsFoundShare cloud m named found }
    ensures recipe { (cloud : Cloud) (m : Memory) (key : FileKey) (content : List ℕ) (named found : Fp)
        → Replies content (RecipeReply (AreEntryBytes m key) (HasNone m key) (IsFoundRecipe cloud m key))
        → IsReply content (replies.Rotten named found) → IsFoundRecipe cloud m key named found }
{}

/// Of a sound list that a memory remembers and whose recipes stand where it says, the entry that the memory has of a key is that
/// of the user's view: its recipe lies at the memory's place, with the memory's length and fingerprint (`there`). Where the
/// memory has none, the view has none (`none`).
pub fn law_of_entries()
    ensures there { (shape : Shape) (cloud : ℕ) (list : List Command) (m : Memory) (shares recipes : List ℕ)
        (user : UserId) (tag : Tag) (version : Version) (entry : Entry)
        → IsSound shape cloud list → Remembers shape list m → Stand shape shares recipes list m
        → get m.files (key_of user.0 tag.0 version.0) ≡ Some entry
        → EntryStands recipes (user_view shape list user).files (tag, version) entry }
    ensures none { (shape : Shape) (list : List Command) (m : Memory) (user : UserId) (tag : Tag) (version : Version)
        → Remembers shape list m → HasNone m (key_of user.0 tag.0 version.0)
        → entry_at (user_view shape list user).files (tag, version) ≡ None }
{}

/// Of a list that a memory remembers, the first fingerprint that isn't the user's as the memory has it is the first that the
/// list lacks (`first`), and the flags are those of the list (`flags`).
pub fn law_of_owning()
    ensures first { (shape : Shape) (list : List Command) (m : Memory) (user : UserId) (fps : List Fp)
        → Remembers shape list m
        → first_unowned m user fps ≡ first_lacking (user_view shape list user).own fps }
    ensures flags { (shape : Shape) (list : List Command) (m : Memory) (user : UserId) (fps : List Fp)
        → Remembers shape list m → owned_flags m user fps ≡ flags (user_view shape list user).own fps }
{}
