//! The laws of what users have spent, for the proofs of callers. The calls do nothing.

ghost use Rattle.std.specs.Prelude.{◌≡◌, ◌≢◌, ◌+◌, ◌-◌, ◌<◌, ◌^◌, ℕ, min, List, [], ◌∷◌, ◌++◌, length, Some, None, IsSome, All};
ghost use Rattle.std.specs.Prelude.{◌↔◌};
ghost use Rattle.std.specs.List.{Contains};
ghost use Rattle.journal_start.specs.CdBase.ids.Fp.{Fp};
ghost use Rattle.journal_start.specs.CdBase.ids.Tag.{Tag};
ghost use Rattle.journal_start.specs.CdBase.ids.UserId.{UserId};
ghost use Rattle.journal_start.specs.CdBase.ids.Version.{Version};
ghost use Rattle.journal_start.specs.CdBase.shape.Shape.{Shape};
ghost use Rattle.journal_start.specs.declared.rooms.UserRooms.{UserRooms};
ghost use Rattle.user_dedup.specs.declared.file_list.FileEntry.{FileEntry};
ghost use Rattle.user_dedup.specs.declared.view.View.{View};
ghost use Rattle.user_dedup.specs.Cloud.{fingerprint, no_view};
ghost use Rattle.user_dedup.specs.Pages.{key_of, entry_at, AreApart};
ghost use Rattle.user_dedup.specs.Requests.{fps_of};
ghost use Rattle.user_dedup.specs.declared.command.Command.{Command};
ghost use Rattle.user_dedup.specs.Cloud.{user_of, commands_of, counted, view_after, user_view, without_entry, deletion};
ghost use Rattle.user_dedup.specs.Cloud.{IsNamedBeside, strings_in, held_string};
ghost use Rattle.messages.specs.declared.request.Request.{Request};
ghost use Rattle.user_dedup.specs.Dedup.{IsSound};
ghost use Rattle.user_dedup.specs.Served.{served_by};
ghost use Rattle.user_dedup.specs.Spending.{nothing, spent_of, full_for, HoldsItself, UsesWithin, IsWithin};
ghost use Rattle.user_dedup.specs.Compact.{compact};

/// What users have spent, and when a room of a user's is full.
pub fn law_of_spending()
    ensures begun { (user : UserId) → spent_of [] user ≡ nothing }
    // A deletion spends nothing, and gives nothing back.
    ensures deletes { (list : List Command) (user other : UserId) (key : Tag × Version)
        → spent_of (list ++ deletion user key ∷ []) other ≡ spent_of list other }
    ensures never_full { (shape : Shape) (rooms : UserRooms) (list : List Command) (user : UserId) (key : Tag × Version)
        → full_for shape rooms list (deletion user key) ≡ None }
    // Where no two strings have one SHA-256, a full room follows from the user's own commands.
    ensures alone { (shape : Shape) (rooms : UserRooms) (one two : List Command) (command : Command)
        → commands_of (user_of command) one ≡ commands_of (user_of command) two
        → HoldsItself (one ++ command ∷ []) → HoldsItself (two ++ command ∷ [])
        → full_for shape rooms one command ≡ full_for shape rooms two command }
{}

/// Lists within their rooms: each user is within its own after each command.
pub fn law_of_rooms()
    ensures none { (shape : Shape) (rooms : UserRooms) → IsWithin shape rooms [] }
    ensures front { (shape : Shape) (rooms : UserRooms) (list more : List Command) → IsWithin shape rooms (list ++ more)
        → IsWithin shape rooms list }
    ensures each { (shape : Shape) (rooms : UserRooms) (list : List Command) (user : UserId) → IsWithin shape rooms list
        → UsesWithin shape rooms list user }
    // One command more for which no room is full keeps it so.
    ensures next { (shape : Shape) (rooms : UserRooms) (list : List Command) (command : Command)
        → IsWithin shape rooms list
        → full_for shape rooms list command ≡ None → IsWithin shape rooms (list ++ command ∷ []) }
{}

/// What a cloud of these rooms serves keeps its list within them: it adds no command for which a room has no place.
pub fn law_of_served_rooms()
    ensures { (shape : Shape) (rooms : UserRooms) (cloud : ℕ) (list : List Command) (request : Request)
        (command : Command)
        → IsWithin shape rooms list → (served_by rooms shape cloud list request).adds ≡ Some command
        → IsWithin shape rooms (list ++ command ∷ []) }
{}

/// The number of a list's commands, as an opening answers it: one more for each, as far as 64 bits reach.
pub fn law_of_numbers()
    ensures none { counted [] ≡ 0 }
    ensures next { (list : List Command) (command : Command)
        → counted (list ++ command ∷ []) ≡ min (counted list + 1) (2 ^ 64 - 1) }
    ensures small { (list : List Command) → length list < 2 ^ 64 → counted list ≡ length list }
{}

/// A compact list: each user sees the same in it, and what some user owns is held in it as before.
pub fn law_of_compact_lists()
    ensures none { (shape : Shape) → compact shape [] ≡ [] }
    // A user owns the same fingerprints, and has the same entry at each key.
    ensures own { (shape : Shape) (list : List Command) (user : UserId) (fp : Fp)
        → Contains (user_view shape (compact shape list) user).own fp ↔ Contains (user_view shape list user).own fp }
    ensures entries { (shape : Shape) (list : List Command) (user : UserId) (key : Tag × Version)
        → entry_at (user_view shape (compact shape list) user).files key
        ≡ entry_at (user_view shape list user).files key }
    // The same string is held under each fingerprint that some user owns.
    ensures held { (shape : Shape) (list : List Command) (user : UserId) (fp : Fp)
        → Contains (user_view shape list user).own fp → held_string (compact shape list) fp ≡ held_string list fp }
    // It is a list that the cloud could have come to.
    ensures sound { (shape : Shape) (cloud : ℕ) (list : List Command) → IsSound shape cloud list
        → IsSound shape cloud (compact shape list) }
{}
