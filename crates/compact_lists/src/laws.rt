//! The laws of compact lists, for the proofs of callers. The calls do nothing.

ghost use Rattle.std.specs.Prelude.{◌≡◌, ◌≤◌, ◌+◌, ◌↔◌, ℕ, List, length, map, count_by, bytes_eq, slice_get, Some};
ghost use Rattle.std.specs.List.{Contains, sum_by};
ghost use Rattle.user_dedup.specs.CdBase.ids.Fp.{Fp};
ghost use Rattle.user_dedup.specs.CdBase.ids.UserId.{UserId};
ghost use Rattle.user_dedup.specs.CdBase.shape.Shape.{Shape};
ghost use Rattle.user_dedup.specs.JournalStart.rooms.UserRooms.{UserRooms};
ghost use Rattle.user_dedup.specs.Strings.{fingerprint};
ghost use Rattle.user_dedup.specs.declared.command.Command.{Command};
ghost use Rattle.user_dedup.specs.Dedup.{IsSound};
ghost use Rattle.user_dedup.specs.Cloud.{user_view, named_in, strings_in};
ghost use Rattle.user_dedup.specs.Compact.{compact, users_in, user_at};
ghost use Rattle.user_dedup.specs.Spending.{spent_of, files_of, UsesWithin, IsWithin};
ghost use Rattle.compact_lists.specs.Live.{live_of, begun_in, IsAlive};

/// The compact list of a sound list has, for each user, a Put for each begun 256 of what the user owns, and a Commit
/// for each entry.
pub fn law_of_compact_numbers()
    ensures { (shape : Shape) (cloud : ℕ) (list : List Command) → IsSound shape cloud list
        → length (compact shape list)
        ≡ sum_by (λ (n : ℕ). begun_in (length (user_view shape list (user_at n)).own)) (users_in list)
        + sum_by (λ (n : ℕ). files_of shape list (user_at n)) (users_in list) }
{}

/// What a user has spent in the compact list of a sound list is what it keeps, which is no more than it had spent.
pub fn law_of_spent_compact()
    ensures spent { (shape : Shape) (cloud : ℕ) (list : List Command) (user : UserId) → IsSound shape cloud list
        → spent_of (compact shape list) user ≡ live_of shape list user }
    ensures files { (shape : Shape) (cloud : ℕ) (list : List Command) (user : UserId) → IsSound shape cloud list
        → files_of shape (compact shape list) user ≡ files_of shape list user }
    ensures owners { (shape : Shape) (list : List Command) (user : UserId)
        → (live_of shape list user).owners ≤ (spent_of list user).owners }
    ensures shares { (shape : Shape) (list : List Command) (user : UserId)
        → (live_of shape list user).shares ≤ (spent_of list user).shares }
    ensures recipes { (shape : Shape) (list : List Command) (user : UserId)
        → (live_of shape list user).recipes ≤ (spent_of list user).recipes }
{}

/// A compact list is within some rooms where each user is at its end, and where the list was.
pub fn law_of_compact_rooms()
    ensures by_end { (shape : Shape) (rooms : UserRooms) (list : List Command)
        → ((user : UserId) → UsesWithin shape rooms (compact shape list) user)
        → IsWithin shape rooms (compact shape list) }
    ensures stays { (shape : Shape) (cloud : ℕ) (rooms : UserRooms) (list : List Command) → IsSound shape cloud list
        → IsWithin shape rooms list → IsWithin shape rooms (compact shape list) }
{}

/// The strings of a compact list are those that are held under what users own.
pub fn law_of_compact_strings()
    ensures { (shape : Shape) (list : List Command) (fp : Fp)
        → Contains (map fingerprint (strings_in (compact shape list))) fp ↔ IsAlive shape list fp }
{}

/// A user's entries name a fingerprint as often in the compact list of a sound list.
pub fn law_of_compact_uses()
    ensures { (shape : Shape) (cloud : ℕ) (list : List Command) (user : UserId) (fp : Fp) → IsSound shape cloud list
        → count_by (λ (named : Fp). bytes_eq named.0 fp.0) (named_in shape (user_view shape
        (compact shape list) user).files)
        ≡ count_by (λ (named : Fp). bytes_eq named.0 fp.0) (named_in shape (user_view shape list user).files) }
{}

/// A user owns each fingerprint once in a sound list.
pub fn law_of_owned_once()
    ensures { (shape : Shape) (cloud : ℕ) (list : List Command) (user : UserId) (i j : ℕ) (fp : Fp)
        → IsSound shape cloud list
        → slice_get (user_view shape list user).own i ≡ Some fp → slice_get (user_view shape list user).own j ≡ Some fp
        → i ≡ j }
{}
