//! What a rebuild finds of kept versions.

ghost use Rattle.std.specs.Prelude.{◌≡◌, ◌<◌, ◌≤◌, ◌++◌, ◌∷◌, [], ℕ, List, Option, Some, None, true, length, map};
ghost use Rattle.std.specs.Prelude.{slice_index, Ok};
ghost use Rattle.std.specs.List.{Contains};
ghost use Rattle.lane_steps.specs.CdBase.Limits.{IsPath};
ghost use Rattle.lane_steps.specs.CdBase.ids.Tag.{Tag};
ghost use Rattle.lane_steps.specs.CdBase.ids.UserId.{UserId};
ghost use Rattle.lane_steps.specs.CdBase.ids.Version.{Version};
ghost use Rattle.lane_steps.specs.CdBase.shape.Shape.{Shape};
ghost use Rattle.lane_steps.specs.MessageFields.Keys.{key_limit};
ghost use Rattle.lane_steps.specs.Recipe.Spelling.{file_limit};
ghost use Rattle.kept_files.specs.ReedSolomon.Dispersal.{AreChoice};
ghost use Rattle.lane_steps.specs.UserDedup.command.Command.{Command};
ghost use Rattle.kept_files.specs.Kept.{Keeps, key_of};
ghost use Rattle.lane_steps.specs.UserDedup.file_list.FileEntry.{FileEntry};
ghost use Rattle.lane_steps.specs.UserDedup.Pages.{key_of as key_of_entry, sorted_keys, page_of};
ghost use Rattle.lane_steps.specs.UserDedup.Dedup.{FullRoom};
ghost use Rattle.lane_steps.specs.UserDedup.Exec.{Peer, served};
ghost use Rattle.lane_steps.specs.Runs.{LaneTurn};
ghost use Rattle.rebuild.specs.Found.{keys_above, version_under};
ghost use Rattle.lane_steps.specs.Messages.Requests.{request_bytes};
ghost use Rattle.lane_steps.specs.UserDedup.Requests.{asker};
ghost use Rattle.rebuild.specs.Over.{IsOfLane};
ghost use Rattle.rebuild.specs.Turns.{OwnLanes};
ghost use Rattle.rebuild.specs.Rebuilding.{Rebuilds};
ghost use Rattle.rebuild.specs.Kept.{RefillsKept, SkipsCaused};
ghost use Rattle.rebuild.specs.declared.skips.Rebuilt.{Rebuilt};

/// Where each of k clouds keeps a version of a file, that version is found under its key, path and all.
pub fn law_of_found_versions()
    ensures { (shape : Shape) (lists : ℕ → List Command) (user : UserId) (path : List ℕ) (version : Version)
        (file from : List ℕ)
        → IsPath path → ((i : ℕ) → slice_index path i < 256) → ((i : ℕ) → slice_index file i < 256)
        → length file ≤ file_limit → AreChoice shape from
        → ((cloud : ℕ) → Contains from cloud → Keeps shape cloud (lists cloud) user path version file)
        → version_under shape lists from user (key_of shape path version)
        ≡ Ok (record { user = user; path = path; number = version; file = file }) }
{}

/// What an answered rebuild over told clouds finds, brings and skips, leaves at the target what was promised: each
/// version that all of the k clouds keep stands there, or is skipped since the target has another; and each skip has
/// its cause.
pub fn law_of_refills()
    ensures { (shape : Shape) (user : UserId) (target : ℕ) (full : List Command → Command → Option FullRoom)
        (from : List ℕ) (turns : List (LaneTurn Peer)) (rebuilt : Rebuilt) (before after : ℕ → Peer)
        → AreChoice shape from → Rebuilds shape user target (served shape target full) from turns
        (Ok rebuilt) before after
        → RefillsKept shape target from user after rebuilt × SkipsCaused shape target from user after rebuilt }
{}

/// What a target is asked in the lanes of a user's versions it is asked for that user, by requests that such lanes have.
pub fn law_of_own_lanes()
    ensures { (shape : Shape) (user : UserId) (target : ℕ) (turns : List (LaneTurn Peer)) (turn : LaneTurn Peer)
        → OwnLanes shape user target turns → Contains turns turn
        → (asker turn.request ≡ user) × IsOfLane shape user target (request_bytes turn.request) }
{}

/// A user's keys are their pages, one after another: a page of fewer than 256 keys has all that are left, and behind
/// any other page come the keys above its last one.
pub fn law_of_pages()
    ensures start { (files : List FileEntry) → keys_above files None ≡ sorted_keys (map key_of_entry files) }
    ensures last { (files : List FileEntry) (after : Option (Tag × Version)) → length (page_of files after) < key_limit
        → keys_above files after ≡ page_of files after }
    ensures next { (files : List FileEntry) (after : Option (Tag × Version)) (front : List (Tag × Version))
        (last : Tag × Version) → page_of files after ≡ front ++ last ∷ []
        → keys_above files after ≡ page_of files after ++ keys_above files (Some last) }
{}
