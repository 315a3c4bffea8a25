//! What clouds keep of a file, they give back.
#![tactic(auto)]

ghost use Rattle.std.specs.Prelude.{◌≡◌, ◌<◌, ◌≤◌, ◌++◌, ℕ, List, All, length, slice_index, option_to_list, Ok};
ghost use Rattle.std.specs.List.{Contains};
ghost use Rattle.std.specs.List.Sorted.{IsStrictlyIncreasing};
ghost use Rattle.file_recipe.specs.CdBase.Limits.{IsPath};
ghost use Rattle.file_recipe.specs.CdBase.ids.UserId.{UserId};
ghost use Rattle.file_recipe.specs.CdBase.ids.Version.{Version};
ghost use Rattle.file_recipe.specs.CdBase.shape.Shape.{Shape};
ghost use Rattle.restore_job.specs.Recipe.Spelling.{file_limit};
ghost use Rattle.file_recipe.specs.ReedSolomon.Dispersal.{AreChoice};
ghost use Rattle.restore_job.specs.UserDedup.command.Command.{Command};
ghost use Rattle.restore_job.specs.Restored.{restored_file};
ghost use Rattle.restore_job.specs.Messages.reply.Reply.TheVariants as replies;
ghost use Rattle.restore_job.specs.UserDedup.Dedup.{answer_over};
ghost use Rattle.kept_files.specs.Kept.{Keeps, IsWithoutCollision, key_of, AreHarmless, commit_of};

pub use restore_job::{RestoreErr, compare, fetch_version, restore, restore_agreed};

/// Where each of k clouds keeps a version of a file, what they give is the file. No premise on SHA-256 is needed.
pub fn law_of_kept_files()
    ensures { (shape : Shape) (lists : ℕ → List Command) (user : UserId) (path : List ℕ) (version : Version)
        (file clouds : List ℕ) → IsPath path → ((i : ℕ) → slice_index file i < 256) → length file ≤ file_limit
        → AreChoice shape clouds
        → ((cloud : ℕ) → Contains clouds cloud → Keeps shape cloud (lists cloud) user path version file)
        → restored_file shape lists user (key_of shape path version) clouds ≡ Ok file }
{}

/// What a cloud keeps it goes on keeping, until a command takes that version of the user's out; and what a Commit of a version
/// enters it keeps, where no other string that was put there has the SHA-256 of one of its shares.
pub fn law_of_keeping()
    ensures stays { (shape : Shape) (cloud : ℕ) (list more : List Command) (user : UserId) (path : List ℕ)
        (version : Version) (file : List ℕ) → AreHarmless user (key_of shape path version) more
        → Keeps shape cloud list user path version file → Keeps shape cloud (list ++ more) user path version file }
    ensures committed { (shape : Shape) (cloud : ℕ) (list : List Command) (user : UserId) (path : List ℕ)
        (version : Version) (file : List ℕ)
        → IsPath path → length file ≤ file_limit → IsWithoutCollision shape cloud list file
        → (answer_over shape cloud list (commit_of shape cloud user path version file)).reply ≡ replies.Committed
        → Keeps shape cloud (list
        ++ option_to_list (answer_over shape cloud list (commit_of shape cloud user path version file)).adds)
        user path version file }
{}
