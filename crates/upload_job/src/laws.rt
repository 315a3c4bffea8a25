//! Laws of what a version of a file brings to the clouds, for the proofs of callers. The calls do nothing: their clauses are theorems.

ghost use Rattle.std.specs.Prelude.{◌≡◌, ◌≤◌, ℕ, List, [], length, map, Some, slice_get};
ghost use Rattle.std.specs.List.{flat_map};
ghost use Rattle.user_dedup.specs.CdBase.shape.Shape.{Shape};
ghost use Rattle.user_dedup.specs.CdBase.Limits.{IsPath};
ghost use Rattle.user_dedup.specs.Recipe.Spelling.{file_limit};
ghost use Rattle.user_dedup.specs.MessageFields.Fingerprints.{IsBatch};
ghost use Rattle.user_dedup.specs.Cloud.{fingerprint};
ghost use Rattle.user_dedup.specs.Requests.{fps_of};
ghost use Rattle.user_dedup.specs.Owning.{AreNew};
ghost use Rattle.upload_job.specs.Upload.{FileVersion, work_of, shares_for, wanted_for};

/// The recipe that a lane enters names the fingerprints of the lane's own shares, in the order of the secrets.
pub fn law_of_recipes()
    ensures { (shape : Shape) (v : FileVersion) (cloud : ℕ) → IsPath v.path → length v.file ≤ file_limit
        → fps_of shape (work_of shape v cloud).recipe ≡ map fingerprint (shares_for shape cloud v.file) }
{}

/// The batches that a lane asks for.
pub fn law_of_batches()
    // joined they are the wanted shares
    ensures joined { (shape : Shape) (v : FileVersion) (cloud : ℕ)
        → flat_map (λ (batch : List (List ℕ)). batch) (work_of shape v cloud).batches ≡ wanted_for shape cloud v.file }
    // which are the first of each fingerprint of the lane's shares, no two with one fingerprint
    ensures first { (shape : Shape) (v : FileVersion) (cloud : ℕ)
        → AreNew [] (shares_for shape cloud v.file) (wanted_for shape cloud v.file) }
    // a batch has 1 to 256 of them
    ensures sizes { (shape : Shape) (v : FileVersion) (cloud i : ℕ) (batch : List (List ℕ))
        → slice_get (work_of shape v cloud).batches i ≡ Some batch → IsBatch batch }
{}
