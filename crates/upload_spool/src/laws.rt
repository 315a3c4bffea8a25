//! The laws of spools, for the proofs of callers. The calls do nothing.

ghost use Rattle.std.specs.Prelude.{◌≡◌, ◌≢◌, ◌⊎◌, ℕ, ◌+◌, ◌*◌, ◌<◌, ◌≤◌, false, List, [], ◌∷◌, ◌++◌, length, take, All, true, Option, Result, Ok};
ghost use Rattle.grammar.specs.CdBase.ids.CloudNo.{CloudNo};
ghost use Rattle.grammar.specs.CdBase.shape.Shape.{Shape};
ghost use Rattle.commit_journal.specs.CdEdges.area.Area.TheVariants.{Journal, Shares};
ghost use Rattle.commit_journal.specs.CdEdges.Disk.{Image};
ghost use Rattle.commit_journal.specs.JournalHalves.Halves.{is_half_begun};
ghost use Rattle.commit_journal.specs.JournalHalves.Journals.{Where, HasChain, IsEither, used_by, with_body};
ghost use Rattle.upload_job.specs.declared.news.LaneNews.{LaneNews};
ghost use Rattle.upload_job.specs.declared.news.LaneErr.{LaneErr};
ghost use Rattle.upload_job.specs.Lanes.{LaneView, lanes_begun, lanes_resumed, AnswersAt};
ghost use Rattle.upload_job.specs.Upload.{FileVersion};
ghost use Rattle.upload_spool.specs.declared.error.SpoolErr.{SpoolErr};
ghost use Rattle.upload_spool.specs.Opens.{OpensSpoolIs, FindsAgain};
ghost use Rattle.upload_spool.specs.States.{SpoolState, IsJobOf};
ghost use Rattle.upload_spool.specs.Reading.{fields_for, is_lane, job_in, lane_in};
ghost use Rattle.upload_spool.specs.Spools.{FitsFileVersion, AreJobLanes, SpoolFor, HasOpenJob, IsNotedOr, spool_chain, spool_start, lane_bytes, job_bytes};

/// How long a spool's chain is, so that there is always room for a note.
pub fn law_of_room()
    ensures used { (shape : Shape) (v : FileVersion) (lanes : List CloudNo)
        → used_by (spool_chain shape v lanes) ≡ 102 + length v.path + 7 * length lanes }
    ensures within { (shape : Shape) (v : FileVersion) (lanes : List CloudNo) → FitsFileVersion v → length lanes ≤ 16
        → used_by (spool_chain shape v lanes) ≤ 1238 }
{}

/// What a note leaves: the chain that it had or with the note's record is the lanes before, or with the new one.
pub fn law_of_notes()
    ensures chain { (shape : Shape) (v : FileVersion) (lanes : List CloudNo) (lane : CloudNo)
        → with_body (spool_chain shape v lanes) (lane_bytes lane) ≡ spool_chain shape v (lanes ++ lane ∷ []) }
    ensures noted { (shape : Shape) (v : FileVersion) (lanes : List CloudNo) (lane : CloudNo) (image : Image)
        → AreJobLanes shape lanes → lane.0 < shape.n → All (λ noted. noted.0 ≢ lane.0) lanes
        → used_by (spool_chain shape v (lanes ++ lane ∷ [])) ≤ 65536
        → IsEither (spool_chain shape v lanes) (with_body (spool_chain shape v lanes) (lane_bytes lane)) (image Journal)
        → is_half_begun 1 (image Journal) ≡ false → take (length v.file) (image Shares) ≡ v.file
        → IsNotedOr shape v lanes lane image }
{}

/// An image is the spool of one job at most, with one list of lanes: where a journal has one chain at most.
pub fn law_of_spools()
    ensures one { ((journal : List ℕ) (w u : Where) → HasChain journal w → HasChain journal u → w ≡ u)
        → (image : Image) (shape other : Shape) (v u : FileVersion) (lanes notes : List CloudNo)
        → FitsFileVersion v → FitsFileVersion u → SpoolFor image shape v lanes
        → SpoolFor image other u notes → (v ≡ u) × (lanes ≡ notes) }
    ensures open_job { (image : Image) (shape : Shape) (v : FileVersion) (lanes : List CloudNo)
        → SpoolFor image shape v lanes → HasOpenJob (image Journal) }
{}

/// A kept spool is found: an opening of an image that is the spool of a version with some lanes answers with these, or a
/// device call or memory failed.
pub fn law_of_kept_spools()
    ensures { (image : Image) (shape : Shape) (v : FileVersion) (lanes : List CloudNo) → FitsFileVersion v
        → SpoolFor image shape v lanes → (answer : Result (Option (SpoolState × List LaneView)) SpoolErr)
        → OpensSpoolIs shape image answer → FindsAgain shape v lanes answer }
{}

/// A job stays that of its version, whatever is answered, and one that goes on is its version's too.
pub fn law_of_jobs()
    ensures begun { (shape : Shape) (v : FileVersion) → IsJobOf shape v (lanes_begun shape v) }
    ensures resumed { (shape : Shape) (v : FileVersion) (committed : List ℕ)
        → IsJobOf shape v (lanes_resumed shape v committed) }
    ensures answered { (shape : Shape) (v : FileVersion) (old new : List LaneView) (lane : ℕ) (content : List ℕ)
        (result : Result LaneNews LaneErr) → IsJobOf shape v old → AnswersAt old lane content result new
        → IsJobOf shape v new }
{}

/// A record is read as it is spelled: what a version's job record says, and a lane that is below n and wasn't noted.
pub fn law_of_records()
    ensures job { (v : FileVersion) → FitsFileVersion v → job_in (job_bytes v) ≡ Ok (fields_for v) }
    ensures lane { (shape : Shape) (noted : List CloudNo) (lane : CloudNo) → is_lane shape noted lane.0 ≡ true
        → lane_in shape noted (lane_bytes lane) ≡ Ok lane.0 }
{}
