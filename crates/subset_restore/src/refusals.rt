//! Which clouds refused, and the first refusal.

ghost use Rattle.std.specs.Prelude.{◌≡◌, ℕ, ◌<◌, List, [], ◌∷◌, ◌++◌, length, option_map, IfSome};
ghost use Rattle.std.specs.Bool.{MatchBool};
ghost use Rattle.transcript.specs.CdBase.Numbers.{numbers_of};
ghost use Rattle.subset_restore.specs.Tries.{Try, refuser};
ghost use Rattle.subset_restore.specs.Tracking.{HoldsMarked, IsMarked, Tracks, first_or, marked_with};

use crate::chosen::next_cloud;
use restore_job::RestoreErr;
use transcript::CloudNo;

/// The clouds that refused in a call, by their numbers, and its first refusal.
#[derive(Clone, Copy)]
pub struct Refusals {
    marks: [bool; 256],
    first: Option<RestoreErr>,
}

// The cloud that refused. Recipes that differ and a secret that doesn't open are no cloud's refusal.
fn refuser_of(refusal: RestoreErr) -> Option<CloudNo>
    ensures { option_map (λ cloud. cloud.0) result ≡ refuser refusal }
{
    match refusal {
        RestoreErr::Missing { cloud } => Some(cloud),
        RestoreErr::Lost { cloud } => Some(cloud),
        RestoreErr::CloudFault { cloud } => Some(cloud),
        RestoreErr::CloudDamaged { cloud, .. } => Some(cloud),
        RestoreErr::CloudRotten { cloud, .. } => Some(cloud),
        RestoreErr::CloudNoMemory { cloud } => Some(cloud),
        RestoreErr::Strange { cloud, .. } => Some(cloud),
        RestoreErr::ShareLength { cloud, .. } => Some(cloud),
        RestoreErr::BadShare { cloud, .. } => Some(cloud),
        RestoreErr::RecipesDiffer { .. } => None,
        RestoreErr::BadSecret { .. } => None,
        RestoreErr::BadPad { .. } => None,
        RestoreErr::NoMemory => None,
    }
}

// Marks a cloud, if there is one.
fn mark(marks: &mut [bool; 256], cloud: Option<CloudNo>)
    ensures marks { marks.new ≡ marked_with marks.old (option_map (λ cloud. cloud.0) cloud) }
    ensures within { IfSome (option_map (λ cloud. cloud.0) cloud) (λ number. number < length marks.old) }
{
    match cloud {
        Some(cloud) => marks[cloud.0 as usize] = true,
        None => {}
    }
}

// Whether a cloud is marked.
fn is_marked(marks: &[bool; 256], cloud: CloudNo) -> bool
    ensures { MatchBool result (IsMarked marks.now cloud.0) (IsMarked marks.now cloud.0 → ⊥) }
{
    marks[cloud.0 as usize]
}

// The first refusal behind one more.
fn first_behind(first: Option<RestoreErr>, refusal: RestoreErr) -> Option<RestoreErr>
    ensures { result ≡ first_or first refusal }
{
    match first {
        Some(first) => Some(first),
        None => Some(refusal),
    }
}

impl Refusals {
    /// No refusal.
    pub fn none() -> Refusals
        ensures { Tracks [] result }
    {
        Refusals {
            marks: [false; 256],
            first: None,
        }
    }

    /// Whether one of these clouds refused.
    pub fn hold(&self, clouds: &[CloudNo]) -> bool
        ensures { MatchBool result (HoldsMarked self.now.marks (numbers_of clouds.now))
            (HoldsMarked self.now.marks (numbers_of clouds.now) → ⊥) }
    {
        let Some((cloud, more)) = next_cloud(clouds) else {
            return false;
        };
        if is_marked(&self.marks, cloud) {
            return true;
        }
        self.hold(more)
    }

    /// Keeps a refusal.
    pub fn note(&mut self, refusal: RestoreErr)
        ensures { (tries : List Try) (subset : List ℕ) → Tracks tries self.old
            → Tracks (tries ++ record { subset = subset; refusal = refusal } ∷ []) self.new }
    {
        mark(&mut self.marks, refuser_of(refusal));
        self.first = first_behind(self.first, refusal);
    }

    /// The first refusal.
    pub fn first(&self) -> Option<RestoreErr>
        ensures { result ≡ self.now.first }
    {
        self.first
    }
}
