//! The laws. The calls do nothing.

ghost use Rattle.std.specs.Prelude.{ℕ, List};
ghost use Rattle.session_model.specs.CdEdges.Disk.{Cloud};
ghost use Rattle.lane_steps.specs.UploadJob.Upload.{FileVersion};
ghost use Rattle.session_model.specs.Headline.{Session, Clashes, DisksStand, IsRun};
ghost use Rattle.session_laws.specs.Left.{AreLeft, GiveFile};
ghost use Rattle.session_laws.specs.Stored.{StoresAll};

/// Whatever a crash leaves of the disks of k clouds that keep a version which they acknowledged: lists stand there, each within the
/// session's rooms, so that a read opens them, and what they give is the version's file.
pub fn law_of_left_disks()
    ensures { (clouds new disks : ℕ → Cloud) (run : Session) (named : List ℕ) (v : FileVersion) → IsRun clouds run
        → DisksStand run clouds new → ¬ Clashes run → AreLeft run new disks named v → GiveFile run disks named v }
{}

/// A finish that nothing hinders stores its job's version: the clouds are told and none of their counts rises, no lane of the job was
/// refused before, and none is refused now.
pub fn law_of_finishes()
    ensures { (clouds : ℕ → Cloud) (run : Session) → IsRun clouds run → StoresAll run }
{}
