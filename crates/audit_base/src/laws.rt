//! The laws of audits, for the proofs of callers. The calls do nothing.

ghost use Rattle.std.specs.Prelude.{ℕ, List};
ghost use Rattle.std.specs.List.{Contains};
ghost use Rattle.std.specs.FinMap.{entries};
ghost use Rattle.cloud_memory.specs.CdBase.shape.Shape.{Shape};
ghost use Rattle.cd_edges.specs.declared.area.Area.TheVariants.{Shares};
ghost use Rattle.cd_edges.specs.Disk.{Image};
ghost use Rattle.cloud_memory.specs.FileIndex.key.Entry.{Entry};
ghost use Rattle.cloud_memory.specs.FileIndex.key.FileKey.{FileKey};
ghost use Rattle.cloud_memory.specs.CdBase.place.Place.{Place};
ghost use Rattle.audit_base.specs.Own.{live_shares};
ghost use Rattle.audit_base.specs.Served.{ServedTables, Views};
ghost use Rattle.audit_base.specs.Whole.{Tables, ArePlaced, IsStored, IsGood, WholeNow};

/// A cloud of which each listed blob was read and is good is whole; and so is one whose server serves a list.
pub fn law_of_wholeness()
    ensures by_lines { (shape : Shape) (image : Image) (t : Tables) → ArePlaced t
        → ((fp : List ℕ) (place : Place) → Contains (live_shares t) (fp, place)
        → IsStored (image Shares) place.at place.len (record { 0 = fp }))
        → ((key : FileKey) (e : Entry) → Contains (entries t.files) (key, e)
        → IsGood shape image t (record { 0 = key.user }) e)
        → WholeNow shape image t }
    ensures by_serving { (shape : Shape) (image : Image) (t : Tables) (v : Views)
        → ServedTables shape image t v → WholeNow shape image t }
{}
