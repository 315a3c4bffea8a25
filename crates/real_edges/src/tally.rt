//! Counts for each cloud.

ghost use Rattle.std.specs.Prelude.{◌≡◌, ◌≢◌, ◌≤◌, ℕ, ◌+◌, ◌-◌, ◌^◌, min, slice_index, slice_set};

use cd_edges::CloudNo;

/// How often calls failed, in all and for each cloud, and how often each cloud was armed. Each count stays at its last value, that of
/// a u64.
#[derive(Drop)]
pub struct Tally {
    /// The failures of each cloud, by its number.
    pub faults: [u64; 256],
    /// The armings of each cloud, by its number.
    pub armings: [u64; 256],
    /// All failures.
    pub total: u64,
}

impl Tally {
    /// Nothing was counted yet.
    pub fn new() -> Tally
        ensures { result.total ≡ 0 }
    {
        Tally {
            faults: [0; 256],
            armings: [0; 256],
            total: 0,
        }
    }

    /// A call on the cloud failed.
    pub fn count_fault(&mut self, cloud: CloudNo)
        ensures here { slice_index self.new.faults cloud.0
            ≡ min (slice_index self.old.faults cloud.0 + 1) (2 ^ 64 - 1) }
        ensures others { (other : ℕ) → other ≢ cloud.0
            → slice_index self.new.faults other ≡ slice_index self.old.faults other }
        ensures later { slice_index self.old.faults cloud.0 ≤ slice_index self.new.faults cloud.0 }
        ensures armings { self.new.armings ≡ self.old.armings }
        ensures total { self.new.total ≡ min (self.old.total + 1) (2 ^ 64 - 1) }
        ensures total_later { self.old.total ≤ self.new.total }
    {
        let place = cloud.0 as usize;
        self.faults[place] = self.faults[place].saturating_add(1);
        self.total = self.total.saturating_add(1);
    }

    /// A call on no cloud failed.
    pub fn count_in_all(&mut self)
        ensures faults { self.new.faults ≡ self.old.faults }
        ensures armings { self.new.armings ≡ self.old.armings }
        ensures total { self.new.total ≡ min (self.old.total + 1) (2 ^ 64 - 1) }
        ensures total_later { self.old.total ≤ self.new.total }
    {
        self.total = self.total.saturating_add(1);
    }

    /// The cloud was armed.
    pub fn count_arming(&mut self, cloud: CloudNo)
        ensures armings { self.new.armings
            ≡ slice_set self.old.armings cloud.0 (min (slice_index self.old.armings cloud.0 + 1) (2 ^ 64 - 1)) }
        ensures faults { self.new.faults ≡ self.old.faults }
        ensures total { self.new.total ≡ self.old.total }
    {
        let place = cloud.0 as usize;
        self.armings[place] = self.armings[place].saturating_add(1);
    }
}
