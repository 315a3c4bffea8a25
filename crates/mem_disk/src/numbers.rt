//! A number for each area.

ghost use Rattle.std.specs.Prelude.{◌≡◌, ◌≢◌};
ghost use Rattle.cd_edges.specs.declared.area.Area.{Area};

use cd_edges::Area;

/// A number for each of the three areas.
#[derive(Clone, Copy)]
pub struct PerArea {
    pub journal: u64,
    pub shares: u64,
    pub recipes: u64,
}

impl PerArea {
    ghost use Rattle.mem_disk.specs.Numbers.{number_of};

    /// 0 for each.
    pub const ZEROS: PerArea = PerArea {
        journal: 0,
        shares: 0,
        recipes: 0,
    };

    /// The number of the area.
    pub fn get(&self, area: Area) -> u64
        ensures { result ≡ number_of self.now area }
    {
        match area {
            Area::Journal => self.journal,
            Area::Shares => self.shares,
            Area::Recipes => self.recipes,
        }
    }

    /// Gives the area this number. The others stay.
    pub fn set(&mut self, area: Area, number: u64)
        ensures here { number_of self.new area ≡ number }
        ensures others { (other : Area) → other ≢ area → number_of self.new other ≡ number_of self.old other }
    {
        match area {
            Area::Journal => self.journal = number,
            Area::Shares => self.shares = number,
            Area::Recipes => self.recipes = number,
        }
    }
}
