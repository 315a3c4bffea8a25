//! How much a cloud may hold.

ghost use Rattle.std.specs.Prelude.{◌≡◌};
ghost use Rattle.cd_base.specs.Limits.{greatest_rooms};

/// One kind of thing that a cloud holds.
#[derive(Clone, Copy, Debug, PartialEq, Eq)]
pub enum Room {
    Shares,
    Recipes,
    Journal,
    Fps,
    Owners,
    Files,
}

/// How much a cloud may hold of each kind: bytes of shares, recipes and journal, numbers of fingerprints, owners and
/// files.
#[derive(Clone, Copy)]
pub struct Rooms {
    pub shares: u64,
    pub recipes: u64,
    pub journal: u64,
    pub fps: u32,
    pub owners: u32,
    pub files: u32,
}

impl Rooms {
    /// The greatest rooms, which hold where a script names none.
    pub fn greatest() -> Rooms
        ensures { result ≡ greatest_rooms }
    {
        Rooms {
            shares: 8_589_934_592,
            recipes: 1_073_741_824,
            journal: 268_435_456,
            fps: 262_144,
            owners: 524_288,
            files: 16_384,
        }
    }
}
