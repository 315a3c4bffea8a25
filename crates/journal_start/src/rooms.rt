//! How many users a cloud has, and how much each of them may hold.

ghost use Rattle.std.specs.Prelude.{◌≡◌, ◌≤◌, Some, nat_le, MatchResult, IsTrue, ◌↔◌};
ghost use Rattle.journal_start.specs.Ranges.{AreRooms, most_shares, is_users, is_within, first_broken, usual_rooms, least_rooms};

/// How many users a cloud may have, and how much each of them may hold: bytes of shares and of recipes, owned fingerprints,
/// and files. There are 1 to 256 users, and together they may hold at most 8,589,934,592 bytes of shares, 1,073,741,824
/// bytes of recipes, 524,288 owned fingerprints and 16,384 files.
#[derive(Clone, Copy, Debug, PartialEq, Eq)]
pub struct UserRooms {
    /// How many users there are: those with the numbers below it.
    pub users: u32,
    /// The bytes of shares of one user.
    pub shares: u64,
    /// The bytes of recipes of one user.
    pub recipes: u64,
    /// The fingerprints that one user may own.
    pub owners: u32,
    /// The files of one user.
    pub files: u32,
}

/// A number of a cloud's rooms.
#[derive(Clone, Copy, Debug, PartialEq, Eq)]
pub enum RoomsField {
    Users,
    Shares,
    Recipes,
    Owners,
    Files,
}

/// The most bytes of shares of all users of a cloud together.
pub const MOST_SHARES: u64 = 8_589_934_592;

/// The most bytes of recipes of all users of a cloud together.
pub const MOST_RECIPES: u64 = 1_073_741_824;

/// The most fingerprints that all users of a cloud together own.
pub const MOST_OWNERS: u64 = 524_288;

/// The most files of all users of a cloud together.
pub const MOST_FILES: u64 = 16_384;

// Whether a cloud may have so many users.
pub(crate) fn are_users(users: u32) -> bool
    ensures { result ≡ is_users users }
{
    1 <= users && users <= 256
}

// Whether so many users hold no more than the most together.
pub(crate) fn are_within(most: u64, users: u32, each: u64) -> bool
    requires { most ≤ most_shares }
    ensures { result ≡ is_within most users each }
{
    (users as u64).saturating_mul(each) <= most
}

impl UserRooms {
    /// The rooms of these numbers, or the first of them, in this order, that is out of its range or with which all users
    /// together hold too much.
    pub fn of(
        users: u32,
        shares: u64,
        recipes: u64,
        owners: u32,
        files: u32,
    ) -> Result<UserRooms, RoomsField>
        ensures { MatchResult result
            (λ rooms. (rooms
            ≡ record { users = users; shares = shares; recipes = recipes; owners = owners; files = files })
            × AreRooms rooms)
            (λ field. first_broken
            (record { users = users; shares = shares; recipes = recipes; owners = owners; files = files })
            ≡ Some field) }
    {
        if !are_users(users) {
            return Err(RoomsField::Users);
        }
        if !are_within(MOST_SHARES, users, shares) {
            return Err(RoomsField::Shares);
        }
        if !are_within(MOST_RECIPES, users, recipes) {
            return Err(RoomsField::Recipes);
        }
        if !are_within(MOST_OWNERS, users, owners as u64) {
            return Err(RoomsField::Owners);
        }
        if !are_within(MOST_FILES, users, files as u64) {
            return Err(RoomsField::Files);
        }
        Ok(UserRooms {
            users,
            shares,
            recipes,
            owners,
            files,
        })
    }

    /// Whether each number is in its range, and all users together hold no more than they may.
    pub fn are_allowed(&self) -> bool
        ensures { IsTrue result ↔ AreRooms self.now }
    {
        UserRooms::of(
            self.users,
            self.shares,
            self.recipes,
            self.owners,
            self.files,
        )
        .is_ok()
    }

    /// The rooms that hold where none are named: 16 users, each with 512 MiB of shares, 64 MiB of recipes, 32,768 owned
    /// fingerprints and 1,024 files.
    pub fn usual() -> UserRooms
        ensures rooms { result ≡ usual_rooms }
        ensures allowed { AreRooms result }
    {
        UserRooms {
            users: 16,
            shares: 536_870_912,
            recipes: 67_108_864,
            owners: 32_768,
            files: 1_024,
        }
    }

    /// The least rooms: one user, who may hold nothing.
    pub fn least() -> UserRooms
        ensures rooms { result ≡ least_rooms }
        ensures allowed { AreRooms result }
    {
        UserRooms {
            users: 1,
            shares: 0,
            recipes: 0,
            owners: 0,
            files: 0,
        }
    }
}
