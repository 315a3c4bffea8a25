//! How far a checkpoint has come.

ghost use Rattle.std.specs.Prelude.{◌≡◌};
ghost use Rattle.checkpoints.specs.Records.{first_of};

/// Where the next record of a checkpoint comes from: the user whose fingerprints are listed and the slot of the next one, how
/// many users are left with it, and the slots of the next share that no user owns, of the next entry, and of the next row.
#[derive(Clone, Copy)]
pub struct Position {
    pub user: u32,
    pub left: u32,
    pub owner: u32,
    pub place: u32,
    pub file: u32,
    pub row: u32,
}

impl Position {
    /// Where a checkpoint of so many users begins.
    pub fn first(users: u32) -> Position
        ensures { result ≡ first_of users }
    {
        Position {
            user: 0,
            left: users,
            owner: 0,
            place: 0,
            file: 0,
            row: 0,
        }
    }
}
