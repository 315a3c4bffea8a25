//! What follows of a session over told clouds for each of its users. The calls do nothing.

ghost use Rattle.std.specs.Prelude.{ℕ};
ghost use Rattle.session_model.specs.CdEdges.Disk.{Cloud};
ghost use Rattle.session_model.specs.Headline.{Session};
ghost use Rattle.two_worlds.specs.Worlds.{TwoWorlds, Alike};

/// A user's own lines have the answers that they would have in a session of the user alone. There is just one such session.
pub fn law_of_two_worlds()
    ensures own { (clouds : ℕ → Cloud) (run : Session) → TwoWorlds clouds run }
    // So two sessions in which the user has the same lines answer them alike, whatever the lines of all other users are.
    ensures alike { (clouds_one : ℕ → Cloud) (one : Session) (clouds_two : ℕ → Cloud) (two : Session)
        → Alike clouds_one one clouds_two two }
{}
