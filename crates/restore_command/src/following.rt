//! What follows from the exchanges of a restore, cloud by cloud.

ghost use Rattle.std.specs.Prelude.{◌≡◌, ℕ, List, ◌++◌, Result, Ok, Err};
ghost use Rattle.std.specs.List.Sorted.{IsStrictlyIncreasing};
ghost use Rattle.ports_link.specs.CdBase.Numbers.{numbers_of};
ghost use Rattle.ports_link.specs.CdBase.ids.CloudNo.{CloudNo};
ghost use Rattle.ports_link.specs.CdBase.ids.Tag.{Tag};
ghost use Rattle.ports_link.specs.CdBase.ids.UserId.{UserId};
ghost use Rattle.ports_link.specs.CdBase.ids.Version.{Version};
ghost use Rattle.ports_link.specs.CdBase.shape.Shape.{Shape};
ghost use Rattle.subset_restore.specs.RestoreJob.Exchanges.{CloudExchange, RestoreRun};
ghost use Rattle.subset_restore.specs.RestoreJob.error.RestoreErr.{RestoreErr};
ghost use Rattle.restore_command.specs.Fetched.{Fetched};
ghost use Rattle.restore_command.specs.Stopped.{Stopped};
ghost use Rattle.restore_command.specs.Talks.{received_in, sent_in};

/// What the exchanges of a restore from rising clouds say. Where it answered Ok the version was fetched, and its bytes
/// were appended. With an error the fetch stopped at the reply or comparison that the error names.
pub fn law_of_fetched_files()
    ensures fetched { (shape : Shape) (user : UserId) (tag : Tag) (version : Version) (clouds : List CloudNo)
        (log : List CloudExchange) (old new : List ℕ)
        → IsStrictlyIncreasing (numbers_of clouds) → RestoreRun shape user tag version clouds log old new (Ok tt)
        → (bytes : List ℕ) × (new ≡ old ++ bytes)
        × Fetched shape user tag version clouds (sent_in log) (received_in log) bytes }
    ensures stopped { (shape : Shape) (user : UserId) (tag : Tag) (version : Version) (clouds : List CloudNo)
        (log : List CloudExchange) (old new : List ℕ) (e : RestoreErr)
        → IsStrictlyIncreasing (numbers_of clouds) → RestoreRun shape user tag version clouds log old new (Err e)
        → Stopped shape user tag version clouds (sent_in log) (received_in log) e }
{}
