//! What follows of a session that was carried out, whatever carried it out. The calls do nothing.

ghost use Rattle.std.specs.Prelude.{◌≡◌, ◌<◌, ◌≤◌, ◌-◌, ◌^◌, ℕ, IsTrue, List, [], ◌∷◌, ◌++◌, map, None, Some};
ghost use Rattle.std.specs.List.{Contains, range_with_len};
ghost use Rattle.session.specs.CdBase.ids.CloudNo.{CloudNo};
ghost use Rattle.session.specs.CdBase.ids.UserId.{UserId};
ghost use Rattle.session.specs.CdBase.ids.Version.{Version};
ghost use Rattle.session.specs.CdBase.shape.Shape.{Shape};
ghost use Rattle.session.specs.JournalStart.rooms.UserRooms.{UserRooms};
ghost use Rattle.rebuild.specs.Messages.request.Request.{Request};
ghost use Rattle.subset_restore.specs.UserDedup.command.Command.{Command};
ghost use Rattle.subset_restore.specs.UserDedup.Cloud.{commands_of};
ghost use Rattle.subset_restore.specs.UserDedup.Dedup.{answer_over};
ghost use Rattle.subset_restore.specs.UserDedup.Requests.{asker};
ghost use Rattle.subset_restore.specs.UserDedup.Exec.{MaySettleAs, Peer};
ghost use Rattle.subset_restore.specs.UserDedup.Served.{served_by};
ghost use Rattle.subset_restore.specs.UserDedup.Spending.{HoldsItself, IsWithin};
ghost use Rattle.rebuild.specs.LaneSteps.Runs.{LaneTurn};
ghost use Rattle.rebuild.specs.Rebuilding.{IsRebuildCut};
ghost use Rattle.rebuild.specs.Turns.{OwnLanes};
ghost use Rattle.session.specs.Spelling.{AreClouds, AreSources, FitsEvent};
ghost use Rattle.session.specs.declared.event.Event.{Event};
ghost use Rattle.session.specs.declared.event.Event.TheVariants as events;
ghost use Rattle.session.specs.Transcript.line.Line.{Line};
ghost use Rattle.session_model.specs.Vault.{Setting, Vault, served_at, with_peer, ExecutesAll};
ghost use Rattle.session_model.specs.Steps.{Moment, cloud_no, quiet, turn_moment, AllTold, VStep};
ghost use Rattle.session_model.specs.Run.{IsListIn};
ghost use Rattle.session_model.specs.Cut.{FinishCut};
ghost use Rattle.session_model.specs.Faults.{FaultsRose, SaysFault};
ghost use Rattle.session.specs.CdEdges.Causes.{Rose};
ghost use Rattle.session.specs.CdEdges.Disk.{Cloud};
ghost use Rattle.session_model.specs.Headline.{Session, Begun, IsRun, GivesAcknowledged, GivesFromMore, DisksKeep, AnswersPrivately, IsPartOf, own_reply, script_in};

/// Each reply that speaks of a user's own commands follows from that user's view.
pub fn law_of_own_replies()
    ensures { (clouds : ℕ → Cloud) (run : Session) → IsRun clouds run → AnswersPrivately run }
{}

/// Such a reply follows from the asking user's own commands alone: lists that have the same ones, in the same order, give the same reply,
/// whatever commands of others lie between them.
pub fn law_of_own_commands()
    ensures own { (shape : Shape) (cloud : ℕ) (one two : List Command) (request : Request)
        → commands_of (asker request) two ≡ commands_of (asker request) one
        → own_reply shape cloud two request ≡ own_reply shape cloud one request }
    // So does all that comes of a request that would add a command, a full room among it, where no two strings have one
    // SHA-256.
    ensures rooms { (rooms : UserRooms) (shape : Shape) (cloud : ℕ) (one two : List Command) (request : Request)
        (command : Command) → commands_of (asker request) two ≡ commands_of (asker request) one
        → (answer_over shape cloud one request).adds ≡ Some command
        → HoldsItself (one ++ command ∷ []) → HoldsItself (two ++ command ∷ [])
        → served_by rooms shape cloud two request ≡ served_by rooms shape cloud one request }
{}

/// A get gives each version that its clouds acknowledged, or some of them where the others have none; and each list that
/// a crash may leave behind the last state keeps what its cloud acknowledged.
pub fn law_of_acknowledged()
    ensures given { (clouds : ℕ → Cloud) (run : Session) → IsRun clouds run → GivesAcknowledged run }
    ensures more { (clouds : ℕ → Cloud) (run : Session) → IsRun clouds run → GivesFromMore run }
    ensures kept { (clouds new : ℕ → Cloud) (run : Session) → IsRun clouds run → DisksKeep run new }
{}

/// A list that a cloud had by some moment it also had where a line more was carried out, or a part of one.
pub fn law_of_moments()
    ensures later { (s : Setting) (cloud : ℕ) (before : List Moment) (old : Vault) (event : Event) (answers : List Line)
        (moments : List Moment) (new : Vault) → VStep s old event answers moments new
        → (list : List Command) → IsListIn s cloud before old.peers list
        → IsListIn s cloud (before ++ moments) new.peers list }
    ensures here { (s : Setting) (cloud : ℕ) (before moments : List Moment) (last : ℕ → Peer) (list : List Command)
        → IsListIn s cloud moments last list → IsListIn s cloud (before ++ moments) last list }
    ensures part { (s : Setting) (cloud : ℕ) (before : List Moment) (old : Vault) (begun : Begun) (last : ℕ → Peer)
        → IsPartOf s old begun last → (list : List Command) → IsListIn s cloud before old.peers list
        → IsListIn s cloud (before ++ begun.moments) last list }
{}

/// A line that want of memory cut is a part of one that goes on, by a fault of what is left: a finish between two requests, a get before
/// its clouds have moved, a rebuild between two requests of its target, and each line of which nothing has passed.
pub fn law_of_parts()
    ensures finish { (s : Setting) (job : ℕ) (old : Vault) (moments : List Moment) (last : ℕ → Peer)
        → FinishCut s job (range_with_len 0 s.shape.n) old moments last
        → IsPartOf s old (record { event = events.Finish job; moments = moments }) last }
    ensures get { (s : Setting) (old : Vault) (user : UserId) (path : List ℕ) (version : Version) (clouds : List ℕ)
        → AreSources s.shape clouds
        → IsPartOf s old (record { event = events.Get user path version clouds; moments = [] }) old.peers }
    ensures rebuild { (s : Setting) (old : Vault) (user : UserId) (target : CloudNo) (from : List ℕ)
        (turns : List (LaneTurn Peer)) (at : Peer) → AreClouds s.shape from → ¬ Contains from target.0
        → ExecutesAll s target.0 (old.peers target.0) turns at
        → OwnLanes s.shape user target.0 turns
        → (AllTold s (target.0 ∷ from) → (after : ℕ → Peer)
        × IsRebuildCut s.shape user target.0 (served_at s target.0) from turns old.peers at after)
        → IsPartOf s old (record {
          event = events.Rebuild user target from;
          moments = quiet old.peers ++ map (turn_moment old.peers target.0) turns;
        }) (with_peer old.peers target.0 at) }
    ensures unmoved { (s : Setting) (old : Vault) (jobs : ℕ) (event : Event) → FitsEvent s.shape jobs event
        → IsPartOf s old (record { event = event; moments = [] }) old.peers }
{}

/// No line lets a cloud's count of faults fall, but for one above its last value.
pub fn law_of_counts()
    ensures step { (least : ℕ) → least < 2 ^ 64 → (s : Setting) (cloud : ℕ) (old : Vault) (event : Event)
        (answers : List Line) (moments : List Moment) (new : Vault) → VStep s old event answers moments new
        → least ≤ (old.peers cloud).faults → least ≤ (new.peers cloud).faults }
    // Nor does a whole session, a line that was begun among its lines.
    ensures session { (least : ℕ) → least < 2 ^ 64 → (clouds : ℕ → Cloud) (run : Session) (cloud : ℕ)
        → IsRun clouds run → least ≤ (clouds cloud).faults → least ≤ (run.last cloud).faults }
{}

/// Only an arm line arms: a cloud that no line of a session arms, one that was begun among them, was armed as often at its end as at
/// its start.
pub fn law_of_armings()
    ensures { (clouds : ℕ → Cloud) (run : Session) (cloud : ℕ) → IsRun clouds run
        → ((calls keep : ℕ) → ¬ Contains (script_in run) (events.Arm (cloud_no cloud) calls keep))
        → (run.last cloud).armings ≡ (clouds cloud).armings }
{}

/// A told cloud whose count of faults didn't rise in a session has no command pending in its last state: it has one list.
pub fn law_of_last_lists()
    ensures pending { (clouds : ℕ → Cloud) (run : Session) (cloud : ℕ) → IsRun clouds run
        → IsTrue (run.setting.told cloud) → ¬ Rose (clouds cloud).faults (run.last cloud).faults
        → (run.last cloud).pending ≡ None }
    ensures list { (clouds : ℕ → Cloud) (run : Session) (cloud : ℕ) (list : List Command) → IsRun clouds run
        → IsTrue (run.setting.told cloud) → ¬ Rose (clouds cloud).faults (run.last cloud).faults
        → MaySettleAs (run.last cloud) list → list ≡ (run.last cloud).list }
{}

/// Each list that a told cloud may have behind a session is within the session's rooms, at each of its fronts.
pub fn law_of_kept_rooms()
    ensures { (clouds : ℕ → Cloud) (run : Session) (cloud : ℕ) (list : List Command) → IsRun clouds run
        → IsTrue (run.setting.told cloud) → MaySettleAs (run.last cloud) list
        → IsWithin run.setting.shape run.setting.rooms list }
{}

/// An answer that says `fault` of a cloud is given only where that cloud's count of faults rose in its line. So a session says it of no
/// cloud whose count didn't rise.
pub fn law_of_faults()
    ensures step { (s : Setting) (cloud : ℕ) (old : Vault) (event : Event) (answers : List Line)
        (moments : List Moment) (new : Vault) → VStep s old event answers moments new
        → (line : Line) → Contains answers line → SaysFault line event cloud
        → Rose (old.peers cloud).faults (new.peers cloud).faults }
    ensures session { (clouds : ℕ → Cloud) (run : Session) → IsRun clouds run → FaultsRose clouds run }
{}
