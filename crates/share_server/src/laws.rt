//! The laws of what stands above a server names. The calls do nothing.

ghost use Rattle.std.specs.Prelude.{◌≡◌, []};
ghost use Rattle.server_requests.specs.CdBase.shape.Shape.{Shape};
ghost use Rattle.server_requests.specs.CdEdges.area.Area.{Area};
ghost use Rattle.server_requests.specs.CdEdges.Disk.{Cloud, Image};
ghost use Rattle.server_requests.specs.JournalStart.rooms.UserRooms.{UserRooms};
ghost use Rattle.server_requests.specs.JournalStart.start.Header.{Header};
ghost use Rattle.server_requests.specs.UserDedup.Exec.{Peer};
ghost use Rattle.server_requests.specs.UserDedup.Spending.{IsWithin};
ghost use Rattle.blob_copy.specs.CloudAreas.Standing.{StandsFor};
ghost use Rattle.share_server.specs.Names.{HasNoJournal};
ghost use Rattle.share_server.specs.Serving.{IsServing};
ghost use Rattle.share_server.specs.declared.server.Server.{Server};

/// No commands. Areas that are all empty have no begun journal, areas without one stand for no commands, and these are within
/// any rooms.
pub fn law_of_no_commands()
    ensures unbegun { (image : Image) → ((area : Area) → image area ≡ []) → HasNoJournal image }
    ensures stands { (image : Image) (header : Header) → HasNoJournal image → StandsFor image header [] }
    ensures within { (shape : Shape) (rooms : UserRooms) → IsWithin shape rooms [] }
{}

/// Areas that stay keep a server's conditions: over a cloud whose areas are as they were, with each image that a crash
/// may leave, a server serves the peer that it served, with the cloud's counts. So no call of a shelf on another cloud,
/// no read and no arming ends them.
pub fn law_of_areas()
    ensures { (server : Server) (old new : Cloud) (p : Peer) → new.told ≡ old.told → new.now ≡ old.now
        → IsServing server old p
        → IsServing server new (record {
          list = p.list;
          pending = p.pending;
          faults = new.faults;
          armings = new.armings;
        }) }
{}
