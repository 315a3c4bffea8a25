//! What a job asks, a cloud reads.

ghost use Rattle.std.specs.Prelude.{◌≡◌, ◌<◌, ◌≤◌, ◌^◌, ℕ, List, length, Some, Ok, false};
ghost use Rattle.grammar.specs.CdBase.Limits.{IsPath};
ghost use Rattle.grammar.specs.CdBase.shape.Shape.{Shape};
ghost use Rattle.upload_job.specs.Frames.Frames.{frame_limit};
ghost use Rattle.upload_job.specs.Messages.request.Request.{Request};
ghost use Rattle.upload_job.specs.Messages.reply.Reply.{Reply};
ghost use Rattle.upload_job.specs.Messages.Requests.{request_bytes, FitsRequest};
ghost use Rattle.upload_job.specs.UserDedup.Requests.{HasRecipe, asked_at};
ghost use Rattle.upload_job.specs.Recipe.Spelling.{file_limit};
ghost use Rattle.upload_job.specs.Lanes.{LaneView, lanes_resumed, request_at};
ghost use Rattle.upload_job.specs.Upload.{FileVersion};
ghost use Rattle.lane_steps.specs.Reached.{IsReached, IsOnItsWay};
ghost use Rattle.lane_steps.specs.Runs.{Progress, request_of, progress_after, stops_at, left_of};

/// Each request of a lane to which a job comes is one that a cloud of the shape reads as it is, and fits into
/// a frame.
pub fn law_of_lane_requests()
    // a cloud of the shape reads what is written as the request
    ensures read { (shape : Shape) (lanes : List LaneView) (i : ℕ) (request : Request) → IsReached shape lanes
        → request_at lanes i ≡ Some request
        → asked_at shape (request_bytes request) ≡ Ok request }
    // it has a byte at least
    ensures some { (shape : Shape) (lanes : List LaneView) (i : ℕ) (request : Request) → IsReached shape lanes
        → request_at lanes i ≡ Some request
        → 1 ≤ length (request_bytes request) }
    // and no more than a frame takes
    ensures framed { (shape : Shape) (lanes : List LaneView) (i : ℕ) (request : Request) → IsReached shape lanes
        → request_at lanes i ≡ Some request
        → length (request_bytes request) ≤ frame_limit }
    // each field is in its range, and the recipe of a Commit is one of the shape
    ensures fits { (shape : Shape) (lanes : List LaneView) (i : ℕ) (request : Request) → IsReached shape lanes
        → request_at lanes i ≡ Some request
        → FitsRequest request × HasRecipe shape request }
{}

/// The same of a job for all clouds or for one alone, all of it as one.
pub fn law_of_any_requests()
    ensures { (shape : Shape) (lanes : List LaneView) (i : ℕ) (request : Request)
        → IsOnItsWay shape lanes → request_at lanes i ≡ Some request
        → (asked_at shape (request_bytes request) ≡ Ok request)
        × (1 ≤ length (request_bytes request)) × (length (request_bytes request) ≤ frame_limit)
        × (FitsRequest request × HasRecipe shape request) }
{}

/// A lane that goes on until a reply stops it comes to an end, whatever its cloud replies: each reply that
/// doesn't stop it leaves less.
pub fn law_of_ends()
    ensures { (p : Progress) (request : Request) (reply : Reply) → request_of p.lane ≡ Some request
        → stops_at p.lacked reply ≡ false → left_of (progress_after p reply) < left_of p }
{}

/// The lanes of a job that goes on with a version of a file, whichever of them have entered it, are ones to which a job
/// comes: a lane that has entered its version is one whose cloud knew each of its batches.
pub fn law_of_resumed_lanes()
    ensures { (shape : Shape) (v : FileVersion) (committed : List ℕ) → IsPath v.path → length v.file ≤ file_limit
        → v.user.0 < 2 ^ 32 → v.number.0 < 2 ^ 64 → IsReached shape (lanes_resumed shape v committed) }
{}
