//! What asks clouds.

ghost use Rattle.std.specs.Prelude.{◌≡◌, ℕ, ◌≤◌, IsTrue, IsOk, OnErr, Ok, Err, length};
ghost use Rattle.cd_edges.specs.Causes.{Rose};
ghost use Rattle.messages.specs.Frames.Frames.{frame_limit};
ghost use Rattle.messages.specs.declared.request.Request.{Request};
ghost use Rattle.user_dedup.specs.Requests.{asked_at};
ghost use Rattle.user_dedup.specs.Link.{LinkTelling, Talk, Asks, AsksNothing, TellsSound, LeavesOthers, TakesFirstReply, SaysNothingElse, exchange_of};

use journal_start::CloudNo;
use messages::ReplyBuf;

/// A request or its reply was lost on the way. Whether the cloud took the request isn't known.
#[derive(Clone, Copy)]
pub struct Lost;

/// What asks clouds: it passes on a request and takes the reply.
pub trait Link {
    // Which clouds it reaches, and what they stand for.
    ghost tells: { LinkTelling Self };

    // What was said with a cloud, by its number. A link that tells none of it keeps the other clauses.
    ghost talk: { Self → ℕ → Talk → Type 0 } = { λ _ _ _. ⊥ };

    /// Asks a cloud, which the link reaches, with content of a frame. After Ok the reply's content is that of the cloud's reply,
    /// in place of what stood there: that of the request, if the content is one, and else Malformed with the first place that
    /// fails. Lost comes only where the count of losses rose in this call; then the cloud executed the request, or stays as it was,
    /// and nothing is known of the reply buffer. The other clouds stay as they were.
    fn ask(&mut self, cloud: CloudNo, request: &[u8], reply: &mut ReplyBuf) -> Result<(), Lost>
        requires reached { IsTrue (tells.reaches self.old cloud.0) }
        requires some { 1 ≤ length request.now }
        requires framed { length request.now ≤ frame_limit }
        ensures lost { OnErr result (Rose (tells.losses self.old) (tells.losses self.new)) }
        ensures later { tells.losses self.old ≤ tells.losses self.new }
        ensures lossless { IsTrue (tells.lossless self.old) → IsOk result × IsTrue (tells.lossless self.new) }
        ensures exec { (r : Request) → asked_at (tells.shape self.old) request.now ≡ Ok r
            → Asks tells cloud.0 self.old r reply.new result self.new }
        ensures malformed { (at : ℕ) → asked_at (tells.shape self.old) request.now ≡ Err at
            → AsksNothing tells cloud.0 self.old at reply.new result self.new }
        ensures others { LeavesOthers tells cloud.0 self.old self.new }
        // What else the link says of an ask.
        ensures passes { tells.passes self.old (exchange_of cloud.0 request.now result reply.new) self.new }
        // What was said with the clouds.
        ensures says { TakesFirstReply talk cloud.0 self.old request.now reply.new result self.new }
        ensures says_else { SaysNothingElse talk cloud.0 self.old self.new };

    // Each told cloud stands for sound lists.
    ghost sound: { (link : Self) → TellsSound tells link };
}
