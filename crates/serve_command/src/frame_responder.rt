//! What answers requests.

ghost use Rattle.std.specs.Prelude.{◌≡◌, ℕ, List, []};
ghost use Rattle.ports_link.specs.Frames.Frames.{IsContent};

use ports_link::ReplyBuf;

/// Answers requests, one after another.
pub trait Responder {
    /// What one answer does: from a state, by a request, with a reply, to a state.
    ghost step: { Self → List ℕ → List ℕ → Self → Type 0 };

    /// The ghost names of the loans that it holds. No answer changes them, so who lent them knows what comes back.
    ghost loans: { Self → List ℕ } = { λ _. [] };

    /// The reply to a request becomes the content. Both are contents of frames.
    fn respond(&mut self, request: &[u8], reply: &mut ReplyBuf)
        requires { IsContent request.now }
        ensures steps { step self.old request.now reply.new self.new }
        ensures content { IsContent reply.new }
        ensures loans { loans self.new ≡ loans self.old };
}
