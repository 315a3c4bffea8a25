//! A link over ports that asks no cloud twice for the same recipe.

ghost use Rattle.std.specs.Prelude.{◌≡◌, ◌≢◌, ◌<◌, ◌≤◌, ℕ, [], length, IfOk, slice_set};
ghost use Rattle.std.specs.Bool.{MatchBool};
ghost use Rattle.ports_link.specs.Frames.Frames.{frame_limit};
ghost use Rattle.restore_command.specs.Recalling.{kept_of};

use ports_link::{Bytes, CloudNo, NoMemory, Ports, PortsLink, ReplyBuf};
use std::alloc::Global;
use std::marker::Model;
use subset_restore::{Link, Lost};

/// The replies that are kept, by the numbers of the clouds. Contracts see the list of their contents, an empty one for each cloud of which
/// none is kept.
#[derive(Drop)]
pub struct KeptReplies {
    items: Vec<ReplyBuf>,
}

impl Model for KeptReplies {
    ghost use Rattle.std.specs.Prelude.{ℕ, List};

    ghost Value = { List (List ℕ) };

    ghost view = { λ k. k.items.items };
}

// The content is this.
fn refill(buffer: &mut ReplyBuf, content: &[u8])
    requires { length content.now ≤ frame_limit }
    ensures { buffer.new ≡ content.now }
{
    buffer.clear();
    buffer.put(content);
}

impl KeptReplies {
    /// Room for a reply of each of so many clouds, of which none is kept. The only error is want of memory.
    pub fn make(alloc: Global, count: usize) -> Result<KeptReplies, NoMemory>
        ensures len { IfOk result (λ kept. length kept ≡ count) }
        ensures none { IfOk result (λ kept. (cloud : ℕ) → kept_of kept cloud ≡ []) }
    {
        let mut items = Vec::new(alloc);
        for number in 0..count {
            items.push(ReplyBuf::make(alloc)?)?;
        }
        Ok(KeptReplies { items })
    }

    /// Puts the reply that is kept of a cloud in place of what stands in `reply`, and says whether one is.
    pub fn give(&self, cloud: usize, reply: &mut ReplyBuf) -> bool
        requires { cloud < length self.now }
        ensures { MatchBool result ((kept_of self.now cloud ≢ []) × (reply.new ≡ kept_of self.now cloud))
            (kept_of self.now cloud ≡ []) }
    {
        let kept = self.items[cloud].content();
        if kept.is_empty() {
            return false;
        }
        refill(reply, kept);
        true
    }

    /// Keeps a reply of a cloud, in place of the one before. It takes no memory.
    pub fn keep(&mut self, cloud: usize, content: &[u8])
        requires within { cloud < length self.old }
        requires few { length content.now ≤ frame_limit }
        ensures { self.new ≡ slice_set self.old cloud content.now }
    {
        refill(&mut self.items[cloud], content);
    }
}

/// Reaches clouds over ports, and keeps what each of them replies to one request: who asks for it again has the same reply, and nothing goes
/// out.
#[derive(Drop)]
pub struct RecallingLink<'a, P: Ports> {
    pub(crate) link: PortsLink<'a, P>,
    pub(crate) wanted: Bytes,
    pub(crate) kept: KeptReplies,
}

impl<'a, P: Ports> RecallingLink<'a, P> {
    ghost use Rattle.std.specs.Prelude.{◌≡◌};

    /// Gives the ports back.
    pub fn release(self) -> &'a mut P
        ensures ports { result.now ≡ self.entry.link.ports.now }
        ensures same_reference { result.ghost_name ≡ self.entry.link.ports.ghost_name }
    {
        let RecallingLink { link, .. } = self;
        link.release()
    }
}

impl<'a, P: Ports> Link for RecallingLink<'a, P> {
    ghost use Rattle.restore_command.specs.Recalling.{recalling};

    ghost tells = { recalling P.tells P.faults };

    fn ask(&mut self, cloud: CloudNo, request: &[u8], reply: &mut ReplyBuf) -> Result<(), Lost> {
        if request != self.wanted.as_slice() {
            return self.link.ask(cloud, request, reply);
        }
        if self.kept.give(cloud.0 as usize, reply) {
            return Ok(());
        }
        match self.link.ask(cloud, request, reply) {
            Ok(()) => {
                self.kept.keep(cloud.0 as usize, reply.content());
                Ok(())
            }
            Err(Lost) => Err(Lost),
        }
    }

    ghost sound = { λ _ _ _ _ none. absurd none };
}
