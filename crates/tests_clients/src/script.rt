//! A link whose replies were prepared.

ghost use Rattle.std.specs.Prelude.{◌≡◌, ◌≢◌, ◌≤◌, ℕ, IsTrue, OnOk, Err, length};
ghost use Rattle.cd_base.specs.declared.shape.Shape.{Shape};
ghost use Rattle.user_dedup.specs.Requests.{asked_at};
ghost use Rattle.tests_clients.specs.Tells.{telling, tells_sound};

use cd_base::{Bytes, CloudNo, NoMemory, Shape};
use frames::ReplyBuf;
use messages::RequestView;
use std::alloc::Global;
use user_dedup::{Link, Lost};

/// Replies, one for each ask, in order, whichever cloud is asked. An ask behind the last reply is lost, and so is one that doesn't
/// ask to read. The link tells nothing of its clouds.
#[derive(Drop)]
pub struct Script {
    shape: Shape,
    replies: Vec<Bytes>,
    next: usize,
    losses: u64,
}

// Whether the content asks for a recipe or for shares.
fn is_reading(content: &[u8]) -> bool
    requires { length content.now ≤ 4194304 }
    ensures { IsTrue result → (shape : Shape) (at : ℕ) → asked_at shape content.now ≢ Err at }
{
    match RequestView::check(content) {
        Ok(RequestView::GetRecipe { .. }) => true,
        Ok(RequestView::GetShares { .. }) => true,
        Ok(RequestView::Hello) => false,
        Ok(RequestView::Query { .. }) => false,
        Ok(RequestView::Put { .. }) => false,
        Ok(RequestView::Commit { .. }) => false,
        Ok(RequestView::List { .. }) => false,
        Ok(RequestView::Delete { .. }) => false,
        Err(_) => false,
    }
}

impl Script {
    /// No replies.
    pub fn new(alloc: Global, shape: Shape) -> Script {
        Script {
            shape,
            replies: Vec::new(alloc),
            next: 0,
            losses: 0,
        }
    }

    /// The shape of the store.
    pub fn shape(&self) -> Shape
        ensures { result ≡ telling.shape self.now }
    {
        self.shape
    }

    /// Appends a reply. For want of memory nothing changes.
    pub fn push(&mut self, reply: Bytes) -> Result<(), NoMemory> {
        self.replies.push(reply)?;
        Ok(())
    }

    /// Puts a reply in place of the one at this place, if there is one.
    pub fn replace(&mut self, place: usize, reply: Bytes) {
        if place < self.replies.len() {
            self.replies[place] = reply;
        }
    }

    /// Drops all replies but so many.
    pub fn cut(&mut self, count: usize) {
        self.replies.truncate(count);
    }

    /// How many replies weren't asked for.
    pub fn left(&self) -> usize {
        self.replies.len().saturating_sub(self.next)
    }

    // Answers content with the next reply.
    fn take(&mut self, content: &[u8], reply: &mut ReplyBuf) -> Result<(), Lost>
        requires { length content.now ≤ 4194304 }
        ensures reads { OnOk result ((shape : Shape) (at : ℕ) → asked_at shape content.now ≢ Err at) }
        ensures shape { self.new.shape ≡ self.old.shape }
        ensures losses { self.new.losses ≡ self.old.losses }
    {
        if !is_reading(content) {
            return Err(Lost);
        }
        let Some(bytes) = self.replies.get(self.next) else {
            return Err(Lost);
        };
        reply.clear();
        if bytes.len() <= 4_194_304 {
            reply.put(bytes.as_slice());
        }
        self.next = self.next.saturating_add(1);
        Ok(())
    }
}

impl Link for Script {
    ghost tells = { telling };

    fn ask(&mut self, _cloud: CloudNo, request: &[u8], reply: &mut ReplyBuf) -> Result<(), Lost> {
        match self.take(request, reply) {
            Ok(()) => Ok(()),
            Err(Lost) => {
                self.losses = self.losses.saturating_add(1);
                Err(Lost)
            }
        }
    }

    ghost sound = { tells_sound };
}
