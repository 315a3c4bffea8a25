//! A link over ports.

ghost use Rattle.std.specs.Prelude.{◌≡◌, ℕ, [], ◌∷◌, length, All, Some, IsTrue, IfOk, OnErr, MatchOption};
ghost use Rattle.transcript.specs.CdEdges.Causes.{HasCause};
ghost use Rattle.user_dedup.specs.Frames.Frames.{IsContent};
ghost use Rattle.transcript.specs.CdEdges.Ports.{OthersStay};
ghost use Rattle.user_dedup.specs.CdBase.Numbers.{numbers_of};
ghost use Rattle.ports_link.specs.Lines.{AsksOn, has_port, lines_for};
ghost use Rattle.ports_link.specs.Sending.{SendsOnly};

use crate::asking::{exchange, send_frame};
use crate::lines::{CloudLine, Lines};
use std::alloc::Global;
use transcript::{Failed, Ports};
use user_dedup::{CloudNo, Clouds, Link, Lost, NoMemory, ReplyBuf, Shape};

/// Reaches clouds over ports: a request goes out as a frame, and the reply comes back as one. Once no whole frame was to come on a
/// port, each later reply of that cloud is empty too.
#[derive(Drop)]
pub struct PortsLink<'a, P: Ports> {
    pub(crate) ports: &'a mut P,
    pub(crate) shape: Shape,
    pub(crate) lines: Lines,
}

// The first cloud with its port, and the others.
fn next_dialled(dialled: &[(CloudNo, u32)]) -> Option<(CloudNo, u32, &[(CloudNo, u32)])>
    ensures { MatchOption result (dialled.now ≡ []) (λ x. dialled.now ≡ (x.0, x.1) ∷ x.2.now) }
{
    match dialled {
        [] => None,
        [(cloud, port), more @ ..] => Some((*cloud, *port, more)),
    }
}

/// A line for each number of a cloud, with a port for each of these clouds; a cloud that is named twice has the last of its ports. The
/// only error is want of memory.
pub fn lines_of(alloc: Global, dialled: &[(CloudNo, u32)]) -> Result<Lines, NoMemory>
    ensures { IfOk result (λ lines. lines.items.items ≡ lines_for dialled.now) }
{
    let mut lines = Lines::none(alloc)?;
    let mut rest = dialled;
    'lines: loop {
        let Some((cloud, port, more)) = next_dialled(rest) else {
            return Ok(lines);
        };
        lines.set(
            cloud,
            CloudLine {
                port: Some(port),
                ended: false,
            },
        );
        rest = more;
    }
}

// Whether each of these clouds has a port.
fn have_ports(lines: &Lines, clouds: &[CloudNo]) -> bool
    ensures { IsTrue result → All (λ cloud. IsTrue (has_port lines.now.items.items cloud)) (numbers_of clouds.now) }
{
    match clouds {
        [] => true,
        [cloud, more @ ..] => {
            if lines.get(*cloud).port.is_some() {
                have_ports(lines, more)
            } else {
                false
            }
        }
    }
}

impl<'a, P: Ports> PortsLink<'a, P> {
    ghost use Rattle.std.specs.Prelude.{◌≡◌, ℕ, IfOk, IsTrue};
    ghost use Rattle.std.specs.List.{Contains};
    ghost use Rattle.ports_link.specs.Lines.{lines_for};
    ghost use Rattle.ports_link.specs.Tells.{telling};

    /// A link to these clouds, each on its port, of a store of this shape; a cloud that is named twice has the last of its ports. The
    /// only error is want of memory.
    pub fn over(
        alloc: Global,
        ports: &'a mut P,
        shape: Shape,
        dialled: &[(CloudNo, u32)],
    ) -> Result<PortsLink<'a, P>, NoMemory>
        ensures lines { IfOk result (λ link. link.lines.items.items ≡ lines_for dialled.now) }
        ensures shape { IfOk result (λ link. (telling P.tells P.faults).shape link ≡ shape) }
        ensures ports { IfOk result (λ link. link.ports.now ≡ ports.old) }
        ensures same_reference { IfOk result (λ link. link.ports.ghost_name ≡ ports.entry.ghost_name) }
    {
        let lines = lines_of(alloc, dialled)?;
        Ok(PortsLink {
            ports,
            shape,
            lines,
        })
    }

    /// A link over these lines, of a store of this shape. Who wants to know of the ports what came of it makes the lines first, and at the
    /// end takes them back by `release`.
    pub fn of(ports: &'a mut P, shape: Shape, lines: Lines) -> PortsLink<'a, P>
        ensures lines { result.lines ≡ lines }
        ensures shape { (telling P.tells P.faults).shape result ≡ shape }
        ensures ports { result.ports.now ≡ ports.old }
        ensures same_reference { result.ports.ghost_name ≡ ports.entry.ghost_name }
    {
        PortsLink {
            ports,
            shape,
            lines,
        }
    }

    /// Gives the ports back.
    pub fn release(self) -> &'a mut P
        ensures ports { result.now ≡ self.entry.ports.now }
        ensures same_reference { result.ghost_name ≡ self.entry.ports.ghost_name }
    {
        let PortsLink { ports, .. } = self;
        ports
    }

    /// Whether it reaches this cloud.
    pub fn reaches(&self, cloud: CloudNo) -> bool
        ensures { result ≡ (telling P.tells P.faults).reaches self.now cloud.0 }
    {
        self.lines.get(cloud).port.is_some()
    }

    /// Whether it reaches each of these clouds, as a restore from them asks.
    pub fn reaches_all(&self, clouds: &Clouds) -> bool
        ensures { IsTrue result → (cloud : ℕ) → Contains clouds.now cloud
            → IsTrue ((telling P.tells P.faults).reaches self.now cloud) }
    {
        have_ports(&self.lines, clouds.as_slice())
    }
}

// Asks on a port.
fn ask_on<P: Ports>(
    ports: &mut P,
    port: u32,
    line: CloudLine,
    request: &[u8],
    reply: &mut ReplyBuf,
) -> Result<CloudLine, Failed>
    requires content { IsContent request.now }
    requires port { line.port ≡ Some port }
    ensures asks { IsTrue (P.tells ports.old).told
        → IfOk result (λ after. AsksOn (P.tells ports.old) (P.tells ports.new) port line after request.now reply.new) }
    ensures others { IsTrue (P.tells ports.old).told → OthersStay (P.tells ports.old) (P.tells ports.new) port }
    ensures sends { IsTrue (P.tells ports.old).told
        → SendsOnly (λ content. content ≡ request.now) (P.tells ports.old) (P.tells ports.new) }
    ensures told { (P.tells ports.new).told ≡ (P.tells ports.old).told }
    ensures cause { HasCause (P.faults ports.old) (P.faults ports.new) result }
    ensures port { IfOk result (λ after. after.port ≡ line.port) }
{
    if line.ended {
        send_frame(ports, port, request)?;
        reply.clear();
        return Ok(line);
    }
    let heard = exchange(ports, port, request, reply)?;
    Ok(CloudLine {
        port: line.port,
        ended: !heard,
    })
}

impl<'a, P: Ports> Link for PortsLink<'a, P> {
    ghost use Rattle.std.specs.Prelude.{ℕ};
    ghost use Rattle.user_dedup.specs.Link.{Talk};
    ghost use Rattle.ports_link.specs.Tells.{telling, HasTalk};

    ghost tells = { telling P.tells P.faults };

    ghost talk = { λ link. HasTalk (P.tells link.ports.now) link.lines.items.items };

    fn ask(&mut self, cloud: CloudNo, request: &[u8], reply: &mut ReplyBuf) -> Result<(), Lost> {
        let line = self.lines.get(cloud);
        let Some(port) = line.port else {
            unreachable!()
        };
        match ask_on(self.ports, port, line, request, reply) {
            Ok(after) => {
                self.lines.set(cloud, after);
                Ok(())
            }
            Err(Failed) => Err(Lost),
        }
    }

    ghost sound = { λ _ _ _ _ none. absurd none };
}
