//! Hello, asked of a port, and the clouds that replied.

ghost use Rattle.std.specs.Prelude.{◌≡◌, ◌≤◌, [], length, All, IsTrue, IfOk, OnOk, option_map};
ghost use Rattle.transcript.specs.CdEdges.Causes.{HasCause};
ghost use Rattle.transcript.specs.CdEdges.Ports.{OthersStay};
ghost use Rattle.ports_link.specs.Greetings.{AreAsAsked, HasShape, IsOfFirst};
ghost use Rattle.ports_link.specs.Hellos.{AreGreeted, Hears, NextGreeted, hello, lines_by};
ghost use Rattle.ports_link.specs.Sending.{SendsOnly};

use crate::exchange;
use crate::judging::{AskedClouds, Greeting};
use std::alloc::Global;
use transcript::{Failed, Ports};
use user_dedup::{CloudNo, NoMemory, ReplyBuf, Shape};

/// The clouds that were greeted.
#[derive(Drop)]
pub struct Greeted {
    /// The shape of which all of them are.
    pub shape: Shape,
    /// Each cloud with its port, in the order of the addresses, as `PortsLink::over` takes them.
    pub lines: Vec<(CloudNo, u32)>,
}

// The content of the request.
const HELLO: [u8; 1] = [1];

/// Asks Hello of a port. The reply's content is that of the first frame that came, or empty where none was to come.
pub fn ask_hello<P: Ports>(ports: &mut P, port: u32, reply: &mut ReplyBuf) -> Result<(), Failed>
    ensures hears { IsTrue (P.tells ports.old).told
        → OnOk result (Hears (P.tells ports.old) (P.tells ports.new) port reply.new) }
    ensures sends { IsTrue (P.tells ports.old).told
        → SendsOnly (λ content. content ≡ hello) (P.tells ports.old) (P.tells ports.new) }
    ensures others { IsTrue (P.tells ports.old).told → OthersStay (P.tells ports.old) (P.tells ports.new) port }
    ensures opened { IsTrue (P.tells ports.old).told → (P.tells ports.new).opened ≡ (P.tells ports.old).opened }
    ensures told { (P.tells ports.new).told ≡ (P.tells ports.old).told }
    ensures cause { HasCause (P.faults ports.old) (P.faults ports.new) result }
{
    match exchange(ports, port, &HELLO, reply) {
        Ok(_) => Ok(()),
        Err(Failed) => Err(Failed),
    }
}

// The first of the replies with its port, and the others.
fn next_greeted<'a>(
    greetings: &'a [Greeting],
    dialled: &'a [u32],
) -> Option<(u8, u32, &'a [Greeting], &'a [u32])>
    ensures { NextGreeted greetings.now dialled.now (option_map (λ x. (x.0, x.1, x.2.now, x.3.now)) result) }
{
    match greetings {
        [] => None,
        [greeting, more @ ..] => match dialled {
            [] => None,
            [port, rest @ ..] => Some((greeting.cloud, *port, more, rest)),
        },
    }
}

// Each cloud with its port.
fn lines_of(
    alloc: Global,
    greetings: &[Greeting],
    dialled: &[u32],
) -> Result<Vec<(CloudNo, u32)>, NoMemory>
    ensures { IfOk result (λ lines. lines.items ≡ lines_by greetings.now dialled.now) }
{
    let mut lines = Vec::new(alloc);
    let mut replies = greetings;
    let mut ports = dialled;
    'lines: loop {
        let Some((cloud, port, more, rest)) = next_greeted(replies, ports) else {
            return Ok(lines);
        };
        lines.push((CloudNo(cloud), port))?;
        replies = more;
        ports = rest;
    }
}

// The shape of the first of these.
fn shape_of_first(greetings: &[Greeting]) -> Shape
    requires some { 1 ≤ length greetings.now }
    requires shaped { All HasShape greetings.now }
    ensures { IsOfFirst greetings.now result }
{
    match greetings {
        [] => unreachable!(),
        [first, ..] => match Shape::of(first.n, first.k) {
            Some(shape) => shape,
            None => unreachable!(),
        },
    }
}

/// The clouds that replied so, with their ports.
pub fn together(
    alloc: Global,
    asked: AskedClouds,
    greetings: &[Greeting],
    dialled: &[u32],
) -> Result<Greeted, NoMemory>
    requires some { 1 ≤ length dialled.now }
    requires long { length greetings.now ≡ length dialled.now }
    requires asked { AreAsAsked asked (length dialled.now) [] greetings.now }
    ensures { IfOk result (λ greeted. AreGreeted asked dialled.now greetings.now greeted) }
{
    let shape = shape_of_first(greetings);
    match lines_of(alloc, greetings, dialled) {
        Ok(lines) => Ok(Greeted { shape, lines }),
        Err(NoMemory) => Err(NoMemory),
    }
}
