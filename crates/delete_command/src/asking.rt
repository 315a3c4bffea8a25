//! Asking clouds, one after another.

ghost use Rattle.std.specs.Prelude.{◌≡◌, ◌≤◌, ◌∷◌, [], ℕ, IsTrue, OnOk, MatchOption};
ghost use Rattle.std.specs.List.{Contains};
ghost use Rattle.ports_link.specs.CdEdges.Causes.{HasCause, Rose};
ghost use Rattle.ports_link.specs.CdEdges.Ports.{OthersStay};
ghost use Rattle.deletions.specs.Frames.Frames.{IsContent};
ghost use Rattle.ports_link.specs.Hellos.{ports_of};
ghost use Rattle.ports_link.specs.Sending.{SendsOnly};
ghost use Rattle.delete_command.specs.Asks.{HearsReply};
ghost use Rattle.delete_command.specs.Steps.{IfAskLost, OneWent, Went, both as both_of};

use crate::lines::is_gone;
use deletions::{Bytes, CloudNo, NoMemory, ReplyBuf, line_of, write_line};
use ports_link::{Failed, Ports, exchange};
use std::alloc::Global;

/// Why no more clouds are asked.
#[derive(Clone, Copy)]
pub enum AskHalt {
    /// The ports failed in an ask.
    Lost,
    /// Memory ran out.
    NoMemory,
}

// The first cloud with its port, and the others.
fn next_line(lines: &[(CloudNo, u32)]) -> Option<((CloudNo, u32), &[(CloudNo, u32)])>
    ensures { MatchOption result (lines.now ≡ []) (λ x. lines.now ≡ x.0 ∷ x.1.now) }
{
    match lines {
        [] => None,
        [line, more @ ..] => Some((*line, more)),
    }
}

// Asks on a port. The reply's content is that of the first frame that came, or empty where none was to come.
fn ask_on<P: Ports>(
    ports: &mut P,
    port: u32,
    request: &[u8],
    reply: &mut ReplyBuf,
) -> Result<(), Failed>
    requires { IsContent request.now }
    ensures hears { IsTrue (P.tells ports.old).told
        → OnOk result (HearsReply request.now (P.tells ports.old) (P.tells ports.new) port reply.new) }
    ensures others { IsTrue (P.tells ports.old).told → OthersStay (P.tells ports.old) (P.tells ports.new) port }
    ensures sends { IsTrue (P.tells ports.old).told
        → SendsOnly (λ content. content ≡ request.now) (P.tells ports.old) (P.tells ports.new) }
    ensures told { (P.tells ports.new).told ≡ (P.tells ports.old).told }
    ensures cause { HasCause (P.faults ports.old) (P.faults ports.new) result }
{
    match exchange(ports, port, request, reply) {
        Ok(_) => Ok(()),
        Err(Failed) => Err(Failed),
    }
}

// Asks a cloud on its port, and appends the line of its reply. It answers whether the version is gone there.
fn ask_one<P: Ports>(
    alloc: Global,
    ports: &mut P,
    line: (CloudNo, u32),
    request: &[u8],
    reply: &mut ReplyBuf,
    text: &mut Bytes,
) -> Result<bool, AskHalt>
    requires { IsContent request.now }
    ensures went { OneWent request.now (P.tells ports.old) line result text.old text.new (P.tells ports.new) }
    ensures others { IsTrue (P.tells ports.old).told → OthersStay (P.tells ports.old) (P.tells ports.new) line.1 }
    ensures sends { IsTrue (P.tells ports.old).told
        → SendsOnly (λ content. content ≡ request.now) (P.tells ports.old) (P.tells ports.new) }
    ensures told { (P.tells ports.new).told ≡ (P.tells ports.old).told }
    ensures later { P.faults ports.old ≤ P.faults ports.new }
    ensures lost { IfAskLost result (Rose (P.faults ports.old) (P.faults ports.new)) }
{
    let (cloud, port) = line;
    match ask_on(ports, port, request, reply) {
        Ok(()) => {}
        Err(Failed) => return Err(AskHalt::Lost),
    }
    let said = match line_of(alloc, cloud, reply.content()) {
        Ok(said) => said,
        Err(NoMemory) => return Err(AskHalt::NoMemory),
    };
    match write_line(&said, text) {
        Ok(()) => Ok(is_gone(&said)),
        Err(NoMemory) => Err(AskHalt::NoMemory),
    }
}

// What came of one cloud and then of the others.
fn both(first: bool, more: Result<bool, AskHalt>) -> Result<bool, AskHalt>
    ensures { result ≡ both_of first more }
{
    match more {
        Ok(more) => Ok(first && more),
        Err(halt) => Err(halt),
    }
}

/// Asks these clouds the same, one after another and each on its port, and appends the lines of their replies. It answers
/// whether the version is gone at all of them. It stops where the ports fail, and where memory runs out.
pub fn ask_each<P: Ports>(
    alloc: Global,
    ports: &mut P,
    lines: &[(CloudNo, u32)],
    request: &[u8],
    reply: &mut ReplyBuf,
    text: &mut Bytes,
) -> Result<bool, AskHalt>
    requires { IsContent request.now }
    ensures went { Went request.now (P.tells ports.old) lines.now result text.old text.new (P.tells ports.new) }
    ensures others { IsTrue (P.tells ports.old).told → (port : ℕ) → ¬ Contains (ports_of lines.now) port
        → (P.tells ports.new).port port ≡ (P.tells ports.old).port port }
    ensures sends { IsTrue (P.tells ports.old).told
        → SendsOnly (λ content. content ≡ request.now) (P.tells ports.old) (P.tells ports.new) }
    ensures told { (P.tells ports.new).told ≡ (P.tells ports.old).told }
    ensures later { P.faults ports.old ≤ P.faults ports.new }
    ensures lost { IfAskLost result (Rose (P.faults ports.old) (P.faults ports.new)) }
{
    let Some((line, more)) = next_line(lines) else {
        return Ok(true);
    };
    let first = match ask_one(alloc, ports, line, request, reply, text) {
        Ok(first) => first,
        Err(halt) => return Err(halt),
    };
    both(first, ask_each(alloc, ports, more, request, reply, text))
}
