//! Sending all of some bytes, and filling a buffer.

ghost use Rattle.std.specs.Prelude.{◌≡◌, ◌≤◌, length, IsTrue, IfOk, OnOk, OnErr};
ghost use Rattle.cd_edges.specs.Causes.{HasCause};
ghost use Rattle.cd_edges.specs.Ports.{Sent, SentPart, OthersStay, ReceivedSome, Fills};

use crate::{Failed, Ports};

/// Sends all the bytes on a port, in as many pieces as it takes. Where the ports fail the first bytes may have been sent, and nothing
/// is sent after them.
pub fn send_all<P: Ports>(ports: &mut P, port: u32, bytes: &[u8]) -> Result<(), Failed>
    ensures all { IsTrue (P.tells ports.old).told
        → OnOk result (Sent (P.tells ports.old) (P.tells ports.new) port bytes.now) }
    ensures part { IsTrue (P.tells ports.old).told
        → OnErr result (SentPart (P.tells ports.old) (P.tells ports.new) port bytes.now) }
    ensures others { IsTrue (P.tells ports.old).told → OthersStay (P.tells ports.old) (P.tells ports.new) port }
    ensures told { (P.tells ports.new).told ≡ (P.tells ports.old).told }
    ensures cause { HasCause (P.faults ports.old) (P.faults ports.new) result }
{
    let mut sent = 0;
    while sent < bytes.len() {
        match ports.send(port, &bytes[sent..]) {
            Ok(count) => sent += count,
            Err(Failed) => return Err(Failed),
        }
    }
    Ok(())
}

/// Fills a buffer with the bytes that come on a port, and answers how many came: fewer than it holds only where the stream ended.
pub fn receive<P: Ports>(ports: &mut P, port: u32, out: &mut [u8]) -> Result<usize, Failed>
    ensures bound { IfOk result (λ count. count ≤ length out.new) }
    ensures fills { IsTrue (P.tells ports.old).told
        → IfOk result (λ count. Fills (P.tells ports.old) (P.tells ports.new) port count out.new) }
    ensures some { IsTrue (P.tells ports.old).told
        → OnErr result (ReceivedSome (P.tells ports.old) (P.tells ports.new) port) }
    ensures others { IsTrue (P.tells ports.old).told → OthersStay (P.tells ports.old) (P.tells ports.new) port }
    ensures told { (P.tells ports.new).told ≡ (P.tells ports.old).told }
    ensures cause { HasCause (P.faults ports.old) (P.faults ports.new) result }
{
    let mut filled = 0;
    while filled < out.len() {
        match ports.recv(port, &mut out[filled..]) {
            Ok(0) => return Ok(filled),
            Ok(count) => filled += count,
            Err(Failed) => return Err(Failed),
        }
    }
    Ok(filled)
}
