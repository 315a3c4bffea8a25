//! One request and its reply.

ghost use Rattle.std.specs.Prelude.{◌≡◌, ◌+◌, ◌-◌, ◌≤◌, ◌<◌, [], ◌++◌, length, take, drop, min, IsTrue, IsFalse, IfOk, OnErr};
ghost use Rattle.std.specs.Int.{w32, to_be_bytes};
ghost use Rattle.transcript.specs.CdEdges.Causes.{HasCause};
ghost use Rattle.user_dedup.specs.Frames.Frames.{IsContent, IsLength, frame, frame_limit};
ghost use Rattle.transcript.specs.CdEdges.Ports.{OthersStay, Received, Sent, SentPart};
ghost use Rattle.ports_link.specs.Exchange.{Broke, Came, CameNone, Cut, Ended, HasRepliedOnPort, Whole};
ghost use Rattle.ports_link.specs.Sending.{SendsOnly};

use transcript::{Failed, Ports, receive, send_all};
use user_dedup::{ReplyBuf, header, is_length};

// How many bytes of a frame go out with its length: a request of 256 fingerprints is one piece.
const FRONT: usize = 9216;

// How many bytes of a reply are taken at a time, at most.
const PIECE: usize = 65_536;

// The number that four bytes are.
fn length_of(bytes: [u8; 4]) -> u32
    ensures { to_be_bytes w32 result ≡ bytes }
{
    u32::from_be_bytes(bytes)
}

// The first bytes of some.
fn first(bytes: &[u8], count: usize) -> &[u8]
    requires { count ≤ length bytes.now }
    ensures { result.now ≡ take count bytes.now }
{
    &bytes[..count]
}

// What stands behind the first bytes.
fn behind(bytes: &[u8], count: usize) -> &[u8]
    requires { count ≤ length bytes.now }
    ensures { result.now ≡ drop count bytes.now }
{
    &bytes[count..]
}

// Puts the length of a content and its first bytes, as many as there is room for, in front of a buffer. It says how many of
// them.
fn put_front(buffer: &mut [u8], content: &[u8]) -> usize
    requires content { IsContent content.now }
    requires room { 4 ≤ length buffer.old }
    ensures count { result ≤ length content.now }
    ensures within { 4 + result ≤ length buffer.new }
    ensures front { take (4 + result) buffer.new ≡ to_be_bytes w32 (length content.now) ++ take result content.now }
{
    let (length, rest) = buffer.split_at_mut(4);
    length.copy_from_slice(&header(content.len() as u32));
    let count = content.len().min(rest.len());
    rest[..count].copy_from_slice(first(content, count));
    count
}

// Sends the frame of a content: its first bytes by way of a buffer, with the length in front of them.
fn send_by<P: Ports>(
    ports: &mut P,
    port: u32,
    content: &[u8],
    buffer: &mut [u8],
) -> Result<(), Failed>
    requires content { IsContent content.now }
    requires room { 4 ≤ length buffer.old }
    ensures sent { IsTrue (P.tells ports.old).told
        → IfOk result (λ _. Sent (P.tells ports.old) (P.tells ports.new) port (frame content.now)) }
    ensures part { IsTrue (P.tells ports.old).told
        → OnErr result (SentPart (P.tells ports.old) (P.tells ports.new) port (frame content.now)) }
    ensures others { IsTrue (P.tells ports.old).told → OthersStay (P.tells ports.old) (P.tells ports.new) port }
    ensures opened { IsTrue (P.tells ports.old).told → (P.tells ports.new).opened ≡ (P.tells ports.old).opened }
    ensures told { (P.tells ports.new).told ≡ (P.tells ports.old).told }
    ensures cause { HasCause (P.faults ports.old) (P.faults ports.new) result }
{
    let count = put_front(buffer, content);
    match send_all(ports, port, first(buffer, 4 + count)) {
        Ok(()) => {}
        Err(Failed) => return Err(Failed),
    }
    match send_all(ports, port, behind(content, count)) {
        Ok(()) => Ok(()),
        Err(Failed) => Err(Failed),
    }
}

/// Sends the frame of a content; that of at most 9,212 bytes is handed to the ports as one piece. Where the ports fail its first
/// bytes may have been sent.
pub fn send_frame<P: Ports>(ports: &mut P, port: u32, request: &[u8]) -> Result<(), Failed>
    requires { IsContent request.now }
    ensures sent { IsTrue (P.tells ports.old).told
        → IfOk result (λ _. Sent (P.tells ports.old) (P.tells ports.new) port (frame request.now)) }
    ensures part { IsTrue (P.tells ports.old).told
        → OnErr result (SentPart (P.tells ports.old) (P.tells ports.new) port (frame request.now)) }
    ensures others { IsTrue (P.tells ports.old).told → OthersStay (P.tells ports.old) (P.tells ports.new) port }
    ensures opened { IsTrue (P.tells ports.old).told → (P.tells ports.new).opened ≡ (P.tells ports.old).opened }
    ensures told { (P.tells ports.new).told ≡ (P.tells ports.old).told }
    ensures cause { HasCause (P.faults ports.old) (P.faults ports.new) result }
{
    let mut buffer = [0; FRONT];
    send_by(ports, port, request, &mut buffer)
}

// Takes bytes that come into a piece, and appends them. It answers how many came, 0 where the stream ended.
fn take_some<P: Ports>(
    ports: &mut P,
    port: u32,
    piece: &mut [u8],
    reply: &mut ReplyBuf,
) -> Result<usize, Failed>
    requires some { 0 < length piece.old }
    requires room { length reply.old + length piece.old ≤ frame_limit }
    ensures piece { length piece.new ≡ length piece.old }
    ensures bound { IfOk result (λ count. count ≤ length piece.old) }
    ensures long { IfOk result (λ count. length reply.new ≡ length reply.old + count) }
    ensures came { IsTrue (P.tells ports.old).told
        → IfOk result (λ count. 0 < count → Came (P.tells ports.old) (P.tells ports.new) port reply.old reply.new) }
    ensures ended { IsTrue (P.tells ports.old).told
        → IfOk result (λ count. count ≡ 0 → Ended (P.tells ports.old) (P.tells ports.new) port) }
    ensures unsent { IsTrue (P.tells ports.old).told
        → ((P.tells ports.new).port port).sent ≡ ((P.tells ports.old).port port).sent }
    ensures others { IsTrue (P.tells ports.old).told → OthersStay (P.tells ports.old) (P.tells ports.new) port }
    ensures opened { IsTrue (P.tells ports.old).told → (P.tells ports.new).opened ≡ (P.tells ports.old).opened }
    ensures told { (P.tells ports.new).told ≡ (P.tells ports.old).told }
    ensures cause { HasCause (P.faults ports.old) (P.faults ports.new) result }
{
    let count = match ports.recv(port, piece) {
        Ok(count) => count,
        Err(Failed) => return Err(Failed),
    };
    reply.put(first(piece, count));
    Ok(count)
}

// Takes a content of so many bytes, by way of a piece. It answers whether all of them came.
fn take_content<P: Ports>(
    ports: &mut P,
    port: u32,
    count: usize,
    piece: &mut [u8],
    reply: &mut ReplyBuf,
) -> Result<bool, Failed>
    requires piece { 0 < length piece.old }
    requires empty { reply.old ≡ [] }
    requires room { count ≤ frame_limit }
    ensures whole { IsTrue (P.tells ports.old).told
        → IfOk result (λ all. IsTrue all → Whole (P.tells ports.old) (P.tells ports.new) port count reply.new) }
    ensures cut { IsTrue (P.tells ports.old).told
        → IfOk result (λ all. IsFalse all → Cut (P.tells ports.old) (P.tells ports.new) port count) }
    ensures unsent { IsTrue (P.tells ports.old).told
        → ((P.tells ports.new).port port).sent ≡ ((P.tells ports.old).port port).sent }
    ensures others { IsTrue (P.tells ports.old).told → OthersStay (P.tells ports.old) (P.tells ports.new) port }
    ensures opened { IsTrue (P.tells ports.old).told → (P.tells ports.new).opened ≡ (P.tells ports.old).opened }
    ensures told { (P.tells ports.new).told ≡ (P.tells ports.old).told }
    ensures cause { HasCause (P.faults ports.old) (P.faults ports.new) result }
{
    let mut left = count;
    while left > 0 {
        let room = left.min(piece.len());
        let came = take_some(ports, port, &mut piece[..room], reply)?;
        if came == 0 {
            return Ok(false);
        }
        left -= came;
    }
    Ok(true)
}

// Takes a reply's frame. It answers whether one came.
fn take_frame<P: Ports>(ports: &mut P, port: u32, reply: &mut ReplyBuf) -> Result<bool, Failed>
    requires empty { reply.old ≡ [] }
    ensures whole { IsTrue (P.tells ports.old).told
        → IfOk result (λ all. IsTrue all
        → IsContent reply.new × Received (P.tells ports.old) (P.tells ports.new) port (frame reply.new)) }
    ensures none { IsTrue (P.tells ports.old).told
        → IfOk result (λ all. IsFalse all → CameNone (P.tells ports.old) (P.tells ports.new) port) }
    ensures unsent { IsTrue (P.tells ports.old).told
        → ((P.tells ports.new).port port).sent ≡ ((P.tells ports.old).port port).sent }
    ensures others { IsTrue (P.tells ports.old).told → OthersStay (P.tells ports.old) (P.tells ports.new) port }
    ensures opened { IsTrue (P.tells ports.old).told → (P.tells ports.new).opened ≡ (P.tells ports.old).opened }
    ensures told { (P.tells ports.new).told ≡ (P.tells ports.old).told }
    ensures cause { HasCause (P.faults ports.old) (P.faults ports.new) result }
{
    let mut front = [0; 4];
    let count = receive(ports, port, &mut front)?;
    if count < 4 {
        return Ok(false);
    }
    let len = length_of(front);
    if !is_length(len) {
        return Ok(false);
    }
    let mut piece = [0; PIECE];
    take_content(ports, port, len as usize, &mut piece, reply)
}

/// Sends a request's frame on a port, and takes one frame that comes there. It answers whether one came: then the reply's content is
/// that of the frame, and else it is empty. Where the ports fail the frame was sent, or its first bytes, and nothing else.
pub fn exchange<P: Ports>(
    ports: &mut P,
    port: u32,
    request: &[u8],
    reply: &mut ReplyBuf,
) -> Result<bool, Failed>
    requires { IsContent request.now }
    ensures replied { IsTrue (P.tells ports.old).told
        → IfOk result (λ all. IsTrue all
        → HasRepliedOnPort (P.tells ports.old) (P.tells ports.new) port request.now reply.new) }
    ensures broke { IsTrue (P.tells ports.old).told
        → IfOk result (λ all. IsFalse all → Broke (P.tells ports.old) (P.tells ports.new) port request.now) }
    ensures empty { IfOk result (λ all. IsFalse all → reply.new ≡ []) }
    ensures sends { IsTrue (P.tells ports.old).told
        → SendsOnly (λ content. content ≡ request.now) (P.tells ports.old) (P.tells ports.new) }
    ensures others { IsTrue (P.tells ports.old).told → OthersStay (P.tells ports.old) (P.tells ports.new) port }
    ensures opened { IsTrue (P.tells ports.old).told → (P.tells ports.new).opened ≡ (P.tells ports.old).opened }
    ensures told { (P.tells ports.new).told ≡ (P.tells ports.old).told }
    ensures cause { HasCause (P.faults ports.old) (P.faults ports.new) result }
{
    send_frame(ports, port, request)?;
    reply.clear();
    let all = take_frame(ports, port, reply)?;
    if !all {
        reply.clear();
    }
    Ok(all)
}
