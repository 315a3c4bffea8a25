//! A connection, from its first byte to its end.

ghost use Rattle.std.specs.Prelude.{◌≡◌, ◌+◌, ◌-◌, ◌≤◌, ◌<◌, [], ◌++◌, length, take, drop, IsTrue, IsFalse, IfOk, IfErr, OnErr, ℕ, List};
ghost use Rattle.share_server.specs.CdEdges.Causes.{HasCause};
ghost use Rattle.ports_link.specs.Frames.Frames.{IsContent, IsFrame, IsRefused};
ghost use Rattle.ports_link.specs.Frames.Found.{found_of};
ghost use Rattle.share_server.specs.CdEdges.Ports.{Telling};
ghost use Rattle.serve_command.specs.declared.served.ConnectionStop.TheVariants.{BadLength};
ghost use Rattle.serve_command.specs.Connection.{EndsWithCause, ServesConnection};
ghost use Rattle.serve_command.specs.Framing.{IsAlongFrames, Broken, Stops, StopsWithCause, ended_with, stopped_by};

use crate::frame_responder::Responder;
use crate::served::{ConnectionStop, Served};
use ports_link::{FrameErr, Framer, ReplyBuf, send_frame};
use share_server::{Failed, Ports};

// How many bytes are received at a time, at most.
const PIECE: usize = 65_536;

// The greatest number of bytes of one connection.
const GREATEST: u64 = 1_099_511_627_776;

// Answers the frame that stands whole, if one does, and drops it. It says whether one stood.
fn answer_whole<P: Ports, R: Responder>(
    responder: &mut R,
    ports: &mut P,
    port: u32,
    framer: &mut Framer,
    reply: &mut ReplyBuf,
) -> Result<bool, Failed>
    ensures along { (first : R) (start : Telling) (pending : List ℕ) (received : ℕ)
        → (P.tells ports.old).told ≡ start.told
        → IsAlongFrames R.step start (P.tells ports.old) port first responder.old framer.old pending received
        → IfOk result
        (λ _. IsAlongFrames R.step start (P.tells ports.new) port first responder.new framer.new pending received) }
    ensures broken { (first : R) (start : Telling) (pending : List ℕ) (received : ℕ)
        → (P.tells ports.old).told ≡ start.told
        → IsAlongFrames R.step start (P.tells ports.old) port first responder.old framer.old pending received
        → OnErr result (Broken R.step start (P.tells ports.new) port first responder.new) }
    ensures ready { IfOk result (λ _. ¬ IsFrame framer.new) }
    ensures stood { IfOk result (λ some. IsFalse some → framer.new ≡ framer.old) }
    ensures dropped { IfOk result (λ some. IsTrue some → framer.new ≡ []) }
    ensures was { IfOk result (λ some. IsFrame framer.old → IsTrue some) }
    ensures loans { R.loans responder.new ≡ R.loans responder.old }
    ensures told { (P.tells ports.new).told ≡ (P.tells ports.old).told }
    ensures cause { HasCause (P.faults ports.old) (P.faults ports.new) result }
{
    let Some(request) = framer.whole() else {
        return Ok(false);
    };
    responder.respond(request, reply);
    match send_frame(ports, port, reply.content()) {
        Ok(()) => {}
        Err(Failed) => return Err(Failed),
    }
    framer.clear();
    Ok(true)
}

// Why a connection ends at a length that no frame has.
fn stop_of(error: FrameErr) -> ConnectionStop
    ensures { result ≡ BadLength (found_of error) }
{
    match error {
        FrameErr::Length { found } => ConnectionStop::BadLength { found },
    }
}

// Takes the next bytes of a piece, up to the end of a frame, and answers the frame that they make whole, if they do. It says how many
// they were.
fn serve_next<P: Ports, R: Responder>(
    responder: &mut R,
    ports: &mut P,
    port: u32,
    framer: &mut Framer,
    reply: &mut ReplyBuf,
    piece: &[u8],
) -> Result<usize, ConnectionStop>
    requires ready { ¬ IsFrame framer.old }
    requires some { 0 < length piece.now }
    ensures some { IfOk result (λ count. 0 < count) }
    ensures within { IfOk result (λ count. count ≤ length piece.now) }
    ensures along { (first : R) (start : Telling) (received : ℕ) → (P.tells ports.old).told ≡ start.told
        → IsAlongFrames R.step start (P.tells ports.old) port first responder.old framer.old piece.now received
        → IfOk result
        (λ count. IsAlongFrames R.step start (P.tells ports.new) port first responder.new framer.new
        (drop count piece.now) received) }
    ensures stops { (first : R) (start : Telling) (received : ℕ) → (P.tells ports.old).told ≡ start.told
        → IsAlongFrames R.step start (P.tells ports.old) port first responder.old framer.old piece.now received
        → IfErr result (Stops R.step start (P.tells ports.new) port first responder.new) }
    ensures ready { IfOk result (λ _. ¬ IsFrame framer.new) }
    ensures lawful { IfOk result (λ _. ¬ IsRefused framer.new) }
    ensures loans { R.loans responder.new ≡ R.loans responder.old }
    ensures told { (P.tells ports.new).told ≡ (P.tells ports.old).told }
    ensures cause { StopsWithCause result (P.faults ports.old) (P.faults ports.new) }
{
    let count = match framer.push(piece) {
        Ok(count) => count,
        Err(error) => return Err(stop_of(error)),
    };
    match answer_whole(responder, ports, port, framer, reply) {
        Ok(_) => Ok(count),
        Err(Failed) => Err(ConnectionStop::Failed),
    }
}

// What is left of a piece.
fn behind(piece: &[u8], count: usize) -> &[u8]
    requires { count ≤ length piece.now }
    ensures { result.now ≡ drop count piece.now }
{
    &piece[count..]
}

// Takes a piece of the bytes that came, and answers each frame that it makes whole.
fn serve_piece<P: Ports, R: Responder>(
    responder: &mut R,
    ports: &mut P,
    port: u32,
    framer: &mut Framer,
    reply: &mut ReplyBuf,
    piece: &[u8],
) -> Result<(), ConnectionStop>
    requires ready { ¬ IsFrame framer.old }
    requires lawful { ¬ IsRefused framer.old }
    ensures along { (first : R) (start : Telling) (received : ℕ) → (P.tells ports.old).told ≡ start.told
        → IsAlongFrames R.step start (P.tells ports.old) port first responder.old framer.old piece.now received
        → IfOk result (λ _. IsAlongFrames R.step start
        (P.tells ports.new) port first responder.new framer.new [] received) }
    ensures stops { (first : R) (start : Telling) (received : ℕ) → (P.tells ports.old).told ≡ start.told
        → IsAlongFrames R.step start (P.tells ports.old) port first responder.old framer.old piece.now received
        → IfErr result (Stops R.step start (P.tells ports.new) port first responder.new) }
    ensures ready { IfOk result (λ _. ¬ IsFrame framer.new) }
    ensures lawful { IfOk result (λ _. ¬ IsRefused framer.new) }
    ensures loans { R.loans responder.new ≡ R.loans responder.old }
    ensures told { (P.tells ports.new).told ≡ (P.tells ports.old).told }
    ensures cause { StopsWithCause result (P.faults ports.old) (P.faults ports.new) }
{
    let mut rest = piece;
    while !rest.is_empty() {
        match serve_next(responder, ports, port, framer, reply, rest) {
            Ok(count) => rest = behind(rest, count),
            Err(stop) => return Err(stop),
        }
    }
    Ok(())
}

// Receives some bytes into a piece, at most so many, and answers each frame that they make whole. It says how many came, none
// where the stream ended.
fn serve_some<P: Ports, R: Responder>(
    responder: &mut R,
    ports: &mut P,
    port: u32,
    framer: &mut Framer,
    reply: &mut ReplyBuf,
    piece: &mut [u8],
    most: usize,
) -> Result<usize, ConnectionStop>
    requires most { 0 < most }
    requires piece { 0 < length piece.old }
    requires ready { ¬ IsFrame framer.old }
    requires lawful { ¬ IsRefused framer.old }
    ensures most { IfOk result (λ count. count ≤ most) }
    ensures piece { length piece.new ≡ length piece.old }
    ensures along { (first : R) (start : Telling) (received : ℕ) → (P.tells ports.old).told ≡ start.told
        → IsAlongFrames R.step start (P.tells ports.old) port first responder.old framer.old [] received
        → IfOk result
        (λ count. IsAlongFrames R.step start (P.tells ports.new) port first responder.new framer.new []
        (received + count)) }
    ensures stops { (first : R) (start : Telling) (received : ℕ) → (P.tells ports.old).told ≡ start.told
        → IsAlongFrames R.step start (P.tells ports.old) port first responder.old framer.old [] received
        → IfErr result (Stops R.step start (P.tells ports.new) port first responder.new) }
    ensures ended { IsTrue (P.tells ports.old).told
        → IfOk result (λ count. count ≡ 0 → ((P.tells ports.new).port port).to_come ≡ []) }
    ensures ready { IfOk result (λ _. ¬ IsFrame framer.new) }
    ensures lawful { IfOk result (λ _. ¬ IsRefused framer.new) }
    ensures loans { R.loans responder.new ≡ R.loans responder.old }
    ensures told { (P.tells ports.new).told ≡ (P.tells ports.old).told }
    ensures cause { StopsWithCause result (P.faults ports.old) (P.faults ports.new) }
{
    let room = most.min(piece.len());
    let count = match ports.recv(port, &mut piece[..room]) {
        Ok(count) => count,
        Err(Failed) => return Err(ConnectionStop::Failed),
    };
    if count == 0 {
        return Ok(0);
    }
    match serve_piece(responder, ports, port, framer, reply, front(piece, count)) {
        Ok(()) => Ok(count),
        Err(stop) => Err(stop),
    }
}

// The first bytes of a buffer.
fn front(piece: &[u8], count: usize) -> &[u8]
    requires { count ≤ length piece.now }
    ensures { result.now ≡ take count piece.now }
{
    &piece[..count]
}

// How a connection ended whose stream ended, where so many bytes stand in the framer.
fn ended(got: u32) -> Served
    ensures { result ≡ ended_with got }
{
    if got == 0 {
        Served::End
    } else {
        Served::Cut { got }
    }
}

// How a connection ended that was stopped.
fn stopped(stop: ConnectionStop) -> Served
    ensures { result ≡ stopped_by stop }
{
    match stop {
        ConnectionStop::BadLength { found } => Served::BadLength { found },
        ConnectionStop::Failed => Served::Failed,
    }
}

// Serves the connection by way of a piece.
fn serve_by<P: Ports, R: Responder>(
    responder: &mut R,
    ports: &mut P,
    port: u32,
    framer: &mut Framer,
    reply: &mut ReplyBuf,
    piece: &mut [u8],
) -> Served
    requires piece { 0 < length piece.old }
    ensures serves { ServesConnection R.step (P.tells ports.old)
        (P.tells ports.new) port responder.old responder.new result }
    ensures loans { R.loans responder.new ≡ R.loans responder.old }
    ensures told { (P.tells ports.new).told ≡ (P.tells ports.old).told }
    ensures cause { EndsWithCause result (P.faults ports.old) (P.faults ports.new) }
{
    framer.reset();
    let mut received = 0;
    while received < GREATEST {
        let most = (GREATEST - received) as usize;
        match serve_some(responder, ports, port, framer, reply, piece, most) {
            Ok(0) => return ended(framer.len()),
            Ok(count) => received += count as u64,
            Err(stop) => return stopped(stop),
        }
    }
    Served::Spent
}

/// Serves the connection on a port until its stream ends, a length comes that no frame has, the ports fail, or
/// 1,099,511,627,776 bytes came: each frame that comes is answered by one frame, in order, however the bytes come in pieces.
///
/// Where the ports tell their bytes: all whole frames that came were answered, and the bytes sent are the frames of the
/// replies. For `Failed` the frames that were answered are the first of those that came, and the last reply's frame may be
/// cut short. For `End` and `Cut` no byte is left to come. `Failed` comes only where the ports' count of faults rose. The
/// framer's bytes are forgotten first.
pub fn serve_frames<P: Ports, R: Responder>(
    responder: &mut R,
    ports: &mut P,
    port: u32,
    framer: &mut Framer,
    reply: &mut ReplyBuf,
) -> Served
    ensures serves { ServesConnection R.step (P.tells ports.old)
        (P.tells ports.new) port responder.old responder.new result }
    ensures loans { R.loans responder.new ≡ R.loans responder.old }
    ensures told { (P.tells ports.new).told ≡ (P.tells ports.old).told }
    ensures cause { EndsWithCause result (P.faults ports.old) (P.faults ports.new) }
{
    let mut piece = [0; PIECE];
    serve_by(responder, ports, port, framer, reply, &mut piece)
}
