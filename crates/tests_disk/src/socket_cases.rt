//! Two ends of a connection in one process.

use cd_edges::{Failed, Ports, receive, send_all};
use real_edges::TcpPorts;
use std::net::TcpListener;
use std::test::Fail;
use std::time::Duration;

// A call on ports, and what has to come of it.
#[derive(Clone, Copy)]
enum Step {
    // The port that is dialled, or a failure; elsewhere than where the ports listen.
    Dial(Option<u32>),
    DialNowhere,
    Listen,
    Accept(u32),
    Send(u32, [u8; 3], bool),
    SendOne(u32, u8, bool),
    // Bytes until the buffer is full or the other side has ended, with zeros behind them.
    Receive(u32, usize, [u8; 3]),
    // One byte, or a failure.
    Byte(u32, Option<u8>),
    Close(u32),
}

fn dial<P: Ports>(ports: &mut P, addr: &str) -> Option<u32> {
    ports.dial(addr).ok()
}

fn listens<P: Ports>(ports: &mut P, addr: &str) -> bool {
    ports.listen(addr).is_ok()
}

fn accept<P: Ports>(ports: &mut P) -> Option<u32> {
    ports.accept().ok()
}

fn is_sent<P: Ports>(ports: &mut P, port: u32, bytes: &[u8]) -> bool {
    send_all(ports, port, bytes).is_ok()
}

fn is_received<P: Ports>(ports: &mut P, port: u32, count: usize, bytes: [u8; 3]) -> bool {
    let mut out = [0; 3];
    receive(ports, port, &mut out) == Ok(count) && out == bytes
}

fn byte<P: Ports>(ports: &mut P, port: u32) -> Option<u8> {
    let mut out = [0];
    match ports.recv(port, &mut out) {
        Ok(1) => Some(out[0]),
        Ok(_) => None,
        Err(Failed) => None,
    }
}

fn close<P: Ports>(ports: &mut P, port: u32) -> bool {
    ports.close(port);
    true
}

// Whether a step comes out so.
fn does<P: Ports>(ports: &mut P, addr: &str, step: Step) -> bool {
    match step {
        Step::Dial(wanted) => dial(ports, addr) == wanted,
        Step::DialNowhere => dial(ports, "nowhere") == None,
        Step::Listen => listens(ports, addr),
        Step::Accept(wanted) => accept(ports) == Some(wanted),
        Step::Send(port, bytes, passes) => is_sent(ports, port, &bytes) == passes,
        Step::SendOne(port, byte, passes) => is_sent(ports, port, &[byte]) == passes,
        Step::Receive(port, count, bytes) => is_received(ports, port, count, bytes),
        Step::Byte(port, wanted) => byte(ports, port) == wanted,
        Step::Close(port) => close(ports, port),
    }
}

// Whether all steps come out so.
fn plays<P: Ports>(ports: &mut P, addr: &str, steps: &[Step]) -> bool {
    let mut well = true;
    for step in steps {
        well = does(ports, addr, *step) && well;
    }
    well
}

// An address whose port the system has free.
fn free_address(rt: HostRuntime) -> Result<String, Fail> {
    let free = TcpListener::bind(&rt, "127.0.0.1:0")?.local_addr()?;
    Ok(format!(in rt.alloc(); "{free}")?)
}

static BOTH_WAYS: [Step; 13] = [
    Step::Dial(None),
    Step::Listen,
    Step::Dial(Some(0)),
    Step::Accept(1),
    Step::Send(0, [1, 2, 3], true),
    Step::Receive(1, 3, [1, 2, 3]),
    Step::SendOne(1, 4, true),
    Step::Close(1),
    Step::Receive(0, 1, [4, 0, 0]),
    Step::Byte(1, None),
    Step::Dial(Some(1)),
    Step::DialNowhere,
    Step::SendOne(7, 1, false),
];

#[test]
fn bytes_go_both_ways(rt: HostRuntime) -> Result<(), Fail> {
    let addr = free_address(rt)?;
    let mut ports = TcpPorts::new(rt.alloc(), &rt);
    let well = plays(&mut ports, addr.as_str(), &BOTH_WAYS);
    drop(ports);
    assert!(rt; well);
    Ok(())
}

// What comes behind a patience that ran out is there still.
static SILENT: [Step; 5] = [
    Step::Listen,
    Step::Dial(Some(0)),
    Step::Accept(1),
    Step::Byte(1, None),
    Step::SendOne(0, 5, true),
];

static LATE: [Step; 1] = [Step::Byte(1, Some(5))];

// Whether a peer that takes nothing takes all of these bytes a thousand times: the system's buffers are full at last.
fn takes_all<P: Ports>(ports: &mut P, piece: &[u8]) -> bool {
    let mut taken = true;
    for _ in 0..1_000 {
        taken = taken && is_sent(ports, 0, piece);
    }
    taken
}

#[test]
fn a_silent_peer_is_a_fault(rt: HostRuntime) -> Result<(), Fail> {
    let addr = free_address(rt)?;
    let piece = vec![in rt.alloc(); 0u8; 1_000_000]?;
    let mut ports = TcpPorts::new(rt.alloc(), &rt).with_patience(Duration::from_millis(50));
    let silent = plays(&mut ports, addr.as_str(), &SILENT);
    let late = plays(&mut ports, addr.as_str(), &LATE);
    let taken = takes_all(&mut ports, piece.as_slice());
    drop(ports);
    assert!(rt; silent && late && !taken);
    Ok(())
}
