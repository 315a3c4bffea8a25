//! Ports over the system's sockets.

ghost use Rattle.std.specs.Prelude.{◌≡◌, ◌≤◌, ◌<◌, ℕ, [], length, Some, IfSome, IfOk};
ghost use Rattle.cd_edges.specs.Causes.{HasCause};
ghost use Rattle.cd_edges.specs.Ports.{silent};

use cd_edges::{Failed, Ports};
use std::alloc::Global;
use std::io::{Read, Write};
use std::net::{Net, TcpListener, TcpStream};
use std::time::Duration;

/// Connections of the system. They tell no bytes, and each call that fails is counted.
///
/// A port's number is free again once it was closed, and the next connection has it. A call fails where the system refuses it or
/// memory runs out; `accept` before `listen`, and `recv` and `send` on a number that no connection has, and where a patience is set
/// and the other side let it pass. `accept` waits without end for somebody to come.
#[derive(Drop)]
pub struct TcpPorts<'a, N: Net<Listener = TcpListener, Stream = TcpStream>> {
    net: &'a N,
    listener: Option<TcpListener>,
    // A closed one leaves its place to the next.
    streams: Vec<Option<TcpStream>>,
    // How long a connection waits for the other side; without end where there is none.
    patience: Option<Duration>,
    faults: u64,
}

impl<'a, N: Net<Listener = TcpListener, Stream = TcpStream>> TcpPorts<'a, N> {
    /// No connection yet, and patience without end.
    pub fn new(alloc: Global, net: &'a N) -> TcpPorts<'a, N> {
        TcpPorts {
            net,
            listener: None,
            streams: Vec::new(alloc),
            patience: None,
            faults: 0,
        }
    }

    /// The same with a patience for each connection that comes from now on: a `recv` or a `send` on it fails once the other side
    /// has sent or taken nothing for so long. With a patience of no time `accept` and `dial` fail.
    pub fn with_patience(self, patience: Duration) -> TcpPorts<'a, N>
        ensures faults { result.faults ≡ self.entry.faults }
        ensures patience { result.patience ≡ Some patience }
    {
        TcpPorts {
            patience: Some(patience),
            ..self
        }
    }

    // Gives a connection a number. Small pieces are sent at once, and no call waits longer than the patience.
    fn keep(&mut self, stream: TcpStream) -> Option<u32>
        ensures { self.new.faults ≡ self.old.faults }
    {
        stream.set_nodelay(true).ok()?;
        stream.set_read_timeout(self.patience).ok()?;
        stream.set_write_timeout(self.patience).ok()?;
        let free = self.streams.iter().position(|place| place.is_none());
        match free {
            Some(at) => {
                let number = u32::try_from(at).ok()?;
                self.streams[at] = Some(stream);
                Some(number)
            }
            None => {
                let number = u32::try_from(self.streams.len()).ok()?;
                self.streams.push(Some(stream)).ok()?;
                Some(number)
            }
        }
    }

    // Waits for a connection to the address that is listened to.
    fn try_accept(&mut self) -> Option<u32>
        ensures { self.new.faults ≡ self.old.faults }
    {
        let (stream, _) = self.listener.as_ref()?.accept().ok()?;
        self.keep(stream)
    }

    // Connects to an address.
    fn try_dial(&mut self, addr: &str) -> Option<u32>
        ensures { self.new.faults ≡ self.old.faults }
    {
        let stream = TcpStream::connect(self.net, addr).ok()?;
        self.keep(stream)
    }

    // Waits for bytes on a connection.
    fn try_recv(&mut self, port: u32, out: &mut [u8]) -> Option<usize>
        ensures faults { self.new.faults ≡ self.old.faults }
        ensures long { length out.new ≡ length out.old }
        ensures bound { IfSome result (λ count. count ≤ length out.new) }
    {
        let stream = self.streams.get_mut(port as usize)?.as_mut()?;
        stream.read(out).ok()
    }

    // Sends bytes on a connection, at least one of a piece that isn't empty.
    fn try_send(&mut self, port: u32, bytes: &[u8]) -> Option<usize>
        ensures faults { self.new.faults ≡ self.old.faults }
        ensures bound { IfSome result (λ count. count ≤ length bytes.now) }
        ensures progress { IfSome result (λ count. 0 < length bytes.now → 0 < count) }
    {
        let stream = self.streams.get_mut(port as usize)?.as_mut()?;
        let count = stream.write(bytes).ok()?;
        if count == 0 && !bytes.is_empty() {
            return None;
        }
        Some(count)
    }

    // Counts a failure.
    fn counted<T>(&mut self, outcome: Option<T>) -> Result<T, Failed>
        ensures cause { HasCause self.old.faults self.new.faults result }
        ensures ok { IfOk result (λ x. outcome ≡ Some x) }
    {
        match outcome {
            Some(x) => Ok(x),
            None => {
                self.faults = self.faults.saturating_add(1);
                Err(Failed)
            }
        }
    }
}

impl<'a, N: Net<Listener = TcpListener, Stream = TcpStream>> Ports for TcpPorts<'a, N> {
    ghost tells = { λ _. silent };

    ghost faults = { λ ports. ports.faults };

    fn listen(&mut self, addr: &str) -> Result<(), Failed> {
        let listener = TcpListener::bind(self.net, addr).ok();
        match listener {
            Some(listener) => {
                self.listener = Some(listener);
                Ok(())
            }
            None => self.counted(None),
        }
    }

    fn accept(&mut self) -> Result<u32, Failed> {
        let port = self.try_accept();
        self.counted(port)
    }

    fn dial(&mut self, addr: &str) -> Result<u32, Failed> {
        let port = self.try_dial(addr);
        self.counted(port)
    }

    fn recv(&mut self, port: u32, out: &mut [u8]) -> Result<usize, Failed> {
        let count = self.try_recv(port, out);
        self.counted(count)
    }

    fn send(&mut self, port: u32, bytes: &[u8]) -> Result<usize, Failed> {
        let count = self.try_send(port, bytes);
        self.counted(count)
    }

    fn close(&mut self, port: u32) {
        if let Some(place) = self.streams.get_mut(port as usize) {
            *place = None;
        }
    }
}
