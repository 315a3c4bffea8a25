//! Ports: connections by their numbers.

ghost use Rattle.std.specs.Prelude.{◌≡◌, ℕ, ◌<◌, length, take, IsTrue, IfOk, OnErr};
ghost use Rattle.std.specs.Io.{ReadsAtMost, WritesAtMost};
ghost use Rattle.cd_edges.specs.Causes.{HasCause};
ghost use Rattle.cd_edges.specs.Ports.{Telling, HasOpenedPort, Receives, Sent};

use crate::Failed;

/// Connections to others. Each that was accepted or dialled is a port, which is named by a number. Ports may tell the bytes that
/// are still to come on each port and those that were sent there; ports that tell nothing keep the other clauses.
///
/// Each call may wait for the other side. A call answers `Failed` only where the count of faults rose, and then nothing else that
/// is told changed; a count stays at its last value, that of a u64.
pub trait Ports {
    /// What is told of the ports.
    ghost tells: { Self → Telling };

    /// How many calls failed.
    ghost faults: { Self → ℕ };

    /// From now on connections to this address are accepted.
    fn listen(&mut self, addr: &str) -> Result<(), Failed>
        ensures stays { tells self.new ≡ tells self.old }
        ensures cause { HasCause (faults self.old) (faults self.new) result };

    /// Waits for the next connection, and answers the number of its port.
    fn accept(&mut self) -> Result<u32, Failed>
        ensures opens { IsTrue (tells self.old).told → IfOk result (HasOpenedPort (tells self.old) (tells self.new)) }
        ensures told { (tells self.new).told ≡ (tells self.old).told }
        ensures failed { OnErr result (tells self.new ≡ tells self.old) }
        ensures cause { HasCause (faults self.old) (faults self.new) result };

    /// Connects to an address, and answers the number of the new port.
    fn dial(&mut self, addr: &str) -> Result<u32, Failed>
        ensures opens { IsTrue (tells self.old).told → IfOk result (HasOpenedPort (tells self.old) (tells self.new)) }
        ensures told { (tells self.new).told ≡ (tells self.old).told }
        ensures failed { OnErr result (tells self.new ≡ tells self.old) }
        ensures cause { HasCause (faults self.old) (faults self.new) result };

    /// Puts the next bytes that come on a port in front of `out`, and answers how many. 0 on a buffer that isn't empty is the end of
    /// the stream.
    fn recv(&mut self, port: u32, out: &mut [u8]) -> Result<usize, Failed>
        ensures bound { ReadsAtMost result out.new }
        ensures receives { IsTrue (tells self.old).told
            → IfOk result (λ count. Receives (tells self.old) (tells self.new) port count out.new) }
        ensures told { (tells self.new).told ≡ (tells self.old).told }
        ensures failed { OnErr result (tells self.new ≡ tells self.old) }
        ensures cause { HasCause (faults self.old) (faults self.new) result };

    /// Sends the first bytes of a piece on a port, at least one of a piece that isn't empty, and answers how many.
    fn send(&mut self, port: u32, bytes: &[u8]) -> Result<usize, Failed>
        ensures bound { WritesAtMost result bytes.now }
        ensures progress { IfOk result (λ n. 0 < length bytes.now → 0 < n) }
        ensures sends { IsTrue (tells self.old).told
            → IfOk result (λ count. Sent (tells self.old) (tells self.new) port (take count bytes.now)) }
        ensures told { (tells self.new).told ≡ (tells self.old).told }
        ensures failed { OnErr result (tells self.new ≡ tells self.old) }
        ensures cause { HasCause (faults self.old) (faults self.new) result };

    /// Ends a connection. Nothing that is told changes.
    fn close(&mut self, port: u32)
        ensures stays { tells self.new ≡ tells self.old }
        ensures faults { faults self.new ≡ faults self.old };
}
