//! What is read and what is written, in pieces.

ghost use Rattle.std.specs.Prelude.{ℕ, ◌≤◌, ◌<◌, List, Option, length, take, IfOk, IfErr, OnOk};
ghost use Rattle.std.specs.Io.{ReadsAtMost, WritesAtMost};
ghost use Rattle.std.specs.Io.KnownBytes.{ReadConsumes, WriteAppends, Appends};
ghost use Rattle.cd_edges.specs.Causes.{HasCause};

/// The device failed.
#[derive(Clone, Copy, Debug, PartialEq, Eq)]
pub struct Failed;

/// So many bytes went out before the device failed.
#[derive(Clone, Copy)]
pub struct SinkFault {
    /// The length of the prefix that went out, in bytes.
    pub sent: u64,
}

/// What gives bytes. A source may tell the bytes that are left; one that tells none keeps the other clauses.
pub trait Source {
    /// The bytes that are left, where they are told.
    ghost left: { Self → Option (List ℕ) };

    /// How often it has failed, a count that stays at its last value, that of a u64.
    ghost faults: { Self → ℕ };

    /// Puts the next bytes in front of `out`, and answers how many. 0 on a buffer that isn't empty is the end of the
    /// input. After `Failed`, which comes only where the count of faults rose, the bytes that are left are as before.
    fn read(&mut self, out: &mut [u8]) -> Result<usize, Failed>
        ensures bound { ReadsAtMost result out.new }
        ensures bytes { ReadConsumes (left self.old) (left self.new) result out.new }
        ensures cause { HasCause (faults self.old) (faults self.new) result };
}

/// What takes bytes. A sink may tell the bytes that were written; one that tells none keeps the other clauses.
pub trait Sink {
    /// The bytes that were written, where they are told.
    ghost written: { Self → Option (List ℕ) };

    /// How often it has failed, a count that stays at its last value, that of a u64.
    ghost faults: { Self → ℕ };

    /// Takes the first bytes of a piece, at least one of a piece that isn't empty, and answers how many. After
    /// `Failed`, which comes only where the count of faults rose, the bytes that were written are as before.
    fn write(&mut self, bytes: &[u8]) -> Result<usize, Failed>
        ensures bound { WritesAtMost result bytes.now }
        ensures progress { IfOk result (λ n. 0 < length bytes.now → 0 < n) }
        ensures bytes { WriteAppends (written self.old) (written self.new) result bytes.now }
        ensures cause { HasCause (faults self.old) (faults self.new) result };
}

/// Writes all the bytes, in as many pieces as the sink takes them. Where the sink fails, a prefix of `sent` bytes went
/// out, and nothing is written after it.
pub fn write_all<K: Sink>(sink: &mut K, bytes: &[u8]) -> Result<(), SinkFault>
    ensures all { OnOk result (Appends (K.written sink.old) (K.written sink.new) bytes.now) }
    ensures prefix { IfErr result (λ fault. (fault.sent ≤ length bytes.now)
        × Appends (K.written sink.old) (K.written sink.new) (take fault.sent bytes.now)) }
    ensures cause { HasCause (K.faults sink.old) (K.faults sink.new) result }
{
    let mut sent = 0;
    while sent < bytes.len() {
        match sink.write(&bytes[sent..]) {
            Ok(count) => sent += count,
            Err(Failed) => return Err(SinkFault { sent: sent as u64 }),
        }
    }
    Ok(())
}
