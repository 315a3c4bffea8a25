//! Ports in memory.

ghost use Rattle.std.specs.Prelude.{◌≡◌, ◌+◌, ◌-◌, ◌^◌, ◌≤◌, ◌<◌, vec_len};
ghost use Rattle.cd_fakes.specs.Streams.{AreFresh};

use crate::{CallCount, MemStream};
use mem_disk::{Failed, NoMemory, Ports};
use std::alloc::Global;

/// Connections in memory. The accepts and dials that answer Ok are numbered from 0, and on port i the bytes of stream i come.
#[derive(Drop)]
pub struct MemPorts {
    /// The streams, in order.
    pub streams: Vec<MemStream>,
    /// How many ports were opened.
    pub opened: u32,
    /// How many bytes can be sent on each port.
    pub room: usize,
    /// The most bytes that a call passes.
    pub most: usize,
    /// The calls, and which of them fail.
    pub count: CallCount,
    ghost within: { opened ≤ vec_len streams },
    ghost few: { vec_len streams < 2 ^ 32 },
    ghost some: { 1 ≤ most },
    ghost fresh: { AreFresh streams.items opened },
}

impl MemPorts {
    ghost use Rattle.std.specs.Prelude.{◌≡◌, ◌≢◌, ◌↔◌, ◌⊎◌, ℕ, ◌+◌, ◌-◌, ◌^◌, ◌≤◌, ◌<◌, min, length, take, [], ◌∷◌, ◌++◌, false, IsTrue, IfOk, OnOk, OnErr, IsErr, is_ok, vec_len};
    ghost use Rattle.std.specs.Io.{ReadsAtMost, WritesAtMost};
    ghost use Rattle.mem_disk.specs.CdEdges.Causes.{HasCause};
    ghost use Rattle.mem_disk.specs.CdEdges.Ports.{HasOpenedPort, Receives, Sent};
    ghost use Rattle.cd_fakes.specs.declared.stream.MemStream.{MemStream};
    ghost use Rattle.cd_fakes.specs.Streams.{Counts, KeepOpen, KeepOpenBut, KeepRooms, port_at, room_left};
    ghost use Rattle.cd_fakes.specs.Told.{HasNoMore, HasOpen, IsFailingNext, KeepsSizes, telling};

    /// No stream yet; on each port `room` bytes can be sent, and a call passes at most `most` bytes. The calls but `close` whose
    /// numbers, from 1, stand in `fails` fail.
    pub fn of(alloc: Global, room: usize, most: usize, fails: &[u64]) -> Result<MemPorts, NoMemory>
        requires { 1 ≤ most }
        ensures streams { IfOk result (λ ports. ports.streams.items ≡ []) }
        ensures opened { IfOk result (λ ports. ports.opened ≡ 0) }
        ensures room { IfOk result (λ ports. ports.room ≡ room) }
        ensures most { IfOk result (λ ports. ports.most ≡ most) }
        ensures fails { IfOk result (λ ports. ports.count.fails.items ≡ fails.now) }
        ensures calls { IfOk result (λ ports. ports.count.calls ≡ 0) }
        ensures faults { IfOk result (λ ports. ports.count.faults ≡ 0) }
    {
        Ok(MemPorts {
            streams: Vec::new(alloc),
            opened: 0,
            room,
            most,
            count: CallCount::of(alloc, fails)?,
        })
    }

    /// The bytes that were sent on a port.
    pub fn sent(&self, port: u32) -> &[u8]
        ensures { result.now ≡ (port_at self.now.streams.items port).sent }
    {
        match self.streams.get(port as usize) {
            Some(stream) => &stream.sent,
            None => &[],
        }
    }

    // Whether a port was opened and isn't closed.
    fn is_open(&self, port: u32) -> bool
        ensures { IsTrue result ↔ HasOpen self.now port }
    {
        match self.streams.get(port as usize) {
            Some(stream) => port < self.opened && !stream.closed,
            None => false,
        }
    }

    /// Adds a stream, whose bytes come on the next port that has none yet. For want of memory nothing changes.
    pub fn add_stream(&mut self, alloc: Global, bytes: &[u8]) -> Result<(), NoMemory>
        ensures added { OnOk result ((stream : MemStream)
            × (self.new.streams.items ≡ self.old.streams.items ++ stream ∷ [])
            × (stream.bytes.items ≡ bytes.now) × (stream.place ≡ 0) × (stream.sent.items ≡ [])
            × (stream.room ≡ self.old.room) × (stream.closed ≡ false)) }
        ensures err { OnErr result (self.new.streams.items ≡ self.old.streams.items) }
        ensures rest { (self.new.opened ≡ self.old.opened) × (self.new.count ≡ self.old.count)
            × KeepsSizes self.old self.new }
    {
        if self.streams.len() >= u32::MAX as usize {
            return Err(NoMemory);
        }
        let stream = MemStream::of(alloc, bytes, self.room)?;
        self.streams.push(stream)?;
        Ok(())
    }

    // Opens the next port.
    fn open(&mut self) -> Result<u32, Failed>
        ensures opens { IfOk result (HasOpenedPort (telling self.old) (telling self.new)) }
        ensures failed { OnErr result (telling self.new ≡ telling self.old) }
        ensures cause { HasCause self.old.count.faults self.new.count.faults result }
        ensures fails { IsErr result ↔ (IsFailingNext self.old ⊎ HasNoMore self.old) }
        ensures streams_stay { self.new.streams ≡ self.old.streams }
        ensures counts { Counts self.old.count self.new.count (is_ok result) }
        ensures rest { KeepsSizes self.old self.new }
    {
        let named = self.count.begin();
        let number = self.opened;
        if named || number as usize == self.streams.len() {
            return self.count.refuse();
        }
        self.opened = number + 1;
        Ok(number)
    }
}

impl Ports for MemPorts {
    ghost use Rattle.std.specs.Prelude.{◌≡◌, ◌≢◌, ◌↔◌, ◌⊎◌, ℕ, ◌+◌, ◌-◌, ◌^◌, ◌≤◌, ◌<◌, min, length, take, [], ◌∷◌, ◌++◌, false, IsTrue, IfOk, OnOk, OnErr, IsErr, is_ok, vec_len};
    ghost use Rattle.std.specs.Io.{ReadsAtMost, WritesAtMost};
    ghost use Rattle.mem_disk.specs.CdEdges.Causes.{HasCause};
    ghost use Rattle.mem_disk.specs.CdEdges.Ports.{HasOpenedPort, Receives, Sent};
    ghost use Rattle.cd_fakes.specs.declared.stream.MemStream.{MemStream};
    ghost use Rattle.cd_fakes.specs.Streams.{Counts, KeepOpen, KeepOpenBut, KeepRooms, port_at, room_left};
    ghost use Rattle.cd_fakes.specs.Told.{HasNoMore, HasOpen, IsFailingNext, KeepsSizes, telling};

    ghost tells = { telling };

    ghost faults = { λ ports. ports.count.faults };

    fn listen(&mut self, _addr: &str) -> Result<(), Failed>
        ensures stays { telling self.new ≡ telling self.old }
        ensures cause { HasCause self.old.count.faults self.new.count.faults result }
        ensures fails { IsErr result ↔ IsFailingNext self.old }
        ensures counts { Counts self.old.count self.new.count (is_ok result) }
        ensures rest { (self.new.streams ≡ self.old.streams) × (self.new.opened ≡ self.old.opened)
            × KeepsSizes self.old self.new }
    {
        if self.count.begin() {
            return self.count.refuse();
        }
        Ok(())
    }

    fn accept(&mut self) -> Result<u32, Failed>
        ensures opens { IsTrue (telling self.old).told
            → IfOk result (HasOpenedPort (telling self.old) (telling self.new)) }
        ensures told { (telling self.new).told ≡ (telling self.old).told }
        ensures failed { OnErr result (telling self.new ≡ telling self.old) }
        ensures cause { HasCause self.old.count.faults self.new.count.faults result }
        ensures fails { IsErr result ↔ (IsFailingNext self.old ⊎ HasNoMore self.old) }
        ensures counts { Counts self.old.count self.new.count (is_ok result) }
        ensures rest { (self.new.streams ≡ self.old.streams) × KeepsSizes self.old self.new }
    {
        self.open()
    }

    fn dial(&mut self, _addr: &str) -> Result<u32, Failed>
        ensures opens { IsTrue (telling self.old).told
            → IfOk result (HasOpenedPort (telling self.old) (telling self.new)) }
        ensures told { (telling self.new).told ≡ (telling self.old).told }
        ensures failed { OnErr result (telling self.new ≡ telling self.old) }
        ensures cause { HasCause self.old.count.faults self.new.count.faults result }
        ensures fails { IsErr result ↔ (IsFailingNext self.old ⊎ HasNoMore self.old) }
        ensures counts { Counts self.old.count self.new.count (is_ok result) }
        ensures rest { (self.new.streams ≡ self.old.streams) × KeepsSizes self.old self.new }
    {
        self.open()
    }

    fn recv(&mut self, port: u32, out: &mut [u8]) -> Result<usize, Failed>
        ensures bound { ReadsAtMost result out.new }
        ensures receives { IsTrue (telling self.old).told
            → IfOk result (λ count. Receives (telling self.old) (telling self.new) port count out.new) }
        ensures told { (telling self.new).told ≡ (telling self.old).told }
        ensures failed { OnErr result (telling self.new ≡ telling self.old) }
        ensures cause { HasCause self.old.count.faults self.new.count.faults result }
        // It fails exactly by its number or where the port isn't open, and gives as much as it may.
        ensures fails { IsErr result ↔ (IsFailingNext self.old ⊎ (¬ HasOpen self.old port)) }
        ensures much { IfOk result
            (λ count. count ≡ min (min (length out.old) self.old.most)
            (length ((telling self.old).port port).to_come)) }
        ensures counts { Counts self.old.count self.new.count (is_ok result) }
        ensures open { KeepOpen self.old.streams.items self.new.streams.items }
        ensures rooms { KeepRooms self.old.streams.items self.new.streams.items }
        ensures rest { (self.new.opened ≡ self.old.opened) × KeepsSizes self.old self.new }
    {
        let named = self.count.begin();
        if named || !self.is_open(port) {
            return self.count.refuse();
        }
        let most = self.most;
        Ok(self.streams[port as usize].give(most, out))
    }

    fn send(&mut self, port: u32, bytes: &[u8]) -> Result<usize, Failed>
        ensures bound { WritesAtMost result bytes.now }
        ensures progress { IfOk result (λ n. 0 < length bytes.now → 0 < n) }
        ensures sends { IsTrue (telling self.old).told
            → IfOk result (λ count. Sent (telling self.old) (telling self.new) port (take count bytes.now)) }
        ensures told { (telling self.new).told ≡ (telling self.old).told }
        ensures failed { OnErr result (telling self.new ≡ telling self.old) }
        ensures cause { HasCause self.old.count.faults self.new.count.faults result }
        // It fails exactly by its number, where the port isn't open, or where no room is left there, and takes as much as it may.
        ensures fails { IsErr result
            ↔ (IsFailingNext self.old ⊎ ((¬ HasOpen self.old port) ⊎ (room_left self.old.streams.items port ≡ 0))) }
        ensures much { IfOk result
            (λ count. count ≡ min (min (length bytes.now) self.old.most) (room_left self.old.streams.items port)) }
        ensures counts { Counts self.old.count self.new.count (is_ok result) }
        ensures open { KeepOpen self.old.streams.items self.new.streams.items }
        ensures rooms { KeepRooms self.old.streams.items self.new.streams.items }
        ensures rest { (self.new.opened ≡ self.old.opened) × KeepsSizes self.old self.new }
    {
        let named = self.count.begin();
        if named || !self.is_open(port) {
            return self.count.refuse();
        }
        let most = self.most;
        let stream = &mut self.streams[port as usize];
        if stream.left() == 0 {
            return self.count.refuse();
        }
        Ok(stream.take(most, bytes))
    }

    fn close(&mut self, port: u32)
        ensures stays { telling self.new ≡ telling self.old }
        ensures faults { self.new.count.faults ≡ self.old.count.faults }
        ensures closed { ¬ HasOpen self.new port }
        ensures others { KeepOpenBut self.old.streams.items self.new.streams.items port }
        ensures rooms { KeepRooms self.old.streams.items self.new.streams.items }
        ensures rest { (self.new.count ≡ self.old.count) × (self.new.opened ≡ self.old.opened)
            × KeepsSizes self.old self.new }
    {
        if let Some(stream) = self.streams.get_mut(port as usize) {
            stream.closed = true;
        }
    }
}
