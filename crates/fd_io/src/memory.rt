ghost use Rattle.std.specs.Prelude.{◌≡◌, ◌<◌, ◌≤◌, ◌+◌, ◌↔◌, IsTrue, length, min, take, [], ◌++◌, ◌⊎◌, Some, IsErr, IfOk, OnOk, OnErr, vec_len, vec_capacity};
ghost use Rattle.fd_bytes.specs.Causes.{Rose};

use crate::stream::{Sink, Source};
use fd_bytes::NoMemory;
use std::alloc::Global;

/// A planned fault of a source or a sink in memory.
#[derive(Clone, Copy, Debug, PartialEq, Eq)]
pub struct MemIoFault;

/// Which calls are to fail, and how many were made and failed so far.
#[derive(Drop)]
struct Plan {
    fail: Vec<u32>,
    calls: u64,
    failed: u64,
}

impl Plan {
    ghost use Rattle.fd_io.specs.Plan.{fails_next, raised};

    fn new(alloc: Global, fail: &[u32]) -> Result<Plan, NoMemory>
        ensures { IfOk result (λ p. (p.fail.items ≡ fail.now) × (p.calls ≡ 0) × (p.failed ≡ 0)) }
    {
        Ok(Plan {
            fail: Vec::from_slice(alloc, fail)?,
            calls: 0,
            failed: 0,
        })
    }

    /// Counts one call more, and tells whether it is to fail.
    fn begin(&mut self) -> bool
        ensures answer { result ≡ fails_next self.old.fail.items self.old.calls }
        ensures counted { self.new ≡ record self.old { calls = raised self.old.calls } }
    {
        self.calls = self.calls.saturating_add(1);
        self.fail.iter().any(|n| u64::from(*n) == self.calls)
    }

    /// Counts a fault.
    fn fault(&mut self) -> MemIoFault
        ensures counted { self.new ≡ record self.old { failed = raised self.old.failed } }
        ensures later { self.old.failed ≤ self.new.failed }
        ensures rose { Rose self.old.failed self.new.failed }
    {
        self.failed = self.failed.saturating_add(1);
        MemIoFault
    }
}

/// A source over bytes in memory, some of whose reads are planned to fail.
#[derive(Drop)]
pub struct MemSource {
    bytes: Vec<u8>,
    at: usize,
    piece: u32,
    plan: Plan,
    ghost some: { 1 ≤ piece },
}

impl MemSource {
    ghost use Rattle.fd_io.specs.Memory.{source_left, source_faults, source_calls, source_piece, source_plan};

    /// A source that gives at most `piece` bytes at a time, which is at least 1. The reads whose number, counted
    /// from 1, is in `fail` fail.
    pub fn new(alloc: Global, bytes: &[u8], piece: u32, fail: &[u32]) -> Result<MemSource, NoMemory>
        requires { 1 ≤ piece }
        ensures left { IfOk result (λ s. source_left s ≡ bytes.now) }
        ensures piece { IfOk result (λ s. source_piece s ≡ piece) }
        ensures plan { IfOk result (λ s. source_plan s ≡ fail.now) }
        ensures calls { IfOk result (λ s. source_calls s ≡ 0) }
        ensures faults { IfOk result (λ s. source_faults s ≡ 0) }
    {
        Ok(MemSource {
            bytes: Vec::from_slice(alloc, bytes)?,
            at: 0,
            piece,
            plan: Plan::new(alloc, fail)?,
        })
    }
}

impl Source<MemIoFault> for MemSource {
    ghost use Rattle.fd_io.specs.{Memory.{source_left, source_faults, source_calls, source_piece, source_plan}, Plan.{fails_next, raised}};

    ghost left = { λ s. Some (source_left s) };

    ghost faults = { source_faults };

    fn read(&mut self, into: &mut [u8]) -> Result<usize, MemIoFault>
        requires { 0 < length into.old }
        ensures bound { IfOk result (λ n. n ≤ length into.new) }
        ensures given { IfOk result (λ n. source_left self.old ≡ take n into.new ++ source_left self.new) }
        ensures end { IfOk result (λ n. n ≡ 0 → source_left self.old ≡ []) }
        ensures kept { OnErr result (source_left self.new ≡ source_left self.old) }
        ensures count { source_faults self.old ≤ source_faults self.new }
        ensures calm { OnOk result (source_faults self.new ≡ source_faults self.old) }
        ensures cause { OnErr result (Rose (source_faults self.old) (source_faults self.new)) }

        // Exactly the planned reads fail.
        ensures planned { IsErr result ↔ IsTrue (fails_next (source_plan self.old) (source_calls self.old)) }
        ensures calls { source_calls self.new ≡ raised (source_calls self.old) }
        ensures plan { source_plan self.new ≡ source_plan self.old }
        ensures pieces { IfOk result (λ n. n ≡ min (min (length (source_left self.old)) (length into.old)) (source_piece self.old)) }
        ensures piece { source_piece self.new ≡ source_piece self.old }
    {
        if self.plan.begin() {
            return Err(self.plan.fault());
        }
        if self.at >= self.bytes.len() {
            return Ok(0);
        }
        let (_, rest) = self.bytes.split_at(self.at);
        let n = rest.len().min(into.len()).min(self.piece as usize);
        let (front, _) = rest.split_at(n);
        into[..n].copy_from_slice(front);
        self.at += n;
        Ok(n)
    }
}

/// A sink in memory, some of whose writes are planned to fail. All its room is reserved when it is made.
#[derive(Drop)]
pub struct MemSink {
    taken: Vec<u8>,
    room: usize,
    plan: Plan,
    ghost filled: { vec_len taken ≤ room },
    ghost reserved: { room ≤ vec_capacity taken },
}

impl MemSink {
    ghost use Rattle.fd_io.specs.Memory.{sink_taken, sink_faults, sink_room, sink_calls, sink_plan};

    /// A sink with room for so many bytes. The writes whose number, counted from 1, is in `fail` fail, and so does
    /// a write that meets no room left.
    pub fn new(alloc: Global, room: u64, fail: &[u32]) -> Result<MemSink, NoMemory>
        ensures taken { IfOk result (λ s. sink_taken s ≡ []) }
        ensures room { IfOk result (λ s. sink_room s ≡ room) }
        ensures plan { IfOk result (λ s. sink_plan s ≡ fail.now) }
        ensures calls { IfOk result (λ s. sink_calls s ≡ 0) }
        ensures faults { IfOk result (λ s. sink_faults s ≡ 0) }
    {
        let room = room as usize;
        Ok(MemSink {
            taken: Vec::with_capacity(alloc, room)?,
            room,
            plan: Plan::new(alloc, fail)?,
        })
    }

    /// The bytes taken.
    pub fn taken(&self) -> &[u8]
        ensures { result.now ≡ sink_taken self.now }
    {
        &self.taken
    }
}

impl Sink<MemIoFault> for MemSink {
    ghost use Rattle.fd_io.specs.{Memory.{sink_taken, sink_faults, sink_room, sink_calls, sink_plan}, Plan.{fails_next, raised}};

    ghost taken = { λ s. Some (sink_taken s) };

    ghost faults = { sink_faults };

    fn write(&mut self, bytes: &[u8]) -> Result<usize, MemIoFault>
        requires { 0 < length bytes.now }
        ensures bound { IfOk result (λ n. n ≤ length bytes.now) }
        ensures some { IfOk result (λ n. 0 < n) }
        ensures took { IfOk result (λ n. sink_taken self.new ≡ sink_taken self.old ++ take n bytes.now) }
        ensures kept { OnErr result (sink_taken self.new ≡ sink_taken self.old) }
        ensures count { sink_faults self.old ≤ sink_faults self.new }
        ensures calm { OnOk result (sink_faults self.new ≡ sink_faults self.old) }
        ensures cause { OnErr result (Rose (sink_faults self.old) (sink_faults self.new)) }

        // Exactly the planned writes fail, and those that meet no room left.
        ensures planned { IsErr result ↔ (IsTrue (fails_next (sink_plan self.old) (sink_calls self.old)) ⊎ (sink_room self.old ≡ 0)) }
        ensures calls { sink_calls self.new ≡ raised (sink_calls self.old) }
        ensures plan { sink_plan self.new ≡ sink_plan self.old }
        ensures fills { IfOk result (λ n. n ≡ min (sink_room self.old) (length bytes.now)) }
        ensures room { IfOk result (λ n. sink_room self.new + n ≡ sink_room self.old) }
        ensures same_room { OnErr result (sink_room self.new ≡ sink_room self.old) }
    {
        let left = self.room - self.taken.len();
        if self.plan.begin() || left == 0 {
            return Err(self.plan.fault());
        }
        let n = left.min(bytes.len());
        match self.taken.extend_from_slice(&bytes[..n]) {
            Ok(()) => Ok(n),
            Err(_) => unreachable!(),
        }
    }
}
