//! A sink in memory.
ghost use Rattle.std.specs.Prelude.{◌≡◌, ◌<◌, ◌≤◌, ◌-◌, [], IfOk, OnOk, is_err, length, min};
ghost use Rattle.amr_causes.specs.Causes.{HasCause};
ghost use Rattle.amr_causes.specs.Bytes.{Grows, written};
ghost use Rattle.amr_io.specs.Memory.{write_fails, sink_after};

use crate::{Sink, WriteFault};
use amr_causes::NoMemory;
use std::alloc::Global;
use std::marker::Model;

/// A sink of bytes in memory. It fails at the calls of a list, and where it is full, and then takes nothing.
#[derive(Drop)]
pub struct MemSink {
    bytes: Vec<u8>,
    capacity: usize,
    most: usize,
    fails: Vec<u64>,
    calls: u64,
    faults: u64,
}

impl Model for MemSink {
    ghost use Rattle.std.specs.Prelude.{◌<◌, ◌≤◌, length, vec_capacity};
    ghost use Rattle.amr_io.specs.Memory.{SinkState};

    ghost Value = { SinkState };

    ghost view = { λ s. record { held = s.bytes.items; capacity = s.capacity; most = s.most; fails = s.fails.items; calls = s.calls; faults = s.faults } };

    ghost invariant = { λ s. (length s.bytes.items ≤ s.capacity) × (s.capacity ≤ vec_capacity s.bytes) × (0 < s.most) };
}

impl MemSink {
    /// An empty sink with room for `capacity` bytes that takes at most `most` of them a call, and whose calls of the list
    /// `fails`, counted from 1, fail. It takes all its memory here.
    pub fn make(
        alloc: Global,
        capacity: usize,
        most: usize,
        fails: &[u64],
    ) -> Result<MemSink, NoMemory>
        requires { 0 < most }
        ensures state { IfOk result (λ s. s ≡ record { held = []; capacity = capacity; most = most; fails = fails.now; calls = 0; faults = 0 }) }
        ensures told { IfOk result (λ s. ⟦<MemSink as Sink>⟧.holds s ([])) }
        ensures faultless { IfOk result (λ s. ⟦<MemSink as Sink>⟧.faults s ≡ 0) }
    {
        Ok(MemSink {
            bytes: Vec::with_capacity(alloc, capacity)?,
            capacity,
            most,
            fails: fails.to_vec(alloc)?,
            calls: 0,
            faults: 0,
        })
    }

    /// The bytes that it holds.
    pub fn bytes(&self) -> &[u8]
        ensures held { result.now ≡ self.now.held }
        ensures told { ⟦<MemSink as Sink>⟧.holds self.now result.now }
    {
        &self.bytes
    }
}

impl Sink for MemSink {
    ghost holds = { λ s bytes. bytes ≡ s.held };

    ghost faults = { λ s. s.faults };

    fn write(&mut self, chunk: &[u8]) -> Result<usize, WriteFault>
        ensures bound { IfOk result (λ n. n ≤ length chunk.now) }
        ensures some { IfOk result (λ n. 0 < length chunk.now → 0 < n) }
        ensures bytes { Grows (λ s bytes. bytes ≡ s.held) self.old self.new (written result chunk.now) }
        ensures cause { HasCause self.old.faults self.new.faults result }
        ensures no_fault { OnOk result (self.new.faults ≡ self.old.faults) }
        // It fails exactly where the call's number is in the list, or the sink is full.
        ensures fails { is_err result ≡ write_fails self.old }
        ensures amount { IfOk result (λ n. n ≡ min (length chunk.now) (min self.old.most (self.old.capacity - length self.old.held))) }
        ensures after { self.new ≡ sink_after self.old chunk.now result }
    {
        self.calls = self.calls.saturating_add(1);
        let left = self.capacity - self.bytes.len();
        if self.fails.as_slice().contains(&self.calls) || left == 0 {
            self.faults = self.faults.saturating_add(1);
            return Err(WriteFault);
        }
        let n = chunk.len().min(self.most.min(left));
        self.bytes.extend_from_slice(&chunk[..n]).unwrap();
        Ok(n)
    }
}
