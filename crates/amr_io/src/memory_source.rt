//! A source in memory.
ghost use Rattle.std.specs.Prelude.{◌≡◌, ◌<◌, [], Some, IfOk, OnOk, is_err, length, min};
ghost use Rattle.std.specs.Io.{ReadsAtMost};
ghost use Rattle.std.specs.Io.KnownBytes.{ReadConsumes};
ghost use Rattle.amr_causes.specs.Causes.{HasCause};
ghost use Rattle.amr_io.specs.Memory.{read_fails, source_after};

use crate::{ReadFault, Source};
use amr_causes::NoMemory;
use std::alloc::Global;
use std::marker::Model;

/// A source of bytes in memory. It fails at the calls of a list alone, and then gives nothing.
#[derive(Drop)]
pub struct MemSource {
    bytes: Vec<u8>,
    at: usize,
    most: usize,
    fails: Vec<u64>,
    calls: u64,
    faults: u64,
}

impl Model for MemSource {
    ghost use Rattle.std.specs.Prelude.{◌<◌, ◌≤◌, drop, length};
    ghost use Rattle.amr_io.specs.Memory.{SourceState};

    ghost Value = { SourceState };

    ghost view = { λ s. record { left = drop s.at s.bytes.items; most = s.most; fails = s.fails.items; calls = s.calls; faults = s.faults } };

    ghost invariant = { λ s. (s.at ≤ length s.bytes.items) × (0 < s.most) };
}

impl MemSource {
    /// A source of these bytes that gives at most `most` of them a call, and whose calls of the list `fails`, counted from 1,
    /// fail.
    pub fn make(
        alloc: Global,
        bytes: &[u8],
        most: usize,
        fails: &[u64],
    ) -> Result<MemSource, NoMemory>
        requires { 0 < most }
        ensures state { IfOk result (λ s. s ≡ record { left = bytes.now; most = most; fails = fails.now; calls = 0; faults = 0 }) }
        ensures told { IfOk result (λ s. ⟦<MemSource as Source>⟧.left s ≡ Some bytes.now) }
        ensures faultless { IfOk result (λ s. ⟦<MemSource as Source>⟧.faults s ≡ 0) }
    {
        Ok(MemSource {
            bytes: bytes.to_vec(alloc)?,
            at: 0,
            most,
            fails: fails.to_vec(alloc)?,
            calls: 0,
            faults: 0,
        })
    }
}

impl Source for MemSource {
    ghost left = { λ s. Some s.left };

    ghost faults = { λ s. s.faults };

    fn read(&mut self, into: &mut [u8]) -> Result<usize, ReadFault>
        ensures bound { ReadsAtMost result into.new }
        ensures bytes { ReadConsumes (Some self.old.left) (Some self.new.left) result into.new }
        ensures cause { HasCause self.old.faults self.new.faults result }
        ensures no_fault { OnOk result (self.new.faults ≡ self.old.faults) }
        // It fails exactly where the call's number is in the list.
        ensures fails { is_err result ≡ read_fails self.old }
        ensures amount { IfOk result (λ n. n ≡ min (length into.new) (min self.old.most (length self.old.left))) }
        ensures after { self.new ≡ source_after self.old self.new.left result }
    {
        self.calls = self.calls.saturating_add(1);
        if self.fails.as_slice().contains(&self.calls) {
            self.faults = self.faults.saturating_add(1);
            return Err(ReadFault);
        }
        let rest = &self.bytes[self.at..];
        let n = into.len().min(self.most.min(rest.len()));
        into[..n].copy_from_slice(&rest[..n]);
        self.at += n;
        Ok(n)
    }
}
