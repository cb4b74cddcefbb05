//! A sink in memory that grows.
ghost use Rattle.std.specs.Prelude.{◌≡◌, ◌+◌, ◌<◌, ◌≤◌, ◌++◌, [], IfOk, OnErr, OnOk, is_err, if◌then◌else◌, length};
ghost use Rattle.amr_causes.specs.Causes.{HasCause};
ghost use Rattle.amr_causes.specs.Bytes.{Grows, written};
ghost use Rattle.amr_io.specs.Memory.{counted};

use crate::{Sink, WriteFault};
use amr_causes::NoMemory;
use std::alloc::Global;
use std::marker::Model;

/// Bytes in memory, as they were written. It grows as they need; it fails where there is no memory for that, and then takes
/// nothing.
#[derive(Drop)]
pub struct Page {
    bytes: Vec<u8>,
    faults: u64,
}

impl Model for Page {
    ghost use Rattle.std.specs.Prelude.{vec_capacity};
    ghost use Rattle.amr_io.specs.Memory.{PageState};

    ghost Value = { PageState };

    ghost view = { λ p. record { held = p.bytes.items; room = vec_capacity p.bytes; faults = p.faults } };
}

impl Page {
    /// A page with no bytes, which takes no memory yet.
    pub fn make(alloc: Global) -> Page
        ensures held { result.held ≡ [] }
        ensures told { ⟦<Page as Sink>⟧.holds result ([]) }
        ensures faultless { result.faults ≡ 0 }
    {
        Page {
            bytes: Vec::new(alloc),
            faults: 0,
        }
    }

    /// A page with no bytes and with memory for so many.
    pub fn with_room(alloc: Global, room: usize) -> Result<Page, NoMemory>
        ensures held { IfOk result (λ p. p.held ≡ []) }
        ensures told { IfOk result (λ p. ⟦<Page as Sink>⟧.holds p ([])) }
        ensures faultless { IfOk result (λ p. p.faults ≡ 0) }
        ensures room { IfOk result (λ p. room ≤ p.room) }
    {
        Ok(Page {
            bytes: Vec::with_capacity(alloc, room)?,
            faults: 0,
        })
    }

    /// The bytes that it has.
    pub fn into_bytes(self) -> Vec<u8>
        ensures held { result.items ≡ self.held }
        ensures told { ⟦<Page as Sink>⟧.holds self result.items }
    {
        self.bytes
    }
}

impl Sink for Page {
    ghost holds = { λ s bytes. bytes ≡ s.held };

    ghost faults = { λ s. s.faults };

    fn write(&mut self, chunk: &[u8]) -> Result<usize, WriteFault>
        ensures bound { IfOk result (λ n. n ≤ length chunk.now) }
        ensures some { IfOk result (λ n. 0 < length chunk.now → 0 < n) }
        ensures bytes { Grows (λ s bytes. bytes ≡ s.held) self.old self.new (written result chunk.now) }
        ensures cause { HasCause self.old.faults self.new.faults result }
        ensures no_fault { OnOk result (self.new.faults ≡ self.old.faults) }
        // It takes the whole chunk, or fails and takes nothing, which it does only where it lacks room.
        ensures whole { OnOk result (self.new.held ≡ self.old.held ++ chunk.now) }
        ensures fails { OnErr result (self.old.room < length self.old.held + length chunk.now) }
        ensures nothing { OnErr result (self.new.held ≡ self.old.held) }
        ensures amount { IfOk result (λ n. n ≡ length chunk.now) }
        ensures room { self.old.room ≤ self.new.room }
        ensures count { self.new.faults ≡ (if is_err result then counted self.old.faults else self.old.faults) }
    {
        match self.bytes.extend_from_slice(chunk) {
            Ok(()) => Ok(chunk.len()),
            Err(_) => {
                self.faults = self.faults.saturating_add(1);
                Err(WriteFault)
            }
        }
    }
}
