//! The store in memory.
ghost use Rattle.std.specs.Prelude.{◌≡◌, ◌≤◌, ◌<◌, ◌+◌, ◌^◌, vec_len};
ghost use Rattle.amr_store.specs.Table.{slot_count, AreSound, IsNumbered};

use crate::slot::{Slot, chain_of, gate_at, last_of, latest_base, lead_length, next_base};

/// A store: the problem of a run, and a table of slots for its states. It is plain data; each call that reaches the disk takes it.
#[derive(Drop)]
pub struct Store {
    pub(crate) version: u32,
    pub(crate) base: u64,
    pub(crate) problem: Vec<u8>,
    pub(crate) slot_size: u64,
    pub(crate) deltas: usize,
    pub(crate) slots: Vec<Option<Slot>>,
    pub(crate) is_shut: bool,
    ghost base_fits: { base ≤ 2 ^ 43 },
    ghost text_fits: { vec_len problem ≤ 65536 },
    ghost size_fits: { slot_size ≤ 2 ^ 40 },
    ghost numbered: { IsNumbered version deltas },
    ghost all_slots: { vec_len slots ≡ slot_count deltas },
    ghost sound: { AreSound deltas slots.items },
}

impl Store {
    ghost use Rattle.std.specs.Prelude.{◌≢◌, slice_set};
    ghost use Rattle.amr_store.specs.Table.{slot_count, AreSound};
    ghost use Rattle.amr_store.specs.Stands.{SameStore, chain_in, next_record_in, problem_in, slot_size_in, version_in, last_in, counted_in, next_in};
    ghost use Rattle.amr_store.specs.Stands.{latest_slot_in, gate_in, slot_in, slots_in, deltas_in, is_shut, shut_of};

    /// The problem bytes.
    pub fn problem(&self) -> &[u8]
        ensures { result.now ≡ problem_in self.now }
    {
        &self.problem
    }

    /// How many bytes the payload of a slot may have.
    pub fn slot_size(&self) -> u64
        ensures { result ≡ slot_size_in self.now }
    {
        self.slot_size
    }

    /// The version of the store's format: 1, 2 or 3.
    pub fn version(&self) -> u32
        ensures { result ≡ version_in self.now }
    {
        self.version
    }

    /// How many records may follow a whole state: 0 in versions 1 and 2, and 1 to 7 in version 3.
    pub fn deltas(&self) -> u32
        ensures number { result ≡ deltas_in self.now }
        ensures few { result ≤ 7 }
        ensures some { version_in self.now ≡ 3 → 0 < result }
        ensures none { version_in self.now ≢ 3 → result ≡ 0 }
    {
        self.deltas as u32
    }

    /// How many records count: each stands on the state before it, the first on the latest whole one.
    pub fn chain(&self) -> u32
        ensures number { result ≡ chain_in self.now }
        ensures few { result ≤ deltas_in self.now }
    {
        chain_of(&self.slots, self.deltas) as u32
    }

    /// The sequence of the latest state: that of the last record that counts, else that of the whole state. None exactly where no whole state is in the store.
    pub fn last(&self) -> Option<u64>
        ensures { result ≡ last_in self.now }
    {
        last_of(&self.slots, self.deltas)
    }

    /// The sequence of the latest whole state, which has number 0, or of the record of this number that counts. None exactly where no whole
    /// state is in the store.
    pub fn sequence_at(&self, number: u32) -> Option<u64>
        requires counts { number ≤ chain_in self.now }
        ensures { result ≡ counted_in self.now number }
    {
        match self.slot(self.latest_slot() + number as usize) {
            Some(slot) => Some(slot.sequence),
            None => None,
        }
    }

    // The slot of the next record.
    pub(crate) fn next_record(&self) -> usize
        ensures { result ≡ next_record_in self.now }
    {
        latest_base(&self.slots, self.deltas) + chain_of(&self.slots, self.deltas) + 1
    }

    // The slot that the next put fills.
    pub(crate) fn next(&self) -> usize
        ensures slot { result ≡ next_in self.now }
        ensures within { result < slot_count (deltas_in self.now) }
    {
        next_base(&self.slots, self.deltas)
    }

    // The slot that holds the latest whole state, where one is open.
    pub(crate) fn latest_slot(&self) -> usize
        ensures slot { result ≡ latest_slot_in self.now }
        ensures within { result < slot_count (deltas_in self.now) }
    {
        latest_base(&self.slots, self.deltas)
    }

    // Where a slot's gate stands on the disk.
    pub(crate) fn gate(&self, k: usize) -> u64
        requires within { k < slot_count (deltas_in self.now) }
        ensures place { result ≡ gate_in self.now k }
        ensures bound { result + slot_size_in self.now < 2 ^ 47 }
    {
        let lead = lead_length(self.version, self.problem.len() as u64);
        self.base + gate_at(k, lead, self.slot_size)
    }

    // What is known of a slot.
    pub(crate) fn slot(&self, k: usize) -> Option<Slot>
        requires within { k < slot_count (deltas_in self.now) }
        ensures { result ≡ slot_in self.now k }
    {
        self.slots[k]
    }

    // Notes what a slot holds now.
    pub(crate) fn set_slot(&mut self, k: usize, slot: Option<Slot>)
        requires within { k < slot_count (deltas_in self.old) }
        requires sound { AreSound (deltas_in self.old) (slice_set (slots_in self.old) k slot) }
        ensures slots { slots_in self.new ≡ slice_set (slots_in self.old) k slot }
        ensures same { SameStore self.old self.new }
        ensures shut { is_shut self.new ≡ is_shut self.old }
    {
        self.slots[k] = slot;
    }

    // Shuts the store.
    pub(crate) fn shut(&mut self)
        ensures { self.new ≡ shut_of self.old }
    {
        self.is_shut = true;
    }
}
