//! A store of version 2 past the end of one of version 1, with the same problem and a new state.
ghost use Rattle.std.specs.Prelude.{◌≡◌, ◌≤◌, ◌<◌, ◌+◌, ◌^◌, true, false, List, [], ◌∷◌, ℕ, Some, None};
ghost use Rattle.std.specs.Prelude.{length, IsSome, IfOk, IfSome, OnOk, vec_len, option_map};
ghost use Rattle.amr_causes.specs.Causes.{HasCause};
ghost use Rattle.amr_disk.specs.Image.{Only};
ghost use Rattle.amr_disk.specs.Moments.{StopsIn};
ghost use Rattle.amr_store.specs.Layout.{end_of};
ghost use Rattle.amr_store.specs.Phases.{StopsFrom};
ghost use Rattle.amr_store.specs.Reasons.{HasReason, is_no_memory, is_shut_fault};
ghost use Rattle.amr_store.specs.Renewed.{IsOld, IsOldShut, IsRenewed, SameOrRenewed, renewal_bytes, renewed_state, shut_past, renewed_image};
ghost use Rattle.amr_store.specs.Stands.{IsStoreOf, IsStoreReady, is_shut, put_slot, version_in, problem_in, slot_size_in, last_in};
ghost use Rattle.amr_store.specs.Stored.{stored, Held};

use crate::create::head_of;
use crate::device::{has_byte, write_synced, write_two_synced};
use crate::fields::front_of;
use crate::part::StoreFault;
use crate::put::{OPEN, slot_head};
use crate::slot::{Slot, end_of, gate_at};
use crate::store::Store;
use amr_disk::{Disk, DiskFault};
use std::alloc::{AllocError, Global};

// All of a store of version 2 behind its gate, up to its second slot, with a state in its first slot.
fn renewal_of(
    alloc: Global,
    problem: &[u8],
    slot_size: u64,
    sequence: u64,
    bytes: &[u8],
) -> Result<Vec<u8>, AllocError>
    requires text { length problem.now ≤ 65536 }
    requires fits { length bytes.now ≤ 2 ^ 40 }
    ensures bytes { IfOk result (λ v. v.items ≡ renewal_bytes problem.now slot_size sequence bytes.now) }
    ensures count { IfOk result (λ v. vec_len v ≡ 37 + length problem.now + length bytes.now) }
{
    let mut all = head_of(alloc, 2, problem, slot_size, OPEN)?;
    all.extend_from_slice(&slot_head(sequence, bytes.len() as u64))?;
    all.extend_from_slice(bytes)?;
    Ok(all)
}

// The slots of the new store: the first holds the state.
fn renewed_slots(
    alloc: Global,
    sequence: u64,
    bytes: &[u8],
) -> Result<Vec<Option<Slot>>, AllocError>
    ensures slots { IfOk result (λ v. v.items ≡ put_slot sequence bytes.now ∷ None ∷ []) }
    ensures count { IfOk result (λ v. vec_len v ≡ 2) }
{
    let mut slots = Vec::new(alloc);
    slots.push(Some(Slot {
        sequence,
        length: bytes.len() as u64,
        front: front_of(bytes),
    }))?;
    slots.push(None)?;
    Ok(slots)
}

// Closes the byte past the old store, where nothing follows it.
fn shut_end<D: Disk>(disk: &mut D, end: u64) -> Result<(), DiskFault>
    requires small { end < 2 ^ 47 }
    requires settled { Only (D.seen disk.old) (D.leaves disk.old (D.moment disk.old)) }
    ensures shut { OnOk result ((t problem : List ℕ) → D.seen disk.new ≡ Some t → ((s : List ℕ) → D.seen disk.old ≡ Some s → IsOld end problem s)
        → IsOldShut end problem t) }
    ensures told { OnOk result ((s : List ℕ) → D.seen disk.old ≡ Some s → IsSome (D.seen disk.new)) }
    ensures seen { OnOk result (D.seen disk.new ≡ option_map (shut_past end) (D.seen disk.old)) }
    ensures stops { (s problem : List ℕ) → D.seen disk.old ≡ Some s → IsOld end problem s
        → StopsIn D.moment D.leaves disk.old disk.new (λ c. stored c ≡ stored s) }
    ensures settled { OnOk result (Only (D.seen disk.new) (D.leaves disk.new (D.moment disk.new))) }
    ensures cause { HasCause (D.faults disk.old) (D.faults disk.new) result }
    ensures no_fault { OnOk result (D.faults disk.new ≡ D.faults disk.old) }
{
    match has_byte(disk, end + 1) {
        Ok(true) => Ok(()),
        Ok(false) => write_synced(disk, end, &[0]),
        Err(fault) => Err(fault),
    }
}

// A state as a slot holds it: its sequence and its payload.
#[derive(Clone, Copy)]
struct Entry<'a> {
    sequence: u64,
    payload: &'a [u8],
}

// The three steps of a renewal.
fn write_renewal<D: Disk>(
    disk: &mut D,
    end: u64,
    problem: &[u8],
    slot_size: u64,
    state: Entry<'_>,
    all: &[u8],
) -> Result<(), DiskFault>
    requires end { end < 2 ^ 44 }
    requires text { length problem.now ≤ 65536 }
    requires size { slot_size ≤ 2 ^ 40 }
    requires fits { length state.payload.now ≤ slot_size }
    requires counted { 0 < state.sequence }
    requires small { state.sequence < 2 ^ 64 }
    requires count { length all.now ≡ 37 + length problem.now + length state.payload.now }
    requires all { all.now ≡ renewal_bytes problem.now slot_size state.sequence state.payload.now }
    requires settled { Only (D.seen disk.old) (D.leaves disk.old (D.moment disk.old)) }
    requires old { (s : List ℕ) → D.seen disk.old ≡ Some s → IsOld end problem.now s }
    ensures seen { OnOk result (D.seen disk.new
        ≡ option_map (renewed_image end problem.now slot_size state.entry.sequence state.entry.payload.now) (D.seen disk.old)) }
    ensures made { OnOk result ((t : List ℕ) → D.seen disk.new ≡ Some t → IsRenewed end problem.now slot_size state.entry.sequence state.entry.payload.now t) }
    ensures stops { StopsFrom D.seen D.moment D.leaves disk.old disk.new (SameOrRenewed problem.now slot_size state.entry.sequence state.entry.payload.now) }
    ensures settled { OnOk result (Only (D.seen disk.new) (D.leaves disk.new (D.moment disk.new))) }
    ensures cause { HasCause (D.faults disk.old) (D.faults disk.new) result }
    ensures no_fault { OnOk result (D.faults disk.new ≡ D.faults disk.old) }
{
    let text = problem.len() as u64;
    let gate = end + gate_at(1, text, slot_size);
    match shut_end(disk, end) {
        Ok(()) => match write_two_synced(disk, end + 1, all, gate, &[0]) {
            Ok(()) => write_synced(disk, end, &[OPEN]),
            Err(fault) => Err(fault),
        },
        Err(fault) => Err(fault),
    }
}

impl Store {
    /// Puts a state and makes the store one of version 2 with slots of `slot_size` bytes, which stands past the end of the old one. All
    /// memory is taken before the disk is written. A stop at any moment leaves what was stored, or the new store with the new state. A
    /// refusal drops the store; the disk holds one of the two.
    pub fn renew<D: Disk>(
        self,
        alloc: Global,
        disk: &mut D,
        sequence: u64,
        bytes: &[u8],
        slot_size: u64,
    ) -> Result<Store, StoreFault>
        requires ready { IsStoreReady D.seen D.moment D.leaves self disk.old }
        requires version { version_in self ≡ 1 }
        requires counted { 0 < sequence }
        requires above { IfSome (last_in self) (λ last. last < sequence) }
        requires size { slot_size ≤ 2 ^ 40 }
        requires fits { length bytes.now ≤ slot_size }
        ensures ready { IfOk result (λ store. IsStoreReady D.seen D.moment D.leaves store disk.new) }
        ensures store { IfOk result (IsStoreOf 2 (problem_in self) slot_size 0) }
        ensures last { IfOk result (λ store. last_in store ≡ Some sequence) }
        ensures seen { OnOk result (D.seen disk.new
            ≡ option_map (renewed_image (end_of (length (problem_in self)) (slot_size_in self)) (problem_in self) slot_size sequence bytes.now)
            (D.seen disk.old)) }
        ensures renewed { OnOk result ((t : List ℕ) → D.seen disk.new ≡ Some t
            → stored t ≡ Held (renewed_state (problem_in self) slot_size sequence bytes.now)) }
        ensures stops { is_shut self ≡ false
            → StopsFrom D.seen D.moment D.leaves disk.old disk.new (SameOrRenewed (problem_in self) slot_size sequence bytes.now) }
        ensures memory { is_no_memory result ≡ true → disk.new ≡ disk.old }
        ensures untouched { is_shut self ≡ true → disk.new ≡ disk.old }
        ensures shuts { is_shut_fault result ≡ is_shut self }
        ensures reason { HasReason (D.faults disk.old) (D.faults disk.new) result }
    {
        let Store {
            version: _,
            base: _,
            problem,
            slot_size: old_size,
            deltas: _,
            slots: _,
            is_shut,
        } = self;
        if is_shut {
            return Err(StoreFault::Shut);
        }
        let end = end_of(problem.len() as u64, old_size);
        let all = renewal_of(alloc, &problem, slot_size, sequence, bytes)?;
        let slots = renewed_slots(alloc, sequence, bytes)?;
        let state = Entry {
            sequence,
            payload: bytes,
        };
        match write_renewal(disk, end, &problem, slot_size, state, &all) {
            Ok(()) => Ok(Store {
                version: 2,
                base: end,
                problem,
                slot_size,
                deltas: 0,
                slots,
                is_shut: false,
            }),
            Err(_) => Err(StoreFault::DiskFault),
        }
    }
}
