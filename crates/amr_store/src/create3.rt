//! A new store of version 3 over an empty disk: records may follow each whole state.
ghost use Rattle.std.specs.Prelude.{◌≡◌, ◌≤◌, ◌<◌, ◌+◌, ◌*◌, ◌-◌, ◌^◌, false, true, List, ℕ, Some, None, length, IsSome, IfOk, OnOk, vec_len, option_map};
ghost use Rattle.amr_causes.specs.Causes.{HasCause};
ghost use Rattle.amr_disk.specs.Image.{Only};
ghost use Rattle.amr_store.specs.Created.{EmptyOrWith, IsShutFirst, IsLaid, IsMade, head_bytes_3, state_with, gates_shut, laid_image_3, created_image_3};
ghost use Rattle.amr_store.specs.Phases.{StopsFrom};
ghost use Rattle.amr_store.specs.Reasons.{HasReason, is_no_memory, is_shut_fault};
ghost use Rattle.amr_store.specs.Stands.{IsStoreOf, IsStoreReady, chain_in, last_in};
ghost use Rattle.amr_store.specs.Stored.{stored, is_empty, Empty, Held};

use crate::create::{close_first, closed_slots, copy_of, head_of};
use crate::device::write_synced;
use crate::part::StoreFault;
use crate::put::OPEN;
use crate::slot::{gate_at, lead_length};
use crate::store::Store;
use amr_disk::{Disk, DiskFault};
use std::alloc::{AllocError, Global};

// The same in version 3, where the number of records behind a base follows the problem, and the closed gate of the first slot.
fn head_with_gate(
    alloc: Global,
    problem: &[u8],
    slot_size: u64,
    deltas: u8,
) -> Result<Vec<u8>, AllocError>
    requires text { length problem.now ≤ 65536 }
    ensures bytes { IfOk result (λ v. v.items ≡ head_bytes_3 deltas problem.now slot_size) }
    ensures count { IfOk result (λ v. vec_len v ≡ 22 + length problem.now) }
{
    let mut head = head_of(alloc, 3, problem, slot_size, deltas)?;
    head.push(0)?;
    Ok(head)
}

// Lays the store behind its closed first byte: the head with the first gate, each other gate, and one sync.
fn lay<D: Disk>(
    disk: &mut D,
    problem: &[u8],
    slot_size: u64,
    deltas: u8,
    head: &[u8],
) -> Result<(), DiskFault>
    requires some { 0 < deltas }
    requires few { deltas ≤ 7 }
    requires text { length problem.now ≤ 65536 }
    requires size { slot_size ≤ 2 ^ 40 }
    requires count { length head.now ≡ 22 + length problem.now }
    requires head { head.now ≡ head_bytes_3 deltas problem.now slot_size }
    requires settled { Only (D.seen disk.old) (D.leaves disk.old (D.moment disk.old)) }
    ensures seen { OnOk result (D.seen disk.new ≡ option_map (laid_image_3 deltas problem.now slot_size) (D.seen disk.old)) }
    ensures laid { OnOk result ((t : List ℕ) → D.seen disk.new ≡ Some t → IsLaid 3 deltas problem.now slot_size t) }
    ensures told { OnOk result ((s : List ℕ) → D.seen disk.old ≡ Some s → IsSome (D.seen disk.new)) }
    ensures stops { StopsFrom D.seen D.moment D.leaves disk.old disk.new (λ s c. IsShutFirst s → IsShutFirst c) }
    ensures settled { OnOk result (Only (D.seen disk.new) (D.leaves disk.new (D.moment disk.new))) }
    ensures cause { HasCause (D.faults disk.old) (D.faults disk.new) result }
    ensures no_fault { OnOk result (D.faults disk.new ≡ D.faults disk.old) }
{
    let lead = lead_length(3, problem.len() as u64);
    disk.write_at(1, head)?;
    for k in 1..2 * (1 + deltas as usize) {
        disk.write_at(gate_at(k, lead, slot_size), &[0])?;
    }
    disk.sync()
}

// The three steps of a new store.
fn write_store<D: Disk>(
    disk: &mut D,
    problem: &[u8],
    slot_size: u64,
    deltas: u8,
    head: &[u8],
) -> Result<(), DiskFault>
    requires some { 0 < deltas }
    requires few { deltas ≤ 7 }
    requires text { length problem.now ≤ 65536 }
    requires size { slot_size ≤ 2 ^ 40 }
    requires count { length head.now ≡ 22 + length problem.now }
    requires head { head.now ≡ head_bytes_3 deltas problem.now slot_size }
    requires settled { Only (D.seen disk.old) (D.leaves disk.old (D.moment disk.old)) }
    requires empty { (s : List ℕ) → D.seen disk.old ≡ Some s → is_empty s ≡ true }
    ensures seen { OnOk result (D.seen disk.new ≡ option_map (created_image_3 deltas problem.now slot_size) (D.seen disk.old)) }
    ensures made { OnOk result ((t : List ℕ) → D.seen disk.new ≡ Some t → IsMade 3 deltas problem.now slot_size t) }
    ensures stops { StopsFrom D.seen D.moment D.leaves disk.old disk.new (EmptyOrWith 3 deltas problem.now slot_size) }
    ensures settled { OnOk result (Only (D.seen disk.new) (D.leaves disk.new (D.moment disk.new))) }
    ensures cause { HasCause (D.faults disk.old) (D.faults disk.new) result }
    ensures no_fault { OnOk result (D.faults disk.new ≡ D.faults disk.old) }
{
    match close_first(disk) {
        Ok(()) => match lay(disk, problem, slot_size, deltas, head) {
            Ok(()) => write_synced(disk, 0, &[OPEN]),
            Err(fault) => Err(fault),
        },
        Err(fault) => Err(fault),
    }
}

impl Store {
    /// Makes a store of version 3 without open slots on a disk where none was made: so many records may follow each whole state, 1 to 7. A slot may
    /// hold `slot_size` bytes. All memory is taken before the disk is written. A stop at any moment leaves no store, or the new one.
    pub fn create3<D: Disk>(
        alloc: Global,
        disk: &mut D,
        problem: &[u8],
        slot_size: u64,
        deltas: u32,
    ) -> Result<Store, StoreFault>
        requires some { 0 < deltas }
        requires few { deltas ≤ 7 }
        requires text { length problem.now ≤ 65536 }
        requires size { slot_size ≤ 2 ^ 40 }
        requires settled { Only (D.seen disk.old) (D.leaves disk.old (D.moment disk.old)) }
        requires empty { (s : List ℕ) → D.seen disk.old ≡ Some s → stored s ≡ Empty }
        ensures ready { IfOk result (λ store. IsStoreReady D.seen D.moment D.leaves store disk.new) }
        ensures store { IfOk result (IsStoreOf 3 problem.now slot_size deltas) }
        ensures chain { IfOk result (λ store. chain_in store ≡ 0) }
        ensures last { IfOk result (λ store. last_in store ≡ None) }
        ensures seen { OnOk result (D.seen disk.new ≡ option_map (created_image_3 deltas problem.now slot_size) (D.seen disk.old)) }
        ensures made { OnOk result ((t : List ℕ) → D.seen disk.new ≡ Some t → stored t ≡ Held (state_with 3 deltas problem.now slot_size)) }
        ensures stops { StopsFrom D.seen D.moment D.leaves disk.old disk.new (EmptyOrWith 3 deltas problem.now slot_size) }
        ensures memory { is_no_memory result ≡ true → disk.new ≡ disk.old }
        ensures reason { HasReason (D.faults disk.old) (D.faults disk.new) result }
        ensures unshut { is_shut_fault result ≡ false }
    {
        let number = deltas as u8;
        let head = head_with_gate(alloc, problem, slot_size, number)?;
        let kept = copy_of(alloc, problem)?;
        let slots = closed_slots(alloc, 2 * (1 + deltas as usize))?;
        match write_store(disk, problem, slot_size, number, &head) {
            Ok(()) => Ok(Store {
                version: 3,
                base: 0,
                problem: kept,
                slot_size,
                deltas: deltas as usize,
                slots,
                is_shut: false,
            }),
            Err(_) => Err(StoreFault::DiskFault),
        }
    }
}
