//! A new store over an empty disk.
ghost use Rattle.std.specs.Prelude.{◌≡◌, ◌≤◌, ◌<◌, ◌+◌, ◌^◌, ◌⊎◌, ◌==◌, ◌&&◌, true, false, nat_lt, List, ℕ, Some, None};
ghost use Rattle.std.specs.Prelude.{length, IsSome, IfOk, OnOk, replicate, vec_len, option_map};
ghost use Rattle.amr_causes.specs.Causes.{HasCause};
ghost use Rattle.amr_disk.specs.Image.{Only};
ghost use Rattle.amr_store.specs.Created.{EmptyOrNew, IsVersion, IsShutFirst, IsLaid, IsMade, magic_of, head_bytes};
ghost use Rattle.amr_store.specs.Created.{new_state, shut_first, laid_image, created_image};
ghost use Rattle.amr_store.specs.Phases.{OnlyReads, StopsFrom, Told};
ghost use Rattle.amr_store.specs.Reasons.{HasReason, is_no_memory, is_shut_fault};
ghost use Rattle.amr_store.specs.Stands.{IsStoreOf, IsStoreReady, last_in};
ghost use Rattle.amr_store.specs.Stored.{stored, is_empty, Empty, Held};

use crate::device::{Write, has_byte, write_synced, write_three_synced, write_two_synced};
use crate::part::StoreFault;
use crate::put::OPEN;
use crate::slot::{Slot, end_of, gate_at};
use crate::store::Store;
use amr_disk::{Disk, DiskFault};
use std::alloc::{AllocError, Global};

// The bytes AMRSTOR1, AMRSTOR2 and AMRSTOR3, as numbers.
pub const MAGIC_1: u64 = 0x3152_4f54_5352_4d41;

pub const MAGIC_2: u64 = 0x3252_4f54_5352_4d41;

pub const MAGIC_3: u64 = 0x3352_4f54_5352_4d41;

// The magic of a version.
fn magic_of(version: u32) -> u64
    ensures { result ≡ magic_of version }
{
    match version {
        1 => MAGIC_1,
        3 => MAGIC_3,
        _ => MAGIC_2,
    }
}

// The head of a store behind its gate, its problem, and the byte behind it.
pub fn head_of(
    alloc: Global,
    version: u32,
    problem: &[u8],
    slot_size: u64,
    last: u8,
) -> Result<Vec<u8>, AllocError>
    requires text { length problem.now ≤ 65536 }
    ensures bytes { IfOk result (λ v. v.items ≡ head_bytes last version problem.now slot_size) }
    ensures count { IfOk result (λ v. vec_len v ≡ 21 + length problem.now) }
{
    let mut head = Vec::new(alloc);
    head.extend_from_slice(&magic_of(version).to_le_bytes())?;
    head.extend_from_slice(&slot_size.to_le_bytes())?;
    head.extend_from_slice(&(problem.len() as u32).to_le_bytes())?;
    head.extend_from_slice(problem)?;
    head.push(last)?;
    Ok(head)
}

// So many closed slots.
pub fn closed_slots(alloc: Global, count: usize) -> Result<Vec<Option<Slot>>, AllocError>
    ensures slots { IfOk result (λ v. v.items ≡ replicate count None) }
    ensures count { IfOk result (λ v. vec_len v ≡ count) }
{
    let slots = vec![in alloc; None; count]?;
    Ok(slots)
}

// A copy of the bytes.
pub fn copy_of(alloc: Global, bytes: &[u8]) -> Result<Vec<u8>, AllocError>
    ensures items { IfOk result (λ v. v.items ≡ bytes.now) }
{
    let mut copy = Vec::new(alloc);
    copy.extend_from_slice(bytes)?;
    Ok(copy)
}

// Closes the first byte, where it is not closed already.
pub fn close_first<D: Disk>(disk: &mut D) -> Result<(), DiskFault>
    requires settled { Only (D.seen disk.old) (D.leaves disk.old (D.moment disk.old)) }
    requires empty { (s : List ℕ) → D.seen disk.old ≡ Some s → is_empty s ≡ true }
    ensures shut { OnOk result ((t : List ℕ) → D.seen disk.new ≡ Some t → IsShutFirst t) }
    ensures seen { OnOk result (D.seen disk.new ≡ option_map shut_first (D.seen disk.old)) }
    ensures told { OnOk result ((s : List ℕ) → D.seen disk.old ≡ Some s → IsSome (D.seen disk.new)) }
    ensures stops { StopsFrom D.seen D.moment D.leaves disk.old disk.new (λ s c. stored c ≡ Empty) }
    ensures settled { OnOk result (Only (D.seen disk.new) (D.leaves disk.new (D.moment disk.new))) }
    ensures cause { HasCause (D.faults disk.old) (D.faults disk.new) result }
    ensures no_fault { OnOk result (D.faults disk.new ≡ D.faults disk.old) }
{
    match has_byte(disk, 1) {
        Ok(true) => Ok(()),
        Ok(false) => write_synced(disk, 0, &[0]),
        Err(fault) => Err(fault),
    }
}

// Whether a byte follows a store of version 1: an open one there would renew it.
fn has_renewal_gate<D: Disk>(disk: &mut D, version: u32, end: u64) -> Result<bool, DiskFault>
    requires small { end + 1 < 2 ^ 48 }
    ensures told { IfOk result (λ has. Told (D.seen disk.old) (λ s. has ≡ (version == 1 && nat_lt end (length s)))) }
    ensures reads { OnlyReads D.seen D.moment D.leaves disk.old disk.new }
    ensures cause { HasCause (D.faults disk.old) (D.faults disk.new) result }
    ensures no_fault { OnOk result (D.faults disk.new ≡ D.faults disk.old) }
{
    if version == 1 {
        has_byte(disk, end)
    } else {
        Ok(false)
    }
}

// Lays the store behind its closed first byte.
fn lay<D: Disk>(
    disk: &mut D,
    version: u32,
    problem: &[u8],
    slot_size: u64,
    head: &[u8],
) -> Result<(), DiskFault>
    requires version { IsVersion version }
    requires text { length problem.now ≤ 65536 }
    requires size { slot_size ≤ 2 ^ 40 }
    requires count { length head.now ≡ 21 + length problem.now }
    requires head { head.now ≡ head_bytes 0 version problem.now slot_size }
    requires settled { Only (D.seen disk.old) (D.leaves disk.old (D.moment disk.old)) }
    ensures seen { OnOk result (D.seen disk.new ≡ option_map (laid_image version problem.now slot_size) (D.seen disk.old)) }
    ensures laid { OnOk result ((t : List ℕ) → D.seen disk.new ≡ Some t → IsLaid version 0 problem.now slot_size t) }
    ensures told { OnOk result ((s : List ℕ) → D.seen disk.old ≡ Some s → IsSome (D.seen disk.new)) }
    ensures stops { StopsFrom D.seen D.moment D.leaves disk.old disk.new (λ s c. IsShutFirst s → IsShutFirst c) }
    ensures settled { OnOk result (Only (D.seen disk.new) (D.leaves disk.new (D.moment disk.new))) }
    ensures cause { HasCause (D.faults disk.old) (D.faults disk.new) result }
    ensures no_fault { OnOk result (D.faults disk.new ≡ D.faults disk.old) }
{
    let text = problem.len() as u64;
    let gate = gate_at(1, text, slot_size);
    let end = end_of(text, slot_size);
    match has_renewal_gate(disk, version, end) {
        Ok(true) => write_three_synced(
            disk,
            Write { at: 1, bytes: head },
            Write {
                at: gate,
                bytes: &[0],
            },
            Write {
                at: end,
                bytes: &[0],
            },
        ),
        Ok(false) => write_two_synced(disk, 1, head, gate, &[0]),
        Err(fault) => Err(fault),
    }
}

// The three steps of a new store.
fn write_store<D: Disk>(
    disk: &mut D,
    version: u32,
    problem: &[u8],
    slot_size: u64,
    head: &[u8],
) -> Result<(), DiskFault>
    requires version { IsVersion version }
    requires text { length problem.now ≤ 65536 }
    requires size { slot_size ≤ 2 ^ 40 }
    requires count { length head.now ≡ 21 + length problem.now }
    requires head { head.now ≡ head_bytes 0 version problem.now slot_size }
    requires settled { Only (D.seen disk.old) (D.leaves disk.old (D.moment disk.old)) }
    requires empty { (s : List ℕ) → D.seen disk.old ≡ Some s → is_empty s ≡ true }
    ensures seen { OnOk result (D.seen disk.new ≡ option_map (created_image version problem.now slot_size) (D.seen disk.old)) }
    ensures made { OnOk result ((t : List ℕ) → D.seen disk.new ≡ Some t → IsMade version 0 problem.now slot_size t) }
    ensures stops { StopsFrom D.seen D.moment D.leaves disk.old disk.new (EmptyOrNew version problem.now slot_size) }
    ensures settled { OnOk result (Only (D.seen disk.new) (D.leaves disk.new (D.moment disk.new))) }
    ensures cause { HasCause (D.faults disk.old) (D.faults disk.new) result }
    ensures no_fault { OnOk result (D.faults disk.new ≡ D.faults disk.old) }
{
    match close_first(disk) {
        Ok(()) => match lay(disk, version, problem, slot_size, head) {
            Ok(()) => write_synced(disk, 0, &[OPEN]),
            Err(fault) => Err(fault),
        },
        Err(fault) => Err(fault),
    }
}

impl Store {
    /// Makes a store of version 1 or 2 without open slots on a disk where none was made. A slot may hold `slot_size` bytes. All memory is
    /// taken before the disk is written. A stop at any moment leaves no store, or the new one.
    pub fn create<D: Disk>(
        alloc: Global,
        disk: &mut D,
        problem: &[u8],
        slot_size: u64,
        version: u32,
    ) -> Result<Store, StoreFault>
        requires version { IsVersion version }
        requires text { length problem.now ≤ 65536 }
        requires size { slot_size ≤ 2 ^ 40 }
        requires settled { Only (D.seen disk.old) (D.leaves disk.old (D.moment disk.old)) }
        requires empty { (s : List ℕ) → D.seen disk.old ≡ Some s → stored s ≡ Empty }
        ensures ready { IfOk result (λ store. IsStoreReady D.seen D.moment D.leaves store disk.new) }
        ensures store { IfOk result (IsStoreOf version problem.now slot_size 0) }
        ensures last { IfOk result (λ store. last_in store ≡ None) }
        ensures seen { OnOk result (D.seen disk.new ≡ option_map (created_image version problem.now slot_size) (D.seen disk.old)) }
        ensures made { OnOk result ((t : List ℕ) → D.seen disk.new ≡ Some t → stored t ≡ Held (new_state version problem.now slot_size)) }
        ensures stops { StopsFrom D.seen D.moment D.leaves disk.old disk.new (EmptyOrNew version problem.now slot_size) }
        ensures memory { is_no_memory result ≡ true → disk.new ≡ disk.old }
        ensures reason { HasReason (D.faults disk.old) (D.faults disk.new) result }
        ensures unshut { is_shut_fault result ≡ false }
    {
        let head = head_of(alloc, version, problem, slot_size, 0)?;
        let kept = copy_of(alloc, problem)?;
        let slots = closed_slots(alloc, 2)?;
        match write_store(disk, version, problem, slot_size, &head) {
            Ok(()) => Ok(Store {
                version,
                base: 0,
                problem: kept,
                slot_size,
                deltas: 0,
                slots,
                is_shut: false,
            }),
            Err(_) => Err(StoreFault::DiskFault),
        }
    }
}
