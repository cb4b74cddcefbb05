//! Opening a store: what the disk holds, by the tests on it in their order.
ghost use Rattle.std.specs.Prelude.{◌≡◌, ◌≤◌, ◌<◌, ◌+◌, ◌^◌, true, false, List, ℕ, Some, length, drop, slice_range, IfOk, OnOk, vec_len};
ghost use Rattle.amr_causes.specs.Causes.{HasCause};
ghost use Rattle.amr_disk.specs.Image.{Only};
ghost use Rattle.amr_store.specs.Checks.{IsOutline, IsHeldBy, IsInner, IsRenewedAt};
ghost use Rattle.amr_store.specs.Opened.{Finds, FindsIn, IsReadyFound, IsRenewedFound, IsUnshut};
ghost use Rattle.amr_store.specs.Phases.{OnlyReads, Told};
ghost use Rattle.amr_store.specs.Fields.{SaysHead};
ghost use Rattle.amr_store.specs.Reasons.{HasReason, is_disk_fault, is_no_memory, is_shut_fault};
ghost use Rattle.amr_store.specs.Stored.{stored, is_empty, is_renewed};
ghost use Rattle.amr_store.specs.Table.{slot_count, AreSound, IsNumbered};

use crate::check::{Checked, Outline, check};
use crate::device::{has_open_gate, read_from};
use crate::fields::Head;
use crate::found::Found;
use crate::part::{Part, StoreFault};
use crate::slot::end_of;
use crate::store::Store;
use amr_disk::{Disk, DiskFault};
use std::alloc::{AllocError, Global};

// So many zeros.
fn zeros(alloc: Global, count: usize) -> Result<Vec<u8>, AllocError>
    ensures count { IfOk result (λ v. vec_len v ≡ count) }
{
    let bytes = vec![in alloc; 0; count]?;
    Ok(bytes)
}

// The bytes at a place of the part of the disk from a base on. One that holds fewer gives zeros past them.
pub fn read_bytes<D: Disk>(
    alloc: Global,
    disk: &mut D,
    base: u64,
    at: u64,
    count: u64,
) -> Result<Vec<u8>, StoreFault>
    requires small { base + at + count < 2 ^ 48 }
    ensures count { IfOk result (λ v. vec_len v ≡ count) }
    ensures told { IfOk result (λ v. Told (D.seen disk.old) (λ s. at + count ≤ length (drop base s) → v.items ≡ slice_range (drop base s) at (at + count))) }
    ensures reads { OnlyReads D.seen D.moment D.leaves disk.old disk.new }
    ensures memory { is_no_memory result ≡ true → disk.new ≡ disk.old }
    ensures reason { HasReason (D.faults disk.old) (D.faults disk.new) result }
    ensures unshut { is_shut_fault result ≡ false }
{
    let mut bytes = match zeros(alloc, count as usize) {
        Ok(bytes) => bytes,
        Err(_) => return Err(StoreFault::NoMemory),
    };
    match read_from(disk, base, at, &mut bytes) {
        Ok(_) => Ok(bytes),
        Err(_) => Err(StoreFault::DiskFault),
    }
}

// The store at the first byte, which was not renewed.
fn open_plain<D: Disk>(alloc: Global, disk: &mut D, outline: Outline) -> Result<Found, StoreFault>
    requires text { outline.head.text ≤ 65536 }
    requires size { outline.head.slot_size ≤ 2 ^ 40 }
    requires numbered { IsNumbered outline.head.version outline.deltas }
    requires slots { vec_len outline.slots ≡ slot_count outline.deltas }
    requires sound { AreSound outline.deltas outline.slots.items }
    ensures told { IfOk result (λ found. Told (D.seen disk.old)
        (λ s. IsHeldBy outline.head s → IsOutline outline s → is_renewed s ≡ false → FindsIn found s)) }
    ensures open { IfOk result IsUnshut }
    ensures reads { OnlyReads D.seen D.moment D.leaves disk.old disk.new }
    ensures reason { HasReason (D.faults disk.old) (D.faults disk.new) result }
    ensures unshut { is_shut_fault result ≡ false }
{
    match read_bytes(alloc, disk, 0, 21, outline.head.text as u64) {
        Ok(problem) => Ok(Found::Ready(Store {
            version: outline.head.version,
            base: 0,
            problem,
            slot_size: outline.head.slot_size,
            deltas: outline.deltas,
            slots: outline.slots,
            is_shut: false,
        })),
        Err(fault) => Err(fault),
    }
}

// The store at the base, where it holds the problem of the one that it renewed.
fn same_problem(base: u64, inner: Outline, problem: Vec<u8>, old: &[u8]) -> Found
    requires base { base ≤ 2 ^ 43 }
    requires text { vec_len problem ≤ 65536 }
    requires size { inner.head.slot_size ≤ 2 ^ 40 }
    requires numbered { IsNumbered inner.head.version inner.deltas }
    requires slots { vec_len inner.slots ≡ slot_count inner.deltas }
    requires sound { AreSound inner.deltas inner.slots.items }
    ensures told { IsRenewedFound base inner problem.items old.now result }
    ensures open { IsUnshut result }
{
    if problem.as_slice() == old {
        Found::Ready(Store {
            version: inner.head.version,
            base,
            problem,
            slot_size: inner.head.slot_size,
            deltas: inner.deltas,
            slots: inner.slots,
            is_shut: false,
        })
    } else {
        Found::Damaged(Part::Renewal)
    }
}

// The store that renewed the one at the first byte, where none of its parts is damaged.
fn open_inner<D: Disk>(
    alloc: Global,
    disk: &mut D,
    text: u32,
    base: u64,
    inner: Outline,
) -> Result<Found, StoreFault>
    requires text { text ≤ 65536 }
    requires base { base ≤ 2 ^ 43 }
    requires inner_text { inner.head.text ≤ 65536 }
    requires inner_size { inner.head.slot_size ≤ 2 ^ 40 }
    requires numbered { IsNumbered inner.head.version inner.deltas }
    requires inner_slots { vec_len inner.slots ≡ slot_count inner.deltas }
    requires sound { AreSound inner.deltas inner.slots.items }
    ensures told { IfOk result (λ found. Told (D.seen disk.old) (λ s. IsRenewedAt text base s → IsInner inner (drop base s) → FindsIn found s)) }
    ensures open { IfOk result IsUnshut }
    ensures reads { OnlyReads D.seen D.moment D.leaves disk.old disk.new }
    ensures reason { HasReason (D.faults disk.old) (D.faults disk.new) result }
    ensures unshut { is_shut_fault result ≡ false }
{
    match read_bytes(alloc, disk, 0, 21, text as u64) {
        Ok(old) => match read_bytes(alloc, disk, base, 21, inner.head.text as u64) {
            Ok(problem) => Ok(same_problem(base, inner, problem, &old)),
            Err(fault) => Err(fault),
        },
        Err(fault) => Err(fault),
    }
}

// The store that renewed the one at the first byte.
fn open_renewed<D: Disk>(alloc: Global, disk: &mut D, head: Head) -> Result<Found, StoreFault>
    requires text { head.text ≤ 65536 }
    requires size { head.slot_size ≤ 2 ^ 40 }
    ensures told { IfOk result (λ found. Told (D.seen disk.old) (λ s. IsHeldBy head s → is_renewed s ≡ true → FindsIn found s)) }
    ensures open { IfOk result IsUnshut }
    ensures reads { OnlyReads D.seen D.moment D.leaves disk.old disk.new }
    ensures reason { HasReason (D.faults disk.old) (D.faults disk.new) result }
    ensures unshut { is_shut_fault result ≡ false }
{
    let base = end_of(head.text as u64, head.slot_size);
    match check(alloc, disk, base, false) {
        Ok(Checked::Whole(inner)) => open_inner(alloc, disk, head.text, base, inner),
        Ok(Checked::Faulty(part)) => Ok(Found::Damaged(part)),
        Err(fault) => Err(fault),
    }
}

// Whether a store of version 1 was renewed: an open gate and more follow its end.
fn was_renewed<D: Disk>(disk: &mut D, head: Head) -> Result<bool, DiskFault>
    requires text { head.text ≤ 65536 }
    requires size { head.slot_size ≤ 2 ^ 40 }
    ensures told { IfOk result (λ has. Told (D.seen disk.old) (λ s. SaysHead head s → has ≡ is_renewed s)) }
    ensures reads { OnlyReads D.seen D.moment D.leaves disk.old disk.new }
    ensures cause { HasCause (D.faults disk.old) (D.faults disk.new) result }
    ensures no_fault { OnOk result (D.faults disk.new ≡ D.faults disk.old) }
{
    if head.version != 1 {
        return Ok(false);
    }
    has_open_gate(disk, end_of(head.text as u64, head.slot_size))
}

// The store at the first byte, where none of its parts is damaged.
fn open_whole<D: Disk>(alloc: Global, disk: &mut D, outline: Outline) -> Result<Found, StoreFault>
    requires text { outline.head.text ≤ 65536 }
    requires size { outline.head.slot_size ≤ 2 ^ 40 }
    requires numbered { IsNumbered outline.head.version outline.deltas }
    requires slots { vec_len outline.slots ≡ slot_count outline.deltas }
    requires sound { AreSound outline.deltas outline.slots.items }
    ensures told { IfOk result (λ found. Told (D.seen disk.old) (λ s. IsHeldBy outline.head s → IsOutline outline s → FindsIn found s)) }
    ensures open { IfOk result IsUnshut }
    ensures reads { OnlyReads D.seen D.moment D.leaves disk.old disk.new }
    ensures reason { HasReason (D.faults disk.old) (D.faults disk.new) result }
    ensures unshut { is_shut_fault result ≡ false }
{
    match was_renewed(disk, outline.head) {
        Ok(true) => open_renewed(alloc, disk, outline.head),
        Ok(false) => open_plain(alloc, disk, outline),
        Err(_) => Err(StoreFault::DiskFault),
    }
}

// A store whose first byte is open.
fn open_held<D: Disk>(alloc: Global, disk: &mut D) -> Result<Found, StoreFault>
    ensures told { IfOk result (λ found. Told (D.seen disk.old) (λ s. is_empty s ≡ false → FindsIn found s)) }
    ensures open { IfOk result IsUnshut }
    ensures reads { OnlyReads D.seen D.moment D.leaves disk.old disk.new }
    ensures reason { HasReason (D.faults disk.old) (D.faults disk.new) result }
    ensures unshut { is_shut_fault result ≡ false }
{
    match check(alloc, disk, 0, true) {
        Ok(Checked::Whole(outline)) => open_whole(alloc, disk, outline),
        Ok(Checked::Faulty(part)) => Ok(Found::Damaged(part)),
        Err(fault) => Err(fault),
    }
}

// What a disk holds.
fn find<D: Disk>(alloc: Global, disk: &mut D) -> Result<Found, StoreFault>
    ensures told { IfOk result (λ found. Told (D.seen disk.old) (λ s. FindsIn found s)) }
    ensures open { IfOk result IsUnshut }
    ensures reads { OnlyReads D.seen D.moment D.leaves disk.old disk.new }
    ensures reason { HasReason (D.faults disk.old) (D.faults disk.new) result }
    ensures unshut { is_shut_fault result ≡ false }
{
    match has_open_gate(disk, 0) {
        Ok(true) => open_held(alloc, disk),
        Ok(false) => Ok(Found::Nothing),
        Err(_) => Err(StoreFault::DiskFault),
    }
}

// Syncs, so that nothing is pending.
fn settle<D: Disk>(disk: &mut D) -> Result<(), DiskFault>
    ensures settled { OnOk result (Only (D.seen disk.new) (D.leaves disk.new (D.moment disk.new))) }
    ensures reads { OnlyReads D.seen D.moment D.leaves disk.old disk.new }
    ensures cause { HasCause (D.faults disk.old) (D.faults disk.new) result }
    ensures no_fault { OnOk result (D.faults disk.new ≡ D.faults disk.old) }
{
    disk.sync()
}

impl Store {
    /// Finds out what a disk holds: no store, a store, or one of which a part is damaged, by the bytes alone. Begins with a sync, and
    /// reads heads, gates and the problem; of a payload it reads the first eight bytes, and looks whether its last byte is there. Writes nothing.
    /// Whatever it answers but a fault of the disk, a stop leaves what a read gives.
    pub fn open<D: Disk>(alloc: Global, disk: &mut D) -> Result<Found, StoreFault>
        ensures finds { IfOk result (λ found. Told (D.seen disk.old) (λ s. Finds found (stored s))) }
        ensures ready { IfOk result (λ found. IsReadyFound D.seen D.moment D.leaves found disk.new) }
        ensures settled { is_disk_fault result ≡ false → Only (D.seen disk.new) (D.leaves disk.new (D.moment disk.new)) }
        ensures reads { OnlyReads D.seen D.moment D.leaves disk.old disk.new }
        ensures reason { HasReason (D.faults disk.old) (D.faults disk.new) result }
        ensures unshut { is_shut_fault result ≡ false }
    {
        match settle(disk) {
            Ok(()) => find(alloc, disk),
            Err(DiskFault) => Err(StoreFault::DiskFault),
        }
    }
}
