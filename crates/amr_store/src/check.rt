//! The tests on the store at a base, in their order.
ghost use Rattle.std.specs.Prelude.{◌≡◌, ◌≤◌, ◌<◌, ◌+◌, ◌^◌, false, drop, length, IfOk, IfSome, OnOk};
ghost use Rattle.amr_causes.specs.Causes.{HasCause};
ghost use Rattle.amr_store.specs.Checks.{AreSlots, Checks, HasAll, HasRoom};
ghost use Rattle.amr_store.specs.Phases.{OnlyReads, Told};
ghost use Rattle.amr_store.specs.Fields.{AreDeltas, SaysHead, deltas_read, magic_in, deltas_tests, text_tests};
ghost use Rattle.amr_store.specs.Reasons.{HasReason, is_shut_fault};
ghost use Rattle.amr_store.specs.Layout.{gate_at, lead_length};
ghost use Rattle.amr_store.specs.Stored.{deltas_of, slot_tests, tests};
ghost use Rattle.amr_store.specs.Table.{IsNumbered, slot_count};

use crate::device::{has_byte_from, read_from};
use crate::fields::{Head, SlotFound, read_head, read_slot};
use crate::part::{Part, StoreFault};
use crate::slot::{Slot, first_stray, gate_at, is_tied, lead_length};
use amr_disk::{Disk, DiskFault};
use std::alloc::Global;

// What is known of a store without its problem and its payloads.
#[derive(Drop)]
pub struct Outline {
    pub head: Head,
    pub deltas: usize,
    pub slots: Vec<Option<Slot>>,
}

// What the tests on a store find: none of its parts damaged, or this one first.
#[derive(Drop)]
pub enum Checked {
    Whole(Outline),
    Faulty(Part),
}

// The slots of a store that were read: all of them, or the first that is broken.
#[derive(Drop)]
pub enum SlotsFound {
    Sound(Vec<Option<Slot>>),
    Broken(u32),
}

// Where the gate of a slot stands behind a head.
fn gate_of(head: Head, k: usize) -> u64
    requires few { k ≤ 15 }
    requires text { head.text ≤ 65536 }
    requires size { head.slot_size ≤ 2 ^ 40 }
    ensures place { result ≡ gate_at k (lead_length head.version head.text) head.slot_size }
    ensures bound { result + head.slot_size < 2 ^ 46 }
{
    let lead = lead_length(head.version, head.text as u64);
    gate_at(k, lead, head.slot_size)
}

// Reads the slots one after the other, up to the first that is broken.
fn read_slots<D: Disk>(
    alloc: Global,
    disk: &mut D,
    base: u64,
    head: Head,
    deltas: usize,
) -> Result<SlotsFound, StoreFault>
    requires base { base ≤ 2 ^ 43 }
    requires text { head.text ≤ 65536 }
    requires size { head.slot_size ≤ 2 ^ 40 }
    requires few { deltas ≤ 7 }
    ensures told { IfOk result (λ found. Told (D.seen disk.old)
        (λ s. AreSlots found (drop base s) (lead_length head.version head.text) head.slot_size (slot_count deltas))) }
    ensures all { IfOk result (HasAll (slot_count deltas)) }
    ensures reads { OnlyReads D.seen D.moment D.leaves disk.old disk.new }
    ensures reason { HasReason (D.faults disk.old) (D.faults disk.new) result }
    ensures unshut { is_shut_fault result ≡ false }
{
    let mut slots = Vec::new(alloc);
    for k in 0..2 * (1 + deltas) {
        let gate = gate_of(head, k);
        match read_slot(disk, base, gate, head.slot_size)? {
            SlotFound::Broken => return Ok(SlotsFound::Broken(k as u32)),
            SlotFound::Sound(slot) => slots.push(slot)?,
        }
    }
    Ok(SlotsFound::Sound(slots))
}

// The tests on the slots.
fn check_slots<D: Disk>(
    alloc: Global,
    disk: &mut D,
    base: u64,
    head: Head,
    deltas: usize,
) -> Result<Checked, StoreFault>
    requires base { base ≤ 2 ^ 43 }
    requires text { head.text ≤ 65536 }
    requires size { head.slot_size ≤ 2 ^ 40 }
    requires numbered { IsNumbered head.version deltas }
    ensures told { IfOk result (λ checked. Told (D.seen disk.old)
        (λ s. SaysHead head (drop base s) → deltas ≡ deltas_of (drop base s) → Checks checked (slot_tests (drop base s)) (drop base s))) }
    ensures fits { IfOk result HasRoom }
    ensures reads { OnlyReads D.seen D.moment D.leaves disk.old disk.new }
    ensures reason { HasReason (D.faults disk.old) (D.faults disk.new) result }
    ensures unshut { is_shut_fault result ≡ false }
{
    match read_slots(alloc, disk, base, head, deltas)? {
        SlotsFound::Broken(number) => Ok(Checked::Faulty(Part::Slot(number))),
        SlotsFound::Sound(slots) => {
            if is_tied(&slots, deltas) {
                return Ok(Checked::Faulty(Part::Tie));
            }
            match first_stray(&slots, deltas) {
                Some(number) => Ok(Checked::Faulty(Part::Slot(number))),
                None => Ok(Checked::Whole(Outline {
                    head,
                    deltas,
                    slots,
                })),
            }
        }
    }
}

// How many records follow each base of a store: none in versions 1 and 2; None where the number is missing, 0 or more than 7.
fn read_deltas<D: Disk>(disk: &mut D, base: u64, head: Head) -> Result<Option<usize>, DiskFault>
    requires base { base ≤ 2 ^ 43 }
    requires text { head.text ≤ 65536 }
    ensures told { IfOk result (λ deltas. Told (D.seen disk.old) (λ s. SaysHead head (drop base s) → AreDeltas deltas (drop base s))) }
    ensures numbered { IfOk result (λ deltas. IfSome deltas (λ n. IsNumbered head.version n)) }
    ensures reads { OnlyReads D.seen D.moment D.leaves disk.old disk.new }
    ensures cause { HasCause (D.faults disk.old) (D.faults disk.new) result }
    ensures no_fault { OnOk result (D.faults disk.new ≡ D.faults disk.old) }
{
    if head.version != 3 {
        return Ok(Some(0));
    }
    let mut byte = [0u8];
    let n = read_from(disk, base, 21 + head.text as u64, &mut byte)?;
    Ok(deltas_in(&byte, n))
}

// The number in a buffer of which n bytes were read.
fn deltas_in(byte: &[u8], n: usize) -> Option<usize>
    requires buffer { length byte.now ≡ 1 }
    ensures number { result ≡ deltas_read byte.now n }
    ensures few { IfSome result (λ n. n ≤ 7) }
    ensures some { IfSome result (λ n. 0 < n) }
{
    if n < 1 {
        return None;
    }
    if byte[0] == 0 {
        return None;
    }
    if 7 < byte[0] {
        return None;
    }
    Some(byte[0] as usize)
}

// The tests on the number of records, the size and the slots.
fn check_deltas<D: Disk>(
    alloc: Global,
    disk: &mut D,
    base: u64,
    head: Head,
) -> Result<Checked, StoreFault>
    requires base { base ≤ 2 ^ 43 }
    requires text { head.text ≤ 65536 }
    ensures told { IfOk result (λ checked. Told (D.seen disk.old)
        (λ s. SaysHead head (drop base s) → Checks checked (deltas_tests (drop base s)) (drop base s))) }
    ensures fits { IfOk result HasRoom }
    ensures reads { OnlyReads D.seen D.moment D.leaves disk.old disk.new }
    ensures reason { HasReason (D.faults disk.old) (D.faults disk.new) result }
    ensures unshut { is_shut_fault result ≡ false }
{
    match read_deltas(disk, base, head)? {
        None => Ok(Checked::Faulty(Part::Deltas)),
        Some(deltas) => {
            if (1 << 40) < head.slot_size {
                return Ok(Checked::Faulty(Part::Size));
            }
            check_slots(alloc, disk, base, head, deltas)
        }
    }
}

// The tests from the one on the text on.
fn check_text<D: Disk>(
    alloc: Global,
    disk: &mut D,
    base: u64,
    head: Head,
) -> Result<Checked, StoreFault>
    requires base { base ≤ 2 ^ 43 }
    ensures told { IfOk result (λ checked. Told (D.seen disk.old)
        (λ s. SaysHead head (drop base s) → Checks checked (text_tests (drop base s)) (drop base s))) }
    ensures fits { IfOk result HasRoom }
    ensures reads { OnlyReads D.seen D.moment D.leaves disk.old disk.new }
    ensures reason { HasReason (D.faults disk.old) (D.faults disk.new) result }
    ensures unshut { is_shut_fault result ≡ false }
{
    if 65536 < head.text {
        return Ok(Checked::Faulty(Part::Text));
    }
    match has_byte_from(disk, base, 20 + head.text as u64) {
        Ok(true) => {}
        Ok(false) => return Ok(Checked::Faulty(Part::Text)),
        Err(_) => return Err(StoreFault::DiskFault),
    }
    check_deltas(alloc, disk, base, head)
}

// All tests on the store at a base. Where `takes_all` is false the second magic alone counts.
pub fn check<D: Disk>(
    alloc: Global,
    disk: &mut D,
    base: u64,
    takes_all: bool,
) -> Result<Checked, StoreFault>
    requires base { base ≤ 2 ^ 43 }
    ensures told { IfOk result (λ checked. Told (D.seen disk.old)
        (λ s. Checks checked (tests (magic_in takes_all (drop base s)) (drop base s)) (drop base s))) }
    ensures fits { IfOk result HasRoom }
    ensures reads { OnlyReads D.seen D.moment D.leaves disk.old disk.new }
    ensures reason { HasReason (D.faults disk.old) (D.faults disk.new) result }
    ensures unshut { is_shut_fault result ≡ false }
{
    match read_head(disk, base, takes_all)? {
        None => Ok(Checked::Faulty(Part::Head)),
        Some(head) => check_text(alloc, disk, base, head),
    }
}
