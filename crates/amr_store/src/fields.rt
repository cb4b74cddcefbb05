//! The parts of a store, as they are read.
ghost use Rattle.std.specs.Prelude.{◌≡◌, ◌≤◌, ◌<◌, ◌+◌, ◌^◌, List, ℕ, Some, length, drop, IfOk, OnOk};
ghost use Rattle.amr_causes.specs.Causes.{HasCause};
ghost use Rattle.amr_store.specs.Layout.{long_at, word_at};
ghost use Rattle.amr_store.specs.Phases.{OnlyReads, Told};
ghost use Rattle.amr_store.specs.Stored.{front_in};
ghost use Rattle.amr_store.specs.Fields.{IsHeadOf, IsSlot, IsWithin, version_read, head_read, front_read, slot_read};

use crate::create::{MAGIC_1, MAGIC_2, MAGIC_3};
use crate::device::{has_byte_from, read_from};
use crate::put::OPEN;
use crate::slot::Slot;
use amr_disk::{Disk, DiskFault};

// What the head of a store says.
#[derive(Clone, Copy)]
pub struct Head {
    pub version: u32,
    pub slot_size: u64,
    pub text: u32,
}

// A slot, as it was found.
#[derive(Clone, Copy)]
pub enum SlotFound {
    Sound(Option<Slot>),
    Broken,
}

// The number of eight bytes at a place.
fn long_in(bytes: &[u8], at: usize) -> u64
    requires within { at + 8 ≤ length bytes.now }
    ensures { result ≡ long_at bytes.now at }
{
    u64::from_le_bytes([
        bytes[at],
        bytes[at + 1],
        bytes[at + 2],
        bytes[at + 3],
        bytes[at + 4],
        bytes[at + 5],
        bytes[at + 6],
        bytes[at + 7],
    ])
}

// The number of four bytes at a place.
fn word_in(bytes: &[u8], at: usize) -> u32
    requires within { at + 4 ≤ length bytes.now }
    ensures { result ≡ word_at bytes.now at }
{
    u32::from_le_bytes([bytes[at], bytes[at + 1], bytes[at + 2], bytes[at + 3]])
}

// The version of a magic, of all three or of the second alone.
fn version_of(magic: u64, takes_all: bool) -> Option<u32>
    ensures { result ≡ version_read takes_all magic }
{
    if magic == MAGIC_2 {
        return Some(2);
    }
    if !takes_all {
        return None;
    }
    if magic == MAGIC_1 {
        return Some(1);
    }
    if magic == MAGIC_3 {
        return Some(3);
    }
    None
}

// The head in a buffer of which n bytes were read; None where it is damaged.
fn head_in(bytes: &[u8], n: usize, takes_all: bool) -> Option<Head>
    requires buffer { length bytes.now ≡ 21 }
    ensures { result ≡ head_read bytes.now n takes_all }
{
    if n < 21 {
        return None;
    }
    let slot_size = long_in(bytes, 9);
    let text = word_in(bytes, 17);
    match version_of(long_in(bytes, 1), takes_all) {
        Some(version) => Some(Head {
            version,
            slot_size,
            text,
        }),
        None => None,
    }
}

// The head of the store at a base; None where it is damaged.
pub fn read_head<D: Disk>(
    disk: &mut D,
    base: u64,
    takes_all: bool,
) -> Result<Option<Head>, DiskFault>
    requires small { base < 2 ^ 47 }
    ensures told { IfOk result (λ head. Told (D.seen disk.old) (λ s. IsHeadOf head takes_all (drop base s))) }
    ensures reads { OnlyReads D.seen D.moment D.leaves disk.old disk.new }
    ensures cause { HasCause (D.faults disk.old) (D.faults disk.new) result }
    ensures no_fault { OnOk result (D.faults disk.new ≡ D.faults disk.old) }
{
    let mut bytes = [0u8; 21];
    let n = read_from(disk, base, 0, &mut bytes)?;
    Ok(head_in(&bytes, n, takes_all))
}

// The number that a payload of this length begins with, in the buffer of its slot.
fn front_in(bytes: &[u8], count: u64) -> Option<u64>
    requires buffer { length bytes.now ≡ 25 }
    ensures { result ≡ front_read bytes.now count }
{
    if count < 8 {
        None
    } else {
        Some(long_in(bytes, 17))
    }
}

// The number that a payload begins with.
pub fn front_of(payload: &[u8]) -> Option<u64>
    ensures { result ≡ front_in payload.now }
{
    if payload.len() < 8 {
        None
    } else {
        Some(long_in(payload, 0))
    }
}

// The slot in a buffer of which n bytes were read, short of the rest of its payload.
fn slot_in(bytes: &[u8], n: usize, size: u64) -> SlotFound
    requires buffer { length bytes.now ≡ 25 }
    ensures found { result ≡ slot_read bytes.now n size }
    ensures fits { IsWithin result size }
{
    if n < 1 {
        return SlotFound::Broken;
    }
    if bytes[0] != OPEN {
        return SlotFound::Sound(None);
    }
    if n < 17 {
        return SlotFound::Broken;
    }
    let sequence = long_in(bytes, 1);
    let length = long_in(bytes, 9);
    if size < length {
        return SlotFound::Broken;
    }
    if sequence == 0 {
        return SlotFound::Broken;
    }
    SlotFound::Sound(Some(Slot {
        sequence,
        length,
        front: front_in(bytes, length),
    }))
}

// The slot with its gate at this place of the store at a base. Of its payload the first eight bytes are read.
pub fn read_slot<D: Disk>(
    disk: &mut D,
    base: u64,
    gate: u64,
    size: u64,
) -> Result<SlotFound, DiskFault>
    requires small { base + gate + size < 2 ^ 47 }
    ensures told { IfOk result (λ slot. Told (D.seen disk.old) (λ s. IsSlot slot (drop base s) gate size)) }
    ensures reads { OnlyReads D.seen D.moment D.leaves disk.old disk.new }
    ensures cause { HasCause (D.faults disk.old) (D.faults disk.new) result }
    ensures no_fault { OnOk result (D.faults disk.new ≡ D.faults disk.old) }
{
    let mut bytes = [0u8; 25];
    let n = read_from(disk, base, gate, &mut bytes)?;
    match slot_in(&bytes, n, size) {
        SlotFound::Sound(Some(slot)) => {
            match has_byte_from(disk, base, gate + 16 + slot.length) {
                Ok(true) => Ok(SlotFound::Sound(Some(slot))),
                Ok(false) => Ok(SlotFound::Broken),
                Err(fault) => Err(fault),
            }
        }
        SlotFound::Sound(None) => Ok(SlotFound::Sound(None)),
        SlotFound::Broken => Ok(SlotFound::Broken),
    }
}
