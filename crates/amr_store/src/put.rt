//! The three steps of a put. A stop in the first leaves a closed gate closed, and an open one any byte over a slot that
//! is as it was. In the second the gate is closed on the disk. In the third the gate is any byte over a slot that is
//! synced.
ghost use Rattle.std.specs.Prelude.{◌≡◌, ◌≤◌, ◌<◌, ◌+◌, ◌^◌, ◌++◌, ◌∷◌, [], false, true, List, ℕ, Some, None, length};
ghost use Rattle.std.specs.Prelude.{slice_set, IfOk, IfSome, OnOk, OnErr, MatchResult, option_map, if◌then◌else◌};
ghost use Rattle.std.specs.Int.{to_le_bytes, w64};
ghost use Rattle.amr_disk.specs.Moments.{StopsIn};
ghost use Rattle.amr_store.specs.Phases.{StopsFrom};
ghost use Rattle.amr_store.specs.Reasons.{HasReason, Shuts, is_no_memory};
ghost use Rattle.amr_store.specs.Stands.{IsStoreReady, IsClosed, IsFilledIn, SameStore, Stands, MayStand, IsNext, IsOnLast, HoldsFilled, is_shut};
ghost use Rattle.amr_store.specs.Stands.{next_in, next_record_in, chain_in, deltas_in, front_filled, slot_image, record_image, gate_in, slots_in};
ghost use Rattle.amr_store.specs.Stands.{last_in, slot_size_in, put_slot, closed_image, filled_image, opened_image, put_image, closing_chunk};
ghost use Rattle.amr_store.specs.Stands.{slot_closed, slot_filled, sequence_filled, length_filled, opened_slot};
ghost use Rattle.amr_store.specs.Stored.{SameOr, SameOrPut, SameOrRecorded, SameStored, front_in, stored, with_latest, with_put, with_record};
ghost use Rattle.amr_store.specs.Table.{is_base};

use crate::device::{write_synced, write_two_synced};
use crate::fields::front_of;
use crate::part::StoreFault;
use crate::slot::Slot;
use crate::store::Store;
use amr_disk::Disk;

// A gate is open where its byte is this one.
pub const OPEN: u8 = 0xA5;

/// A store whose next slot is closed, on the disk too. Where it is dropped the slot stays closed, and the others as they were.
#[derive(Drop)]
pub struct Closed {
    which: usize,
}

/// A store whose next slot is filled behind its closed gate. Where it is dropped the slot stays closed, and the others as they were.
#[derive(Drop)]
pub struct Filled {
    which: usize,
    slot: Slot,
}

// The head of a slot: its sequence and the length of its payload.
pub fn slot_head(sequence: u64, length: u64) -> [u8; 16]
    ensures { result ≡ to_le_bytes w64 sequence ++ to_le_bytes w64 length }
{
    let s = sequence.to_le_bytes();
    let n = length.to_le_bytes();
    [
        s[0], s[1], s[2], s[3], s[4], s[5], s[6], s[7], n[0], n[1], n[2], n[3], n[4], n[5], n[6],
        n[7],
    ]
}

// What is written at a gate to close it: nothing where it is closed already.
fn chunk_to_close(slot: Option<Slot>) -> &'static [u8]
    ensures { result.now ≡ closing_chunk slot }
{
    match slot {
        Some(_) => &[0],
        None => &[],
    }
}

impl Store {
    // Closes the gate of a slot that holds no state that counts.
    fn close<D: Disk>(&mut self, disk: &mut D, which: usize) -> Result<Closed, StoreFault>
        requires ready { IsStoreReady D.seen D.moment D.leaves self.old disk.old }
        requires next { IsNext which self.old }
        ensures closed { IfOk result (λ closed. IsClosed (slot_closed closed) self.new) }
        ensures which { IfOk result (λ closed. slot_closed closed ≡ which) }
        ensures slots { OnOk result (slots_in self.new ≡ slice_set (slots_in self.old) which None) }
        ensures ready { OnOk result (IsStoreReady D.seen D.moment D.leaves self.new disk.new) }
        ensures seen { OnOk result (D.seen disk.new ≡ option_map (closed_image self.old which) (D.seen disk.old)) }
        ensures stops { is_shut self.old ≡ false → StopsFrom D.seen D.moment D.leaves disk.old disk.new SameStored }
        ensures same { SameStore self.old self.new }
        ensures last { last_in self.new ≡ last_in self.old }
        ensures shuts { Shuts (is_shut self.old) (is_shut self.new) result }
        ensures untouched { is_shut self.old ≡ true → disk.new ≡ disk.old }
        ensures reason { HasReason (D.faults disk.old) (D.faults disk.new) result }
        ensures memory { is_no_memory result ≡ false }
    {
        if self.is_shut {
            return Err(StoreFault::Shut);
        }
        let chunk = chunk_to_close(self.slot(which));
        match write_synced(disk, self.gate(which), chunk) {
            Ok(()) => {
                self.set_slot(which, None);
                Ok(Closed { which })
            }
            Err(_) => {
                self.shut();
                Err(StoreFault::DiskFault)
            }
        }
    }

    /// Closes the gate of the base that is written next; the other one holds the latest whole state. Reads nothing. Where the store is shut the
    /// disk is as before.
    pub fn close_gate<D: Disk>(&mut self, disk: &mut D) -> Result<Closed, StoreFault>
        requires ready { IsStoreReady D.seen D.moment D.leaves self.old disk.old }
        ensures closed { IfOk result (λ closed. IsClosed (slot_closed closed) self.new) }
        ensures which { IfOk result (λ closed. slot_closed closed ≡ next_in self.old) }
        ensures slots { OnOk result (slots_in self.new ≡ slice_set (slots_in self.old) (next_in self.old) None) }
        ensures ready { OnOk result (IsStoreReady D.seen D.moment D.leaves self.new disk.new) }
        ensures seen { OnOk result (D.seen disk.new ≡ option_map (closed_image self.old (next_in self.old)) (D.seen disk.old)) }
        ensures stops { is_shut self.old ≡ false → StopsFrom D.seen D.moment D.leaves disk.old disk.new SameStored }
        ensures same { SameStore self.old self.new }
        ensures last { last_in self.new ≡ last_in self.old }
        ensures shuts { Shuts (is_shut self.old) (is_shut self.new) result }
        ensures untouched { is_shut self.old ≡ true → disk.new ≡ disk.old }
        ensures reason { HasReason (D.faults disk.old) (D.faults disk.new) result }
        ensures memory { is_no_memory result ≡ false }
    {
        let which = self.next();
        self.close(disk, which)
    }

    // Puts what may stand there into the slot that is next: the three steps in turn.
    fn put_into<D: Disk>(
        &mut self,
        disk: &mut D,
        which: usize,
        sequence: u64,
        bytes: &[u8],
    ) -> Result<(), StoreFault>
        requires ready { IsStoreReady D.seen D.moment D.leaves self.old disk.old }
        requires next { IsNext which self.old }
        requires counted { 0 < sequence }
        requires may { MayStand which self.old sequence (front_in bytes.now) }
        requires fits { length bytes.now ≤ slot_size_in self.old }
        ensures ready { OnOk result (IsStoreReady D.seen D.moment D.leaves self.new disk.new) }
        ensures seen { OnOk result (D.seen disk.new ≡ option_map (slot_image self.old which sequence bytes.now) (D.seen disk.old)) }
        ensures slots { OnOk result (slots_in self.new ≡ slice_set (slots_in self.old) which (put_slot sequence bytes.now)) }
        ensures put { is_shut self.old ≡ false → OnOk result ((s : List ℕ) → D.seen disk.old ≡ Some s
            → (t : List ℕ) × (D.seen disk.new ≡ Some t) × (stored t ≡ with_put (is_base (deltas_in self.old) which) (stored s) sequence bytes.now)) }
        ensures stops { is_shut self.old ≡ false
            → StopsFrom D.seen D.moment D.leaves disk.old disk.new (SameOr (is_base (deltas_in self.old) which) sequence bytes.now) }
        ensures same { SameStore self.old self.new }
        ensures last { OnOk result (last_in self.new ≡ Some sequence) }
        ensures kept { OnErr result (last_in self.new ≡ last_in self.old) }
        ensures shuts { Shuts (is_shut self.old) (is_shut self.new) result }
        ensures untouched { is_shut self.old ≡ true → disk.new ≡ disk.old }
        ensures reason { HasReason (D.faults disk.old) (D.faults disk.new) result }
        ensures memory { is_no_memory result ≡ false }
    {
        match self.close(disk, which) {
            Ok(closed) => match closed.fill(self, disk, sequence, bytes) {
                Ok(filled) => filled.open_gate(self, disk),
                Err(fault) => Err(fault),
            },
            Err(fault) => Err(fault),
        }
    }

    /// Puts a whole state into the other base: the three steps in turn, seven calls of the disk. No record stands on it. A stop at any moment leaves what
    /// was stored, or the new state. Where the store is shut the disk is as before.
    pub fn put<D: Disk>(
        &mut self,
        disk: &mut D,
        sequence: u64,
        bytes: &[u8],
    ) -> Result<(), StoreFault>
        requires ready { IsStoreReady D.seen D.moment D.leaves self.old disk.old }
        requires counted { 0 < sequence }
        requires above { IfSome (last_in self.old) (λ last. last < sequence) }
        requires fits { length bytes.now ≤ slot_size_in self.old }
        ensures ready { OnOk result (IsStoreReady D.seen D.moment D.leaves self.new disk.new) }
        ensures seen { OnOk result (D.seen disk.new ≡ option_map (put_image self.old sequence bytes.now) (D.seen disk.old)) }
        ensures slots { MatchResult result (λ _. slots_in self.new ≡ slice_set (slots_in self.old) (next_in self.old) (put_slot sequence bytes.now))
            (λ _. last_in self.new ≡ last_in self.old) }
        ensures put { is_shut self.old ≡ false → OnOk result ((s : List ℕ) → D.seen disk.old ≡ Some s
            → (t : List ℕ) × (D.seen disk.new ≡ Some t) × (stored t ≡ with_latest (stored s) sequence bytes.now)) }
        ensures stops { is_shut self.old ≡ false → StopsFrom D.seen D.moment D.leaves disk.old disk.new (SameOrPut sequence bytes.now) }
        ensures same { SameStore self.old self.new }
        ensures last { OnOk result (last_in self.new ≡ Some sequence) }
        ensures chain { OnOk result (chain_in self.new ≡ 0) }
        ensures shuts { Shuts (is_shut self.old) (is_shut self.new) result }
        ensures untouched { is_shut self.old ≡ true → disk.new ≡ disk.old }
        ensures reason { HasReason (D.faults disk.old) (D.faults disk.new) result }
        ensures memory { is_no_memory result ≡ false }
    {
        let which = self.next();
        self.put_into(disk, which, sequence, bytes)
    }

    /// Puts a record behind the last one that counts, on whose sequence it stands: its payload begins with it. The three steps in turn, seven calls of the
    /// disk. A stop at any moment leaves what was stored, in the third step that or one record more. Where the store is shut the disk is as before.
    pub fn put_record<D: Disk>(
        &mut self,
        disk: &mut D,
        sequence: u64,
        bytes: &[u8],
    ) -> Result<(), StoreFault>
        requires ready { IsStoreReady D.seen D.moment D.leaves self.old disk.old }
        requires room { chain_in self.old < deltas_in self.old }
        requires stands { IsOnLast (last_in self.old) sequence bytes.now }
        requires fits { length bytes.now ≤ slot_size_in self.old }
        ensures ready { OnOk result (IsStoreReady D.seen D.moment D.leaves self.new disk.new) }
        ensures seen { OnOk result (D.seen disk.new ≡ option_map (record_image self.old sequence bytes.now) (D.seen disk.old)) }
        ensures slots { MatchResult result (λ _. slots_in self.new ≡ slice_set (slots_in self.old) (next_record_in self.old) (put_slot sequence bytes.now))
            (λ _. last_in self.new ≡ last_in self.old) }
        ensures put { is_shut self.old ≡ false → OnOk result ((s : List ℕ) → D.seen disk.old ≡ Some s
            → (t : List ℕ) × (D.seen disk.new ≡ Some t) × (stored t ≡ with_record (stored s) sequence bytes.now)) }
        ensures stops { is_shut self.old ≡ false → StopsFrom D.seen D.moment D.leaves disk.old disk.new (SameOrRecorded sequence bytes.now) }
        ensures same { SameStore self.old self.new }
        ensures last { OnOk result (last_in self.new ≡ Some sequence) }
        ensures chain { OnOk result (chain_in self.new ≡ chain_in self.old + 1) }
        ensures shuts { Shuts (is_shut self.old) (is_shut self.new) result }
        ensures untouched { is_shut self.old ≡ true → disk.new ≡ disk.old }
        ensures reason { HasReason (D.faults disk.old) (D.faults disk.new) result }
        ensures memory { is_no_memory result ≡ false }
    {
        let which = self.next_record();
        self.put_into(disk, which, sequence, bytes)
    }
}

impl Closed {
    /// Writes sequence, length and payload behind the closed gate. Reads nothing, and writes the payload once.
    pub fn fill<D: Disk>(
        self,
        store: &mut Store,
        disk: &mut D,
        sequence: u64,
        bytes: &[u8],
    ) -> Result<Filled, StoreFault>
        requires closed { IsClosed (slot_closed self) store.old }
        requires ready { IsStoreReady D.seen D.moment D.leaves store.old disk.old }
        requires counted { 0 < sequence }
        requires fits { length bytes.now ≤ slot_size_in store.old }
        ensures filled { IfOk result (λ filled. (slot_filled filled ≡ slot_closed self) × (sequence_filled filled ≡ sequence)
            × (length_filled filled ≡ length bytes.now) × (front_filled filled ≡ front_in bytes.now)) }
        ensures holds { OnOk result ((t : List ℕ) → D.seen disk.new ≡ Some t → is_shut store.old ≡ false
            → IsFilledIn (slot_closed self) store.new t sequence bytes.now) }
        ensures ready { OnOk result (IsStoreReady D.seen D.moment D.leaves store.new disk.new) }
        ensures seen { OnOk result (D.seen disk.new ≡ option_map (filled_image store.old (slot_closed self) sequence bytes.now) (D.seen disk.old)) }
        ensures stops { is_shut store.old ≡ false → StopsFrom D.seen D.moment D.leaves disk.old disk.new SameStored }
        ensures store { OnOk result (store.new ≡ store.old) }
        ensures same { SameStore store.old store.new }
        ensures last { last_in store.new ≡ last_in store.old }
        ensures shuts { Shuts (is_shut store.old) (is_shut store.new) result }
        ensures untouched { is_shut store.old ≡ true → disk.new ≡ disk.old }
        ensures reason { HasReason (D.faults disk.old) (D.faults disk.new) result }
        ensures memory { is_no_memory result ≡ false }
    {
        if store.is_shut {
            return Err(StoreFault::Shut);
        }
        let gate = store.gate(self.which);
        let length = bytes.len() as u64;
        let head = slot_head(sequence, length);
        match write_two_synced(disk, gate + 1, &head, gate + 17, bytes) {
            Ok(()) => Ok(Filled {
                which: self.which,
                slot: Slot {
                    sequence,
                    length,
                    front: front_of(bytes),
                },
            }),
            Err(_) => {
                store.shut();
                Err(StoreFault::DiskFault)
            }
        }
    }
}

impl Filled {
    /// Opens the gate of the filled slot: it holds the latest whole state from now on, or is the last record that counts. Reads nothing.
    pub fn open_gate<D: Disk>(self, store: &mut Store, disk: &mut D) -> Result<(), StoreFault>
        requires closed { IsClosed (slot_filled self) store.old }
        requires may { MayStand (slot_filled self) store.old (sequence_filled self) (front_filled self) }
        requires counted { 0 < sequence_filled self }
        requires ready { IsStoreReady D.seen D.moment D.leaves store.old disk.old }
        requires filled { is_shut store.old ≡ false → (s : List ℕ) → D.seen disk.old ≡ Some s → (payload : List ℕ) × HoldsFilled self store.old s payload }
        ensures ready { OnOk result (IsStoreReady D.seen D.moment D.leaves store.new disk.new) }
        ensures seen { OnOk result (D.seen disk.new ≡ option_map (opened_image store.old (slot_filled self)) (D.seen disk.old)) }
        ensures put { OnOk result ((s t payload : List ℕ) → D.seen disk.old ≡ Some s → D.seen disk.new ≡ Some t → HoldsFilled self store.old s payload
            → stored t ≡ with_put (is_base (deltas_in store.old) (slot_filled self)) (stored s) (sequence_filled self) payload) }
        ensures stops { is_shut store.old ≡ false → (s payload : List ℕ) → D.seen disk.old ≡ Some s → HoldsFilled self store.old s payload
            → StopsIn D.moment D.leaves disk.old disk.new (SameOr (is_base (deltas_in store.old) (slot_filled self)) (sequence_filled self) payload s) }
        ensures slots { OnOk result (slots_in store.new ≡ slice_set (slots_in store.old) (slot_filled self) (opened_slot self)) }
        ensures same { SameStore store.old store.new }
        ensures last { OnOk result (last_in store.new ≡ Some (sequence_filled self)) }
        ensures kept { OnErr result (last_in store.new ≡ last_in store.old) }
        ensures shuts { Shuts (is_shut store.old) (is_shut store.new) result }
        ensures untouched { is_shut store.old ≡ true → disk.new ≡ disk.old }
        ensures reason { HasReason (D.faults disk.old) (D.faults disk.new) result }
        ensures memory { is_no_memory result ≡ false }
    {
        if store.is_shut {
            return Err(StoreFault::Shut);
        }
        let gate = store.gate(self.which);
        match write_synced(disk, gate, &[OPEN]) {
            Ok(()) => {
                store.set_slot(self.which, Some(self.slot));
                Ok(())
            }
            Err(_) => {
                store.shut();
                Err(StoreFault::DiskFault)
            }
        }
    }
}
