//! The latest state.
ghost use Rattle.std.specs.Prelude.{◌≡◌, ◌≤◌, ◌<◌, true, false, drop, List, ℕ, Some, is_some, option_map, IfOk};
ghost use Rattle.amr_store.specs.Phases.{OnlyReads, Told};
ghost use Rattle.amr_store.specs.Reasons.{HasReason, Shuts, is_no_memory};
ghost use Rattle.amr_store.specs.Shown.{latest_in, payload_of, record_in};
ghost use Rattle.amr_store.specs.Stands.{IsStoreReady, SameStore, is_shut, last_in, chain_in, base_in, deltas_in, slot_in, slots_in};
ghost use Rattle.amr_store.specs.Stored.{entry_of, stored};
ghost use Rattle.amr_store.specs.Table.{slot_count};

use crate::open::read_bytes;
use crate::part::StoreFault;
use crate::slot::Slot;
use crate::store::Store;
use amr_disk::Disk;
use std::alloc::Global;

impl Store {
    // The payload of an open slot.
    fn payload_at<D: Disk>(
        &mut self,
        alloc: Global,
        disk: &mut D,
        which: usize,
        slot: Slot,
    ) -> Result<Vec<u8>, StoreFault>
        requires ready { IsStoreReady D.seen D.moment D.leaves self.old disk.old }
        requires unshut { is_shut self.old ≡ false }
        requires within { which < slot_count (deltas_in self.old) }
        requires held { slot_in self.old which ≡ Some slot }
        ensures payload { IfOk result (λ payload. Told (D.seen disk.old) (λ s. Some payload.items ≡ payload_of (entry_of (drop (base_in self.old) s) which))) }
        ensures ready { IsStoreReady D.seen D.moment D.leaves self.new disk.new }
        ensures reads { OnlyReads D.seen D.moment D.leaves disk.old disk.new }
        ensures memory { is_no_memory result ≡ true → disk.new ≡ disk.old }
        ensures same { SameStore self.old self.new }
        ensures slots { slots_in self.new ≡ slots_in self.old }
        ensures shuts { Shuts (is_shut self.old) (is_shut self.new) result }
        ensures reason { HasReason (D.faults disk.old) (D.faults disk.new) result }
    {
        let at = self.gate(which) - self.base + 17;
        match read_bytes(alloc, disk, self.base, at, slot.length.min(self.slot_size)) {
            Ok(bytes) => Ok(bytes),
            Err(StoreFault::DiskFault) => {
                self.shut();
                Err(StoreFault::DiskFault)
            }
            Err(fault) => Err(fault),
        }
    }

    /// The payload of the latest whole state, on which the records stand; None exactly where there is none. Writes nothing. If allocation fails,
    /// or the store is shut, the store and the disk are as before.
    pub fn latest<D: Disk>(
        &mut self,
        alloc: Global,
        disk: &mut D,
    ) -> Result<Option<Vec<u8>>, StoreFault>
        requires ready { IsStoreReady D.seen D.moment D.leaves self.old disk.old }
        ensures latest { is_shut self.old ≡ false
            → IfOk result (λ latest. Told (D.seen disk.old) (λ s. option_map (λ v. v.items) latest ≡ latest_in (stored s))) }
        ensures none { IfOk result (λ latest. is_some latest ≡ is_some (last_in self.old)) }
        ensures ready { IsStoreReady D.seen D.moment D.leaves self.new disk.new }
        ensures reads { OnlyReads D.seen D.moment D.leaves disk.old disk.new }
        ensures memory { is_no_memory result ≡ true → disk.new ≡ disk.old }
        ensures untouched { is_shut self.old ≡ true → disk.new ≡ disk.old }
        ensures same { SameStore self.old self.new }
        ensures slots { slots_in self.new ≡ slots_in self.old }
        ensures last { last_in self.new ≡ last_in self.old }
        ensures shuts { Shuts (is_shut self.old) (is_shut self.new) result }
        ensures reason { HasReason (D.faults disk.old) (D.faults disk.new) result }
    {
        if self.is_shut {
            return Err(StoreFault::Shut);
        }
        let which = self.latest_slot();
        let slot = match self.slot(which) {
            Some(slot) => slot,
            None => return Ok(None),
        };
        match self.payload_at(alloc, disk, which, slot) {
            Ok(bytes) => Ok(Some(bytes)),
            Err(fault) => Err(fault),
        }
    }

    /// The payload of a record that counts, by its number from 1 on. Writes nothing. If allocation fails, or the store is shut, the store and the
    /// disk are as before.
    pub fn delta_at<D: Disk>(
        &mut self,
        alloc: Global,
        disk: &mut D,
        number: u32,
    ) -> Result<Vec<u8>, StoreFault>
        requires ready { IsStoreReady D.seen D.moment D.leaves self.old disk.old }
        requires from { 1 ≤ number }
        requires to { number ≤ chain_in self.old }
        ensures record { is_shut self.old ≡ false → IfOk result (λ bytes. Told (D.seen disk.old) (λ s. Some bytes.items ≡ record_in (stored s) number)) }
        ensures ready { IsStoreReady D.seen D.moment D.leaves self.new disk.new }
        ensures reads { OnlyReads D.seen D.moment D.leaves disk.old disk.new }
        ensures memory { is_no_memory result ≡ true → disk.new ≡ disk.old }
        ensures untouched { is_shut self.old ≡ true → disk.new ≡ disk.old }
        ensures same { SameStore self.old self.new }
        ensures slots { slots_in self.new ≡ slots_in self.old }
        ensures last { last_in self.new ≡ last_in self.old }
        ensures shuts { Shuts (is_shut self.old) (is_shut self.new) result }
        ensures reason { HasReason (D.faults disk.old) (D.faults disk.new) result }
    {
        if self.is_shut {
            return Err(StoreFault::Shut);
        }
        let which = self.latest_slot() + number as usize;
        match self.slot(which) {
            Some(slot) => self.payload_at(alloc, disk, which, slot),
            None => unreachable!(),
        }
    }
}
