//! The parts of a store's file, and why a call on a store is refused.
ghost use Rattle.std.specs.Prelude.{◌≡◌};

use amr_causes::NoMemory;
use amr_disk::DiskFault;
use std::alloc::{AllocError, AllocFailed};

/// A part of the store's file that is damaged.
#[derive(Clone, Copy, Debug, PartialEq, Eq)]
pub enum Part {
    /// The first bytes: too few, or no magic.
    Head,
    /// The problem's text: too long, or cut off.
    Text,
    /// The number of records behind a base: missing, 0, or more than 7.
    Deltas,
    /// The size of a slot.
    Size,
    /// A slot, by its number: its gate lies past the end, or it is open and not whole; or it is a record on a sequence above the last one.
    Slot(u32),
    /// Both whole states are open with one sequence.
    Tie,
    /// The problem bytes are no problem.
    Problem,
    /// The stored state, by the place in its payload.
    State(u64),
    /// The sequence is not the state's.
    Sequence,
    /// A record that counts, by its number from 1 on: it is no record on the state before it, or its sequence is not its state's.
    Chain(u32),
    /// A renewed store holds another problem than the one that it was renewed from.
    Renewal,
}

/// Why a call on a store is refused.
#[derive(Clone, Copy, Debug, PartialEq, Eq, Drop)]
pub enum StoreFault {
    /// The disk failed in this call; its count of faults rose. The store is shut from now on.
    DiskFault,
    /// The disk failed in an earlier call on this store.
    Shut,
    /// Memory ran out. The disk reads as before.
    NoMemory,
}

impl From<DiskFault> for StoreFault {
    ghost use Rattle.amr_store.specs.declared.part.StoreFault.TheVariants.{DiskFault};

    ghost from_gives = { λ _ fault. fault ≡ DiskFault };

    fn from(_: DiskFault) -> Self {
        StoreFault::DiskFault
    }
}

impl From<NoMemory> for StoreFault {
    ghost use Rattle.amr_store.specs.declared.part.StoreFault.TheVariants.{NoMemory};

    ghost from_gives = { λ _ fault. fault ≡ NoMemory };

    fn from(_: NoMemory) -> Self {
        StoreFault::NoMemory
    }
}

impl From<AllocError> for StoreFault {
    ghost use Rattle.amr_store.specs.declared.part.StoreFault.TheVariants.{NoMemory};

    ghost from_gives = { λ _ fault. fault ≡ NoMemory };

    fn from(_: AllocError) -> Self {
        StoreFault::NoMemory
    }
}

impl<T: Drop> From<AllocFailed<T>> for StoreFault {
    ghost use Rattle.amr_store.specs.declared.part.StoreFault.TheVariants.{NoMemory};

    ghost from_gives = { λ _ fault. fault ≡ NoMemory };

    fn from(_: AllocFailed<T>) -> Self {
        StoreFault::NoMemory
    }
}
