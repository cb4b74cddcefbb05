//! Why a payload is refused.

use std::alloc::{AllocError, AllocFailed};

/// Why bytes aren't read as a state.
#[derive(Clone, Copy, Debug, PartialEq, Eq)]
pub enum CodecFault {
    /// A test fails. The first that does belongs to this place, counted in bytes from 0.
    Bad { place: u64 },
    /// Memory ran out.
    NoMemory,
}

impl From<amr_causes::NoMemory> for CodecFault {
    ghost use Rattle.std.specs.Prelude.{◌≡◌};
    ghost use Rattle.amr_decoder.specs.declared.faults.CodecFault.TheVariants.{NoMemory};

    ghost from_gives = { λ _ e. e ≡ NoMemory };

    fn from(_: amr_causes::NoMemory) -> Self {
        CodecFault::NoMemory
    }
}

impl From<AllocError> for CodecFault {
    ghost use Rattle.std.specs.Prelude.{◌≡◌};
    ghost use Rattle.amr_decoder.specs.declared.faults.CodecFault.TheVariants.{NoMemory};

    ghost from_gives = { λ _ e. e ≡ NoMemory };

    fn from(_: AllocError) -> Self {
        CodecFault::NoMemory
    }
}

impl<T: Drop> From<AllocFailed<T>> for CodecFault {
    ghost use Rattle.std.specs.Prelude.{◌≡◌};
    ghost use Rattle.amr_decoder.specs.declared.faults.CodecFault.TheVariants.{NoMemory};

    ghost from_gives = { λ _ e. e ≡ NoMemory };

    fn from(_: AllocFailed<T>) -> Self {
        CodecFault::NoMemory
    }
}
