//! Why bytes are refused.

use crate::key::Key;
use crate::key_text::KeyText;
use amr_box::Axis;
use std::alloc::{AllocError, AllocFailed};

/// The faults of a problem, in the order in which they are looked for.
#[derive(Debug, Drop)]
pub enum ProblemFault {
    /// There are more than 65,536 bytes.
    TooLong,
    /// The bytes are no TOML.
    NotToml,
    /// A key of the top level is none that the table has for the problem's version: the least such key, by its bytes.
    UnknownKey(KeyText),
    /// A key is absent that has to be there.
    Missing(Key),
    /// A value isn't of its key's kind. A shear that hasn't one number for each row or column of level 0 isn't.
    WrongKind(Key),
    /// A number of a value is out of its range: that number, the length of a text in bytes, or how many rows there are.
    OutOfRange(Key, i64),
    /// The greatest sizes of the numerators in use along x and along y have this sum, which exceeds this denominator.
    Courant(i64, i64),
    /// One side of the axis is periodic and the other isn't.
    SidesDiffer(Axis),
    /// The block with this index, counted from 0, has its corners out of order, or lies outside of the cells.
    BlockOutside(u32),
    /// There are so many thresholds, and this finest level, which isn't their number.
    TagCount(i64, i64),
    /// Half of this blocking factor doesn't divide the number of cells of level 0 along the axis.
    Blocking(Axis, i64),
    /// The block with this index, counted from 0, is of this species, which isn't below the number of species.
    SpeciesOutside(u32, i64),
}

/// Why `judge` gives no problem.
#[derive(Debug, Drop)]
pub enum JudgeFault {
    /// The bytes have a fault.
    Fault(ProblemFault),
    /// Memory ran out.
    NoMemory,
}

impl From<AllocError> for JudgeFault {
    ghost use Rattle.std.specs.Prelude.{◌≡◌};
    ghost use Rattle.amr_problem.specs.declared.fault.JudgeFault.TheVariants.{NoMemory};

    ghost from_gives = { λ _ e. e ≡ NoMemory };

    fn from(_: AllocError) -> Self {
        JudgeFault::NoMemory
    }
}

impl<T: Drop> From<AllocFailed<T>> for JudgeFault {
    ghost use Rattle.std.specs.Prelude.{◌≡◌};
    ghost use Rattle.amr_problem.specs.declared.fault.JudgeFault.TheVariants.{NoMemory};

    ghost from_gives = { λ _ e. e ≡ NoMemory };

    fn from(_: AllocFailed<T>) -> Self {
        JudgeFault::NoMemory
    }
}

impl From<ProblemFault> for JudgeFault {
    ghost use Rattle.std.specs.Prelude.{◌≡◌};
    ghost use Rattle.amr_problem.specs.declared.fault.JudgeFault.TheVariants as refusal;

    ghost from_gives = { λ fault e. e ≡ refusal.Fault fault };

    fn from(fault: ProblemFault) -> Self {
        JudgeFault::Fault(fault)
    }
}
