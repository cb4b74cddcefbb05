//! A box by its corners, with which several crates are tested.

ghost use Rattle.std.specs.Prelude.{◌≡◌, IfOk};

use amr_box::{Bx, Cell};

/// The box with these corners, if there is one.
pub(crate) fn box_of(lo: Cell, hi: Cell) -> Result<Bx, &'static str>
    ensures { IfOk result (λ b. (b.lo ≡ lo) × (b.hi ≡ hi)) }
{
    Bx::try_new(lo, hi).ok_or("no box")
}
