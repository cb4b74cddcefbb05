//! Spans of a patch that are given masses.

ghost use Rattle.std.specs.Prelude.{ℕ, pos, ◌+ℤ◌, ◌≤ℤ◌, length, IsTrue};
ghost use Rattle.amr_box.specs.declared.Cell.{Cell};
ghost use Rattle.amr_box.specs.Cells.{holds};
ghost use Rattle.amr_patch.specs.Patches.{box};
ghost use Rattle.amr_transfer.specs.Given.{AreMassesFrom, IsGiven, span};

use amr_box::Cell;
use amr_patch::Patch;

/// Gives the cells of a row, from one of them on, these masses. All else of the patch stays.
pub(crate) fn give(patch: &mut Patch, c: Cell, masses: &[u32])
    requires inside { IsTrue (holds (box patch.old) c) }
    requires room { (c.x +ℤ pos (length masses.now)) ≤ℤ ((box patch.old).hi.x +ℤ pos 1) }
    ensures { (mass : Cell → ℕ) → AreMassesFrom mass c masses.now → IsGiven (holds (span c (length masses.now))) mass patch.old patch.new }
{
    patch.set_masses(c, masses);
}
