//! The values of a patch as a table: its rows are two longer than the patch's and two more.

ghost use Rattle.std.specs.Prelude.{◌≡◌, ℕ, ◌+◌, ◌*◌, ◌≤◌, ◌<◌, length, slice_index};
ghost use Rattle.amr_flux.specs.Tables.{value};

use crate::shape::Shape;

/// The value in column `i` of row `j`.
#[inline(always)]
#[tactic(auto, using(crate::proofs::Parts::in_table))]
pub(crate) fn value_at(shape: Shape, values: &[u32], i: usize, j: usize) -> u32
    requires value_count { length values.now ≡ (shape.h + 2) * (shape.w + 2) }
    requires column { i < shape.w + 2 }
    requires row { j < shape.h + 2 }
    ensures { result ≡ value shape.w values.now i j }
{
    values[j * (shape.w + 2) + i]
}

/// So many values of row `j`, from column `i` on.
#[inline(always)]
#[tactic(auto, using(crate::proofs::Parts::part_in_table))]
pub(crate) fn row_part(shape: Shape, values: &[u32], i: usize, j: usize, count: usize) -> &[u32]
    requires value_count { length values.now ≡ (shape.h + 2) * (shape.w + 2) }
    requires columns { i + count ≤ shape.w + 2 }
    requires row { j < shape.h + 2 }
    ensures count { length result.now ≡ count }
    ensures values { (k : ℕ) → k < count → slice_index result.now k ≡ value shape.w values.now (k + i) j }
{
    let from = j * (shape.w + 2) + i;
    &values[from..from + count]
}
