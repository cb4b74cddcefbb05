//! The new masses of a patch in one pass row by row, where one Courant number holds along each axis.

ghost use Rattle.std.specs.Prelude.{◌≡◌, ℕ, ◌+◌, ◌*◌, ◌<◌, ◌≤◌, ◌^◌, pos, ◌≤ℤ◌, ◌<ℤ◌, length, slice_index};
ghost use Rattle.amr_flux.specs.Paces.{AreFit, GoesWith, IsFitPatch, IsWordOf, mass_by_ends, mass_with, row_at, row_before, y_share};
ghost use Rattle.amr_flux.specs.Tables.{IsOtherPlace, count_below, value, x_marked, y_marked};

use crate::exchanges::{Border, count_ends, exchange_tops, exchanged};
use crate::pace::Pace;
use crate::row_steps::step_row_in;
use crate::shape::Shape;
use crate::x_faces::is_end_marked;

/// Which row comes after `k` others, from the low row up or from the high one down.
#[inline(always)]
fn row_at(down: bool, h: usize, k: usize) -> usize
    requires { k < h }
    ensures value { result ≡ row_at down h k }
    ensures inside { result < h }
{
    if down { h - 1 - k } else { k }
}

/// Makes the new masses of all cells of a patch, but for what flows through its marked top faces. Rows go the way of the flow
/// across them: `across` has what comes into the first of them, and gets what goes out of the last. Each row is made by the values
/// beside it, and then what flows through its end, if that is marked, is exchanged for the size handed in. Answers how many ends
/// are marked.
#[inline(always)]
fn step_rows(
    down: bool,
    pace: Pace,
    shape: Shape,
    border: Border<'_, '_>,
    across: &mut [u32],
    values: &mut [u32],
) -> usize
    requires width { length across.old ≡ shape.w }
    requires some { 0 < shape.w }
    requires value_count { length values.old ≡ (shape.h + 2) * (shape.w + 2) }
    requires way { GoesWith down pace.y.number }
    requires fit { IsFitPatch pace shape.w shape.h values.old }
    requires enough { count_below (x_marked shape.w border.marks.now) shape.h ≤ length border.sizes.now }
    requires entering { (i : ℕ) → i < shape.w → slice_index across.old i ≡ y_share pace (value shape.w values.old (i + 1) (row_before down shape.h 0)) }
    ensures ends { result ≡ count_below (x_marked shape.w border.entry.marks.now) shape.h }
    ensures cells { (i j : ℕ) → i < shape.w → j < shape.h
        → IsWordOf (mass_by_ends pace shape.w border.entry.marks.now border.entry.sizes.now values.old i j) (value shape.w values.new (i + 1) (j + 1)) }
    ensures leaving { (i : ℕ) → i < shape.w → slice_index across.new i ≡ y_share pace (value shape.w values.old (i + 1) (row_before down shape.h shape.h)) }
    ensures others { (k : ℕ) → IsOtherPlace shape.w shape.h k → slice_index values.new k ≡ slice_index values.old k }
{
    let ends = count_ends(shape, border.marks);
    let mut used = 0;
    for k in 0..shape.h {
        let j = row_at(down, shape.h, k);
        let share = step_row_in(down, pace, j, values, across);
        if is_end_marked(shape, border.marks, j) {
            let size = border.sizes[row_at(down, ends, used)];
            let at = (j + 1) * (shape.w + 2) + shape.w;
            values[at] = exchanged(pace.x.number, share, size, values[at]);
            used += 1;
        }
    }
    ends
}

/// What flows across out of each cell of a row.
#[inline(always)]
fn row_sizes(pace: Pace, cells: &[u32], sizes: &mut [u32])
    requires count { length cells.now ≡ length sizes.old }
    requires fit { AreFit pace cells.now }
    ensures { (k : ℕ) → k < length sizes.old → slice_index sizes.new k ≡ y_share pace (slice_index cells.now k) }
{
    for k in 0..sizes.len() {
        sizes[k] = pace.across(cells[k]);
    }
}

/// The row of values that the flow across into the first row comes from.
#[inline(always)]
fn first_row(down: bool, h: usize) -> usize
    requires { h < 2 ^ 62 }
    ensures value { result ≡ row_before down h 0 }
    ensures inside { result < h + 2 }
{
    if down { h + 1 } else { 0 }
}

/// Makes the new masses of all cells of a patch as wide as `across`, which is room for a row. Rows go down or up.
#[inline(always)]
fn step_in_order(
    down: bool,
    pace: Pace,
    shape: Shape,
    border: Border<'_, '_>,
    across: &mut [u32],
    values: &mut [u32],
)
    requires width { length across.old ≡ shape.w }
    requires some_columns { 0 < shape.w }
    requires some_rows { 0 < shape.h }
    requires value_count { length values.old ≡ (shape.h + 2) * (shape.w + 2) }
    requires way { GoesWith down pace.y.number }
    requires fit { IsFitPatch pace shape.w shape.h values.old }
    requires enough { count_below (x_marked shape.w border.marks.now) shape.h + count_below (y_marked shape.w shape.h border.marks.now) shape.w
        ≤ length border.sizes.now }
    requires kept { (i j : ℕ) → i < shape.w → j < shape.h → pos 0 ≤ℤ mass_with pace shape.w shape.h border.marks.now border.sizes.now values.old i j }
    requires fits { (i j : ℕ) → i < shape.w → j < shape.h → mass_with pace shape.w shape.h border.marks.now border.sizes.now values.old i j <ℤ pos (2 ^ 32) }
    ensures made { (i j : ℕ) → i < shape.w → j < shape.h
        → pos (value shape.w values.new (i + 1) (j + 1)) ≡ mass_with pace shape.w shape.h border.entry.marks.now border.entry.sizes.now values.old i j }
    ensures others { (k : ℕ) → IsOtherPlace shape.w shape.h k → slice_index values.new k ≡ slice_index values.old k }
{
    let from = first_row(down, shape.h) * (shape.w + 2) + 1;
    row_sizes(pace, &values[from..from + shape.w], across);
    let ends = step_rows(down, pace, shape, border, across, values);
    let tops = Border {
        marks: border.marks,
        sizes: &border.sizes[ends..],
    };
    exchange_tops(down, pace, shape, tops, across, values);
}

/// Gives each cell of a patch what comes in through its faces, in one pass over its rows. It goes by the values on
/// their two sides, and for border faces by the sizes handed in. `across` is room for a row.
#[inline(always)]
pub(crate) fn step_cells(
    pace: Pace,
    shape: Shape,
    border: Border<'_, '_>,
    across: &mut [u32],
    values: &mut [u32],
)
    requires width { length across.old ≡ shape.w }
    requires some_columns { 0 < shape.w }
    requires some_rows { 0 < shape.h }
    requires value_count { length values.old ≡ (shape.h + 2) * (shape.w + 2) }
    requires fit { IsFitPatch pace shape.w shape.h values.old }
    requires enough { count_below (x_marked shape.w border.marks.now) shape.h + count_below (y_marked shape.w shape.h border.marks.now) shape.w
        ≤ length border.sizes.now }
    requires kept { (i j : ℕ) → i < shape.w → j < shape.h → pos 0 ≤ℤ mass_with pace shape.w shape.h border.marks.now border.sizes.now values.old i j }
    requires fits { (i j : ℕ) → i < shape.w → j < shape.h → mass_with pace shape.w shape.h border.marks.now border.sizes.now values.old i j <ℤ pos (2 ^ 32) }
    ensures made { (i j : ℕ) → i < shape.w → j < shape.h
        → pos (value shape.w values.new (i + 1) (j + 1)) ≡ mass_with pace shape.w shape.h border.entry.marks.now border.entry.sizes.now values.old i j }
    ensures others { (k : ℕ) → IsOtherPlace shape.w shape.h k → slice_index values.new k ≡ slice_index values.old k }
{
    if pace.y.number < 0 {
        step_in_order(true, pace, shape, border, across, values);
    } else {
        step_in_order(false, pace, shape, border, across, values);
    }
}
