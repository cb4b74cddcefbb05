//! The fluxes through rows of y faces.

ghost use Rattle.std.specs.Prelude.{◌≡◌, ℕ, ◌+◌, ◌*◌, ◌≤◌, ◌<◌, ◌^◌, ◌&&◌, cond, nat_eq, false, true};
ghost use Rattle.std.specs.Prelude.{length, pos, ◌-ℤ◌, slice_index, slice_index_or, unsigned_abs};
ghost use Rattle.amr_def.specs.Domain.{columns};
ghost use Rattle.amr_def.specs.Flux.{flow};
ghost use Rattle.amr_faces.specs.Numbers.{y_number};
ghost use Rattle.amr_faces.specs.Shares.{AreBelow, AreSmall, product, signed};
ghost use Rattle.amr_flux.specs.Columns.{AreColumns};
ghost use Rattle.amr_flux.specs.Tables.{AreYSmall, count_below, value, y_flux, y_marked};

use crate::columns::Columns;
use crate::rows::face_fluxes;
use crate::shape::{Shape, column_share};
use crate::tables::row_part;
use crate::x_faces::is_marked;
use amr_def::Problem;
use amr_faces::Factors;

/// Makes the factors of a patch's columns, where each column has a Courant number of its own.
pub(crate) fn set_columns(p: &Problem, shape: Shape, factors: &mut Columns)
    requires level { shape.level ≤ 4 }
    requires inside { shape.column + shape.w ≤ columns p.now shape.level }
    ensures columns { AreColumns p.now shape.level shape.column shape.w factors.new }
    ensures room { length factors.new.low.items ≡ length factors.old.low.items }
{
    factors.limit = 0;
    if p.shear_y.entries().is_empty() {
        return;
    }
    if factors.low.len() < shape.w {
        return;
    }
    let mut share = shape.y;
    let mut limit = 2147483648;
    for i in 0..shape.w {
        share = column_share(p, shape, i, share);
        let pair = share.factors();
        factors.low[i] = pair.low;
        factors.high[i] = pair.high;
        limit = share.limit.min(limit);
    }
    factors.limit = limit;
}

/// The flux through a y face of column `i` between these values: by the column's factors where these do.
fn y_face(p: &Problem, shape: Shape, factors: &Columns, i: usize, low: u32, high: u32) -> i32
    requires level { shape.level ≤ 4 }
    requires inside { shape.column + shape.w ≤ columns p.now shape.level }
    requires columns { AreColumns p.now shape.level shape.column shape.w factors.now }
    requires column { i < shape.w }
    requires low_small { low < 2 ^ 31 }
    requires high_small { high < 2 ^ 31 }
    ensures value { result ≡ flow (y_number p.now shape.level (shape.column + i)) p.now.d low high }
    ensures small { unsigned_abs result < 2147483648 }
{
    if low < factors.limit {
        if high < factors.limit {
            return factors.at(i).flow(low, high);
        }
    }
    column_share(p, shape, i, shape.y).flow(low, high)
}

/// The fluxes through faces between these cells, by factors of their own.
fn fluxes_by(
    low_factors: &[u32],
    high_factors: &[u32],
    low: &[u32],
    high: &[u32],
    fluxes: &mut [i32],
)
    requires low_count { length low.now ≡ length fluxes.old }
    requires high_count { length high.now ≡ length fluxes.old }
    requires low_factors_count { length low_factors.now ≡ length fluxes.old }
    requires high_factors_count { length high_factors.now ≡ length fluxes.old }
    requires low_few { AreBelow (2 ^ 31 + 1) low_factors.now }
    requires high_few { AreBelow (2 ^ 31 + 1) high_factors.now }
    requires low_small { AreSmall low.now }
    requires high_small { AreSmall high.now }
    ensures { (k : ℕ) → k < length fluxes.old
        → slice_index_or fluxes.new k (pos 0)
        ≡ pos (product (slice_index low_factors.now k) (slice_index low.now k)) -ℤ pos (product (slice_index high_factors.now k) (slice_index high.now k)) }
{
    for k in 0..fluxes.len() {
        let factors = Factors {
            low: low_factors[k],
            high: high_factors[k],
        };
        fluxes[k] = factors.flow(low[k], high[k]);
    }
}

/// The fluxes through the y faces between two rows of cells of a patch, by one product for each side where the columns' factors do.
pub(crate) fn y_fluxes(
    p: &Problem,
    shape: Shape,
    low: &[u32],
    high: &[u32],
    factors: &Columns,
    fluxes: &mut [i32],
)
    requires level { shape.level ≤ 4 }
    requires inside { shape.column + shape.w ≤ columns p.now shape.level }
    requires columns { AreColumns p.now shape.level shape.column shape.w factors.now }
    requires flux_count { length fluxes.old ≡ shape.w }
    requires low_count { length low.now ≡ shape.w }
    requires high_count { length high.now ≡ shape.w }
    requires low_small { AreSmall low.now }
    requires high_small { AreSmall high.now }
    ensures { (i : ℕ) → i < shape.w
        → slice_index_or fluxes.new i (pos 0)
        ≡ flow (y_number p.now shape.level (shape.column + i)) p.now.d (slice_index low.now i) (slice_index high.now i) }
{
    if p.shear_y.entries().is_empty() {
        face_fluxes(shape.y.with(p.cy, p.d), low, high, fluxes);
        return;
    }
    if factors.serve(low, high) {
        fluxes_by(
            &factors.low[..shape.w],
            &factors.high[..shape.w],
            low,
            high,
            fluxes,
        );
        return;
    }
    for i in 0..fluxes.len() {
        fluxes[i] = y_face(p, shape, factors, i, low[i], high[i]);
    }
}

/// The fluxes through the y faces at the low side of the cells of row `j`, which may be the row beyond the last, from the first
/// flux on.
pub(crate) fn y_row(
    p: &Problem,
    shape: Shape,
    values: &[u32],
    j: usize,
    factors: &Columns,
    fluxes: &mut [i32],
)
    requires level { shape.level ≤ 4 }
    requires inside { shape.column + shape.w ≤ columns p.now shape.level }
    requires columns { AreColumns p.now shape.level shape.column shape.w factors.now }
    requires value_count { length values.now ≡ (shape.h + 2) * (shape.w + 2) }
    requires flux_count { shape.w ≤ length fluxes.old }
    requires row { j ≤ shape.h }
    requires low_small { (i : ℕ) → i < shape.w → value shape.w values.now (i + 1) j < 2147483648 }
    requires high_small { (i : ℕ) → i < shape.w → value shape.w values.now (i + 1) (j + 1) < 2147483648 }
    ensures { (i : ℕ) → i < shape.w → slice_index_or fluxes.new i (pos 0) ≡ y_flux p.now shape.level shape.column shape.w values.now i j }
{
    let low = row_part(shape, values, 1, j, shape.w);
    let high = row_part(shape, values, 1, j + 1, shape.w);
    y_fluxes(p, shape, low, high, factors, &mut fluxes[0..shape.w]);
}

/// Makes the factors where they are wanted.
pub(crate) fn set_wanted_columns(p: &Problem, shape: Shape, wanted: bool, factors: &mut Columns)
    requires level { shape.level ≤ 4 }
    requires inside { shape.column + shape.w ≤ columns p.now shape.level }
    ensures columns { wanted ≡ true → AreColumns p.now shape.level shape.column shape.w factors.new }
    ensures room { length factors.new.low.items ≡ length factors.old.low.items }
{
    if wanted {
        set_columns(p, shape, factors);
    }
}

/// The fluxes through the y faces at the low side of the cells of row `j`, which may be the row beyond the last, where they are wanted. Else
/// they stay.
pub(crate) fn sweep_row(
    p: &Problem,
    shape: Shape,
    values: &[u32],
    j: usize,
    wanted: bool,
    factors: &Columns,
    fluxes: &mut [i32],
)
    requires level { shape.level ≤ 4 }
    requires inside { shape.column + shape.w ≤ columns p.now shape.level }
    requires columns { wanted ≡ true → AreColumns p.now shape.level shape.column shape.w factors.now }
    requires value_count { length values.now ≡ (shape.h + 2) * (shape.w + 2) }
    requires flux_count { length fluxes.old ≡ shape.w }
    requires row { j ≤ shape.h }
    requires small { AreYSmall shape.w shape.h values.now }
    ensures made { wanted ≡ true → (i : ℕ) → i < shape.w → slice_index_or fluxes.new i (pos 0) ≡ y_flux p.now shape.level shape.column shape.w values.now i j }
    ensures kept { wanted ≡ false → fluxes.new ≡ fluxes.old }
{
    if wanted {
        y_row(p, shape, values, j, factors, fluxes);
    }
}

/// Whether the cell beyond column `i` is marked as one of the level.
pub(crate) fn is_top_marked(shape: Shape, marks: &[bool], i: usize) -> bool
    requires few { (shape.h + 2) * (shape.w + 2) < 2 ^ 63 }
    requires column { i < shape.w }
    ensures { result ≡ y_marked shape.w shape.h marks.now i }
{
    let at = (shape.h + 1) * (shape.w + 2);
    is_marked(marks, at + (i + 1))
}

/// A flux of this size, with the sign of a Courant number.
pub(crate) fn signed_flux(number: i32, size: u32) -> i32
    requires { size < 2147483648 }
    ensures { result ≡ signed number size }
{
    if number < 0 {
        -(size as i32)
    } else {
        size as i32
    }
}

/// Gives the marked ones of the y faces at the high side of a patch their fluxes, by sizes that are handed in for them.
fn set_marked(p: &Problem, shape: Shape, marks: &[bool], border: &[u32], fluxes: &mut [i32])
    requires level { shape.level ≤ 4 }
    requires inside { shape.column + shape.w ≤ columns p.now shape.level }
    requires few { (shape.h + 2) * (shape.w + 2) < 2 ^ 63 }
    requires flux_count { shape.w ≤ length fluxes.old }
    requires enough { count_below (y_marked shape.w shape.h marks.now) shape.w ≤ length border.now }
    requires small { AreSmall border.now }
    ensures made { (i : ℕ) → i < shape.w → y_marked shape.w shape.h marks.now i ≡ true
        → slice_index_or fluxes.new i (pos 0)
        ≡ signed (y_number p.now shape.level (shape.column + i)) (slice_index border.now (count_below (y_marked shape.w shape.h marks.now) i)) }
    ensures others { (i : ℕ) → y_marked shape.w shape.h marks.now i ≡ false → slice_index_or fluxes.new i (pos 0) ≡ slice_index_or fluxes.old i (pos 0) }
{
    let mut used = 0;
    for i in 0..shape.w {
        if is_top_marked(shape, marks, i) {
            fluxes[i] = signed_flux(
                p.y_courant(shape.level, shape.column + i as u32),
                border[used],
            );
            used += 1;
        }
    }
}

/// Gives the marked ones of the y faces at the high side of row `j` their fluxes by the sizes handed in, if it is the last row.
pub(crate) fn set_top(
    p: &Problem,
    shape: Shape,
    j: usize,
    marks: &[bool],
    border: &[u32],
    fluxes: &mut [i32],
)
    requires level { shape.level ≤ 4 }
    requires inside { shape.column + shape.w ≤ columns p.now shape.level }
    requires few { (shape.h + 2) * (shape.w + 2) < 2 ^ 63 }
    requires flux_count { shape.w ≤ length fluxes.old }
    requires row { j < shape.h }
    requires enough { j + 1 ≡ shape.h → count_below (y_marked shape.w shape.h marks.now) shape.w ≤ length border.now }
    requires small { AreSmall border.now }
    ensures { (i : ℕ) → i < shape.w
        → slice_index_or fluxes.new i (pos 0)
        ≡ cond (nat_eq (j + 1) shape.h && y_marked shape.w shape.h marks.now i)
        (signed (y_number p.now shape.level (shape.column + i)) (slice_index border.now (count_below (y_marked shape.w shape.h marks.now) i)))
        (slice_index_or fluxes.old i (pos 0)) }
{
    if j + 1 == shape.h {
        set_marked(p, shape, marks, border, fluxes);
    }
}
