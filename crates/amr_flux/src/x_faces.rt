//! The fluxes through the x faces at the two ends of a patch's rows.

ghost use Rattle.std.specs.Prelude.{◌≡◌, ◌≢◌, ℕ, ◌^◌, ◌+◌, ◌*◌, ◌≤◌, ◌<◌, cond, false, true, length, pos, slice_index, slice_index_or, unsigned_abs};
ghost use Rattle.amr_def.specs.Domain.{rows};
ghost use Rattle.amr_def.specs.Flux.{flow};
ghost use Rattle.amr_faces.specs.Shares.{signed, AreSmall};
ghost use Rattle.amr_faces.specs.Numbers.{x_number};
ghost use Rattle.amr_flux.specs.Tables.{AreXSmall, value, x_flux, x_marked};

use crate::rows::face_fluxes;
use crate::shape::{Shape, row_share};
use crate::tables::{row_part, value_at};
use crate::y_faces::signed_flux;
use amr_def::Problem;
use amr_faces::Share;

/// The flux through x face `i` of row `j`.
pub(crate) fn x_face_flux(shape: Shape, share: Share, values: &[u32], i: usize, j: usize) -> i32
    requires value_count { length values.now ≡ (shape.h + 2) * (shape.w + 2) }
    requires column { i ≤ shape.w }
    requires row { j < shape.h }
    requires small { AreXSmall shape.w shape.h values.now }
    ensures value { result ≡ flow share.number share.parts (value shape.w values.now i (j + 1)) (value shape.w values.now (i + 1) (j + 1)) }
    ensures small { unsigned_abs result < 2147483648 }
{
    let low = value_at(shape, values, i, j + 1);
    let high = value_at(shape, values, i + 1, j + 1);
    share.flow(low, high)
}

/// The flux through x face `i` of each row, where one Courant number holds in all rows.
fn column_at(shape: Shape, share: Share, values: &[u32], i: usize, fluxes: &mut [i32])
    requires value_count { length values.now ≡ (shape.h + 2) * (shape.w + 2) }
    requires column { i ≤ shape.w }
    requires flux_count { length fluxes.old ≡ shape.h }
    requires small { AreXSmall shape.w shape.h values.now }
    ensures { (j : ℕ) → j < shape.h
        → slice_index_or fluxes.new j (pos 0)
        ≡ flow share.number share.parts (value shape.w values.now i (j + 1)) (value shape.w values.now (i + 1) (j + 1)) }
{
    for j in 0..fluxes.len() {
        fluxes[j] = x_face_flux(shape, share, values, i, j);
    }
}

/// The flux through x face `i` of each row.
fn column_fluxes(p: &Problem, shape: Shape, values: &[u32], i: usize, fluxes: &mut [i32])
    requires level { shape.level ≤ 4 }
    requires inside { shape.row + shape.h ≤ rows p.now shape.level }
    requires value_count { length values.now ≡ (shape.h + 2) * (shape.w + 2) }
    requires column { i ≤ shape.w }
    requires flux_count { length fluxes.old ≡ shape.h }
    requires small { AreXSmall shape.w shape.h values.now }
    ensures { (j : ℕ) → j < shape.h → slice_index_or fluxes.new j (pos 0) ≡ x_flux p.now shape.level shape.row shape.w values.now i j }
{
    if p.shear_x.entries().is_empty() {
        column_at(shape, shape.x.with(p.cx, p.d), values, i, fluxes);
        return;
    }
    let mut share = shape.x;
    for j in 0..fluxes.len() {
        share = row_share(p, shape, j, share);
        fluxes[j] = x_face_flux(shape, share, values, i, j);
    }
}

/// The same where they are wanted, else they stay.
pub(crate) fn sweep_column(
    p: &Problem,
    shape: Shape,
    values: &[u32],
    i: usize,
    wanted: bool,
    fluxes: &mut [i32],
)
    requires level { shape.level ≤ 4 }
    requires inside { shape.row + shape.h ≤ rows p.now shape.level }
    requires value_count { length values.now ≡ (shape.h + 2) * (shape.w + 2) }
    requires column { i ≤ shape.w }
    requires flux_count { length fluxes.old ≡ shape.h }
    requires small { AreXSmall shape.w shape.h values.now }
    ensures made { wanted ≡ true → (j : ℕ) → j < shape.h → slice_index_or fluxes.new j (pos 0) ≡ x_flux p.now shape.level shape.row shape.w values.now i j }
    ensures kept { wanted ≡ false → fluxes.new ≡ fluxes.old }
{
    if wanted {
        column_fluxes(p, shape, values, i, fluxes);
    }
}

/// The fluxes through the x faces of row `j`, by the values on their two sides, from the first flux on.
pub(crate) fn x_row(
    p: &Problem,
    shape: Shape,
    share: Share,
    values: &[u32],
    j: usize,
    fluxes: &mut [i32],
)
    requires number { share.number ≡ x_number p.now shape.level (shape.row + j) }
    requires parts { share.parts ≡ p.now.d }
    requires value_count { length values.now ≡ (shape.h + 2) * (shape.w + 2) }
    requires flux_count { shape.w + 1 ≤ length fluxes.old }
    requires row { j < shape.h }
    requires small { (i : ℕ) → i < shape.w + 2 → value shape.w values.now i (j + 1) < 2147483648 }
    ensures { (i : ℕ) → i < shape.w + 1 → slice_index_or fluxes.new i (pos 0) ≡ x_flux p.now shape.level shape.row shape.w values.now i j }
{
    let count = shape.w + 1;
    let low = row_part(shape, values, 0, j + 1, count);
    let high = row_part(shape, values, 1, j + 1, count);
    face_fluxes(share, low, high, &mut fluxes[0..count]);
}

/// Whether a cell is marked, by its place; none is where there are no marks.
pub(crate) fn is_marked(marks: &[bool], at: usize) -> bool
    ensures { result ≡ slice_index_or marks.now at false }
{
    if at < marks.len() {
        return marks[at];
    }
    false
}

/// Whether the cell beyond row `j` is marked as one of the level.
pub(crate) fn is_end_marked(shape: Shape, marks: &[bool], j: usize) -> bool
    requires few { (shape.h + 2) * (shape.w + 2) < 2 ^ 63 }
    requires row { j < shape.h }
    ensures { result ≡ x_marked shape.w marks.now j }
{
    let at = (j + 1) * (shape.w + 2);
    is_marked(marks, at + (shape.w + 1))
}

/// Gives the last face of a row, where it is marked as a border face, its flux by the size at place `used`. Answers how many
/// sizes are used then.
pub(crate) fn set_end(
    number: i32,
    marked: bool,
    border: &[u32],
    used: usize,
    last: usize,
    fluxes: &mut [i32],
) -> usize
    requires inside { last < length fluxes.old }
    requires enough { used + cond marked 1 0 ≤ length border.now }
    requires small { AreSmall border.now }
    ensures count { result ≡ used + cond marked 1 0 }
    ensures within { result ≤ length border.now }
    ensures last { slice_index_or fluxes.new last (pos 0)
        ≡ cond marked (signed number (slice_index border.now used)) (slice_index_or fluxes.old last (pos 0)) }
    ensures others { (k : ℕ) → k ≢ last → slice_index_or fluxes.new k (pos 0) ≡ slice_index_or fluxes.old k (pos 0) }
{
    if marked {
        fluxes[last] = signed_flux(number, border[used]);
        return used + 1;
    }
    used
}
