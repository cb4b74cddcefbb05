//! What flows through border faces, in place of what the frame says of them.

ghost use Rattle.std.specs.Prelude.{◌≡◌, ◌≢◌, ℕ, ℤ, ◌+◌, ◌*◌, ◌<◌, ◌≤◌, ◌^◌, cond, length, ◌+ℤ◌, ◌-ℤ◌, slice_index};
ghost use Rattle.amr_flux.specs.Paces.{IsFit, IsWordOf, top_share};
ghost use Rattle.amr_faces.specs.Shares.{signed};
ghost use Rattle.amr_flux.specs.Tables.{count_below, value, x_marked, y_marked};

use crate::pace::Pace;
use crate::shape::Shape;
use crate::x_faces::is_end_marked;
use crate::y_faces::is_top_marked;

/// The border faces of a patch: the marks that tell which they are, and the sizes of what flows through them. The x
/// faces come first, by y, then the y faces, by x.
#[derive(Clone, Copy)]
pub(crate) struct Border<'marks, 'sizes> {
    pub(crate) marks: &'marks [bool],
    pub(crate) sizes: &'sizes [u32],
}

/// The mass of a cell, where `size` is to flow through the face at its high side in place of `share`, each the way of a Courant
/// number. Sums wrap at 2^32: both high faces of a corner cell may be exchanged, and only after both is its mass known to fit.
#[inline(always)]
pub(crate) fn exchanged(number: i32, share: u32, size: u32, mass: u32) -> u32
    ensures { (z : ℤ) → IsWordOf z mass → IsWordOf (z +ℤ (signed number share -ℤ signed number size)) result }
{
    if number < 0 {
        mass.wrapping_sub(share).wrapping_add(size)
    } else {
        mass.wrapping_add(share).wrapping_sub(size)
    }
}

/// How many rows are marked at their end.
#[inline(always)]
pub(crate) fn count_ends(shape: Shape, marks: &[bool]) -> usize
    requires few { (shape.h + 2) * (shape.w + 2) < 2 ^ 63 }
    ensures { result ≡ count_below (x_marked shape.w marks.now) shape.h }
{
    let mut count = 0;
    for j in 0..shape.h {
        if is_end_marked(shape, marks, j) {
            count += 1;
        }
    }
    count
}

/// What flows across through the top face of column `i` by the values beside it, after the rows are gone over. Then
/// `across` has what went out of the last row done.
fn top_share(down: bool, pace: Pace, shape: Shape, values: &[u32], across: &[u32], i: usize) -> u32
    requires value_count { length values.now ≡ (shape.h + 2) * (shape.w + 2) }
    requires width { length across.now ≡ shape.w }
    requires column { i < shape.w }
    requires fit { IsFit pace (value shape.w values.now (i + 1) (shape.h + 1)) }
    ensures { result ≡ top_share down pace shape.w shape.h values.now across.now i }
{
    if down {
        let above = (shape.h + 1) * (shape.w + 2);
        pace.across(values[above + (i + 1)])
    } else {
        across[i]
    }
}

/// Exchanges what flows through the marked faces at the top of a patch for the sizes handed in, of these faces alone, after its
/// rows are gone over.
#[inline(always)]
pub(crate) fn exchange_tops(
    down: bool,
    pace: Pace,
    shape: Shape,
    border: Border<'_, '_>,
    across: &[u32],
    values: &mut [u32],
)
    requires value_count { length values.old ≡ (shape.h + 2) * (shape.w + 2) }
    requires width { length across.now ≡ shape.w }
    requires fit { (i : ℕ) → i < shape.w → IsFit pace (value shape.w values.old (i + 1) (shape.h + 1)) }
    requires enough { count_below (y_marked shape.w shape.h border.marks.now) shape.w ≤ length border.sizes.now }
    ensures tops { (i : ℕ) (z : ℤ) → i < shape.w → IsWordOf z (value shape.w values.old (i + 1) shape.h)
        → IsWordOf (z +ℤ (signed pace.y.number (top_share down pace shape.w shape.h values.old across.now i)
        -ℤ cond (y_marked shape.w shape.h border.entry.marks.now i)
        (signed pace.y.number (slice_index border.entry.sizes.now (count_below (y_marked shape.w shape.h border.entry.marks.now) i)))
        (signed pace.y.number (top_share down pace shape.w shape.h values.old across.now i)))) (value shape.w values.new (i + 1) shape.h) }
    ensures others { (k : ℕ) → ((i : ℕ) → i < shape.w → k ≢ shape.h * (shape.w + 2) + (i + 1)) → slice_index values.new k ≡ slice_index values.old k }
{
    let mut used = 0;
    let row = shape.h * (shape.w + 2);
    for i in 0..shape.w {
        if is_top_marked(shape, border.marks, i) {
            let share = top_share(down, pace, shape, values, across, i);
            let at = row + (i + 1);
            values[at] = exchanged(pace.y.number, share, border.sizes[used], values[at]);
            used += 1;
        }
    }
}
