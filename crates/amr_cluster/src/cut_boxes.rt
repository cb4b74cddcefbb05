//! The least box round the tags of a box, and where it is cut.

ghost use Rattle.std.specs.Prelude.{◌≡◌, ℕ, ◌+◌, ◌≤◌, ◌<◌, pos, ◌+ℤ◌, ◌&&◌, false, IfNone, IfOk, IfSome, MatchOption, slice_index};
ghost use Rattle.amr_box.specs.Cells.{HasCorners, IsNear, height, holds, width};
ghost use Rattle.amr_box.specs.declared.Cell.{Cell};
ghost use Rattle.amr_tags.specs.TagSets.{has};
ghost use Rattle.amr_tags.specs.Stored.{IsPart};
ghost use Rattle.amr_cluster.specs.Work.{IsCutBox, AreEnds};

use crate::parts::{cut_by, signatures_of};
use amr_box::{Bx, Cell};
use amr_causes::NoMemory;
use amr_sign::Cut;
use amr_tags::Tags;
use std::alloc::Global;

/// The least box round some tags, and where it is cut, if anywhere.
#[derive(Clone, Copy)]
pub struct CutBox {
    pub bx: Bx,
    pub cut: Option<Cut>,
}

/// The first and the last of some columns or rows, counted from the low end.
#[derive(Clone, Copy)]
struct Ends {
    first: usize,
    last: usize,
}

/// The first and the last entry of a signature that is not 0.
fn ends_of(counts: &[u32]) -> Option<Ends>
    ensures some { IfSome result (λ ends. AreEnds counts.now ends.first ends.last) }
    ensures none { IfNone result ((k : ℕ) → slice_index counts.now k ≡ 0) }
{
    let mut first = counts.len();
    let mut last = 0;
    for i in 0..counts.len() {
        if counts[i] != 0 {
            first = first.min(i);
            last = i;
        }
    }
    if first < counts.len() {
        Some(Ends { first, last })
    } else {
        None
    }
}

/// Some columns and rows of a box.
fn inner(part: Bx, columns: Ends, rows: Ends) -> Bx
    requires near { IsNear part }
    requires columns_order { columns.first ≤ columns.last }
    requires columns_inside { columns.last < width part }
    requires rows_order { rows.first ≤ rows.last }
    requires rows_inside { rows.last < height part }
    ensures { HasCorners result (part.lo.x +ℤ pos columns.first) (part.lo.y +ℤ pos rows.first) (part.lo.x +ℤ pos columns.last) (part.lo.y +ℤ pos rows.last) }
{
    let from = part.lo();
    let lo = Cell {
        x: from.x + columns.first as i32,
        y: from.y + rows.first as i32,
    };
    let hi = Cell {
        x: from.x + columns.last as i32,
        y: from.y + rows.last as i32,
    };
    Bx::try_new(lo, hi).unwrap()
}

/// The least box round the tags in a box, and where it is cut, by one look at the words.
///
/// Both signatures of the least box stand within those of the box that it lies in, so that they needn't be counted.
pub fn cut_box_of(
    alloc: Global,
    tags: &Tags,
    part: Bx,
    efficiency: u32,
    w: u32,
) -> Result<Option<CutBox>, NoMemory>
    requires near { IsNear part }
    requires inside { IsPart tags.now.bx part }
    ensures { IfOk result (λ found. MatchOption found ((c : Cell) → (holds part c && has tags.now c) ≡ false) (IsCutBox efficiency w (has tags.now) part)) }
{
    let counts = signatures_of(alloc, tags, part)?;
    let Some(columns) = ends_of(&counts.columns) else {
        return Ok(None);
    };
    let Some(rows) = ends_of(&counts.rows) else {
        return Ok(None);
    };
    let bx = inner(part, columns, rows);
    let xs = &counts.columns[columns.first..columns.last + 1];
    let ys = &counts.rows[rows.first..rows.last + 1];
    let cut = cut_by(xs, ys, efficiency, w);
    Ok(Some(CutBox { bx, cut }))
}
