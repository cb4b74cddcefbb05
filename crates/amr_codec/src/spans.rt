//! The masses of a row of a level, span by span, where a span stands in one patch. Spans side by side are found beside each other.

ghost use Rattle.std.specs.Prelude.{◌≡◌, ℕ, ◌+◌, ◌<◌, ◌≤◌, ◌≤ℤ◌, length, slice_index, is_some, IfSome, Some, pos, ◌+ℤ◌};
ghost use Rattle.amr_box.specs.declared.Cell.{Cell};
ghost use Rattle.amr_box.specs.Cells.{IsNear, cell, width};
ghost use Rattle.amr_patch.specs.BoxRows.{HasCellsOf, mass_in};
ghost use Rattle.amr_patch.specs.Levels.{level_of};

use amr_box::{Bx, Cell};
use amr_patch::{Level, cell_in, find_near};

/// The masses of a row from a cell on, to the high end of the patch that has the cell. None exactly where the level lacks the cell.
/// The patch of number `near` and those beside it are looked at first, and the number of the one that was found is left there.
pub fn span_near<'a>(level: &'a Level, near: &mut usize, c: Cell) -> Option<&'a [u32]>
    ensures there { is_some result ≡ is_some ((level_of level.now).masses c) }
    ensures some { IfSome result (λ span. 0 < length span.now) }
    ensures masses { IfSome result (λ span. (k : ℕ) → k < length span.now
        → (level_of level.now).masses (cell (c.x +ℤ pos k) c.y) ≡ Some (slice_index span.now k)) }
{
    let patches = level.patches();
    match find_near(patches, level.order(), near, c) {
        None => None,
        Some(k) => Some(patches[k].masses_from(c)),
    }
}

/// The masses of a row of the box from column `first` on, as far as they stand in one patch of the level, and no further than the
/// box. It is found by `near` as `span_near` does.
pub(crate) fn masses_near<'a>(
    level: &'a Level,
    near: &mut usize,
    b: &Bx,
    row: u32,
    first: u32,
) -> &'a [u32]
    requires near { IsNear b.now }
    requires row { (b.now.lo.y +ℤ pos row) ≤ℤ b.now.hi.y }
    requires column { (b.now.lo.x +ℤ pos first) ≤ℤ b.now.hi.x }
    requires cells { HasCellsOf level.now b.now }
    ensures some { 0 < length result.now }
    ensures inside { first + length result.now ≤ width b.now }
    ensures masses { (k : ℕ) → k < length result.now → slice_index result.now k ≡ mass_in level.now b.now row (first + k) }
{
    match span_near(level, near, cell_in(b, row, first)) {
        None => unreachable!(),
        Some(span) => {
            let left = (b.width() - first) as usize;
            &span[..span.len().min(left)]
        }
    }
}
