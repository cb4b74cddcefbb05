//! The masses of a box of a level, row by row. A row is read span by span, with one look-up a span.

ghost use Rattle.std.specs.Prelude.{◌≡◌, ℕ, ◌+◌, ◌<◌, ◌≤◌, ◌≤ℤ◌, length, slice_index, IsTrue, pos, ◌+ℤ◌};
ghost use Rattle.amr_box.specs.Cells.{IsNear, cell, holds, width};
ghost use Rattle.amr_patch.specs.BoxRows.{HasCellsOf, mass_in};

use crate::levels::Level;
use amr_box::{Bx, Cell};

/// The cell in a row and column of the box, each counted from its low corner.
pub fn cell_in(b: &Bx, row: u32, column: u32) -> Cell
    requires near { IsNear b.now }
    requires row { (b.now.lo.y +ℤ pos row) ≤ℤ b.now.hi.y }
    requires column { (b.now.lo.x +ℤ pos column) ≤ℤ b.now.hi.x }
    ensures place { result ≡ cell (b.now.lo.x +ℤ pos column) (b.now.lo.y +ℤ pos row) }
    ensures inside { IsTrue (holds b.now result) }
{
    let lo = b.lo();
    Cell {
        x: lo.x + column as i32,
        y: lo.y + row as i32,
    }
}

/// The masses of a row of the box from column `first` on, as far as they stand in one patch of the level, and no further
/// than the box. Rows and columns are counted from the box's low corner.
pub fn masses_from<'a>(level: &'a Level, b: &Bx, row: u32, first: u32) -> &'a [u32]
    requires near { IsNear b.now }
    requires row { (b.now.lo.y +ℤ pos row) ≤ℤ b.now.hi.y }
    requires column { (b.now.lo.x +ℤ pos first) ≤ℤ b.now.hi.x }
    requires cells { HasCellsOf level.now b.now }
    ensures some { 0 < length result.now }
    ensures inside { first + length result.now ≤ width b.now }
    ensures masses { (k : ℕ) → k < length result.now → slice_index result.now k ≡ mass_in level.now b.now row (first + k) }
{
    let span = level.span(cell_in(b, row, first));
    let left = (b.width() - first) as usize;
    &span[..span.len().min(left)]
}
