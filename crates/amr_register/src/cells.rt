//! Cells near a cell, and at the ends of the rows and the columns of a box.

ghost use Rattle.std.specs.Prelude.{◌≡◌, ◌<◌, pos, ◌+ℤ◌, ◌-ℤ◌};
ghost use Rattle.amr_box.specs.Cells.{IsNear, cell, height, width};
ghost use Rattle.amr_register.specs.Beside.{IsBesideDomain};

use amr_box::{Bx, Cell};

/// The cell left of a cell.
pub(crate) fn west_of(c: Cell) -> Cell
    requires { IsBesideDomain c }
    ensures { result ≡ cell (c.x -ℤ pos 1) c.y }
{
    Cell { x: c.x - 1, y: c.y }
}

/// The cell right of a cell.
pub(crate) fn east_of(c: Cell) -> Cell
    requires { IsBesideDomain c }
    ensures { result ≡ cell (c.x +ℤ pos 1) c.y }
{
    Cell { x: c.x + 1, y: c.y }
}

/// The cell below a cell.
pub(crate) fn south_of(c: Cell) -> Cell
    requires { IsBesideDomain c }
    ensures { result ≡ cell c.x (c.y -ℤ pos 1) }
{
    Cell { x: c.x, y: c.y - 1 }
}

/// The cell above a cell.
pub(crate) fn north_of(c: Cell) -> Cell
    requires { IsBesideDomain c }
    ensures { result ≡ cell c.x (c.y +ℤ pos 1) }
{
    Cell { x: c.x, y: c.y + 1 }
}

/// The first cell of row `j` of a box, counted from its low row.
pub(crate) fn row_first(b: &Bx, j: u32) -> Cell
    requires near { IsNear b.now }
    requires inside { j < height b.now }
    ensures { result ≡ cell b.now.lo.x (b.now.lo.y +ℤ pos j) }
{
    let low = b.lo();
    Cell {
        x: low.x,
        y: low.y + j as i32,
    }
}

/// The last cell of row `j` of a box, counted from its low row.
pub(crate) fn row_last(b: &Bx, j: u32) -> Cell
    requires near { IsNear b.now }
    requires inside { j < height b.now }
    ensures { result ≡ cell b.now.hi.x (b.now.lo.y +ℤ pos j) }
{
    let x = b.hi().x;
    let y = b.lo().y + j as i32;
    Cell { x, y }
}

/// The lowest cell of column `i` of a box, counted from its low column.
pub(crate) fn column_first(b: &Bx, i: u32) -> Cell
    requires near { IsNear b.now }
    requires inside { i < width b.now }
    ensures { result ≡ cell (b.now.lo.x +ℤ pos i) b.now.lo.y }
{
    let low = b.lo();
    Cell {
        x: low.x + i as i32,
        y: low.y,
    }
}

/// The highest cell of column `i` of a box, counted from its low column.
pub(crate) fn column_last(b: &Bx, i: u32) -> Cell
    requires near { IsNear b.now }
    requires inside { i < width b.now }
    ensures { result ≡ cell (b.now.lo.x +ℤ pos i) b.now.hi.y }
{
    let y = b.hi().y;
    let x = b.lo().x + i as i32;
    Cell { x, y }
}
