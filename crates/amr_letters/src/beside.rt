//! The ghost cells beside a box, one after another.

ghost use Rattle.std.specs.Prelude.{◌≡◌, ◌<◌};
ghost use Rattle.amr_box.specs.Cells.{IsNear, height, width};
ghost use Rattle.amr_letters.specs.Beside.{beside_cell, beside_count, east_of, north_of, south_of, west_of};

use amr_box::{Bx, Cell};

/// How many cells lie beside a box: the slots of its frame.
pub fn beside_count(b: &Bx) -> u32
    requires { IsNear b.now }
    ensures { result ≡ beside_count b.now }
{
    2 * (b.height() + b.width())
}

/// The cell west of a row of a box.
fn west_of(b: &Bx, row: u32) -> Cell
    requires near { IsNear b.now }
    requires inside { row < height b.now }
    ensures { result ≡ west_of b.now row }
{
    Cell {
        x: b.lo().x - 1,
        y: b.lo().y + row as i32,
    }
}

/// The cell east of a row of a box.
fn east_of(b: &Bx, row: u32) -> Cell
    requires near { IsNear b.now }
    requires inside { row < height b.now }
    ensures { result ≡ east_of b.now row }
{
    Cell {
        x: b.hi().x + 1,
        y: b.lo().y + row as i32,
    }
}

/// The cell south of a column of a box.
fn south_of(b: &Bx, column: u32) -> Cell
    requires near { IsNear b.now }
    requires inside { column < width b.now }
    ensures { result ≡ south_of b.now column }
{
    Cell {
        x: b.lo().x + column as i32,
        y: b.lo().y - 1,
    }
}

/// The cell north of a column of a box.
fn north_of(b: &Bx, column: u32) -> Cell
    requires near { IsNear b.now }
    requires inside { column < width b.now }
    ensures { result ≡ north_of b.now column }
{
    Cell {
        x: b.lo().x + column as i32,
        y: b.hi().y + 1,
    }
}

/// The cell beside a box at a slot. Slots are counted from 0: first come the cells west of the box by rows, then those east of it,
/// then those south of it by columns, then those north of it.
#[tactic(auto, using(crate::proofs::Slots::at_west, crate::proofs::Slots::at_east, crate::proofs::Slots::at_south, crate::proofs::Slots::at_north))]
pub fn beside_cell(b: &Bx, slot: u32) -> Cell
    requires near { IsNear b.now }
    requires there { slot < beside_count b.now }
    ensures { result ≡ beside_cell b.now slot }
{
    let rows = b.height();
    let columns = b.width();
    if slot < rows {
        return west_of(b, slot);
    }
    if slot < 2 * rows {
        return east_of(b, slot - rows);
    }
    if slot < 2 * rows + columns {
        return south_of(b, slot - 2 * rows);
    }
    north_of(b, slot - (2 * rows + columns))
}
