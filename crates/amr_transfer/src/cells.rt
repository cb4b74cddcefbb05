//! Cells beside others.

ghost use Rattle.std.specs.Prelude.{◌≡◌, ◌<◌, ◌≤◌, pos, negsuc, ◌+ℤ◌, ◌-ℤ◌, ◌≤ℤ◌, ◌<ℤ◌, IsTrue};
ghost use Rattle.amr_box.specs.Cells.{IsNear, cell, holds};
ghost use Rattle.amr_def.specs.Regrid.{odd};

use amr_box::{Bx, Cell, distance};

/// The greatest number of masses that are worked out at once: the widest patch that a problem may ask for.
pub(crate) const ROOM: usize = 256;

/// The cell that lies `k` columns beyond another.
pub(crate) fn ahead(c: Cell, k: u32) -> Cell
    requires from { negsuc 67108864 <ℤ c.x }
    requires to { c.x <ℤ pos 67108865 }
    requires small { k ≤ 67108864 }
    ensures { result ≡ cell (c.x +ℤ pos k) c.y }
{
    Cell {
        x: c.x + k as i32,
        y: c.y,
    }
}

/// The cell that lies `k` rows above another.
pub(crate) fn above(c: Cell, k: u32) -> Cell
    requires from { negsuc 67108864 <ℤ c.y }
    requires to { c.y <ℤ pos 67108865 }
    requires small { k ≤ 67108864 }
    ensures { result ≡ cell c.x (c.y +ℤ pos k) }
{
    Cell {
        x: c.x,
        y: c.y + k as i32,
    }
}

/// How many cells of a row of the box there are from one of them on.
pub(crate) fn cells_from(b: &Bx, c: Cell) -> usize
    requires near { IsNear b.now }
    requires inside { IsTrue (holds b.now c) }
    ensures count { pos result ≡ b.now.hi.x +ℤ pos 1 -ℤ c.x }
    ensures some { 0 < result }
    ensures small { result ≤ 33554433 }
{
    distance(c.x, b.hi().x) + 1
}

/// 1 at an odd number, 0 at an even one.
pub(crate) fn odd(z: i32) -> usize
    ensures value { result ≡ odd z }
    ensures bit { result ≤ 1 }
{
    z.rem_euclid(2) as usize
}
