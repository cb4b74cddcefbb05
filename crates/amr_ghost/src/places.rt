//! Cells of a strip.

ghost use Rattle.std.specs.Prelude.{◌≡◌, ◌+◌, ◌*◌, ◌<◌, ◌≤◌, pos, negsuc, ◌+ℤ◌, ◌≤ℤ◌, ◌<ℤ◌, IsTrue};
ghost use Rattle.amr_box.specs.Cells.{IsNear, along, holds, near_limit, parent};
ghost use Rattle.amr_def.specs.Regrid.{odd};
ghost use Rattle.amr_ghost.specs.Strips.{HasRoom, step};

use amr_box::{Axis, Bx, Cell, distance};

/// The cell that lies `k` cells from another along an axis.
pub(crate) fn step(axis: Axis, c: Cell, k: u32) -> Cell
    requires small { k < 16384 }
    requires room { HasRoom c }
    ensures { result ≡ step axis c k }
{
    match axis {
        Axis::X => Cell {
            x: c.x + k as i32,
            y: c.y,
        },
        Axis::Y => Cell {
            x: c.x,
            y: c.y + k as i32,
        },
    }
}

/// How many numbers there are from one to another, both of them counted.
fn count_to(low: i32, high: i32) -> u32
    requires from { negsuc (2 * near_limit) <ℤ low }
    requires order { low ≤ℤ high }
    requires to { high <ℤ pos (2 * near_limit + 4) }
    ensures some { 0 < result }
    ensures end { (low +ℤ pos result) ≡ high +ℤ pos 1 }
{
    (high - low) as u32 + 1
}

/// How many cells of a box lie along an axis from one of its cells on.
#[tactic(auto, using(crate::proofs::Homes::bounds))]
pub(crate) fn cells_ahead(b: &Bx, axis: Axis, c: Cell) -> u32
    requires near { IsNear b.now }
    requires inside { IsTrue (holds b.now c) }
    ensures some { 0 < result }
    ensures up_to_high { (along axis c +ℤ pos result) ≡ along axis b.now.hi +ℤ pos 1 }
{
    let high = b.hi();
    match axis {
        Axis::X => count_to(c.x, high.x),
        Axis::Y => count_to(c.y, high.y),
    }
}

/// How many cells, whose parents lie in a box, lie along an axis from one of them on.
#[tactic(auto, using(crate::proofs::Homes::bounds))]
pub(crate) fn children_ahead(b: &Bx, axis: Axis, c: Cell) -> u32
    requires near { IsNear b.now }
    requires inside { IsTrue (holds b.now (parent c)) }
    ensures some { 0 < result }
    ensures up_to_high { (along axis c +ℤ pos result) ≡ along axis b.now.hi +ℤ along axis b.now.hi +ℤ pos 2 }
{
    let high = b.hi();
    match axis {
        Axis::X => count_to(c.x, high.x + high.x + 1),
        Axis::Y => count_to(c.y, high.y + high.y + 1),
    }
}

/// How many numbers there are from one to another, both of them counted, up to `most`.
fn count_up_to(low: i32, high: i32, most: u32) -> u32
    requires order { low ≤ℤ high }
    requires some { 0 < most }
    ensures some { 0 < result }
    ensures within { result ≤ most }
    ensures end { (low +ℤ pos result) ≤ℤ (high +ℤ pos 1) }
{
    let further = distance(low, high);
    if further >= most as usize {
        return most;
    }
    further as u32 + 1
}

/// How many cells of a box lie along an axis from one of its cells on, counted up to `most`.
#[tactic(auto, using(crate::proofs::Homes::bounds))]
pub(crate) fn cells_up_to(b: &Bx, axis: Axis, c: Cell, most: u32) -> u32
    requires inside { IsTrue (holds b.now c) }
    requires some { 0 < most }
    ensures some { 0 < result }
    ensures within { result ≤ most }
    ensures up_to_high { (along axis c +ℤ pos result) ≤ℤ (along axis b.now.hi +ℤ pos 1) }
{
    let high = b.hi();
    match axis {
        Axis::X => count_up_to(c.x, high.x, most),
        Axis::Y => count_up_to(c.y, high.y, most),
    }
}

/// 1 at an odd number, 0 at an even one.
fn odd(z: i32) -> u32
    ensures { result ≡ odd z }
{
    z.rem_euclid(2) as u32
}

/// How many cells of its parent lie before a cell along an axis: 1 or 0.
pub(crate) fn odd_along(axis: Axis, c: Cell) -> u32
    ensures { result ≡ odd (along axis c) }
{
    match axis {
        Axis::X => odd(c.x),
        Axis::Y => odd(c.y),
    }
}
