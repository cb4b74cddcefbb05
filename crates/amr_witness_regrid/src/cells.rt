//! Cells and boxes of cells.

ghost use Rattle.std.specs.Prelude.{◌≡◌, ℕ, ◌+◌, ◌*◌, ◌<◌, ◌≤◌, ◌++◌, IfOk, OnOk, pos, negsuc, ◌*ℤ◌, ◌<ℤ◌, ◌≤ℤ◌};
ghost use Rattle.std.specs.Int.{int_rem_euclid};
ghost use Rattle.amr_box.specs.Cells.{IsNear, cells_of, child, extent, has_child_where, height, in_boxes, moved, square, width};
ghost use Rattle.amr_def.specs.Domain.{domain, home_cell, refined, wrapped};
ghost use Rattle.amr_regrid.specs.Blocks.{IsLow};
ghost use Rattle.amr_witness_regrid.specs.Places.{AreOffsets, IsUpTo, cell_in, row_of};

use amr_box::{Bx, Cell};
use amr_causes::NoMemory;
use amr_def::Problem;
use amr_witness::{columns, rows};
use std::alloc::Global;

/// Offsets of cells from another.
#[derive(Drop)]
pub struct Offsets {
    /// Those of the cells that a problem's buffer reaches.
    pub buffer: Vec<Cell>,
    /// Those of the cells at most one away.
    pub ring: Vec<Cell>,
}

/// The offsets for a problem.
pub fn offsets_of(alloc: Global, p: &Problem) -> Result<Offsets, NoMemory>
    ensures { IfOk result (λ o. AreOffsets p.now o) }
{
    let buffer = square(alloc, p.n_error_buf)?;
    let ring = square(alloc, 1)?;
    Ok(Offsets { buffer, ring })
}

/// The cells of a box, row by row.
pub fn cells_of(alloc: Global, b: &Bx) -> Result<Vec<Cell>, NoMemory>
    requires { IsNear b.now }
    ensures { IfOk result (λ cells. cells.items ≡ cells_of b.now) }
{
    let mut cells = Vec::new(alloc);
    for j in 0..b.height() {
        push_row(&mut cells, b, j)?;
    }
    Ok(cells)
}

fn push_row(cells: &mut Vec<Cell>, b: &Bx, j: u32) -> Result<(), NoMemory>
    requires near { IsNear b.now }
    requires inside { j < height b.now }
    ensures { OnOk result (cells.new.items ≡ cells.old.items ++ row_of b.now j) }
{
    for i in 0..b.width() {
        cells.push(cell_in(b, i, j))?;
    }
    Ok(())
}

/// The cell of a box in its column `i` and row `j`.
fn cell_in(b: &Bx, i: u32, j: u32) -> Cell
    requires near { IsNear b.now }
    requires column { i < width b.now }
    requires row { j < height b.now }
    ensures { result ≡ cell_in b.now i j }
{
    Cell {
        x: b.lo().x + i as i32,
        y: b.lo().y + j as i32,
    }
}

fn times(n: u32, z: i32) -> i32
    requires few { n ≤ 8 }
    requires low { pos 0 ≤ℤ z }
    requires high { z ≤ℤ pos 4096 }
    ensures value { result ≡ pos n *ℤ z }
    ensures low { pos 0 ≤ℤ result }
    ensures high { result ≤ℤ pos 32768 }
{
    (n * z as u32) as i32
}

/// The box of the finer cells, where each side of a cell is cut into `n`.
pub fn refined(b: &Bx, n: u32) -> Bx
    requires some { 0 < n }
    requires few { n ≤ 8 }
    requires low { IsLow b.now }
    ensures value { result ≡ refined n b.now }
    ensures near { IsNear result }
{
    let rest = n as i32 - 1;
    let low = Cell {
        x: times(n, b.lo().x),
        y: times(n, b.lo().y),
    };
    let high = Cell {
        x: times(n, b.hi().x) + rest,
        y: times(n, b.hi().y) + rest,
    };
    Bx::try_new(low, high).unwrap()
}

/// The box of one cell.
pub fn single(c: Cell) -> Bx
    ensures { result ≡ extent c c }
{
    Bx::try_new(c, c).unwrap()
}

/// The offsets of the cells at most `n` away on both axes.
fn square(alloc: Global, n: u32) -> Result<Vec<Cell>, NoMemory>
    requires { n ≤ 8 }
    ensures { IfOk result (λ offsets. offsets.items ≡ square n) }
{
    let n = n as i32;
    let b = Bx::try_new(Cell { x: -n, y: -n }, Cell { x: n, y: n }).unwrap();
    cells_of(alloc, &b)
}

/// The cell at an offset from another.
pub fn moved(c: Cell, o: Cell) -> Cell
    requires near { IsUpTo 10000 c }
    requires offset { IsUpTo 8 o }
    ensures value { result ≡ moved c o }
    ensures near { IsUpTo 10008 result }
{
    Cell {
        x: c.x + o.x,
        y: c.y + o.y,
    }
}

/// Child `k` of a cell.
pub fn child(c: Cell, k: u32) -> Cell
    requires near { IsUpTo 10008 c }
    requires one_of_four { k < 4 }
    ensures value { result ≡ child c k }
    ensures near { (n : ℕ) → IsUpTo n c → IsUpTo (2 * n + 1) result }
{
    Cell {
        x: c.x + c.x + (k % 2) as i32,
        y: c.y + c.y + (k / 2) as i32,
    }
}

/// Whether a cell lies in one of the boxes.
pub fn in_boxes(boxes: &[Bx], c: Cell) -> bool
    ensures { result ≡ in_boxes boxes.now c }
{
    for b in boxes {
        if b.holds(c) {
            return true;
        }
    }
    false
}

/// Whether a child of a cell lies in one of the boxes.
pub fn has_child_in(boxes: &[Bx], c: Cell) -> bool
    requires { IsUpTo 10008 c }
    ensures { result ≡ has_child_where (in_boxes boxes.now) c }
{
    let south = in_boxes(boxes, child(c, 0)) | in_boxes(boxes, child(c, 1));
    let north = in_boxes(boxes, child(c, 2)) | in_boxes(boxes, child(c, 3));
    south | north
}
