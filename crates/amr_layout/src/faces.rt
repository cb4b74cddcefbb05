//! The faces on the edges of a patch's box, the cells on their two sides, and their Courant numbers.

ghost use Rattle.std.specs.Prelude.{◌≡◌, ◌<◌, ◌≤◌, ◌*◌, ◌+◌, ◌^◌, ◌/◌, pos, neg_ℤ, negsuc, ◌<ℤ◌, cond};
ghost use Rattle.amr_box.specs.Cells.{IsNear, height, holds, width};
ghost use Rattle.amr_def.specs.Domain.{columns, domain, domain_of, home_cell, rows};
ghost use Rattle.amr_def.specs.Flux.{courant, high_cell, low_cell};
ghost use Rattle.amr_layout.specs.Places.{home_face};
ghost use Rattle.amr_layout.specs.Surroundings.{IsInRowOrColumn, IsNearFace, edge_count, edge_face, inside, inward, outside, x_start, y_start};

use amr_box::{Axis, Bx, Cell, Face};
use amr_def::{Dom, Problem};
use amr_faces::{x_end, y_end};

/// How many faces the edges of a box have.
pub(crate) fn edge_count(b: &Bx) -> u32
    requires { IsNear b.now }
    ensures value { result ≡ edge_count b.now }
    ensures small { result ≤ 2 ^ 28 }
{
    2 * (b.height() + b.width())
}

/// Face `n` on the edges of a box.
pub(crate) fn edge_face(b: &Bx, n: u32) -> Face
    requires near { IsNear b.now }
    requires there { n < edge_count b.now }
    ensures { result ≡ edge_face b.now n }
{
    let h = b.height();
    let w = b.width();
    if n < h {
        return x_start(b, n);
    }
    if n < 2 * h {
        return x_end(b, n - h);
    }
    if n < 2 * h + w {
        return y_start(b, n - 2 * h);
    }
    y_end(b, n - (2 * h + w))
}

/// The x face at the low side of the first cell of row `j` of a box.
fn x_start(b: &Bx, j: u32) -> Face
    requires near { IsNear b.now }
    requires inside { j < height b.now }
    ensures { result ≡ x_start b.now j }
{
    Face {
        axis: Axis::X,
        x: b.lo().x,
        y: b.lo().y + j as i32,
    }
}

/// The y face at the low side of the first cell of column `i` of a box.
fn y_start(b: &Bx, i: u32) -> Face
    requires near { IsNear b.now }
    requires inside { i < width b.now }
    ensures { result ≡ y_start b.now i }
{
    Face {
        axis: Axis::Y,
        x: b.lo().x + i as i32,
        y: b.lo().y,
    }
}

/// The cell on the high side of a face.
pub(crate) fn high_cell(f: Face) -> Cell
    ensures { result ≡ high_cell f }
{
    Cell { x: f.x, y: f.y }
}

/// The cell on the low side of a face.
fn low_cell(f: Face) -> Cell
    requires { IsNearFace f }
    ensures { result ≡ low_cell f }
{
    match f.axis {
        Axis::X => Cell { x: f.x - 1, y: f.y },
        Axis::Y => Cell { x: f.x, y: f.y - 1 },
    }
}

/// The cell of a box beside a face on its edges.
pub(crate) fn inside(b: &Bx, f: Face) -> Cell
    requires { IsNearFace f }
    ensures { result ≡ inside b.now f }
{
    let high = high_cell(f);
    if b.holds(high) { high } else { low_cell(f) }
}

/// The cell on the other side of a face on the edges of a box.
pub(crate) fn outside(b: &Bx, f: Face) -> Cell
    requires { IsNearFace f }
    ensures { result ≡ outside b.now f }
{
    let high = high_cell(f);
    if b.holds(high) { low_cell(f) } else { high }
}

/// The face of the domain that a face stands for.
pub(crate) fn home_face(dom: &Dom, f: Face) -> Face
    ensures { result ≡ home_face (domain_of dom.now) f }
{
    let home = dom.home_cell(high_cell(f));
    Face {
        axis: f.axis,
        x: home.x,
        y: home.y,
    }
}

/// The Courant number, times `d`, of a face in a row or a column of level `l`.
fn courant(p: &Problem, l: u32, f: Face) -> i32
    requires level { l ≤ 4 }
    requires lies { IsInRowOrColumn p.now l f }
    ensures { result ≡ courant p.now l f }
{
    match f.axis {
        Axis::X => p.x_courant(l, f.y as u32),
        Axis::Y => p.y_courant(l, f.x as u32),
    }
}

/// The Courant number, times `d`, of a face on the edges of a box, above 0 where mass flows into the box.
pub(crate) fn inward(p: &Problem, l: u32, b: &Bx, f: Face) -> i64
    requires level { l ≤ 4 }
    requires lies { IsInRowOrColumn p.now l f }
    ensures { result ≡ inward p.now l b.now f }
{
    let c = i64::from(courant(p, l, f));
    if b.holds(high_cell(f)) { c } else { -c }
}
