//! Where a patch stands in its level, how many cells it has along each axis, and its Courant numbers.

ghost use Rattle.std.specs.Prelude.{◌≡◌, ◌+◌, ◌≤◌, ◌<◌, pos, ◌≤ℤ◌};
ghost use Rattle.amr_box.specs.Cells.{IsNear, height, width};
ghost use Rattle.amr_def.specs.Domain.{columns, domain, rows};
ghost use Rattle.amr_faces.specs.Faces.{IsInDomain};
ghost use Rattle.amr_faces.specs.Numbers.{x_number, y_number};
ghost use Rattle.amr_flux.specs.Tables.{Stands};

use crate::room::Room;
use amr_box::Bx;
use amr_def::Problem;
use amr_faces::Share;

/// A patch of a level: how many columns and rows it has, and which column and row of the level its first cell lies in.
/// And the shares at the Courant numbers of that row and that column.
#[derive(Clone, Copy, Debug)]
pub(crate) struct Shape {
    pub(crate) w: usize,
    pub(crate) h: usize,
    pub(crate) level: u32,
    pub(crate) column: u32,
    pub(crate) row: u32,
    pub(crate) x: Share,
    pub(crate) y: Share,
}

/// A column or a row of the domain, which has none below 0.
pub(crate) fn coordinate(z: i32) -> u32
    requires { pos 0 ≤ℤ z }
    ensures { pos result ≡ z }
{
    z as u32
}

/// The share at the Courant number of the x faces in a row of a level, from the share that was used last.
#[tactic(auto, using(amr_faces::proofs::Numbers::x_slow))]
fn x_share(p: &Problem, level: u32, row: u32, last: Share) -> Share
    requires level { level ≤ 4 }
    requires inside { row < rows p.now level }
    ensures number { result.number ≡ x_number p.now level row }
    ensures parts { result.parts ≡ p.now.d }
{
    last.with(p.x_courant(level, row), p.d)
}

/// The share at the Courant number of the y faces in a column of a level, from the share that was used last.
#[tactic(auto, using(amr_faces::proofs::Numbers::y_slow))]
fn y_share(p: &Problem, level: u32, column: u32, last: Share) -> Share
    requires level { level ≤ 4 }
    requires inside { column < columns p.now level }
    ensures number { result.number ≡ y_number p.now level column }
    ensures parts { result.parts ≡ p.now.d }
{
    last.with(p.y_courant(level, column), p.d)
}

/// The share at the Courant number of the x faces in row `j` of a patch, from the share that was used last.
pub(crate) fn row_share(p: &Problem, shape: Shape, j: usize, last: Share) -> Share
    requires level { shape.level ≤ 4 }
    requires inside { shape.row + shape.h ≤ rows p.now shape.level }
    requires row { j < shape.h }
    ensures number { result.number ≡ x_number p.now shape.level (shape.row + j) }
    ensures parts { result.parts ≡ p.now.d }
{
    x_share(p, shape.level, shape.row + j as u32, last)
}

/// The share at the Courant number of the y faces in column `i` of a patch, from the share that was used last.
pub(crate) fn column_share(p: &Problem, shape: Shape, i: usize, last: Share) -> Share
    requires level { shape.level ≤ 4 }
    requires inside { shape.column + shape.w ≤ columns p.now shape.level }
    requires column { i < shape.w }
    ensures number { result.number ≡ y_number p.now shape.level (shape.column + i) }
    ensures parts { result.parts ≡ p.now.d }
{
    y_share(p, shape.level, shape.column + i as u32, last)
}

/// The shape of a box of a level.
pub(crate) fn shape_of(p: &Problem, level: u32, b: &Bx, room: &Room) -> Shape
    requires level { level ≤ 4 }
    requires near { IsNear b.now }
    requires inside { IsInDomain (domain p.now level) b.now }
    ensures columns { result.w ≡ width b.now }
    ensures rows { result.h ≡ height b.now }
    ensures level { result.level ≡ level }
    ensures stands { Stands p.now level b.now result.column result.row }
{
    let lo = b.lo();
    let column = coordinate(lo.x);
    let row = coordinate(lo.y);
    Shape {
        w: b.width() as usize,
        h: b.height() as usize,
        level,
        column,
        row,
        x: x_share(p, level, row, room.x_share),
        y: y_share(p, level, column, room.y_share),
    }
}
