//! The faces at the high ends of a box's rows and columns.

ghost use Rattle.std.specs.Prelude.{◌≡◌, ◌<◌};
ghost use Rattle.amr_box.specs.Cells.{IsNear, height, width};
ghost use Rattle.amr_faces.specs.Faces.{x_end, y_end};

use amr_box::{Axis, Bx, Face};

/// The x face beyond the last cell of row `j` of a box, rows counted from 0.
pub fn x_end(b: &Bx, j: u32) -> Face
    requires near { IsNear b.now }
    requires inside { j < height b.now }
    ensures { result ≡ x_end b.now j }
{
    Face {
        axis: Axis::X,
        x: b.hi().x + 1,
        y: b.lo().y + j as i32,
    }
}

/// The y face beyond the last cell of column `i` of a box, columns counted from 0.
pub fn y_end(b: &Bx, i: u32) -> Face
    requires near { IsNear b.now }
    requires inside { i < width b.now }
    ensures { result ≡ y_end b.now i }
{
    Face {
        axis: Axis::Y,
        x: b.lo().x + i as i32,
        y: b.hi().y + 1,
    }
}
