//! The sides of a box, and the cells along them.

ghost use Rattle.std.specs.Prelude.{◌≡◌};
ghost use Rattle.amr_box.specs.Cells.{IsNear};
ghost use Rattle.amr_ghost.specs.Strips.{HasRoom};
ghost use Rattle.amr_ghost.specs.GhostCells.{side_axis, side_count, side_from};

use amr_box::{Axis, Bx, Cell};

/// A side of a box.
#[derive(Clone, Copy, Debug)]
pub(crate) enum Side {
    West,
    East,
    South,
    North,
}

/// The cells of a strip along an axis, from its first cell on.
#[derive(Clone, Copy, Debug)]
pub(crate) struct Strip {
    pub(crate) axis: Axis,
    pub(crate) from: Cell,
    pub(crate) count: u32,
}

/// The cells beside a box along one of its sides.
pub(crate) fn side_strip(b: &Bx, side: Side) -> Strip
    requires near { IsNear b.now }
    ensures axis { result.axis ≡ side_axis side }
    ensures from { result.from ≡ side_from b.now side }
    ensures count { result.count ≡ side_count b.now side }
    ensures room { HasRoom result.from }
{
    let lo = b.lo();
    let hi = b.hi();
    match side {
        Side::West => Strip {
            axis: Axis::Y,
            from: Cell {
                x: lo.x - 1,
                y: lo.y,
            },
            count: b.height(),
        },
        Side::East => Strip {
            axis: Axis::Y,
            from: Cell {
                x: hi.x + 1,
                y: lo.y,
            },
            count: b.height(),
        },
        Side::South => Strip {
            axis: Axis::X,
            from: Cell {
                x: lo.x,
                y: lo.y - 1,
            },
            count: b.width(),
        },
        Side::North => Strip {
            axis: Axis::X,
            from: Cell {
                x: lo.x,
                y: hi.y + 1,
            },
            count: b.width(),
        },
    }
}
