//! Cells and boxes: the worked boxes.
ghost use Rattle.std.specs.Prelude.{◌≡◌, negsuc, pos};

use amr_box::{Axis, Bx, Cell};

fn cell(x: i32, y: i32) -> Cell
    ensures x { result.x ≡ x }
    ensures y { result.y ≡ y }
{
    Cell { x, y }
}

/// The box from (-3, -1) to (0, 1).
fn worked_box() -> Bx
    ensures west { result.lo.x ≡ negsuc 2 }
    ensures south { result.lo.y ≡ negsuc 0 }
    ensures east { result.hi.x ≡ pos 0 }
    ensures north { result.hi.y ≡ pos 1 }
{
    let lo = Cell { x: -3, y: -1 };
    let hi = Cell { x: 0, y: 1 };
    let Some(b) = Bx::try_new(lo, hi) else {
        unreachable!()
    };
    b
}

fn corners(b: Bx) -> (Cell, Cell) {
    (b.lo(), b.hi())
}

#[test]
fn corners_out_of_order_are_no_box(rt: HostRuntime) {
    assert_eq!(rt; Bx::try_new(cell(1, 0), cell(0, 0)), None);
}

#[test]
fn box_calculus_gives_the_worked_boxes(rt: HostRuntime) {
    let b = worked_box();
    assert_eq!(rt; corners(b.coarsen2()), (cell(-2, -1), cell(0, 0)));
    assert_eq!(rt; corners(b.refine2()), (cell(-6, -2), cell(1, 3)));
    assert_eq!(rt; corners(b.grow(2)), (cell(-5, -3), cell(2, 3)));
    let (below, from) = b.cut_at(Axis::X, -1);
    assert_eq!(rt; corners(below), (cell(-3, -1), cell(-2, 1)));
    assert_eq!(rt; corners(from), (cell(-1, -1), cell(0, 1)));
}
