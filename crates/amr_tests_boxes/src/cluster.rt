//! Boxes round tags, worked out by hand.

ghost use Rattle.std.specs.Prelude.{◌≤◌};

use crate::boxes::box_of;
use amr_box::Cell;
use amr_cluster::cluster;
use amr_tags::Tags;
use std::process::Abort;
use std::test::Fail;

/// The boxes round the tags at these columns and rows of 130 by 5 have these corners.
fn clustered(
    rt: &(impl Abort + AllocGlobal),
    cells: &[(i32, i32)],
    efficiency: u32,
    w: u32,
    want: &[(i32, i32, i32, i32)],
) -> Result<(), Fail>
    requires { 1 ≤ w }
{
    let field = box_of(Cell { x: 0, y: 0 }, Cell { x: 129, y: 4 })?;
    let mut tags = Tags::make(rt.alloc(), field, false, false)?;
    for (x, y) in cells {
        let cell = Cell { x: *x, y: *y };
        if tags.bx().holds(cell) {
            tags.set(cell);
        }
    }
    let boxes = cluster(rt.alloc(), &tags, efficiency, w)?;
    assert_eq!(rt; boxes.list().len(), want.len());
    for (b, corners) in boxes.list().iter().zip(want) {
        let (lo, hi) = (b.lo(), b.hi());
        assert_eq!(rt; (lo.x, lo.y, hi.x, hi.y), *corners);
    }
    Ok(())
}

/// Two columns of five rows, with two cells more in the lowest.
const BENT: [(i32, i32); 12] = [
    (0, 0),
    (1, 0),
    (2, 0),
    (3, 0),
    (0, 1),
    (1, 1),
    (0, 2),
    (1, 2),
    (0, 3),
    (1, 3),
    (0, 4),
    (1, 4),
];

#[test]
fn tags_are_parted_at_holes_and_inflections(rt: HostRuntime) -> Result<(), Fail> {
    clustered(&rt, &[], 80, 1, &[])?;
    clustered(&rt, &[(0, 0), (5, 0)], 80, 1, &[(0, 0, 0, 0), (5, 0, 5, 0)])?;
    clustered(&rt, &BENT, 70, 2, &[(0, 0, 1, 4), (2, 0, 3, 0)])?;
    let row = [(0, 0), (63, 0), (64, 0), (129, 0)];
    let parts = [(0, 0, 0, 0), (63, 0, 64, 0), (129, 0, 129, 0)];
    clustered(&rt, &row, 100, 1, &parts)
}

#[test]
fn a_diagonal_is_halved(rt: HostRuntime) -> Result<(), Fail> {
    let diagonal = [(0, 0), (1, 1), (2, 2), (3, 3)];
    clustered(&rt, &diagonal, 100, 2, &[(0, 0, 1, 1), (2, 2, 3, 3)])?;
    let single = [(0, 0, 0, 0), (1, 1, 1, 1), (2, 2, 2, 2), (3, 3, 3, 3)];
    clustered(&rt, &diagonal, 100, 1, &single)
}
