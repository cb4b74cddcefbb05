//! Lists of boxes: a box chopped, and one with a hole.

use crate::boxes::box_of;
use amr_box::Cell;
use amr_boxlist::BoxList;
use std::alloc::Global;
use std::test::Fail;

/// The list of the box from (0, 0) to a corner.
fn one_box(alloc: Global, x: i32, y: i32) -> Result<BoxList, Fail> {
    let mut list = BoxList::make(alloc);
    list.push_disjoint(box_of(Cell { x: 0, y: 0 }, Cell { x, y })?)?;
    Ok(list)
}

#[test]
fn a_box_is_chopped_from_its_low_corner(rt: HostRuntime) -> Result<(), Fail> {
    let mut list = one_box(rt.alloc(), 9, 3)?;
    list.chop(4)?;
    let wanted = [(0, 0, 3, 3), (4, 0, 7, 3), (8, 0, 9, 3)];
    assert_eq!(rt; list.list().len(), wanted.len());
    for (b, corners) in list.list().iter().zip(&wanted) {
        assert_eq!(rt; (b.lo().x, b.lo().y, b.hi().x, b.hi().y), *corners);
    }
    Ok(())
}

#[test]
fn a_hole_leaves_the_twelve_cells_round_it(rt: HostRuntime) -> Result<(), Fail> {
    let mut list = one_box(rt.alloc(), 3, 3)?;
    list.minus(box_of(Cell { x: 1, y: 1 }, Cell { x: 2, y: 2 })?)?;
    for y in 0..4 {
        for x in 0..4 {
            let c = Cell { x, y };
            let holders = list.list().iter().filter(|b| b.holds(c)).count();
            let in_hole = (x == 1 || x == 2) && (y == 1 || y == 2);
            assert_eq!(rt; holders, if in_hole { 0 } else { 1 }, "cell {x} {y}");
        }
    }
    Ok(())
}
