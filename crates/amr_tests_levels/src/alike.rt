//! Boxes compared.

use crate::boxes::side_by_side;
use amr_alike::{are_same, boxes_of, have_boxes, have_same_boxes};
use amr_box::Bx;
use amr_causes::NoMemory;
use amr_patch::Level;
use std::alloc::Global;

/// Columns 0 and 1 of rows 0 and 1.
fn two_columns() -> [Bx; 2] {
    side_by_side(0, 0, 1, 1)
}

/// A level of both columns.
fn level_of_two(alloc: Global) -> Result<Level, NoMemory> {
    let boxes = side_by_side(0, 0, 1, 1);
    Level::make(alloc, &boxes, &boxes)
}

#[test]
fn boxes_are_compared_in_order(rt: HostRuntime) -> Result<(), NoMemory> {
    let [west, east] = two_columns();
    assert!(rt; are_same(&[west, east], &two_columns()));
    assert!(rt; !are_same(&[east, west], &two_columns()));
    assert!(rt; !are_same(&[west], &two_columns()));
    let level = level_of_two(rt.alloc())?;
    assert!(rt; have_boxes(level.patches(), &[west, east]));
    assert!(rt; !have_boxes(level.patches(), &[east, west]));
    assert!(rt; !have_boxes(level.patches(), &[west]));
    let boxes = boxes_of(rt.alloc(), level.patches())?;
    assert!(rt; are_same(&boxes, &[west, east]));
    assert!(rt; !have_same_boxes(level.patches(), &level.patches()[..1]));
    Ok(())
}
