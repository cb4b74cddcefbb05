//! Masses between two small levels.

ghost use Rattle.std.specs.Prelude.{◌≡◌, [], ◌∷◌, pos, is_some, IfOk};
ghost use Rattle.amr_box.specs.declared.Cell.{Cell};
ghost use Rattle.amr_box.specs.Cells.{cell, extent, in_boxes};
ghost use Rattle.amr_patch.specs.Levels.{level_of};
ghost use Rattle.amr_patch.specs.Patches.{ArePairwiseApart, AreNear};

use crate::boxes::side_by_side;
use amr_box::{Bx, Cell};
use amr_causes::NoMemory;
use amr_patch::Level;
use amr_transfer::split_into;
use std::alloc::Global;

/// The level of these boxes, each of them a patch, where each mass is 0.
fn empty_level(alloc: Global, boxes: &[Bx]) -> Result<Level, NoMemory>
    requires apart { ArePairwiseApart boxes.now }
    requires near { AreNear boxes.now }
    ensures boxes { IfOk result (λ l. (level_of l).boxes ≡ boxes.now) }
    ensures cells { IfOk result (λ l. (c : Cell) → is_some ((level_of l).masses c) ≡ in_boxes boxes.now c) }
{
    let level = Level::make(alloc, boxes, boxes)?;
    Ok(level)
}

/// Gives a cell a mass, where it is a cell of the level.
pub(crate) fn put(level: &mut Level, c: Cell, m: u8)
    ensures { (d : Cell) → is_some ((level_of level.new).masses d) ≡ is_some ((level_of level.old).masses d) }
{
    if level.get(c).is_none() {
        return;
    }
    level.set(c, u64::from(m));
}

/// A coarse level of the boxes (0, 0) to (0, 0) and (1, 0) to (3, 0), with the masses 7, 2, 0 and 5.
fn coarse_level(alloc: Global) -> Result<Level, NoMemory>
    ensures { IfOk result (λ l. (c : Cell)
        → is_some ((level_of l).masses c)
        ≡ in_boxes (extent (cell (pos 0) (pos 0)) (cell (pos 0) (pos 0)) ∷ extent (cell (pos 1) (pos 0)) (cell (pos 3) (pos 0)) ∷ []) c) }
{
    let boxes = side_by_side(0, 0, 3, 0);
    let mut level = empty_level(alloc, &boxes)?;
    put(&mut level, Cell { x: 0, y: 0 }, 7);
    put(&mut level, Cell { x: 1, y: 0 }, 2);
    put(&mut level, Cell { x: 3, y: 0 }, 5);
    Ok(level)
}

/// A fine level of the boxes (0, 0) to (1, 1) and (2, 0) to (5, 1), without masses.
fn fine_level(alloc: Global) -> Result<Level, NoMemory>
    ensures filled { IfOk result (λ l. (c : Cell) → is_some ((level_of l).masses c) ≡ in_boxes (level_of l).boxes c) }
    ensures cells { IfOk result (λ l. (c : Cell)
        → is_some ((level_of l).masses c)
        ≡ in_boxes (extent (cell (pos 0) (pos 0)) (cell (pos 1) (pos 1)) ∷ extent (cell (pos 2) (pos 0)) (cell (pos 5) (pos 1)) ∷ []) c) }
{
    let boxes = side_by_side(0, 1, 5, 1);
    let level = empty_level(alloc, &boxes)?;
    Ok(level)
}

/// The masses of a level from column 0 to 5 of a row, in order.
fn row_of(level: &Level, y: i32) -> [Option<u64>; 6] {
    [
        level.get(Cell { x: 0, y }),
        level.get(Cell { x: 1, y }),
        level.get(Cell { x: 2, y }),
        level.get(Cell { x: 3, y }),
        level.get(Cell { x: 4, y }),
        level.get(Cell { x: 5, y }),
    ]
}

#[test]
fn children_share_their_parents_mass(rt: HostRuntime) -> Result<(), NoMemory> {
    let coarse = coarse_level(rt.alloc())?;
    let mut fine = fine_level(rt.alloc())?;
    split_into(&coarse, None, &mut fine);
    assert_eq!(rt;
        row_of(&fine, 0),
        [Some(2), Some(2), Some(1), Some(1), Some(0), Some(0)]
    );
    assert_eq!(rt;
        row_of(&fine, 1),
        [Some(2), Some(1), Some(0), Some(0), Some(0), Some(0)]
    );
    Ok(())
}
