//! A level in patches, from its boxes and the bytes of their masses.

ghost use Rattle.std.specs.Prelude.{◌≡◌, ◌≤◌, cond, Some, None, map, IfOk};
ghost use Rattle.std.specs.List.{All};
ghost use Rattle.amr_box.specs.declared.Cell.{Cell};
ghost use Rattle.amr_box.specs.Cells.{in_boxes};
ghost use Rattle.amr_patch.specs.Levels.{level_of};
ghost use Rattle.amr_patch.specs.Patches.{ArePairwiseApart, AreNear};
ghost use Rattle.amr_payload.specs.Tests as tests;
ghost use Rattle.amr_start.specs.PatchBoxes.{IsChopped};
ghost use Rattle.amr_decoder.specs.Filled.{IsPlaced};
ghost use Rattle.amr_decoder.specs.Grids.{IsWhole, boxes_of, grid_of};

use crate::fill::fill_boxes;
use crate::grid::Grid;
use amr_boxlist::BoxList;
use amr_causes::NoMemory;
use amr_patch::Level;
use std::alloc::Global;

/// The boxes, of which no two have a cell in common.
fn listed(alloc: Global, grids: &[Grid]) -> Result<BoxList, NoMemory>
    requires { ArePairwiseApart (boxes_of grids.now) }
    ensures { IfOk result (λ l. l ≡ boxes_of grids.now) }
{
    let mut list = BoxList::make(alloc);
    for grid in grids {
        list.push_disjoint(grid.bx)?;
    }
    Ok(list)
}

/// The level of these boxes, in patches of at most `max` by `max` cells, with mass 0 in each cell.
fn blank_level(alloc: Global, grids: &[Grid], max: u32) -> Result<Level, NoMemory>
    requires disjoint { ArePairwiseApart (boxes_of grids.now) }
    requires near { AreNear (boxes_of grids.now) }
    requires some { 1 ≤ max }
    ensures boxes { IfOk result (λ l. (level_of l).boxes ≡ boxes_of grids.now) }
    ensures masses { IfOk result (λ l. (c : Cell) → (level_of l).masses c ≡ cond (in_boxes (boxes_of grids.now) c) (Some 0) None) }
    ensures chopped { IfOk result (IsChopped max) }
{
    let mut list = listed(alloc, grids)?;
    let whole = list.list();
    let boxes = Vec::from_slice(alloc, whole)?;
    list.chop(max)?;
    let patch_boxes = list.list();
    let level = Level::make(alloc, &boxes, patch_boxes)?;
    Ok(level)
}

/// The level of these boxes and their masses, in patches of at most `max` by `max` cells.
pub(crate) fn make_level(
    alloc: Global,
    max: u32,
    bytes: &[u8],
    grids: &[Grid],
) -> Result<Level, NoMemory>
    requires some { 1 ≤ max }
    requires disjoint { ArePairwiseApart (boxes_of grids.now) }
    requires near { AreNear (boxes_of grids.now) }
    requires placed { All IsPlaced (boxes_of grids.now) }
    requires masses { All (IsWhole bytes.now) grids.now }
    ensures level { IfOk result (λ l. level_of l ≡ tests.level_of (map (grid_of bytes.now) grids.now)) }
    ensures chopped { IfOk result (IsChopped max) }
{
    let mut level = blank_level(alloc, grids, max)?;
    let order = level.order();
    let mut patches = level.take_patches();
    fill_boxes(alloc, &mut patches, order, bytes, grids)?;
    level.put_patches_in_order(patches, order);
    Ok(level)
}
