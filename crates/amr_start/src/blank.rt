//! Level 0 with no mass yet.

ghost use Rattle.std.specs.Prelude.{◌≡◌, ◌≤◌, ◌<◌, cond, None, Some, [], ◌∷◌, IfOk};
ghost use Rattle.amr_box.specs.declared.Cell.{Cell};
ghost use Rattle.amr_box.specs.Cells.{IsNear, holds};
ghost use Rattle.amr_patch.specs.Levels.{level_of};
ghost use Rattle.amr_start.specs.PatchBoxes.{IsBoxChopped};
ghost use Rattle.amr_start.specs.Rows.{box_of};

use amr_box::{Bx, Cell};
use amr_boxlist::BoxList;
use amr_causes::NoMemory;
use amr_patch::Level;
use std::alloc::Global;

/// The box of so many columns and rows from (0, 0).
pub(crate) fn whole_box(columns: u32, rows: u32) -> Bx
    requires some_columns { 1 ≤ columns }
    requires some_rows { 1 ≤ rows }
    requires narrow { columns ≤ 256 }
    requires flat { rows ≤ 256 }
    ensures value { result ≡ box_of columns rows }
    ensures near { IsNear result }
{
    let low = Cell { x: 0, y: 0 };
    let high = Cell {
        x: columns as i32 - 1,
        y: rows as i32 - 1,
    };
    match Bx::try_new(low, high) {
        Some(b) => b,
        None => unreachable!(),
    }
}

/// The level of one box, in patches of at most `max` by `max` cells, with mass 0 in each cell.
pub(crate) fn blank_level(alloc: Global, whole: Bx, max: u32) -> Result<Level, NoMemory>
    requires near { IsNear whole }
    requires some { 1 ≤ max }
    ensures boxes { IfOk result (λ l. (level_of l).boxes ≡ whole ∷ []) }
    ensures masses { IfOk result (λ l. (c : Cell) → (level_of l).masses c ≡ cond (holds whole c) (Some 0) None) }
    ensures patches { IfOk result (IsBoxChopped max whole) }
{
    let boxes = vec![in alloc; whole]?;
    let mut chopped = BoxList::make(alloc);
    chopped.push_disjoint(whole)?;
    chopped.chop(max)?;
    let level = Level::make(alloc, &boxes, chopped.list())?;
    Ok(level)
}
