//! A ring with a finer box in it: its problem, its boxes, and levels of one box.

ghost use Rattle.std.specs.Prelude.{◌≡◌, [], ◌∷◌, pos, cond, None, Some, IfOk};
ghost use Rattle.amr_box.specs.declared.Cell.{Cell};
ghost use Rattle.amr_box.specs.Cells.{IsNear, cell, extent, in_boxes};
ghost use Rattle.amr_def.specs.declared.problem.Sides.TheVariants.{Periodic};
ghost use Rattle.amr_patch.specs.Levels.{level_of};

use crate::problems::problem;
use amr_box::{Bx, Cell};
use amr_causes::NoMemory;
use amr_def::{Problem, Sides};
use amr_patch::Level;
use std::alloc::Global;

/// A ring of 4 by 2 cells, where all that a cell has flows one column on in a step.
pub fn ring(alloc: Global) -> Result<Problem, NoMemory>
    ensures columns { IfOk result (λ p. p.nx ≡ 4) }
    ensures rows { IfOk result (λ p. p.ny ≡ 2) }
    ensures steps { IfOk result (λ p. p.steps ≡ 2) }
    ensures blocking { IfOk result (λ p. p.blocking ≡ 2) }
    ensures x_sides { IfOk result (λ p. p.x_sides ≡ Periodic) }
    ensures y_sides { IfOk result (λ p. p.y_sides ≡ Periodic) }
{
    problem(alloc, 4, 2, Sides::Periodic, Sides::Periodic)
}

/// All cells of the ring.
pub fn whole_box() -> Bx
    ensures value { result ≡ extent (cell (pos 0) (pos 0)) (cell (pos 3) (pos 1)) }
    ensures near { IsNear result }
{
    let lo = Cell { x: 0, y: 0 };
    let hi = Cell { x: 3, y: 1 };
    Bx::try_new(lo, hi).unwrap()
}

/// The children of cell (2, 0).
pub fn fine_box() -> Bx
    ensures value { result ≡ extent (cell (pos 4) (pos 0)) (cell (pos 5) (pos 1)) }
    ensures near { IsNear result }
{
    let lo = Cell { x: 4, y: 0 };
    let hi = Cell { x: 5, y: 1 };
    Bx::try_new(lo, hi).unwrap()
}

/// The level of a box, where each mass is 0.
pub fn empty_level(alloc: Global, b: Bx) -> Result<Level, NoMemory>
    requires { IsNear b }
    ensures boxes { IfOk result (λ l. (level_of l).boxes ≡ b ∷ []) }
    ensures masses { IfOk result (λ l. (c : Cell) → (level_of l).masses c ≡ cond (in_boxes (b ∷ []) c) (Some 0) None) }
{
    let boxes = [b];
    let level = Level::make(alloc, &boxes, &boxes)?;
    Ok(level)
}
