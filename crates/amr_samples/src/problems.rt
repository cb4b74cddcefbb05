//! Problems that tests share.

ghost use Rattle.std.specs.Prelude.{◌≡◌, ◌≤◌, true, [], ◌∷◌, length, pos, IfOk};
ghost use Rattle.amr_def.specs.Limits.{Limits, has_inflows};

use amr_causes::NoMemory;
use amr_def::{Block, Blocks, Name, Problem, Shear, Sides, Thresholds};
use std::alloc::Global;

/// In what the numbers of problems of tests differ: as in [`Problem`].
#[derive(Clone, Copy)]
pub struct Sample {
    pub nx: u32,
    pub ny: u32,
    pub steps: u32,
    pub x_sides: Sides,
    pub y_sides: Sides,
    pub efficiency: u32,
    pub max_grid_size: u32,
}

/// A ring of 4 by 2 cells, of two steps.
pub const RING: Sample = Sample {
    nx: 4,
    ny: 2,
    steps: 2,
    x_sides: Sides::Periodic,
    y_sides: Sides::Periodic,
    efficiency: 80,
    max_grid_size: 4,
};

/// The problem of a sample, with as many levels above level 0 as there are thresholds. All that a cell has flows one column on in
/// each step.
pub fn ring_of(
    alloc: Global,
    sample: Sample,
    tag: &[u64],
    blocks: &[Block],
) -> Result<Problem, NoMemory>
    requires { Limits 1 (114 ∷ 105 ∷ 110 ∷ 103 ∷ []) sample.nx sample.ny sample.steps (pos 1) (pos 0) 1 [] []
        sample.x_sides sample.y_sides (length tag.now) tag.now 0 sample.efficiency 1 4096 2 sample.max_grid_size blocks.now 1 }
    ensures columns { IfOk result (λ p. p.nx ≡ sample.nx) }
    ensures rows { IfOk result (λ p. p.ny ≡ sample.ny) }
    ensures steps { IfOk result (λ p. p.steps ≡ sample.steps) }
    ensures blocking { IfOk result (λ p. p.blocking ≡ 2) }
    ensures x_sides { IfOk result (λ p. p.x_sides ≡ sample.x_sides) }
    ensures y_sides { IfOk result (λ p. p.y_sides ≡ sample.y_sides) }
    ensures levels { IfOk result (λ p. p.max_level ≡ length tag.now) }
{
    Ok(Problem {
        version: 1,
        name: Name::make(Vec::from_slice(alloc, b"ring")?),
        nx: sample.nx,
        ny: sample.ny,
        steps: sample.steps,
        cx: 1,
        cy: 0,
        d: 1,
        shear_x: Shear::make(Vec::new(alloc)),
        shear_y: Shear::make(Vec::new(alloc)),
        x_sides: sample.x_sides,
        y_sides: sample.y_sides,
        max_level: tag.len() as u32,
        tag: Thresholds::make(Vec::from_slice(alloc, tag)?),
        n_error_buf: 0,
        efficiency: sample.efficiency,
        min_width: 1,
        regrid_int: 4096,
        blocking: 2,
        max_grid_size: sample.max_grid_size,
        blocks: Blocks::make(Vec::from_slice(alloc, blocks)?),
        species: 1,
    })
}

/// A problem of `nx` by `ny` cells and up to two levels, of two steps. All that a cell has flows one column on in each.
pub fn problem(
    alloc: Global,
    nx: u32,
    ny: u32,
    x_sides: Sides,
    y_sides: Sides,
) -> Result<Problem, NoMemory>
    requires some_columns { 2 ≤ nx }
    requires few_columns { nx ≤ 16 }
    requires some_rows { 2 ≤ ny }
    requires few_rows { ny ≤ 16 }
    requires x_inflows { has_inflows x_sides ≡ true }
    requires y_inflows { has_inflows y_sides ≡ true }
    ensures columns { IfOk result (λ p. p.nx ≡ nx) }
    ensures rows { IfOk result (λ p. p.ny ≡ ny) }
    ensures steps { IfOk result (λ p. p.steps ≡ 2) }
    ensures blocking { IfOk result (λ p. p.blocking ≡ 2) }
    ensures x_sides { IfOk result (λ p. p.x_sides ≡ x_sides) }
    ensures y_sides { IfOk result (λ p. p.y_sides ≡ y_sides) }
{
    let sample = Sample {
        nx,
        ny,
        x_sides,
        y_sides,
        ..RING
    };
    ring_of(alloc, sample, &[9], &[])
}

/// A mass of 8 in the last cell of row 0 of nine columns.
const LAST_CELL: Block = Block {
    x0: 8,
    y0: 0,
    x1: 8,
    y1: 0,
    mass: 8,
    species: 0,
};

/// A ring of 9 by 3 cells on one level, in patches of at most 4 by 4, with a mass of 8 in cell (8, 0). In each of its two steps all
/// that a cell has flows one column on.
pub fn nine_columns(alloc: Global) -> Result<Problem, NoMemory>
    ensures { IfOk result (λ p. p.steps ≡ 2) }
{
    let sample = Sample {
        nx: 9,
        ny: 3,
        ..RING
    };
    ring_of(alloc, sample, &[], &[LAST_CELL])
}
