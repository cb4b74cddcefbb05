//! From entries without a fault to the problem.

ghost use Rattle.std.specs.Prelude.{◌≡◌, ◌≤◌, ◌≤ℤ◌, unsigned_abs, None, true, pos, IfOk, [], ◌∷◌, map, is_none};
ghost use Rattle.std.specs.List.{list_all};
ghost use Rattle.amr_problem.specs.Keys.{ranges_of, first_outside, holds, threshold, courant_number};
ghost use Rattle.amr_problem.specs.Fields.{sides_numbers, block_numbers, IsOfEntries};
ghost use Rattle.amr_problem.specs.Faults.{is_periodic};
ghost use Rattle.amr_problem.specs.Entries.{IsSide, IsClean, FitsBasics};

use crate::checks::is_periodic;
use crate::entries::Entries;
use crate::key::Key;
use amr_def::{Block, Blocks, Name, Problem, Shear, Sides, Thresholds};
use std::alloc::{AllocError, Global};

/// The problem that entries without a fault are.
pub fn problem(alloc: Global, entries: Entries) -> Result<Problem, AllocError>
    requires clean { IsClean entries }
    requires fits { FitsBasics entries.basics entries.overlay }
    ensures { IfOk result (IsOfEntries entries) }
{
    let Entries {
        basics,
        refining,
        overlay,
    } = entries;
    let tag = thresholds(alloc, refining.tag.as_slice())?;
    let blocks = blocks(alloc, overlay.blocks.as_slice())?;
    let shear_x = numerators(alloc, overlay.shear_x.as_slice())?;
    let shear_y = numerators(alloc, overlay.shear_y.as_slice())?;
    Ok(Problem {
        version: small(basics.version),
        name: Name::make(basics.name),
        nx: small(basics.nx),
        ny: small(basics.ny),
        steps: small(basics.steps),
        cx: signed(basics.cx),
        cy: signed(basics.cy),
        d: small(basics.d),
        shear_x: Shear::make(shear_x),
        shear_y: Shear::make(shear_y),
        x_sides: sides(basics.x_low, basics.x_high),
        y_sides: sides(basics.y_low, basics.y_high),
        max_level: small(basics.max_level),
        tag: Thresholds::make(tag),
        n_error_buf: small(refining.n_error_buf),
        efficiency: small(refining.efficiency),
        min_width: small(refining.min_width),
        regrid_int: small(refining.regrid_int),
        blocking: small(overlay.blocking),
        max_grid_size: small(refining.max_grid_size),
        blocks: Blocks::make(blocks),
        species: small(overlay.species),
    })
}

fn small(number: i64) -> u32
    requires least { pos 0 ≤ℤ number }
    requires greatest { number ≤ℤ pos 65536 }
    ensures { number ≡ pos result }
{
    number as u32
}

fn signed(number: i64) -> i32
    requires { unsigned_abs number ≤ 65536 }
    ensures { result ≡ number }
{
    number as i32
}

fn sides(low: i64, high: i64) -> Sides
    requires low_side { IsSide low }
    requires high_side { IsSide high }
    requires alike { is_periodic low ≡ is_periodic high }
    ensures { sides_numbers result ≡ low ∷ high ∷ [] }
{
    if is_periodic(low) {
        Sides::Periodic
    } else {
        Sides::Open(low as u64, high as u64)
    }
}

fn thresholds(alloc: Global, numbers: &[i64]) -> Result<Vec<u64>, AllocError>
    requires { list_all (holds threshold) numbers.now ≡ true }
    ensures { IfOk result (λ tag. map pos tag.items ≡ numbers.now) }
{
    let mut tag = Vec::new(alloc);
    for number in numbers {
        tag.push(whole(*number))?;
    }
    Ok(tag)
}

fn whole(number: i64) -> u64
    requires { holds threshold number ≡ true }
    ensures { pos result ≡ number }
{
    number as u64
}

fn numerators(alloc: Global, numbers: &[i64]) -> Result<Vec<i32>, AllocError>
    requires { list_all (holds courant_number) numbers.now ≡ true }
    ensures { IfOk result (λ numerators. numerators.items ≡ numbers.now) }
{
    let mut numerators = Vec::new(alloc);
    for number in numbers {
        numerators.push(numerator(*number))?;
    }
    Ok(numerators)
}

fn numerator(number: i64) -> i32
    requires { holds courant_number number ≡ true }
    ensures { result ≡ number }
{
    number as i32
}

fn blocks(alloc: Global, rows: &[[i64; 6]]) -> Result<Vec<Block>, AllocError>
    requires { list_all (λ row. is_none (first_outside (ranges_of Key.Blocks) row)) rows.now ≡ true }
    ensures { IfOk result (λ blocks. map block_numbers blocks.items ≡ rows.now) }
{
    let mut blocks = Vec::new(alloc);
    for row in rows {
        blocks.push(block_of(row))?;
    }
    Ok(blocks)
}

fn block_of(row: &[i64; 6]) -> Block
    requires { first_outside (ranges_of Key.Blocks) row.now ≡ None }
    ensures { block_numbers result ≡ row.now }
{
    let [x0, y0, x1, y1, mass, species] = *row;
    block(x0, y0, x1, y1, mass, species)
}

fn block(x0: i64, y0: i64, x1: i64, y1: i64, mass: i64, species: i64) -> Block
    requires { first_outside (ranges_of Key.Blocks) (x0 ∷ y0 ∷ x1 ∷ y1 ∷ mass ∷ species ∷ []) ≡ None }
    ensures { block_numbers result ≡ x0 ∷ y0 ∷ x1 ∷ y1 ∷ mass ∷ species ∷ [] }
{
    Block {
        x0: x0 as u32,
        y0: y0 as u32,
        x1: x1 as u32,
        y1: y1 as u32,
        mass: mass as u64,
        species: species as u32,
    }
}
