//! The masses of level 0 at the start.

ghost use Rattle.std.specs.Prelude.{◌≡◌, ℕ, ◌+◌, ◌*◌, ◌^◌, ◌<◌, ◌≤◌, cond, ◌&&◌, nat_le, nat_lt, pos, length, slice_index, IfOk};
ghost use Rattle.amr_box.specs.Cells.{cell, holds};
ghost use Rattle.amr_def.specs.Run.{block_extent, block_mass};
ghost use Rattle.amr_def.specs.Ledger.{sum_to};
ghost use Rattle.amr_start.specs.Rows.{IsBlockIn, FillsBlock, HasBlocks, row_mass_in};

use amr_causes::NoMemory;
use amr_def::{Block, Problem};
use std::alloc::Global;

/// Gives the entries from `low` to before `high` a mass.
fn fill(masses: &mut [u32], low: usize, high: usize, mass: u32)
    requires order { low ≤ high }
    requires inside { high ≤ length masses.old }
    ensures { (k : ℕ) → slice_index masses.new k ≡ cond (nat_le low k && nat_lt k high) mass (slice_index masses.old k) }
{
    for k in low..high {
        masses[k] = mass;
    }
}

/// Gives the cells of a block its mass, in place of what they had.
fn fill_block(masses: &mut [u32], columns: usize, rows: usize, b: &Block)
    requires block { IsBlockIn columns rows b.now }
    requires count { length masses.old ≡ rows * columns }
    requires narrow { columns ≤ 256 }
    requires flat { rows ≤ 256 }
    ensures { FillsBlock columns rows b.now masses.old masses.new }
{
    let west = b.x0 as usize;
    let past_east = b.x1 as usize + 1;
    for y in b.y0 as usize..b.y1 as usize + 1 {
        let start = y * columns;
        fill(masses, start + west, start + past_east, b.mass as u32);
    }
}

/// The masses of level 0 at the start: those of the blocks, of which a later one replaces an earlier
/// one, and 0 elsewhere.
pub(crate) fn start_masses(alloc: Global, p: &Problem) -> Result<Vec<u32>, NoMemory>
    ensures { IfOk result (λ v. HasBlocks p.now v.items) }
{
    let columns = p.nx as usize;
    let rows = p.ny as usize;
    let mut masses = vec![in alloc; 0u32; rows * columns]?;
    for b in p.blocks.entries() {
        fill_block(&mut masses, columns, rows, b);
    }
    Ok(masses)
}

/// The sum of a row.
fn row_mass(masses: &[u32], columns: usize, y: usize) -> u64
    requires small { (k : ℕ) → slice_index masses.now k < 2 ^ 31 }
    requires narrow { columns ≤ 256 }
    requires inside { (y + 1) * columns ≤ length masses.now }
    ensures value { result ≡ row_mass_in columns masses.now y }
    ensures bound { result ≤ 256 * 2 ^ 31 }
{
    let start = y * columns;
    let mut sum = 0;
    for x in 0..columns {
        sum += u64::from(masses[start + x]);
    }
    sum
}

/// The sum of the masses.
pub(crate) fn total_mass(masses: &[u32], columns: usize, rows: usize) -> u64
    requires small { (k : ℕ) → slice_index masses.now k < 2 ^ 31 }
    requires count { length masses.now ≡ rows * columns }
    requires narrow { columns ≤ 256 }
    requires flat { rows ≤ 256 }
    ensures { result ≡ sum_to (row_mass_in columns masses.now) rows }
{
    let mut sum = 0;
    for y in 0..rows {
        sum += row_mass(masses, columns, y);
    }
    sum
}
