//! Level 0 of a problem.

ghost use Rattle.std.specs.Prelude.{◌≡◌, ◌*◌, ◌≤◌, ◌∷◌, [], false, length, IfOk};
ghost use Rattle.amr_def.specs.Facts.{IsSound};
ghost use Rattle.amr_def.specs.Run.{plain_start};
ghost use Rattle.amr_patch.specs.Levels.{level_of};
ghost use Rattle.amr_patch.specs.Meshes.{is_spent, levels_of, state_of};
ghost use Rattle.amr_start.specs.PatchBoxes.{HasChoppedDomain, IsBoxChopped};
ghost use Rattle.amr_start.specs.Rows.{box_of, masses_on};

use crate::blank::{blank_level, whole_box};
use crate::blocks::{start_masses, total_mass};
use crate::placed::place_all;
use amr_causes::NoMemory;
use amr_def::{Problem, Row};
use amr_patch::{Level, Mesh};
use std::alloc::Global;

/// Level 0 with the masses of a list, in patches of at most `max` by `max` cells.
fn level_with(
    alloc: Global,
    masses: &[u32],
    columns: u32,
    rows: u32,
    max: u32,
) -> Result<Level, NoMemory>
    requires some_columns { 1 ≤ columns }
    requires some_rows { 1 ≤ rows }
    requires narrow { columns ≤ 256 }
    requires flat { rows ≤ 256 }
    requires some { 1 ≤ max }
    requires count { length masses.now ≡ rows * columns }
    ensures boxes { IfOk result (λ l. (level_of l).boxes ≡ box_of columns rows ∷ []) }
    ensures masses { IfOk result (λ l. (level_of l).masses ≡ masses_on columns rows masses.now) }
    ensures patches { IfOk result (IsBoxChopped max (box_of columns rows)) }
{
    let mut level = blank_level(alloc, whole_box(columns, rows), max)?;
    let mut patches = level.take_patches();
    place_all(&mut patches, masses, columns as usize, rows as usize);
    level.put_patches(patches);
    Ok(level)
}

/// Level 0 of a problem at step 0, before any regrid, in patches of at most `max_grid_size` by `max_grid_size` cells. A cell has
/// the mass of the last block that it lies in, and 0 where it lies in none. Row 0 of the ledger has the mass of level 0 and no
/// flows. `NoMemory` is the only refusal.
pub fn base(alloc: Global, p: &Problem) -> Result<Mesh, NoMemory>
    ensures value { IfOk result (λ m. state_of m ≡ plain_start p.now) }
    ensures sound { IfOk result (λ m. IsSound p.now (state_of m)) }
    ensures at_start { IfOk result (λ m. (state_of m).step ≡ 0) }
    ensures patches { IfOk result (λ m. HasChoppedDomain p.now (levels_of m)) }
    ensures whole { IfOk result (λ m. is_spent m ≡ false) }
{
    let masses = start_masses(alloc, p)?;
    let row = Row {
        mass: total_mass(&masses, p.nx as usize, p.ny as usize),
        inflow: 0,
        outflow: 0,
    };
    let level = level_with(alloc, &masses, p.nx, p.ny, p.max_grid_size)?;
    let rows = vec![in alloc; row]?;
    let levels = vec![in alloc; level]?;
    Ok(Mesh::of(0, rows, levels))
}
