//! The state of a mesh as ordered maps.

ghost use Rattle.std.specs.Prelude.{◌≡◌, ◌+◌, cond, false, length, map, IfOk, OnOk};
ghost use Rattle.std.specs.declared.option.Option.TheVariants.{Some};
ghost use Rattle.std.specs.List.{All};
ghost use Rattle.amr_box.specs.Cells.{IsNear, holds};
ghost use Rattle.amr_box.specs.declared.Cell.{Cell};
ghost use Rattle.amr_def.specs.Facts.{IsSound};
ghost use Rattle.amr_def.specs.State.{mass_of};
ghost use Rattle.amr_patch.specs.Levels.{level_of};
ghost use Rattle.amr_patch.specs.Meshes.{is_spent, state_of};
ghost use Rattle.amr_witness.specs.Maps as maps;
ghost use Rattle.amr_witness.specs.Ready.{HasMasses};
ghost use Rattle.amr_witness_regrid.specs.Places.{HasBoxes};

use crate::cells::cells_of;
use amr_box::Bx;
use amr_causes::NoMemory;
use amr_def::{Problem, Row};
use amr_patch::{Level, Mesh};
use amr_witness::{Masses, Plain, PlainLevel};
use std::alloc::Global;
use std::collections::BTreeMap;

/// Gives the cells of a box the masses that they have in a level.
fn copy_box(alloc: Global, masses: &mut Masses, level: &Level, b: &Bx) -> Result<(), NoMemory>
    requires { IsNear b.now }
    ensures { OnOk result ((q : Cell)
        → maps.masses_of masses.new q ≡ cond (holds b.now q) (Some (mass_of (level_of level.now).masses q)) (maps.masses_of masses.old q)) }
{
    let cells = cells_of(alloc, b)?;
    for c in cells.as_slice() {
        masses.insert(*c, level.get(*c).unwrap_or(0))?;
    }
    Ok(())
}

/// The masses of a level.
fn masses_of(alloc: Global, level: &Level) -> Result<Masses, NoMemory>
    requires { HasBoxes (level_of level.now) }
    ensures { IfOk result (λ m. HasMasses m (level_of level.now).masses) }
{
    let mut masses = BTreeMap::new(alloc);
    for b in level.boxes() {
        copy_box(alloc, &mut masses, level, b)?;
    }
    Ok(masses)
}

fn plain_level(alloc: Global, level: &Level) -> Result<PlainLevel, NoMemory>
    requires { HasBoxes (level_of level.now) }
    ensures { IfOk result (λ k. maps.level_of k ≡ level_of level.now) }
{
    Ok(PlainLevel {
        boxes: Vec::from_slice(alloc, level.boxes())?,
        masses: masses_of(alloc, level)?,
    })
}

fn plain_levels(alloc: Global, levels: &[Level]) -> Result<Vec<PlainLevel>, NoMemory>
    requires { All HasBoxes (map level_of levels.now) }
    ensures { IfOk result (λ ks. maps.levels_of ks.items ≡ map level_of levels.now) }
{
    let mut all = Vec::new(alloc);
    for level in levels {
        all.push(plain_level(alloc, level)?)?;
    }
    Ok(all)
}

/// The rows of the ledger, of which there are `count`.
fn rows_of(alloc: Global, mesh: &Mesh, count: u32) -> Result<Vec<Row>, NoMemory>
    requires whole { is_spent mesh.now ≡ false }
    requires rows { length (state_of mesh.now).rows ≡ count }
    ensures { IfOk result (λ rows. rows.items ≡ (state_of mesh.now).rows) }
{
    let mut rows = Vec::new(alloc);
    for k in 0..count {
        rows.push(mesh.row(k))?;
    }
    Ok(rows)
}

/// The state of a mesh, as ordered maps. It is a sound state of the problem, and the mesh is not spent.
pub fn plain_of(alloc: Global, p: &Problem, mesh: &Mesh) -> Result<Plain, NoMemory>
    requires whole { is_spent mesh.now ≡ false }
    requires sound { IsSound p.now (state_of mesh.now) }
    ensures { IfOk result (λ s. maps.state_of s ≡ state_of mesh.now) }
{
    let step = mesh.step();
    prove!(step <= p.steps);
    Ok(Plain {
        step,
        rows: rows_of(alloc, mesh, step + 1)?,
        levels: plain_levels(alloc, mesh.levels())?,
    })
}
