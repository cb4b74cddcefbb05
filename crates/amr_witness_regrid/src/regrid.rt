//! A regrid of a state.

ghost use Rattle.std.specs.Prelude.{◌≡◌, ◌+◌, ◌<◌, ◌≤◌, length, IfOk};
ghost use Rattle.std.specs.List.{All};
ghost use Rattle.amr_box.specs.Cells.{IsNear};
ghost use Rattle.amr_def.specs.Facts.{IsSound};
ghost use Rattle.amr_def.specs.State.{level_at, masses_below};
ghost use Rattle.amr_def.specs.Tags.{is_tagged};
ghost use Rattle.amr_def.specs.NewBoxes.{first_boxes, new_boxes};
ghost use Rattle.amr_def.specs.Regrid.{new_level_count, regrid, regridded_levels};
ghost use Rattle.amr_witness.specs.Maps.{levels_of, masses_of, old_of, state_of};
ghost use Rattle.amr_witness_regrid.specs.Places.{AreInside, AreOffsets};
ghost use Rattle.amr_witness_regrid.specs.Wanted.{with_levels};
ghost use Rattle.amr_regrid.specs.Outlines.{lists_in};

use crate::cells::{Offsets, offsets_of};
use crate::masses::refill;
use crate::tagged::LevelMasses;
use crate::wanted::boxes_over;
use amr_box::Bx;
use amr_causes::NoMemory;
use amr_def::Problem;
use amr_witness::{Masses, Plain, PlainLevel};
use std::alloc::Global;

/// The state with new boxes above level 0, and the masses of their cells. It fails only where memory runs
/// out; the state that it is lent stays as it is.
pub fn slow_regrid(alloc: Global, p: &Problem, state: &Plain) -> Result<Plain, NoMemory>
    requires { IsSound p.now (state_of state.now) }
    ensures { IfOk result (λ r. state_of r ≡ regrid p.now (state_of state.now)) }
{
    let near = offsets_of(alloc, p)?;
    let levels = state.levels.as_slice();
    let count = new_level_count(p, levels);
    let boxes = new_boxes(alloc, p, levels, &near, 0, count)?;
    let levels = regridded_levels(alloc, levels, boxes.as_slice())?;
    let rows = Vec::from_slice(alloc, state.rows.as_slice())?;
    Ok(Plain {
        step: state.step,
        rows,
        levels,
    })
}

/// How many levels get new boxes.
fn new_level_count(p: &Problem, levels: &[PlainLevel]) -> u32
    requires { length levels.now ≤ 5 }
    ensures { result ≡ new_level_count p.now (with_levels levels.now) }
{
    p.max_level.min(levels.len() as u32)
}

/// The masses of a level.
fn masses_at(levels: &[PlainLevel], level: u32) -> &Masses
    requires { level < length levels.now }
    ensures { masses_of result.now ≡ (level_at (with_levels levels.now) level).masses }
{
    &levels[level as usize].masses
}

/// The masses of the next coarser level than one, none below level 0.
fn masses_below(levels: &[PlainLevel], level: u32) -> Option<&Masses>
    requires { level < length levels.now }
    ensures { old_of result ≡ masses_below (with_levels levels.now) level }
{
    if level == 0 {
        None
    } else {
        Some(masses_at(levels, level - 1))
    }
}

/// The first of the lists, or no boxes.
fn first_boxes(lists: &[Vec<Bx>]) -> &[Bx]
    ensures { result.now ≡ first_boxes (lists_in lists.now) }
{
    match lists.split_first() {
        Some((first, _)) => first.as_slice(),
        None => &[],
    }
}

/// The new boxes of `n` levels, the coarsest that of `level + 1`.
fn new_boxes(
    alloc: Global,
    p: &Problem,
    levels: &[PlainLevel],
    near: &Offsets,
    level: u32,
    n: u32,
) -> Result<Vec<Vec<Bx>>, NoMemory>
    requires known { level + n ≤ p.now.max_level }
    requires there { level + n ≤ length levels.now }
    requires inside { AreInside p.now (levels_of levels.now) }
    requires offsets { AreOffsets p.now near.now }
    ensures boxes { IfOk result (λ r. lists_in r.items ≡ new_boxes p.now (is_tagged p.now (with_levels levels.now)) n level) }
    ensures near { IfOk result (λ r. All (All IsNear) (lists_in r.items)) }
{
    if n == 0 {
        return Ok(Vec::new(alloc));
    }
    let mut all = new_boxes(alloc, p, levels, near, level + 1, n - 1)?;
    let here = LevelMasses {
        level,
        masses: masses_at(levels, level),
        coarse: masses_below(levels, level),
    };
    let boxes = boxes_over(alloc, p, here, first_boxes(all.as_slice()), near)?;
    all.insert(0, boxes)?;
    Ok(all)
}

/// The levels with new boxes; level 0 stays.
fn regridded_levels(
    alloc: Global,
    levels: &[PlainLevel],
    boxes: &[Vec<Bx>],
) -> Result<Vec<PlainLevel>, NoMemory>
    requires { All (All IsNear) (lists_in boxes.now) }
    ensures { IfOk result (λ r. levels_of r.items ≡ regridded_levels (levels_of levels.now) (lists_in boxes.now)) }
{
    let Some((base, olds)) = levels.split_first() else {
        return Ok(Vec::new(alloc));
    };
    let mut all = refill(alloc, &base.masses, olds, boxes)?;
    let copy = PlainLevel {
        boxes: Vec::from_slice(alloc, base.boxes.as_slice())?,
        masses: base.masses.clone()?,
    };
    all.insert(0, copy)?;
    Ok(all)
}
