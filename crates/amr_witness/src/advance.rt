//! A step of levels, and of a state.

ghost use Rattle.std.specs.Prelude.{◌≡◌, ℕ, ◌+◌, ◌*◌, ◌^◌, ◌<◌, ◌≤◌, length, IfOk};
ghost use Rattle.amr_def.specs.State.{no_masses};
ghost use Rattle.amr_def.specs.Flux.{net, updated};
ghost use Rattle.amr_def.specs.LevelStep.{step, through_children};
ghost use Rattle.amr_def.specs.Ledger.{first_of};
ghost use Rattle.amr_def.specs.Run.{stepped};
ghost use Rattle.amr_def.specs.Facts.{IsSound};
ghost use Rattle.amr_witness.specs.Maps.{boxes_in, masses_in, masses_of, old_of, state_of};
ghost use Rattle.amr_witness.specs.Ready.{HasMasses, IsFace, AreReadyToStep, IsWithin, flux_bound};
ghost use Rattle.amr_witness.specs.Parts.{beside_covered, IsInDomain, new_mass, through_both};

use crate::faces::{east_face, high_child, low_child, north_face, south_face, west_face};
use crate::ledger::row_after;
use crate::value::{Masses, flux_at, high_cell, is_covered, low_cell};
use crate::{Plain, PlainLevel};
use amr_box::{Cell, Face};
use amr_causes::NoMemory;
use amr_def::Problem;
use std::alloc::Global;
use std::collections::BTreeMap;

/// The state after one step: the level step from level 0, by any number of levels, and one more row of the
/// ledger. It fails only where memory runs out; the state that it is lent stays as it is.
pub fn slow_step(alloc: Global, p: &Problem, state: &Plain) -> Result<Plain, NoMemory>
    requires sound { IsSound p.now (state_of state.now) }
    requires before { state.now.step < p.now.steps }
    ensures { IfOk result (λ r. state_of r ≡ stepped p.now (state_of state.now)) }
{
    let levels = step_levels(alloc, p, 0, state.levels.as_slice(), None)?;
    let row = row_after(alloc, p, state.levels.as_slice(), &levels[0].masses)?;
    let mut rows = Vec::from_slice(alloc, state.rows.as_slice())?;
    rows.push(row)?;
    Ok(Plain {
        step: state.step + 1,
        rows,
        levels,
    })
}

/// The levels from `level` on after a step, the coarsest first; `old` is what the next coarser one held at
/// the start of its step.
#[cycle(step)]
pub fn step_levels(
    alloc: Global,
    p: &Problem,
    level: u32,
    levels: &[PlainLevel],
    old: Option<&Masses>,
) -> Result<Vec<PlainLevel>, NoMemory>
    requires known { level + length levels.now ≤ 5 }
    requires ready { AreReadyToStep p.now level (masses_in levels.now) (old_of old) }
    ensures masses { IfOk result (λ r. masses_in r.items ≡ (step p.now level (masses_in levels.now) (old_of old.entry)).levels) }
    ensures boxes { IfOk result (λ r. boxes_in r.items ≡ boxes_in levels.now) }
    ensures count { IfOk result (λ r. length r.items ≡ length levels.now) }
{
    let Some((here, finer)) = levels.split_first() else {
        return Ok(Vec::new(alloc));
    };
    let masses = new_masses(alloc, p, level, levels, old)?;
    let boxes = Vec::from_slice(alloc, here.boxes.as_slice())?;
    let first = step_levels(alloc, p, level + 1, finer, Some(&here.masses))?;
    let mut all = step_levels(alloc, p, level + 1, first.as_slice(), Some(&here.masses))?;
    all.insert(0, PlainLevel { boxes, masses })?;
    Ok(all)
}

/// The masses of the coarsest of the levels after a step.
#[cycle(step)]
fn new_masses(
    alloc: Global,
    p: &Problem,
    level: u32,
    levels: &[PlainLevel],
    old: Option<&Masses>,
) -> Result<Masses, NoMemory>
    requires known { level + length levels.now ≤ 5 }
    requires ready { AreReadyToStep p.now level (masses_in levels.now) (old_of old) }
    ensures { IfOk result (λ r. HasMasses r (updated (first_of (masses_in levels.now)) (step p.now level (masses_in levels.now) (old_of old.entry)).fluxes)) }
{
    let mut next = BTreeMap::new(alloc);
    let Some((here, _)) = levels.split_first() else {
        return Ok(next);
    };
    for (c, mass) in &here.masses {
        let change = net(alloc, p, level, levels, old, *c)?;
        next.insert(*c, new_mass(*mass, change))?;
    }
    Ok(next)
}

/// A mass and what came in, or 0 where that is below 0.
fn new_mass(mass: u64, change: i64) -> u64
    requires small { mass < 2 ^ 31 }
    requires within { IsWithin (2 ^ 52) change }
    ensures { result ≡ new_mass mass change }
{
    (mass as i64 + change).max(0) as u64
}

/// What comes into a cell through its low faces, less what goes out through its high ones.
#[cycle(step)]
fn net(
    alloc: Global,
    p: &Problem,
    level: u32,
    levels: &[PlainLevel],
    old: Option<&Masses>,
    c: Cell,
) -> Result<i64, NoMemory>
    requires known { level ≤ 4 }
    requires few { level + length levels.now ≤ 5 }
    requires ready { AreReadyToStep p.now level (masses_in levels.now) (old_of old) }
    requires inside { IsInDomain p.now level c }
    ensures value { IfOk result (λ z. z ≡ net (step p.now level (masses_in levels.now) (old_of old.entry)).fluxes c) }
    ensures within { IfOk result (λ z. IsWithin (2 ^ 52) z) }
{
    let west = flux(alloc, p, level, levels, old, west_face(c))?;
    let east = flux(alloc, p, level, levels, old, east_face(c))?;
    let south = flux(alloc, p, level, levels, old, south_face(c))?;
    let north = flux(alloc, p, level, levels, old, north_face(c))?;
    Ok((west - east) + (south - north))
}

/// What flows through a face of the coarsest of the levels in a step: its own flux. Beside a covered cell it
/// is what flows through the child faces in both finer steps.
#[cycle(step)]
pub fn flux(
    alloc: Global,
    p: &Problem,
    level: u32,
    levels: &[PlainLevel],
    old: Option<&Masses>,
    f: Face,
) -> Result<i64, NoMemory>
    requires known { level + length levels.now ≤ 5 }
    requires ready { AreReadyToStep p.now level (masses_in levels.now) (old_of old) }
    requires inside { IsFace p.now level f }
    ensures value { IfOk result (λ z. z ≡ (step p.now level (masses_in levels.now) (old_of old.entry)).fluxes f) }
    ensures bound { IfOk result (λ z. IsWithin (flux_bound (length levels.now)) z) }
{
    let Some((here, finer)) = levels.split_first() else {
        return Ok(0);
    };
    if is_beside_covered(p, level, finer, f) {
        through_both(alloc, p, level, &here.masses, finer, f)
    } else {
        Ok(flux_at(p, level, &here.masses, old, f))
    }
}

/// Whether a cell beside a face is covered by the first of the finer levels.
fn is_beside_covered(p: &Problem, level: u32, finer: &[PlainLevel], f: Face) -> bool
    requires known { level ≤ 4 }
    requires inside { IsFace p.now level f }
    ensures { result ≡ beside_covered p.now level (masses_in finer.now) f }
{
    match finer.split_first() {
        None => false,
        Some((fine, _)) => {
            let dom = p.domain(level);
            let low = is_covered(&fine.masses, dom.home_cell(low_cell(p, level, f)));
            let high = is_covered(&fine.masses, dom.home_cell(high_cell(p, level, f)));
            low | high
        }
    }
}

/// What flows through the child faces of a face in both steps of the finer levels.
#[cycle(step)]
fn through_both(
    alloc: Global,
    p: &Problem,
    level: u32,
    m: &Masses,
    finer: &[PlainLevel],
    f: Face,
) -> Result<i64, NoMemory>
    requires known { level + 1 + length finer.now ≤ 5 }
    requires ready { AreReadyToStep p.now (level + 1) (masses_in finer.now) (masses_of m.now) }
    requires middle { AreReadyToStep p.now (level + 1) (step p.now (level + 1) (masses_in finer.now) (masses_of m.now)).levels (masses_of m.now) }
    requires inside { IsFace p.now level f }
    ensures value { IfOk result (λ z. z ≡ through_both p.now (level + 1) (masses_in finer.now) (masses_of m.now) f) }
    ensures bound { IfOk result (λ z. IsWithin (flux_bound (length finer.now + 1)) z) }
{
    let middle = step_levels(alloc, p, level + 1, finer, Some(m))?;
    let first = through_children(alloc, p, level, m, finer, f)?;
    let second = through_children(alloc, p, level, m, middle.as_slice(), f)?;
    Ok(first + second)
}

/// What flows through the two child faces of a face in one step of the finer levels.
#[cycle(step)]
fn through_children(
    alloc: Global,
    p: &Problem,
    level: u32,
    m: &Masses,
    finer: &[PlainLevel],
    f: Face,
) -> Result<i64, NoMemory>
    requires known { level + 1 + length finer.now ≤ 5 }
    requires ready { AreReadyToStep p.now (level + 1) (masses_in finer.now) (masses_of m.now) }
    requires inside { IsFace p.now level f }
    ensures value { IfOk result (λ z. z ≡ through_children (step p.now (level + 1) (masses_in finer.now) (masses_of m.now)).fluxes f.axis f.x f.y) }
    ensures bound { IfOk result (λ z. IsWithin (2 * flux_bound (length finer.now)) z) }
{
    let low = flux(alloc, p, level + 1, finer, Some(m), low_child(f))?;
    let high = flux(alloc, p, level + 1, finer, Some(m), high_child(f))?;
    Ok(low + high)
}
