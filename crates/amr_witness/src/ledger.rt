//! The row of the ledger after a step.

ghost use Rattle.std.specs.Prelude.{◌≡◌, ℕ, ◌+◌, ◌*◌, ◌<◌, ◌≤◌, ◌^◌, length, IfOk};
ghost use Rattle.amr_box.specs.Cells.{at_least_zero};
ghost use Rattle.amr_def.specs.Domain.{columns, is_periodic};
ghost use Rattle.amr_def.specs.State.{no_masses};
ghost use Rattle.amr_def.specs.LevelStep.{step};
ghost use Rattle.amr_def.specs.Ledger.{below_zero, if_open, inflow, mass_at, outflow, row_after, row_mass, total_mass};
ghost use Rattle.amr_witness.specs.Ends.{across, along, end_face, sides_of, through_axis};
ghost use Rattle.amr_witness.specs.Maps.{masses_in, masses_of};
ghost use Rattle.amr_witness.specs.Ready.{HasSmallMasses, IsFace, AreReadyToStep, IsWithin};

use crate::PlainLevel;
use crate::advance::flux;
use crate::faces::face_at;
use crate::value::{Masses, columns, mass_in, rows};
use amr_box::{Axis, Cell, Face};
use amr_causes::NoMemory;
use amr_def::{Problem, Row};
use std::alloc::Global;

/// What flowed into the domain and out of it.
#[derive(Clone, Copy, Debug)]
struct Through {
    inflow: u64,
    outflow: u64,
}

/// The row of a step of all levels: the mass of level 0 `after` it, and what flowed through open sides
/// in the step of what was there `before`.
pub fn row_after(
    alloc: Global,
    p: &Problem,
    before: &[PlainLevel],
    after: &Masses,
) -> Result<Row, NoMemory>
    requires few { length before.now ≤ 5 }
    requires ready { AreReadyToStep p.now 0 (masses_in before.now) no_masses }
    requires small { HasSmallMasses (masses_of after.now) }
    ensures mass { IfOk result (λ r. r.mass ≡ total_mass p.now (masses_of after.now)) }
    ensures inflow { IfOk result (λ r. r.inflow ≡ inflow p.now (step p.now 0 (masses_in before.now) no_masses).fluxes) }
    ensures outflow { IfOk result (λ r. r.outflow ≡ outflow p.now (step p.now 0 (masses_in before.now) no_masses).fluxes) }
{
    let x = through_axis(alloc, p, before, Axis::X)?;
    let y = through_axis(alloc, p, before, Axis::Y)?;
    Ok(Row {
        mass: total_mass(p, after),
        inflow: x.inflow + y.inflow,
        outflow: x.outflow + y.outflow,
    })
}

/// The mass of level 0.
#[tactic(auto, unfolding(amr_def::specs::Ledger::total_mass))]
pub fn total_mass(p: &Problem, m: &Masses) -> u64
    requires { HasSmallMasses (masses_of m.now) }
    ensures { result ≡ total_mass p.now (masses_of m.now) }
{
    let mut sum = 0;
    for y in 0..rows(p, 0) {
        sum += row_mass(p, m, y);
    }
    sum
}

fn row_mass(p: &Problem, m: &Masses, y: u32) -> u64
    requires row { y < 4096 }
    requires small { HasSmallMasses (masses_of m.now) }
    ensures value { result ≡ row_mass p.now (masses_of m.now) y }
    ensures bound { result ≤ columns p.now 0 * 2 ^ 31 }
{
    let mut sum = 0;
    for x in 0..columns(p, 0) {
        sum += mass_at(m, x, y);
    }
    sum
}

fn mass_at(m: &Masses, x: u32, y: u32) -> u64
    requires column { x < 4096 }
    requires row { y < 4096 }
    requires small { HasSmallMasses (masses_of m.now) }
    ensures value { result ≡ mass_at (masses_of m.now) x y }
    ensures bound { result < 2 ^ 31 }
{
    match mass_in(
        m,
        Cell {
            x: x as i32,
            y: y as i32,
        },
    ) {
        Some(mass) => mass,
        None => 0,
    }
}

fn at_least_zero(z: i64) -> u64
    ensures { result ≡ at_least_zero z }
{
    if z > 0 { z as u64 } else { 0 }
}

fn below_zero(z: i64) -> u64
    ensures { result ≡ below_zero z }
{
    if z < 0 { z.unsigned_abs() } else { 0 }
}

/// What flows in and out at the two ends of an axis, by their fluxes.
fn between(low: i64, high: i64) -> Through
    requires low { IsWithin (2 ^ 50) low }
    requires high { IsWithin (2 ^ 50) high }
    ensures inflow { result.inflow ≡ at_least_zero low + below_zero high }
    ensures outflow { result.outflow ≡ below_zero low + at_least_zero high }
    ensures inflow_small { result.inflow ≤ 2 ^ 51 }
    ensures outflow_small { result.outflow ≤ 2 ^ 51 }
{
    Through {
        inflow: at_least_zero(low) + below_zero(high),
        outflow: below_zero(low) + at_least_zero(high),
    }
}

/// What flows in and out through a low and a high face of level 0.
fn through_ends(
    alloc: Global,
    p: &Problem,
    levels: &[PlainLevel],
    low: Face,
    high: Face,
) -> Result<Through, NoMemory>
    requires few { length levels.now ≤ 5 }
    requires ready { AreReadyToStep p.now 0 (masses_in levels.now) no_masses }
    requires low { IsFace p.now 0 low }
    requires high { IsFace p.now 0 high }
    ensures inflow { IfOk result (λ t. let e = (step p.now 0 (masses_in levels.now) no_masses).fluxes in t.inflow
        ≡ at_least_zero (e low) + below_zero (e high)) }
    ensures outflow { IfOk result (λ t. let e = (step p.now 0 (masses_in levels.now) no_masses).fluxes in t.outflow
        ≡ below_zero (e low) + at_least_zero (e high)) }
    ensures inflow_small { IfOk result (λ t. t.inflow ≤ 2 ^ 51) }
    ensures outflow_small { IfOk result (λ t. t.outflow ≤ 2 ^ 51) }
{
    let low_flux = flux(alloc, p, 0, levels, None, low)?;
    let high_flux = flux(alloc, p, 0, levels, None, high)?;
    Ok(between(low_flux, high_flux))
}

/// Whether an axis is periodic.
fn is_periodic(p: &Problem, axis: Axis) -> bool
    ensures { result ≡ is_periodic (sides_of p.now axis) }
{
    match axis {
        Axis::X => p.x_sides.is_periodic(),
        Axis::Y => p.y_sides.is_periodic(),
    }
}

/// How many cells of level 0 lie along an axis.
fn along(p: &Problem, axis: Axis) -> u32
    ensures value { result ≡ along p.now axis }
    ensures small { result ≤ 4096 }
{
    match axis {
        Axis::X => columns(p, 0),
        Axis::Y => rows(p, 0),
    }
}

/// How many faces of level 0 lie at an end of an axis.
fn across(p: &Problem, axis: Axis) -> u32
    ensures value { result ≡ across p.now axis }
    ensures small { result ≤ 4096 }
{
    match axis {
        Axis::X => rows(p, 0),
        Axis::Y => columns(p, 0),
    }
}

/// The face before place `at` along an axis, in row `k` (on x) or in column `k` (on y).
fn end_face(axis: Axis, at: u32, k: u32) -> Face
    requires place { at ≤ 4096 }
    requires number { k ≤ 4096 }
    ensures { result ≡ end_face axis at k }
{
    match axis {
        Axis::X => face_at(Axis::X, at, k),
        Axis::Y => face_at(Axis::Y, k, at),
    }
}

/// What flows through the low and the high end of an axis, where it is open.
fn through_axis(
    alloc: Global,
    p: &Problem,
    levels: &[PlainLevel],
    axis: Axis,
) -> Result<Through, NoMemory>
    requires few { length levels.now ≤ 5 }
    requires ready { AreReadyToStep p.now 0 (masses_in levels.now) no_masses }
    ensures inflow { IfOk result (λ t. t.inflow
        ≡ if_open (sides_of p.now axis) (through_axis p.now axis at_least_zero below_zero (step p.now 0 (masses_in levels.now) no_masses).fluxes)) }
    ensures outflow { IfOk result (λ t. t.outflow
        ≡ if_open (sides_of p.now axis) (through_axis p.now axis below_zero at_least_zero (step p.now 0 (masses_in levels.now) no_masses).fluxes)) }
    ensures inflow_small { IfOk result (λ t. t.inflow ≤ 2 ^ 59) }
    ensures outflow_small { IfOk result (λ t. t.outflow ≤ 2 ^ 59) }
{
    let mut inflow = 0;
    let mut outflow = 0;
    if is_periodic(p, axis) {
        return Ok(Through { inflow, outflow });
    }
    let end = along(p, axis);
    for k in 0..across(p, axis) {
        let ends = through_ends(
            alloc,
            p,
            levels,
            end_face(axis, 0, k),
            end_face(axis, end, k),
        )?;
        inflow += ends.inflow;
        outflow += ends.outflow;
    }
    Ok(Through { inflow, outflow })
}
