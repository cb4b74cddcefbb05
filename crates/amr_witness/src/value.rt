//! Values of cells, and plain fluxes.

ghost use Rattle.std.specs.Prelude.{◌≡◌, ◌≢◌, ℕ, ◌+◌, ◌*◌, ◌/◌, ◌^◌, ◌<◌, ◌≤◌, pos, negsuc, ◌+ℤ◌, ◌-ℤ◌, ◌≤ℤ◌, ◌<ℤ◌, unsigned_abs, is_some};
ghost use Rattle.std.specs.Option.{unwrap_or};
ghost use Rattle.amr_box.specs.Cells.{cell, parent, child};
ghost use Rattle.amr_def.specs.Domain.{columns, rows, domain, home_cell, in_domain};
ghost use Rattle.amr_def.specs.State.{is_covered, mass_of};
ghost use Rattle.amr_def.specs.Value.{low_inflow, high_inflow, inflow_at, value_at};
ghost use Rattle.amr_def.specs.Flux.{courant, flow, flux_at, low_cell, high_cell};
ghost use Rattle.amr_witness.specs.Maps.{masses_of, old_of};
ghost use Rattle.amr_witness.specs.Ready.{HasSmallValues, IsFace, IsNearby, IsWithin};

use amr_box::{Axis, Cell, Face, parent};
use amr_def::{Problem, Sides};
use std::collections::BTreeMap;

/// The masses of a level.
pub type Masses = BTreeMap<Cell, u64>;

/// How many columns a level has.
#[tactic(auto, using(crate::proofs::Sizes::sizes))]
pub fn columns(p: &Problem, level: u32) -> u32
    requires { level ≤ 4 }
    ensures value { result ≡ columns p.now level }
    ensures some { 0 < result }
    ensures small { result ≤ 4096 }
{
    p.domain(level).columns()
}

/// How many rows a level has.
#[tactic(auto, using(crate::proofs::Sizes::sizes))]
pub fn rows(p: &Problem, level: u32) -> u32
    requires { level ≤ 4 }
    ensures value { result ≡ rows p.now level }
    ensures some { 0 < result }
    ensures small { result ≤ 4096 }
{
    p.domain(level).rows()
}

fn low_inflow(sides: Sides) -> u64
    ensures { result ≡ low_inflow sides }
{
    match sides {
        Sides::Periodic => 0,
        Sides::Open(low, _) => low,
    }
}

fn high_inflow(sides: Sides) -> u64
    ensures { result ≡ high_inflow sides }
{
    match sides {
        Sides::Periodic => 0,
        Sides::Open(_, high) => high,
    }
}

#[tactic(auto, unfolding(amr_def::specs::Value::inflow_at))]
fn inflow_at(p: &Problem, level: u32, c: Cell) -> u64
    requires { level ≤ 4 }
    ensures { result ≡ inflow_at p.now level c }
{
    if c.x < 0 {
        low_inflow(p.x_sides)
    } else if c.x >= columns(p, level) as i32 {
        high_inflow(p.x_sides)
    } else if c.y < 0 {
        low_inflow(p.y_sides)
    } else {
        high_inflow(p.y_sides)
    }
}

pub fn mass_in(m: &Masses, c: Cell) -> Option<u64>
    ensures { result ≡ masses_of m.now c }
{
    m.get(&c).copied()
}

fn old_mass(old: Option<&Masses>, c: Cell) -> u64
    ensures { result ≡ mass_of (old_of old.entry) c }
{
    match old {
        Some(m) => mass_in(m, c).unwrap_or(0),
        None => 0,
    }
}

/// How many cells of the level make up one of level 0.
#[tactic(auto, using(crate::proofs::Sizes::powers_of_four))]
fn quarters(level: u32) -> u64
    requires { level ≤ 4 }
    ensures value { result ≡ 4 ^ level }
    ensures some { 0 < result }
{
    4u64.pow(level)
}

/// The value of a cell, the level's own or a ghost cell's.
#[tactic(auto, unfolding(amr_def::specs::Value::value_at))]
pub fn value_at(p: &Problem, level: u32, m: &Masses, old: Option<&Masses>, c: Cell) -> u64
    requires { level ≤ 4 }
    ensures { result ≡ value_at p.now level (masses_of m.now) (old_of old.entry) c }
{
    let dom = p.domain(level);
    let home = dom.home_cell(c);
    match mass_in(m, home) {
        Some(mass) => mass,
        None => {
            if dom.in_domain(home) {
                old_mass(old, parent(home)) / 4
            } else {
                inflow_at(p, level, home) / quarters(level)
            }
        }
    }
}

fn flow(c: i32, d: u32, low: u64, high: u64) -> i64
    requires some { 0 < d }
    requires slow { unsigned_abs c ≤ 1024 }
    requires low_small { low < 2 ^ 31 }
    requires high_small { high < 2 ^ 31 }
    ensures value { result ≡ flow c d low high }
    ensures small { IsWithin (2 ^ 42) result }
{
    if c >= 0 {
        (c as u64 * low / d as u64) as i64
    } else {
        -((c.unsigned_abs() as u64 * high / d as u64) as i64)
    }
}

/// The Courant number of a face, times `d`.
fn courant(p: &Problem, level: u32, f: Face) -> i32
    requires known { level ≤ 4 }
    requires inside { IsFace p.now level f }
    ensures value { result ≡ courant p.now level f }
    ensures slow { unsigned_abs result ≤ 1024 }
{
    match f.axis {
        Axis::X => p.x_courant(level, f.y as u32),
        Axis::Y => p.y_courant(level, f.x as u32),
    }
}

pub fn low_cell(p: &Problem, level: u32, f: Face) -> Cell
    requires known { level ≤ 4 }
    requires inside { IsFace p.now level f }
    ensures value { result ≡ low_cell f }
    ensures near { IsNearby result }
{
    match f.axis {
        Axis::X => Cell { x: f.x - 1, y: f.y },
        Axis::Y => Cell { x: f.x, y: f.y - 1 },
    }
}

pub fn high_cell(p: &Problem, level: u32, f: Face) -> Cell
    requires known { level ≤ 4 }
    requires inside { IsFace p.now level f }
    ensures value { result ≡ high_cell f }
    ensures near { IsNearby result }
{
    Cell { x: f.x, y: f.y }
}

/// The flux through a face, by the values on its two sides.
#[tactic(auto, unfolding(amr_def::specs::Flux::flux_at))]
pub fn flux_at(p: &Problem, level: u32, m: &Masses, old: Option<&Masses>, f: Face) -> i64
    requires known { level ≤ 4 }
    requires inside { IsFace p.now level f }
    requires small { HasSmallValues p.now level (masses_of m.now) (old_of old) }
    ensures value { result ≡ flux_at p.now level (masses_of m.now) (old_of old.entry) f }
    ensures bound { IsWithin (2 ^ 42) result }
{
    let low = value_at(p, level, m, old, low_cell(p, level, f));
    let high = value_at(p, level, m, old, high_cell(p, level, f));
    flow(courant(p, level, f), p.d, low, high)
}

fn is_there(m: &Masses, x: i32, y: i32) -> bool
    ensures { result ≡ is_some (masses_of m.now (cell x y)) }
{
    mass_in(m, Cell { x, y }).is_some()
}

/// Whether a cell is the parent of a cell of the finer level.
pub fn is_covered(fine: &Masses, c: Cell) -> bool
    requires { IsNearby c }
    ensures { result ≡ is_covered (masses_of fine.now) c }
{
    let x = c.x + c.x;
    let y = c.y + c.y;
    let low = is_there(fine, x, y) | is_there(fine, x + 1, y);
    let high = is_there(fine, x, y + 1) | is_there(fine, x + 1, y + 1);
    low | high
}
