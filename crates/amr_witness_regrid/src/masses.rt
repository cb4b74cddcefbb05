//! The masses of new boxes.

ghost use Rattle.std.specs.Prelude.{◌≡◌, ℕ, ◌+◌, ◌≤◌, ◌<◌, ◌^◌, cond, IfOk, OnOk};
ghost use Rattle.std.specs.declared.option.Option.TheVariants.{None, Some};
ghost use Rattle.std.specs.Option.{unwrap_or};
ghost use Rattle.std.specs.List.{All};
ghost use Rattle.amr_box.specs.Cells.{IsNear, holds};
ghost use Rattle.amr_box.specs.declared.Cell.{Cell};
ghost use Rattle.amr_def.specs.Regrid.{child_number, first_masses, odd, refill, refilled, rest_of, child_share, split_mass};
ghost use Rattle.amr_witness.specs.Maps.{levels_of, masses_of, old_of};
ghost use Rattle.amr_witness.specs.Ready.{HasMasses};
ghost use Rattle.amr_regrid.specs.Outlines.{lists_in};

use crate::cells::cells_of;
use amr_box::{Bx, Cell, parent};
use amr_causes::NoMemory;
use amr_witness::{Masses, PlainLevel, mass_in};
use std::alloc::Global;
use std::collections::BTreeMap;

/// The share of child `k` of a parent of mass `m`.
fn child_share(m: u64, k: u64) -> u64
    ensures { result ≡ child_share m k }
{
    m / 4 + u64::from(k < m % 4)
}

fn odd(z: i32) -> u64
    ensures value { result ≡ odd z }
    ensures small { result ≤ 1 }
{
    z.rem_euclid(2) as u64
}

/// Which child of its parent a cell is.
fn child_number(c: Cell) -> u64
    ensures { result ≡ child_number c }
{
    2 * odd(c.y) + odd(c.x)
}

/// What a cell gets of the mass of its parent.
fn split_mass(coarse: &Masses, c: Cell) -> u64
    ensures { result ≡ split_mass (masses_of coarse.now) c }
{
    let mass = mass_in(coarse, parent(c)).unwrap_or(0);
    child_share(mass, child_number(c))
}

/// The mass of a cell of new boxes: the one that it had on the level, or its share.
fn new_mass(coarse: &Masses, old: Option<&Masses>, c: Cell) -> u64
    ensures { result ≡ unwrap_or (old_of old.entry c) (split_mass (masses_of coarse.now) c) }
{
    let kept = match old {
        Some(m) => mass_in(m, c),
        None => None,
    };
    match kept {
        Some(mass) => mass,
        None => split_mass(coarse, c),
    }
}

/// Gives the cells of a box their masses.
fn fill(
    alloc: Global,
    next: &mut Masses,
    coarse: &Masses,
    old: Option<&Masses>,
    b: &Bx,
) -> Result<(), NoMemory>
    requires { IsNear b.now }
    ensures { OnOk result ((q : Cell) → masses_of next.new q
        ≡ cond (holds b.now q) (Some (unwrap_or (old_of old.entry q) (split_mass (masses_of coarse.now) q))) (masses_of next.old q)) }
{
    let cells = cells_of(alloc, b)?;
    for c in cells.as_slice() {
        next.insert(*c, new_mass(coarse, old, *c))?;
    }
    Ok(())
}

/// The masses of new boxes over those of the coarser level.
fn refilled(
    alloc: Global,
    coarse: &Masses,
    old: Option<&Masses>,
    boxes: &[Bx],
) -> Result<Masses, NoMemory>
    requires { All IsNear boxes.now }
    ensures { IfOk result (λ m. HasMasses m (refilled (masses_of coarse.now) (old_of old.entry) boxes.now)) }
{
    let mut next = BTreeMap::new(alloc);
    for b in boxes {
        fill(alloc, &mut next, coarse, old, b)?;
    }
    Ok(next)
}

/// The masses of the first of the levels.
fn first_masses(levels: &[PlainLevel]) -> Option<&Masses>
    ensures { old_of result ≡ first_masses (levels_of levels.now) }
{
    match levels.split_first() {
        Some((first, _)) => Some(&first.masses),
        None => None,
    }
}

/// The levels but the first.
fn rest_of(levels: &[PlainLevel]) -> &[PlainLevel]
    ensures { levels_of result.now ≡ rest_of (levels_of levels.now) }
{
    match levels.split_first() {
        Some((_, rest)) => rest,
        None => levels,
    }
}

/// The levels with these boxes, upward to the first that has none.
pub fn refill(
    alloc: Global,
    coarse: &Masses,
    olds: &[PlainLevel],
    boxes: &[Vec<Bx>],
) -> Result<Vec<PlainLevel>, NoMemory>
    requires { All (All IsNear) (lists_in boxes.now) }
    ensures { IfOk result (λ r. levels_of r.items ≡ refill (masses_of coarse.now) (levels_of olds.now) (lists_in boxes.now)) }
{
    let Some((here, more)) = boxes.split_first() else {
        return Ok(Vec::new(alloc));
    };
    let here = here.as_slice();
    if here.is_empty() {
        return Ok(Vec::new(alloc));
    }
    let masses = refilled(alloc, coarse, first_masses(olds), here)?;
    let copies = Vec::from_slice(alloc, here)?;
    let mut all = refill(alloc, &masses, rest_of(olds), more)?;
    let level = PlainLevel {
        boxes: copies,
        masses,
    };
    all.insert(0, level)?;
    Ok(all)
}
