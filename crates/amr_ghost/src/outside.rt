//! The value of a cell outside an open side.

ghost use Rattle.std.specs.Prelude.{◌≡◌, ◌<◌, ◌≤◌, ◌/◌, ◌^◌};
ghost use Rattle.amr_def.specs.Value.{high_inflow, inflow_at, low_inflow};

use amr_box::Cell;
use amr_def::{Problem, Sides};

/// The inflow beyond the low end of an axis, 0 where it is periodic.
fn low_inflow(sides: &Sides) -> u64
    ensures { result ≡ low_inflow sides.now }
{
    match *sides {
        Sides::Periodic => 0,
        Sides::Open(low, _) => low,
    }
}

/// The inflow beyond the high end of an axis, 0 where it is periodic.
fn high_inflow(sides: &Sides) -> u64
    ensures { result ≡ high_inflow sides.now }
{
    match *sides {
        Sides::Periodic => 0,
        Sides::Open(_, high) => high,
    }
}

/// The inflow of the side that a cell of level `l` lies outside of, as a mass of a cell of level 0.
fn inflow_at(p: &Problem, l: u32, c: Cell) -> u64
    requires { l ≤ 4 }
    ensures { result ≡ inflow_at p.now l c }
{
    let dom = p.domain(l);
    if c.x < 0 {
        return low_inflow(&p.x_sides);
    }
    if c.x >= dom.columns() as i32 {
        return high_inflow(&p.x_sides);
    }
    if c.y < 0 {
        return low_inflow(&p.y_sides);
    }
    high_inflow(&p.y_sides)
}

/// The value of a cell outside of a side of the domain of level `l`, from 0 to 4: the side's inflow, at each finer level a quarter of that
/// of the next coarser level.
pub fn outside_value(p: &Problem, l: u32, c: Cell) -> u64
    requires { l ≤ 4 }
    ensures value { result ≡ inflow_at p.now l c / 4 ^ l }
    ensures small { result < 2 ^ 32 }
{
    inflow_at(p, l, c) >> (2 * l)
}
