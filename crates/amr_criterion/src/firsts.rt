//! Which pairs of neighbours a patch compares.

ghost use Rattle.std.specs.Prelude.{◌≡◌, ◌≤◌, ◌+ℤ◌, ◌-ℤ◌, ◌≤ℤ◌, ◌<ℤ◌, pos, negsuc};
ghost use Rattle.amr_box.specs.declared.Axis.TheVariants.{X, Y};
ghost use Rattle.amr_box.specs.Cells.{IsNear};
ghost use Rattle.amr_def.specs.Domain.{domain_of};
ghost use Rattle.amr_ghost.specs.GhostCells.{LiesInDomain};
ghost use Rattle.amr_criterion.specs.Tagged.{AreReached, reach_high, reach_low};

use amr_box::{Axis, Bx, Cell, distance};
use amr_def::Dom;

/// The first cells of pairs of neighbours: so many columns and rows of cells from a cell on. The second cell of each pair lies
/// beside the first along the axis.
#[derive(Clone, Copy, Debug)]
pub(crate) struct Firsts {
    pub(crate) axis: Axis,
    pub(crate) from: Cell,
    pub(crate) columns: u32,
    pub(crate) rows: u32,
}

/// Where the cells of an axis begin that those from `low` on are compared with.
fn reach_low(wrap: bool, low: i32) -> i32
    requires { pos 0 ≤ℤ low }
    ensures { result ≡ reach_low wrap low }
{
    if wrap { low - 1 } else { (low - 1).max(0) }
}

/// Where the cells of an axis of `n` cells end that those up to `high` are compared with.
fn reach_high(wrap: bool, n: u32, high: i32) -> i32
    requires few { n ≤ 4096 }
    requires inside { high <ℤ pos n }
    ensures { result ≡ reach_high wrap n high }
{
    if wrap {
        high + 1
    } else {
        (high + 1).min(n as i32 - 1)
    }
}

/// The pairs along the rows of a box of the domain.
pub(crate) fn across(b: &Bx, dom: &Dom) -> Firsts
    requires near { IsNear b.now }
    requires inside { LiesInDomain (domain_of dom.now) b.now }
    ensures axis { result.axis ≡ X }
    ensures x { result.from.x ≡ reach_low dom.now.wrap_x b.now.lo.x }
    ensures y { result.from.y ≡ b.now.lo.y }
    ensures columns { pos result.columns ≡ reach_high dom.now.wrap_x (domain_of dom.now).columns b.now.hi.x -ℤ reach_low dom.now.wrap_x b.now.lo.x }
    ensures rows { pos result.rows ≡ b.now.hi.y +ℤ pos 1 -ℤ b.now.lo.y }
    ensures few { result.rows ≤ 67108864 }
    ensures reached { AreReached b.now result }
{
    let (lo, hi) = (b.lo(), b.hi());
    let west = reach_low(dom.wrap_x, lo.x);
    let east = reach_high(dom.wrap_x, dom.columns(), hi.x);
    Firsts {
        axis: Axis::X,
        from: Cell { x: west, y: lo.y },
        columns: distance(west, east) as u32,
        rows: b.height(),
    }
}

/// The pairs along the columns of a box of the domain.
pub(crate) fn upward(b: &Bx, dom: &Dom) -> Firsts
    requires near { IsNear b.now }
    requires inside { LiesInDomain (domain_of dom.now) b.now }
    ensures axis { result.axis ≡ Y }
    ensures x { result.from.x ≡ b.now.lo.x }
    ensures y { result.from.y ≡ reach_low dom.now.wrap_y b.now.lo.y }
    ensures columns { pos result.columns ≡ b.now.hi.x +ℤ pos 1 -ℤ b.now.lo.x }
    ensures rows { pos result.rows ≡ reach_high dom.now.wrap_y (domain_of dom.now).rows b.now.hi.y -ℤ reach_low dom.now.wrap_y b.now.lo.y }
    ensures few { result.rows ≤ 67108864 }
    ensures reached { AreReached b.now result }
{
    let (lo, hi) = (b.lo(), b.hi());
    let south = reach_low(dom.wrap_y, lo.y);
    let north = reach_high(dom.wrap_y, dom.rows(), hi.y);
    Firsts {
        axis: Axis::Y,
        from: Cell { x: lo.x, y: south },
        columns: b.width(),
        rows: distance(south, north) as u32,
    }
}
