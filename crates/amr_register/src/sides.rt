//! On which sides of a cell covered ones lie.

ghost use Rattle.std.specs.Prelude.{◌≡◌, length, IfOk};
ghost use Rattle.std.specs.List.{All};
ghost use Rattle.amr_def.specs.Domain.{domain_of, home_cell};
ghost use Rattle.amr_register.specs.Beside.{AreStretches, HasSides, HaveSides, IsDomainCell};
ghost use Rattle.amr_register.specs.Covers.{covers};
ghost use Rattle.amr_register.specs.Bars.{IsStretch};

use crate::bars::Stretch;
use crate::cells::{east_of, north_of, south_of, west_of};
use crate::cover::Cover;
use amr_box::Cell;
use amr_causes::NoMemory;
use amr_def::Dom;
use std::alloc::Global;

/// On which sides of a cell a covered one lies beside it.
#[derive(Clone, Copy, Debug)]
pub(crate) struct CoveredSides {
    pub(crate) west: bool,
    pub(crate) east: bool,
    pub(crate) south: bool,
    pub(crate) north: bool,
}

/// The stretches that were found last on each side of the cells. Cells of a row, one after the other, mostly have the same.
#[derive(Clone, Copy)]
pub(crate) struct Stretches {
    pub(crate) west: Option<Stretch>,
    pub(crate) east: Option<Stretch>,
    pub(crate) south: Option<Stretch>,
    pub(crate) north: Option<Stretch>,
}

/// Whether the cell that a cell stands for is covered. It looks at the last stretch first, and leaves there the one that has the
/// cell.
fn is_home_covered(dom: &Dom, cover: &Cover, last: &mut Option<Stretch>, c: Cell) -> bool
    requires { IsStretch (covers cover.now) last.old }
    ensures value { result ≡ covers cover.now (home_cell (domain_of dom.now) c) }
    ensures last { IsStretch (covers cover.now) last.new }
{
    cover.covers(last, dom.home_cell(c))
}

/// On which sides of a cell covered ones lie.
fn sides_of(dom: &Dom, cover: &Cover, last: &mut Stretches, c: Cell) -> CoveredSides
    requires near { IsDomainCell c }
    requires last { AreStretches (covers cover.now) last.old }
    ensures sides { HasSides (domain_of dom.now) (covers cover.now) c result }
    ensures last { AreStretches (covers cover.now) last.new }
{
    CoveredSides {
        west: is_home_covered(dom, cover, &mut last.west, west_of(c)),
        east: is_home_covered(dom, cover, &mut last.east, east_of(c)),
        south: is_home_covered(dom, cover, &mut last.south, south_of(c)),
        north: is_home_covered(dom, cover, &mut last.north, north_of(c)),
    }
}

/// The same of each of these cells.
pub(crate) fn sides_of_all(
    alloc: Global,
    dom: &Dom,
    cover: &Cover,
    cells: &[Cell],
) -> Result<Vec<CoveredSides>, NoMemory>
    requires { All IsDomainCell cells.now }
    ensures count { IfOk result (λ v. length v.items ≡ length cells.now) }
    ensures sides { IfOk result (λ v. HaveSides (domain_of dom.now) (covers cover.now) cells.now v.items) }
{
    let mut sides = Vec::new(alloc);
    let mut last = Stretches {
        west: None,
        east: None,
        south: None,
        north: None,
    };
    for c in cells {
        sides.push(sides_of(dom, cover, &mut last, *c))?;
    }
    Ok(sides)
}
