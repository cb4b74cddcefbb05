//! The register cells of a level: the cells beside the boxes of the finer level, without those that are covered.

ghost use Rattle.std.specs.Prelude.{◌≡◌, suc, ◌≤◌, true, OnOk, IfOk};
ghost use Rattle.std.specs.List.{All};
ghost use Rattle.amr_box.specs.declared.Cell.{Cell};
ghost use Rattle.amr_box.specs.Cells.{IsNear, height, holds, width};
ghost use Rattle.amr_def.specs.Domain.{domain_of, home_cell};
ghost use Rattle.amr_patch.specs.Levels.{level_of};
ghost use Rattle.amr_faces.specs.Faces.{IsInDomain};
ghost use Rattle.amr_register.specs.RegisterCells.{has_neighbour_where};
ghost use Rattle.amr_register.specs.Bands.{cells_between};
ghost use Rattle.amr_register.specs.Beside.{IsDomainCell, stands_in};
ghost use Rattle.amr_register.specs.Covers.{covers};
ghost use Rattle.amr_register.specs.Bars.{IsStretch};
ghost use Rattle.amr_register.specs.CellLists.{Collects, Finds, FindsAround, FindsBelowAndAbove, FindsLeftAndRight};

use crate::bars::Stretch;
use crate::belts::{Belt, is_in_belt, may_reach};
use crate::cells::{
    column_first, column_last, east_of, north_of, row_first, row_last, south_of, west_of,
};
use crate::cover::Cover;
use crate::order::put_in_order;
use crate::pair::LevelPair;
use amr_box::{Bx, Cell};
use amr_causes::NoMemory;
use amr_def::Dom;
use std::alloc::Global;

/// Adds the cell that stands beside a covered one, if it is of the belt, of the domain and not covered. It looks at the last
/// stretch first, and leaves there the one that has the cell.
fn push_uncovered(
    cells: &mut Vec<Cell>,
    dom: &Dom,
    cover: &Cover,
    belt: Belt,
    last: &mut Option<Stretch>,
    c: Cell,
) -> Result<(), NoMemory>
    requires last { IsStretch (covers cover.now) last.old }
    requires beside { has_neighbour_where (domain_of dom.now) (covers cover.now) (home_cell (domain_of dom.now) c) ≡ true }
    ensures collects { OnOk result (Collects (stands_in belt (domain_of dom.now) (covers cover.now)) cells.old.items cells.new.items) }
    ensures finds { OnOk result (Finds (stands_in belt (domain_of dom.now) (covers cover.now)) (home_cell (domain_of dom.now) c) cells.new.items) }
    ensures last { IsStretch (covers cover.now) last.new }
{
    let home = dom.home_cell(c);
    if !is_in_belt(belt, home) {
        return Ok(());
    }
    if !dom.in_domain(home) {
        return Ok(());
    }
    if cover.covers(last, home) {
        return Ok(());
    }
    cells.push(home)?;
    Ok(())
}

/// Adds those cells of a belt that lie left and right of a box of covered cells.
fn push_left_and_right(
    cells: &mut Vec<Cell>,
    dom: &Dom,
    cover: &Cover,
    belt: Belt,
    b: &Bx,
) -> Result<(), NoMemory>
    requires near { IsNear b.now }
    requires inside { IsInDomain (domain_of dom.now) b.now }
    requires covered { (c : Cell) → holds b.now c ≡ true → covers cover.now c ≡ true }
    ensures collects { OnOk result (Collects (stands_in belt (domain_of dom.now) (covers cover.now)) cells.old.items cells.new.items) }
    ensures finds { OnOk result (FindsLeftAndRight (domain_of dom.now) (stands_in belt (domain_of dom.now) (covers cover.now)) b.now
        (height b.now) cells.new.items) }
{
    let mut west = None;
    let mut east = None;
    for j in 0..b.height() {
        push_uncovered(cells, dom, cover, belt, &mut west, west_of(row_first(b, j)))?;
        push_uncovered(cells, dom, cover, belt, &mut east, east_of(row_last(b, j)))?;
    }
    Ok(())
}

/// Adds those cells of a belt that lie below and above a box of covered cells.
fn push_below_and_above(
    cells: &mut Vec<Cell>,
    dom: &Dom,
    cover: &Cover,
    belt: Belt,
    b: &Bx,
) -> Result<(), NoMemory>
    requires near { IsNear b.now }
    requires inside { IsInDomain (domain_of dom.now) b.now }
    requires covered { (c : Cell) → holds b.now c ≡ true → covers cover.now c ≡ true }
    ensures collects { OnOk result (Collects (stands_in belt (domain_of dom.now) (covers cover.now)) cells.old.items cells.new.items) }
    ensures finds { OnOk result (FindsBelowAndAbove (domain_of dom.now) (stands_in belt (domain_of dom.now) (covers cover.now)) b.now
        (width b.now) cells.new.items) }
{
    let mut south = None;
    let mut north = None;
    for i in 0..b.width() {
        push_uncovered(
            cells,
            dom,
            cover,
            belt,
            &mut south,
            south_of(column_first(b, i)),
        )?;
        push_uncovered(
            cells,
            dom,
            cover,
            belt,
            &mut north,
            north_of(column_last(b, i)),
        )?;
    }
    Ok(())
}

/// Adds those cells of a belt that lie beside a box of covered cells. Of a box that is far from the belt no cell is looked at.
pub(crate) fn push_beside(
    cells: &mut Vec<Cell>,
    dom: &Dom,
    cover: &Cover,
    belt: Belt,
    b: &Bx,
) -> Result<(), NoMemory>
    requires near { IsNear b.now }
    requires inside { IsInDomain (domain_of dom.now) b.now }
    requires covered { (c : Cell) → holds b.now c ≡ true → covers cover.now c ≡ true }
    ensures collects { OnOk result (Collects (stands_in belt (domain_of dom.now) (covers cover.now)) cells.old.items cells.new.items) }
    ensures finds { OnOk result (FindsAround (domain_of dom.now) (stands_in belt (domain_of dom.now) (covers cover.now)) b.now cells.new.items) }
{
    if !may_reach(dom, belt, b) {
        return Ok(());
    }
    push_left_and_right(cells, dom, cover, belt, b)?;
    push_below_and_above(cells, dom, cover, belt, b)?;
    Ok(())
}

/// The register cells of the coarser level in a belt, in order. By nesting this level has each cell of the domain beside a
/// covered one, so that no cell of it is looked up.
pub(crate) fn register_cells(
    alloc: Global,
    pair: &LevelPair<'_>,
    belt: Belt,
) -> Result<Vec<Cell>, NoMemory>
    ensures cells { IfOk result (λ v. v.items
        ≡ cells_between pair.now.p.now pair.now.l (level_of pair.now.coarse.now).masses (level_of pair.now.fine.now).masses belt.first belt.last) }
    ensures near { IfOk result (λ v. All IsDomainCell v.items) }
{
    let dom = pair.p.domain(pair.l);
    let mut cells = Vec::new(alloc);
    for b in pair.fine.boxes() {
        push_beside(&mut cells, &dom, pair.cover, belt, &b.coarsen2())?;
    }
    put_in_order(&mut cells);
    Ok(cells)
}
