//! The cells that a finer level is to cover, and its new boxes.

ghost use Rattle.std.specs.Prelude.{◌≡◌, ◌+◌, ◌<◌, ◌≤◌, ◌&&◌, ◌||◌, true, IfOk, IsTrue, map};
ghost use Rattle.std.specs.List.{All, list_any};
ghost use Rattle.amr_box.specs.Cells.{has_child_where, holds, IsNear, is_same_cell, in_boxes, square};
ghost use Rattle.amr_box.specs.declared.Cell.{Cell};
ghost use Rattle.amr_def.specs.Domain.{domain, domain_box, is_near, refined};
ghost use Rattle.amr_def.specs.NewBoxes.{is_projected};
ghost use Rattle.amr_tags.specs.TagSets.{has};
ghost use Rattle.amr_witness.specs.Maps.{masses_of, old_of};
ghost use Rattle.amr_witness_regrid.specs.Places.{AreOffsets, HasCellsInside, IsUpTo};
ghost use Rattle.amr_regrid.specs.Blocks.{IsLow, blocks_of};
ghost use Rattle.amr_witness_regrid.specs.Wanted.{boxes_over, is_wanted_block, is_wanted_by};

use crate::cells::{Offsets, cells_of, child, has_child_in, moved, refined, single};
use crate::tagged::{LevelMasses, is_grown};
use amr_box::{Bx, Cell};
use amr_causes::NoMemory;
use amr_cluster::cluster;
use amr_def::Problem;
use amr_tags::Tags;
use amr_witness::{columns, rows};
use std::alloc::Global;

/// Whether a parent of a cell of the boxes is at most one away from a cell. `ring` are the offsets to
/// those at most one away.
fn is_beside(p: &Problem, level: u32, boxes: &[Bx], ring: &[Cell], c: Cell) -> bool
    requires known { level ≤ 4 }
    requires ring { ring.now ≡ square 1 }
    requires near { IsUpTo 10000 c }
    ensures { result ≡ is_near (domain p.now level) 1 (has_child_where (in_boxes boxes.now)) c }
{
    let dom = p.domain(level);
    for o in ring {
        if has_child_in(boxes, dom.home_cell(moved(c, *o))) {
            return true;
        }
    }
    false
}

/// Whether a cell of a level is to be covered so that boxes two levels above it are nested.
fn is_projected(p: &Problem, level: u32, boxes: &[Bx], ring: &[Cell], c: Cell) -> bool
    requires known { level ≤ 3 }
    requires ring { ring.now ≡ square 1 }
    requires near { IsUpTo 4098 c }
    ensures { result ≡ is_projected (domain p.now (level + 1)) boxes.now c }
{
    let first = is_beside(p, level + 1, boxes, ring, child(c, 0));
    let second = is_beside(p, level + 1, boxes, ring, child(c, 1));
    let third = is_beside(p, level + 1, boxes, ring, child(c, 2));
    let fourth = is_beside(p, level + 1, boxes, ring, child(c, 3));
    (first | second) | (third | fourth)
}

/// Whether a cell of a level is to be covered: it is near a tag, or nests boxes two levels above.
fn is_wanted(p: &Problem, here: LevelMasses<'_>, finer: &[Bx], near: &Offsets, c: Cell) -> bool
    requires known { here.level < p.now.max_level }
    requires inside { HasCellsInside p.now here.level (masses_of here.masses.now) }
    requires offsets { AreOffsets p.now near.now }
    requires cell { IsUpTo 4098 c }
    ensures { result ≡ is_wanted_by p.now here.entry.level (masses_of here.entry.masses.now) (old_of here.entry.coarse) finer.now c }
{
    let grown = is_grown(p, here, near.buffer.as_slice(), c);
    grown | is_projected(p, here.level, finer, near.ring.as_slice(), c)
}

/// Whether one of the cells is to be covered.
fn has_wanted(
    p: &Problem,
    here: LevelMasses<'_>,
    finer: &[Bx],
    near: &Offsets,
    cells: &[Cell],
) -> bool
    requires known { here.level < p.now.max_level }
    requires inside { HasCellsInside p.now here.level (masses_of here.masses.now) }
    requires offsets { AreOffsets p.now near.now }
    requires cells { All (IsUpTo 4098) cells.now }
    ensures { result ≡ list_any (is_wanted_by p.now here.entry.level (masses_of here.entry.masses.now) (old_of here.entry.coarse) finer.now) cells.now }
{
    for c in cells {
        if is_wanted(p, here, finer, near, *c) {
            return true;
        }
    }
    false
}

/// Whether a block has a cell that is to be covered.
fn is_wanted_block(
    alloc: Global,
    p: &Problem,
    here: LevelMasses<'_>,
    finer: &[Bx],
    near: &Offsets,
    block: Cell,
) -> Result<bool, NoMemory>
    requires known { here.level < p.now.max_level }
    requires inside { HasCellsInside p.now here.level (masses_of here.masses.now) }
    requires offsets { AreOffsets p.now near.now }
    requires block { holds (domain_box (blocks_of p.now here.level)) block ≡ true }
    ensures { IfOk result (λ r. r ≡ is_wanted_block p.now here.entry.level (masses_of here.entry.masses.now) (old_of here.entry.coarse) finer.now block) }
{
    let cells = cells_of(alloc, &refined(&single(block), p.blocking / 2))?;
    Ok(has_wanted(p, here, finer, near, cells.as_slice()))
}

/// The domain of a level in blocks.
fn blocks_of(p: &Problem, level: u32) -> Bx
    requires { level ≤ 4 }
    ensures value { result ≡ domain_box (blocks_of p.now level) }
    ensures near { IsNear result }
{
    let side = p.blocking / 2;
    let columns = columns(p, level) / side;
    let rows = rows(p, level) / side;
    let high = Cell {
        x: columns as i32 - 1,
        y: rows as i32 - 1,
    };
    Bx::try_new(Cell { x: 0, y: 0 }, high).unwrap()
}

/// Tags a cell where it is wanted.
fn mark(tags: &mut Tags, c: Cell, is_wanted: bool)
    requires { IsTrue (holds tags.old.bx c) }
    ensures bx { tags.new.bx ≡ tags.old.bx }
    ensures cells { (d : Cell) → has tags.new d ≡ (has tags.old d || (is_wanted && is_same_cell c d)) }
{
    if is_wanted {
        tags.set(c);
    }
}

/// The blocks of a level that are to be covered.
fn wanted_blocks(
    alloc: Global,
    p: &Problem,
    here: LevelMasses<'_>,
    finer: &[Bx],
    near: &Offsets,
) -> Result<Tags, NoMemory>
    requires known { here.level < p.now.max_level }
    requires inside { HasCellsInside p.now here.level (masses_of here.masses.now) }
    requires offsets { AreOffsets p.now near.now }
    ensures bx { IfOk result (λ t. t.bx ≡ domain_box (blocks_of p.now here.entry.level)) }
    ensures cells { IfOk result (λ t. (c : Cell)
        → has t c ≡ (holds (domain_box (blocks_of p.now here.entry.level)) c
        && is_wanted_block p.now here.entry.level (masses_of here.entry.masses.now) (old_of here.entry.coarse) finer.now c)) }
{
    let whole = blocks_of(p, here.level);
    let mut tags = Tags::make(alloc, whole, false, false)?;
    let blocks = cells_of(alloc, &whole)?;
    for b in blocks.as_slice() {
        let is_wanted = is_wanted_block(alloc, p, here, finer, near, *b)?;
        mark(&mut tags, *b, is_wanted);
    }
    Ok(tags)
}

/// The boxes, refined.
fn all_refined(alloc: Global, boxes: &[Bx], n: u32) -> Result<Vec<Bx>, NoMemory>
    requires some { 0 < n }
    requires few { n ≤ 8 }
    requires low { All IsLow boxes.now }
    ensures boxes { IfOk result (λ r. r.items ≡ map (refined n) boxes.now) }
    ensures near { IfOk result (λ r. All IsNear r.items) }
{
    let mut all = Vec::new(alloc);
    for b in boxes {
        all.push(refined(b, n))?;
    }
    Ok(all)
}

/// The new boxes of the level above one, where `finer` are those of the next.
pub fn boxes_over(
    alloc: Global,
    p: &Problem,
    here: LevelMasses<'_>,
    finer: &[Bx],
    near: &Offsets,
) -> Result<Vec<Bx>, NoMemory>
    requires known { here.level < p.now.max_level }
    requires inside { HasCellsInside p.now here.level (masses_of here.masses.now) }
    requires offsets { AreOffsets p.now near.now }
    ensures boxes { IfOk result (λ r. r.items ≡ boxes_over p.now here.entry.level (masses_of here.entry.masses.now) (old_of here.entry.coarse) finer.now) }
    ensures near { IfOk result (λ r. All IsNear r.items) }
{
    let tags = wanted_blocks(alloc, p, here, finer, near)?;
    let clusters = cluster(alloc, &tags, p.efficiency, p.min_width)?;
    all_refined(alloc, clusters.list(), p.blocking)
}
