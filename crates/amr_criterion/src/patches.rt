//! Tags of the cells of patches whose frames are filled.

ghost use Rattle.std.specs.Prelude.{◌≡◌, ℕ, ◌+◌, ◌<◌, ◌≤◌, ◌&&◌, pos, negsuc, ◌+ℤ◌, ◌-ℤ◌, ◌<ℤ◌, length, slice_index};
ghost use Rattle.std.specs.List.{list_any};
ghost use Rattle.amr_box.specs.Cells.{IsNear, cell, holds, width};
ghost use Rattle.amr_def.specs.Domain.{domain_of};
ghost use Rattle.amr_ghost.specs.GhostCells.{LiesInDomain};
ghost use Rattle.amr_ghost.specs.Frames.{AreInDomain};
ghost use Rattle.amr_patch.specs.Patches.{box, value_in};
ghost use Rattle.amr_criterion.specs.Pairs.{IsJoined, in_steep_pair};
ghost use Rattle.amr_criterion.specs.Tagged.{AreReached, IsRowOf, all_firsts, is_tagged_in, row_firsts};

use crate::firsts::{Firsts, across, upward};
use crate::pair_rows::{PairRow, after, tag_pairs};
use crate::spread::is_flat;
use amr_box::{Bx, Cell, distance};
use amr_def::Dom;
use amr_patch::Patch;
use amr_tags::Tags;

/// Where the values of `n` cells of a row of the grown box begin in that row.
fn column_place(b: &Bx, c: Cell, n: u32) -> usize
    requires near { IsNear b.now }
    requires row { IsRowOf b.now c n }
    ensures value { pos result ≡ c.x +ℤ pos 1 -ℤ b.now.lo.x }
    ensures within { result + n ≤ width b.now + 2 }
{
    let _count = n;
    distance(b.lo().x - 1, c.x)
}

/// The values of `n` cells of a row of the grown box, from a cell on.
fn values_from(patch: &Patch, c: Cell, n: u32) -> &[u32]
    requires { IsRowOf (box patch.now) c n }
    ensures count { length result.now ≡ n }
    ensures values { (k : ℕ) → k < n → slice_index result.now k ≡ value_in patch.now (cell (c.x +ℤ pos k) c.y) }
{
    let at = column_place(&patch.bx(), c, n);
    let row = patch.row_with_frame(c.y);
    &row[at..at + n as usize]
}

/// The number that lies `k` above another.
pub(crate) fn above(z: i32, k: u32) -> i32
    requires from { negsuc 16777217 <ℤ z }
    requires to { z <ℤ pos 16777219 }
    requires few { k ≤ 67108864 }
    ensures { result ≡ z +ℤ pos k }
{
    z + k as i32
}

/// Tags the cells of the pairs in row `k` whose values differ by the threshold or more.
fn tag_row(tags: &mut Tags, patch: &Patch, threshold: u64, firsts: &Firsts, k: u32)
    requires reached { AreReached (box patch.now) firsts.now }
    requires few { firsts.now.rows ≤ 67108864 }
    requires inside { k < firsts.now.rows }
    ensures { IsJoined (λ c. holds (box patch.now) c
        && in_steep_pair threshold (value_in patch.now) firsts.now.axis (row_firsts firsts.now k) c) tags.old tags.new }
{
    let bx = patch.bx();
    let from = Cell {
        x: firsts.from.x,
        y: above(firsts.from.y, k),
    };
    let pairs = PairRow {
        axis: firsts.axis,
        from,
        part: bx,
        threshold,
    };
    let first = values_from(patch, from, firsts.columns);
    let second = values_from(patch, after(firsts.axis, from), firsts.columns);
    tag_pairs(tags, &pairs, first, second);
}

/// Tags the cells of all pairs along an axis whose values differ by the threshold or more.
fn tag_rows(tags: &mut Tags, patch: &Patch, threshold: u64, firsts: &Firsts)
    requires reached { AreReached (box patch.now) firsts.now }
    requires few { firsts.now.rows ≤ 67108864 }
    ensures { IsJoined (λ c. holds (box patch.now) c
        && in_steep_pair threshold (value_in patch.now) firsts.now.axis (all_firsts firsts.now) c) tags.old tags.new }
{
    for k in 0..firsts.rows {
        tag_row(tags, patch, threshold, firsts, k);
    }
}

/// Tags the cells of a patch that differ from a neighbour in the domain by the threshold or more. Each pair of neighbours is
/// compared once, along the rows first and then from row to row; none where no two values of the patch lie so far apart.
fn tag_patch(tags: &mut Tags, patch: &Patch, dom: &Dom, threshold: u64)
    requires { LiesInDomain (domain_of dom.now) (box patch.now) }
    ensures { IsJoined (is_tagged_in threshold (domain_of dom.now) patch.now) tags.old tags.new }
{
    if is_flat(patch, threshold) {
        return;
    }
    let bx = patch.bx();
    tag_rows(tags, patch, threshold, &across(&bx, dom));
    tag_rows(tags, patch, threshold, &upward(&bx, dom));
}

/// Tags the cells of the patches that differ from a neighbour in the domain by the threshold or more.
pub(crate) fn tag_patches(tags: &mut Tags, patches: &[Patch], dom: &Dom, threshold: u64)
    requires { AreInDomain (domain_of dom.now) patches.now }
    ensures { IsJoined (λ c. list_any (λ q. is_tagged_in threshold (domain_of dom.now) q c) patches.now) tags.old tags.new }
{
    for k in 0..patches.len() {
        tag_patch(tags, &patches[k], dom, threshold);
    }
}
