//! The masses of covered cells.

ghost use Rattle.std.specs.Prelude.{◌≡◌, ℕ, ◌+◌, ◌*◌, ◌<◌, ◌≤◌, ◌^◌, pos, negsuc, ◌+ℤ◌, ◌≤ℤ◌, ◌<ℤ◌, length, slice_index, IsSome, IsTrue};
ghost use Rattle.amr_box.specs.declared.Cell.{Cell};
ghost use Rattle.amr_box.specs.Cells.{cell, child, has_child_where, holds, near_limit, parent, width, within};
ghost use Rattle.amr_def.specs.Facts.{IsAligned};
ghost use Rattle.amr_def.specs.State.{children_mass};
ghost use Rattle.amr_patch.specs.Levels.{level_of, patches_of};
ghost use Rattle.amr_patch.specs.Orders.{IsOrderOf};
ghost use Rattle.amr_patch.specs.Pairwise.{Pairwise};
ghost use Rattle.amr_patch.specs.Patches.{ArePatchesApart, KeepsFrameAndFluxes, box, in_patches, masses_in};
ghost use Rattle.amr_transfer.specs.Given.{IsGiven, span};
ghost use Rattle.amr_transfer.specs.Sums.{AreCoarsenable, AreFours, IsRow, children_in, four_at, summed};

use crate::cells::{ROOM, above, ahead, cells_from};
use crate::spans::give;
use amr_box::Cell;
use amr_patch::{Level, Order, Patch, find_near};

/// The masses of the children of cells of a row: those of their lower row, and those of the upper one.
#[derive(Clone, Copy)]
struct Children<'a> {
    lower: &'a [u32],
    upper: &'a [u32],
}

/// Adds up fours of children: two neighbours of the lower row and the two above them.
pub(crate) fn sum_rows(lower: &[u32], upper: &[u32], sums: &mut [u32])
    requires lower { 2 * length sums.old ≤ length lower.now }
    requires upper { 2 * length sums.old ≤ length upper.now }
    requires fits { (k : ℕ) → k < length sums.old → four_at lower.now upper.now k < 2 ^ 32 }
    ensures { (k : ℕ) → k < length sums.new → slice_index sums.new k ≡ four_at lower.now upper.now k }
{
    for k in 0..sums.len() {
        let west = 2 * k;
        let east = west + 1;
        sums[k] = lower[west] + lower[east] + upper[west] + upper[east];
    }
}

/// Gives cells of a row of a patch, from one of them on, the sums of their children. It stops at the patch's high end, and after
/// as many as there is room for. Answers how many it gave.
fn sum_in_patch(patch: &mut Patch, c: Cell, children: Children<'_>, room: &mut [u32]) -> usize
    requires inside { IsTrue (holds (box patch.old) c) }
    requires some { 2 ≤ length children.lower.now }
    requires same { length children.upper.now ≡ length children.lower.now }
    requires fits { (k : ℕ) → 2 * k + 1 < length children.lower.now → four_at children.lower.now children.upper.now k < 2 ^ 32 }
    requires room { length room.old ≡ 256 }
    ensures some { 0 < result }
    ensures within { 2 * result ≤ length children.entry.lower.now }
    ensures inside { (c.x +ℤ pos result) ≤ℤ ((box patch.old).hi.x +ℤ pos 1) }
    ensures given { (mass : Cell → ℕ) → AreFours mass c children.entry.lower.now children.entry.upper.now
        → IsGiven (holds (span c result)) mass patch.old patch.new }
{
    let count = (children.lower.len() / 2)
        .min(room.len())
        .min(cells_from(&patch.bx(), c));
    sum_rows(children.lower, children.upper, &mut room[..count]);
    give(patch, c, &room[..count]);
    count
}

/// The same in the patch of a level that has the first of the cells. It is looked for only where neither patch `near` nor
/// one beside it in the list has that cell; `near` becomes its number.
fn sum_span(
    patches: &mut [Patch],
    order: Order,
    near: &mut usize,
    c: Cell,
    children: Children<'_>,
    room: &mut [u32],
) -> usize
    requires order { IsOrderOf order patches.old }
    requires apart { ArePatchesApart patches.old }
    requires there { IsTrue (in_patches patches.old c) }
    requires some { 2 ≤ length children.lower.now }
    requires same { length children.upper.now ≡ length children.lower.now }
    requires fits { (k : ℕ) → 2 * k + 1 < length children.lower.now → four_at children.lower.now children.upper.now k < 2 ^ 32 }
    requires room { length room.old ≡ 256 }
    ensures some { 0 < result }
    ensures within { 2 * result ≤ length children.entry.lower.now }
    ensures given { (mass : Cell → ℕ) → AreFours mass c children.entry.lower.now children.entry.upper.now
        → Pairwise (IsGiven (holds (span c result)) mass) patches.old patches.new }
{
    match find_near(patches, order, near, c) {
        None => unreachable!(),
        Some(j) => sum_in_patch(&mut patches[j], c, children, room),
    }
}

/// The masses of a row of a fine patch over a row of cells: the lower row of their children for `k` 0, the upper one for 1.
pub(crate) fn children_row(fine: &Patch, c: Cell, k: u32) -> &[u32]
    requires from { negsuc near_limit <ℤ c.y }
    requires to { c.y <ℤ pos (near_limit + 1) }
    requires of_row { k ≤ 1 }
    requires there { IsTrue (within (box fine.now).lo.y (box fine.now).hi.y (c.y +ℤ c.y +ℤ pos k)) }
    ensures { IsRow fine.now (c.y +ℤ c.y +ℤ pos k) result.now }
{
    fine.masses_of_row(c.y + c.y + k as i32)
}

/// Gives the cells of a row of which a fine patch has the children their sums, from the first of them on.
fn sum_row(
    fine: &Patch,
    patches: &mut [Patch],
    order: Order,
    near: &mut usize,
    c: Cell,
    room: &mut [u32],
)
    requires order { IsOrderOf order patches.old }
    requires apart { ArePatchesApart patches.old }
    requires aligned { IsAligned 2 (box fine.now) }
    requires low { c.x +ℤ c.x ≡ (box fine.now).lo.x }
    requires row { IsTrue (holds (box fine.now) (child c 0)) }
    requires parents { (d : Cell) → IsTrue (holds (box fine.now) d) → IsTrue (in_patches patches.old (parent d)) }
    requires small { (d : Cell) → IsTrue (holds (box fine.now) (child d 0)) → children_in fine.now d < 2 ^ 32 }
    requires room { length room.old ≡ 256 }
    ensures { (n : ℕ) → 2 * n ≡ width (box fine.now) → Pairwise (IsGiven (holds (span c n)) (children_in fine.now)) patches.old patches.new }
{
    let lower = children_row(fine, c, 0);
    let upper = children_row(fine, c, 1);
    let count = lower.len() / 2;
    let mut done = 0;
    while done < count {
        let from = 2 * done;
        let rest = Children {
            lower: &lower[from..],
            upper: &upper[from..],
        };
        done += sum_span(patches, order, near, ahead(c, done as u32), rest, room);
    }
}

/// Gives the cells of which a fine patch has the children their sums.
fn sum_patch(fine: &Patch, patches: &mut [Patch], order: Order, near: &mut usize, room: &mut [u32])
    requires order { IsOrderOf order patches.old }
    requires apart { ArePatchesApart patches.old }
    requires aligned { IsAligned 2 (box fine.now) }
    requires parents { (d : Cell) → IsTrue (holds (box fine.now) d) → IsTrue (in_patches patches.old (parent d)) }
    requires small { (d : Cell) → IsTrue (holds (box fine.now) (child d 0)) → children_in fine.now d < 2 ^ 32 }
    requires room { length room.old ≡ 256 }
    ensures { Pairwise (IsGiven (has_child_where (holds (box fine.now))) (children_in fine.now)) patches.old patches.new }
{
    let b = fine.bx().coarsen2();
    for k in 0..b.height() {
        sum_row(fine, patches, order, near, above(b.lo(), k), room);
    }
}

/// The same of all fine patches.
fn sum_all(fine: &[Patch], patches: &mut [Patch], order: Order)
    requires order { IsOrderOf order patches.old }
    requires apart { ArePatchesApart patches.old }
    requires fine_apart { ArePatchesApart fine.now }
    requires coarsenable { AreCoarsenable fine.now }
    requires parents { (d : Cell) → IsTrue (in_patches fine.now d) → IsTrue (in_patches patches.old (parent d)) }
    requires small { (c : Cell) → children_mass (masses_in fine.now) c < 2 ^ 32 }
    ensures { Pairwise (IsGiven (has_child_where (in_patches fine.now)) (children_mass (masses_in fine.now))) patches.old patches.new }
{
    let mut near = 0;
    let mut room = [0u32; ROOM];
    for q in fine {
        sum_patch(q, patches, order, &mut near, &mut room);
    }
}

/// Gives each covered cell of a level the sum of the masses of its children, as after the finer level's steps. All else stays:
/// the other masses, boxes, patch boxes, frames and fluxes. (Berger and Colella: a coarse cell under a fine grid takes the fine
/// grid's values. AMReX: `average_down`, which also asks for fine patches that can be coarsened.)
///
/// The parent of each fine cell is a cell of the level, and no fine patch cuts a cell of the level. Each sum is below 2^32. It
/// takes no memory.
pub fn sum_up(fine: &Level, coarse: &mut Level)
    requires parents { (c : Cell) → IsSome ((level_of fine.now).masses c) → IsSome ((level_of coarse.old).masses (parent c)) }
    requires coarsenable { AreCoarsenable (patches_of fine.now) }
    requires small { (c : Cell) → children_mass (level_of fine.now).masses c < 2 ^ 32 }
    ensures masses { (level_of coarse.new).masses ≡ summed (level_of fine.now).masses (level_of coarse.old).masses }
    ensures boxes { (level_of coarse.new).boxes ≡ (level_of coarse.old).boxes }
    ensures patches { Pairwise KeepsFrameAndFluxes (patches_of coarse.old) (patches_of coarse.new) }
{
    let order = coarse.order();
    let mut patches = coarse.take_patches();
    sum_all(fine.patches(), &mut patches, order);
    coarse.put_patches_in_order(patches, order);
}
