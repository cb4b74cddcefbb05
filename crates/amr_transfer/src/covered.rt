//! The sums of children for one patch of the coarser level at a time, so that workers can each give them to patches of their own.

ghost use Rattle.std.specs.Prelude.{◌≡◌, ℕ, ◌*◌, ◌<◌, ◌≤◌, ◌^◌, pos, ◌+ℤ◌, ◌-ℤ◌, ◌≤ℤ◌, length, slice_index, IsTrue};
ghost use Rattle.amr_box.specs.declared.Cell.{Cell};
ghost use Rattle.amr_box.specs.Cells.{IsNear, cell, child, has_child_where, holds};
ghost use Rattle.amr_def.specs.Facts.{IsAligned};
ghost use Rattle.amr_def.specs.State.{children_mass, is_covered};
ghost use Rattle.amr_patch.specs.Orders.{IsOrderOf};
ghost use Rattle.amr_patch.specs.Patches.{ArePatchesApart, box, mass_in, masses_in};
ghost use Rattle.amr_transfer.specs.Given.{IsGiven, span};
ghost use Rattle.amr_transfer.specs.Sums.{AreCoarsenable, HasSmallSums, children_in};

use crate::cells::{ROOM, above, ahead};
use crate::spans::give;
use crate::sums::sum_rows;
use amr_box::{Bx, Cell};
use amr_patch::{Order, Patch, reach_of};

/// The masses of a fine patch in a row of children, from the children of a cell on to the high end of its box: of their lower row for `k` 0,
/// of the upper one for 1.
fn children_from(fine: &Patch, c: Cell, k: u32) -> &[u32]
    requires of_row { k ≤ 1 }
    requires there { IsTrue (holds (box fine.now) (child c (2 * k))) }
    ensures count { pos (length result.now) ≡ (box fine.now).hi.x +ℤ pos 1 -ℤ (c.x +ℤ c.x) }
    ensures masses { (j : ℕ) → j < length result.now → slice_index result.now j ≡ mass_in fine.now (cell (c.x +ℤ c.x +ℤ pos j) (c.y +ℤ c.y +ℤ pos k)) }
{
    fine.masses_from(Cell {
        x: c.x + c.x,
        y: c.y + c.y + k as i32,
    })
}

/// Gives cells of a row of a patch, from one of them on, the sums of their children, which stand in a fine patch: as many as there is
/// room for.
fn cover_span(fine: &Patch, patch: &mut Patch, c: Cell, room: &mut [u32])
    requires aligned { IsAligned 2 (box fine.now) }
    requires small { HasSmallSums fine.now }
    requires children { IsTrue (holds (box fine.now) (child c 0)) }
    requires fine_room { (c.x +ℤ c.x +ℤ pos (2 * length room.old)) ≤ℤ ((box fine.now).hi.x +ℤ pos 1) }
    requires inside { IsTrue (holds (box patch.old) c) }
    requires patch_room { (c.x +ℤ pos (length room.old)) ≤ℤ ((box patch.old).hi.x +ℤ pos 1) }
    ensures { IsGiven (holds (span c (length room.old))) (children_in fine.now) patch.old patch.new }
{
    let lower = children_from(fine, c, 0);
    let upper = children_from(fine, c, 1);
    sum_rows(lower, upper, room);
    give(patch, c, room);
}

/// The same of so many cells. They are summed in pieces, each as long as there is room for.
fn cover_row(fine: &Patch, patch: &mut Patch, c: Cell, count: usize, room: &mut [u32])
    requires aligned { IsAligned 2 (box fine.now) }
    requires small { HasSmallSums fine.now }
    requires children { IsTrue (holds (box fine.now) (child c 0)) }
    requires fine_room { (c.x +ℤ c.x +ℤ pos (2 * count)) ≤ℤ ((box fine.now).hi.x +ℤ pos 1) }
    requires inside { IsTrue (holds (box patch.old) c) }
    requires patch_room { (c.x +ℤ pos count) ≤ℤ ((box patch.old).hi.x +ℤ pos 1) }
    requires room { length room.old ≡ 256 }
    ensures { IsGiven (holds (span c count)) (children_in fine.now) patch.old patch.new }
{
    let mut done = 0;
    while done < count {
        let many = (count - done).min(room.len());
        cover_span(fine, patch, ahead(c, done as u32), &mut room[..many]);
        done += many;
    }
}

/// The same of the cells of a box.
fn cover_box(fine: &Patch, patch: &mut Patch, b: &Bx, room: &mut [u32])
    requires near { IsNear b.now }
    requires aligned { IsAligned 2 (box fine.now) }
    requires small { HasSmallSums fine.now }
    requires children { (d : Cell) → IsTrue (holds b.now d) → IsTrue (holds (box fine.now) (child d 0)) }
    requires inside { (d : Cell) → IsTrue (holds b.now d) → IsTrue (holds (box patch.old) d) }
    requires room { length room.old ≡ 256 }
    ensures { IsGiven (holds b.now) (children_in fine.now) patch.old patch.new }
{
    let count = b.width() as usize;
    for k in 0..b.height() {
        cover_row(fine, patch, above(b.lo(), k), count, room);
    }
}

/// Gives the cells of a patch of which one fine patch has the children their sums.
fn cover_by(fine: &Patch, patch: &mut Patch, room: &mut [u32])
    requires aligned { IsAligned 2 (box fine.now) }
    requires small { HasSmallSums fine.now }
    requires room { length room.old ≡ 256 }
    ensures { IsGiven (has_child_where (holds (box fine.now))) (children_in fine.now) patch.old patch.new }
{
    if let Some(b) = patch.bx().meet(&fine.bx().coarsen2()) {
        cover_box(fine, patch, &b, room);
    }
}

/// Gives each covered cell of a patch the sum of the masses of its children, as after the finer level's steps. All else of the patch stays.
/// Of the fine patches only those are looked at that may have cells in the patch's rows. (AMReX: `average_down`)
///
/// No fine patch cuts a cell of the patch's level. Each sum is below 2^32. It takes no memory.
pub fn cover_patch(fine: &[Patch], order: Order, patch: &mut Patch)
    requires order { IsOrderOf order fine.now }
    requires apart { ArePatchesApart fine.now }
    requires coarsenable { AreCoarsenable fine.now }
    requires small { (c : Cell) → children_mass (masses_in fine.now) c < 2 ^ 32 }
    ensures { IsGiven (is_covered (masses_in fine.now)) (children_mass (masses_in fine.now)) patch.old patch.new }
{
    let b = patch.bx().refine2();
    let (from, to) = reach_of(fine, order, b.lo().y, b.hi().y);
    let mut room = [0u32; ROOM];
    for k in from..to {
        cover_by(&fine[k], patch, &mut room);
    }
}
