//! Ghost cells of a patch, given their values.

ghost use Rattle.std.specs.Prelude.{◌≡◌, ℕ, ◌/◌, ◌<◌, ◌≤◌, length, slice_index, slice_index_or, true, Bool, IsTrue};
ghost use Rattle.std.specs.List.{AllZip};
ghost use Rattle.amr_box.specs.declared.Cell.{Cell};
ghost use Rattle.amr_box.specs.Cells.{holds};
ghost use Rattle.amr_patch.specs.declared.patches.Patch.{Patch};
ghost use Rattle.amr_patch.specs.Places.{in_frame};
ghost use Rattle.amr_patch.specs.Patches.{box, mass_in};
ghost use Rattle.amr_ghost.specs.Strips.{HasRoom, step};
ghost use Rattle.amr_ghost.specs.Frames.{is_beside};
ghost use Rattle.amr_ghost.specs.GhostCells.{AreCopied, AreGhostsSet, AreGiven, HasGhosts, KeepsCells, KeepsGhosts};

use crate::entries::{
    copy_entries, copy_within_list, entries_of, fill_entries, give_entries, take_entries,
};
use crate::sides::Strip;
use amr_box::{Axis, Cell};
use amr_patch::Patch;

/// Gives the ghost cells of a strip a value each, and marks all or none of them as cells of the level.
#[inline(always)]
fn give_ghosts(patch: &mut Patch, strip: Strip, values: &[u32], of_level: bool)
    requires some { 0 < strip.count }
    requires count { length values.now ≡ strip.count }
    requires ghost_cells { (k : ℕ) → k < strip.count → IsTrue (in_frame (box patch.old) (step strip.axis strip.from k)) }
    ensures { AreGhostsSet patch.old patch.new strip.axis strip.from strip.count (λ k. slice_index values.now k) of_level }
{
    let target = entries_of(&patch.bx(), strip.axis, strip.from);
    let data = &mut *patch.data;
    give_entries(&mut data.values, target, values);
    fill_entries(&mut data.marks, target, strip.count as usize, of_level);
}

/// Gives the ghost cells of a strip beside patch `i` a value each, and marks all or none of them as cells of the level.
#[inline(always)]
pub(crate) fn give_strip(
    patches: &mut [Patch],
    i: usize,
    strip: Strip,
    values: &[u32],
    of_level: bool,
)
    requires there { i < length patches.old }
    requires some { 0 < strip.count }
    requires small { strip.count ≤ 8192 }
    requires count { length values.now ≡ strip.count }
    requires ghost_cells { (q : Patch) (k : ℕ) → k < strip.count → IsTrue (in_frame (box (slice_index_or patches.old i q)) (step strip.axis strip.from k)) }
    requires beside { (q : Patch) (k : ℕ) → k < strip.count → IsTrue (is_beside (box (slice_index_or patches.old i q)) (step strip.axis strip.from k)) }
    ensures kept { AllZip KeepsCells patches.old patches.new }
    ensures ghosts { (value : Cell → ℕ) (mark : Cell → Bool) → AreGiven value mark strip.axis strip.from strip.count (λ k. slice_index values.now k) of_level
        → AllZip (KeepsGhosts value mark) patches.old patches.new }
    ensures set { (value : Cell → ℕ) (mark : Cell → Bool) (q : Patch)
        → AreGiven value mark strip.axis strip.from strip.count (λ k. slice_index values.now k) of_level
        → HasGhosts value mark (slice_index_or patches.new i q) strip.axis strip.from strip.count }
{
    give_ghosts(&mut patches[i], strip, values, of_level);
}

/// Gives the ghost cells of a strip masses of another patch, and marks them as cells of the level. The masses are those of as
/// many cells along the same axis, from a cell on.
#[inline(always)]
fn copy_ghosts(patch: &mut Patch, strip: Strip, source: &Patch, from: Cell)
    requires some { 0 < strip.count }
    requires ghost_cells { (k : ℕ) → k < strip.count → IsTrue (in_frame (box patch.old) (step strip.axis strip.from k)) }
    requires masses { (k : ℕ) → k < strip.count → IsTrue (holds (box source.now) (step strip.axis from k)) }
    ensures { AreGhostsSet patch.old patch.new strip.axis strip.from strip.count (λ k. mass_in source.now (step strip.axis from k)) true }
{
    let count = strip.count as usize;
    let taken = entries_of(&source.bx(), strip.axis, from);
    let target = entries_of(&patch.bx(), strip.axis, strip.from);
    let held = &*source.data;
    let data = &mut *patch.data;
    copy_entries(&held.values, taken, &mut data.values, target, count);
    fill_entries(&mut data.marks, target, count, true);
}

/// Gives the ghost cells of a strip masses of their own patch, which lies beside itself where an axis is periodic, and marks
/// them as cells of the level. The masses are those of as many cells along the same axis, from a cell on.
fn copy_own_ghosts(patch: &mut Patch, strip: Strip, from: Cell)
    requires some { 0 < strip.count }
    requires ghost_cells { (k : ℕ) → k < strip.count → IsTrue (in_frame (box patch.old) (step strip.axis strip.from k)) }
    requires masses { (k : ℕ) → k < strip.count → IsTrue (holds (box patch.old) (step strip.axis from k)) }
    ensures { AreGhostsSet patch.old patch.new strip.axis strip.from strip.count (λ k. mass_in patch.old (step strip.axis from k)) true }
{
    let count = strip.count as usize;
    let bx = patch.bx();
    let taken = entries_of(&bx, strip.axis, from);
    let target = entries_of(&bx, strip.axis, strip.from);
    let data = &mut *patch.data;
    copy_within_list(&mut data.values, taken, target, count);
    fill_entries(&mut data.marks, target, count, true);
}

/// Gives the ghost cells of a strip beside patch `i` masses of patch `j`, and marks them as cells of the level. The masses are
/// those of as many cells along the same axis, from a cell on. `j` may be `i`.
#[inline(always)]
pub(crate) fn copy_strip(patches: &mut [Patch], i: usize, strip: Strip, j: usize, from: Cell)
    requires there { i < length patches.old }
    requires source { j < length patches.old }
    requires small { strip.count ≤ 8192 }
    requires to_room { HasRoom strip.from }
    requires from_room { HasRoom from }
    requires ghost_cells { (q : Patch) (k : ℕ) → k < strip.count → IsTrue (in_frame (box (slice_index_or patches.old i q)) (step strip.axis strip.from k)) }
    requires beside { (q : Patch) (k : ℕ) → k < strip.count → IsTrue (is_beside (box (slice_index_or patches.old i q)) (step strip.axis strip.from k)) }
    requires masses { (q : Patch) (k : ℕ) → k < strip.count → IsTrue (holds (box (slice_index_or patches.old j q)) (step strip.axis from k)) }
    ensures kept { AllZip KeepsCells patches.old patches.new }
    ensures ghosts { (value : Cell → ℕ) (mark : Cell → Bool) (d : Patch)
        → AreCopied value mark (slice_index_or patches.old j d) strip.axis strip.from from strip.count
        → AllZip (KeepsGhosts value mark) patches.old patches.new }
    ensures set { (value : Cell → ℕ) (mark : Cell → Bool) (q d : Patch)
        → AreCopied value mark (slice_index_or patches.old j d) strip.axis strip.from from strip.count
        → HasGhosts value mark (slice_index_or patches.new i q) strip.axis strip.from strip.count }
{
    if strip.count == 0 {
        return;
    }
    if i == j {
        copy_own_ghosts(&mut patches[i], strip, from);
        return;
    }
    if i < j {
        let (front, back) = patches.split_at_mut(j);
        copy_ghosts(&mut front[i], strip, &back[0], from);
    } else {
        let (front, back) = patches.split_at_mut(i);
        copy_ghosts(&mut back[0], strip, &front[j], from);
    }
}

/// Writes the masses of as many cells of a patch along an axis, from a cell on.
#[inline(always)]
pub(crate) fn take_strip(patch: &Patch, axis: Axis, from: Cell, masses: &mut [u32])
    requires small { length masses.old ≤ 8192 }
    requires held { (k : ℕ) → k < length masses.old → IsTrue (holds (box patch.now) (step axis from k)) }
    ensures count { length masses.new ≡ length masses.old }
    ensures taken { (k : ℕ) → k < length masses.old → slice_index masses.new k ≡ mass_in patch.now (step axis from k) }
{
    if masses.is_empty() {
        return;
    }
    let source = entries_of(&patch.bx(), axis, from);
    let data = &*patch.data;
    take_entries(&data.values, source, masses);
}
