//! Where the entries of the cells of a strip stand in the lists of a patch, and how they are read and written there.

ghost use Rattle.std.specs.Prelude.{◌≡◌, ◌≢◌, ℕ, ◌+◌, ◌*◌, ◌/◌, ◌<◌, length, slice_index, slice_index_or, IsTrue};
ghost use Rattle.amr_box.specs.Cells.{IsNear, holds};
ghost use Rattle.amr_patch.specs.Places.{grown, place};
ghost use Rattle.amr_ghost.specs.Strips.{AreWritten, nth_place, step};

use amr_box::{Axis, Bx, Cell, distance};

/// The places of a strip's cells: that of the first cell, and how many places on that of each next one is.
#[derive(Clone, Copy, Debug)]
pub(crate) struct Entries {
    pub(crate) first: usize,
    pub(crate) stride: usize,
}

/// The places of the cells of a strip in a patch of this box.
pub(crate) fn entries_of(b: &Bx, axis: Axis, c: Cell) -> Entries
    requires near { IsNear b.now }
    requires inside { IsTrue (holds (grown b.now) c) }
    ensures places { (k : ℕ) → result.first + k * result.stride ≡ place b.now (step axis c k) }
    ensures apart { 0 < result.stride }
{
    let lo = b.lo();
    let row_length = b.width() as usize + 2;
    let row = distance(lo.y - 1, c.y);
    let column = distance(lo.x - 1, c.x);
    let first = row * row_length + column;
    match axis {
        Axis::X => Entries { first, stride: 1 },
        Axis::Y => Entries {
            first,
            stride: row_length,
        },
    }
}

/// Reads the values at the first places of a strip.
#[inline(always)]
pub(crate) fn take_entries(values: &[u32], source: Entries, masses: &mut [u32])
    requires some { 0 < length masses.old }
    requires within { (k : ℕ) → k < length masses.old → nth_place source k < length values.now }
    ensures count { length masses.new ≡ length masses.old }
    ensures taken { (k : ℕ) → k < length masses.old → slice_index masses.new k ≡ slice_index values.now (nth_place source k) }
{
    let count = masses.len();
    if source.stride == 1 {
        masses.copy_from_slice(&values[source.first..source.first + count]);
        return;
    }
    for k in 0..count {
        masses[k] = values[source.first + k * source.stride];
    }
}

/// Writes values at the first places of a strip.
#[inline(always)]
pub(crate) fn give_entries(values: &mut [u32], target: Entries, masses: &[u32])
    requires some { 0 < length masses.now }
    requires within { (k : ℕ) → k < length masses.now → nth_place target k < length values.old }
    requires apart { 0 < target.stride }
    ensures { AreWritten 0 target (length masses.now) (λ k. slice_index masses.now k) values.old values.new }
{
    let count = masses.len();
    if target.stride == 1 {
        values[target.first..target.first + count].copy_from_slice(masses);
        return;
    }
    for k in 0..count {
        values[target.first + k * target.stride] = masses[k];
    }
}

/// Copies the values at the first places of a strip to those of another strip, in another list.
#[inline(always)]
pub(crate) fn copy_entries(
    from: &[u32],
    source: Entries,
    values: &mut [u32],
    target: Entries,
    count: usize,
)
    requires some { 0 < count }
    requires from_within { (k : ℕ) → k < count → nth_place source k < length from.now }
    requires within { (k : ℕ) → k < count → nth_place target k < length values.old }
    requires apart { 0 < target.stride }
    ensures { AreWritten 0 target count (λ k. slice_index from.now (nth_place source k)) values.old values.new }
{
    if source.stride == 1 {
        give_entries(values, target, &from[source.first..source.first + count]);
        return;
    }
    for k in 0..count {
        values[target.first + k * target.stride] = from[source.first + k * source.stride];
    }
}

/// Copies the values at the first places of a strip to those of another strip, in the same list. No place is of both strips.
pub(crate) fn copy_within_list(values: &mut [u32], source: Entries, target: Entries, count: usize)
    requires from_within { (k : ℕ) → k < count → nth_place source k < length values.old }
    requires within { (k : ℕ) → k < count → nth_place target k < length values.old }
    requires apart { 0 < target.stride }
    requires elsewhere { (j k : ℕ) → j < count → k < count → nth_place source j ≢ nth_place target k }
    ensures { AreWritten 0 target count (λ k. slice_index values.old (nth_place source k)) values.old values.new }
{
    for k in 0..count {
        values[target.first + k * target.stride] = values[source.first + k * source.stride];
    }
}

/// Gives all places of a list one value.
#[inline(always)]
fn fill_all<T: Copy>(values: &mut [T], value: T)
    ensures count { length values.new ≡ length values.old }
    ensures filled { (k : ℕ) (absent : T) → k < length values.old → slice_index_or values.new k absent ≡ value }
{
    for k in 0..values.len() {
        values[k] = value;
    }
}

/// Gives the first places of a strip one value.
#[inline(always)]
pub(crate) fn fill_entries<T: Copy>(values: &mut [T], target: Entries, count: usize, value: T)
    requires some { 0 < count }
    requires within { (k : ℕ) → k < count → nth_place target k < length values.old }
    requires apart { 0 < target.stride }
    ensures { (absent : T) → AreWritten absent target count (λ k. value) values.old values.new }
{
    if target.stride == 1 {
        fill_all(&mut values[target.first..target.first + count], value);
        return;
    }
    for k in 0..count {
        values[target.first + k * target.stride] = value;
    }
}

/// Gives the values quarters of the masses: of each mass two values, but of the first mass one value alone where its other is
/// skipped.
#[inline(always)]
fn quarter_all(masses: &[u32], skipped: usize, values: &mut [u32])
    requires skipped { skipped < 2 }
    requires within { (k : ℕ) → k < length values.old → (skipped + k) / 2 < length masses.now }
    ensures count { length values.new ≡ length values.old }
    ensures quarters { (k : ℕ) → k < length values.old → slice_index values.new k ≡ slice_index masses.now ((skipped + k) / 2) / 4 }
{
    for k in 0..values.len() {
        values[k] = masses[(skipped + k) / 2] / 4;
    }
}

/// Writes quarters of the masses at the first places of a strip to those of another strip, in another list: each to two places,
/// but the first to one place alone where its other is skipped.
#[inline(always)]
pub(crate) fn quarter_entries(
    from: &[u32],
    source: Entries,
    skipped: usize,
    values: &mut [u32],
    target: Entries,
    count: usize,
)
    requires some { 0 < count }
    requires skipped { skipped < 2 }
    requires from_within { (k : ℕ) → k < count → nth_place source ((skipped + k) / 2) < length from.now }
    requires within { (k : ℕ) → k < count → nth_place target k < length values.old }
    requires apart { 0 < target.stride }
    ensures { AreWritten 0 target count (λ k. slice_index from.now (nth_place source ((skipped + k) / 2)) / 4) values.old values.new }
{
    if target.stride == 1 {
        if source.stride == 1 {
            quarter_all(
                &from[source.first..],
                skipped,
                &mut values[target.first..target.first + count],
            );
            return;
        }
    }
    for k in 0..count {
        let mass = from[source.first + (skipped + k) / 2 * source.stride];
        values[target.first + k * target.stride] = mass / 4;
    }
}
