//! Whether a level is in sync with the finer one: each covered cell has the mass of its children. Rows are gone over span by
//! span, with a look-up for each span.

ghost use Rattle.std.specs.Prelude.{◌≡◌, ℕ, ◌+◌, ◌*◌, ◌<◌, ◌≤◌, ◌↔◌, pos, ◌+ℤ◌, ◌≤ℤ◌, length, slice_index, slice_index_or, IsNone, IsSome, IsTrue, IfSome};
ghost use Rattle.std.specs.List.{All};
ghost use Rattle.amr_box.specs.declared.Cell.{Cell};
ghost use Rattle.amr_box.specs.Cells.{Extent, cell, child, has_child_where, holds, near_limit, width};
ghost use Rattle.amr_patch.specs.BoxRows.{HasCellsOf};
ghost use Rattle.amr_def.specs.Facts.{IsAligned, IsLevel};
ghost use Rattle.amr_def.specs.State.{children_mass, is_covered_by, mass_of};
ghost use Rattle.amr_patch.specs.Levels.{level_of};
ghost use Rattle.amr_decoder.specs.Filled.{IsPlaced};
ghost use Rattle.amr_decoder.specs.Synced.{IsOver, IsSum, IsSumAt, four_at};

use amr_box::{Bx, Cell};
use amr_def::Problem;
use amr_patch::{Level, cell_in, masses_from};

/// The mass of a cell, 0 where it is none of the level.
fn mass_of(level: &Level, c: Cell) -> u64
    ensures { result ≡ mass_of (level_of level.now).masses c }
{
    level.get(c).unwrap_or(0)
}

/// Child `k` of a cell.
fn child(c: Cell, k: u32) -> Cell
    requires west { pos 0 ≤ℤ c.x }
    requires east { c.x ≤ℤ pos (near_limit + 1) }
    requires south { pos 0 ≤ℤ c.y }
    requires north { c.y ≤ℤ pos (near_limit + 1) }
    requires one_of_four { k < 4 }
    ensures { result ≡ child c k }
{
    Cell {
        x: c.x + c.x + (k % 2) as i32,
        y: c.y + c.y + (k / 2) as i32,
    }
}

/// The mass of the children of a cell.
fn children_mass(level: &Level, c: Cell) -> u128
    requires west { pos 0 ≤ℤ c.x }
    requires east { c.x ≤ℤ pos (near_limit + 1) }
    requires south { pos 0 ≤ℤ c.y }
    requires north { c.y ≤ℤ pos (near_limit + 1) }
    ensures { result ≡ children_mass (level_of level.now).masses c }
{
    let first = u128::from(mass_of(level, child(c, 0)));
    let second = u128::from(mass_of(level, child(c, 1)));
    let third = u128::from(mass_of(level, child(c, 2)));
    let fourth = u128::from(mass_of(level, child(c, 3)));
    first + second + third + fourth
}

/// Whether a cell has the mass of its children.
fn is_sum(coarse: &Level, fine: &Level, c: Cell) -> bool
    requires west { pos 0 ≤ℤ c.x }
    requires east { c.x ≤ℤ pos (near_limit + 1) }
    requires south { pos 0 ≤ℤ c.y }
    requires north { c.y ≤ℤ pos (near_limit + 1) }
    ensures { IsTrue result ↔ IsSum (level_of coarse.now).masses (level_of fine.now).masses c }
{
    u128::from(mass_of(coarse, c)) == children_mass(fine, c)
}

/// The sum of two neighbours of the lower row and the two above them.
fn four_at(lower: &[u32], upper: &[u32], k: usize) -> u64
    requires lower { 2 * k + 1 < length lower.now }
    requires upper { 2 * k + 1 < length upper.now }
    ensures { result ≡ four_at lower.now upper.now k }
{
    let west = 2 * k;
    let east = west + 1;
    u64::from(lower[west])
        + u64::from(lower[east])
        + u64::from(upper[west])
        + u64::from(upper[east])
}

/// Whether masses are the sums of fours of children.
fn are_sums(masses: &[u32], lower: &[u32], upper: &[u32]) -> bool
    requires lower { 2 * length masses.now ≤ length lower.now }
    requires upper { 2 * length masses.now ≤ length upper.now }
    ensures { IsTrue result ↔ ((k : ℕ) → k < length masses.now → slice_index masses.now k ≡ four_at lower.now upper.now k) }
{
    for k in 0..masses.len() {
        if u64::from(masses[k]) != four_at(lower, upper, k) {
            return false;
        }
    }
    true
}

/// 1 where a cell has the mass of its children, else None.
fn one_sum(coarse: &Level, fine: &Level, c: Cell) -> Option<u32>
    requires west { pos 0 ≤ℤ c.x }
    requires east { c.x ≤ℤ pos (near_limit + 1) }
    requires south { pos 0 ≤ℤ c.y }
    requires north { c.y ≤ℤ pos (near_limit + 1) }
    ensures some { IfSome result (λ n. (n ≡ 1) × IsSum (level_of coarse.now).masses (level_of fine.now).masses c) }
    ensures none { IsNone result → IsSum (level_of coarse.now).masses (level_of fine.now).masses c → ⊥ }
{
    if is_sum(coarse, fine, c) {
        Some(1)
    } else {
        None
    }
}

/// How many cells have the mass of their children, of those that stand in one patch with all their children in two rows
/// of patches. None where one of them has not.
fn span_sums(masses: &[u32], lower: &[u32], upper: &[u32]) -> Option<usize>
    ensures within { IfSome result (λ n. n ≤ length masses.now) }
    ensures lower { IfSome result (λ n. 2 * n ≤ length lower.now) }
    ensures upper { IfSome result (λ n. 2 * n ≤ length upper.now) }
    ensures sums { IfSome result (λ n. (k : ℕ) → k < n → slice_index masses.now k ≡ four_at lower.now upper.now k) }
    ensures none { IsNone result → ((k : ℕ) → k < length masses.now → 2 * k + 1 < length lower.now → 2 * k + 1 < length upper.now
        → slice_index masses.now k ≡ four_at lower.now upper.now k) → ⊥ }
{
    let count = masses.len().min(lower.len() / 2).min(upper.len() / 2);
    if are_sums(&masses[..count], lower, upper) {
        Some(count)
    } else {
        None
    }
}

/// Goes over a row of the parents of a box, from column `first` on, as far as they and the children stand in one patch
/// each. It answers how many have the mass of their children. None where one has not.
fn sums_from(
    coarse: &Level,
    fine: &Level,
    b: &Bx,
    parents: &Bx,
    row: u32,
    first: u32,
) -> Option<u32>
    requires over { IsOver coarse.now fine.now b.now parents.now }
    requires row { (parents.now.lo.y +ℤ pos row) ≤ℤ parents.now.hi.y }
    requires column { (parents.now.lo.x +ℤ pos first) ≤ℤ parents.now.hi.x }
    ensures some { IfSome result (λ n. 0 < n) }
    ensures within { IfSome result (λ n. first + n ≤ width parents.now) }
    ensures sums { IfSome result (λ n. (k : ℕ) → k < n → IsSumAt coarse.now fine.now parents.now row (first + k)) }
    ensures none { IsNone result → ((i : ℕ) → i < width parents.now → IsSumAt coarse.now fine.now parents.now row i) → ⊥ }
{
    let masses = masses_from(coarse, parents, row, first);
    let lower = masses_from(fine, b, 2 * row, 2 * first);
    let upper = masses_from(fine, b, 2 * row + 1, 2 * first);
    match span_sums(masses, lower, upper) {
        None => None,
        Some(0) => one_sum(coarse, fine, cell_in(parents, row, first)),
        Some(count) => Some(count as u32),
    }
}

/// Whether each cell in a row of the parents of a box has the mass of its children.
fn is_row_in_sync(coarse: &Level, fine: &Level, b: &Bx, parents: &Bx, row: u32) -> bool
    requires over { IsOver coarse.now fine.now b.now parents.now }
    requires row { (parents.now.lo.y +ℤ pos row) ≤ℤ parents.now.hi.y }
    ensures { IsTrue result ↔ ((i : ℕ) → i < width parents.now → IsSumAt coarse.now fine.now parents.now row i) }
{
    let columns = parents.width();
    let mut first = 0;
    while first < columns {
        match sums_from(coarse, fine, b, parents, row, first) {
            None => return false,
            Some(count) => first += count,
        }
    }
    true
}

/// Whether each parent of a cell of a box has the mass of its children.
fn is_box_in_sync(coarse: &Level, fine: &Level, b: &Bx, parents: &Bx) -> bool
    requires { IsOver coarse.now fine.now b.now parents.now }
    ensures { IsTrue result ↔ ((c : Cell) → IsTrue (holds parents.now c) → IsSum (level_of coarse.now).masses (level_of fine.now).masses c) }
{
    for j in 0..parents.height() {
        if !is_row_in_sync(coarse, fine, b, parents, j) {
            return false;
        }
    }
    true
}

/// The same of a box with aligned corners, whose cells are of the finer level, and their parents of the coarser one.
fn are_parents_in_sync(p: &Problem, coarse: &Level, fine: &Level, b: &Bx) -> bool
    requires placed { IsPlaced b.now }
    requires aligned { IsAligned p.now.blocking b.now }
    requires cells { HasCellsOf fine.now b.now }
    requires parents { (c : Cell) → IsTrue (has_child_where (holds b.now) c) → IsSome ((level_of coarse.now).masses c) }
    ensures { IsTrue result ↔ ((c : Cell) → IsTrue (has_child_where (holds b.now) c) → IsSum (level_of coarse.now).masses (level_of fine.now).masses c) }
{
    let parents = b.coarsen2();
    is_box_in_sync(coarse, fine, b, &parents)
}

/// Whether each parent of a cell of level `l + 1` has the mass of its children. All of them are of level `l`.
pub(crate) fn are_boxes_in_sync(p: &Problem, l: u32, coarse: &Level, fine: &Level) -> bool
    requires level { l ≤ 3 }
    requires fine { IsLevel p.now (l + 1) (level_of fine.now) }
    requires aligned { All (IsAligned p.now.blocking) (level_of fine.now).boxes }
    requires parents { (c : Cell) → IsTrue (is_covered_by (level_of fine.now).boxes c) → IsSome ((level_of coarse.now).masses c) }
    ensures { IsTrue result ↔ ((k : ℕ) (d : Extent) (c : Cell) → k < length (level_of fine.now).boxes
        → IsTrue (has_child_where (holds (slice_index_or (level_of fine.now).boxes k d)) c)
        → IsSum (level_of coarse.now).masses (level_of fine.now).masses c) }
{
    for b in fine.boxes() {
        if !are_parents_in_sync(p, coarse, fine, b) {
            return false;
        }
    }
    true
}
