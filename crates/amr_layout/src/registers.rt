//! The number of a register cell.

ghost use Rattle.std.specs.Prelude.{◌≡◌, ◌<◌, ◌≤◌, length, true, false, Contains, IsTrue, slice_index_or};
ghost use Rattle.std.specs.List.Sorted.{IsPartitionPoint};
ghost use Rattle.amr_patch.specs.Orders.{comes_first};
ghost use Rattle.amr_layout.specs.Adds.{AreInOrder, number_of};

use amr_box::Cell;

/// How many places are tried near the last one before a search by halving.
const TRIES: usize = 8;

/// Whether a cell comes before another, or is it, where cells go by y, then by x.
fn comes_first(a: &Cell, b: Cell) -> bool
    ensures { result ≡ comes_first a.now b }
{
    if a.y < b.y {
        return true;
    }
    if b.y < a.y {
        return false;
    }
    a.x <= b.x
}

/// How many cells come before this one or are it.
fn count_up_to(cells: &[Cell], c: Cell) -> usize
    requires { AreInOrder cells.now }
    ensures within { result ≤ length cells.now }
    ensures parts { IsPartitionPoint (λ a. comes_first a c ≡ true) (λ a. comes_first a c ≡ false) cells.now result }
{
    cells.partition_point(|a| comes_first(a, c))
}

/// The number of a cell of the list, by halving.
fn number_of(cells: &[Cell], c: Cell) -> usize
    requires ordered { AreInOrder cells.now }
    requires there { Contains cells.now c }
    ensures number { result ≡ number_of cells.now c }
    ensures within { result < length cells.now }
{
    count_up_to(cells, c) - 1
}

/// Whether this cell stands at place `k` of the list.
fn is_at(cells: &[Cell], k: usize, c: Cell) -> bool
    ensures { IsTrue result → (k < length cells.now) × (slice_index_or cells.now k c ≡ c) }
{
    if k >= cells.len() {
        return false;
    }
    let a = cells[k];
    if a.x != c.x {
        return false;
    }
    if a.y != c.y {
        return false;
    }
    true
}

/// The same as `number_of`, for cells that lie side by side: it looks at place `near` and a few after it first.
fn number_near(cells: &[Cell], near: usize, c: Cell) -> usize
    requires ordered { AreInOrder cells.now }
    requires there { Contains cells.now c }
    ensures number { result ≡ number_of cells.now c }
    ensures within { result < length cells.now }
{
    for more in 0..TRIES {
        let place = near.saturating_add(more);
        if is_at(cells, place, c) {
            return place;
        }
    }
    number_of(cells, c)
}

/// The same, which leaves in `near` what it found.
pub(crate) fn next_number(cells: &[Cell], near: &mut usize, c: Cell) -> usize
    requires ordered { AreInOrder cells.now }
    requires there { Contains cells.now c }
    ensures number { result ≡ number_of cells.now c }
    ensures within { result < length cells.now }
{
    *near = number_near(cells, *near, c);
    *near
}
