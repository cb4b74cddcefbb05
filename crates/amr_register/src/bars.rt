//! Bars: cells of one row, one after the other. A look-up among bars in order finds how far along the row its answer goes.

ghost use Rattle.std.specs.Prelude.{◌≡◌, Bool, ◌-◌, ◌<◌, ◌≤◌, true, false, ◌||◌, ℤ, pos, ◌+ℤ◌, ◌≤ℤ◌, length};
ghost use Rattle.std.specs.Prelude.{slice_index_or, is_some, Contains, IfSome, IsTrue, OnOk, Some};
ghost use Rattle.std.specs.List.{All};
ghost use Rattle.std.specs.List.Sorted.{IsPartitionPoint};
ghost use Rattle.amr_box.specs.declared.Cell.{Cell};
ghost use Rattle.amr_box.specs.Cells.{Extent, IsNear, cell, extent, height, holds, in_boxes};
ghost use Rattle.amr_patch.specs.Orders.{comes_first};
ghost use Rattle.amr_patch.specs.Patches.{ArePairwiseApart};
ghost use Rattle.amr_register.specs.Bars.{AreBars, IsBar, IsStretch};

use crate::cells::{row_first, row_last};
use amr_box::{Bx, Cell};
use amr_causes::NoMemory;

/// How many counts are tried near the last one before a search by halving.
const TRIES: usize = 8;

/// Cells of one row, one after the other, that are all covered, or none of which is. `count` bars start up to the first of them.
#[derive(Clone, Copy)]
pub(crate) struct Stretch {
    pub(crate) cells: Bx,
    pub(crate) covered: bool,
    pub(crate) count: usize,
}

/// Row `j` of a box, counted from its low row.
fn row_of(b: &Bx, j: u32) -> Bx
    requires near { IsNear b.now }
    requires inside { j < height b.now }
    ensures { result ≡ extent (cell b.now.lo.x (b.now.lo.y +ℤ pos j)) (cell b.now.hi.x (b.now.lo.y +ℤ pos j)) }
{
    Bx::try_new(row_first(b, j), row_last(b, j)).unwrap()
}

/// Adds the rows of a box.
pub(crate) fn push_rows(bars: &mut Vec<Bx>, b: &Bx) -> Result<(), NoMemory>
    requires near { IsNear b.now }
    ensures each { OnOk result (All IsBar bars.old.items → All IsBar bars.new.items) }
    ensures cells { OnOk result ((c : Cell) → in_boxes bars.new.items c ≡ (in_boxes bars.old.items c || holds b.now c)) }
    ensures apart { OnOk result (ArePairwiseApart bars.old.items → ((c : Cell) → IsTrue (in_boxes bars.old.items c) → IsTrue (holds b.now c) → ⊥)
        → ArePairwiseApart bars.new.items) }
{
    for j in 0..b.height() {
        bars.push(row_of(b, j))?;
    }
    Ok(())
}

/// Whether a bar starts in a row below a cell's, or in its row at or left of it.
fn starts_up_to(bar: &Bx, c: Cell) -> bool
    ensures { result ≡ comes_first bar.now.lo c }
{
    let low = bar.lo();
    if low.y < c.y {
        return true;
    }
    if c.y < low.y {
        return false;
    }
    low.x <= c.x
}

/// How many bars start in a row below a cell's, or in its row at or left of it.
fn count_up_to(bars: &[Bx], c: Cell) -> usize
    requires { AreBars bars.now }
    ensures within { result ≤ length bars.now }
    ensures parts { IsPartitionPoint (λ r. comes_first r.lo c ≡ true) (λ r. comes_first r.lo c ≡ false) bars.now result }
{
    bars.partition_point(|r| starts_up_to(r, c))
}

/// Whether the last of so many bars, if there is one, starts up to a cell.
fn starts_last(bars: &[Bx], count: usize, c: Cell) -> bool
    requires within { count ≤ length bars.now }
    ensures { result ≡ true → (r : Extent) → 0 < count → comes_first (slice_index_or bars.now (count - 1) r).lo c ≡ true }
{
    if count == 0 {
        return true;
    }
    starts_up_to(&bars[count - 1], c)
}

/// Whether the bar after so many, if there is one, starts later than a cell.
fn starts_later(bars: &[Bx], count: usize, c: Cell) -> bool
    ensures { result ≡ true → (r : Extent) → count < length bars.now → comes_first (slice_index_or bars.now count r).lo c ≡ false }
{
    if count >= bars.len() {
        return true;
    }
    !starts_up_to(&bars[count], c)
}

/// Whether so many bars start up to a cell. A yes is right.
fn is_count(bars: &[Bx], count: usize, c: Cell) -> bool
    requires { AreBars bars.now }
    ensures within { result ≡ true → count ≤ length bars.now }
    ensures parts { result ≡ true → IsPartitionPoint (λ r. comes_first r.lo c ≡ true) (λ r. comes_first r.lo c ≡ false) bars.now count }
{
    if bars.len() < count {
        return false;
    }
    if !starts_last(bars, count, c) {
        return false;
    }
    starts_later(bars, count, c)
}

/// The same as `count_up_to`, for look-ups of cells side by side: it tries the count `near` and a few more first.
fn count_near(bars: &[Bx], near: usize, c: Cell) -> usize
    requires { AreBars bars.now }
    ensures within { result ≤ length bars.now }
    ensures parts { IsPartitionPoint (λ r. comes_first r.lo c ≡ true) (λ r. comes_first r.lo c ≡ false) bars.now result }
{
    for more in 0..TRIES {
        let count = near.saturating_add(more);
        if is_count(bars, count, c) {
            return count;
        }
    }
    count_up_to(bars, c)
}

/// The bar that has a cell, None exactly where none has it. It is the last of those that start up to the cell.
fn bar_with(bars: &[Bx], count: usize, c: Cell) -> Option<Bx>
    requires bars { AreBars bars.now }
    requires within { count ≤ length bars.now }
    requires parts { IsPartitionPoint (λ r. comes_first r.lo c ≡ true) (λ r. comes_first r.lo c ≡ false) bars.now count }
    ensures some { is_some result ≡ in_boxes bars.now c }
    ensures holds { IfSome result (λ r. IsTrue (holds r c)) }
    ensures found { IfSome result (Contains bars.now) }
{
    if count == 0 {
        return None;
    }
    let last = bars[count - 1];
    if last.holds(c) {
        return Some(last);
    }
    None
}

/// The last column up to which no bar has a cell of a cell's row, from the cell on, which no bar has.
fn last_without(bars: &[Bx], count: usize, c: Cell) -> i32
    requires bars { AreBars bars.now }
    requires within { count ≤ length bars.now }
    requires parts { IsPartitionPoint (λ r. comes_first r.lo c ≡ true) (λ r. comes_first r.lo c ≡ false) bars.now count }
    requires none { in_boxes bars.now c ≡ false }
    ensures from { c.x ≤ℤ result }
    ensures without { (x : ℤ) → c.x ≤ℤ x → x ≤ℤ result → in_boxes bars.now (cell x c.y) ≡ false }
{
    if count == bars.len() {
        return i32::MAX;
    }
    let next = bars[count].lo();
    if c.y < next.y {
        return i32::MAX;
    }
    next.x - 1
}

/// The stretch of a row that has a cell: its bar, or the cells from it on up to the next bar. A search is made only where
/// neither `near` bars nor one more start up to the cell.
pub(crate) fn stretch_at(bars: &[Bx], near: usize, c: Cell) -> Stretch
    requires { AreBars bars.now }
    ensures has { IsTrue (holds result.cells c) }
    ensures same { IsStretch (in_boxes bars.now) (Some result) }
{
    let count = count_near(bars, near, c);
    if let Some(cells) = bar_with(bars, count, c) {
        return Stretch {
            cells,
            covered: true,
            count,
        };
    }
    let end = Cell {
        x: last_without(bars, count, c),
        y: c.y,
    };
    Stretch {
        cells: Bx::try_new(c, end).unwrap(),
        covered: false,
        count,
    }
}

/// How many bars start up to the last stretch, 0 if there is none.
pub(crate) fn count_of(last: Option<Stretch>) -> usize {
    match last {
        None => 0,
        Some(stretch) => stretch.count,
    }
}

/// What the last stretch, if there is one, tells of a cell: None where it hasn't the cell.
pub(crate) fn told(last: Option<Stretch>, c: Cell) -> Option<bool>
    ensures { (test : Cell → Bool) → IsStretch test last → IfSome result (λ t. test c ≡ t) }
{
    match last {
        None => None,
        Some(stretch) => {
            if stretch.cells.holds(c) {
                Some(stretch.covered)
            } else {
                None
            }
        }
    }
}
