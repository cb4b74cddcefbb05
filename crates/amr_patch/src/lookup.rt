//! Which of several patches has a cell.

ghost use Rattle.std.specs.Prelude.{◌≡◌, ℕ, ◌-◌, ◌<◌, ◌≤◌, ◌<ℤ◌, ◌↔◌, true, false, IfSome, IsTrue, length, is_some, slice_index_or};
ghost use Rattle.std.specs.List.Sorted.{IsPartitionPoint};
ghost use Rattle.amr_box.specs.Cells.{cell, holds};
ghost use Rattle.amr_patch.specs.declared.patches.Patch.{Patch};
ghost use Rattle.amr_patch.specs.Patches.{ArePatchesApart, box, in_patches, masses_in};
ghost use Rattle.amr_patch.specs.Orders.{AreAtMostHigh, AreInRows, FollowsLast, IsHolder, IsOrderOf, comes_first};

use crate::patches::Patch;
use amr_box::Cell;

/// How many places are tried near the last one before a search by halving.
const TRIES: usize = 8;

/// How a list of patches stands: whether their low corners go row by row from the low row, within a row from the low
/// column. And how many rows the tallest patch has.
#[derive(Clone, Copy, Debug)]
pub struct Order {
    sorted: bool,
    tallest: u32,
}

/// How the patches stand, in one pass over them.
pub fn order_of(patches: &[Patch]) -> Order
    ensures { IsOrderOf result patches.now }
{
    let mut sorted = true;
    let mut tallest = 0;
    for k in 0..patches.len() {
        sorted = sorted && is_in_order(patches, k);
        tallest = patches[k].bx().height().max(tallest);
    }
    Order { sorted, tallest }
}

/// Whether a cell comes before another, or is it, where cells go row by row.
fn comes_first(a: Cell, b: Cell) -> bool
    ensures { result ≡ comes_first a b }
{
    if a.y < b.y {
        return true;
    }
    if b.y < a.y {
        return false;
    }
    a.x <= b.x
}

/// Whether a patch comes after the one before it; the first one does.
fn is_in_order(patches: &[Patch], k: usize) -> bool
    requires { k < length patches.now }
    ensures { IsTrue result ↔ FollowsLast patches.now k }
{
    if k == 0 {
        return true;
    }
    comes_first(patches[k - 1].bx().lo(), patches[k].bx().lo())
}

/// The number of the patch that has the cell, None exactly where none has it. No cell is in two of the patches.
///
/// Where the patches go row by row, it looks by halving. It looks for the last one that starts in a row at or below the
/// cell's, in that row at or left of the cell. If that one doesn't have the cell, no other of its row does. Then it
/// goes on with the rows below, as far down as the tallest patch reaches. So a list of patches in rows costs two
/// searches. Elsewhere it goes over them all.
pub fn find(patches: &[Patch], order: Order, c: Cell) -> Option<usize>
    requires order { IsOrderOf order patches.now }
    requires apart { ArePatchesApart patches.now }
    ensures some { is_some result ≡ in_patches patches.now c }
    ensures found { IfSome result (IsHolder patches.now c) }
{
    if order.sorted {
        find_in_rows(patches, order.tallest, c)
    } else {
        find_among_all(patches, c)
    }
}

/// The same, by a look at each.
fn find_among_all(patches: &[Patch], c: Cell) -> Option<usize>
    ensures some { is_some result ≡ in_patches patches.now c }
    ensures found { IfSome result (IsHolder patches.now c) }
{
    for k in 0..patches.len() {
        if patches[k].bx().holds(c) {
            return Some(k);
        }
    }
    None
}

/// The same, where the patches go row by row and none is higher than `tallest`.
fn find_in_rows(patches: &[Patch], tallest: u32, c: Cell) -> Option<usize>
    requires sorted { AreInRows patches.now }
    requires tallest { AreAtMostHigh tallest patches.now }
    requires apart { ArePatchesApart patches.now }
    ensures some { is_some result ≡ in_patches patches.now c }
    ensures found { IfSome result (IsHolder patches.now c) }
{
    let mut y = i64::from(c.y);
    let bottom = y - i64::from(tallest);
    let mut near = patches.len();
    while y > bottom {
        let count = count_below(patches, near, y, c.x);
        if count == 0 {
            return None;
        }
        let b = patches[count - 1].bx();
        if b.holds(c) {
            return Some(count - 1);
        }
        y = i64::from(b.lo().y).min(y - 1);
        near = count;
    }
    None
}

/// Whether the patch starts in a row below `y`, or in that row at or left of column `x`.
fn starts_up_to(p: &Patch, y: i64, x: i32) -> bool
    ensures { result ≡ comes_first (box p.now).lo (cell x y) }
{
    let lo = p.bx().lo();
    let row = i64::from(lo.y);
    if row < y {
        return true;
    }
    if y < row {
        return false;
    }
    lo.x <= x
}

/// How many patches start in a row below `y`, or in that row at or left of column `x`.
fn count_up_to(patches: &[Patch], y: i64, x: i32) -> usize
    requires { AreInRows patches.now }
    ensures within { result ≤ length patches.now }
    ensures parts { IsPartitionPoint (λ p. comes_first (box p).lo (cell x y) ≡ true) (λ p. comes_first (box p).lo (cell x y) ≡ false) patches.now result }
{
    patches.partition_point(|p| starts_up_to(p, y, x))
}

/// Whether the last of so many patches, if there is one, starts in a row below `y`, or in that row at or left of column `x`.
fn starts_last(patches: &[Patch], count: usize, y: i64, x: i32) -> bool
    requires within { count ≤ length patches.now }
    ensures { result ≡ true → (p : Patch) → 0 < count → comes_first (box (slice_index_or patches.now (count - 1) p)).lo (cell x y) ≡ true }
{
    if count == 0 {
        return true;
    }
    starts_up_to(&patches[count - 1], y, x)
}

/// Whether the patch after so many, if there is one, starts later.
fn starts_later(patches: &[Patch], count: usize, y: i64, x: i32) -> bool
    ensures { result ≡ true → (p : Patch) → count < length patches.now → comes_first (box (slice_index_or patches.now count p)).lo (cell x y) ≡ false }
{
    if count >= patches.len() {
        return true;
    }
    !starts_up_to(&patches[count], y, x)
}

/// Whether so many patches start in a row below `y`, or in that row at or left of column `x`. A yes is right.
fn is_count(patches: &[Patch], count: usize, y: i64, x: i32) -> bool
    requires { AreInRows patches.now }
    ensures within { result ≡ true → count ≤ length patches.now }
    ensures parts { result ≡ true → IsPartitionPoint (λ p. comes_first (box p).lo (cell x y) ≡ true)
        (λ p. comes_first (box p).lo (cell x y) ≡ false) patches.now count }
{
    if patches.len() < count {
        return false;
    }
    if !starts_last(patches, count, y, x) {
        return false;
    }
    starts_later(patches, count, y, x)
}

/// The same as `count_up_to`, where the count is mostly a few less than `near`: these are tried first. Nothing is tried where
/// `near` is the number of all patches.
fn count_below(patches: &[Patch], near: usize, y: i64, x: i32) -> usize
    requires { AreInRows patches.now }
    ensures within { result ≤ length patches.now }
    ensures parts { IsPartitionPoint (λ p. comes_first (box p).lo (cell x y) ≡ true) (λ p. comes_first (box p).lo (cell x y) ≡ false) patches.now result }
{
    if near >= patches.len() {
        return count_up_to(patches, y, x);
    }
    for less in 0..TRIES {
        let count = near.saturating_sub(less);
        if is_count(patches, count, y, x) {
            return count;
        }
    }
    count_up_to(patches, y, x)
}

/// The number `k`, where there is such a patch and it has the cell.
#[inline(always)]
fn holder_at(patches: &[Patch], k: usize, c: Cell) -> Option<usize>
    ensures { IfSome result (IsHolder patches.now c) }
{
    if k >= patches.len() {
        return None;
    }
    if patches[k].bx().holds(c) {
        return Some(k);
    }
    None
}

/// The number of the patch that has a cell, where that is `near`, the next or the one before.
fn near_holder(patches: &[Patch], near: usize, c: Cell) -> Option<usize>
    ensures { IfSome result (IsHolder patches.now c) }
{
    if let Some(k) = holder_at(patches, near, c) {
        return Some(k);
    }
    if let Some(k) = holder_at(patches, near.saturating_add(1), c) {
        return Some(k);
    }
    holder_at(patches, near.saturating_sub(1), c)
}

/// The same as `find`, for look-ups of cells that lie side by side. It looks at patch `near` and those beside it in the
/// list first, and leaves in `near` what it found.
pub fn find_near(patches: &[Patch], order: Order, near: &mut usize, c: Cell) -> Option<usize>
    requires order { IsOrderOf order patches.now }
    requires apart { ArePatchesApart patches.now }
    ensures some { is_some result ≡ in_patches patches.now c }
    ensures found { IfSome result (IsHolder patches.now c) }
{
    if let Some(k) = near_holder(patches, *near, c) {
        *near = k;
        return Some(k);
    }
    let found = find(patches, order, c);
    if let Some(k) = found {
        *near = k;
    }
    found
}

/// The places in the list of the patches that may have cells in rows `low` to `high`: from the first number up to before the second. None
/// of the other patches has a cell in these rows. Where the patches go row by row it is found by halving.
pub fn reach_of(patches: &[Patch], order: Order, low: i32, high: i32) -> (usize, usize)
    requires order { IsOrderOf order patches.now }
    ensures range { result.0 ≤ result.1 }
    ensures within { result.1 ≤ length patches.now }
    ensures below { (k : ℕ) (p : Patch) → k < result.0 → (box (slice_index_or patches.now k p)).hi.y <ℤ low }
    ensures above { (k : ℕ) (p : Patch) → result.1 ≤ k → k < length patches.now → high <ℤ (box (slice_index_or patches.now k p)).lo.y }
{
    if !order.sorted {
        return (0, patches.len());
    }
    let bottom = i64::from(low) - i64::from(order.tallest);
    let from = count_up_to(patches, bottom, i32::MAX);
    let to = count_up_to(patches, i64::from(high) + 1, i32::MIN);
    (from.min(to), to)
}

/// The mass of a cell, None exactly where it is in none of the patches. No cell is in two of them.
pub fn mass_at(patches: &[Patch], order: Order, c: Cell) -> Option<u64>
    requires order { IsOrderOf order patches.now }
    requires apart { ArePatchesApart patches.now }
    ensures { result ≡ masses_in patches.now c }
{
    match find(patches, order, c) {
        None => None,
        Some(k) => Some(patches[k].mass(c)),
    }
}
