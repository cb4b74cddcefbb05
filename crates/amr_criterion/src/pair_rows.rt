//! Tags along a row of pairs of neighbours, span by span.

ghost use Rattle.std.specs.Prelude.{◌≡◌, true, false, ℕ, ◌-◌, ◌<◌, ◌≤◌, ◌&&◌, length, slice_index};
ghost use Rattle.amr_box.specs.declared.Cell.{Cell};
ghost use Rattle.amr_box.specs.Cells.{holds};
ghost use Rattle.amr_def.specs.Tags.{differs_by};
ghost use Rattle.amr_criterion.specs.Pairs.{AreAlong, IsBelow, IsJoined, after, ahead, in_steep_pair, region, with_after};

use amr_box::{Axis, Bx, Cell};
use amr_tags::Tags;

/// A row of pairs of neighbours. Their first cells go along a row, from the low end on. The second cell of each lies
/// beside the first along the axis. Only cells of `part` are tagged.
#[derive(Clone, Copy, Debug)]
pub(crate) struct PairRow {
    pub(crate) axis: Axis,
    pub(crate) from: Cell,
    pub(crate) part: Bx,
    /// The difference of values that tags both cells of a pair.
    pub(crate) threshold: u64,
}

/// The cell beside another along an axis, on its high side.
pub(crate) fn after(axis: Axis, c: Cell) -> Cell
    requires { IsBelow 1073741824 c }
    ensures { result ≡ after axis c }
{
    match axis {
        Axis::X => Cell { x: c.x + 1, y: c.y },
        Axis::Y => Cell { x: c.x, y: c.y + 1 },
    }
}

/// Whether two values differ by the threshold or more.
fn differs_by(threshold: u64, a: u32, b: u32) -> bool
    ensures { result ≡ differs_by threshold a b }
{
    threshold <= u64::from(a.abs_diff(b))
}

/// How many pairs from the start of a row on are known to differ by less than the threshold: all of them where the greatest
/// difference is below it, else none. Most rows end here, so each is gone over without a stop, as fast as it is read.
fn count_even(threshold: u64, first: &[u32], second: &[u32]) -> usize
    requires same { length second.now ≡ length first.now }
    ensures within { result ≤ length first.now }
    ensures even { (k : ℕ) → k < result → differs_by threshold (slice_index first.now k) (slice_index second.now k) ≡ false }
{
    let mut most = 0;
    for k in 0..first.len() {
        most = most.max(first[k].abs_diff(second[k]));
    }
    if u64::from(most) < threshold {
        first.len()
    } else {
        0
    }
}

/// The first place from `from` on where the values of a pair differ by the threshold or more, and the end of the row where
/// there is none.
fn next_steep(threshold: u64, first: &[u32], second: &[u32], from: usize) -> usize
    requires same { length second.now ≡ length first.now }
    requires within { from ≤ length first.now }
    ensures order { from ≤ result }
    ensures within { result ≤ length first.now }
    ensures before { (k : ℕ) → from ≤ k → k < result → differs_by threshold (slice_index first.now k) (slice_index second.now k) ≡ false }
    ensures here { result < length first.now → differs_by threshold (slice_index first.now result) (slice_index second.now result) ≡ true }
{
    for k in from..first.len() {
        if differs_by(threshold, first[k], second[k]) {
            return k;
        }
    }
    first.len()
}

/// The first place from `from` on where the values of a pair differ by less than the threshold, and the end of the row where
/// there is none.
fn next_even(threshold: u64, first: &[u32], second: &[u32], from: usize) -> usize
    requires same { length second.now ≡ length first.now }
    requires within { from ≤ length first.now }
    ensures order { from ≤ result }
    ensures within { result ≤ length first.now }
    ensures before { (k : ℕ) → from ≤ k → k < result → differs_by threshold (slice_index first.now k) (slice_index second.now k) ≡ true }
{
    for k in from..first.len() {
        if !differs_by(threshold, first[k], second[k]) {
            return k;
        }
    }
    first.len()
}

/// Tags both cells of the pairs from `start` to before `end`, as far as they lie in the part.
fn tag_span(tags: &mut Tags, pairs: &PairRow, start: usize, end: usize)
    requires some { start < end }
    requires small { end ≤ 67108864 }
    requires room { IsBelow 536870912 pairs.now.from }
    ensures { IsJoined (λ c. holds pairs.now.part c
        && holds (with_after pairs.now.axis (region (ahead pairs.now.from start) (end - start) 1)) c) tags.old tags.new }
{
    let low = Cell {
        x: pairs.from.x + start as i32,
        y: pairs.from.y,
    };
    let last = Cell {
        x: pairs.from.x + (end - 1) as i32,
        y: pairs.from.y,
    };
    let both = Bx::try_new(low, after(pairs.axis, last)).unwrap();
    match pairs.part.meet(&both) {
        None => {}
        Some(here) => tags.set_in(here),
    }
}

/// Tags the cells of the next pairs from `done` on whose values differ by the threshold or more, as many of them as follow one
/// another. Answers where they end.
fn tag_next(tags: &mut Tags, pairs: &PairRow, first: &[u32], second: &[u32], done: usize) -> usize
    requires same { length second.now ≡ length first.now }
    requires more { done < length first.now }
    requires small { length first.now ≤ 67108864 }
    requires room { IsBelow 536870912 pairs.now.from }
    ensures order { done < result }
    ensures within { result ≤ length first.now }
    ensures joined { (value : Cell → ℕ) → AreAlong value pairs.now.axis pairs.now.from first.now second.now
        → IsJoined (λ c. holds pairs.now.part c
        && in_steep_pair pairs.now.threshold value pairs.now.axis (region (ahead pairs.now.from done) (result - done) 1) c) tags.old tags.new }
{
    let start = next_steep(pairs.threshold, first, second, done);
    if start == first.len() {
        return start;
    }
    let end = next_even(pairs.threshold, first, second, start + 1);
    tag_span(tags, pairs, start, end);
    end
}

/// Tags the cells of the pairs of a row whose values differ by the threshold or more. The values of the first cells and those
/// of the second cells are given, in the order of the row.
pub(crate) fn tag_pairs(tags: &mut Tags, pairs: &PairRow, first: &[u32], second: &[u32])
    requires same { length second.now ≡ length first.now }
    requires small { length first.now ≤ 67108864 }
    requires room { IsBelow 536870912 pairs.now.from }
    ensures { (value : Cell → ℕ) → AreAlong value pairs.now.axis pairs.now.from first.now second.now
        → IsJoined (λ c. holds pairs.now.part c
        && in_steep_pair pairs.now.threshold value pairs.now.axis (region pairs.now.from (length first.now) 1) c) tags.old tags.new }
{
    let mut done = count_even(pairs.threshold, first, second);
    while done < first.len() {
        done = tag_next(tags, pairs, first, second, done);
    }
}
